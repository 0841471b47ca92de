// Carets under quoted lines.

use crate::quotes::cut_at;
use rb_pieces::{Page, shown};
use rb_trees::{Memory, Word};
use std::alloc::Global;
use unicode_width::UnicodeWidthChar;

/// Adds what is as wide as a character: a tab for a tab, and spaces for all else.
fn add_width(character: char, page: &mut Page) -> Result<(), Memory> {
    if character == '\t' {
        return page.add(b"\t");
    }
    match character.width() {
        Some(1) => page.add(b" "),
        Some(2) => page.add(b"  "),
        Some(3) => page.add(b"   "),
        _ => Ok(()),
    }
}

/// Adds what is as wide as bytes of a text are where they are shown.
fn add_padding(alloc: Global, bytes: &[u8], page: &mut Page) -> Result<(), Memory> {
    let text = shown(alloc, bytes)?;
    for character in text.chars() {
        add_width(character, page)?;
    }
    Ok(())
}

/// Adds what is as wide as the part of a line that is shown before a place.
fn add_front(alloc: Global, source: &[u8], at: u32, page: &mut Page) -> Result<(), Memory> {
    let cut = cut_at(source, at);
    if cut.is_cut_before {
        page.add(b"   ")?;
    }
    add_padding(alloc, &cut.part[..cut.offset], page)
}

/// The line under a quote, with a caret under the place and a label beside it. The bar stands behind so many columns.
pub fn caret(
    alloc: Global,
    source: &[u8],
    at: u32,
    columns: usize,
    label: &[u8],
) -> Result<Word, Memory> {
    let mut page = Page::new(alloc);
    page.spaces(columns)?;
    page.add(b" | ")?;
    add_front(alloc, source, at, &mut page)?;
    page.add(b"^")?;
    if !label.is_empty() {
        page.add(b" ")?;
        page.add(label)?;
    }
    page.add(b"\n")?;
    Ok(page.into_word())
}
