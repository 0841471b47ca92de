// Colours for a terminal.

ghost use Rattle.std.specs.Prelude.{◌≡◌, ◌≤◌, length, IfOk};
ghost use Rattle.rb_help.specs.Appends.{Appends};
ghost use Rattle.rb_help.specs.Colours as words;
ghost use Rattle.rb_help.specs.Colours.{IsPainted};

use crate::lines::length_of_first;
use rb_trees::{Memory, Seq, Word};
use std::alloc::Global;

/// How a part of a text is shown.
#[derive(Clone, Copy)]
enum Paint {
    Plain,
    Bold,
    /// Bold and blue.
    Blue,
    /// Bold and red.
    Red,
}

/// What makes a terminal show what follows in a paint: `sign_of`.
fn sign_of(paint: Paint) -> &'static [u8]
    ensures { result.now ≡ words.sign_of paint }
{
    match paint {
        Paint::Plain => b"\x1b[0m",
        Paint::Bold => b"\x1b[1m",
        Paint::Blue => b"\x1b[1;34m",
        Paint::Red => b"\x1b[1;31m",
    }
}

/// Adds a part of a text in its paint: `painted`.
fn add_part(paint: Paint, part: &[u8], into: &mut Word) -> Result<(), Memory>
    ensures { Appends (words.painted paint part.now) into.old result into.new }
{
    if let Paint::Plain = paint {
        return into.extend_from_slice(part);
    }
    into.extend_from_slice(sign_of(paint))?;
    into.extend_from_slice(part)?;
    into.extend_from_slice(sign_of(Paint::Plain))
}

/// How long the margin of a line is: its number, if it has one, and the bar. A sentence has none.
fn margin_of(line: &[u8]) -> usize
    ensures { result ≤ length line.now }
{
    let inside = line
        .iter()
        .take_while(|byte| matches!(**byte, b' ' | b'0'..=b'9'))
        .count();
    match line.get(inside) {
        Some(b'|') => inside + 1,
        _ => 0,
    }
}

/// The paint of what stands behind a margin: a caret and its label are red, and a line of the text is plain.
fn paint_behind(margin: &[u8]) -> Paint {
    if margin.iter().any(|byte| byte.is_ascii_digit()) {
        Paint::Plain
    } else {
        Paint::Red
    }
}

/// Whether a line is a heading, which ends with a line, a column and a colon.
fn is_heading(line: &[u8]) -> bool {
    let mut parts = line.rsplit(|byte| *byte == b':');
    parts.next() == Some(b"") && is_number(parts.next()) && is_number(parts.next())
}

/// Whether a part of a line is a number.
fn is_number(part: Option<&[u8]>) -> bool {
    part.is_some_and(|part| !part.is_empty() && part.iter().all(u8::is_ascii_digit))
}

/// The paint of a line that has no margin: a heading is bold, and a sentence is in the paint that is given.
fn paint_of(line: &[u8], sentence: Paint) -> Paint {
    if is_heading(line) {
        Paint::Bold
    } else {
        sentence
    }
}

/// A line without its line feed in its paints: that of a sentence is given.
fn painted_line(alloc: Global, line: &[u8], sentence: Paint) -> Result<Word, Memory>
    ensures { IfOk result (λ shown. IsPainted line.now shown) }
{
    let (margin, behind) = line.split_at(margin_of(line));
    let mut shown = Seq::new(alloc);
    if margin.is_empty() {
        add_part(paint_of(line, sentence), line, &mut shown)?;
    } else {
        add_part(Paint::Blue, margin, &mut shown)?;
        add_part(paint_behind(margin), behind, &mut shown)?;
    }
    Ok(shown)
}

/// What a person is told, in colours for a terminal: headings and the first sentence bold, the numbers of lines blue, and
/// carets and their labels red.
///
/// It is the same text, part by part, with signs for the terminal around some of the parts (`IsPainted`).
pub fn coloured(alloc: Global, text: &[u8]) -> Result<Word, Memory>
    ensures { IfOk result (λ shown. IsPainted text.now shown) }
{
    let mut shown = Seq::new(alloc);
    let mut sentence = Paint::Bold;
    let mut rest = text;
    while !rest.is_empty() {
        let (line, behind) = rest.split_at(length_of_first(rest));
        let painted = painted_line(alloc, line, sentence)?;
        shown.extend_from_slice(painted.as_slice())?;
        if margin_of(line) == 0 && !is_heading(line) {
            sentence = Paint::Plain;
        }
        let (feed, next) = behind.split_at(behind.len().min(1));
        shown.extend_from_slice(feed)?;
        rest = next;
    }
    Ok(shown)
}
