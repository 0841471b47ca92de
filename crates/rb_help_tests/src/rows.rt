// Rows of texts, and what is told of each.
//
// Rows are parted by lines `====`, and the parts of a row by lines `----`: what is asked, a text, what is told of it, and, in
// some, that text mended, of which nothing is told. Where the same is told of several texts, these are parted by lines `....`.

use crate::programs::told;
use crate::text::Text;
use std::alloc::Global;
use std::str;
use std::test::Fail;

/// Which part of what is told stands in a row.
#[derive(Clone, Copy)]
pub enum Part {
    Whole,
    /// What stands at its front, in the file `a.rbi`.
    Front,
    /// The sentences behind the lines that are quoted.
    Sentences,
}

/// What stands behind the last line with a caret.
fn sentences(told: &[u8]) -> &[u8] {
    let mut start = 0;
    let mut from = 0;
    for line in told.split(|byte| *byte == b'\n') {
        from = line.len().saturating_add(from).saturating_add(1);
        let is_margin = line.trim_ascii_start().first() == Some(&b'|');
        if is_margin && line.contains(&b'^') {
            start = from;
        }
    }
    told.get(start..).unwrap_or(b"")
}

/// A part of what is told, with so many bytes where it is the front.
fn part_of(told: &[u8], part: Part, length: usize) -> &[u8] {
    match part {
        Part::Whole => told,
        Part::Front => told.get(..length).unwrap_or(told),
        Part::Sentences => sentences(told),
    }
}

/// Fails, with the row, where something else is told than is wanted and a line feed.
fn expect(row: &str, told: &[u8], wanted: &str) -> Result<(), Fail> {
    if let [front @ .., b'\n'] = told {
        if front == wanted.as_bytes() {
            return Ok(());
        }
    }
    let told = str::from_utf8(told).unwrap_or("no UTF-8");
    Err(Fail::new(format_args!("{row}\nis the row, and this is told:\n{told}")))
}

/// Fails unless this part of what is told of a text is wanted.
fn is_told(text: Text<'_>, part: Part, asked: &str, wanted: &str, row: &str) -> Result<(), Fail> {
    let told = told(text, asked)?;
    let length = wanted.len().saturating_add(1);
    expect(row, part_of(told.as_slice(), part, length), wanted)
}

/// Fails where anything is told of a text.
fn is_right(text: Text<'_>, asked: &str, row: &str) -> Result<(), Fail> {
    let told = told(text, asked)?;
    if told.is_empty() {
        return Ok(());
    }
    Err(Fail::new(format_args!("{row}\nis the row, and what is mended isn't right")))
}

/// Fails unless that is told of the texts of a row.
fn row_is_told(alloc: Global, part: Part, row: &str) -> Result<(), Fail> {
    let file = if let Part::Front = part { "a.rbi" } else { "" };
    let mut parts = row.split("\n----\n");
    let asked = parts.next().unwrap_or("");
    let sources = parts.next().unwrap_or("");
    let wanted = parts.next().unwrap_or("");
    for source in sources.split("\n....\n") {
        is_told(
            Text {
                alloc,
                file,
                source,
            },
            part,
            asked,
            wanted,
            row,
        )?;
    }
    match parts.next() {
        Some(source) => is_right(
            Text {
                alloc,
                file,
                source,
            },
            asked,
            row,
        ),
        None => Ok(()),
    }
}

/// Fails unless that is told of the texts of all rows.
pub fn all_told(alloc: Global, part: Part, rows: &str) -> Result<(), Fail> {
    for row in rows.split("\n====\n") {
        row_is_told(alloc, part, row)?;
    }
    Ok(())
}
