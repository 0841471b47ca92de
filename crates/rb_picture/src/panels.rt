// Panels of lines.

use crate::colours::class_of;
use crate::excerpts::{Excerpt, Text, characters, piece_of, whole_lines};
use crate::page::{CHARACTER, LINE, MARGIN, Page};
use rb_marks::Marks;
use rb_trees::Memory;

/// A place of the page.
#[derive(Clone, Copy)]
pub struct Corner {
    pub x: usize,
    pub y: usize,
}

impl Corner {
    /// The same, so many lines further down.
    pub fn below(self, lines: usize) -> Corner {
        Corner {
            x: self.x,
            y: self.y.saturating_add(lines.saturating_mul(LINE)),
        }
    }
}

/// Begins a line of so many characters, of a class.
fn begin_line(page: &mut Page, at: Corner, class: &str, count: usize) -> Result<(), Memory> {
    let Corner { x, y } = at;
    let width = count.saturating_mul(CHARACTER);
    page.reach(x.saturating_add(width), y);
    let begin = format!(in page.alloc();
        "<text class=\"{class}\" x=\"{x}\" y=\"{y}\" textLength=\"{width}\" xml:space=\"preserve\">"
    )?;
    page.add(begin.as_str())
}

/// Adds a line of a class.
pub fn add_line(page: &mut Page, at: Corner, class: &str, line: &[u8]) -> Result<(), Memory> {
    if line.is_empty() {
        return Ok(());
    }
    begin_line(page, at, class, characters(line))?;
    page.add_text(line)?;
    page.add("</text>\n")
}

/// Adds the lines of a text, and answers the place below them.
pub fn add_lines(page: &mut Page, at: Corner, class: &str, text: &[u8]) -> Result<Corner, Memory> {
    let mut place = at;
    for line in whole_lines(text).split(|byte| *byte == b'\n') {
        add_line(page, place, class, line)?;
        place = place.below(1);
    }
    Ok(place)
}

/// The class of what is neither sent nor performed here, which is that of the whole line.
const PLAIN: &str = "plain";

/// Adds a piece of a line in a colour of its own.
fn add_piece(page: &mut Page, class: &str, piece: &[u8]) -> Result<(), Memory> {
    if class == PLAIN {
        return page.add_text(piece);
    }
    page.add("<tspan class=\"")?;
    page.add(class)?;
    page.add("\">")?;
    page.add_text(piece)?;
    page.add("</tspan>")
}

/// Adds the tokens of a line in their colours, and what stands between them.
fn add_tokens(page: &mut Page, text: Text<'_>, marks: &Marks, line: Excerpt) -> Result<(), Memory> {
    let mut done = line.from;
    for token in text.tokens_from(line.from) {
        let (start, end) = (token.start as usize, token.end as usize);
        if end > line.to {
            break;
        }
        page.add_text(piece_of(text.source, done, start))?;
        add_piece(
            page,
            class_of(marks, *token),
            piece_of(text.source, start, end),
        )?;
        done = end;
    }
    page.add_text(piece_of(text.source, done, line.to))
}

/// Adds lines of the source in their colours, and answers the place below them.
pub fn add_excerpt(
    page: &mut Page,
    at: Corner,
    text: Text<'_>,
    marks: &Marks,
    excerpt: Excerpt,
) -> Result<Corner, Memory> {
    let mut place = at;
    let mut from = excerpt.from;
    let lines = piece_of(text.source, excerpt.from, excerpt.to);
    for line in lines.split(|byte| *byte == b'\n') {
        let to = from.saturating_add(line.len());
        add_coloured_line(page, place, text, marks, Excerpt { from, to })?;
        place = place.below(1);
        from = to.saturating_add(1);
    }
    Ok(place)
}

/// Adds a line of the source in its colours.
fn add_coloured_line(
    page: &mut Page,
    at: Corner,
    text: Text<'_>,
    marks: &Marks,
    line: Excerpt,
) -> Result<(), Memory> {
    let count = characters(piece_of(text.source, line.from, line.to));
    if count == 0 {
        return Ok(());
    }
    begin_line(page, at, PLAIN, count)?;
    add_tokens(page, text, marks, line)?;
    page.add("</text>\n")
}

/// How wide the lines of a piece of text are.
pub fn width_of(text: &[u8]) -> usize {
    let mut widest = 0usize;
    for line in text.split(|byte| *byte == b'\n') {
        widest = widest.max(characters(line));
    }
    widest.saturating_mul(CHARACTER).saturating_add(MARGIN)
}
