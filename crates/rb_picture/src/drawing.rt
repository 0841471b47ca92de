// The pictures of batches that are divided, and of one that is refused.

use crate::arrows::{add_arrows, places_of};
use crate::excerpts::{Excerpt, Text, piece_of};
use crate::page::{LINE, MARGIN, Page};
use crate::panels::{Corner, add_excerpt, add_line, add_lines, width_of};
use rb_help::{Trouble, explain};
use rb_marks::Marks;
use rb_places::Places;
use rb_shown::{add_parts, add_steps};
use rb_trees::{Memory, Refusal, Seq, Split, Word};
use std::alloc::Global;

/// A program's text with its marks and the places of its lines.
#[derive(Clone, Copy)]
pub struct Scene<'a> {
    pub text: Text<'a>,
    pub marks: &'a Marks,
    pub places: &'a Places<'a>,
}

/// The corner of the next section of a page.
fn next_section(page: &Page) -> Corner {
    Corner {
        x: MARGIN,
        y: page.height().saturating_add(MARGIN).saturating_add(LINE),
    }
}

/// The corner of the panel beside an excerpt.
fn beside(corner: Corner, scene: &Scene<'_>, excerpt: Excerpt) -> Corner {
    let width = width_of(piece_of(scene.text.source, excerpt.from, excerpt.to));
    Corner {
        x: corner.x.saturating_add(width).saturating_add(MARGIN),
        y: corner.y,
    }
}

/// The steps of a division's script as text.
fn steps_text(alloc: Global, split: &Split) -> Result<Word, Memory> {
    let mut text = Seq::new(alloc);
    add_steps(alloc, b"", split.script.body.as_slice(), &mut text)?;
    Ok(text)
}

/// The names of a division's inputs as text, each beside what the script calls it.
fn inputs_text(alloc: Global, split: &Split) -> Result<Word, Memory> {
    let mut text = Seq::new(alloc);
    let mut number = 0usize;
    for name in split.inputs.as_slice() {
        let input = format!(in alloc; "in{number} is ")?;
        text.extend_from_slice(input.as_bytes())?;
        text.extend_from_slice(name.as_slice())?;
        text.push(b'\n')?;
        number = number.saturating_add(1);
    }
    Ok(text)
}

/// The parts of a division's remainder as text.
fn parts_text(alloc: Global, split: &Split) -> Result<Word, Memory> {
    let mut text = Seq::new(alloc);
    add_parts(alloc, b"", split.remainder.as_slice(), &mut text)?;
    Ok(text)
}

/// The colours of a batch, and what they say.
const LEGEND: [(&str, &[u8]); 3] = [
    ("remote", b"sent to the server"),
    ("constant", b"known on both sides"),
    ("local", b"performed here"),
];

/// Draws what the colours say.
pub fn draw_legend(page: &mut Page) -> Result<(), Memory> {
    let mut corner = next_section(page);
    for (class, line) in LEGEND {
        add_line(page, corner, class, line)?;
        corner = corner.below(1);
    }
    Ok(())
}

/// The line above a batch: where it stands.
fn add_title(page: &mut Page, corner: Corner, scene: &Scene<'_>, at: u32) -> Result<(), Memory> {
    let line = scene.places.line(at);
    let title = format!(in page.alloc(); "batch at line {line}")?;
    add_line(page, corner, "title", title.as_bytes())
}

/// Draws batches, each beside its script and its remainder.
pub fn draw_divisions(page: &mut Page, scene: &Scene<'_>, splits: &[Split]) -> Result<(), Memory> {
    for split in splits {
        draw_division(page, scene, split)?;
    }
    Ok(())
}

/// Draws a batch beside its script and its remainder.
fn draw_division(page: &mut Page, scene: &Scene<'_>, split: &Split) -> Result<(), Memory> {
    let corner = next_section(page);
    let excerpt = scene.text.batch_at(split.at);
    add_title(page, corner, scene, split.at)?;
    add_excerpt(page, corner.below(1), scene.text, scene.marks, excerpt)?;
    let side = beside(corner, scene, excerpt);
    add_line(page, side, "title", b"script, on the server")?;
    let inputs = inputs_text(page.alloc(), split)?;
    let steps = steps_text(page.alloc(), split)?;
    let under = add_lines(page, side.below(1), "constant", inputs.as_slice())?;
    let below = add_lines(page, under, "remote", steps.as_slice())?;
    add_line(page, below.below(1), "title", b"remainder, on the client")?;
    let parts = parts_text(page.alloc(), split)?;
    add_lines(page, below.below(2), "local", parts.as_slice())?;
    Ok(())
}

/// Draws a batch that is refused, with arrows, beside what is said of it.
pub fn draw_refusal(
    page: &mut Page,
    scene: &Scene<'_>,
    name: &[u8],
    refusal: &Refusal,
) -> Result<(), Memory> {
    let places = places_of(page.alloc(), refusal)?;
    let Some(first) = places.as_slice().first() else {
        return Ok(());
    };
    let at = scene.text.batch_before(*first);
    let excerpt = scene.text.batch_at(at);
    let corner = next_section(page);
    add_title(page, corner, scene, at)?;
    add_excerpt(page, corner.below(1), scene.text, scene.marks, excerpt)?;
    add_arrows(
        page,
        scene.text.source,
        corner.below(1),
        excerpt,
        places.as_slice(),
    )?;
    let side = beside(corner, scene, excerpt);
    let said = explain(
        page.alloc(),
        name,
        scene.text.source,
        &Trouble::Refused(refusal),
    )?;
    add_line(page, side, "title", b"refused")?;
    add_lines(page, side.below(1), "plain", said.as_slice())?;
    Ok(())
}
