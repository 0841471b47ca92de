// Arrows from place to place of a batch that is refused.

use crate::excerpts::{Excerpt, characters, line_start, piece_of};
use crate::page::{CHARACTER, LINE, MARGIN, Page};
use crate::panels::Corner;
use rb_trees::{Memory, Refusal, Seq};
use std::alloc::Global;

/// The places that a refusal names, in the order in which it tells them.
pub fn places_of(alloc: Global, refusal: &Refusal) -> Result<Seq<u32>, Memory> {
    match refusal {
        Refusal::Flow(chain) => Seq::from_slice(alloc, chain.as_slice()),
        Refusal::UnderLocalCondition(condition, operation) => {
            Seq::from_slice(alloc, &[*condition, *operation])
        }
        Refusal::NotConstant(at)
        | Refusal::Escapes(at)
        | Refusal::BatchInside(at)
        | Refusal::InTry(at)
        | Refusal::RemoteVar(at)
        | Refusal::TooManyInputs(at, _)
        | Refusal::ScriptTooLarge(at, _) => Seq::from_slice(alloc, &[*at]),
    }
}

/// How many line feeds some bytes have.
fn lines_in(bytes: &[u8]) -> usize {
    let mut count = 0usize;
    for byte in bytes {
        if *byte == b'\n' {
            count = count.saturating_add(1);
        }
    }
    count
}

/// Where a position of the source stands in the picture, whose excerpt begins at a corner.
fn spot(source: &[u8], corner: Corner, excerpt: Excerpt, at: u32) -> Corner {
    let at = at as usize;
    let column = characters(piece_of(source, line_start(source, at), at));
    let place = corner.below(lines_in(piece_of(source, excerpt.from, at)));
    Corner {
        x: place.x.saturating_add(column.saturating_mul(CHARACTER)),
        y: place.y,
    }
}

/// Underlines a place, and numbers it.
fn add_spot(page: &mut Page, spot: Corner, number: usize) -> Result<(), Memory> {
    let Corner { x, y } = spot;
    let (right, under, above) = (
        x.saturating_add(CHARACTER),
        y.saturating_add(4),
        y.saturating_sub(LINE / 2),
    );
    let piece = format!(in page.alloc();
        "<path d=\"M{x},{under} H{right}\" stroke=\"#b00020\" stroke-width=\"2\"/><text x=\"{x}\" y=\"{above}\" style=\"font-size:9px\" fill=\"#b00020\">{number}</text>\n"
    )?;
    page.add(piece.as_str())
}

/// The way of an arrow: under the line to a place of the same line, and else around the right of both places.
fn way(alloc: Global, from: Corner, to: Corner) -> Result<String, Memory> {
    let (x1, y1, x2) = (from.x, from.y.saturating_add(6), to.x);
    if from.y == to.y {
        let low = y1.saturating_add(LINE / 2);
        return Ok(format!(in alloc; "M{x1},{y1} C{x1},{low} {x2},{low} {x2},{y1}")?);
    }
    let y2 = to.y.saturating_sub(LINE / 2 + 2);
    let bend = x1.max(x2).saturating_add(MARGIN.saturating_mul(3));
    Ok(format!(in alloc; "M{x1},{y1} C{bend},{y1} {bend},{y2} {x2},{y2}")?)
}

/// Draws an arrow from a place to another.
fn add_arrow(page: &mut Page, from: Corner, to: Corner) -> Result<(), Memory> {
    let way = way(page.alloc(), from, to)?;
    page.add("<path d=\"")?;
    page.add(way.as_str())?;
    page.add("\" fill=\"none\" stroke=\"#b00020\" opacity=\".7\" marker-end=\"url(#head)\"/>\n")
}

/// Marks the places of a refusal in an excerpt that begins at a corner, and draws arrows from each to the next.
pub fn add_arrows(
    page: &mut Page,
    source: &[u8],
    corner: Corner,
    excerpt: Excerpt,
    places: &[u32],
) -> Result<(), Memory> {
    let mut last = None;
    let mut number = 0usize;
    for at in places {
        let here = spot(source, corner, excerpt, *at);
        number = number.saturating_add(1);
        add_spot(page, here, number)?;
        if let Some(last) = last {
            add_arrow(page, last, here)?;
        }
        last = Some(here);
    }
    Ok(())
}
