// What is said beside carets.

use crate::texts;
use crate::trouble::Trouble;
use rb_pieces::declarations::bound_name;
use rb_pieces::{Page, Pieces};
use rb_trees::{Memory, Refusal, Word};
use std::alloc::Global;

/// What flows into, at an assignment: the name left of it, which may be that of a field.
fn add_assigned(pieces: &Pieces<'_>, index: usize, page: &mut Page) -> Result<(), Memory> {
    let name = pieces.earlier(index, 1);
    if pieces.is_earlier(index, 2, b".") {
        page.fill(texts::FLOWS_INTO_FIELD, name, b"")
    } else {
        page.fill(texts::FLOWS_INTO, name, b"")
    }
}

/// What flows into, at a place in the middle of a chain.
fn add_middle(pieces: &Pieces<'_>, at: u32, page: &mut Page) -> Result<(), Memory> {
    let index = pieces.index_of(at);
    match pieces.text(index) {
        b"val" | b"var" | b"for" | b"try" => {
            let name = pieces.text(bound_name(pieces, index));
            page.fill(texts::FLOWS_INTO, name, b"")
        }
        b"=" => add_assigned(pieces, index, page),
        _ => page.add(texts::FLOWS_INTO_OBJECT),
    }
}

/// What is said at a place of a chain, by its number in the chain.
fn add_link(
    pieces: &Pieces<'_>,
    chain: &[u32],
    number: usize,
    page: &mut Page,
) -> Result<(), Memory> {
    if number == 0 {
        return page.add(texts::THIS_RESULT);
    }
    match chain.get(number) {
        Some(at) if number < chain.len() - 1 => add_middle(pieces, *at, page),
        _ => page.add(texts::SENT_BACK),
    }
}

/// What is said at a position of a refusal.
fn add_label(
    pieces: &Pieces<'_>,
    refusal: &Refusal,
    number: usize,
    page: &mut Page,
) -> Result<(), Memory> {
    match refusal {
        Refusal::Flow(chain) => add_link(pieces, chain.as_slice(), number, page),
        Refusal::UnderLocalCondition(_, _) if number == 0 => page.add(texts::DECIDED_HERE),
        Refusal::UnderLocalCondition(_, _) => page.add(texts::WAITS_HERE),
        _ => Ok(()),
    }
}

/// What is said beside the caret at a position of a trouble, by its number in the trouble's order.
pub fn label(
    alloc: Global,
    pieces: &Pieces<'_>,
    trouble: &Trouble<'_>,
    number: usize,
) -> Result<Word, Memory> {
    let mut page = Page::new(alloc);
    if let Trouble::Refused(refusal) = trouble {
        add_label(pieces, refusal, number, &mut page)?;
    }
    Ok(page.into_word())
}
