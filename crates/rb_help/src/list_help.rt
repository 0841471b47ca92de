// What is said where local code would go over a list with a call in its loop.

use crate::batch_parts::{
    BatchSpan, are_from_before, assigned_within, declaration_of, is_declared_by, is_from_before,
    is_in_loop, statement_in,
};
use crate::flow_help::{is_assigned_later, say_end_before, say_move};
use crate::refusal_texts;
use rb_pieces::around::{is_among, is_name};
use rb_pieces::spans::{Span, closing};
use rb_pieces::{Page, Pieces};
use rb_trees::Memory;
use rb_type_help::{Written, known_type};

/// What the loop at a piece goes over.
fn list_of(pieces: &Pieces<'_>, word: usize) -> Span {
    let open = word.saturating_add(1);
    Span {
        first: open.saturating_add(3),
        last: closing(pieces, open).saturating_sub(1),
    }
}

/// Whether the text tells that the items of a list are neither Ints, Bools nor Texts.
fn has_other_items(pieces: &Pieces<'_>, list: Span) -> bool {
    match known_type(pieces, list) {
        Written::From(piece) if pieces.is_later(piece, 0, b"List") => {
            !is_among(pieces.later(piece, 2), b"Int Bool Text")
        }
        _ => false,
    }
}

/// Whether what gives a variable its value can stand before a batch.
fn can_move(pieces: &Pieces<'_>, batch: &BatchSpan, index: usize) -> bool {
    let name = pieces.text(index);
    let Some(place) = declaration_of(pieces, index) else {
        return false;
    };
    if place > batch.open {
        let is_bound = is_declared_by(pieces, place, b"val")
            || is_declared_by(pieces, place, b"var");
        if !is_bound || !is_from_before(pieces, batch, name, place.saturating_add(2)) {
            return false;
        }
    }
    are_from_before(pieces, batch, name)
}

/// Whether a variable comes from outside a batch that doesn't assign it.
fn is_constant(pieces: &Pieces<'_>, batch: &BatchSpan, index: usize) -> bool {
    declaration_of(pieces, index).is_some_and(|place| place < batch.open)
        && assigned_within(pieces, pieces.text(index), batch.open, batch.close).is_none()
}

/// What to do about a loop over a variable.
fn say_variable(
    page: &mut Page,
    pieces: &Pieces<'_>,
    batch: &BatchSpan,
    word: usize,
    index: usize,
) -> Result<(), Memory> {
    let statement = statement_in(pieces, batch.open, word);
    let name = pieces.text(index);
    if is_constant(pieces, batch, index) {
        return page.sentence(refusal_texts::LIST_OF_ITEMS, b"", b"");
    }
    if !is_in_loop(pieces, batch, word) && is_assigned_later(pieces, batch, statement, index) {
        return page.sentence(refusal_texts::COPY_LIST, name, b"");
    }
    if can_move(pieces, batch, index) {
        return say_move(page, pieces, batch, index);
    }
    if statement == word {
        return say_end_before(page, pieces, batch, word);
    }
    page.sentence(refusal_texts::LIST_BEHIND, b"", b"")
}

/// What is said where local code would go over a list with a call in its loop, which begins at a piece.
pub fn say_list(
    page: &mut Page,
    pieces: &Pieces<'_>,
    batch: &BatchSpan,
    word: usize,
) -> Result<(), Memory> {
    let list = list_of(pieces, word);
    page.sentence(refusal_texts::LOCAL_LIST, b"", b"")?;
    if has_other_items(pieces, list) {
        return page.sentence(refusal_texts::LIST_OF_ITEMS, b"", b"");
    }
    if list.first == list.last && is_name(pieces.text(list.first)) {
        return say_variable(page, pieces, batch, word, list.first);
    }
    if is_from_before(pieces, batch, b"", list.first) {
        let text = pieces.between(list.first, list.last);
        return page.sentence(refusal_texts::BIND_LIST, text, b"");
    }
    page.sentence(refusal_texts::LIST_BEHIND, b"", b"")
}
