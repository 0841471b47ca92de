// What is said where a result would be sent again, or something would be sent that isn't known.

use crate::batch_parts::{
    Across, BatchSpan, assigned_within, batch_around, bound_across, declaration_of, is_declared_by,
    is_portable, is_straight, statement_in,
};
use crate::refusal_texts;
use rb_pieces::spans::span_at;
use rb_pieces::{Page, Pieces};
use rb_trees::Memory;

/// The variable that a piece is, or nothing where it is none.
fn variable_at<'a>(pieces: &Pieces<'a>, index: usize) -> Option<&'a [u8]> {
    let text = pieces.text(index);
    if pieces.is_earlier(index, 1, b".") || pieces.is_later(index, 1, b"(") {
        return None;
    }
    match text {
        b"this" | b"List" | b"new" => None,
        [b'a'..=b'z' | b'A'..=b'Z' | b'_', ..] => Some(text),
        _ => None,
    }
}

/// What a statement is told by: all of it before its `;` or `{`.
fn head_of_statement<'a>(pieces: &Pieces<'a>, first: usize) -> &'a [u8] {
    for place in first..pieces.len() {
        if matches!(pieces.later(place, 1), b";" | b"{" | b"") {
            return pieces.between(first, place);
        }
    }
    pieces.text(first)
}

/// Says to declare before a batch what it binds before a statement and uses from there on.
pub fn say_declare(
    page: &mut Page,
    pieces: &Pieces<'_>,
    batch: &BatchSpan,
    statement: usize,
) -> Result<(), Memory> {
    match bound_across(pieces, batch, statement) {
        Across::None => Ok(()),
        Across::One(name) => page.sentence(refusal_texts::DECLARE_BEFORE, name, b""),
        Across::Several => page.sentence(refusal_texts::DECLARE_ALL_BEFORE, b"", b""),
    }
}

/// Says to end a batch before one of its statements and to begin another one there.
pub fn say_end_before(
    page: &mut Page,
    pieces: &Pieces<'_>,
    batch: &BatchSpan,
    statement: usize,
) -> Result<(), Memory> {
    say_declare(page, pieces, batch, statement)?;
    let head = head_of_statement(pieces, statement);
    page.sentence_of(refusal_texts::END_BEFORE, head, pieces.line(statement))
}

/// Says to bind between two batches what the second one sends, where it is no variable.
fn say_between(
    page: &mut Page,
    pieces: &Pieces<'_>,
    index: usize,
    is_variable: bool,
) -> Result<(), Memory> {
    if is_variable {
        return Ok(());
    }
    let span = span_at(pieces, index);
    let sent = pieces.between(span.first, span.last);
    page.sentence(refusal_texts::BIND_BETWEEN, sent, b"")
}

/// Whether each value of a variable that is declared in a batch can be bound by a `val`.
fn has_vals(pieces: &Pieces<'_>, batch: &BatchSpan, declaration: usize, index: usize) -> bool {
    declaration > batch.open
        && is_declared_by(pieces, declaration, b"var")
        && is_straight(pieces, declaration, index)
        && assigned_within(pieces, pieces.text(declaration), index, batch.close).is_none()
}

/// Says to bind by `val` what a variable holds, where the server can keep it, and whether it was said.
fn say_vals(
    page: &mut Page,
    pieces: &Pieces<'_>,
    batch: &BatchSpan,
    index: usize,
) -> Result<bool, Memory> {
    let Some(declaration) = declaration_of(pieces, index) else {
        return Ok(false);
    };
    if !has_vals(pieces, batch, declaration, index) {
        return Ok(false);
    }
    let name = pieces.text(declaration);
    if assigned_within(pieces, name, declaration, index).is_some() {
        page.sentence(refusal_texts::VAL_FOR_EACH, name, b"")?;
    } else {
        let line = pieces.line(declaration);
        page.sentence_of(refusal_texts::VAL_FOR_VAR, name, line)?;
    }
    Ok(true)
}

/// Whether a variable from before a batch is assigned in it, and there only from a statement on.
pub fn is_assigned_later(
    pieces: &Pieces<'_>,
    batch: &BatchSpan,
    statement: usize,
    index: usize,
) -> bool {
    let name = pieces.text(index);
    let is_outside = declaration_of(pieces, index).is_some_and(|place| place < batch.open);
    is_outside
        && assigned_within(pieces, name, batch.open, statement).is_none()
        && assigned_within(pieces, name, index, batch.close).is_some()
}

/// What to do about a flow into a piece, with its last writer at another.
fn say_flow_mend(
    page: &mut Page,
    pieces: &Pieces<'_>,
    batch: &BatchSpan,
    writer: usize,
    index: usize,
) -> Result<(), Memory> {
    let statement = statement_in(pieces, batch.open, index);
    let is_variable = variable_at(pieces, index).is_some();
    if is_variable && say_vals(page, pieces, batch, index)? {
        return Ok(());
    }
    if writer < statement {
        say_end_before(page, pieces, batch, statement)?;
        return say_between(page, pieces, index, is_variable);
    }
    if is_variable && is_assigned_later(pieces, batch, statement, index) {
        return page.sentence(refusal_texts::COPY_BEFORE, pieces.text(index), b"");
    }
    page.sentence(refusal_texts::AFTER_LOOP, b"", b"")
}

/// The piece at a place of a chain, counted from its end.
fn from_end(pieces: &Pieces<'_>, chain: &[u32], number: usize) -> usize {
    match chain.iter().rev().nth(number) {
        Some(at) => pieces.index_of(*at),
        None => pieces.len(),
    }
}

/// The last piece at which a chain is written, but for its end.
fn last_writer(pieces: &Pieces<'_>, chain: &[u32]) -> usize {
    let mut last = 0;
    for at in chain.iter().rev().skip(1) {
        last = last.max(pieces.index_of(*at));
    }
    last
}

/// What is said where a result would be sent again.
pub fn say_flow(page: &mut Page, pieces: &Pieces<'_>, chain: &[u32]) -> Result<(), Memory> {
    let index = from_end(pieces, chain, 0);
    match variable_at(pieces, index) {
        Some(name) => page.sentence(refusal_texts::FLOW_OF_VAR, name, b"")?,
        None => page.sentence(refusal_texts::FLOW, b"", b"")?,
    }
    match batch_around(pieces, index) {
        Some(batch) => { say_flow_mend(page, pieces, &batch, last_writer(pieces, chain), index) }
        None => page.sentence(refusal_texts::AFTER_LOOP, b"", b""),
    }
}

/// The piece that declares a variable, where it stands in a batch.
fn declared_inside(pieces: &Pieces<'_>, batch: &BatchSpan, index: usize) -> Option<usize> {
    match declaration_of(pieces, index) {
        Some(place) if place > batch.open => Some(place),
        _ => None,
    }
}

/// Says to move what gives a variable its value to a place before a batch.
pub fn say_move(
    page: &mut Page,
    pieces: &Pieces<'_>,
    batch: &BatchSpan,
    index: usize,
) -> Result<(), Memory> {
    let name = pieces.text(index);
    let declared = declared_inside(pieces, batch, index);
    let assigned = assigned_within(pieces, name, batch.open, batch.close);
    match (declared, assigned) {
        (Some(place), None) => {
            page.sentence_of(refusal_texts::MOVE_DECLARATION, name, pieces.line(place))
        }
        (Some(place), Some(_)) => {
            page.sentence_of(refusal_texts::MOVE_ALL, name, pieces.line(place))
        }
        (None, Some(place)) => {
            page.sentence_of(refusal_texts::MOVE_ASSIGNMENT, name, pieces.line(place))
        }
        (None, None) => page.sentence(refusal_texts::BIND_BEFORE, b"", b""),
    }
}

/// What to do about a variable that isn't known when a batch begins.
fn say_known_before(
    page: &mut Page,
    pieces: &Pieces<'_>,
    batch: &BatchSpan,
    index: usize,
) -> Result<(), Memory> {
    let statement = statement_in(pieces, batch.open, index);
    if say_vals(page, pieces, batch, index)? {
        return Ok(());
    }
    if is_assigned_later(pieces, batch, statement, index) {
        return page.sentence(refusal_texts::COPY_BEFORE, pieces.text(index), b"");
    }
    say_move(page, pieces, batch, index)
}

/// What is said where something would be sent that isn't known when the batch begins.
pub fn say_not_constant(page: &mut Page, pieces: &Pieces<'_>, at: u32) -> Result<(), Memory> {
    let index = pieces.index_of(at);
    let Some(name) = variable_at(pieces, index) else {
        page.sentence(refusal_texts::UNKNOWN_YET, b"", b"")?;
        return page.sentence(refusal_texts::BIND_BEFORE, b"", b"");
    };
    page.sentence(refusal_texts::NAME_UNKNOWN_YET, name, b"")?;
    match batch_around(pieces, index) {
        Some(batch) => say_known_before(page, pieces, &batch, index),
        None => page.sentence(refusal_texts::BIND_BEFORE, b"", b""),
    }
}
