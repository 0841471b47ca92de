// What is said where a batch is refused.

use crate::batch_parts::{
    BatchSpan, assigned_within, batch_around, declaration_of, is_declared_by, is_in_loop,
    is_portable, statement_in, statement_start,
};
use crate::flow_help::{say_declare, say_flow, say_not_constant};
use crate::list_help::say_list;
use crate::refusal_texts;
use rb_pieces::around::is_among;
use rb_pieces::declarations::{Declared, declared_once};
use rb_pieces::spans::{operand_first, operand_last, span_at};
use rb_pieces::{Page, Pieces};
use rb_trees::{Memory, Refusal};
use rb_type_help::{known_type, name_of};

/// The first brace from a piece on.
fn brace_behind(pieces: &Pieces<'_>, index: usize) -> usize {
    for place in index..pieces.len() {
        if pieces.is_later(place, 0, b"{") {
            return place;
        }
    }
    pieces.len()
}

/// Whether a statement is the only one of a batch.
fn is_alone(pieces: &Pieces<'_>, batch: &BatchSpan, statement: usize) -> bool {
    let last = batch.close.saturating_sub(1);
    statement == batch.open.saturating_add(1) && statement_in(pieces, batch.open, last) == statement
}

/// What to do about a statement of a batch that decides over a call.
fn say_decided(
    page: &mut Page,
    pieces: &Pieces<'_>,
    batch: &BatchSpan,
    statement: usize,
) -> Result<(), Memory> {
    let word = pieces.text(statement);
    if is_in_loop(pieces, batch, statement) {
        return page.sentence(refusal_texts::AFTER_LOOP, b"", b"");
    }
    if statement_in(pieces, batch.open, statement) != statement {
        return page.sentence(refusal_texts::DECIDE_BEHIND, b"", b"");
    }
    if is_alone(pieces, batch, statement) {
        return page.sentence(refusal_texts::AROUND_BATCH, word, b"");
    }
    say_declare(page, pieces, batch, statement)?;
    page.sentence_of(refusal_texts::END_BEFORE_HEAD, word, pieces.line(statement))
}

/// A `var` of a batch that a head names, and that holds one value.
fn fixed_var(pieces: &Pieces<'_>, batch: &BatchSpan, head: usize) -> Option<usize> {
    for place in head..brace_behind(pieces, head) {
        if let Some(declaration) = declaration_of(pieces, place) {
            let name = pieces.text(place);
            let is_fixed = declaration > batch.open
                && is_declared_by(pieces, declaration, b"var")
                && assigned_within(pieces, name, declaration, batch.close).is_none()
                && is_portable(pieces, declaration.saturating_add(2));
            if is_fixed {
                return Some(declaration);
            }
        }
    }
    None
}

/// What to do where a condition in a head decides over a call in its block.
fn say_head(
    page: &mut Page,
    pieces: &Pieces<'_>,
    batch: &BatchSpan,
    statement: usize,
) -> Result<(), Memory> {
    match fixed_var(pieces, batch, statement) {
        Some(place) => {
            let line = pieces.line(place);
            page.sentence_of(refusal_texts::VAL_FOR_VAR, pieces.text(place), line)
        }
        None => say_decided(page, pieces, batch, statement),
    }
}

/// What to do where a condition decides over a call that stands behind it in an expression.
fn say_behind_and(
    page: &mut Page,
    pieces: &Pieces<'_>,
    word: &[u8],
    call: usize,
) -> Result<(), Memory> {
    if let b"while" = word {
        return page.sentence(refusal_texts::ASK_VAR, b"", b"");
    }
    let first = operand_first(pieces, call);
    let operand = pieces.between(first, operand_last(pieces, first));
    page.sentence(refusal_texts::BIND_CALL, operand, b"")
}

/// What is said where a local condition decides over a call.
fn say_local_condition(
    page: &mut Page,
    pieces: &Pieces<'_>,
    condition: u32,
    operation: u32,
) -> Result<(), Memory> {
    let index = pieces.index_of(condition);
    let call = pieces.index_of(operation);
    let statement = statement_start(pieces, index);
    let word = pieces.text(statement);
    let is_head = call > brace_behind(pieces, statement);
    let batch = batch_around(pieces, index);
    if let (b"for", true, Some(around)) = (word, is_head, batch) {
        return say_list(page, pieces, &around, statement);
    }
    page.sentence(refusal_texts::LOCAL_CONDITION, b"", b"")?;
    let Some(around) = batch else {
        return page.sentence(refusal_texts::DECIDE_BEHIND, b"", b"");
    };
    if is_among(word, b"if while") && is_head {
        say_head(page, pieces, &around, statement)
    } else {
        say_behind_and(page, pieces, word, call)
    }
}

/// The first method of an interface that takes nothing and gives an Int, a Bool or a Text.
fn plain_method<'a>(pieces: &Pieces<'a>, interface: &[u8]) -> Option<&'a [u8]> {
    let head = declared_once(pieces, interface, Declared::Type)?;
    for place in head..pieces.len() {
        if pieces.is_later(place, 0, b"}") {
            return None;
        }
        let is_method = pieces.is_earlier(place, 1, b"fun")
            && pieces.is_later(place, 1, b"(")
            && pieces.is_later(place, 2, b")");
        if is_method && is_among(pieces.later(place, 4), b"Int Bool Text") {
            return Some(pieces.text(place));
        }
    }
    None
}

/// What is said where a remote object or rows would leave the server.
fn say_escapes(page: &mut Page, pieces: &Pieces<'_>, at: u32) -> Result<(), Memory> {
    page.sentence(refusal_texts::ESCAPES, b"", b"")?;
    let span = span_at(pieces, pieces.index_of(at));
    match name_of(pieces, known_type(pieces, span)) {
        b"Rows" => page.sentence(refusal_texts::ROWS_BY_FOR, b"", b""),
        interface => match plain_method(pieces, interface) {
            Some(method) => page.sentence(refusal_texts::USE_METHOD, method, b""),
            None => page.sentence(refusal_texts::USE_SOME_METHOD, b"", b""),
        },
    }
}

/// What is said where a batch stands in another.
fn say_batch_inside(page: &mut Page, pieces: &Pieces<'_>, index: usize) -> Result<(), Memory> {
    page.sentence(refusal_texts::BATCH_INSIDE, b"", b"")?;
    let word = match batch_around(pieces, index) {
        Some(batch) => batch.word,
        None => index,
    };
    if pieces.later(word, 2) == pieces.later(index, 2) {
        let (outer, inner) = (pieces.later(word, 3), pieces.later(index, 3));
        page.sentence(refusal_texts::USE_OUTER_ROOT, outer, inner)
    } else {
        page.sentence_of(refusal_texts::END_FIRST, b"", pieces.line(word))
    }
}

/// What is said where a batch, or a call that has one, stands in a batch.
fn say_inside(page: &mut Page, pieces: &Pieces<'_>, at: u32) -> Result<(), Memory> {
    let index = pieces.index_of(at);
    match pieces.text(index) {
        b"batch" => say_batch_inside(page, pieces, index),
        name => page.say_name(&refusal_texts::BATCH_CALLED_INSIDE, name),
    }
}

/// What is said where a call at the server stands in a `try` of its batch.
fn say_in_try(page: &mut Page, pieces: &Pieces<'_>, at: u32) -> Result<(), Memory> {
    let index = pieces.index_of(at);
    let word = match batch_around(pieces, index) {
        Some(batch) => batch.word,
        None => index,
    };
    page.say_number(&refusal_texts::IN_TRY, b"", pieces.line(word))
}

/// What is said where a `var` would hold a remote object.
fn say_remote_var(page: &mut Page, pieces: &Pieces<'_>, at: u32) -> Result<(), Memory> {
    let place = pieces.index_of(at).saturating_add(1);
    let name = pieces.text(place);
    page.sentence(refusal_texts::REMOTE_VAR, name, b"")?;
    let close = match batch_around(pieces, place) {
        Some(batch) => batch.close,
        None => pieces.len(),
    };
    match assigned_within(pieces, name, place.saturating_add(1), close) {
        Some(_) => page.sentence(refusal_texts::VAL_FOR_EACH_OBJECT, b"", b""),
        None => page.sentence(refusal_texts::VAL_FOR_OBJECT, name, b""),
    }
}

/// What is said where a batch is refused.
pub fn say_refusal(page: &mut Page, pieces: &Pieces<'_>, refusal: &Refusal) -> Result<(), Memory> {
    match refusal {
        Refusal::Flow(chain) => say_flow(page, pieces, chain.as_slice()),
        Refusal::NotConstant(at) => say_not_constant(page, pieces, *at),
        Refusal::UnderLocalCondition(condition, operation) => {
            say_local_condition(page, pieces, *condition, *operation)
        }
        Refusal::Escapes(at) => say_escapes(page, pieces, *at),
        Refusal::BatchInside(at) => say_inside(page, pieces, *at),
        Refusal::InTry(at) => say_in_try(page, pieces, *at),
        Refusal::RemoteVar(at) => say_remote_var(page, pieces, *at),
        Refusal::TooManyInputs(_, count) => {
            page.say_number(&refusal_texts::MANY_INPUTS, b"", u64::from(*count))
        }
        Refusal::ScriptTooLarge(_, bytes) => {
            page.say_number(&refusal_texts::LARGE_SCRIPT, b"", *bytes)
        }
    }
}
