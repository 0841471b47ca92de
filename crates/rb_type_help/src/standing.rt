// Where an expression stands: what takes its value.

use rb_pieces::Pieces;
use rb_pieces::around::is_among;
use rb_pieces::spans::{
    Sign, Span, is_group, is_prefix, list_before, sign_at, sign_before, slot_around, span_at,
};

/// What takes the value of an expression. Pieces are told by their numbers.
#[derive(Clone, Copy)]
pub enum Standing {
    /// The member whose name this piece is, behind the dot.
    BeforeDot(usize),
    /// An index: the expression is the list.
    BeforeIndex,
    /// The sign at this piece, before the expression.
    BehindPrefix(usize),
    /// The sign on whose left the expression stands.
    Left(Sign),
    /// The sign on whose right the expression stands.
    Right(Sign),
    /// An index: the expression is the number.
    InIndex,
    /// The word at this piece: a `throw`, a `return`, the `in` of a `for`.
    BehindWord(usize),
    /// What this word before a parenthesis does: a `print`, `if`, `while`, `len` or `str`.
    InParentheses(usize),
    /// The method whose name this piece is, as the argument of this number, from 0.
    Argument(usize, usize),
    /// The `new` of the class whose name this piece is, as the value of this number, from 0.
    FieldValue(usize, usize),
    /// The list whose `List` this piece is.
    Item(usize),
    /// The assignment or declaration whose `=` this piece is.
    BehindAssign(usize),
    /// Nothing, or what can't be told.
    Nowhere,
}

/// What takes a value in a parenthesis that is no group, by what stands before that.
fn in_parentheses(pieces: &Pieces<'_>, open: usize, number: usize) -> Standing {
    let word = open.saturating_sub(1);
    if let Some(list) = list_before(pieces, open) {
        return Standing::Item(list);
    }
    match pieces.text(word) {
        b"print" | b"if" | b"while" | b"len" | b"str" => Standing::InParentheses(word),
        _ => match pieces.earlier(word, 1) {
            b"." => Standing::Argument(word, number),
            b"new" => Standing::FieldValue(word, number),
            _ => Standing::Nowhere,
        },
    }
}

/// What takes the value of an expression behind a comma.
fn behind_comma(pieces: &Pieces<'_>, first: usize) -> Standing {
    match slot_around(pieces, first) {
        Some(slot) => in_parentheses(pieces, slot.open, slot.number),
        None => Standing::Nowhere,
    }
}

/// What takes the value of an expression beside which no operator stands, by the piece before it.
fn behind_piece(pieces: &Pieces<'_>, span: &Span) -> Standing {
    if !is_among(pieces.later(span.last, 1), b") ] , ;") {
        return Standing::Nowhere;
    }
    let before = span.first.saturating_sub(1);
    match pieces.text(before) {
        b"(" => in_parentheses(pieces, before, 0),
        b"," => behind_comma(pieces, span.first),
        b"[" => Standing::InIndex,
        b"=" => Standing::BehindAssign(before),
        b"throw" | b"return" | b"in" => Standing::BehindWord(before),
        _ => Standing::Nowhere,
    }
}

/// What takes the value of an expression, by the pieces beside it: members and indexes bind first, then signs before it,
/// then the tighter one of the signs on its sides, of two like ones the left.
fn beside(pieces: &Pieces<'_>, span: &Span) -> Standing {
    let behind = span.last.saturating_add(1);
    match pieces.text(behind) {
        b"." => return Standing::BeforeDot(behind.saturating_add(1)),
        b"[" => return Standing::BeforeIndex,
        _ => {}
    }
    let before = span.first.saturating_sub(1);
    if is_prefix(pieces, before) {
        return Standing::BehindPrefix(before);
    }
    match (sign_before(pieces, span.first), sign_at(pieces, behind)) {
        (Some(left), Some(right)) if left.level < right.level => Standing::Left(right),
        (Some(left), _) => Standing::Right(left),
        (None, Some(right)) => Standing::Left(right),
        (None, None) => behind_piece(pieces, span),
    }
}

/// Whether an expression is all that stands in a group.
fn is_grouped(pieces: &Pieces<'_>, span: &Span) -> bool {
    pieces.is_later(span.last, 1, b")")
        && pieces.is_earlier(span.first, 1, b"(")
        && is_group(pieces, span.first.saturating_sub(1))
}

/// An expression with all groups that hold it alone.
fn widened(pieces: &Pieces<'_>, span: Span) -> Span {
    let mut wide = span;
    for _ in 0..pieces.len() {
        if !is_grouped(pieces, &wide) {
            return wide;
        }
        wide = Span {
            first: wide.first.saturating_sub(1),
            last: wide.last.saturating_add(1),
        };
    }
    wide
}

/// What takes the value of the expression that stands at a piece.
pub fn standing_at(pieces: &Pieces<'_>, index: usize) -> Standing {
    let span = widened(pieces, span_at(pieces, index));
    beside(pieces, &span)
}
