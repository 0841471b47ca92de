// Slips that are known from other languages.

use crate::slip_forms::form_at;
use crate::slip_members::member_slip;
use crate::slip_texts;
use crate::slip_values::value_slip;
use crate::slip_words::word_slip;
use crate::tries::TextKind;
use rb_pieces::around::{Home, first_of_line, home_of};
use rb_pieces::spans::operand_first;
use rb_pieces::{Help, Pieces};

/// What is said of a slip, with a word of the text and a sign or another word.
#[derive(Clone, Copy)]
pub struct Slip<'a> {
    pub help: &'static Help,
    pub name: &'a [u8],
    pub other: &'a [u8],
}

/// What is said of a slip with a word of the text, or with none.
pub fn named<'a>(help: &'static Help, name: &'a [u8]) -> Option<Slip<'a>> {
    Some(Slip {
        help,
        name,
        other: b"",
    })
}

/// What is said of a slip with two words of the text.
pub fn both<'a>(help: &'static Help, name: &'a [u8], other: &'a [u8]) -> Option<Slip<'a>> {
    Some(Slip { help, name, other })
}

/// Whether a word stands in a text.
fn has(pieces: &Pieces<'_>, word: &[u8]) -> bool {
    for place in 0..pieces.len() {
        if pieces.is_later(place, 0, word) {
            return true;
        }
    }
    false
}

/// A program where a service is wanted, or a service where a program is.
fn other_text<'a>(pieces: &Pieces<'a>, kind: TextKind, index: usize) -> Option<Slip<'a>> {
    if home_of(pieces, index) != Home::Nowhere {
        return None;
    }
    match (kind, pieces.text(index)) {
        (TextKind::Program, b"object" | b"root") => named(&slip_texts::IS_SERVICE, b""),
        (TextKind::Service, b"main") => named(&slip_texts::IS_PROGRAM, b""),
        (TextKind::Service, b"interface") if has(pieces, b"main") => named(
            &slip_texts::IS_PROGRAM,
            b"",
        ),
        (TextKind::Service, b"interface") => named(&slip_texts::NO_INTERFACES, b""),
        _ => None,
    }
}

/// Whether two pieces stand without a blank between them.
fn are_joined(pieces: &Pieces<'_>, first: usize, one: &[u8], two: &[u8]) -> bool {
    pieces.is_later(first, 0, one)
        && pieces.is_later(first, 1, two)
        && pieces.is_joined(first.saturating_add(1))
}

/// A comment of another language in the line of a piece.
pub fn comment_slip<'a>(pieces: &Pieces<'a>, kind: TextKind, index: usize) -> Option<Slip<'a>> {
    let first = first_of_line(pieces, index);
    if are_joined(pieces, first, b"/", b"*") || are_joined(pieces, index, b"/", b"*") {
        return named(&slip_texts::BLOCK_COMMENT, b"");
    }
    if are_joined(pieces, first, b"-", b"-") && !pieces.is_joined(first.saturating_add(2)) {
        return named(&slip_texts::COMMENT, b"--");
    }
    match kind {
        TextKind::Program if pieces.is_later(first, 0, b"#") || pieces.is_later(index, 0, b"#") => {
            named(&slip_texts::COMMENT, b"#")
        }
        _ => None,
    }
}

/// The operand that ends before a piece.
fn operand_before<'a>(pieces: &Pieces<'a>, index: usize) -> &'a [u8] {
    let last = index.saturating_sub(1);
    pieces.between(operand_first(pieces, last), last)
}

/// Two equal signs before or behind which a variable is counted up or down.
fn step_slip<'a>(pieces: &Pieces<'a>, index: usize) -> Option<Slip<'a>> {
    if are_joined(pieces, index, b"+", b"+") {
        return both(&slip_texts::STEP, pieces.later(index, 2), b"+");
    }
    if are_joined(pieces, index.saturating_sub(1), b"+", b"+") {
        let name = operand_before(pieces, index.saturating_sub(1));
        return both(&slip_texts::STEP, name, b"+");
    }
    if are_joined(pieces, index.saturating_sub(2), b"-", b"-") {
        let name = operand_before(pieces, index.saturating_sub(2));
        return both(&slip_texts::STEP, name, b"-");
    }
    None
}

/// An `=` behind another sign.
fn assign_slip<'a>(pieces: &Pieces<'a>, index: usize) -> Option<Slip<'a>> {
    if !pieces.is_later(index, 0, b"=") || !pieces.is_joined(index) {
        return None;
    }
    let sign = pieces.earlier(index, 1);
    match sign {
        b"+" | b"-" | b"*" | b"/" | b"%" => {
            let name = operand_before(pieces, index.saturating_sub(1));
            both(&slip_texts::COMPOUND, name, sign)
        }
        b"=" => both(&slip_texts::THREE_SIGNS, b"", pieces.earlier(index, 2)),
        _ => None,
    }
}

/// Signs of other languages.
fn sign_slip<'a>(pieces: &Pieces<'a>, index: usize) -> Option<Slip<'a>> {
    if are_joined(pieces, index, b"-", b">") {
        return named(&slip_texts::THIN_ARROW, b"");
    }
    if !pieces.is_joined(index) {
        return None;
    }
    match (pieces.earlier(index, 1), pieces.text(index)) {
        (b"-", b">") => named(&slip_texts::THIN_ARROW, b""),
        (b"=", b">") => named(&slip_texts::THICK_ARROW, b""),
        (b"<", b">") => named(&slip_texts::UNEQUAL, b""),
        (b"=", b"<") => named(&slip_texts::AT_MOST, b""),
        (b"*", b"*") => named(&slip_texts::NO_POWER, b""),
        (b".", b".") => named(&slip_texts::NO_RANGE, b""),
        _ => None,
    }
}

/// A known slip at the piece at which a text isn't read.
pub fn slip_at<'a>(pieces: &Pieces<'a>, kind: TextKind, index: usize) -> Option<Slip<'a>> {
    other_text(pieces, kind, index)
        .or_else(|| comment_slip(pieces, kind, index))
        .or_else(|| step_slip(pieces, index))
        .or_else(|| assign_slip(pieces, index))
        .or_else(|| sign_slip(pieces, index))
        .or_else(|| word_slip(pieces, index))
        .or_else(|| form_at(pieces, index))
        .or_else(|| member_slip(pieces, index))
        .or_else(|| value_slip(pieces, kind, index))
}
