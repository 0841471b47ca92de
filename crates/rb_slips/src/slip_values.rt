// Slips in expressions, at a `return`, and in the objects of a service.

use crate::slip_texts;
use crate::slips::{Slip, both, named};
use crate::tries::TextKind;
use rb_pieces::Pieces;
use rb_pieces::around::{
    Home, first_of_statement, home_of, is_among, is_in_class, is_name, is_number,
};
use rb_pieces::declarations::{Declared, declared_before};
use rb_pieces::spans::{operand_first, slot_around};

/// Whether an expression is wanted behind a piece.
fn wants_expression(text: &[u8]) -> bool {
    is_among(text, b"= ( , [ + - * / % < > ! & |") || is_among(text, b"return throw in")
}

/// A list that is written as in another language.
fn list_slip<'a>(pieces: &Pieces<'a>, index: usize) -> Option<Slip<'a>> {
    let before = pieces.earlier(index, 1);
    match pieces.text(index) {
        b"[" if wants_expression(before) => named(&slip_texts::LIST_FORM, b""),
        b"(" | b"[" | b"{" if matches!(before, b"List") => named(&slip_texts::LIST_TYPE, b""),
        b"List" if matches!(before, b"new") => named(&slip_texts::LIST_NO_NEW, b""),
        _ if pieces.is_earlier(index, 2, b"new") => named(&slip_texts::NEW_FORM, before),
        _ => None,
    }
}

/// Whether a name is declared so somewhere in the text.
fn is_declared(pieces: &Pieces<'_>, name: &[u8], declared: Declared) -> bool {
    declared_before(pieces, pieces.len(), name, declared).is_some()
}

/// A call of what stands by itself.
fn call_slip<'a>(pieces: &Pieces<'a>, index: usize) -> Option<Slip<'a>> {
    let name = pieces.earlier(index, 1);
    if !pieces.is_later(index, 0, b"(") || !is_name(name) || pieces.is_earlier(index, 2, b".") {
        return None;
    }
    if is_declared(pieces, name, Declared::Type) {
        return named(&slip_texts::NEW_WANTED, name);
    }
    if is_in_class(pieces, index) {
        named(&slip_texts::CALL_OF_THIS, name)
    } else {
        named(&slip_texts::CALL_OF_OBJECT, name)
    }
}

/// A number that is written as in another language.
fn number_slip<'a>(pieces: &Pieces<'a>, index: usize) -> Option<Slip<'a>> {
    let text = pieces.text(index);
    let before = pieces.earlier(index, 1);
    if matches!(before, b".") && is_number(text) && is_number(pieces.earlier(index, 2)) {
        return named(&slip_texts::DECIMAL, b"");
    }
    None
}

/// Whether a piece is a sign that compares.
fn compares(pieces: &Pieces<'_>, index: usize) -> bool {
    match pieces.text(index) {
        b"<" | b">" => true,
        b"=" | b"!" => pieces.is_later(index, 1, b"=") && pieces.is_joined(index.saturating_add(1)),
        _ => false,
    }
}

/// The sign of a comparison, in the bytes of the text.
fn comparison<'a>(pieces: &Pieces<'a>, index: usize) -> &'a [u8] {
    if pieces.is_later(index, 1, b"=") {
        pieces.between(index, index.saturating_add(1))
    } else {
        pieces.text(index)
    }
}

/// Whether a piece is a `=` by itself.
fn assigns(pieces: &Pieces<'_>, index: usize) -> bool {
    let is_second = pieces.is_joined(index) && is_among(pieces.earlier(index, 1), b"= ! < >");
    pieces.is_later(index, 0, b"=") && !is_second && !compares(pieces, index)
}

/// Whether the statement of a piece assigns before it.
fn has_assigned(pieces: &Pieces<'_>, index: usize) -> bool {
    (first_of_statement(pieces, index)..index).any(|place| assigns(pieces, place))
}

/// Whether the statement of a piece compares before it.
fn has_compared(pieces: &Pieces<'_>, index: usize) -> bool {
    (first_of_statement(pieces, index)..index).any(|place| compares(pieces, place))
}

/// A comparison or an assignment that stands in an expression.
fn equality_slip<'a>(pieces: &Pieces<'a>, index: usize) -> Option<Slip<'a>> {
    if compares(pieces, index) && has_compared(pieces, index) {
        return named(&slip_texts::NO_CHAIN, comparison(pieces, index));
    }
    if !assigns(pieces, index) {
        return None;
    }
    if has_assigned(pieces, index) {
        return named(&slip_texts::ONE_ASSIGNMENT, b"");
    }
    if slot_around(pieces, index).is_some() {
        return named(&slip_texts::EQUAL_WANTED, b"");
    }
    None
}

/// A word of the language that is written as a method.
fn method_slip<'a>(pieces: &Pieces<'a>, index: usize) -> Option<Slip<'a>> {
    let word = pieces.text(index);
    if !is_among(word, b"len str print") || !pieces.is_earlier(index, 1, b".") {
        return None;
    }
    let last = index.saturating_sub(2);
    let operand = pieces.between(operand_first(pieces, last), last);
    both(&slip_texts::NO_METHOD_WORD, operand, word)
}

/// A statement where an expression is wanted.
fn statement_slip<'a>(pieces: &Pieces<'a>, index: usize) -> Option<Slip<'a>> {
    let text = pieces.text(index);
    match text {
        b"if" | b"while" | b"for" | b"try" | b"batch" | b"print"
            if wants_expression(pieces.earlier(index, 1)) => { named(&slip_texts::NO_VALUE, text) }
        _ => None,
    }
}

/// Too many or too few values for a word.
fn count_slip<'a>(pieces: &Pieces<'a>, index: usize) -> Option<Slip<'a>> {
    let is_second = pieces.is_later(index, 0, b",");
    let is_none = pieces.is_later(index, 0, b")") && pieces.is_earlier(index, 1, b"(");
    if !is_second && !is_none {
        return None;
    }
    let slot = slot_around(pieces, index)?;
    match pieces.earlier(slot.open, 1) {
        word @ (b"print" | b"len" | b"str") => named(&slip_texts::ONE_VALUE, word),
        _ => None,
    }
}

/// A `return` at the wrong place, or without a value, or with more behind it.
fn return_slip<'a>(pieces: &Pieces<'a>, index: usize) -> Option<Slip<'a>> {
    let text = pieces.text(index);
    let before = pieces.earlier(index, 1);
    if matches!(text, b"return") && home_of(pieces, index) == Home::Block {
        return named(&slip_texts::RETURN_IN_BLOCK, b"");
    }
    if matches!(text, b";") && matches!(before, b"return") {
        return named(&slip_texts::RETURN_VALUE, b"");
    }
    let last = index.saturating_sub(1);
    if matches!(before, b";") && pieces.is_later(first_of_statement(pieces, last), 0, b"return") {
        return named(&slip_texts::RETURN_LAST, b"");
    }
    None
}

/// A slip in an object of a service.
fn object_slip<'a>(pieces: &Pieces<'a>, kind: TextKind, index: usize) -> Option<Slip<'a>> {
    match kind {
        TextKind::Program => return None,
        TextKind::Service => {}
    }
    let text = pieces.text(index);
    let before = pieces.earlier(index, 1);
    if matches!(before, b"object") && !is_number(text) {
        return named(&slip_texts::OBJECT_FORM, b"");
    }
    if home_of(pieces, index) != Home::Object {
        return None;
    }
    let is_sum = is_among(text, b"+ - * / % ( .");
    if is_sum || is_among(before, b"= [ ,") && !is_among(text, b"; ] }") {
        return both(&slip_texts::VALUE_FORM, b"", b"#");
    }
    None
}

/// A slip in an expression, at a `return`, or in an object of a service.
pub fn value_slip<'a>(pieces: &Pieces<'a>, kind: TextKind, index: usize) -> Option<Slip<'a>> {
    if home_of(pieces, index) == Home::Object
        || matches!(kind, TextKind::Service) && pieces.is_earlier(index, 1, b"object")
    {
        return object_slip(pieces, kind, index);
    }
    if !matches!(home_of(pieces, index), Home::Body | Home::Block) {
        return None;
    }
    list_slip(pieces, index)
        .or_else(|| number_slip(pieces, index))
        .or_else(|| call_slip(pieces, index))
        .or_else(|| equality_slip(pieces, index))
        .or_else(|| method_slip(pieces, index))
        .or_else(|| statement_slip(pieces, index))
        .or_else(|| count_slip(pieces, index))
        .or_else(|| return_slip(pieces, index))
}
