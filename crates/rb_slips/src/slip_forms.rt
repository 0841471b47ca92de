// Slips in the heads of statements, in blocks, and in the declarations of variables.

use crate::slip_texts;
use crate::slips::{Slip, both, named};
use rb_pieces::Pieces;
use rb_pieces::around::{
    Home, first_of_statement, home_of, is_among, is_keyword, is_name, is_type_word,
};
use rb_pieces::spans::{opening, slot_around};

/// Whether a piece is a sign between operands.
fn is_between(text: &[u8]) -> bool {
    is_among(text, b"& | = ! < > + - * / %")
}

/// A word whose parenthesis or braces are missing before a piece.
fn behind_word<'a>(pieces: &Pieces<'a>, index: usize) -> Option<Slip<'a>> {
    let word = pieces.earlier(index, 1);
    if pieces.is_earlier(index, 2, b".") || pieces.is_later(index, 0, b"(") {
        return None;
    }
    match word {
        b"if" | b"while" => named(&slip_texts::IN_PARENTHESES, word),
        b"for" => named(&slip_texts::FOR_FORM, b""),
        b"catch" => named(&slip_texts::CATCH_FORM, b""),
        b"batch" => named(&slip_texts::BATCH_FORM, b""),
        b"print" | b"len" | b"str" => named(&slip_texts::CALLED_WITH, word),
        b"else" if pieces.is_later(index, 0, b"if") => named(&slip_texts::BRACED_ELSE_IF, b""),
        b"else" | b"try" => named(&slip_texts::BRACES, word),
        _ => None,
    }
}

/// A head in parentheses behind which no brace follows.
fn behind_head<'a>(pieces: &Pieces<'a>, index: usize) -> Option<Slip<'a>> {
    let text = pieces.text(index);
    if !pieces.is_earlier(index, 1, b")") || matches!(text, b"{" | b")" | b"") {
        return None;
    }
    let word = pieces.earlier(opening(pieces, index.saturating_sub(1)), 1);
    match word {
        b"if" | b"while" if is_between(text) => named(&slip_texts::ONE_CONDITION, word),
        b"if" | b"while" | b"for" | b"catch" | b"batch" => named(&slip_texts::BRACES, word),
        _ => None,
    }
}

/// Whether a word of the language may have been meant as a name, since it begins no declaration.
fn is_word_as_name(text: &[u8]) -> bool {
    is_keyword(text) && !is_type_word(text) && !is_among(text, b"val var")
}

/// A slip in the head of a `for`.
fn in_for<'a>(pieces: &Pieces<'a>, index: usize, number: usize) -> Option<Slip<'a>> {
    let text = pieces.text(index);
    match (number, text) {
        (0, _) if is_word_as_name(text) => None,
        (0, b"val" | b"var") => named(&slip_texts::FOR_NAME, text),
        (1, b":" | b"of") => named(&slip_texts::FOR_IN, text),
        (0 | 1, _) => named(&slip_texts::FOR_FORM, b""),
        _ => None,
    }
}

/// A slip in the head of a statement that has a form of its own.
fn in_head<'a>(pieces: &Pieces<'a>, index: usize) -> Option<Slip<'a>> {
    let slot = slot_around(pieces, index)?;
    let number = index.saturating_sub(slot.open).saturating_sub(1);
    match pieces.earlier(slot.open, 1) {
        b"for" => in_for(pieces, index, number),
        b"catch" | b"batch" if is_word_as_name(pieces.text(index)) => None,
        b"catch" => named(&slip_texts::CATCH_FORM, b""),
        b"batch" => named(&slip_texts::BATCH_FORM, b""),
        _ => None,
    }
}

/// A slip behind the name of a variable that is declared.
fn behind_variable<'a>(pieces: &Pieces<'a>, index: usize) -> Option<Slip<'a>> {
    let word = pieces.earlier(index, 2);
    let name = pieces.earlier(index, 1);
    if !is_among(word, b"val var") || home_of(pieces, index) == Home::Class {
        return None;
    }
    match pieces.text(index) {
        b";" => both(&slip_texts::VALUE_WANTED, name, word),
        b":" => both(&slip_texts::TYPE_OF_VARIABLE, name, word),
        b"," => both(&slip_texts::ONE_NAME, b"", word),
        text if is_name(text) => both(&slip_texts::TYPE_OF_VARIABLE, text, word),
        _ => None,
    }
}

/// The name behind a type, where a variable is declared by that type.
fn name_behind<'a>(pieces: &Pieces<'a>, index: usize) -> &'a [u8] {
    for place in index..pieces.len() {
        match pieces.later(place, 1) {
            b"=" | b";" => return pieces.text(place),
            b"<" | b">" => {}
            text if is_name(text) || is_type_word(text) => {}
            _ => return b"x",
        }
    }
    b"x"
}

/// A variable that is declared by its type.
fn by_type<'a>(pieces: &Pieces<'a>, index: usize) -> Option<Slip<'a>> {
    if !matches!(home_of(pieces, index), Home::Body | Home::Block) {
        return None;
    }
    let first = first_of_statement(pieces, index);
    let text = pieces.text(index);
    let begins_by_type = first == index && is_type_word(text);
    let is_behind_word = is_among(pieces.earlier(index, 1), b"val var") && is_type_word(text);
    let is_behind_type = is_name(text)
        && (pieces.is_earlier(index, 1, b">") || is_name(pieces.earlier(index, 1)))
        && is_among(pieces.later(index, 1), b"= ;");
    if begins_by_type && is_among(pieces.later(index, 1), b"( .") {
        return None;
    }
    if begins_by_type || is_behind_word || is_behind_type {
        both(
            &slip_texts::TYPE_OF_VARIABLE,
            name_behind(pieces, index),
            b"val",
        )
    } else {
        None
    }
}

/// A slip in a head, a block or the declaration of a variable.
pub fn form_at<'a>(pieces: &Pieces<'a>, index: usize) -> Option<Slip<'a>> {
    behind_word(pieces, index)
        .or_else(|| behind_head(pieces, index))
        .or_else(|| in_head(pieces, index))
        .or_else(|| behind_variable(pieces, index))
        .or_else(|| by_type(pieces, index))
}
