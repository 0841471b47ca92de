// Slips at the top of a text, in classes and in interfaces.

use crate::slip_texts;
use crate::slips::{Slip, both, named};
use rb_pieces::around::{Home, first_of_statement, home_of, is_among, is_name, is_type_word};
use rb_pieces::spans::slot_around;
use rb_pieces::{Help, Pieces};

/// Whether a declaration with this word begins before a piece.
fn is_behind(pieces: &Pieces<'_>, index: usize, word: &[u8]) -> bool {
    for place in 0..index {
        if pieces.is_later(place, 0, word) {
            return true;
        }
    }
    false
}

/// Whether a piece is the first of a statement that is none of its other forms.
fn begins_statement(text: &[u8]) -> bool {
    is_among(text, b"val var if for while try throw return batch print")
}

/// A slip in the head of a class or an interface.
fn in_class_head<'a>(pieces: &Pieces<'a>, index: usize) -> Option<Slip<'a>> {
    match pieces.earlier(index, 2) {
        b"class" | b"interface" => named(&slip_texts::CLASS_FORM, pieces.earlier(index, 1)),
        _ => None,
    }
}

/// A declaration at the wrong place of a text: with one of these words, behind the first declaration with that word.
fn misplaced<'a>(pieces: &Pieces<'a>, index: usize) -> Option<Slip<'a>> {
    let text = pieces.text(index);
    let rows: [(&[u8], &[u8], &'static Help); 4] = [
        (b"class interface main", b"main", &slip_texts::MAIN_LAST),
        (b"class object", b"root", &slip_texts::ROOT_LAST),
        (b"class", b"object", &slip_texts::CLASSES_FIRST),
        (b"interface", b"class", &slip_texts::INTERFACES_FIRST),
    ];
    for (words, word, help) in &rows {
        if is_among(text, words) && is_behind(pieces, index, word) {
            return named(help, b"");
        }
    }
    None
}

/// A slip outside of all braces.
fn at_top<'a>(pieces: &Pieces<'a>, index: usize) -> Option<Slip<'a>> {
    let text = pieces.text(index);
    if pieces.is_earlier(index, 1, b"main") {
        return match text {
            b"(" => named(&slip_texts::MAIN_FORM, b""),
            _ => None,
        };
    }
    if matches!(text, b"fun") {
        return match pieces.later(index, 1) {
            b"main" => named(&slip_texts::FUN_MAIN, b""),
            name => named(&slip_texts::METHOD_PLACE, name),
        };
    }
    if begins_statement(text) && matches!(pieces.earlier(index, 1), b"" | b"}" | b";") {
        return named(&slip_texts::STATEMENT_PLACE, b"");
    }
    misplaced(pieces, index).or_else(|| in_class_head(pieces, index))
}

/// A slip in the head of a method.
fn in_method_head<'a>(pieces: &Pieces<'a>, index: usize) -> Option<Slip<'a>> {
    let slot = slot_around(pieces, index)?;
    if !pieces.is_earlier(slot.open, 2, b"fun") {
        return None;
    }
    let text = pieces.text(index);
    match pieces.earlier(index, 1) {
        _ if matches!(text, b"=") => named(&slip_texts::NO_DEFAULT, b""),
        before if is_name(before) && is_name(text) => {
            both(&slip_texts::PARAMETER_FORM, before, text)
        }
        b"(" | b"," if is_type_word(text) => {
            both(&slip_texts::PARAMETER_FORM, text, pieces.later(index, 1))
        }
        _ => None,
    }
}

/// Whether the last method before a piece, since the last brace or semicolon, has just its head.
fn is_behind_head(pieces: &Pieces<'_>, index: usize) -> bool {
    let first = first_of_statement(pieces, index);
    is_among(pieces.text(first), b"fun remote")
}

/// Whether a member begins with a piece, and not by the name of a field.
fn begins_member(pieces: &Pieces<'_>, index: usize) -> bool {
    first_of_statement(pieces, index) == index && !pieces.is_later(index, 1, b":")
}

/// A slip among the fields and methods of a class.
fn in_class<'a>(pieces: &Pieces<'a>, index: usize) -> Option<Slip<'a>> {
    let text = pieces.text(index);
    match text {
        b";" if is_behind_head(pieces, index) && !pieces.is_later(index, 2, b":") => named(
            &slip_texts::METHOD_BODY,
            b"",
        ),
        b"=" if !is_behind_head(pieces, index) => named(&slip_texts::FIELD_VALUE, b""),
        b"val" | b"var" => both(&slip_texts::FIELD_FORM, text, pieces.later(index, 1)),
        b"remote" if pieces.is_earlier(index, 1, b"fun") => named(&slip_texts::REMOTE_FUN, b""),
        _ if is_type_word(text) && begins_member(pieces, index) => {
            named(&slip_texts::MEMBER_FORM, text)
        }
        _ if !is_name(text) || first_of_statement(pieces, index) != index => None,
        _ if pieces.is_later(index, 1, b":") => named(&slip_texts::FIELDS_FIRST, text),
        _ if pieces.is_later(index, 1, b"(") => named(&slip_texts::METHOD_FORM, text),
        _ => None,
    }
}

/// A slip among the methods of an interface.
fn in_interface<'a>(pieces: &Pieces<'a>, index: usize) -> Option<Slip<'a>> {
    let text = pieces.text(index);
    match text {
        b"{" if is_behind_head(pieces, index) => named(&slip_texts::INTERFACE_BODY, b""),
        b"remote" => named(&slip_texts::INTERFACE_REMOTE, b""),
        b"val" | b"var" => named(&slip_texts::INTERFACE_FIELD, pieces.later(index, 1)),
        _ if is_type_word(text) && begins_member(pieces, index) => {
            named(&slip_texts::MEMBER_FORM, text)
        }
        _ if !is_name(text) || first_of_statement(pieces, index) != index => None,
        _ if pieces.is_later(index, 1, b":") => named(&slip_texts::INTERFACE_FIELD, text),
        _ if pieces.is_later(index, 1, b"(") => named(&slip_texts::METHOD_FORM, text),
        _ => None,
    }
}

/// A slip among the fields or methods of a class or an interface, where a type may have been meant first.
fn behind_type<'a>(pieces: &Pieces<'a>, index: usize) -> Option<Slip<'a>> {
    let before = pieces.earlier(index, 1);
    let first = first_of_statement(pieces, index);
    if is_name(pieces.text(index)) && is_name(before) && first == index.saturating_sub(1) {
        return named(&slip_texts::MEMBER_FORM, before);
    }
    if pieces.is_later(index, 0, b"<") && is_name(before) {
        return named(&slip_texts::NO_ARGUMENTS, before);
    }
    None
}

/// A slip outside of all bodies.
pub fn member_slip<'a>(pieces: &Pieces<'a>, index: usize) -> Option<Slip<'a>> {
    match home_of(pieces, index) {
        Home::Nowhere => at_top(pieces, index),
        Home::Class => in_method_head(pieces, index)
            .or_else(|| behind_type(pieces, index))
            .or_else(|| in_class(pieces, index)),
        Home::Interface => in_method_head(pieces, index)
            .or_else(|| behind_type(pieces, index))
            .or_else(|| in_interface(pieces, index)),
        _ => None,
    }
}
