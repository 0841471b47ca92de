// What is said of names that aren't known.

use crate::{name_texts, texts};
use rb_pieces::around::{is_among, is_in_class};
use rb_pieces::declarations::{Declared, declared_at, declared_before, head_before};
use rb_pieces::{Help, Page, Pieces};
use rb_slips::other_word;
use rb_trees::Memory;
use rb_type_help::{Part, member_once};

/// Types of other languages, with a space between each two, and the language's type for each.
const TYPES: [(&[u8], &[u8]); 3] = [
    (b"String string text char Char", b"Text"),
    (b"int Integer integer long Long number", b"Int"),
    (b"bool boolean Boolean", b"Bool"),
];

/// The language's type for one of other languages.
fn type_for(word: &[u8]) -> Option<&'static [u8]> {
    for (words, own) in &TYPES {
        if is_among(word, words) {
            return Some(own);
        }
    }
    None
}

/// What is said of a type that isn't declared.
fn no_type(name: &[u8], is_service: bool) -> &'static Help {
    if is_among(name, b"float double Float Double") {
        &name_texts::NO_FRACTIONS
    } else if is_among(name, b"Array Vec list ArrayList array") {
        &name_texts::OTHER_LIST
    } else if is_among(name, b"void Void unit") {
        &name_texts::NO_RESULT_TYPE
    } else if is_service {
        &name_texts::NO_CLASS_HERE
    } else {
        &texts::NO_TYPE
    }
}

/// Says so, with the type that is meant where it is known.
fn say_no_type(page: &mut Page, name: &[u8], is_service: bool) -> Result<(), Memory> {
    match type_for(name) {
        Some(word) => page.say(&name_texts::OTHER_TYPE, name, word),
        None => page.say_name(no_type(name, is_service), name),
    }
}

/// Whether a class or interface of this name is declared by this word.
fn is_declared_by(pieces: &Pieces<'_>, name: &[u8], word: &[u8]) -> bool {
    match declared_before(pieces, pieces.len(), name, Declared::Type) {
        Some(place) => pieces.is_earlier(place, 1, word),
        None => false,
    }
}

/// What is said of a `new` of what is no class.
fn say_no_class(page: &mut Page, pieces: &Pieces<'_>, name: &[u8]) -> Result<(), Memory> {
    if is_declared_by(pieces, name, b"interface") {
        page.say_name(&name_texts::MADE_INTERFACE, name)
    } else {
        page.say_name(&texts::NO_CLASS, name)
    }
}

/// What is said of a batch of what is no interface.
fn say_no_interface(page: &mut Page, pieces: &Pieces<'_>, name: &[u8]) -> Result<(), Memory> {
    if is_declared_by(pieces, name, b"class") {
        page.say_name(&name_texts::BATCH_OF_CLASS, name)
    } else {
        page.say_name(&texts::NO_INTERFACE, name)
    }
}

/// The piece that declares a variable in the body around another piece, before it.
fn declared_in_body(pieces: &Pieces<'_>, index: usize, name: &[u8]) -> Option<usize> {
    let place = declared_before(pieces, index, name, Declared::Variable)?;
    if place > head_before(pieces, index) {
        Some(place)
    } else {
        None
    }
}

/// The piece that declares a variable behind another piece, before the next method or declaration.
fn declared_later(pieces: &Pieces<'_>, index: usize, name: &[u8]) -> Option<usize> {
    for place in index..pieces.len() {
        if is_among(pieces.text(place), b"fun class main object") {
            return None;
        }
        if pieces.is_later(place, 0, name) && declared_at(pieces, place) == Declared::Variable {
            return Some(place);
        }
    }
    None
}

/// What is said of a variable that isn't known.
fn say_no_variable(page: &mut Page, pieces: &Pieces<'_>, index: usize) -> Result<(), Memory> {
    let name = pieces.text(index);
    if let Some(help) = other_word(name) {
        return page.say_name(help, name);
    }
    if is_in_class(pieces, index) && member_once(pieces, name, Part::Field).is_some() {
        return page.say_name(&name_texts::FIELD_OF_THIS, name);
    }
    if let Some(place) = declared_in_body(pieces, index, name) {
        return page.say_number(&name_texts::OUT_OF_BLOCK, name, pieces.line(place));
    }
    if let Some(place) = declared_later(pieces, index, name) {
        return page.say_number(&name_texts::DECLARED_LATER, name, pieces.line(place));
    }
    if declared_before(pieces, pieces.len(), name, Declared::Type).is_some() {
        return page.say_name(&name_texts::TYPE_AS_VALUE, name);
    }
    if pieces.is_later(index, 1, b"=") && !pieces.is_later(index, 2, b"=") {
        return page.say_name(&name_texts::NOT_DECLARED, name);
    }
    page.say_name(&texts::NO_VARIABLE, name)
}

/// What is said of a member that isn't known.
fn say_no_member(page: &mut Page, pieces: &Pieces<'_>, index: usize) -> Result<(), Memory> {
    let name = pieces.text(index);
    let is_call = pieces.is_later(index, 1, b"(");
    if is_call && member_once(pieces, name, Part::Field).is_some() {
        return page.say_name(&name_texts::FIELD_NOT_METHOD, name);
    }
    if !is_call && member_once(pieces, name, Part::Result).is_some() {
        return page.say_name(&name_texts::METHOD_NOT_FIELD, name);
    }
    match is_call {
        true => page.say_name(&texts::NO_METHOD, name),
        false => page.say_name(&texts::NO_FIELD, name),
    }
}

/// What is said of a name that isn't known.
pub fn say_unknown(
    page: &mut Page,
    pieces: &Pieces<'_>,
    at: u32,
    is_service: bool,
) -> Result<(), Memory> {
    let index = pieces.index_of(at);
    let text = pieces.text(index);
    if is_among(text, b"new") {
        say_no_class(page, pieces, pieces.later(index, 1))
    } else if is_among(text, b"batch") && is_service {
        page.say_plain(&texts::NO_BATCH)
    } else if is_among(text, b"batch") {
        say_no_interface(page, pieces, pieces.later(index, 2))
    } else if is_among(text, b"this") {
        page.say_plain(&texts::NO_THIS)
    } else if pieces.is_earlier(index, 1, b".") {
        say_no_member(page, pieces, index)
    } else if is_among(pieces.earlier(index, 1), b": <") {
        say_no_type(page, text, is_service)
    } else {
        say_no_variable(page, pieces, index)
    }
}
