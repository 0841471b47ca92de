// Where methods and fields are declared, and the types that are written there.

use crate::type_words::is_same_type;
use rb_pieces::Pieces;
use rb_pieces::around::is_among;
use rb_pieces::declarations::{Declared, declared_once};
use rb_pieces::spans::closing;

/// A type that the declaration of a method or a field writes.
#[derive(Clone, Copy)]
pub enum Part {
    /// Of a method's parameter, by its number from 0.
    Parameter(usize),
    /// Of a method's result.
    Result,
    /// Of a field.
    Field,
}

/// Whether a piece is the name of a method or of a field where that is declared.
fn is_declared(pieces: &Pieces<'_>, index: usize, part: Part) -> bool {
    match part {
        Part::Parameter(_) | Part::Result => pieces.is_earlier(index, 1, b"fun"),
        Part::Field => {
            pieces.is_later(index, 1, b":") && is_among(pieces.earlier(index, 1), b"{ ;")
        }
    }
}

/// The number of the one piece that declares a method or field of this name, or none where several do.
pub fn member_once(pieces: &Pieces<'_>, name: &[u8], part: Part) -> Option<usize> {
    let mut found = None;
    for place in 0..pieces.len() {
        if pieces.is_later(place, 0, name) && is_declared(pieces, place, part) {
            if found.is_some() {
                return None;
            }
            found = Some(place);
        }
    }
    found
}

/// The number of the piece that declares a method or field of this name in the one class or interface of that name.
pub fn member_in(pieces: &Pieces<'_>, owner: &[u8], name: &[u8], part: Part) -> Option<usize> {
    let head = declared_once(pieces, owner, Declared::Type)?;
    let mut open = 0usize;
    for place in head..pieces.len() {
        match pieces.text(place) {
            b"{" | b"(" => open = open.saturating_add(1),
            b"}" | b")" if open <= 1 => return None,
            b"}" | b")" => open -= 1,
            text if open == 1 && text == name && is_declared(pieces, place, part) => {
                return Some(place);
            }
            _ => {}
        }
    }
    None
}

/// The number of the piece that names a method's parameter or a class's field, by its number from 0.
pub fn part_of(pieces: &Pieces<'_>, declaration: usize, number: usize) -> Option<usize> {
    let mut left = number;
    for place in declaration..pieces.len() {
        match pieces.text(place) {
            b")" | b"}" | b"fun" | b"remote" => return None,
            b":" if left == 0 => return place.checked_sub(1),
            b":" => left -= 1,
            _ => {}
        }
    }
    None
}

/// The number of the first piece of the type of the result behind a `fun` or `main`, where it gives one.
pub fn result_of(pieces: &Pieces<'_>, head: usize) -> Option<usize> {
    let last = if pieces.is_later(head, 0, b"fun") {
        closing(pieces, head.saturating_add(2))
    } else {
        head
    };
    if pieces.is_later(last, 1, b":") && !pieces.is_later(last, 2, b"Unit") {
        Some(last.saturating_add(2))
    } else {
        None
    }
}

/// The number of the first piece of a type that the declaration of a method or a field writes.
pub fn type_of_part(pieces: &Pieces<'_>, declaration: usize, part: Part) -> Option<usize> {
    match part {
        Part::Parameter(number) => Some(part_of(pieces, declaration, number)?.saturating_add(2)),
        Part::Result => result_of(pieces, declaration.checked_sub(1)?),
        Part::Field => Some(declaration.saturating_add(2)),
    }
}

/// The number of the first piece of the type that all methods or fields of this name write alike.
pub fn agreed_type(pieces: &Pieces<'_>, name: &[u8], part: Part) -> Option<usize> {
    let mut agreed = None;
    for place in 0..pieces.len() {
        if pieces.is_later(place, 0, name) && is_declared(pieces, place, part) {
            let written = type_of_part(pieces, place, part)?;
            match agreed {
                None => agreed = Some(written),
                Some(first) if is_same_type(pieces, first, written) => {}
                Some(_) => return None,
            }
        }
    }
    agreed
}
