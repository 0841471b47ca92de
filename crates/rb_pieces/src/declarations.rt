// Where names of a text are declared.

use crate::around::is_among;
use crate::pieces::Pieces;

/// What a name is declared as.
#[derive(Clone, Copy, PartialEq, Eq)]
pub enum Declared {
    /// A class or an interface.
    Type,
    Method,
    /// A variable, a parameter or a field.
    Variable,
    Nothing,
}

/// Whether a piece is the name of a field or parameter, of a loop or a `catch`, or of a batch's root.
fn is_bound(pieces: &Pieces<'_>, index: usize) -> bool {
    if pieces.is_later(index, 1, b":") {
        return true;
    }
    if pieces.is_earlier(index, 1, b"(") {
        return pieces.is_earlier(index, 2, b"for") || pieces.is_earlier(index, 2, b"catch");
    }
    pieces.is_earlier(index, 2, b"(") && pieces.is_earlier(index, 3, b"batch")
}

/// What a piece is declared as where it stands.
pub fn declared_at(pieces: &Pieces<'_>, index: usize) -> Declared {
    match pieces.earlier(index, 1) {
        b"class" | b"interface" => Declared::Type,
        b"fun" => Declared::Method,
        b"val" | b"var" => Declared::Variable,
        _ if is_bound(pieces, index) => Declared::Variable,
        _ => Declared::Nothing,
    }
}

/// The number of the name that the `catch` of a `try` binds.
fn caught_name(pieces: &Pieces<'_>, index: usize) -> usize {
    let mut open = 0usize;
    for place in index..pieces.len() {
        match pieces.text(place) {
            b"{" => open = open.saturating_add(1),
            b"}" if open <= 1 => return place.saturating_add(3),
            b"}" => open -= 1,
            _ => {}
        }
    }
    index
}

/// The number of the name that a statement at a piece binds; for any other piece its own number.
pub fn bound_name(pieces: &Pieces<'_>, index: usize) -> usize {
    match pieces.text(index) {
        b"val" | b"var" => index.saturating_add(1),
        b"for" => index.saturating_add(2),
        b"batch" => index.saturating_add(3),
        b"try" => caught_name(pieces, index),
        _ => index,
    }
}

/// The number of the last piece before another that declares this name so.
pub fn declared_before(
    pieces: &Pieces<'_>,
    index: usize,
    name: &[u8],
    declared: Declared,
) -> Option<usize> {
    let mut found = None;
    for place in 0..index {
        if pieces.is_later(place, 0, name) && declared_at(pieces, place) == declared {
            found = Some(place);
        }
    }
    found
}

/// The number of the one piece that declares this name so, or none where several do.
pub fn declared_once(pieces: &Pieces<'_>, name: &[u8], declared: Declared) -> Option<usize> {
    let last = declared_before(pieces, pieces.len(), name, declared)?;
    match declared_before(pieces, last, name, declared) {
        Some(_) => None,
        None => Some(last),
    }
}

/// How many fields the class that a piece names has, by the colons that stand in its braces and in no others.
pub fn fields_behind(pieces: &Pieces<'_>, index: usize) -> u64 {
    let mut open = 0usize;
    let mut count = 0u64;
    for place in index..pieces.len() {
        match pieces.text(place) {
            b"{" | b"(" => open = open.saturating_add(1),
            b"}" | b")" if open <= 1 => return count,
            b"}" | b")" => open -= 1,
            b":" if open == 1 && !pieces.is_earlier(place, 1, b")") => {
                count = count.saturating_add(1);
            }
            _ => {}
        }
    }
    count
}

/// How many arguments stand in the parentheses behind a piece, by its commas.
pub fn arguments_behind(pieces: &Pieces<'_>, index: usize) -> u64 {
    let first = index.saturating_add(1);
    if pieces.is_later(first, 1, b")") {
        return 0;
    }
    let mut open = 0usize;
    let mut count = 1u64;
    for place in first..pieces.len() {
        match pieces.text(place) {
            b"(" | b"[" => open = open.saturating_add(1),
            b")" | b"]" if open <= 1 => return count,
            b")" | b"]" => open -= 1,
            b"," if open == 1 => count = count.saturating_add(1),
            _ => {}
        }
    }
    count
}

/// The number of the `fun` or `main` whose body a piece stands in.
pub fn head_before(pieces: &Pieces<'_>, index: usize) -> usize {
    let mut head = index;
    for place in 0..index {
        if is_among(pieces.text(place), b"fun main") {
            head = place;
        }
    }
    head
}
