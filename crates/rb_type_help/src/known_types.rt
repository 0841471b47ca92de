// The type of an expression as far as the text tells it: by literals, by the types that are written, and by what operators
// give.

use crate::members::{Part, agreed_type};
use rb_pieces::Pieces;
use rb_pieces::around::is_among;
use rb_pieces::declarations::{Declared, declared_before};
use rb_pieces::spans::{Span, closing, head_of, is_group, is_prefix, opening, root_sign};

/// Where the name of a type stands.
#[derive(Clone, Copy)]
pub enum Written {
    /// Nowhere: the type isn't known.
    Nowhere,
    /// In the text, from this piece on.
    From(usize),
    /// Nowhere in the text: this is the name.
    Named(&'static [u8]),
}

/// What tells a type.
#[derive(Clone, Copy)]
enum Told {
    /// It is written so.
    By(Written),
    /// It is the type of this expression.
    As(Span),
    /// It is the type of the items of this expression's value.
    AsItems(Span),
}

/// How many expressions are gone through, from one to the next, before the type counts as not known.
const STEPS: usize = 64;

/// A type by its first piece, where there is one.
fn from(first: Option<usize>) -> Told {
    match first {
        Some(piece) => Told::By(Written::From(piece)),
        None => Told::By(Written::Nowhere),
    }
}

/// A type that isn't written, by its name.
fn named(name: &'static [u8]) -> Told {
    Told::By(Written::Named(name))
}

/// What tells the type of what a sign between two operands gives.
fn by_sign(pieces: &Pieces<'_>, span: &Span, sign: usize) -> Told {
    match pieces.text(sign) {
        b"+" => Told::As(Span {
            first: span.first,
            last: sign.saturating_sub(1),
        }),
        b"-" | b"*" | b"/" | b"%" => named(b"Int"),
        _ => named(b"Bool"),
    }
}

/// The expression from a piece to the end of its statement.
fn statement_from(pieces: &Pieces<'_>, first: usize) -> Span {
    for place in first..pieces.len() {
        if pieces.is_later(place, 1, b";") {
            return Span { first, last: place };
        }
    }
    Span { first, last: first }
}

/// What tells the type of a variable, by the piece that declares it.
fn of_declaration(pieces: &Pieces<'_>, place: usize) -> Told {
    let behind = place.saturating_add(2);
    if pieces.is_later(place, 1, b":") {
        return from(Some(behind));
    }
    match (pieces.earlier(place, 1), pieces.earlier(place, 2)) {
        (b"val" | b"var", _) => Told::As(statement_from(pieces, behind)),
        (b"(", b"for") => Told::AsItems(Span {
            first: behind,
            last: closing(pieces, place.saturating_sub(1)).saturating_sub(1),
        }),
        (b"(", b"catch") => named(b"Text"),
        _ => from(place.checked_sub(1)),
    }
}

/// The piece that names the class around another.
fn class_around(pieces: &Pieces<'_>, index: usize) -> Option<usize> {
    let mut found = None;
    for place in 0..index {
        if pieces.is_later(place, 0, b"class") {
            found = Some(place.saturating_add(1));
        }
    }
    found
}

/// What tells the type of a literal or a variable.
fn of_word(pieces: &Pieces<'_>, index: usize) -> Told {
    let text = pieces.text(index);
    match text.first() {
        Some(b'0'..=b'9') => return named(b"Int"),
        Some(b'"') => return named(b"Text"),
        _ => {}
    }
    match text {
        b"true" | b"false" => named(b"Bool"),
        b"this" => from(class_around(pieces, index)),
        _ => match declared_before(pieces, index, text, Declared::Variable) {
            Some(place) => of_declaration(pieces, place),
            None => Told::By(Written::Nowhere),
        },
    }
}

/// What tells the type of what stands with a parenthesis at its end: a group, a call, a `new`, a list, a `len` or `str`.
fn of_parentheses(pieces: &Pieces<'_>, last: usize) -> Told {
    let open = opening(pieces, last);
    if is_group(pieces, open) {
        return Told::As(Span {
            first: open.saturating_add(1),
            last: last.saturating_sub(1),
        });
    }
    let head = head_of(pieces, open);
    match pieces.text(head) {
        name if pieces.is_earlier(head, 1, b".") => from(agreed_type(pieces, name, Part::Result)),
        b"len" => named(b"Int"),
        b"str" => named(b"Text"),
        b"new" => from(Some(head.saturating_add(1))),
        _ => from(Some(head)),
    }
}

/// What tells the type of an operand without signs, by its last piece.
fn of_operand(pieces: &Pieces<'_>, span: &Span) -> Told {
    let last = span.last;
    match pieces.text(last) {
        b")" => of_parentheses(pieces, last),
        b"]" => Told::AsItems(Span {
            first: span.first,
            last: opening(pieces, last).saturating_sub(1),
        }),
        name if pieces.is_earlier(last, 1, b".") => from(agreed_type(pieces, name, Part::Field)),
        _ => of_word(pieces, last),
    }
}

/// What tells the type of an expression.
fn what_tells(pieces: &Pieces<'_>, span: &Span) -> Told {
    if let Some(sign) = root_sign(pieces, span) {
        return by_sign(pieces, span, sign.first);
    }
    if !is_prefix(pieces, span.first) {
        return of_operand(pieces, span);
    }
    match pieces.text(span.first) {
        b"!" => named(b"Bool"),
        _ => named(b"Int"),
    }
}

/// The type of the items of a List or of Rows, so many times.
fn items_of(pieces: &Pieces<'_>, written: Written, count: usize) -> Written {
    let mut now = written;
    for _ in 0..count {
        now = match now {
            Written::From(piece) if is_among(pieces.text(piece), b"List Rows") => {
                Written::From(piece.saturating_add(2))
            }
            _ => Written::Nowhere,
        };
    }
    now
}

/// The type of an expression, where the text tells it for sure.
pub fn known_type(pieces: &Pieces<'_>, span: Span) -> Written {
    let mut now = span;
    let mut items = 0usize;
    for _ in 0..STEPS {
        match what_tells(pieces, &now) {
            Told::By(written) => return items_of(pieces, written, items),
            Told::As(next) => now = next,
            Told::AsItems(next) => {
                now = next;
                items = items.saturating_add(1);
            }
        }
    }
    Written::Nowhere
}

/// The type of the variable that a piece declares, where the text tells it for sure.
pub fn variable_type(pieces: &Pieces<'_>, declaration: usize) -> Written {
    match of_declaration(pieces, declaration) {
        Told::By(written) => written,
        Told::As(span) => known_type(pieces, span),
        Told::AsItems(span) => items_of(pieces, known_type(pieces, span), 1),
    }
}

/// The name of a type that is one word.
pub fn name_of<'a>(pieces: &Pieces<'a>, written: Written) -> &'a [u8] {
    match written {
        Written::From(piece) => pieces.text(piece),
        Written::Named(name) => name,
        Written::Nowhere => b"",
    }
}
