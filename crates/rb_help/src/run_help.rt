// What is said where a run ended by a fault.

use crate::texts;
use rb_pieces::declarations::{Declared, declared_once};
use rb_pieces::spans::{Span, closing, operand_first};
use rb_pieces::{Help, Page, Pieces};
use rb_trees::fault_codes::{
    BAD_ARGUMENTS, DIVISION_BY_ZERO, FUEL_USED, HEAP_FULL, INDEX_OUTSIDE, INPUT_TOO_LARGE, KIND,
    LIST_TOO_LONG, NO_METHOD, TEXT_TOO_LONG, THROWN, TOO_DEEP, WRONG_KIND,
};
use rb_trees::{Fault, Memory};
use rb_type_help::{known_type, name_of};

/// Whether a piece is the name of a method that is called.
fn is_call(pieces: &Pieces<'_>, index: usize) -> bool {
    pieces.is_earlier(index, 1, b".") && pieces.is_later(index, 1, b"(")
}

/// What is said of a fault that code at the server met, by its code; None where it isn't told from one that was met here.
fn met_at_server(code: u8) -> Option<&'static Help> {
    match code {
        DIVISION_BY_ZERO => Some(&texts::SERVER_DIV_ZERO),
        INDEX_OUTSIDE => Some(&texts::SERVER_INDEX),
        TEXT_TOO_LONG => Some(&texts::SERVER_TEXT_TOO_LONG),
        LIST_TOO_LONG => Some(&texts::SERVER_LIST_TOO_LONG),
        HEAP_FULL => Some(&texts::SERVER_HEAP_FULL),
        THROWN => Some(&texts::SERVER_THROWN),
        _ => None,
    }
}

/// What is said of a fault, by its code.
fn meant_by(code: u8) -> &'static Help {
    match code {
        DIVISION_BY_ZERO => &texts::DIV_ZERO,
        INDEX_OUTSIDE => &texts::INDEX,
        TEXT_TOO_LONG => &texts::TEXT_TOO_LONG,
        LIST_TOO_LONG => &texts::LIST_TOO_LONG,
        HEAP_FULL => &texts::HEAP_FULL,
        TOO_DEEP => &texts::TOO_DEEP,
        FUEL_USED => &texts::FUEL_USED,
        THROWN => &texts::THROWN,
        NO_METHOD => &texts::OBJECT_LACKS,
        BAD_ARGUMENTS => &texts::BAD_ARGUMENTS,
        WRONG_KIND => &texts::WRONG_KIND,
        KIND => &texts::KIND,
        INPUT_TOO_LARGE => &texts::INPUT_TOO_LARGE,
        _ => &texts::OTHER_FAULT,
    }
}

/// Whether a piece is a call of a method of an interface, or a loop over rows.
fn is_at_server(pieces: &Pieces<'_>, index: usize) -> bool {
    if pieces.is_later(index, 0, b"for") {
        let open = index.saturating_add(1);
        let span = Span {
            first: open.saturating_add(3),
            last: closing(pieces, open).saturating_sub(1),
        };
        return matches!(name_of(pieces, known_type(pieces, span)), b"Rows");
    }
    let last = index.saturating_sub(2);
    let span = Span {
        first: operand_first(pieces, last),
        last,
    };
    let owner = name_of(pieces, known_type(pieces, span));
    match declared_once(pieces, owner, Declared::Type) {
        Some(place) => is_call(pieces, index) && pieces.is_earlier(place, 1, b"interface"),
        None => false,
    }
}

/// What is said of a fault at a piece. What local code divides, joins, makes or throws stands at a sign or a word of the
/// language, so at a call it was code of the server.
fn help_on(pieces: &Pieces<'_>, index: usize, code: u8) -> &'static Help {
    match met_at_server(code) {
        Some(help) if is_call(pieces, index) => help,
        None if code == TOO_DEEP && is_at_server(pieces, index) => &texts::SERVER_TOO_DEEP,
        None if code == FUEL_USED && is_at_server(pieces, index) => &texts::SERVER_FUEL_USED,
        _ => meant_by(code),
    }
}

/// What is said where a run ended by a fault at a position.
pub fn say_fault(
    page: &mut Page,
    pieces: &Pieces<'_>,
    fault: &Fault,
    at: u32,
) -> Result<(), Memory> {
    let index = pieces.index_of(at);
    let help = help_on(pieces, index, fault.code);
    if fault.code == THROWN {
        page.say_name(help, fault.text.as_slice())
    } else {
        page.say_name(help, pieces.text(index))
    }
}
