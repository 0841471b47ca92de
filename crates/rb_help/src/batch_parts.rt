// The batch around a piece, its statements, and what is bound and assigned in it.

use rb_pieces::Pieces;
use rb_pieces::around::{first_of_statement, is_among, is_name, open_brace};
use rb_pieces::declarations::{Declared, declared_at, declared_before};

/// A batch: its word, the brace behind its head, and the brace at its end.
#[derive(Clone, Copy)]
pub struct BatchSpan {
    pub word: usize,
    pub open: usize,
    pub close: usize,
}

/// The brace that closes the one at a piece.
fn closing_brace(pieces: &Pieces<'_>, index: usize) -> usize {
    let mut open = 0usize;
    for place in index..pieces.len() {
        match pieces.text(place) {
            b"{" => open = open.saturating_add(1),
            b"}" if open <= 1 => return place,
            b"}" => open -= 1,
            _ => {}
        }
    }
    pieces.len()
}

/// The outermost batch around a piece.
pub fn batch_around(pieces: &Pieces<'_>, index: usize) -> Option<BatchSpan> {
    let mut found = None;
    let mut place = index;
    for _ in 0..pieces.len() {
        let Some(open) = open_brace(pieces, place) else {
            return found;
        };
        let word = first_of_statement(pieces, open);
        if pieces.is_later(word, 0, b"batch") {
            found = Some(BatchSpan {
                word,
                open,
                close: closing_brace(pieces, open),
            });
        }
        place = open;
    }
    found
}

/// The first piece of the statement in which a piece stands, over the blocks before an `else` or a `catch`.
pub fn statement_start(pieces: &Pieces<'_>, index: usize) -> usize {
    let mut place = index;
    for _ in 0..pieces.len() {
        let first = first_of_statement(pieces, place);
        if !is_among(pieces.text(first), b"else catch") {
            return first;
        }
        match open_brace(pieces, first.saturating_sub(1)) {
            Some(open) => place = open,
            None => return first,
        }
    }
    index
}

/// The first piece of the statement that stands directly in a block and holds a piece.
pub fn statement_in(pieces: &Pieces<'_>, open: usize, index: usize) -> usize {
    let mut place = index;
    for _ in 0..pieces.len() {
        match open_brace(pieces, place) {
            Some(brace) if brace != open => place = brace,
            _ => return statement_start(pieces, place),
        }
    }
    index
}

/// Whether a loop stands around a statement of a batch.
pub fn is_in_loop(pieces: &Pieces<'_>, batch: &BatchSpan, statement: usize) -> bool {
    let mut place = statement;
    for _ in 0..pieces.len() {
        match open_brace(pieces, place) {
            Some(open) if open > batch.open => place = statement_start(pieces, open),
            _ => return false,
        }
        if is_among(pieces.text(place), b"for while") {
            return true;
        }
    }
    false
}

/// Whether a piece is a name that is assigned there.
fn is_assigned(pieces: &Pieces<'_>, index: usize) -> bool {
    pieces.is_later(index, 1, b"=")
        && !pieces.is_later(index, 2, b"=")
        && !is_among(pieces.earlier(index, 1), b". val var")
}

/// The first piece from one on and before another at which a variable is assigned.
pub fn assigned_within(pieces: &Pieces<'_>, name: &[u8], from: usize, to: usize) -> Option<usize> {
    for place in from..to {
        if pieces.is_later(place, 0, name) && is_assigned(pieces, place) {
            return Some(place);
        }
    }
    None
}

/// Whether a name stands from one piece on and before another, and not as a member.
fn is_used(pieces: &Pieces<'_>, name: &[u8], from: usize, to: usize) -> bool {
    for place in from..to {
        if pieces.is_later(place, 0, name) && !pieces.is_earlier(place, 1, b".") {
            return true;
        }
    }
    false
}

/// So many variables of a batch are looked at, and so many assignments of one.
const MOST_LOOKED_AT: usize = 64;

/// The variables that a batch binds directly before one of its statements and uses from there on: none, one, or several.
#[derive(Clone, Copy)]
pub enum Across<'a> {
    None,
    One(&'a [u8]),
    Several,
}

/// What a batch binds directly before one of its statements and uses from there on.
pub fn bound_across<'a>(pieces: &Pieces<'a>, batch: &BatchSpan, statement: usize) -> Across<'a> {
    let mut depth = 0usize;
    let mut looked_at = 0usize;
    let mut found = Across::None;
    for place in batch.open..statement {
        match pieces.text(place) {
            b"{" => depth = depth.saturating_add(1),
            b"}" => depth = depth.saturating_sub(1),
            b"val" | b"var" if depth == 1 && looked_at < MOST_LOOKED_AT => {
                looked_at += 1;
                let name = pieces.later(place, 1);
                if is_used(pieces, name, statement, batch.close) {
                    found = found.and(name);
                }
            }
            _ => {}
        }
    }
    found
}

impl<'a> Across<'a> {
    /// One variable more.
    fn and(self, name: &'a [u8]) -> Across<'a> {
        match self {
            Across::None => Across::One(name),
            Across::One(_) | Across::Several => Across::Several,
        }
    }
}

/// The piece that declares the variable that a piece names.
pub fn declaration_of(pieces: &Pieces<'_>, index: usize) -> Option<usize> {
    declared_before(pieces, index, pieces.text(index), Declared::Variable)
}

/// Whether what stands from a piece on to the end of its statement, or to a brace, names nothing that a batch binds, but for
/// one name.
pub fn is_from_before(pieces: &Pieces<'_>, batch: &BatchSpan, name: &[u8], from: usize) -> bool {
    let mut looked_at = 0usize;
    for place in from..pieces.len() {
        match pieces.text(place) {
            b";" | b"{" => return true,
            text if text == name || !is_name(text) || pieces.is_earlier(place, 1, b".") => {}
            _ if looked_at >= MOST_LOOKED_AT => return false,
            _ => {
                looked_at += 1;
                if declaration_of(pieces, place).is_some_and(|it| it > batch.word) {
                    return false;
                }
            }
        }
    }
    false
}

/// Whether each assignment of a variable in a batch stands directly in it, and gives what names nothing that the batch binds,
/// but for the variable.
pub fn are_from_before(pieces: &Pieces<'_>, batch: &BatchSpan, name: &[u8]) -> bool {
    let mut from = batch.open;
    for _ in 0..MOST_LOOKED_AT {
        let Some(place) = assigned_within(pieces, name, from, batch.close) else {
            return true;
        };
        let is_direct = open_brace(pieces, place) == Some(batch.open);
        if !is_direct || !is_from_before(pieces, batch, name, place.saturating_add(2)) {
            return false;
        }
        from = place.saturating_add(1);
    }
    false
}

/// Whether the server can work out what stands from one piece on to the end of its statement: no list, no new object and no
/// field is in it.
pub fn is_portable(pieces: &Pieces<'_>, from: usize) -> bool {
    for place in from..pieces.len() {
        match pieces.text(place) {
            b";" => return true,
            b"[" | b"new" | b"List" | b"this" => return false,
            b"." if !pieces.is_later(place, 2, b"(") => return false,
            name if is_local_object(pieces, place, name) => return false,
            _ => {}
        }
    }
    false
}

/// Whether a piece is a variable that a `new` is bound to.
fn is_local_object(pieces: &Pieces<'_>, index: usize, name: &[u8]) -> bool {
    if !is_name(name) || !pieces.is_later(index, 1, b".") {
        return false;
    }
    match declaration_of(pieces, index) {
        Some(place) => pieces.is_later(place, 1, b"=") && pieces.is_later(place, 2, b"new"),
        None => false,
    }
}

/// Whether a variable is assigned from its declaration on in the block of that alone, and each time what the server can work
/// out.
pub fn is_straight(pieces: &Pieces<'_>, declaration: usize, to: usize) -> bool {
    let name = pieces.text(declaration);
    let block = open_brace(pieces, declaration);
    let mut looked_at = 0usize;
    for place in declaration..to {
        let binds = place == declaration || is_assigned(pieces, place);
        if pieces.is_later(place, 0, name) && binds {
            let is_direct = open_brace(pieces, place) == block;
            let is_kept = is_direct && is_portable(pieces, place.saturating_add(2));
            if !is_kept || looked_at >= MOST_LOOKED_AT {
                return false;
            }
            looked_at += 1;
        }
    }
    true
}

/// Whether a piece declares a variable by a word.
pub fn is_declared_by(pieces: &Pieces<'_>, index: usize, word: &[u8]) -> bool {
    pieces.is_earlier(index, 1, word) && declared_at(pieces, index) == Declared::Variable
}
