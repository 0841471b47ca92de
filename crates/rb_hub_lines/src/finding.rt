// The event that words may be those of: whoever asks compares.

ghost use Rattle.std.specs.Prelude.{◌≡◌, IfOk};
ghost use Rattle.rb_hub_lines.specs.Reading.{FindsBytes, FindsEvent, FindsNumber, FindsPiece, found, unless_empty};

use crate::cutting::cut;
use hex::{FromHexError, decode};
use rb_hub::Event;
use rb_lex::capped_value;
use rb_trees::{Memory, Seq, Word};
use std::alloc::Global;

/// The number below 2^32 that a word may be.
fn number_of(word: &[u8]) -> Option<u32>
    ensures { FindsNumber word.now result }
{
    u32::try_from(capped_value(word)).ok()
}

/// These bytes, unless there are none.
fn some_bytes(bytes: Word) -> Option<Word>
    ensures { result ≡ unless_empty bytes }
{
    if bytes.is_empty() { None } else { Some(bytes) }
}

/// The bytes that digits may be those of, at least one.
fn bytes_of(alloc: Global, digits: &[u8]) -> Result<Option<Word>, Memory>
    ensures { IfOk result (λ answer. FindsBytes digits.now answer) }
{
    match decode(alloc, digits) {
        Ok(bytes) => Ok(some_bytes(Seq::from_vec(bytes))),
        Err(error) => match error {
            FromHexError::OutOfMemory => Err(Memory),
            _ => Ok(None),
        },
    }
}

/// The piece of a session that words may be those of.
fn piece_of(alloc: Global, words: &[u8]) -> Result<Option<Event>, Memory>
    ensures { IfOk result (λ answer. FindsPiece words.now (found answer)) }
{
    let Some((number, digits)) = cut(b' ', words) else {
        return Ok(None);
    };
    let Some(number) = number_of(number) else {
        return Ok(None);
    };
    match bytes_of(alloc, digits)? {
        Some(piece) => Ok(Some(Event::Piece(number, piece))),
        None => Ok(None),
    }
}

/// The event that words may be those of.
pub fn likely_event(alloc: Global, words: &[u8]) -> Result<Option<Event>, Memory>
    ensures { IfOk result (λ answer. FindsEvent words.now (found answer)) }
{
    if words == b"open".as_slice() {
        return Ok(Some(Event::Open));
    }
    if let Some(piece) = words.strip_prefix(b"piece ") {
        return piece_of(alloc, piece);
    }
    let Some(word) = words.strip_prefix(b"close ") else {
        return Ok(None);
    };
    match number_of(word) {
        Some(number) => Ok(Some(Event::Close(number))),
        None => Ok(None),
    }
}
