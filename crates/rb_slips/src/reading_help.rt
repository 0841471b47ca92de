// What is said where a text isn't read.

use crate::slips::comment_slip;
use crate::tries::TextKind;
use crate::unexpected::say_unexpected;
use crate::{read_texts, slip_texts};
use rb_pieces::{OUT_OF_MEMORY, Page, Pieces};
use rb_trees::{LexError, Memory, ReadError};

/// A text has at most so many bytes.
const LONGEST_SOURCE: u32 = 1_048_576;

/// The bytes of the character at a place.
fn character_at<'a>(source: &'a [u8], at: u32) -> &'a [u8] {
    let rest = source.get(at as usize..).unwrap_or(b"");
    let count = match rest.first() {
        Some(0xC0..=0xDF) => 2,
        Some(0xE0..=0xEF) => 3,
        Some(0xF0..=0xFF) => 4,
        _ => 1,
    };
    rest.get(..count).unwrap_or(rest)
}

/// Whether a place is inside a text literal.
fn is_in_literal(pieces: &Pieces<'_>, at: u32) -> bool {
    let index = pieces.index_of(at);
    pieces.earlier(index, 1).first() == Some(&b'"') && pieces.start(index) != at as usize
}

/// What is said of a character that begins no token.
fn say_bad_character(page: &mut Page, character: &[u8]) -> Result<(), Memory> {
    match character {
        b"&" | b"|" => page.say_name(&read_texts::HALF_SIGN, character),
        b"'" | b"`" => page.say_name(&slip_texts::QUOTES, character),
        b"?" => page.say_plain(&slip_texts::NO_QUESTION),
        [0xE2, 0x80, 0x98..=0x9F] => page.say_name(&slip_texts::QUOTES, character),
        [0xC2, 0xA0] => page.say_plain(&slip_texts::BLANK),
        _ => page.say_name(&read_texts::NO_TOKEN, character),
    }
}

/// What is said of a byte that begins no token.
fn say_bad_byte(
    page: &mut Page,
    pieces: &Pieces<'_>,
    kind: TextKind,
    at: u32,
) -> Result<(), Memory> {
    let index = pieces.index_of(at);
    if is_in_literal(pieces, at) {
        return page.say_plain(&read_texts::BAD_ESCAPE);
    }
    match comment_slip(pieces, kind, index) {
        Some(slip) => page.say_name(slip.help, slip.name),
        None => say_bad_character(page, character_at(pieces.source(), at)),
    }
}

/// What is said where a text has no tokens.
fn say_lex(
    page: &mut Page,
    pieces: &Pieces<'_>,
    kind: TextKind,
    error: &LexError,
) -> Result<(), Memory> {
    match error {
        LexError::BadByte(at) => say_bad_byte(page, pieces, kind, *at),
        LexError::OpenText(_) => page.say_plain(&read_texts::OPEN_TEXT),
        LexError::NumberTooLarge(at) => {
            let number = pieces.text(pieces.index_of(*at));
            page.say_name(&read_texts::LARGE_NUMBER, number)
        }
        LexError::NotUtf8(_) => page.say_plain(&read_texts::NOT_UTF8),
        LexError::TooLong(at) if *at >= LONGEST_SOURCE => page.say_plain(&read_texts::LONG_SOURCE),
        LexError::TooLong(_) => page.say_plain(&read_texts::LONG_LITERAL),
        LexError::Memory => page.say_plain(&OUT_OF_MEMORY),
    }
}

/// What is said where a text isn't read that is to be of a kind.
fn say_read_as(
    page: &mut Page,
    pieces: &Pieces<'_>,
    kind: TextKind,
    error: &ReadError,
) -> Result<(), Memory> {
    match error {
        ReadError::Lex(error) => say_lex(page, pieces, kind, error),
        ReadError::Unexpected(at) => say_unexpected(page, pieces, kind, *at),
        ReadError::TooNested(at) if pieces.is_later(pieces.index_of(*at), 0, b"{") => {
            page.say_plain(&read_texts::BLOCKS_NESTED)
        }
        ReadError::TooNested(_) => page.say_plain(&read_texts::NESTED),
        ReadError::Memory => page.say_plain(&OUT_OF_MEMORY),
    }
}

/// What is said where a program isn't read.
pub fn say_read(page: &mut Page, pieces: &Pieces<'_>, error: &ReadError) -> Result<(), Memory> {
    say_read_as(page, pieces, TextKind::Program, error)
}

/// What is said where the text of a service isn't read.
pub fn say_read_service(
    page: &mut Page,
    pieces: &Pieces<'_>,
    error: &ReadError,
) -> Result<(), Memory> {
    say_read_as(page, pieces, TextKind::Service, error)
}
