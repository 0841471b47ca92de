// Marks of the order of bytes, which some editors put before a text.

use crate::outside_texts::{UTF8_MARK, UTF16_MARK};
use crate::trouble::Trouble;
use rb_pieces::Help;
use rb_trees::{LexError, ReadError, StoreError};

/// Whether a text isn't read for its first byte.
fn is_unread_at_once(error: &ReadError) -> bool {
    matches!(
        error,
        ReadError::Lex(LexError::BadByte(0) | LexError::NotUtf8(0))
    )
}

/// What is said of the mark before a text, where there is one.
fn mark_before(source: &[u8]) -> Option<&'static Help> {
    match source {
        [0xEF, 0xBB, 0xBF, ..] => Some(&UTF8_MARK),
        [0xFF, 0xFE, ..] | [0xFE, 0xFF, ..] => Some(&UTF16_MARK),
        _ => None,
    }
}

/// What is said of the mark that a text begins with, where it isn't read for that.
pub fn mark_of(source: &[u8], trouble: &Trouble<'_>) -> Option<&'static Help> {
    match trouble {
        Trouble::Unread(error) if is_unread_at_once(error) => mark_before(source),
        Trouble::Unserved(StoreError::Read(error)) if is_unread_at_once(error) => {
            mark_before(source)
        }
        _ => None,
    }
}
