// The tokens of a text, as slices of it.

use rb_lex::lex;
use rb_trees::{LexError, Memory, Seq, Token};
use std::alloc::Global;

/// The tokens of a text; none where it isn't read.
pub fn tokens_of(alloc: Global, text: &[u8]) -> Result<Seq<Token>, Memory> {
    match lex(alloc, text) {
        Ok(tokens) => Ok(tokens),
        Err(LexError::Memory) => Err(Memory),
        Err(_) => Ok(Seq::new(alloc)),
    }
}

/// The bytes from one offset up to another; none where the text doesn't have them.
pub fn between(text: &[u8], start: usize, end: usize) -> &[u8] {
    text.get(start..end).unwrap_or(&[])
}

/// The bytes of a token.
pub fn slice_of(text: &[u8], token: Token) -> &[u8] {
    between(text, token.start as usize, token.end as usize)
}

/// Whether two tokens are the same but for zeros before a number.
pub fn is_same_token(left: &[u8], right: &[u8]) -> bool {
    without_zeros(left) == without_zeros(right)
}

// A token without the zeros that it begins with, as only numbers do.
fn without_zeros(token: &[u8]) -> &[u8] {
    let zeros = token.iter().take_while(|byte| **byte == b'0').count();
    between(token, zeros, token.len())
}

/// Whether tokens begin with an `else` whose block is empty. It isn't printed.
pub fn begin_with_empty_else(text: &[u8], tokens: &[Token]) -> bool {
    match tokens {
        [word, opening, closing, ..] => {
            is_spelled(text, *word, b"else")
                && is_spelled(text, *opening, b"{")
                && is_spelled(text, *closing, b"}")
        }
        _ => false,
    }
}

// Whether a token has these bytes.
fn is_spelled(text: &[u8], token: Token, bytes: &[u8]) -> bool {
    slice_of(text, token) == bytes
}
