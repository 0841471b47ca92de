// The part of a source that a batch is.

use memchr::{memchr, memrchr};
use rb_trees::{Token, TokenKind};

/// A source with its tokens.
#[derive(Clone, Copy)]
pub struct Text<'a> {
    pub source: &'a [u8],
    pub tokens: &'a [Token],
}

/// Whole lines of a source, by the offsets of the first byte and behind the last.
#[derive(Clone, Copy)]
pub struct Excerpt {
    pub from: usize,
    pub to: usize,
}

/// The bytes of a text from one offset to another, or none where there are no such bytes.
pub fn piece_of(text: &[u8], from: usize, to: usize) -> &[u8] {
    match text.get(from..to) {
        Some(piece) => piece,
        None => &[],
    }
}

/// The piece of a source that a token is.
fn slice_of(source: &[u8], token: Token) -> &[u8] {
    piece_of(source, token.start as usize, token.end as usize)
}

/// Where the line of an offset begins.
pub fn line_start(source: &[u8], at: usize) -> usize {
    match memrchr(b'\n', piece_of(source, 0, at)) {
        Some(feed) => feed.saturating_add(1),
        None => 0,
    }
}

/// Where the line of an offset ends: at its line feed, or at the end.
pub fn line_end(source: &[u8], at: usize) -> usize {
    match memchr(b'\n', piece_of(source, at, source.len())) {
        Some(count) => at.saturating_add(count),
        None => source.len(),
    }
}

/// The lines of some bytes, without a last one that is empty.
pub fn whole_lines(text: &[u8]) -> &[u8] {
    match text {
        [lines @ .., b'\n'] => lines,
        _ => text,
    }
}

/// How many characters some bytes of UTF-8 have.
pub fn characters(bytes: &[u8]) -> usize {
    let mut count = 0usize;
    for byte in bytes {
        if !(0x80..0xC0).contains(byte) {
            count = count.saturating_add(1);
        }
    }
    count
}

impl<'a> Text<'a> {
    /// The tokens that begin at an offset or behind it.
    pub fn tokens_from(&self, at: usize) -> &'a [Token] {
        let count = self
            .tokens
            .partition_point(|token| (token.start as usize) < at);
        match self.tokens.get(count..) {
            Some(tokens) => tokens,
            None => &[],
        }
    }

    /// The lines of the batch that begins at a position: from its word to the brace that closes it.
    pub fn batch_at(&self, at: u32) -> Excerpt {
        let mut end = at as usize;
        let mut depth = 0usize;
        for token in self.tokens_from(at as usize) {
            end = token.end as usize;
            match slice_of(self.source, *token) {
                b"{" => depth = depth.saturating_add(1),
                b"}" if depth <= 1 => break,
                b"}" => depth -= 1,
                _ => {}
            }
        }
        Excerpt {
            from: line_start(self.source, at as usize),
            to: line_end(self.source, end),
        }
    }

    /// The position of the last batch that begins at or before a position, or that position where there is none.
    pub fn batch_before(&self, at: u32) -> u32 {
        let mut found = at;
        for token in self.tokens {
            if token.start > at {
                break;
            }
            if is_batch(self.source, *token) {
                found = token.start;
            }
        }
        found
    }
}

/// Whether a token is the word that begins a batch.
fn is_batch(source: &[u8], token: Token) -> bool {
    matches!(token.kind, TokenKind::Keyword(_)) && slice_of(source, token) == b"batch".as_slice()
}
