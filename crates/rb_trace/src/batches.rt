// Where the batches of a program's text stand.

ghost use Rattle.std.specs.Prelude.{◌≡◌, ◌≤◌, length, IfOk};
ghost use Rattle.rb_meaning_bytes.specs.tokens.Texts.{longest_text};

use rb_lex::lex;
use rb_places::Places;
use rb_trees::{LexError, Memory, Token, TokenKind};
use std::alloc::Global;
use std::marker::Model;

/// The greatest number of bytes of a program's text.
const LONGEST_TEXT: usize = 1_048_576;

/// The kind of the keyword `batch`, by its place in the language's list.
const BATCH: TokenKind = TokenKind::Keyword(16);

/// A program's text, and where its batches begin. Contracts see the text, which is one that a program may have.
#[derive(Drop)]
pub struct Batches<'t> {
    places: Places<'t>,
    /// The offsets of the keywords `batch`, rising.
    starts: Vec<u32>,
}

impl<'t> Model for Batches<'t> {
    ghost use Rattle.std.specs.Prelude.{ℕ, List, ◌≤◌, length};
    ghost use Rattle.rb_meaning_bytes.specs.tokens.Texts.{longest_text};

    ghost Value = { List ℕ };

    ghost view = { λ it. it.places };

    ghost invariant = { λ it. length it.places ≤ longest_text };
}

impl<'t> Batches<'t> {
    /// The batches of a text. One that is longer than 1,048,576 bytes is none of a program, and stands for the empty text. A text
    /// that has no tokens has no batches.
    pub fn of(alloc: Global, source: &'t [u8]) -> Result<Batches<'t>, Memory>
        ensures { length source.now ≤ longest_text → IfOk result (λ batches. batches ≡ source.now) }
    {
        let text = if source.len() > LONGEST_TEXT {
            b""
        } else {
            source
        };
        Ok(Batches {
            places: Places::of(alloc, text)?,
            starts: starts_in(alloc, text)?,
        })
    }

    /// The text.
    pub fn text(&self) -> &'t [u8]
        ensures is { result.now ≡ self.now }
        ensures within { length self.now ≤ longest_text }
    {
        self.places.text()
    }

    /// The line, from 1, of the last batch that begins at an offset or before it. There is none where no batch does.
    pub fn line_at(&self, at: u32) -> Option<usize> {
        match last_up_to(self.starts.as_slice(), at) {
            Some(start) => Some(self.places.line(start)),
            None => None,
        }
    }
}

/// The last of some offsets, which rise, that isn't behind this one.
fn last_up_to(starts: &[u32], at: u32) -> Option<u32> {
    let mut last = None;
    for start in starts {
        if *start > at {
            return last;
        }
        last = Some(*start);
    }
    last
}

/// The offsets at which the batches of a text begin. There are none where it has no tokens.
fn starts_in(alloc: Global, text: &[u8]) -> Result<Vec<u32>, Memory> {
    match lex(alloc, text) {
        Ok(tokens) => starts_of(alloc, tokens.as_slice()),
        Err(LexError::Memory) => Err(Memory),
        Err(_) => Ok(Vec::new(alloc)),
    }
}

/// The offsets of the keywords `batch` among tokens.
fn starts_of(alloc: Global, tokens: &[Token]) -> Result<Vec<u32>, Memory> {
    let mut starts = Vec::new(alloc);
    for token in tokens {
        if token.kind == BATCH {
            starts.push(token.start)?;
        }
    }
    Ok(starts)
}
