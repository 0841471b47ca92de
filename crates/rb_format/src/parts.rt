// A source as its tokens and comments.

use crate::tokens::{begin_with_empty_else, between, slice_of, tokens_of};
use rb_trees::Memory;
use std::alloc::Global;

/// A part of a source.
#[derive(Clone, Copy)]
pub enum Part<'a> {
    /// A token that may be printed.
    Token(&'a [u8]),
    /// A comment without blanks at its end, before which no token stands on its line.
    Alone(&'a [u8]),
    /// A comment without blanks at its end, before which a token stands on its line.
    Behind(&'a [u8]),
}

/// The number of tokens of an `else` with an empty block.
const EMPTY_ELSE: u8 = 3;

/// The tokens and comments of a source in order, but for each `else` with an empty block.
pub fn parts_of<'a>(alloc: Global, source: &'a [u8]) -> Result<Vec<Part<'a>>, Memory> {
    let tokens = tokens_of(alloc, source)?;
    let mut parts = Vec::new(alloc);
    let mut reached = 0;
    let mut left_out = 0;
    for (place, token) in tokens.as_slice().iter().enumerate() {
        let gap = between(source, reached, token.start as usize);
        add_comments(gap, place > 0, &mut parts)?;
        reached = token.end as usize;
        if begin_with_empty_else(source, &tokens.as_slice()[place..]) {
            left_out = EMPTY_ELSE;
        }
        if left_out > 0 {
            left_out -= 1;
        } else {
            parts.push(Part::Token(slice_of(source, *token)))?;
        }
    }
    let gap = between(source, reached, source.len());
    add_comments(gap, !tokens.is_empty(), &mut parts)?;
    Ok(parts)
}

// Adds the comments of what stands between two tokens: at most one in each line. It's said whether there is a token before.
fn add_comments<'a>(gap: &'a [u8], behind: bool, parts: &mut Vec<Part<'a>>) -> Result<(), Memory> {
    let mut behind = behind;
    for line in gap.split(|byte| *byte == b'\n') {
        let comment = line.trim_ascii();
        if !comment.is_empty() {
            let part = if behind {
                Part::Behind(comment)
            } else {
                Part::Alone(comment)
            };
            parts.push(part)?;
        }
        behind = false;
    }
    Ok(())
}
