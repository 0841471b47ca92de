// Comments among the lines of a printed text.
//
// The tokens of a printed text are some of the source's, in order. So a walk over the printed tokens finds each of them in
// the source, as the next that is the same.

ghost use Rattle.std.specs.Prelude.{◌≤◌, length, IfOk};

use crate::lines::{add_comment_lines, add_commented_line, add_line};
use crate::parts::{Part, parts_of};
use crate::tokens::{is_same_token, slice_of, tokens_of};
use rb_trees::{Memory, Seq, Token, Word};
use std::alloc::Global;

/// A printed text with the comments of its source among its lines.
pub fn weave(alloc: Global, source: &[u8], printed: &[u8]) -> Result<Word, Memory> {
    let parts = parts_of(alloc, source)?;
    weave_parts(alloc, parts.as_slice(), printed)
}

// A printed text with the comments of these parts among its lines.
fn weave_parts(alloc: Global, parts: &[Part<'_>], printed: &[u8]) -> Result<Word, Memory> {
    let mut reached = 0;
    let mut woven = Seq::new(alloc);
    for line in printed.split(|byte| *byte == b'\n') {
        let (_before, rest) = parts.split_at(reached);
        reached += weave_line(alloc, line, rest, &mut woven)?;
    }
    let (_before, rest) = parts.split_at(reached);
    add_comment_lines(b"", rest, &mut woven)?;
    Ok(woven)
}

/// Whether two texts have the same comments, in the same order.
pub fn keeps_comments(alloc: Global, source: &[u8], woven: &[u8]) -> Result<bool, Memory> {
    let before = comments_of(alloc, source)?;
    let after = comments_of(alloc, woven)?;
    Ok(before == after)
}

// The comments of a source, each on a line of its own.
fn comments_of(alloc: Global, source: &[u8]) -> Result<Word, Memory> {
    let parts = parts_of(alloc, source)?;
    let mut comments = Seq::new(alloc);
    add_comment_lines(b"", parts.as_slice(), &mut comments)?;
    Ok(comments)
}

// Adds a printed line, with the comments before its last token on lines before it, and behind it the last of those that
// stand behind it in the source. Gives the number of parts up to there.
fn weave_line(
    alloc: Global,
    line: &[u8],
    parts: &[Part<'_>],
    into: &mut Word,
) -> Result<usize, Memory>
    ensures { IfOk result (λ reached. reached ≤ length parts.now) }
{
    let tokens = tokens_of(alloc, line)?;
    let reached = reached_by(line, tokens.as_slice(), parts);
    let (passed, rest) = parts.split_at(reached);
    add_comment_lines(line, passed, into)?;
    let count = count_behind(rest);
    let (behind, _rest) = rest.split_at(count);
    add_ended_line(line, behind, into)?;
    Ok(reached + count)
}

// Adds a line with the last of the comments behind it, and the others on lines before it.
fn add_ended_line(line: &[u8], behind: &[Part<'_>], into: &mut Word) -> Result<(), Memory> {
    match behind.split_last() {
        Some((last, earlier)) => {
            add_comment_lines(line, earlier, into)?;
            add_commented_line(line, *last, into)
        }
        None => add_line(line, into),
    }
}

// The number of parts up to the last token of a printed line, that one counted.
fn reached_by(line: &[u8], tokens: &[Token], parts: &[Part<'_>]) -> usize
    ensures { result ≤ length parts.now }
{
    let mut reached = 0;
    for token in tokens {
        let (_passed, rest) = parts.split_at(reached);
        reached += count_up_to(slice_of(line, *token), rest);
    }
    reached
}

// The number of parts up to the first of a token, that one counted; all where none is of it.
fn count_up_to(token: &[u8], parts: &[Part<'_>]) -> usize
    ensures { result ≤ length parts.now }
{
    for (place, part) in parts.iter().enumerate() {
        if is_token(*part, token) {
            return place + 1;
        }
    }
    parts.len()
}

// Whether a part is a token.
fn is_token(part: Part<'_>, token: &[u8]) -> bool {
    match part {
        Part::Token(found) => is_same_token(found, token),
        Part::Alone(_) | Part::Behind(_) => false,
    }
}

// The number of parts, from the first on, that are comments behind tokens.
fn count_behind(parts: &[Part<'_>]) -> usize
    ensures { result ≤ length parts.now }
{
    for (place, part) in parts.iter().enumerate() {
        match part {
            Part::Behind(_) => {}
            Part::Token(_) | Part::Alone(_) => return place,
        }
    }
    parts.len()
}
