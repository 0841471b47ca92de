// Text literals: where they end, and their values.

ghost use Rattle.std.specs.Prelude.{◌≡◌, ◌≤◌, ◌<◌, ◌+◌, false, length, IfOk};
ghost use Rattle.rb_meaning_bytes.specs.tokens.Bytes.{makes_escape};
ghost use Rattle.rb_meaning_bytes.specs.tokens.Values.{text_value, escape_value, unescaped};
ghost use Rattle.rb_lex.specs.Ends.{text_end, EndsWithin, end_at_quote, first_bad};

use crate::bytes::{after, is_escaped};
use rb_trees::{Memory, Seq, Word};
use std::alloc::Global;

/// How a text literal ends, counted from behind its first quote.
#[derive(Clone, Copy)]
pub enum End {
    /// A quote closes it behind so many bytes, which stand for a value of so many bytes.
    Closes(usize, usize),
    /// A quote closes it, and its first bad escape stands behind so many bytes.
    Breaks(usize),
    /// No quote closes it before the line ends.
    Never,
}

/// Whether the bytes behind a backslash make an escape with it.
#[tactic(auto)]
fn makes_escape(text: &[u8]) -> bool
    ensures { result ≡ makes_escape text.now }
{
    match text {
        [] => false,
        [b, ..] => is_escaped(*b),
    }
}

/// How a text literal ends, from the bytes behind its first quote on.
#[tactic(auto, using(crate::proofs::Endings::end_steps))]
pub fn end_of_text(text: &[u8]) -> End
    ensures value { result ≡ text_end false text.now }
    ensures within { EndsWithin result (length text.now) }
{
    let mut n = 0;
    let mut size = 0;
    let mut bad = None;
    while n < text.len() {
        let b = text[n];
        if b == b'"' {
            return end_at_quote(bad, n, size);
        }
        if b == b'\n' {
            return End::Never;
        }
        if b == b'\\' {
            if makes_escape(after(text, n + 1)) {
                n += 1;
            } else {
                bad = first_of(bad, n);
            }
        }
        n += 1;
        size += 1;
    }
    End::Never
}

/// A quote closes the literal, whose first bad escape may have been found.
fn end_at_quote(bad: Option<usize>, n: usize, size: usize) -> End
    ensures { result ≡ end_at_quote bad n size }
{
    match bad {
        None => End::Closes(n, size),
        Some(at) => End::Breaks(at),
    }
}

/// The first bad escape.
fn first_of(bad: Option<usize>, n: usize) -> Option<usize>
    ensures { result ≡ first_bad bad n }
{
    match bad {
        None => Some(n),
        Some(at) => Some(at),
    }
}

/// What an escape stands for.
#[tactic(auto, unfolding(rb_meaning_bytes::specs::tokens::Values::escape_value))]
fn escape_value(b: u8) -> u8
    ensures { result ≡ escape_value b }
{
    if b == b'n' { b'\n' } else { b }
}

/// The value of a text literal, given with its quotes, by `text_value`.
pub fn text_value(alloc: Global, literal: &[u8]) -> Result<Word, Memory>
    ensures { IfOk result (λ value. value ≡ text_value literal.now) }
{
    match literal {
        [] => Ok(Seq::new(alloc)),
        [_, text @ ..] => unescaped(alloc, text),
    }
}

/// The value of the bytes behind a literal's first quote, up to the quote that closes it.
#[tactic(auto, using(crate::proofs::Endings::value_steps))]
fn unescaped(alloc: Global, text: &[u8]) -> Result<Word, Memory>
    ensures { IfOk result (λ value. value ≡ unescaped false text.now) }
{
    let mut value = Seq::new(alloc);
    let mut rest = text;
    while let [b, more @ ..] = rest {
        if *b == b'"' {
            return Ok(value);
        }
        rest = more;
        if *b != b'\\' {
            value.push(*b)?;
        } else if let [escaped, behind @ ..] = more {
            value.push(escape_value(*escaped))?;
            rest = behind;
        }
    }
    Ok(value)
}
