// The values that tokens stand for.

ghost use Rattle.std.specs.Prelude.{◌≡◌, IfOk};
ghost use Rattle.rb_meaning_bytes.specs.grammar.Values.{slice, name_of, number_of, minus_of, count_of, text_of};

use rb_lex::{capped_value, text_value};
use rb_trees::{Memory, Seq, Token, Word};
use std::alloc::Global;

/// The bytes of a token.
pub(crate) fn slice<'s>(source: &'s [u8], token: Token) -> &'s [u8]
    ensures { result.now ≡ slice source.now token }
{
    let start = (token.start as usize).min(source.len());
    let rest = &source[start..];
    let size = (token.end.saturating_sub(token.start) as usize).min(rest.len());
    &rest[..size]
}

/// The name that a token is.
pub(crate) fn name(alloc: Global, source: &[u8], token: Token) -> Result<Word, Memory>
    ensures { IfOk result (λ it. it ≡ name_of source.now token) }
{
    Seq::from_slice(alloc, slice(source, token))
}

/// One more than the greatest Int, which stands behind a minus.
const LEAST: u64 = 9_223_372_036_854_775_808;

/// The natural that a token stands for.
pub(crate) fn count(source: &[u8], token: Token) -> u64
    ensures { result ≡ count_of source.now token }
{
    capped_value(slice(source, token)).min(LEAST)
}

/// The Int that a token stands for.
pub(crate) fn number(source: &[u8], token: Token) -> i64
    ensures { result ≡ number_of source.now token }
{
    let value = count(source, token);
    if value == LEAST {
        i64::MIN
    } else {
        value as i64
    }
}

/// The Int that a token behind a minus stands for in a literal.
#[tactic(auto, using(std::proofs::lemmas::Int::wraps))]
pub(crate) fn minus(source: &[u8], token: Token) -> i64
    ensures { result ≡ minus_of source.now token }
{
    number(source, token).wrapping_neg()
}

/// The Text that a token stands for.
pub(crate) fn text(alloc: Global, source: &[u8], token: Token) -> Result<Word, Memory>
    ensures { IfOk result (λ it. it ≡ text_of source.now token) }
{
    text_value(alloc, slice(source, token))
}
