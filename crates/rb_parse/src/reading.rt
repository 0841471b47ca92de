// Reading the tokens of a text.

ghost use Rattle.std.specs.Prelude.{◌≡◌, ◌<◌, ◌≤◌, ◌-◌, ◌+◌, ◌^◌, ℕ, List, length, take, drop};
ghost use Rattle.rb_trees.specs.declared.tokens.Token.{Token as Lexeme};
ghost use Rattle.rb_trees.specs.mirror.Declarations.{mirror_program};
ghost use Rattle.rb_trees.specs.Outcome.{Gives, Tells};
ghost use Rattle.rb_trees.specs.Reading.{read_refusal};
ghost use Rattle.rb_meaning_bytes.specs.grammar.Symbols.{TheProgram};
ghost use Rattle.rb_meaning_bytes.specs.grammar.Derives.{Derives};
ghost use Rattle.rb_meaning_bytes.specs.grammar.Refusals.{Read, place_of};
ghost use Rattle.rb_parse.specs.Nested.{behind, cut_of, limited_of, refusal_told};
ghost use Rattle.rb_parse.specs.Outcomes.{AtMostOne};

use crate::declarations::program;
use crate::limits::broken;
use crate::stop::{Refusal, Stop};
use rb_trees::{Boxed, Program, ReadError, Token};
use std::alloc::Global;

/// The program that the tokens are, within the limits.
#[tactic(auto, unfolding(crate::specs::Nested::limited_of))]
fn limited(alloc: Global, source: &[u8], tokens: &[Token]) -> Result<Boxed<Program>, Refusal>
    ensures { Gives mirror_program refusal_told result (limited_of TheProgram source.now tokens.now) }
{
    match broken(tokens) {
        None => match program(alloc, source, tokens) {
            Ok(program) => Ok(program),
            Err(Stop::Unexpected(left)) => Err(Refusal::Unexpected(left)),
            Err(Stop::Memory) => Err(Refusal::Memory),
        },
        Some(left) => cut(alloc, source, tokens, left),
    }
}

/// Why the tokens aren't read where one of them breaks a limit, with so many tokens left.
#[tactic(auto, using(crate::proofs::Laws::stops_within))]
fn cut(
    alloc: Global,
    source: &[u8],
    tokens: &[Token],
    left: usize,
) -> Result<Boxed<Program>, Refusal>
    requires some { 0 < left }
    requires within { left ≤ length tokens.now }
    ensures { Gives mirror_program refusal_told result (cut_of TheProgram source.now tokens.now left) }
{
    let front = &tokens[..tokens.len() - left + 1];
    match program(alloc, source, front) {
        Ok(_) => Err(Refusal::TooNested(left)),
        Err(Stop::Unexpected(more)) => Err(behind(left, more)),
        Err(Stop::Memory) => Err(Refusal::Memory),
    }
}

/// Why reading stops, where it stops with so many tokens left up to the one that breaks a limit.
#[tactic(auto, using(crate::proofs::Laws::behind_some))]
pub(crate) fn behind(left: usize, more: usize) -> Refusal
    requires { left + more ≤ 2 ^ 64 }
    ensures { result ≡ behind left more }
{
    if more == 0 {
        Refusal::TooNested(left)
    } else {
        Refusal::Unexpected(left + (more - 1))
    }
}

/// Where the next token begins with so many tokens left, or the source ends.
pub(crate) fn place(source: &[u8], tokens: &[Token], left: usize) -> u32
    requires small { length source.now < 2 ^ 32 }
    requires within { left ≤ length tokens.now }
    ensures { result ≡ place_of source.now (drop (length tokens.now - left) tokens.now) }
{
    match &tokens[tokens.len() - left..] {
        [token, ..] => token.start,
        [] => source.len() as u32,
    }
}

/// The program that the tokens of a source derive, or the first refusal.
///
/// The grammar, the limits of nesting and the refusals stand in `rb_meaning_bytes`, in `specs/grammar`.
pub fn parse_tokens(alloc: Global, source: &[u8], tokens: &[Token]) -> Result<Program, ReadError>
    requires small { length source.now < 2 ^ 32 }
    // What is answered, the tokens have: this program, or this first refusal.
    ensures read { Tells mirror_program read_refusal result (Read source.now tokens.now) }
{
    match limited(alloc, source, tokens) {
        Ok(program) => Ok(program.into_inner()),
        Err(Refusal::Unexpected(left)) => Err(ReadError::Unexpected(place(source, tokens, left))),
        Err(Refusal::TooNested(left)) => Err(ReadError::TooNested(place(source, tokens, left))),
        Err(Refusal::Memory) => Err(ReadError::Memory),
    }
}

/// A list of tokens derives at most one program.
pub fn tokens_derive_one_program()
    ensures { (source : List ℕ) → (tokens : List Lexeme) → AtMostOne (Derives source tokens) }
{}
