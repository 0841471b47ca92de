// Reading the tokens of a service's text.

ghost use Rattle.std.specs.Prelude.{◌<◌, ◌≤◌, ◌^◌, ℕ, List, length};
ghost use Rattle.rb_trees.specs.declared.tokens.Token.{Token as Lexeme};
ghost use Rattle.rb_trees.specs.mirror.Services.{mirror_service_text};
ghost use Rattle.rb_trees.specs.Outcome.{Gives, Tells};
ghost use Rattle.rb_trees.specs.Reading.{read_refusal};
ghost use Rattle.rb_meaning_bytes.specs.grammar.Symbols.{TheService};
ghost use Rattle.rb_meaning_bytes.specs.grammar.Derives.{DerivesService};
ghost use Rattle.rb_meaning_bytes.specs.grammar.Refusals.{ReadServiceTokens};
ghost use Rattle.rb_parse.specs.Nested.{cut_of, limited_of, refusal_told};
ghost use Rattle.rb_parse.specs.Outcomes.{AtMostOne};

use crate::limits::broken;
use crate::reading::{behind, place};
use crate::services::service;
use crate::stop::{Refusal, Stop};
use rb_trees::{ReadError, ServiceText, Token};
use std::alloc::Global;

/// The service that the tokens are, within the limits.
#[tactic(auto, unfolding(crate::specs::Nested::limited_of))]
fn limited(alloc: Global, source: &[u8], tokens: &[Token]) -> Result<ServiceText, Refusal>
    ensures { Gives mirror_service_text refusal_told result (limited_of TheService source.now tokens.now) }
{
    match broken(tokens) {
        None => match service(alloc, source, tokens) {
            Ok(service) => Ok(service),
            Err(Stop::Unexpected(left)) => Err(Refusal::Unexpected(left)),
            Err(Stop::Memory) => Err(Refusal::Memory),
        },
        Some(left) => cut(alloc, source, tokens, left),
    }
}

/// Why the tokens aren't read where one of them breaks a limit, with so many tokens left.
#[tactic(auto, using(crate::proofs::Laws::stops_within))]
fn cut(alloc: Global, source: &[u8], tokens: &[Token], left: usize) -> Result<ServiceText, Refusal>
    requires some { 0 < left }
    requires within { left ≤ length tokens.now }
    ensures { Gives mirror_service_text refusal_told result (cut_of TheService source.now tokens.now left) }
{
    let front = &tokens[..tokens.len() - left + 1];
    match service(alloc, source, front) {
        Ok(_) => Err(Refusal::TooNested(left)),
        Err(Stop::Unexpected(more)) => Err(behind(left, more)),
        Err(Stop::Memory) => Err(Refusal::Memory),
    }
}

/// The service that the tokens of a source derive, or the first refusal.
pub fn parse_service_tokens(
    alloc: Global,
    source: &[u8],
    tokens: &[Token],
) -> Result<ServiceText, ReadError>
    requires small { length source.now < 2 ^ 32 }
    // What is answered, the tokens have: this text of a service, or this first refusal.
    ensures read { Tells mirror_service_text read_refusal result (ReadServiceTokens source.now tokens.now) }
{
    match limited(alloc, source, tokens) {
        Ok(service) => Ok(service),
        Err(Refusal::Unexpected(left)) => Err(ReadError::Unexpected(place(source, tokens, left))),
        Err(Refusal::TooNested(left)) => Err(ReadError::TooNested(place(source, tokens, left))),
        Err(Refusal::Memory) => Err(ReadError::Memory),
    }
}

/// A list of tokens derives at most one text of a service.
pub fn tokens_derive_one_service()
    ensures { (source : List ℕ) → (tokens : List Lexeme) → AtMostOne (DerivesService source tokens) }
{}
