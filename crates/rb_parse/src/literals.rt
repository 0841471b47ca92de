// Literals of a service's text.

ghost use Rattle.std.specs.Prelude.{◌≡◌, ◌<◌, length, IfOk, IfSome, option_map};
ghost use Rattle.rb_trees.specs.mirror.Services.{mirror_literal, mirror_literals};
ghost use Rattle.rb_trees.specs.Kinds.{is_one_of};
ghost use Rattle.rb_meaning_bytes.specs.grammar.Symbols as s;
ghost use Rattle.rb_parse.specs.Table.{literal_kinds};
ghost use Rattle.rb_parse.specs.Reading.{read_of, next_in};
ghost use Rattle.rb_parse.specs.Readers.{Reads, Shortens, NoLonger};
ghost use Rattle.rb_parse.specs.Services as v;

use crate::kinds::{CLOSE_BRACKET, COMMA, FALSE, MINUS, NUMBER_SIGN, OPEN_BRACKET, TRUE};
use crate::next::{expect, same_kind, take_if};
use crate::stop::Stop;
use crate::values::{count, minus, number, text};
use rb_trees::{Literal, Memory, Seq, Token, TokenKind};
use std::alloc::Global;

/// The literal of one token that comes next, if one does, and the tokens behind it.
#[tactic(auto, using(rb_trees::proofs::mirror::Literals::literals), unfolding(crate::specs::Services::simple_literal_of))]
fn simple_literal<'t>(
    alloc: Global,
    source: &[u8],
    tokens: &'t [Token],
) -> Result<Option<(Literal, &'t [Token])>, Memory>
    ensures value { IfOk result (λ o. v.simple_literal_of source.now tokens.now ≡ option_map (λ x. (mirror_literal x.0, x.1.now)) o) }
    ensures shorter { IfOk result (λ o. IfSome o (λ x. length x.1.now < length tokens.now)) }
{
    if let Some((token, rest)) = take_if(TokenKind::Number, tokens) {
        return Ok(Some((Literal::Int(number(source, token)), rest)));
    }
    if let Some((token, rest)) = take_if(TokenKind::TextLit, tokens) {
        return Ok(Some((Literal::Text(text(alloc, source, token)?), rest)));
    }
    if let Some((_, rest)) = take_if(TRUE, tokens) {
        return Ok(Some((Literal::Bool(true), rest)));
    }
    if let Some((_, rest)) = take_if(FALSE, tokens) {
        return Ok(Some((Literal::Bool(false), rest)));
    }
    Ok(None)
}

/// The number behind a minus.
#[tactic(auto, using(rb_trees::proofs::mirror::Literals::literals), unfolding(crate::specs::Services::negative_of))]
fn negative<'t>(source: &[u8], tokens: &'t [Token]) -> Result<(Literal, &'t [Token]), Stop>
    ensures value { Reads mirror_literal result (v.negative_of source.now tokens.now) }
    ensures shorter { Shortens tokens.now result }
{
    let (token, rest) = expect(TokenKind::Number, tokens)?;
    Ok((Literal::Int(minus(source, token)), rest))
}

/// The number behind a `#`.
#[tactic(auto, using(rb_trees::proofs::mirror::Literals::literals), unfolding(crate::specs::Services::reference_of))]
fn reference<'t>(source: &[u8], tokens: &'t [Token]) -> Result<(Literal, &'t [Token]), Stop>
    ensures value { Reads mirror_literal result (v.reference_of source.now tokens.now) }
    ensures shorter { Shortens tokens.now result }
{
    let (token, rest) = expect(TokenKind::Number, tokens)?;
    Ok((Literal::Object(count(source, token)), rest))
}

/// Whether a literal begins with the next token.
fn begins_literal(tokens: &[Token]) -> bool
    ensures { result ≡ next_in literal_kinds tokens.now }
{
    match tokens {
        [token, ..] => begins_with(token.kind),
        [] => false,
    }
}

/// Whether a literal begins with a token of the kind.
fn begins_with(kind: TokenKind) -> bool
    ensures { result ≡ is_one_of kind literal_kinds }
{
    same_kind(kind, TokenKind::Number)
        || same_kind(kind, TokenKind::TextLit)
        || same_kind(kind, TRUE)
        || same_kind(kind, FALSE)
        || same_kind(kind, MINUS)
        || same_kind(kind, NUMBER_SIGN)
        || same_kind(kind, OPEN_BRACKET)
}

/// A literal.
#[cycle(literals)]
#[tactic(auto, using(crate::proofs::ServiceEquations::literal_is))]
pub(crate) fn literal<'t>(
    alloc: Global,
    source: &[u8],
    tokens: &'t [Token],
) -> Result<(Literal, &'t [Token]), Stop>
    ensures value { Reads mirror_literal result (read_of source.now s.ALiteral tokens.now) }
    ensures shorter { Shortens tokens.now result }
{
    if let Some(found) = simple_literal(alloc, source, tokens)? {
        return Ok(found);
    }
    if let Some((_, rest)) = take_if(MINUS, tokens) {
        return negative(source, rest);
    }
    if let Some((_, rest)) = take_if(NUMBER_SIGN, tokens) {
        return reference(source, rest);
    }
    if let Some((_, rest)) = take_if(OPEN_BRACKET, tokens) {
        return items(alloc, source, rest);
    }
    Err(Stop::Unexpected(tokens.len()))
}

/// What follows the bracket that opens a list.
#[cycle(literals)]
#[tactic(auto, using(rb_trees::proofs::mirror::Literals::literals), unfolding(crate::specs::Services::items_of))]
fn items<'t>(
    alloc: Global,
    source: &[u8],
    tokens: &'t [Token],
) -> Result<(Literal, &'t [Token]), Stop>
    ensures value { Reads mirror_literal result (v.items_of source.now tokens.now) }
    ensures shorter { Shortens tokens.now result }
{
    let (list, rest) = literals(alloc, source, tokens)?;
    Ok((Literal::Items(list), rest))
}

/// Literals and the bracket that closes them.
#[cycle(literals)]
#[tactic(auto, using(crate::proofs::ServiceEquations::literals_is), unfolding(crate::specs::Services::literals_to_close))]
fn literals<'t>(
    alloc: Global,
    source: &[u8],
    tokens: &'t [Token],
) -> Result<(Seq<Literal>, &'t [Token]), Stop>
    ensures value { Reads mirror_literals result (v.literals_to_close source.now tokens.now) }
    ensures shorter { Shortens tokens.now result }
{
    if !begins_literal(tokens) {
        let (_, rest) = expect(CLOSE_BRACKET, tokens)?;
        return Ok((Seq::new(alloc), rest));
    }
    let (first, rest) = literal(alloc, source, tokens)?;
    let (list, rest) = more_literals(alloc, source, first, rest)?;
    let (_, rest) = expect(CLOSE_BRACKET, rest)?;
    Ok((list, rest))
}

/// The literals from the first one on.
#[cycle(literals)]
#[tactic(auto, using(crate::proofs::ServiceEquations::literals))]
fn more_literals<'t>(
    alloc: Global,
    source: &[u8],
    first: Literal,
    tokens: &'t [Token],
) -> Result<(Seq<Literal>, &'t [Token]), Stop>
    ensures value { Reads mirror_literals result (v.more_literals_on source.now (mirror_literal first) tokens.now) }
    ensures shorter { NoLonger tokens.now result }
{
    let mut list = Seq::new(alloc);
    list.push(first)?;
    let mut rest = tokens;
    while let Some((_, more)) = take_if(COMMA, rest) {
        let (next, behind) = literal(alloc, source, more)?;
        list.push(next)?;
        rest = behind;
    }
    Ok((list, rest))
}
