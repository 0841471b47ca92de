// Expressions: one function a kind of part.

ghost use Rattle.rb_trees.specs.mirror.Code.{mirror_expr, mirror_exprs};
ghost use Rattle.rb_meaning_bytes.specs.grammar.Symbols as s;
ghost use Rattle.rb_parse.specs.Reading.{read_of};
ghost use Rattle.rb_parse.specs.Readers.{Reads, Shortens, NoLonger};
ghost use Rattle.rb_parse.specs.Parts as p;

use crate::atoms::{atom, begins_expression};
use crate::builders::{binary, call, field, index_node, items, object, unary};
use crate::kinds::{
    CLOSE, CLOSE_BRACKET, COMMA, DOT, LEN, LIST, MINUS, NEW, NOT, OPEN, OPEN_BRACKET, STR,
};
use crate::levels::{Level, operator, repeats};
use crate::next::{expect, take_if};
use crate::stop::Stop;
use crate::types::item_type;
use rb_trees::{BinOp, Boxed, Expr, Seq, Token, TokenKind, UnOp};
use std::alloc::Global;

/// Operands of a level joined by its operators.
#[cycle(expressions)]
#[tactic(auto, using(crate::proofs::Equations::chain_is))]
pub(crate) fn chain<'t>(
    alloc: Global,
    source: &[u8],
    level: Level,
    tokens: &'t [Token],
) -> Result<(Boxed<Expr>, &'t [Token]), Stop>
    ensures value { Reads mirror_expr result (read_of source.now (s.Chain (p.level_of level)) tokens.now) }
    ensures shorter { Shortens tokens.now result }
{
    let (left, rest) = operand(alloc, source, level, tokens)?;
    chain_rest(alloc, source, level, left, rest)
}

/// What the operators of a level join.
#[cycle(expressions)]
#[tactic(auto, unfolding(crate::specs::Parts::operand_of))]
fn operand<'t>(
    alloc: Global,
    source: &[u8],
    level: Level,
    tokens: &'t [Token],
) -> Result<(Boxed<Expr>, &'t [Token]), Stop>
    ensures value { Reads mirror_expr result (p.operand_of source.now level tokens.now) }
    ensures shorter { Shortens tokens.now result }
{
    match level {
        Level::Or => chain(alloc, source, Level::And, tokens),
        Level::And => chain(alloc, source, Level::Same, tokens),
        Level::Same => chain(alloc, source, Level::Order, tokens),
        Level::Order => chain(alloc, source, Level::Sum, tokens),
        Level::Sum => chain(alloc, source, Level::Product, tokens),
        Level::Product => prefix(alloc, source, tokens),
    }
}

/// What the operators of a level that follow make of an expression.
#[cycle(expressions)]
#[tactic(auto, using(crate::proofs::Equations::more_is))]
fn chain_rest<'t>(
    alloc: Global,
    source: &[u8],
    level: Level,
    left: Boxed<Expr>,
    tokens: &'t [Token],
) -> Result<(Boxed<Expr>, &'t [Token]), Stop>
    ensures value { Reads mirror_expr result (p.more_of source.now level (mirror_expr left) tokens.now) }
    ensures shorter { NoLonger tokens.now result }
{
    match operator(level, tokens) {
        Some((op, sign, rest)) => joined(alloc, source, level, left, op, sign, rest),
        None => Ok((left, tokens)),
    }
}

/// The right operand behind an operator, and what follows it.
#[cycle(expressions)]
#[tactic(auto, unfolding(crate::specs::Parts::joined_of))]
fn joined<'t>(
    alloc: Global,
    source: &[u8],
    level: Level,
    left: Boxed<Expr>,
    op: BinOp,
    sign: Token,
    tokens: &'t [Token],
) -> Result<(Boxed<Expr>, &'t [Token]), Stop>
    ensures value { Reads mirror_expr result (p.joined_of source.now level (mirror_expr left) op sign tokens.now) }
    ensures shorter { Shortens tokens.now result }
{
    let (right, rest) = operand(alloc, source, level, tokens)?;
    let both = binary(alloc, sign, op, left, right)?;
    if repeats(level) {
        chain_rest(alloc, source, level, both, rest)
    } else {
        Ok((both, rest))
    }
}

/// Signs before an operand, and the members behind it.
#[cycle(expressions)]
#[tactic(auto, using(crate::proofs::Equations::prefix_is))]
fn prefix<'t>(
    alloc: Global,
    source: &[u8],
    tokens: &'t [Token],
) -> Result<(Boxed<Expr>, &'t [Token]), Stop>
    ensures value { Reads mirror_expr result (read_of source.now s.Prefix tokens.now) }
    ensures shorter { Shortens tokens.now result }
{
    if let Some((sign, rest)) = take_if(NOT, tokens) {
        return prefixed(alloc, source, UnOp::Not, sign, rest);
    }
    if let Some((sign, rest)) = take_if(MINUS, tokens) {
        return prefixed(alloc, source, UnOp::Neg, sign, rest);
    }
    let (object, rest) = first(alloc, source, tokens)?;
    members(alloc, source, object, rest)
}

/// The operand behind a sign.
#[cycle(expressions)]
#[tactic(auto, unfolding(crate::specs::Parts::prefixed_of))]
fn prefixed<'t>(
    alloc: Global,
    source: &[u8],
    op: UnOp,
    sign: Token,
    tokens: &'t [Token],
) -> Result<(Boxed<Expr>, &'t [Token]), Stop>
    ensures value { Reads mirror_expr result (p.prefixed_of source.now op sign tokens.now) }
    ensures shorter { Shortens tokens.now result }
{
    let (operand, rest) = prefix(alloc, source, tokens)?;
    Ok((unary(alloc, sign, op, operand)?, rest))
}

/// What the members and indexes that follow make of an expression.
#[cycle(expressions)]
#[tactic(auto, using(crate::proofs::Equations::members_is), unfolding(crate::specs::Parts::member_at))]
fn members<'t>(
    alloc: Global,
    source: &[u8],
    object: Boxed<Expr>,
    tokens: &'t [Token],
) -> Result<(Boxed<Expr>, &'t [Token]), Stop>
    ensures value { Reads mirror_expr result (p.members_of source.now (mirror_expr object) tokens.now) }
    ensures shorter { NoLonger tokens.now result }
{
    if let Some((_, rest)) = take_if(DOT, tokens) {
        let (name, rest) = expect(TokenKind::Name, rest)?;
        return called(alloc, source, object, name, rest);
    }
    if let Some((sign, rest)) = take_if(OPEN_BRACKET, tokens) {
        return index(alloc, source, object, sign, rest);
    }
    Ok((object, tokens))
}

/// What follows the name of a member.
#[cycle(expressions)]
#[tactic(auto, unfolding(crate::specs::Parts::called_of))]
fn called<'t>(
    alloc: Global,
    source: &[u8],
    object: Boxed<Expr>,
    name: Token,
    tokens: &'t [Token],
) -> Result<(Boxed<Expr>, &'t [Token]), Stop>
    ensures value { Reads mirror_expr result (p.called_of source.now (mirror_expr object) name tokens.now) }
    ensures shorter { NoLonger tokens.now result }
{
    if let Some((_, rest)) = take_if(OPEN, tokens) {
        let (args, rest) = arguments(alloc, source, rest)?;
        let call = call(alloc, source, object, name, args)?;
        return members(alloc, source, call, rest);
    }
    let field = field(alloc, source, object, name)?;
    members(alloc, source, field, tokens)
}

/// What follows the bracket of an index.
#[cycle(expressions)]
#[tactic(auto, unfolding(crate::specs::Parts::index_at))]
fn index<'t>(
    alloc: Global,
    source: &[u8],
    list: Boxed<Expr>,
    sign: Token,
    tokens: &'t [Token],
) -> Result<(Boxed<Expr>, &'t [Token]), Stop>
    ensures value { Reads mirror_expr result (p.index_at source.now (mirror_expr list) sign tokens.now) }
    ensures shorter { Shortens tokens.now result }
{
    let (place, rest) = chain(alloc, source, Level::Or, tokens)?;
    let (_, rest) = expect(CLOSE_BRACKET, rest)?;
    let item = index_node(alloc, sign, list, place)?;
    members(alloc, source, item, rest)
}

/// Arguments and the bracket that closes them.
#[cycle(expressions)]
#[tactic(auto, using(crate::proofs::Equations::arguments_is), unfolding(crate::specs::Parts::arguments_to_close))]
fn arguments<'t>(
    alloc: Global,
    source: &[u8],
    tokens: &'t [Token],
) -> Result<(Seq<Expr>, &'t [Token]), Stop>
    ensures value { Reads mirror_exprs result (p.arguments_to_close source.now tokens.now) }
    ensures shorter { Shortens tokens.now result }
{
    if !begins_expression(tokens) {
        let (_, rest) = expect(CLOSE, tokens)?;
        return Ok((Seq::new(alloc), rest));
    }
    let (first, rest) = chain(alloc, source, Level::Or, tokens)?;
    let (args, rest) = more_arguments(alloc, source, first, rest)?;
    let (_, rest) = expect(CLOSE, rest)?;
    Ok((args, rest))
}

/// The arguments from the first one on.
#[cycle(expressions)]
#[tactic(auto, using(crate::proofs::Lists::arguments))]
fn more_arguments<'t>(
    alloc: Global,
    source: &[u8],
    first: Boxed<Expr>,
    tokens: &'t [Token],
) -> Result<(Seq<Expr>, &'t [Token]), Stop>
    ensures value { Reads mirror_exprs result (p.more_on source.now (mirror_expr first) tokens.now) }
    ensures shorter { NoLonger tokens.now result }
{
    let mut list = Seq::new(alloc);
    list.push(first.into_inner())?;
    let mut rest = tokens;
    while let Some((_, more)) = take_if(COMMA, rest) {
        let (next, behind) = chain(alloc, source, Level::Or, more)?;
        list.push(next.into_inner())?;
        rest = behind;
    }
    Ok((list, rest))
}

/// The part of an expression that members follow.
#[cycle(expressions)]
#[tactic(auto, using(crate::proofs::Equations::first_is))]
fn first<'t>(
    alloc: Global,
    source: &[u8],
    tokens: &'t [Token],
) -> Result<(Boxed<Expr>, &'t [Token]), Stop>
    ensures value { Reads mirror_expr result (read_of source.now s.First tokens.now) }
    ensures shorter { Shortens tokens.now result }
{
    if let Some(found) = atom(alloc, source, tokens)? {
        return Ok(found);
    }
    if let Some((word, rest)) = take_if(LEN, tokens) {
        return measured(alloc, source, UnOp::Len, word, rest);
    }
    if let Some((word, rest)) = take_if(STR, tokens) {
        return measured(alloc, source, UnOp::Str, word, rest);
    }
    if let Some((word, rest)) = take_if(NEW, tokens) {
        return new_object(alloc, source, word, rest);
    }
    if let Some((word, rest)) = take_if(LIST, tokens) {
        return new_list(alloc, source, word, rest);
    }
    if let Some((_, rest)) = take_if(OPEN, tokens) {
        return inside(alloc, source, rest);
    }
    Err(Stop::Unexpected(tokens.len()))
}

/// The operand of a word that is written like a call.
#[cycle(expressions)]
#[tactic(auto, unfolding(crate::specs::Parts::measured_of))]
fn measured<'t>(
    alloc: Global,
    source: &[u8],
    op: UnOp,
    word: Token,
    tokens: &'t [Token],
) -> Result<(Boxed<Expr>, &'t [Token]), Stop>
    ensures value { Reads mirror_expr result (p.measured_of source.now op word tokens.now) }
    ensures shorter { Shortens tokens.now result }
{
    let (_, rest) = expect(OPEN, tokens)?;
    let (operand, rest) = inside(alloc, source, rest)?;
    Ok((unary(alloc, word, op, operand)?, rest))
}

/// What follows `new`.
#[cycle(expressions)]
#[tactic(auto, unfolding(crate::specs::Parts::object_of))]
fn new_object<'t>(
    alloc: Global,
    source: &[u8],
    word: Token,
    tokens: &'t [Token],
) -> Result<(Boxed<Expr>, &'t [Token]), Stop>
    ensures value { Reads mirror_expr result (p.object_of source.now word tokens.now) }
    ensures shorter { Shortens tokens.now result }
{
    let (class, rest) = expect(TokenKind::Name, tokens)?;
    let (_, rest) = expect(OPEN, rest)?;
    let (args, rest) = arguments(alloc, source, rest)?;
    Ok((object(alloc, source, word, class, args)?, rest))
}

/// What follows the `List` of an expression.
#[cycle(expressions)]
#[tactic(auto, unfolding(crate::specs::Parts::list_of))]
fn new_list<'t>(
    alloc: Global,
    source: &[u8],
    word: Token,
    tokens: &'t [Token],
) -> Result<(Boxed<Expr>, &'t [Token]), Stop>
    ensures value { Reads mirror_expr result (p.list_of source.now word tokens.now) }
    ensures shorter { Shortens tokens.now result }
{
    let (item, rest) = item_type(alloc, source, tokens)?;
    let (_, rest) = expect(OPEN, rest)?;
    let (args, rest) = arguments(alloc, source, rest)?;
    let list = items(alloc, word, item.into_inner(), args)?;
    Ok((list, rest))
}

/// An expression and the bracket that closes it.
#[cycle(expressions)]
#[tactic(auto, unfolding(crate::specs::Parts::expression_to_close))]
pub(crate) fn inside<'t>(
    alloc: Global,
    source: &[u8],
    tokens: &'t [Token],
) -> Result<(Boxed<Expr>, &'t [Token]), Stop>
    ensures value { Reads mirror_expr result (p.expression_to_close source.now tokens.now) }
    ensures shorter { Shortens tokens.now result }
{
    let (expr, rest) = chain(alloc, source, Level::Or, tokens)?;
    let (_, rest) = expect(CLOSE, rest)?;
    Ok((expr, rest))
}
