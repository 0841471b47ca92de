// Statements without blocks, and the heads of those with blocks.

ghost use Rattle.std.specs.Prelude.{◌≡◌};
ghost use Rattle.rb_trees.specs.mirror.Code as code;
ghost use Rattle.rb_trees.specs.mirror.Code.{mirror_expr, mirror_stmt, mirror_stmt_form};
ghost use Rattle.rb_trees.specs.Kinds.{is_one_of};
ghost use Rattle.rb_parse.specs.Table.{statement_kinds};
ghost use Rattle.rb_parse.specs.Reading.{next_in};
ghost use Rattle.rb_parse.specs.Readers.{Reads, Shortens};
ghost use Rattle.rb_parse.specs.Blocks as b;

use crate::atoms::begins_with as begins_expression;
use crate::expressions::{chain, inside};
use crate::kinds::{
    ASSIGN, BATCH, CATCH, CLOSE, FOR, IF, IN, OPEN, PRINT, SEMICOLON, THROW, TRY, VAL, VAR, WHILE,
};
use crate::levels::Level;
use crate::next::{expect, same_kind, take_if};
use crate::stop::Stop;
use crate::values::name;
use rb_trees::{Boxed, Expr, Stmt, StmtForm, Token, TokenKind, Word};
use std::alloc::Global;

/// The statement of a form at a token.
#[tactic(auto, using(rb_trees::proofs::mirror::Stmts::stmts))]
pub(crate) fn of_form(token: Token, form: StmtForm) -> Stmt
    ensures { mirror_stmt result ≡ mirror_stmt_form form token.start }
{
    Stmt {
        at: token.start,
        form,
    }
}

/// Whether a statement begins with the next token.
pub(crate) fn begins_statement(tokens: &[Token]) -> bool
    ensures { result ≡ next_in statement_kinds tokens.now }
{
    match tokens {
        [token, ..] => begins_with(token.kind),
        [] => false,
    }
}

/// Whether a statement begins with a token of the kind.
fn begins_with(kind: TokenKind) -> bool
    ensures { result ≡ is_one_of kind statement_kinds }
{
    same_kind(kind, VAL)
        || same_kind(kind, VAR)
        || same_kind(kind, PRINT)
        || same_kind(kind, THROW)
        || same_kind(kind, IF)
        || same_kind(kind, WHILE)
        || same_kind(kind, FOR)
        || same_kind(kind, TRY)
        || same_kind(kind, BATCH)
        || begins_expression(kind)
}

/// An expression and the semicolon behind it.
#[tactic(auto, unfolding(crate::specs::Blocks::expression_to_end))]
pub(crate) fn expression_to_end<'t>(
    alloc: Global,
    source: &[u8],
    tokens: &'t [Token],
) -> Result<(Boxed<Expr>, &'t [Token]), Stop>
    ensures value { Reads mirror_expr result (b.expression_to_end source.now tokens.now) }
    ensures shorter { Shortens tokens.now result }
{
    let (expr, rest) = chain(alloc, source, Level::Or, tokens)?;
    let (_, rest) = expect(SEMICOLON, rest)?;
    Ok((expr, rest))
}

/// A name and its value.
#[tactic(auto, unfolding(crate::specs::Blocks::named_value_of))]
fn named_value<'t>(
    alloc: Global,
    source: &[u8],
    tokens: &'t [Token],
) -> Result<((Word, Boxed<Expr>), &'t [Token]), Stop>
    ensures value { Reads (λ x. (x.0, mirror_expr x.1)) result (b.named_value_of source.now tokens.now) }
    ensures shorter { Shortens tokens.now result }
{
    let (token, rest) = expect(TokenKind::Name, tokens)?;
    let (_, rest) = expect(ASSIGN, rest)?;
    let name = name(alloc, source, token)?;
    let (value, rest) = expression_to_end(alloc, source, rest)?;
    Ok(((name, value), rest))
}

/// A condition between brackets.
#[tactic(auto, unfolding(crate::specs::Blocks::condition_of))]
pub(crate) fn condition<'t>(
    alloc: Global,
    source: &[u8],
    tokens: &'t [Token],
) -> Result<(Boxed<Expr>, &'t [Token]), Stop>
    ensures value { Reads mirror_expr result (b.condition_of source.now tokens.now) }
    ensures shorter { Shortens tokens.now result }
{
    let (_, rest) = expect(OPEN, tokens)?;
    inside(alloc, source, rest)
}

/// What is printed.
#[tactic(auto, unfolding(crate::specs::Blocks::printed_of))]
fn printed<'t>(
    alloc: Global,
    source: &[u8],
    tokens: &'t [Token],
) -> Result<(Boxed<Expr>, &'t [Token]), Stop>
    ensures value { Reads mirror_expr result (b.printed_of source.now tokens.now) }
    ensures shorter { Shortens tokens.now result }
{
    let (value, rest) = condition(alloc, source, tokens)?;
    let (_, rest) = expect(SEMICOLON, rest)?;
    Ok((value, rest))
}

/// The name and the list of a `for`.
#[tactic(auto, unfolding(crate::specs::Blocks::each_of))]
pub(crate) fn each<'t>(
    alloc: Global,
    source: &[u8],
    tokens: &'t [Token],
) -> Result<((Word, Boxed<Expr>), &'t [Token]), Stop>
    ensures value { Reads (λ x. (x.0, mirror_expr x.1)) result (b.each_of source.now tokens.now) }
    ensures shorter { Shortens tokens.now result }
{
    let (_, rest) = expect(OPEN, tokens)?;
    let (token, rest) = expect(TokenKind::Name, rest)?;
    let (_, rest) = expect(IN, rest)?;
    let name = name(alloc, source, token)?;
    let (list, rest) = inside(alloc, source, rest)?;
    Ok(((name, list), rest))
}

/// The name that a `catch` gives a fault.
#[tactic(auto, unfolding(crate::specs::Blocks::caught_of))]
pub(crate) fn caught<'t>(
    alloc: Global,
    source: &[u8],
    tokens: &'t [Token],
) -> Result<(Word, &'t [Token]), Stop>
    ensures value { Reads (λ x. x) result (b.caught_of source.now tokens.now) }
    ensures shorter { Shortens tokens.now result }
{
    let (_, rest) = expect(CATCH, tokens)?;
    let (_, rest) = expect(OPEN, rest)?;
    let (token, rest) = expect(TokenKind::Name, rest)?;
    let (_, rest) = expect(CLOSE, rest)?;
    Ok((name(alloc, source, token)?, rest))
}

/// The interface and the root of a `batch`.
#[tactic(auto, unfolding(crate::specs::Blocks::rooted_of))]
pub(crate) fn rooted<'t>(
    alloc: Global,
    source: &[u8],
    tokens: &'t [Token],
) -> Result<((Word, Word), &'t [Token]), Stop>
    ensures value { Reads (λ x. x) result (b.rooted_of source.now tokens.now) }
    ensures shorter { Shortens tokens.now result }
{
    let (_, rest) = expect(OPEN, tokens)?;
    let (interface, rest) = expect(TokenKind::Name, rest)?;
    let (root, rest) = expect(TokenKind::Name, rest)?;
    let (_, rest) = expect(CLOSE, rest)?;
    let interface = name(alloc, source, interface)?;
    Ok(((interface, name(alloc, source, root)?), rest))
}

/// What follows the expression that a statement begins with.
#[tactic(auto, using(rb_trees::proofs::mirror::Stmts::stmts), unfolding(crate::specs::Blocks::ended_of))]
fn ended<'t>(
    alloc: Global,
    source: &[u8],
    left: Boxed<Expr>,
    tokens: &'t [Token],
) -> Result<(Stmt, &'t [Token]), Stop>
    ensures value { Reads mirror_stmt result (b.ended_of source.now (mirror_expr left) tokens.now) }
    ensures shorter { Shortens tokens.now result }
{
    if let Some((end, rest)) = take_if(SEMICOLON, tokens) {
        return Ok((of_form(end, StmtForm::Run(left.into_inner())), rest));
    }
    if let Some((sign, rest)) = take_if(ASSIGN, tokens) {
        let (right, rest) = expression_to_end(alloc, source, rest)?;
        let form = StmtForm::Assign(left.into_inner(), right.into_inner());
        return Ok((of_form(sign, form), rest));
    }
    Err(Stop::Unexpected(tokens.len()))
}

/// A statement without blocks.
#[tactic(auto, using(rb_trees::proofs::mirror::Stmts::stmts), unfolding(crate::specs::Blocks::simple_of))]
pub(crate) fn simple<'t>(
    alloc: Global,
    source: &[u8],
    tokens: &'t [Token],
) -> Result<(Stmt, &'t [Token]), Stop>
    ensures value { Reads mirror_stmt result (b.simple_of source.now tokens.now) }
    ensures shorter { Shortens tokens.now result }
{
    if let Some((word, rest)) = take_if(VAL, tokens) {
        let ((name, value), rest) = named_value(alloc, source, rest)?;
        return Ok((of_form(word, StmtForm::Val(name, value.into_inner())), rest));
    }
    if let Some((word, rest)) = take_if(VAR, tokens) {
        let ((name, value), rest) = named_value(alloc, source, rest)?;
        return Ok((of_form(word, StmtForm::Var(name, value.into_inner())), rest));
    }
    if let Some((word, rest)) = take_if(PRINT, tokens) {
        let (value, rest) = printed(alloc, source, rest)?;
        return Ok((of_form(word, StmtForm::Print(value.into_inner())), rest));
    }
    if let Some((word, rest)) = take_if(THROW, tokens) {
        let (text, rest) = expression_to_end(alloc, source, rest)?;
        return Ok((of_form(word, StmtForm::Throw(text.into_inner())), rest));
    }
    let (left, rest) = chain(alloc, source, Level::Or, tokens)?;
    ended(alloc, source, left, rest)
}
