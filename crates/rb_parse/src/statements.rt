// Statements and blocks.

ghost use Rattle.rb_trees.specs.mirror.Code.{mirror_stmt, mirror_stmts};
ghost use Rattle.rb_meaning_bytes.specs.grammar.Symbols as s;
ghost use Rattle.rb_parse.specs.Reading.{read_of};
ghost use Rattle.rb_parse.specs.Readers.{Reads, Shortens, NoLonger};
ghost use Rattle.rb_parse.specs.Blocks as b;

use crate::kinds::{BATCH, CLOSE_BRACE, ELSE, FOR, IF, OPEN_BRACE, TRY, WHILE};
use crate::next::{expect, take_if};
use crate::simple::{begins_statement, caught, condition, each, of_form, rooted, simple};
use crate::stop::Stop;
use rb_trees::{Seq, Stmt, StmtForm, Token};
use std::alloc::Global;

/// A statement.
#[cycle(statements)]
#[tactic(auto, using(crate::proofs::StatementEquations::statement_is))]
pub(crate) fn statement<'t>(
    alloc: Global,
    source: &[u8],
    tokens: &'t [Token],
) -> Result<(Stmt, &'t [Token]), Stop>
    ensures value { Reads mirror_stmt result (read_of source.now s.Statement tokens.now) }
    ensures shorter { Shortens tokens.now result }
{
    if let Some((word, rest)) = take_if(IF, tokens) {
        return if_statement(alloc, source, word, rest);
    }
    if let Some((word, rest)) = take_if(WHILE, tokens) {
        return while_statement(alloc, source, word, rest);
    }
    if let Some((word, rest)) = take_if(FOR, tokens) {
        return for_statement(alloc, source, word, rest);
    }
    if let Some((word, rest)) = take_if(TRY, tokens) {
        return try_statement(alloc, source, word, rest);
    }
    if let Some((word, rest)) = take_if(BATCH, tokens) {
        return batch_statement(alloc, source, word, rest);
    }
    simple(alloc, source, tokens)
}

/// What follows `if`.
#[cycle(statements)]
#[tactic(auto, using(rb_trees::proofs::mirror::Stmts::stmts), unfolding(crate::specs::Blocks::if_of))]
fn if_statement<'t>(
    alloc: Global,
    source: &[u8],
    word: Token,
    tokens: &'t [Token],
) -> Result<(Stmt, &'t [Token]), Stop>
    ensures value { Reads mirror_stmt result (b.if_of source.now word tokens.now) }
    ensures shorter { Shortens tokens.now result }
{
    let (condition, rest) = condition(alloc, source, tokens)?;
    let (yes, rest) = block(alloc, source, rest)?;
    let (no, rest) = otherwise(alloc, source, rest)?;
    let form = StmtForm::If(condition.into_inner(), yes, no);
    Ok((of_form(word, form), rest))
}

/// The block of an `else`, or an empty one.
#[cycle(statements)]
#[tactic(auto, using(crate::proofs::StatementEquations::otherwise_is))]
fn otherwise<'t>(
    alloc: Global,
    source: &[u8],
    tokens: &'t [Token],
) -> Result<(Seq<Stmt>, &'t [Token]), Stop>
    ensures value { Reads mirror_stmts result (read_of source.now s.Otherwise tokens.now) }
    ensures shorter { NoLonger tokens.now result }
{
    match take_if(ELSE, tokens) {
        Some((_, rest)) => block(alloc, source, rest),
        None => Ok((Seq::new(alloc), tokens)),
    }
}

/// What follows `while`.
#[cycle(statements)]
#[tactic(auto, using(rb_trees::proofs::mirror::Stmts::stmts), unfolding(crate::specs::Blocks::while_of))]
fn while_statement<'t>(
    alloc: Global,
    source: &[u8],
    word: Token,
    tokens: &'t [Token],
) -> Result<(Stmt, &'t [Token]), Stop>
    ensures value { Reads mirror_stmt result (b.while_of source.now word tokens.now) }
    ensures shorter { Shortens tokens.now result }
{
    let (condition, rest) = condition(alloc, source, tokens)?;
    let (block, rest) = block(alloc, source, rest)?;
    let form = StmtForm::While(condition.into_inner(), block);
    Ok((of_form(word, form), rest))
}

/// What follows `for`.
#[cycle(statements)]
#[tactic(auto, using(rb_trees::proofs::mirror::Stmts::stmts), unfolding(crate::specs::Blocks::for_of))]
fn for_statement<'t>(
    alloc: Global,
    source: &[u8],
    word: Token,
    tokens: &'t [Token],
) -> Result<(Stmt, &'t [Token]), Stop>
    ensures value { Reads mirror_stmt result (b.for_of source.now word tokens.now) }
    ensures shorter { Shortens tokens.now result }
{
    let ((name, list), rest) = each(alloc, source, tokens)?;
    let (block, rest) = block(alloc, source, rest)?;
    let form = StmtForm::For(name, list.into_inner(), block);
    Ok((of_form(word, form), rest))
}

/// What follows `try`.
#[cycle(statements)]
#[tactic(auto, using(rb_trees::proofs::mirror::Stmts::stmts), unfolding(crate::specs::Blocks::try_of))]
fn try_statement<'t>(
    alloc: Global,
    source: &[u8],
    word: Token,
    tokens: &'t [Token],
) -> Result<(Stmt, &'t [Token]), Stop>
    ensures value { Reads mirror_stmt result (b.try_of source.now word tokens.now) }
    ensures shorter { Shortens tokens.now result }
{
    let (tried, rest) = block(alloc, source, tokens)?;
    let (name, rest) = caught(alloc, source, rest)?;
    let (handler, rest) = block(alloc, source, rest)?;
    Ok((of_form(word, StmtForm::Try(tried, name, handler)), rest))
}

/// What follows `batch`.
#[cycle(statements)]
#[tactic(auto, using(rb_trees::proofs::mirror::Stmts::stmts), unfolding(crate::specs::Blocks::batch_of))]
fn batch_statement<'t>(
    alloc: Global,
    source: &[u8],
    word: Token,
    tokens: &'t [Token],
) -> Result<(Stmt, &'t [Token]), Stop>
    ensures value { Reads mirror_stmt result (b.batch_of source.now word tokens.now) }
    ensures shorter { Shortens tokens.now result }
{
    let ((interface, root), rest) = rooted(alloc, source, tokens)?;
    let (block, rest) = block(alloc, source, rest)?;
    Ok((of_form(word, StmtForm::Batch(interface, root, block)), rest))
}

/// Statements between braces.
#[cycle(statements)]
#[tactic(auto, using(crate::proofs::StatementEquations::block_is))]
fn block<'t>(
    alloc: Global,
    source: &[u8],
    tokens: &'t [Token],
) -> Result<(Seq<Stmt>, &'t [Token]), Stop>
    ensures value { Reads mirror_stmts result (read_of source.now s.Block tokens.now) }
    ensures shorter { Shortens tokens.now result }
{
    let (_, rest) = expect(OPEN_BRACE, tokens)?;
    let (list, rest) = statements(alloc, source, rest)?;
    let (_, rest) = expect(CLOSE_BRACE, rest)?;
    Ok((list, rest))
}

/// The statements that come next.
#[cycle(statements)]
#[tactic(auto, using(crate::proofs::StatementEquations::statements))]
pub(crate) fn statements<'t>(
    alloc: Global,
    source: &[u8],
    tokens: &'t [Token],
) -> Result<(Seq<Stmt>, &'t [Token]), Stop>
    ensures value { Reads mirror_stmts result (read_of source.now s.Statements tokens.now) }
    ensures shorter { NoLonger tokens.now result }
{
    let mut list = Seq::new(alloc);
    let mut rest = tokens;
    while begins_statement(rest) {
        let (next, behind) = statement(alloc, source, rest)?;
        list.push(next)?;
        rest = behind;
    }
    Ok((list, rest))
}
