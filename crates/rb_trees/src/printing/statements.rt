// The text of statements, each on a line of its own, with two more spaces in each block.

ghost use Rattle.std.specs.Prelude.{◌≡◌, [], ◌∷◌, ◌++◌, IfOk};
ghost use Rattle.rb_trees.specs.mirror.Code.{mirror_expr, mirror_stmt, mirror_stmts};
ghost use Rattle.rb_trees.specs.mirror.Declarations.{mirror_body};
ghost use Rattle.rb_trees.specs.printing.Pieces.{Space, Adds};
ghost use Rattle.rb_trees.specs.printing.Words.{space, name_piece};
ghost use Rattle.rb_trees.specs.printing.Stmts.{line, deeper, closed, between, bound, assigned, for_head, catch_head, batch_head};
ghost use Rattle.rb_trees.specs.printing.Stmts.{stmt_pieces, stmts_pieces, block_pieces, otherwise_pieces, handler_pieces, body_pieces, within_pieces};

use super::expressions::print_expr;
use crate::code::{Expr, Stmt, StmtForm};
use crate::declarations::Body;
use crate::sequence::{Seq, Word};
use crate::want::Memory;
use std::alloc::Global;

/// Adds a line of this text.
#[tactic(auto, using(crate::proofs::printed::Stmts::printed_stmts))]
pub fn print_line(indent: &[u8], text: &[u8], into: &mut Word) -> Result<(), Memory>
    ensures { Adds (line indent.now (Space text.now ∷ [])) into.old result into.new }
{
    into.extend_from_slice(indent)?;
    into.extend_from_slice(text)?;
    into.extend_from_slice(b"\n")
}

// Adds a line of an expression between two texts.
#[tactic(auto, using(crate::proofs::printed::Stmts::printed_stmts))]
fn print_between(
    alloc: Global,
    indent: &[u8],
    front: &[u8],
    expr: &Expr,
    back: &[u8],
    into: &mut Word,
) -> Result<(), Memory>
    ensures { Adds (line indent.now (between front.now (mirror_expr expr.now) back.now)) into.old result into.new }
{
    into.extend_from_slice(indent)?;
    into.extend_from_slice(front)?;
    print_expr(alloc, expr, into)?;
    into.extend_from_slice(back)?;
    into.extend_from_slice(b"\n")
}

// Adds the front of a line up to a new name.
#[tactic(auto, using(crate::proofs::printed::Stmts::printed_stmts))]
fn print_new_name(indent: &[u8], front: &[u8], name: &Word, into: &mut Word) -> Result<(), Memory>
    ensures { Adds (Space indent.now ∷ Space front.now ∷ space ∷ name_piece name.now ∷ []) into.old result into.new }
{
    into.extend_from_slice(indent)?;
    into.extend_from_slice(front)?;
    into.extend_from_slice(b" ")?;
    into.extend_from_slice(name.as_slice())
}

// Adds the line that gives a value to a new name.
#[tactic(auto, using(crate::proofs::printed::Stmts::printed_stmts))]
fn print_bound(
    alloc: Global,
    indent: &[u8],
    front: &[u8],
    name: &Word,
    value: &Expr,
    into: &mut Word,
) -> Result<(), Memory>
    ensures { Adds (line indent.now (bound (Space front.now) name.now (mirror_expr value.now))) into.old result into.new }
{
    print_new_name(indent, front, name, into)?;
    into.extend_from_slice(b" = ")?;
    print_expr(alloc, value, into)?;
    into.extend_from_slice(b";\n")
}

// Adds the line that gives a value to what has one.
#[tactic(auto, using(crate::proofs::printed::Stmts::printed_stmts))]
fn print_assignment(
    alloc: Global,
    indent: &[u8],
    left: &Expr,
    right: &Expr,
    into: &mut Word,
) -> Result<(), Memory>
    ensures { Adds (line indent.now (assigned (mirror_expr left.now) (mirror_expr right.now))) into.old result into.new }
{
    into.extend_from_slice(indent)?;
    print_expr(alloc, left, into)?;
    into.extend_from_slice(b" = ")?;
    print_expr(alloc, right, into)?;
    into.extend_from_slice(b";\n")
}

// Adds the line that opens a loop over a list.
#[tactic(auto, using(crate::proofs::printed::Stmts::printed_stmts))]
fn print_for(
    alloc: Global,
    indent: &[u8],
    name: &Word,
    list: &Expr,
    into: &mut Word,
) -> Result<(), Memory>
    ensures { Adds (line indent.now (for_head name.now (mirror_expr list.now))) into.old result into.new }
{
    into.extend_from_slice(indent)?;
    into.extend_from_slice(b"for (")?;
    into.extend_from_slice(name.as_slice())?;
    into.extend_from_slice(b" in ")?;
    print_expr(alloc, list, into)?;
    into.extend_from_slice(b") {\n")
}

// Adds the line between a block that is tried and its handler.
#[tactic(auto, using(crate::proofs::printed::Stmts::printed_stmts))]
fn print_catch(indent: &[u8], name: &Word, into: &mut Word) -> Result<(), Memory>
    ensures { Adds (line indent.now (catch_head name.now)) into.old result into.new }
{
    into.extend_from_slice(indent)?;
    into.extend_from_slice(b"} catch (")?;
    into.extend_from_slice(name.as_slice())?;
    into.extend_from_slice(b") {\n")
}

// Adds the line that opens a batch.
#[tactic(auto, using(crate::proofs::printed::Stmts::printed_stmts))]
fn print_batch(indent: &[u8], interface: &Word, root: &Word, into: &mut Word) -> Result<(), Memory>
    ensures { Adds (line indent.now (batch_head interface.now root.now)) into.old result into.new }
{
    into.extend_from_slice(indent)?;
    into.extend_from_slice(b"batch (")?;
    into.extend_from_slice(interface.as_slice())?;
    into.extend_from_slice(b" ")?;
    into.extend_from_slice(root.as_slice())?;
    into.extend_from_slice(b") {\n")
}

/// Adds a statement, on lines of its own behind these spaces.
#[cycle(printed_stmts)]
#[tactic(auto, using(crate::proofs::printed::Stmts::printed_stmts))]
pub fn print_stmt(alloc: Global, indent: &[u8], stmt: &Stmt, into: &mut Word) -> Result<(), Memory>
    ensures { Adds (stmt_pieces indent.now (mirror_stmt stmt.now)) into.old result into.new }
{
    match &stmt.form {
        StmtForm::Val(name, value) => print_bound(alloc, indent, b"val", name, value, into),
        StmtForm::Var(name, value) => print_bound(alloc, indent, b"var", name, value, into),
        StmtForm::Assign(left, right) => print_assignment(alloc, indent, left, right, into),
        StmtForm::Run(expr) => print_between(alloc, indent, b"", expr, b";", into),
        StmtForm::Print(expr) => print_between(alloc, indent, b"print(", expr, b");", into),
        StmtForm::Throw(text) => print_between(alloc, indent, b"throw ", text, b";", into),
        StmtForm::If(condition, yes, no) => {
            print_between(alloc, indent, b"if (", condition, b") {", into)?;
            print_block(alloc, indent, yes.as_slice(), into)?;
            print_otherwise(alloc, indent, no.as_slice(), into)
        }
        StmtForm::While(condition, block) => {
            print_between(alloc, indent, b"while (", condition, b") {", into)?;
            print_closed(alloc, indent, block.as_slice(), into)
        }
        StmtForm::For(name, list, block) => {
            print_for(alloc, indent, name, list, into)?;
            print_closed(alloc, indent, block.as_slice(), into)
        }
        StmtForm::Try(tried, name, handler) => {
            print_line(indent, b"try {", into)?;
            print_block(alloc, indent, tried.as_slice(), into)?;
            print_handler(alloc, indent, name, handler.as_slice(), into)
        }
        StmtForm::Batch(interface, root, block) => {
            print_batch(indent, interface, root, into)?;
            print_closed(alloc, indent, block.as_slice(), into)
        }
    }
}

// Adds statements, each on lines of its own.
#[cycle(printed_stmts)]
#[tactic(auto, using(crate::proofs::printed::Stmts::printed_stmts))]
fn print_stmts(alloc: Global, indent: &[u8], stmts: &[Stmt], into: &mut Word) -> Result<(), Memory>
    ensures { Adds (stmts_pieces indent.now (mirror_stmts stmts.now)) into.old result into.new }
{
    for stmt in stmts {
        print_stmt(alloc, indent, stmt, into)?;
    }
    Ok(())
}

/// The spaces of a block's lines.
pub fn two_more(alloc: Global, indent: &[u8]) -> Result<Word, Memory>
    ensures { IfOk result (λ spaces. spaces ≡ deeper indent.now) }
{
    let mut spaces = Seq::from_slice(alloc, indent)?;
    spaces.extend_from_slice(b"  ")?;
    Ok(spaces)
}

// Adds the lines of a block.
#[cycle(printed_stmts)]
#[tactic(auto, using(crate::proofs::printed::Stmts::printed_stmts))]
fn print_block(alloc: Global, indent: &[u8], block: &[Stmt], into: &mut Word) -> Result<(), Memory>
    ensures { Adds (block_pieces indent.now (mirror_stmts block.now)) into.old result into.new }
{
    let spaces = two_more(alloc, indent)?;
    print_stmts(alloc, spaces.as_slice(), block, into)
}

// Adds the lines of a block, and the line that closes it.
#[cycle(printed_stmts)]
#[tactic(auto, using(crate::proofs::printed::Stmts::printed_stmts))]
fn print_closed(alloc: Global, indent: &[u8], block: &[Stmt], into: &mut Word) -> Result<(), Memory>
    ensures { Adds (block_pieces indent.now (mirror_stmts block.now) ++ closed indent.now) into.old result into.new }
{
    print_block(alloc, indent, block, into)?;
    print_line(indent, b"}", into)
}

// Adds what stands behind a block that is tried.
#[cycle(printed_stmts)]
#[tactic(auto, using(crate::proofs::printed::Stmts::printed_stmts))]
fn print_handler(
    alloc: Global,
    indent: &[u8],
    name: &Word,
    block: &[Stmt],
    into: &mut Word,
) -> Result<(), Memory>
    ensures { Adds (handler_pieces indent.now name.now (mirror_stmts block.now)) into.old result into.new }
{
    print_catch(indent, name, into)?;
    print_closed(alloc, indent, block, into)
}

// Adds the end of an `if`, whose second block isn't printed where it is empty.
#[cycle(printed_stmts)]
#[tactic(auto, using(crate::proofs::printed::Stmts::printed_stmts))]
fn print_otherwise(
    alloc: Global,
    indent: &[u8],
    block: &[Stmt],
    into: &mut Word,
) -> Result<(), Memory>
    ensures { Adds (otherwise_pieces indent.now (mirror_stmts block.now)) into.old result into.new }
{
    if block.is_empty() {
        return print_line(indent, b"}", into);
    }
    print_line(indent, b"} else {", into)?;
    print_closed(alloc, indent, block, into)
}

// Adds the lines of a body.
#[tactic(auto, using(crate::proofs::printed::Stmts::printed_stmts))]
fn print_body(alloc: Global, indent: &[u8], body: &Body, into: &mut Word) -> Result<(), Memory>
    ensures { Adds (body_pieces indent.now (mirror_body body.now)) into.old result into.new }
{
    print_stmts(alloc, indent, body.statements.as_slice(), into)?;
    match &body.result {
        None => Ok(()),
        Some(expr) => print_between(alloc, indent, b"return ", expr, b";", into),
    }
}

/// Adds the lines of a body, behind two more spaces, and the line that closes it.
#[tactic(auto, using(crate::proofs::printed::Stmts::printed_stmts))]
pub fn print_within(
    alloc: Global,
    indent: &[u8],
    body: &Body,
    into: &mut Word,
) -> Result<(), Memory>
    ensures { Adds (within_pieces indent.now (mirror_body body.now)) into.old result into.new }
{
    let spaces = two_more(alloc, indent)?;
    print_body(alloc, spaces.as_slice(), body, into)?;
    print_line(indent, b"}", into)
}
