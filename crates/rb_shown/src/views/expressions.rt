// The expressions of scripts.

ghost use Rattle.std.specs.Prelude.{◌≡◌, ◌++◌, codes};
ghost use Rattle.rb_trees.specs.mirror.Scripts.{mirror_sexpr, mirror_sexprs};
ghost use Rattle.rb_shown.specs.Appends.{Appends};
ghost use Rattle.rb_shown.specs.Views.{unary_name, binary_name, shown_variable, shown_input, shown_sexpr, shown_args, shown_call};

use crate::literals::add_literal;
use crate::primitives::add_number;
use rb_trees::{BinOp, Invocation, Memory, Operands, SExpr, UnOp, Word};
use std::alloc::Global;

// The name of an operator with one operand.
fn name_of_unary(op: UnOp) -> &'static [u8]
    ensures { result.now ≡ unary_name op }
{
    match op {
        UnOp::Not => b"not",
        UnOp::Neg => b"neg",
        UnOp::Len => b"len",
        UnOp::Str => b"str",
    }
}

// The name of an operator with two operands.
fn name_of_binary(op: BinOp) -> &'static [u8]
    ensures { result.now ≡ binary_name op }
{
    match op {
        BinOp::Add => b"add",
        BinOp::Sub => b"sub",
        BinOp::Mul => b"mul",
        BinOp::Div => b"div",
        BinOp::Rem => b"rem",
        BinOp::Eq => b"eq",
        BinOp::Ne => b"ne",
        BinOp::Lt => b"lt",
        BinOp::Le => b"le",
        BinOp::Gt => b"gt",
        BinOp::Ge => b"ge",
        BinOp::And => b"and",
        BinOp::Or => b"or",
    }
}

// Adds the name of an operator, and opens its parentheses.
#[tactic(auto, using(crate::proofs::Pieces::pieces))]
fn add_opened(name: &[u8], into: &mut Word) -> Result<(), Memory>
    ensures { Appends (name.now ++ codes "(") into.old result into.new }
{
    into.extend_from_slice(name)?;
    into.push(b'(')
}

/// Adds a variable of a script.
#[tactic(auto, using(crate::proofs::Pieces::pieces))]
pub fn add_variable(alloc: Global, number: u32, into: &mut Word) -> Result<(), Memory>
    ensures { Appends (shown_variable number) into.old result into.new }
{
    into.push(b'v')?;
    add_number(alloc, u64::from(number), into)
}

/// Adds an input of a script.
#[tactic(auto, using(crate::proofs::Pieces::pieces))]
pub fn add_input(alloc: Global, number: u8, into: &mut Word) -> Result<(), Memory>
    ensures { Appends (shown_input number) into.old result into.new }
{
    into.extend_from_slice(b"in")?;
    add_number(alloc, u64::from(number), into)
}

/// Adds an expression.
#[cycle(sexprs)]
#[tactic(auto, using(crate::proofs::ViewForms::sexprs))]
pub fn add_sexpr(alloc: Global, expr: &SExpr, into: &mut Word) -> Result<(), Memory>
    ensures { Appends (shown_sexpr (mirror_sexpr expr.now)) into.old result into.new }
{
    match expr {
        SExpr::Lit(value) => add_literal(alloc, value.get(), into),
        SExpr::Input(number) => add_input(alloc, *number, into),
        SExpr::Var(number) => add_variable(alloc, *number, into),
        SExpr::Root => into.extend_from_slice(b"root"),
        SExpr::Unary(op, _, operand) => {
            add_opened(name_of_unary(*op), into)?;
            add_last(alloc, operand.get(), into)
        }
        SExpr::Binary(op, _, operands) => {
            let Operands { left, right } = operands.get();
            add_opened(name_of_binary(*op), into)?;
            add_sexpr(alloc, left, into)?;
            into.extend_from_slice(b", ")?;
            add_last(alloc, right, into)
        }
        SExpr::Call { call, .. } => {
            let Invocation {
                method,
                target,
                args,
            } = call.get();
            add_sexpr(alloc, target, into)?;
            add_call(alloc, method.get(), args.as_slice(), into)
        }
    }
}

// Adds the last operand of an operator, and closes its parentheses.
#[cycle(sexprs)]
#[tactic(auto, using(crate::proofs::ViewForms::sexprs))]
fn add_last(alloc: Global, operand: &SExpr, into: &mut Word) -> Result<(), Memory>
    ensures { Appends (shown_sexpr (mirror_sexpr operand.now) ++ codes ")") into.old result into.new }
{
    add_sexpr(alloc, operand, into)?;
    into.push(b')')
}

// Adds what stands behind the receiver of a call.
#[cycle(sexprs)]
#[tactic(auto, using(crate::proofs::ViewForms::sexprs))]
fn add_call(alloc: Global, method: &Word, args: &[SExpr], into: &mut Word) -> Result<(), Memory>
    ensures { Appends (shown_call method.now (mirror_sexprs args.now)) into.old result into.new }
{
    into.push(b'.')?;
    into.extend_from_slice(method.as_slice())?;
    into.push(b'(')?;
    add_args(alloc, args, into)?;
    into.push(b')')
}

// Adds arguments, with commas between them.
#[cycle(sexprs)]
#[tactic(auto, using(crate::proofs::ViewForms::sexprs))]
fn add_args(alloc: Global, args: &[SExpr], into: &mut Word) -> Result<(), Memory>
    ensures { Appends (shown_args (mirror_sexprs args.now)) into.old result into.new }
{
    let mut is_first = true;
    for arg in args {
        if !is_first {
            into.extend_from_slice(b", ")?;
        }
        add_sexpr(alloc, arg, into)?;
        is_first = false;
    }
    Ok(())
}
