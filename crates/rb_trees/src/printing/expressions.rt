// The text of expressions, with parentheses exactly where their place needs them.

ghost use Rattle.std.specs.Prelude.{◌≡◌, [], ◌∷◌, ◌++◌};
ghost use Rattle.rb_trees.specs.mirror.Code.{mirror_expr, mirror_exprs};
ghost use Rattle.rb_trees.specs.printing.Pieces.{Adds};
ghost use Rattle.rb_trees.specs.printing.Words.{space, dot, less, greater, new_word, name_piece, number_piece};
ghost use Rattle.rb_trees.specs.printing.Exprs.{level_of, operand_level, binary_sign, unary_pieces, in_parentheses, expr_pieces};
ghost use Rattle.rb_trees.specs.printing.Exprs.{placed, right_pieces, index_pieces, call_pieces};

use super::operators::{level_before, level_behind, level_of_binary, level_of_unary, sign_of};
use super::types::print_list_type;
use super::words::{print_literal, print_number};
use crate::code::{BinOp, Expr, ExprForm, UnOp};
use crate::sequence::Word;
use crate::want::Memory;
use std::alloc::Global;

// The level of an expression.
#[tactic(auto, using(crate::proofs::printed::Exprs::printed_exprs))]
fn level(expr: &Expr) -> u8
    ensures { result ≡ level_of (mirror_expr expr.now) }
{
    match &expr.form {
        ExprForm::Unary(op, _) => level_of_unary(*op),
        ExprForm::Binary(op, _, _) => level_of_binary(*op),
        ExprForm::Field(_, _) | ExprForm::Call(_, _, _) | ExprForm::Index(_, _) => 7,
        ExprForm::Lit(_)
        | ExprForm::Name(_)
        | ExprForm::This
        | ExprForm::New(_, _)
        | ExprForm::Items(_, _)
        | ExprForm::Taken(_) => 8,
    }
}

/// Adds an expression where any may stand. The value that step N kept is `<N>`.
#[cycle(printed_exprs)]
#[tactic(auto, using(crate::proofs::printed::Exprs::printed_exprs))]
pub fn print_expr(alloc: Global, expr: &Expr, into: &mut Word) -> Result<(), Memory>
    ensures { Adds (expr_pieces (mirror_expr expr.now)) into.old result into.new }
{
    match &expr.form {
        ExprForm::Lit(value) => print_literal(alloc, value, into),
        ExprForm::Name(name) => into.extend_from_slice(name.as_slice()),
        ExprForm::This => into.extend_from_slice(b"this"),
        ExprForm::Unary(op, operand) => print_unary(alloc, *op, operand.get(), into),
        ExprForm::Binary(op, left, right) => {
            print_placed(alloc, level_before(*op), left.get(), into)?;
            print_right(alloc, *op, right.get(), into)
        }
        ExprForm::Field(object, name) => print_member(alloc, object.get(), name, into),
        ExprForm::Call(receiver, method, args) => {
            print_member(alloc, receiver.get(), method, into)?;
            print_args(alloc, args.as_slice(), into)
        }
        ExprForm::Index(list, index) => {
            print_placed(alloc, 7, list.get(), into)?;
            print_index(alloc, index.get(), into)
        }
        ExprForm::New(class, args) => print_new(alloc, class, args.as_slice(), into),
        ExprForm::Items(item, items) => {
            print_list_type(item, into)?;
            print_args(alloc, items.as_slice(), into)
        }
        ExprForm::Taken(step) => print_taken(alloc, *step, into),
    }
}

// Adds the value that a step kept.
#[tactic(auto, using(crate::proofs::printed::Exprs::printed_exprs))]
fn print_taken(alloc: Global, step: u32, into: &mut Word) -> Result<(), Memory>
    ensures { Adds (less ∷ number_piece step ∷ greater ∷ []) into.old result into.new }
{
    into.extend_from_slice(b"<")?;
    print_number(alloc, step as u64, into)?;
    into.extend_from_slice(b">")
}

// Adds the sign of a binary operator between its spaces.
#[tactic(auto, using(crate::proofs::printed::Exprs::printed_exprs))]
fn print_sign(op: BinOp, into: &mut Word) -> Result<(), Memory>
    ensures { Adds (space ∷ binary_sign op ∷ space ∷ []) into.old result into.new }
{
    into.extend_from_slice(b" ")?;
    into.extend_from_slice(sign_of(op))?;
    into.extend_from_slice(b" ")
}

// Adds an expression at a place of the level.
#[cycle(printed_exprs)]
#[tactic(auto, using(crate::proofs::printed::Exprs::printed_exprs))]
fn print_placed(alloc: Global, place: u8, expr: &Expr, into: &mut Word) -> Result<(), Memory>
    ensures { Adds (placed place (mirror_expr expr.now)) into.old result into.new }
{
    if level(expr) < place {
        print_inside(alloc, expr, into)
    } else {
        print_expr(alloc, expr, into)
    }
}

// Adds an expression in parentheses.
#[cycle(printed_exprs)]
#[tactic(auto, using(crate::proofs::printed::Exprs::printed_exprs))]
fn print_inside(alloc: Global, expr: &Expr, into: &mut Word) -> Result<(), Memory>
    ensures { Adds (in_parentheses (expr_pieces (mirror_expr expr.now))) into.old result into.new }
{
    into.extend_from_slice(b"(")?;
    print_expr(alloc, expr, into)?;
    into.extend_from_slice(b")")
}

// Adds a binary operator and its right operand.
#[cycle(printed_exprs)]
#[tactic(auto, using(crate::proofs::printed::Exprs::printed_exprs))]
fn print_right(alloc: Global, op: BinOp, right: &Expr, into: &mut Word) -> Result<(), Memory>
    ensures { Adds (right_pieces op (mirror_expr right.now)) into.old result into.new }
{
    print_sign(op, into)?;
    print_placed(alloc, level_behind(op), right, into)
}

// Adds an index in brackets.
#[cycle(printed_exprs)]
#[tactic(auto, using(crate::proofs::printed::Exprs::printed_exprs))]
fn print_index(alloc: Global, index: &Expr, into: &mut Word) -> Result<(), Memory>
    ensures { Adds (index_pieces (mirror_expr index.now)) into.old result into.new }
{
    into.extend_from_slice(b"[")?;
    print_expr(alloc, index, into)?;
    into.extend_from_slice(b"]")
}

// Adds a new object.
#[cycle(printed_exprs)]
#[tactic(auto, using(crate::proofs::printed::Exprs::printed_exprs))]
fn print_new(alloc: Global, class: &Word, args: &[Expr], into: &mut Word) -> Result<(), Memory>
    ensures { Adds (new_word ∷ space ∷ name_piece class.now ∷ call_pieces (mirror_exprs args.now)) into.old result into.new }
{
    into.extend_from_slice(b"new ")?;
    into.extend_from_slice(class.as_slice())?;
    print_args(alloc, args, into)
}

#[cycle(printed_exprs)]
#[tactic(auto, using(crate::proofs::printed::Exprs::printed_exprs))]
fn print_unary(alloc: Global, op: UnOp, operand: &Expr, into: &mut Word) -> Result<(), Memory>
    ensures { Adds (unary_pieces op (placed (operand_level op) (mirror_expr operand.now))) into.old result into.new }
{
    match op {
        UnOp::Not => {
            into.extend_from_slice(b"!")?;
            print_placed(alloc, 6, operand, into)
        }
        UnOp::Neg => {
            into.extend_from_slice(b"-")?;
            print_placed(alloc, 6, operand, into)
        }
        UnOp::Len => {
            into.extend_from_slice(b"len")?;
            print_inside(alloc, operand, into)
        }
        UnOp::Str => {
            into.extend_from_slice(b"str")?;
            print_inside(alloc, operand, into)
        }
    }
}

// Adds a member of an object, by its name.
#[cycle(printed_exprs)]
#[tactic(auto, using(crate::proofs::printed::Exprs::printed_exprs))]
fn print_member(alloc: Global, object: &Expr, name: &Word, into: &mut Word) -> Result<(), Memory>
    ensures { Adds (placed 7 (mirror_expr object.now) ++ dot ∷ name_piece name.now ∷ []) into.old result into.new }
{
    print_placed(alloc, 7, object, into)?;
    into.extend_from_slice(b".")?;
    into.extend_from_slice(name.as_slice())
}

// Adds arguments in parentheses.
#[cycle(printed_exprs)]
#[tactic(auto, using(crate::proofs::printed::Exprs::printed_exprs))]
fn print_args(alloc: Global, args: &[Expr], into: &mut Word) -> Result<(), Memory>
    ensures { Adds (call_pieces (mirror_exprs args.now)) into.old result into.new }
{
    into.extend_from_slice(b"(")?;
    let mut is_first = true;
    for arg in args {
        if !is_first {
            into.extend_from_slice(b", ")?;
        }
        print_expr(alloc, arg, into)?;
        is_first = false;
    }
    into.extend_from_slice(b")")
}
