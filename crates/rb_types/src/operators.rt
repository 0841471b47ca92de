// Operators and what they take.

#![tactic(auto, using(crate::proofs::Rules::rules))]

ghost use Rattle.std.specs.Prelude.{◌≡◌};
ghost use Rattle.rb_meaning_types.specs.Kinds.{kind_of_form};
ghost use Rattle.rb_meaning_types.specs.Operators as operators;
ghost use Rattle.rb_types.specs.Checks.{Types};
ghost use Rattle.rb_types.specs.Views.{placed_of};

use crate::kinds::{
    Placed, copy_kind, is_bool, is_int, is_list, is_primitive, is_text, wanted, wrong_type,
};
use rb_trees::{BinOp, TypeError, TypeForm, UnOp};
use std::alloc::Global;

fn takes_operand(op: UnOp, kind: &TypeForm) -> bool
    ensures { result ≡ operators.takes_operand op (kind_of_form kind.now) }
{
    match op {
        UnOp::Not => is_bool(kind),
        UnOp::Neg => is_int(kind),
        UnOp::Len => is_text(kind) || is_list(kind),
        UnOp::Str => is_int(kind) || is_bool(kind),
    }
}

/// The type of an operator's result, or the violation of its operand.
pub fn unary_kind(alloc: Global, op: UnOp, p: &Placed) -> Result<TypeForm, TypeError>
    ensures { Types result (operators.unary_kind op (placed_of p.now)) }
{
    if !takes_operand(op, &p.kind) {
        return Err(wrong_type(alloc, p));
    }
    match op {
        UnOp::Not => Ok(TypeForm::Bool),
        UnOp::Neg | UnOp::Len => Ok(TypeForm::Int),
        UnOp::Str => Ok(TypeForm::Text),
    }
}

fn takes_left(op: BinOp, kind: &TypeForm) -> bool
    ensures { result ≡ operators.takes_left op (kind_of_form kind.now) }
{
    match op {
        BinOp::Add => is_int(kind) || is_text(kind) || is_list(kind),
        BinOp::Eq | BinOp::Ne => is_primitive(kind),
        BinOp::And | BinOp::Or => is_bool(kind),
        BinOp::Sub | BinOp::Mul | BinOp::Div | BinOp::Rem => is_int(kind),
        BinOp::Lt | BinOp::Le | BinOp::Gt | BinOp::Ge => is_int(kind),
    }
}

fn binary_result(alloc: Global, op: BinOp, kind: &TypeForm) -> Result<TypeForm, TypeError>
    ensures { Types result (Ok (operators.binary_result op (kind_of_form kind.now))) }
{
    match op {
        BinOp::Add => copy_kind(alloc, kind),
        BinOp::Eq | BinOp::Ne | BinOp::And | BinOp::Or => Ok(TypeForm::Bool),
        BinOp::Lt | BinOp::Le | BinOp::Gt | BinOp::Ge => Ok(TypeForm::Bool),
        BinOp::Sub | BinOp::Mul | BinOp::Div | BinOp::Rem => Ok(TypeForm::Int),
    }
}

/// The type of an operator's result, or the violation of its left or right operand.
pub fn binary_kind(alloc: Global, op: BinOp, p: &Placed, q: &Placed) -> Result<TypeForm, TypeError>
    ensures { Types result (operators.binary_kind op (placed_of p.now) (placed_of q.now)) }
{
    if !takes_left(op, &p.kind) {
        return Err(wrong_type(alloc, p));
    }
    wanted(alloc, &p.kind, q)?;
    binary_result(alloc, op, &p.kind)
}

fn item_of(alloc: Global, p: &Placed) -> Result<TypeForm, TypeError>
    ensures { Types result (operators.item_of (placed_of p.now) (kind_of_form p.now.kind)) }
{
    match &p.kind {
        TypeForm::ListOf(item) => copy_kind(alloc, &item.get().form),
        TypeForm::Int | TypeForm::Bool | TypeForm::Text => Err(wrong_type(alloc, p)),
        TypeForm::Unit | TypeForm::Named(_) | TypeForm::RowsOf(_) => Err(wrong_type(alloc, p)),
    }
}

/// The type of a list's item, or the violation of the list or the index.
pub fn index_kind(alloc: Global, p: &Placed, q: &Placed) -> Result<TypeForm, TypeError>
    ensures { Types result (operators.index_kind (placed_of p.now) (placed_of q.now)) }
{
    let item = item_of(alloc, p)?;
    wanted(alloc, &TypeForm::Int, q)?;
    Ok(item)
}
