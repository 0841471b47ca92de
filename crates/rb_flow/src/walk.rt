// The walk through the expressions of a batch.

#![tactic(auto, using(crate::proofs::WalkRules::walk_rules))]

ghost use Rattle.std.specs.Prelude.{◌≡◌, OnOk};
ghost use Rattle.rb_trees.specs.mirror.Code.{mirror_expr, mirror_exprs};
ghost use Rattle.rb_meaning_flow.specs.Refusals as refusals;
ghost use Rattle.rb_flow.specs.Found.{innermost};
ghost use Rattle.rb_flow.specs.Views.{facts};
ghost use Rattle.rb_flow.specs.Walked as words;

use crate::findings::Findings;
use crate::portable::is_portable;
use crate::seen::see_expr;
use crate::standing::{Inside, Reading};
use rb_marks::Facts;
use rb_scopes::Scope;
use rb_trees::{BinOp, Expr, ExprForm, Memory, Seq};
use std::alloc::Global;

fn is_and_or(op: BinOp) -> bool
    ensures { result ≡ refusals.is_and_or op }
{
    match op {
        BinOp::And | BinOp::Or => true,
        BinOp::Add | BinOp::Sub | BinOp::Mul | BinOp::Div | BinOp::Rem => false,
        BinOp::Eq | BinOp::Ne | BinOp::Lt | BinOp::Le | BinOp::Gt | BinOp::Ge => false,
    }
}

// The left operand of an `&&` or `||` that isn't portable as a whole, above its right operand.
fn left_operand(x: &Facts<'_>, scope: &Scope, right: bool, e: &Expr) -> Option<u32>
    ensures { result ≡ innermost (refusals.operand_condition (facts x.now) scope.now right (mirror_expr e.now)) }
{
    match &e.form {
        ExprForm::Binary(op, a, _) => {
            if right && is_and_or(*op) && !is_portable(x, scope, e) {
                Some(a.get().at)
            } else {
                None
            }
        }
        ExprForm::Lit(_) | ExprForm::Name(_) | ExprForm::This | ExprForm::Unary(_, _) => None,
        ExprForm::Call(_, _, _) | ExprForm::Field(_, _) | ExprForm::Index(_, _) => None,
        ExprForm::New(_, _) | ExprForm::Items(_, _) | ExprForm::Taken(_) => None,
    }
}

// How what stands around bears on a part of an expression: a right operand, or another part.
fn part_inside(x: &Facts<'_>, scope: &Scope, right: bool, inside: &Inside, e: &Expr) -> Inside
    ensures { result ≡ words.part_inside (facts x.now) scope.now right inside.now (mirror_expr e.now) }
{
    let condition = match left_operand(x, scope, right, e) {
        Some(left) => Some(left),
        None => inside.condition,
    };
    Inside {
        condition,
        tried: inside.tried,
        may: x.is_call(e),
    }
}

// The parts of an expression.
#[cycle(exprs)]
fn walk_parts(
    alloc: Global,
    x: &Facts<'_>,
    scope: &Scope,
    around: &Reading,
    inside: &Inside,
    found: &mut Findings,
    e: &Expr,
) -> Result<(), Memory>
    ensures { OnOk result (found.new ≡ words.parts_walked (facts x.now) scope.now around.now inside.now found.old (mirror_expr e.now)) }
{
    let part = part_inside(x, scope, false, inside, e);
    match &e.form {
        ExprForm::Lit(_) | ExprForm::Name(_) | ExprForm::This | ExprForm::Taken(_) => Ok(()),
        ExprForm::Unary(_, a) | ExprForm::Field(a, _) => {
            walk_expr(alloc, x, scope, around, &part, found, a.get())
        }
        ExprForm::Binary(_, a, b) => {
            let right = part_inside(x, scope, true, inside, e);
            walk_expr(alloc, x, scope, around, &part, found, a.get())?;
            walk_expr(alloc, x, scope, around, &right, found, b.get())
        }
        ExprForm::Index(a, b) => {
            walk_expr(alloc, x, scope, around, &part, found, a.get())?;
            walk_expr(alloc, x, scope, around, &part, found, b.get())
        }
        ExprForm::Call(a, _, args) => {
            walk_expr(alloc, x, scope, around, &part, found, a.get())?;
            walk_exprs(alloc, x, scope, around, &part, found, args.as_slice())
        }
        ExprForm::New(_, args) | ExprForm::Items(_, args) => {
            walk_exprs(alloc, x, scope, around, &part, found, args.as_slice())
        }
    }
}

/// What is found at an expression and at its parts.
#[cycle(exprs)]
pub fn walk_expr(
    alloc: Global,
    x: &Facts<'_>,
    scope: &Scope,
    around: &Reading,
    inside: &Inside,
    found: &mut Findings,
    e: &Expr,
) -> Result<(), Memory>
    ensures { OnOk result (found.new ≡ words.expr_walked (facts x.now) scope.now around.now inside.now found.old (mirror_expr e.now)) }
{
    see_expr(alloc, x, scope, around, inside, found, e)?;
    walk_parts(alloc, x, scope, around, inside, found, e)
}

#[cycle(exprs)]
fn walk_exprs(
    alloc: Global,
    x: &Facts<'_>,
    scope: &Scope,
    around: &Reading,
    inside: &Inside,
    found: &mut Findings,
    es: &[Expr],
) -> Result<(), Memory>
    ensures { OnOk result (found.new ≡ words.exprs_walked (facts x.now) scope.now around.now inside.now found.old (mirror_exprs es.now)) }
{
    for e in es {
        walk_expr(alloc, x, scope, around, inside, found, e)?;
    }
    Ok(())
}
