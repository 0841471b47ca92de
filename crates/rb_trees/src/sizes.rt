// How many bytes the code of a script has on the wire.

ghost use Rattle.std.specs.Prelude.{◌≡◌};
ghost use Rattle.rb_trees.specs.mirror.Scripts.{mirror_sexpr, mirror_sexprs, mirror_step, mirror_steps, mirror_script};
ghost use Rattle.rb_trees.specs.CodeSize.{capped, value_size, expr_size, exprs_size, step_size, block_size, code_size_of};

use crate::scripts::{Invocation, Operands, SExpr, Script, Step, StepForm};
use crate::values::Value;

#[tactic(auto, using(crate::proofs::rules::Sizes::values))]
fn size_of_value(value: &Value) -> u64
    ensures { result ≡ capped (value_size value.now) }
{
    match value {
        Value::Int(_) => 9,
        Value::Bool(_) => 2,
        Value::Text(text) => (text.get().len() as u64).saturating_add(5),
        _ => 0,
    }
}

#[cycle(size_exprs)]
#[tactic(auto, using(crate::proofs::rules::Sizes::exprs))]
fn size_of_expr(expr: &SExpr) -> u64
    ensures { result ≡ capped (expr_size (mirror_sexpr expr.now)) }
{
    match expr {
        SExpr::Lit(value) => size_of_value(value.get()).saturating_add(1),
        SExpr::Input(_) => 2,
        SExpr::Var(_) => 5,
        SExpr::Root => 1,
        SExpr::Unary(_, _, operand) => size_of_expr(operand.get()).saturating_add(6),
        SExpr::Binary(_, _, operands) => {
            let Operands { left, right } = operands.get();
            size_of_expr(left)
                .saturating_add(size_of_expr(right))
                .saturating_add(6)
        }
        SExpr::Call { call, .. } => {
            let Invocation {
                method,
                target,
                args,
            } = call.get();
            let args = size_of_exprs(args.as_slice());
            size_of_expr(target)
                .saturating_add(args)
                .saturating_add(14)
                .saturating_add(method.get().len() as u64)
        }
    }
}

#[cycle(size_exprs)]
#[tactic(auto, using(crate::proofs::rules::Sizes::exprs))]
fn size_of_exprs(exprs: &[SExpr]) -> u64
    ensures { result ≡ capped (exprs_size (mirror_sexprs exprs.now)) }
{
    let mut total = 0u64;
    for expr in exprs {
        total = total.saturating_add(size_of_expr(expr));
    }
    total
}

#[cycle(size_steps)]
#[tactic(auto, using(crate::proofs::rules::Sizes::steps))]
fn size_of_block(steps: &[Step]) -> u64
    ensures { result ≡ capped (block_size (mirror_steps steps.now)) }
{
    let mut total = 4u64;
    for step in steps {
        total = total.saturating_add(size_of_step(step));
    }
    total
}

#[cycle(size_steps)]
#[tactic(auto, using(crate::proofs::rules::Sizes::steps))]
fn size_of_step(step: &Step) -> u64
    ensures { result ≡ capped (step_size (mirror_step step.now)) }
{
    match &step.form {
        StepForm::Do(expr) | StepForm::Keep(expr) => size_of_expr(expr).saturating_add(9),
        StepForm::Let { value, .. } => size_of_expr(value).saturating_add(14),
        StepForm::If(condition, then_block, else_block) => size_of_expr(condition)
            .saturating_add(size_of_block(then_block.as_slice()))
            .saturating_add(size_of_block(else_block.as_slice()))
            .saturating_add(9),
        StepForm::Each { rows, body, .. } => size_of_expr(rows)
            .saturating_add(size_of_block(body.as_slice()))
            .saturating_add(14),
        StepForm::Over { body, .. } => size_of_block(body.as_slice()).saturating_add(14),
    }
}

/// The number of bytes of the script's code on the wire, version 1, or 2^64 - 1 where it is more. The values of its inputs
/// don't count.
pub fn code_size(script: &Script) -> u64
    ensures { result ≡ code_size_of (mirror_script script.now) }
{
    size_of_block(script.body.as_slice())
}
