// Which scripts are valid, found with an index of the numbers of steps and of the variables that are bound, so that
// nothing is walked twice.

ghost use Rattle.std.specs.Prelude.{◌≡◌, [], ◌∷◌, ◌<◌, ◌++◌, false, OnOk};
ghost use Rattle.rb_trees.specs.Outcome.{Gives};
ghost use Rattle.rb_trees.specs.mirror.Scripts.{mirror_step, mirror_steps, mirror_script};
ghost use Rattle.rb_trees.specs.Validity.{has, first, nested_blocks, step_numbers, steps_numbers, step_lets, steps_lets, verdict};
ghost use Rattle.rb_wire_script.specs.Stops.{rule_of};
ghost use Rattle.rb_wire_script.specs.Verdicts.{input_verdict, list_verdict, expr_verdict, exprs_verdict, whole_verdict, step_verdict, steps_verdict};

use crate::numbers::Numbers;
use rb_trees::limits::{MOST_BLOCKS, MOST_EXPRS};
use rb_trees::{Invocation, Memory, Operands, SExpr, Script, ScriptRefusal, Step, StepForm};
use std::alloc::Global;
use thiserror::Error;

/// Why a script isn't taken.
#[derive(Debug, Drop, Error)]
pub enum RuleStop {
    /// Its first refusal.
    #[error("the script is refused: {0}")]
    Refused(ScriptRefusal),
    #[error("out of memory")]
    Memory,
}

impl From<Memory> for RuleStop {
    ghost use Rattle.std.specs.Prelude.{◌≡◌};
    ghost use Rattle.rb_wire_script.specs.declared.checking.RuleStop.TheVariants as stops;

    ghost from_gives = { λ _ e. e ≡ stops.Memory };

    fn from(_want: Memory) -> RuleStop {
        RuleStop::Memory
    }
}

impl From<ScriptRefusal> for RuleStop {
    ghost use Rattle.std.specs.Prelude.{◌≡◌};
    ghost use Rattle.rb_wire_script.specs.declared.checking.RuleStop.TheVariants as stops;

    ghost from_gives = { λ r e. e ≡ stops.Refused r };

    fn from(refusal: ScriptRefusal) -> RuleStop {
        RuleStop::Refused(refusal)
    }
}

/// Whether one of the inputs that are lists has this number.
fn is_list(script: &Script, number: u8) -> bool
    ensures { result ≡ has number script.now.lists }
{
    for list in script.lists.as_slice() {
        if number == *list {
            return true;
        }
    }
    false
}

/// An input that an expression of a step has.
fn check_input(number: u8, script: &Script, step: u32) -> Result<(), ScriptRefusal>
    ensures { result ≡ input_verdict script.now step number }
{
    if number >= script.inputs {
        Err(ScriptRefusal::UnknownInput(step))
    } else if is_list(script, number) {
        Err(ScriptRefusal::WrongInput(step))
    } else {
        Ok(())
    }
}

/// The input that an Over of this number goes through.
fn check_list(number: u8, script: &Script, step: u32) -> Result<(), ScriptRefusal>
    ensures { result ≡ list_verdict script.now step number }
{
    if number >= script.inputs {
        Err(ScriptRefusal::UnknownInput(step))
    } else if is_list(script, number) {
        Ok(())
    } else {
        Err(ScriptRefusal::WrongInput(step))
    }
}

/// An expression that stands within so many, itself among them.
#[cycle(check_exprs)]
#[tactic(auto, using(rb_trees::proofs::rules::Refusals::exprs))]
fn check_expr(
    expr: &SExpr,
    script: &Script,
    bound: &Numbers,
    step: u32,
    depth: u32,
) -> Result<(), ScriptRefusal>
    ensures { result ≡ expr_verdict script.now bound.now step depth expr.now }
{
    if depth > MOST_EXPRS {
        return Err(ScriptRefusal::TooDeep(step));
    }
    match expr {
        SExpr::Lit(_) | SExpr::Root => Ok(()),
        SExpr::Input(number) => check_input(*number, script, step),
        SExpr::Var(var) => {
            if bound.has(*var) {
                Ok(())
            } else {
                Err(ScriptRefusal::UnknownVariable(step))
            }
        }
        SExpr::Unary(_, _, operand) => check_expr(operand.get(), script, bound, step, depth + 1),
        SExpr::Binary(_, _, operands) => {
            let Operands { left, right } = operands.get();
            check_expr(left, script, bound, step, depth + 1)?;
            check_expr(right, script, bound, step, depth + 1)
        }
        SExpr::Call { call, .. } => {
            let Invocation { target, args, .. } = call.get();
            check_expr(target, script, bound, step, depth + 1)?;
            check_exprs(args.as_slice(), script, bound, step, depth + 1)
        }
    }
}

#[cycle(check_exprs)]
#[tactic(auto, using(rb_trees::proofs::rules::Refusals::exprs))]
fn check_exprs(
    exprs: &[SExpr],
    script: &Script,
    bound: &Numbers,
    step: u32,
    depth: u32,
) -> Result<(), ScriptRefusal>
    ensures { result ≡ exprs_verdict script.now bound.now step depth exprs.now }
{
    for expr in exprs {
        check_expr(expr, script, bound, step, depth)?;
    }
    Ok(())
}

/// An expression that stands in a step.
#[tactic(auto, unfolding(rb_trees::specs::Validity::whole_refusals))]
fn check_whole(
    expr: &SExpr,
    script: &Script,
    bound: &Numbers,
    step: u32,
) -> Result<(), ScriptRefusal>
    ensures { result ≡ whole_verdict script.now bound.now step expr.now }
{
    check_expr(expr, script, bound, step, 1)
}

/// Whether a step in the so-manieth block may have blocks.
fn check_depth(step: u32, depth: u32) -> Result<(), ScriptRefusal>
    ensures value { result ≡ first (nested_blocks step depth) }
    ensures within { OnOk result (depth < 64) }
{
    if depth < MOST_BLOCKS {
        Ok(())
    } else {
        Err(ScriptRefusal::TooDeep(step))
    }
}

/// Steps of a block, in order. What they bind stays bound.
#[cycle(check_steps)]
#[tactic(auto, using(crate::proofs::Rules::steps))]
fn check_steps(
    steps: &[Step],
    script: &Script,
    depth: u32,
    seen: &mut Numbers,
    bound: &mut Numbers,
) -> Result<(), RuleStop>
    ensures gives { Gives (λ x. x) rule_of result (steps_verdict script.now depth seen.old bound.old steps.now) }
    ensures seen { OnOk result (seen.new ≡ seen.old ++ steps_numbers (mirror_steps steps.now)) }
    ensures bound { OnOk result (bound.new ≡ bound.old ++ steps_lets (mirror_steps steps.now)) }
{
    for step in steps {
        check_step(step, script, depth, seen, bound)?;
    }
    Ok(())
}

/// A block within a step. What it binds ends with it.
#[cycle(check_steps)]
#[tactic(auto, using(crate::proofs::Rules::steps))]
fn check_block(
    steps: &[Step],
    script: &Script,
    depth: u32,
    seen: &mut Numbers,
    bound: &mut Numbers,
) -> Result<(), RuleStop>
    ensures gives { Gives (λ x. x) rule_of result (steps_verdict script.now depth seen.old bound.old steps.now) }
    ensures seen { OnOk result (seen.new ≡ seen.old ++ steps_numbers (mirror_steps steps.now)) }
    ensures bound { OnOk result (bound.new ≡ bound.old) }
{
    let outer = bound.len();
    check_steps(steps, script, depth, seen, bound)?;
    bound.truncate(outer);
    Ok(())
}

/// A block whose rows or items are bound to a variable.
#[cycle(check_steps)]
#[tactic(auto, using(crate::proofs::Rules::steps))]
fn check_turns(
    var: u32,
    steps: &[Step],
    script: &Script,
    depth: u32,
    seen: &mut Numbers,
    bound: &mut Numbers,
) -> Result<(), RuleStop>
    ensures gives { Gives (λ x. x) rule_of result (steps_verdict script.now depth seen.old (bound.old ++ var ∷ []) steps.now) }
    ensures seen { OnOk result (seen.new ≡ seen.old ++ steps_numbers (mirror_steps steps.now)) }
    ensures bound { OnOk result (bound.new ≡ bound.old) }
{
    let outer = bound.len();
    bound.push(var)?;
    check_steps(steps, script, depth, seen, bound)?;
    bound.truncate(outer);
    Ok(())
}

#[cycle(check_steps)]
#[tactic(auto, using(crate::proofs::Rules::steps))]
fn check_step(
    step: &Step,
    script: &Script,
    depth: u32,
    seen: &mut Numbers,
    bound: &mut Numbers,
) -> Result<(), RuleStop>
    ensures gives { Gives (λ x. x) rule_of result (step_verdict script.now depth seen.old bound.old step.now) }
    ensures seen { OnOk result (seen.new ≡ seen.old ++ step_numbers (mirror_step step.now)) }
    ensures bound { OnOk result (bound.new ≡ bound.old ++ step_lets (mirror_step step.now)) }
{
    if seen.has(step.id) {
        return Err(RuleStop::Refused(ScriptRefusal::StepRepeated(step.id)));
    }
    check_form(step, script, depth, seen, bound)
}

/// A step whose number is new.
#[cycle(check_steps)]
#[tactic(auto, using(crate::proofs::Rules::steps))]
fn check_form(
    step: &Step,
    script: &Script,
    depth: u32,
    seen: &mut Numbers,
    bound: &mut Numbers,
) -> Result<(), RuleStop>
    requires { has step.now.id seen.old ≡ false }
    ensures gives { Gives (λ x. x) rule_of result (step_verdict script.now depth seen.old bound.old step.now) }
    ensures seen { OnOk result (seen.new ≡ seen.old ++ step_numbers (mirror_step step.now)) }
    ensures bound { OnOk result (bound.new ≡ bound.old ++ step_lets (mirror_step step.now)) }
{
    seen.push(step.id)?;
    match &step.form {
        StepForm::Do(expr) | StepForm::Keep(expr) => {
            check_whole(expr, script, bound, step.id)?;
            Ok(())
        }
        StepForm::Let { var, value, .. } => {
            check_whole(value, script, bound, step.id)?;
            bound.push(*var)?;
            Ok(())
        }
        StepForm::If(condition, then_block, else_block) => {
            check_depth(step.id, depth)?;
            check_whole(condition, script, bound, step.id)?;
            check_block(then_block.as_slice(), script, depth + 1, seen, bound)?;
            check_block(else_block.as_slice(), script, depth + 1, seen, bound)?;
            Ok(())
        }
        StepForm::Each {
            var,
            rows,
            body,
            ..
        } => {
            check_depth(step.id, depth)?;
            check_whole(rows, script, bound, step.id)?;
            check_turns(*var, body.as_slice(), script, depth + 1, seen, bound)?;
            Ok(())
        }
        StepForm::Over { var, input, body } => {
            check_depth(step.id, depth)?;
            check_list(*input, script, step.id)?;
            check_turns(*var, body.as_slice(), script, depth + 1, seen, bound)?;
            Ok(())
        }
    }
}

/// Whether the script is valid, else its first refusal in reading order: what `valid` answers, in time that grows as the script
/// does, and with memory for the numbers of its steps and variables.
pub fn check_script(alloc: Global, script: &Script) -> Result<(), RuleStop>
    ensures { Gives (λ x. x) rule_of result (verdict (mirror_script script.now)) }
{
    let mut seen = Numbers::new(alloc);
    let mut bound = Numbers::new(alloc);
    check_steps(script.body.as_slice(), script, 1, &mut seen, &mut bound)
}
