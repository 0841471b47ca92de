// Which scripts are valid, decided as the definition says it, by walking: in the square of the steps' number.
//
// No command calls it. The reader of payloads decides the same in linear time while it reads (`checking.rt` of rb_wire_script),
// and tests of scripts that were made otherwise ask this one.

ghost use Rattle.std.specs.Prelude.{◌≡◌, ◌+◌, ◌<◌, false, OnOk};
ghost use Rattle.rb_trees.specs.mirror.Scripts.{mirror_step, mirror_steps, mirror_script};
ghost use Rattle.rb_trees.specs.Validity.{has, first, inputs_of, input_refusals, list_refusals, nested_blocks, step_numbers, steps_numbers, step_lets, steps_lets, verdict};
ghost use Rattle.rb_trees.specs.Scopes.{seen, bound, expr_verdict, exprs_verdict, whole_verdict, step_verdict, steps_verdict};

use crate::limits::{MOST_BLOCKS, MOST_EXPRS};
use crate::scripts::{Invocation, Operands, SExpr, Script, Step, StepForm};
use thiserror::Error;

/// Why a script isn't valid: its first refusal, at a step's number.
#[derive(Clone, Copy, Debug, PartialEq, Eq, Error)]
pub enum ScriptRefusal {
    /// Nothing in scope binds the variable: no Let before it, in its own block or in one around it, and no Each around it.
    #[error("step {0} has a variable that nothing binds")]
    UnknownVariable(u32),
    /// The script has fewer inputs.
    #[error("step {0} has an input that isn't there")]
    UnknownInput(u32),
    /// An earlier step has this number.
    #[error("the number {0} stands for two steps")]
    StepRepeated(u32),
    /// More than 64 blocks or more than 256 expressions stand within each other.
    #[error("step {0} nests too deep")]
    TooDeep(u32),
    /// An expression has a list as its input, or an Over an input that is no list.
    #[error("step {0} has an input of another form")]
    WrongInput(u32),
}

/// Whether one of these steps, or one in their blocks, has this number.
#[cycle(numbers)]
#[tactic(auto, using(crate::proofs::rules::Scopes::members))]
fn any_numbered(steps: &[Step], id: u32) -> bool
    ensures { result ≡ has id (steps_numbers (mirror_steps steps.now)) }
{
    for step in steps {
        if is_numbered(step, id) {
            return true;
        }
    }
    false
}

#[cycle(numbers)]
#[tactic(auto, using(crate::proofs::rules::Scopes::members))]
fn is_numbered(step: &Step, id: u32) -> bool
    ensures { result ≡ has id (step_numbers (mirror_step step.now)) }
{
    match &step.form {
        StepForm::Do(_) | StepForm::Keep(_) | StepForm::Let { .. } => id == step.id,
        StepForm::If(_, then_block, else_block) => id == step.id
            || any_numbered(then_block.as_slice(), id)
            || any_numbered(else_block.as_slice(), id),
        StepForm::Each { body, .. } | StepForm::Over { body, .. } => id == step.id
            || any_numbered(body.as_slice(), id),
    }
}

/// Whether the step is a Let of this variable.
#[tactic(auto, using(crate::proofs::rules::Scopes::members))]
fn binds(step: &Step, var: u32) -> bool
    ensures { result ≡ has var (step_lets (mirror_step step.now)) }
{
    match &step.form {
        StepForm::Let { var: own, .. } => var == *own,
        StepForm::Do(_)
        | StepForm::Keep(_)
        | StepForm::If(..)
        | StepForm::Each { .. }
        | StepForm::Over { .. } => false,
    }
}

/// Whether a Let of these steps binds the variable.
#[tactic(auto, using(crate::proofs::rules::Scopes::members))]
fn any_binds(steps: &[Step], var: u32) -> bool
    ensures { result ≡ has var (steps_lets (mirror_steps steps.now)) }
{
    for step in steps {
        if binds(step, var) {
            return true;
        }
    }
    false
}

/// What stands around a step: which steps were read before, and which variables are bound.
#[derive(Drop)]
enum Around<'a> {
    Root,
    /// The variable of an Each or an Over whose block is read.
    Row(u32, &'a Around<'a>),
    /// The number of a step that is read.
    Step(u32, &'a Around<'a>),
    /// The earlier steps of a block that is read.
    Block(&'a [Step], &'a Around<'a>),
    /// A block that was read whole.
    Closed(&'a [Step], &'a Around<'a>),
}

#[tactic(auto, using(crate::proofs::rules::Scopes::scopes))]
fn is_seen(scope: &Around, id: u32) -> bool
    ensures { result ≡ has id (seen scope.now) }
{
    match scope {
        Around::Root => false,
        Around::Row(_, outer) => is_seen(outer, id),
        Around::Step(own, outer) => is_seen(outer, id) || id == *own,
        Around::Block(steps, outer) | Around::Closed(steps, outer) => is_seen(outer, id)
            || any_numbered(steps, id),
    }
}

#[tactic(auto, using(crate::proofs::rules::Scopes::scopes))]
fn is_bound(scope: &Around, var: u32) -> bool
    ensures { result ≡ has var (bound scope.now) }
{
    match scope {
        Around::Root => false,
        Around::Row(own, outer) => is_bound(outer, var) || var == *own,
        Around::Step(_, outer) | Around::Closed(_, outer) => is_bound(outer, var),
        Around::Block(steps, outer) => is_bound(outer, var) || any_binds(steps, var),
    }
}

/// Whether one of the inputs that are lists has this number.
fn is_list(script: &Script, number: u8) -> bool
    ensures { result ≡ has number script.now.lists }
{
    for list in script.lists.as_slice() {
        if number == *list {
            return true;
        }
    }
    false
}

/// An input that an expression of a step has.
fn check_input(number: u8, script: &Script, step: u32) -> Result<(), ScriptRefusal>
    ensures { result ≡ first (input_refusals (inputs_of (mirror_script script.now)) step number) }
{
    if number >= script.inputs {
        Err(ScriptRefusal::UnknownInput(step))
    } else if is_list(script, number) {
        Err(ScriptRefusal::WrongInput(step))
    } else {
        Ok(())
    }
}

/// The input that an Over of this number goes through.
fn check_list(number: u8, script: &Script, step: u32) -> Result<(), ScriptRefusal>
    ensures { result ≡ first (list_refusals (inputs_of (mirror_script script.now)) step number) }
{
    if number >= script.inputs {
        Err(ScriptRefusal::UnknownInput(step))
    } else if is_list(script, number) {
        Ok(())
    } else {
        Err(ScriptRefusal::WrongInput(step))
    }
}

#[cycle(check_exprs)]
#[tactic(auto, using(crate::proofs::rules::Refusals::exprs))]
fn check_expr(
    expr: &SExpr,
    script: &Script,
    scope: &Around,
    step: u32,
    depth: u32,
) -> Result<(), ScriptRefusal>
    ensures { result ≡ expr_verdict script.now scope.now step depth expr.now }
{
    if depth > MOST_EXPRS {
        return Err(ScriptRefusal::TooDeep(step));
    }
    match expr {
        SExpr::Lit(_) | SExpr::Root => Ok(()),
        SExpr::Input(number) => check_input(*number, script, step),
        SExpr::Var(var) => {
            if is_bound(scope, *var) {
                Ok(())
            } else {
                Err(ScriptRefusal::UnknownVariable(step))
            }
        }
        SExpr::Unary(_, _, operand) => check_expr(operand.get(), script, scope, step, depth + 1),
        SExpr::Binary(_, _, operands) => {
            let Operands { left, right } = operands.get();
            check_expr(left, script, scope, step, depth + 1)?;
            check_expr(right, script, scope, step, depth + 1)
        }
        SExpr::Call { call, .. } => {
            let Invocation { target, args, .. } = call.get();
            check_expr(target, script, scope, step, depth + 1)?;
            check_exprs(args.as_slice(), script, scope, step, depth + 1)
        }
    }
}

#[cycle(check_exprs)]
#[tactic(auto, using(crate::proofs::rules::Refusals::exprs))]
fn check_exprs(
    exprs: &[SExpr],
    script: &Script,
    scope: &Around,
    step: u32,
    depth: u32,
) -> Result<(), ScriptRefusal>
    ensures { result ≡ exprs_verdict script.now scope.now step depth exprs.now }
{
    for expr in exprs {
        check_expr(expr, script, scope, step, depth)?;
    }
    Ok(())
}

/// An expression that stands in a step.
#[tactic(auto, unfolding(crate::specs::Validity::whole_refusals))]
fn check_whole(
    expr: &SExpr,
    script: &Script,
    scope: &Around,
    step: u32,
) -> Result<(), ScriptRefusal>
    ensures { result ≡ whole_verdict script.now scope.now step expr.now }
{
    check_expr(expr, script, scope, step, 1)
}

/// Whether a step in the so-manieth block may have blocks.
fn check_depth(step: u32, depth: u32) -> Result<(), ScriptRefusal>
    ensures value { result ≡ first (nested_blocks step depth) }
    ensures within { OnOk result (depth < 64) }
{
    if depth < MOST_BLOCKS {
        Ok(())
    } else {
        Err(ScriptRefusal::TooDeep(step))
    }
}

#[cycle(check_steps)]
#[tactic(auto, using(crate::proofs::rules::Refusals::steps))]
fn check_block<'x>(
    steps: &'x [Step],
    script: &'x Script,
    depth: u32,
    scope: &'x Around<'x>,
) -> Result<(), ScriptRefusal>
    ensures { result ≡ steps_verdict script.now scope.now depth steps.now }
{
    for i in 0..steps.len() {
        let here = Around::Block(&steps[..i], scope);
        check_step(&steps[i], script, depth, &here)?;
    }
    Ok(())
}

#[cycle(check_steps)]
#[tactic(auto, using(crate::proofs::rules::Refusals::numbered))]
fn check_step<'x>(
    step: &'x Step,
    script: &'x Script,
    depth: u32,
    scope: &'x Around<'x>,
) -> Result<(), ScriptRefusal>
    ensures { result ≡ step_verdict script.now scope.now depth step.now }
{
    if is_seen(scope, step.id) {
        return Err(ScriptRefusal::StepRepeated(step.id));
    }
    check_form(step, script, depth, scope)
}

/// A step whose number is new.
#[cycle(check_steps)]
#[tactic(auto, using(crate::proofs::rules::Refusals::steps))]
fn check_form<'x>(
    step: &'x Step,
    script: &'x Script,
    depth: u32,
    scope: &'x Around<'x>,
) -> Result<(), ScriptRefusal>
    requires { has step.now.id (seen scope.now) ≡ false }
    ensures { result ≡ step_verdict script.now scope.now depth step.now }
{
    match &step.form {
        StepForm::Do(expr) | StepForm::Keep(expr) => check_whole(expr, script, scope, step.id),
        StepForm::Let { value, .. } => check_whole(value, script, scope, step.id),
        StepForm::If(condition, then_block, else_block) => {
            check_depth(step.id, depth)?;
            check_whole(condition, script, scope, step.id)?;
            let own = Around::Step(step.id, scope);
            check_block(then_block.as_slice(), script, depth + 1, &own)?;
            let after = Around::Closed(then_block.as_slice(), &own);
            check_block(else_block.as_slice(), script, depth + 1, &after)
        }
        StepForm::Each {
            var,
            rows,
            body,
            ..
        } => {
            check_depth(step.id, depth)?;
            check_whole(rows, script, scope, step.id)?;
            let own = Around::Step(step.id, scope);
            let row = Around::Row(*var, &own);
            check_block(body.as_slice(), script, depth + 1, &row)
        }
        StepForm::Over { var, input, body } => {
            check_depth(step.id, depth)?;
            check_list(*input, script, step.id)?;
            let own = Around::Step(step.id, scope);
            let row = Around::Row(*var, &own);
            check_block(body.as_slice(), script, depth + 1, &row)
        }
    }
}

/// Whether the script is valid, else its first refusal in reading order: at each step first its number, then how deep its
/// blocks stand, then its expression from above, or its list, then its blocks. It takes no memory; it looks back for what was seen, so
/// its time is at most that of the square of the script's size.
pub fn valid(script: &Script) -> Result<(), ScriptRefusal>
    ensures { result ≡ verdict (mirror_script script.now) }
{
    check_block(script.body.as_slice(), script, 1, &Around::Root)
}
