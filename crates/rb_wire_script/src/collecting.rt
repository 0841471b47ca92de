// The texts that a script and the values of its inputs use, each once, in order of first use.

ghost use Rattle.std.specs.Prelude.{◌≡◌, [], ◌∷◌, OnOk, IfOk};
ghost use Rattle.rb_trees.specs.mirror.Scripts.{mirror_script};
ghost use Rattle.rb_meaning_bytes.specs.formats.Pools.{with_texts};
ghost use Rattle.rb_meaning_bytes.specs.formats.ScriptBytes.{literal_texts, literals_texts, inputs_texts, pool_of};
ghost use Rattle.rb_wire_script.specs.Spelled.{with_expr, with_exprs, with_step, with_steps};

use crate::texts::Texts;
use rb_trees::{Invocation, Memory, Operands, SExpr, Script, Step, StepForm, Value, Version};
use std::alloc::Global;

/// The text of a value, if it is one.
#[tactic(auto, using(crate::proofs::Collected::values))]
fn note_value<'a>(texts: &mut Texts<'a>, value: &'a Value) -> Result<(), Memory>
    ensures { OnOk result (texts.new ≡ with_texts texts.old (literal_texts value.now)) }
{
    match value {
        Value::Text(text) => texts.note(text),
        _ => Ok(()),
    }
}

/// The texts among values.
#[tactic(auto, using(crate::proofs::Collected::texts))]
fn note_values<'a>(texts: &mut Texts<'a>, values: &'a [Value]) -> Result<(), Memory>
    ensures { OnOk result (texts.new ≡ with_texts texts.old (literals_texts values.now)) }
{
    for value in values {
        note_value(texts, value)?;
    }
    Ok(())
}

/// The texts of the value of an input.
#[tactic(auto, using(crate::proofs::Collected::values))]
fn note_input<'a>(texts: &mut Texts<'a>, value: &'a Value) -> Result<(), Memory>
    ensures { OnOk result (texts.new ≡ with_texts texts.old (inputs_texts (value.now ∷ []))) }
{
    match value {
        Value::List(items) => note_values(texts, items.get().as_slice()),
        _ => note_value(texts, value),
    }
}

/// The texts of the values of inputs.
#[tactic(auto, using(crate::proofs::Collected::texts))]
fn note_inputs<'a>(texts: &mut Texts<'a>, values: &'a [Value]) -> Result<(), Memory>
    ensures { OnOk result (texts.new ≡ with_texts texts.old (inputs_texts values.now)) }
{
    for value in values {
        note_input(texts, value)?;
    }
    Ok(())
}

/// The texts of an expression.
#[cycle(note_exprs)]
#[tactic(auto, using(crate::proofs::Collected::exprs))]
fn note_expr<'a>(texts: &mut Texts<'a>, e: &'a SExpr) -> Result<(), Memory>
    ensures { OnOk result (texts.new ≡ with_expr texts.old e.now) }
{
    match e {
        SExpr::Lit(value) => note_value(texts, value.get()),
        SExpr::Input(_) | SExpr::Var(_) | SExpr::Root => Ok(()),
        SExpr::Unary(_, _, a) => note_expr(texts, a.get()),
        SExpr::Binary(_, _, operands) => {
            let Operands { left, right } = operands.get();
            note_expr(texts, left)?;
            note_expr(texts, right)
        }
        SExpr::Call { call, .. } => {
            let Invocation {
                method,
                target,
                args,
            } = call.get();
            texts.note(method)?;
            note_expr(texts, target)?;
            note_exprs(texts, args.as_slice())
        }
    }
}

/// The texts of expressions.
#[cycle(note_exprs)]
#[tactic(auto, using(crate::proofs::Collected::texts))]
fn note_exprs<'a>(texts: &mut Texts<'a>, es: &'a [SExpr]) -> Result<(), Memory>
    ensures { OnOk result (texts.new ≡ with_exprs texts.old es.now) }
{
    for e in es {
        note_expr(texts, e)?;
    }
    Ok(())
}

/// The texts of a step.
#[cycle(note_steps)]
#[tactic(auto, using(crate::proofs::Collected::steps))]
fn note_step<'a>(texts: &mut Texts<'a>, step: &'a Step) -> Result<(), Memory>
    ensures { OnOk result (texts.new ≡ with_step texts.old step.now) }
{
    match &step.form {
        StepForm::Do(e) | StepForm::Keep(e) => note_expr(texts, e),
        StepForm::Let { value, .. } => note_expr(texts, value),
        StepForm::If(e, a, b) => {
            note_expr(texts, e)?;
            note_steps(texts, a.as_slice())?;
            note_steps(texts, b.as_slice())
        }
        StepForm::Each { rows, body, .. } => {
            note_expr(texts, rows)?;
            note_steps(texts, body.as_slice())
        }
        StepForm::Over { body, .. } => note_steps(texts, body.as_slice()),
    }
}

/// The texts of steps.
#[cycle(note_steps)]
#[tactic(auto, using(crate::proofs::Collected::texts))]
fn note_steps<'a>(texts: &mut Texts<'a>, steps: &'a [Step]) -> Result<(), Memory>
    ensures { OnOk result (texts.new ≡ with_steps texts.old steps.now) }
{
    for step in steps {
        note_step(texts, step)?;
    }
    Ok(())
}

/// The texts of the pool, by the version.
#[tactic(auto, using(crate::proofs::Collected::texts))]
pub(crate) fn collected<'a>(
    alloc: Global,
    version: Version,
    script: &'a Script,
    values: &'a [Value],
) -> Result<Texts<'a>, Memory>
    ensures { IfOk result (λ texts. texts ≡ pool_of version (mirror_script script.now) values.now) }
{
    let mut texts = Texts::new(alloc);
    match version {
        Version::One => {}
        Version::Two => {
            note_inputs(&mut texts, values)?;
            note_steps(&mut texts, script.body.as_slice())?;
        }
    }
    Ok(texts)
}
