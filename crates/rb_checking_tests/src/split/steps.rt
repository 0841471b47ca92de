// Scripts as texts.
//
// A step is its number, its form and its expression, as `3 let v0! r.file(i0,L)`, where `!` says that its value is kept. An input
// is `i0`, a variable `v0`, the root `r`, and a literal `L`. Before a call's name stands its kind.

use crate::told::add_number;
use rb_trees::{Invocation, Memory, Operands, SExpr, Seq, Step, StepForm, Word};
use std::alloc::Global;

#[cycle(shown)]
fn add_expr(alloc: Global, e: &SExpr, into: &mut Word) -> Result<(), Memory> {
    match e {
        SExpr::Lit(_) => into.push(b'L'),
        SExpr::Input(number) => add_number(alloc, "i", u32::from(*number), into),
        SExpr::Var(number) => add_number(alloc, "v", *number, into),
        SExpr::Root => into.push(b'r'),
        SExpr::Unary(_, _, a) => {
            into.push(b'~')?;
            add_expr(alloc, a.get(), into)
        }
        SExpr::Binary(_, _, operands) => {
            let Operands { left, right } = operands.get();
            add_expr(alloc, left, into)?;
            into.push(b'+')?;
            add_expr(alloc, right, into)
        }
        SExpr::Call { kind, call, .. } => {
            let Invocation {
                method,
                target,
                args,
            } = call.get();
            add_expr(alloc, target, into)?;
            add_number(alloc, ".", u32::from(*kind), into)?;
            into.extend_from_slice(method.get().as_slice())?;
            add_exprs(alloc, args, into)
        }
    }
}

#[cycle(shown)]
fn add_exprs(alloc: Global, es: &Seq<SExpr>, into: &mut Word) -> Result<(), Memory> {
    into.push(b'(')?;
    for e in es.as_slice() {
        add_expr(alloc, e, into)?;
        into.push(b',')?;
    }
    into.push(b')')
}

/// Adds an expression behind the name of its step's form.
fn add_valued(alloc: Global, form: &[u8], e: &SExpr, into: &mut Word) -> Result<(), Memory> {
    into.extend_from_slice(form)?;
    add_expr(alloc, e, into)
}

/// Adds a variable behind the name of its step's form, with `!` if its value is kept, and the expression.
fn add_bound(
    alloc: Global,
    form: &str,
    var: u32,
    keep: bool,
    e: &SExpr,
    into: &mut Word,
) -> Result<(), Memory> {
    add_number(alloc, form, var, into)?;
    let behind: &[u8] = if keep { b"! " } else { b" " };
    add_valued(alloc, behind, e, into)
}

/// Adds a step's form but for its blocks.
fn add_head(alloc: Global, form: &StepForm, into: &mut Word) -> Result<(), Memory> {
    match form {
        StepForm::Do(e) => add_valued(alloc, b" do ", e, into),
        StepForm::Keep(e) => add_valued(alloc, b" keep ", e, into),
        StepForm::Let { var, keep, value } => {
            add_bound(alloc, " let v", *var, *keep, value, into)
        }
        StepForm::If(condition, _, _) => add_valued(alloc, b" if ", condition, into),
        StepForm::Each {
            var,
            keep,
            rows,
            ..
        } => add_bound(alloc, " each v", *var, *keep, rows, into),
        StepForm::Over { var, input, .. } => {
            add_number(alloc, " over v", *var, into)?;
            add_number(alloc, " in", u32::from(*input), into)
        }
    }
}

#[cycle(steps)]
fn add_blocks(alloc: Global, form: &StepForm, into: &mut Word) -> Result<(), Memory> {
    match form {
        StepForm::If(_, yes, no) => {
            add_steps(alloc, yes, into)?;
            add_steps(alloc, no, into)
        }
        StepForm::Each { body, .. } | StepForm::Over { body, .. } => add_steps(alloc, body, into),
        _ => Ok(()),
    }
}

/// Adds the text of a block.
#[cycle(steps)]
pub fn add_steps(alloc: Global, steps: &Seq<Step>, into: &mut Word) -> Result<(), Memory> {
    into.push(b'{')?;
    for step in steps.as_slice() {
        add_number(alloc, "", step.id, into)?;
        add_head(alloc, &step.form, into)?;
        add_blocks(alloc, &step.form, into)?;
        into.push(b';')?;
    }
    into.push(b'}')
}
