// The steps of scripts, each on a line of its own, with two more spaces in each block.

ghost use Rattle.std.specs.Prelude.{◌++◌};
ghost use Rattle.rb_trees.specs.mirror.Scripts.{mirror_sexpr, mirror_step, mirror_steps};
ghost use Rattle.rb_meaning.specs.Shown.{line};
ghost use Rattle.rb_shown.specs.Appends.{Appends};
ghost use Rattle.rb_shown.specs.Views.{shown_sexpr, shown_keep, step_front, sent_line, binding_front, over_line, shown_step, shown_steps, block_lines, else_block_lines};

use super::expressions::{add_input, add_sexpr, add_variable};
use crate::primitives::add_number;
use rb_trees::{Memory, SExpr, Step, StepForm, Word, two_more};
use std::alloc::Global;

// Adds the front of a step's line: spaces, its number and a word.
#[tactic(auto, using(crate::proofs::Pieces::pieces))]
fn add_front(
    alloc: Global,
    indent: &[u8],
    id: u32,
    word: &[u8],
    into: &mut Word,
) -> Result<(), Memory>
    ensures { Appends (step_front indent.now id word.now) into.old result into.new }
{
    into.extend_from_slice(indent)?;
    add_number(alloc, u64::from(id), into)?;
    into.push(b' ')?;
    into.extend_from_slice(word)
}

// Adds the line of a step that is a word and an expression.
#[tactic(auto, using(crate::proofs::Pieces::pieces))]
fn add_sent(
    alloc: Global,
    indent: &[u8],
    id: u32,
    word: &[u8],
    expr: &SExpr,
    into: &mut Word,
) -> Result<(), Memory>
    ensures { Appends (sent_line indent.now id word.now (mirror_sexpr expr.now)) into.old result into.new }
{
    add_front(alloc, indent, id, word, into)?;
    add_sexpr(alloc, expr, into)?;
    into.push(b'\n')
}

// Adds that a variable is kept, where it is.
fn add_keep(keep: bool, into: &mut Word) -> Result<(), Memory>
    ensures { Appends (shown_keep keep) into.old result into.new }
{
    if keep {
        into.extend_from_slice(b" keep")
    } else {
        Ok(())
    }
}

// Adds the front of the line of a step that binds a variable.
#[tactic(auto, using(crate::proofs::Pieces::pieces))]
fn add_binding(
    alloc: Global,
    indent: &[u8],
    id: u32,
    word: &[u8],
    var: u32,
    keep: bool,
    into: &mut Word,
) -> Result<(), Memory>
    ensures { Appends (binding_front indent.now id word.now var keep) into.old result into.new }
{
    add_front(alloc, indent, id, word, into)?;
    add_variable(alloc, var, into)?;
    add_keep(keep, into)
}

// Adds what the variable is bound to behind a word, up to the end of the line.
#[tactic(auto, using(crate::proofs::Pieces::pieces))]
fn add_value(alloc: Global, behind: &[u8], expr: &SExpr, into: &mut Word) -> Result<(), Memory>
    ensures { Appends (behind.now ++ line (shown_sexpr (mirror_sexpr expr.now))) into.old result into.new }
{
    into.extend_from_slice(behind)?;
    add_sexpr(alloc, expr, into)?;
    into.push(b'\n')
}

// Adds the line of an Over.
#[tactic(auto, using(crate::proofs::Pieces::pieces))]
fn add_over(
    alloc: Global,
    indent: &[u8],
    id: u32,
    var: u32,
    input: u8,
    into: &mut Word,
) -> Result<(), Memory>
    ensures { Appends (over_line indent.now id var input) into.old result into.new }
{
    add_front(alloc, indent, id, b"over ", into)?;
    add_variable(alloc, var, into)?;
    into.extend_from_slice(b" in ")?;
    add_input(alloc, input, into)?;
    into.push(b'\n')
}

// Adds a step with its blocks.
#[cycle(steps)]
#[tactic(auto, using(crate::proofs::ViewForms::steps))]
fn add_step(alloc: Global, indent: &[u8], step: &Step, into: &mut Word) -> Result<(), Memory>
    ensures { Appends (shown_step indent.now (mirror_step step.now)) into.old result into.new }
{
    let id = step.id;
    match &step.form {
        StepForm::Do(expr) => add_sent(alloc, indent, id, b"do ", expr, into),
        StepForm::Keep(expr) => add_sent(alloc, indent, id, b"keep ", expr, into),
        StepForm::Let { var, keep, value } => {
            add_binding(alloc, indent, id, b"let ", *var, *keep, into)?;
            add_value(alloc, b" = ", value, into)
        }
        StepForm::If(condition, yes, no) => {
            add_sent(alloc, indent, id, b"if ", condition, into)?;
            add_block(alloc, indent, yes.as_slice(), into)?;
            add_else(alloc, indent, no.as_slice(), into)
        }
        StepForm::Each {
            var,
            keep,
            rows,
            body,
        } => {
            add_binding(alloc, indent, id, b"each ", *var, *keep, into)?;
            add_value(alloc, b" in ", rows, into)?;
            add_block(alloc, indent, body.as_slice(), into)
        }
        StepForm::Over { var, input, body } => {
            add_over(alloc, indent, id, *var, *input, into)?;
            add_block(alloc, indent, body.as_slice(), into)
        }
    }
}

/// Adds steps in order.
#[cycle(steps)]
#[tactic(auto, using(crate::proofs::ViewForms::steps))]
pub fn add_steps(
    alloc: Global,
    indent: &[u8],
    steps: &[Step],
    into: &mut Word,
) -> Result<(), Memory>
    ensures { Appends (shown_steps indent.now (mirror_steps steps.now)) into.old result into.new }
{
    for step in steps {
        add_step(alloc, indent, step, into)?;
    }
    Ok(())
}

// Adds the steps of a block.
#[cycle(steps)]
#[tactic(auto, using(crate::proofs::ViewForms::steps))]
fn add_block(alloc: Global, indent: &[u8], block: &[Step], into: &mut Word) -> Result<(), Memory>
    ensures { Appends (block_lines indent.now (mirror_steps block.now)) into.old result into.new }
{
    let spaces = two_more(alloc, indent)?;
    add_steps(alloc, spaces.as_slice(), block, into)
}

// Adds the second block of an `if` behind its word, where it isn't empty.
#[cycle(steps)]
#[tactic(auto, using(crate::proofs::ViewForms::steps))]
fn add_else(alloc: Global, indent: &[u8], block: &[Step], into: &mut Word) -> Result<(), Memory>
    ensures { Appends (else_block_lines indent.now (mirror_steps block.now)) into.old result into.new }
{
    if block.is_empty() {
        return Ok(());
    }
    into.extend_from_slice(indent)?;
    into.extend_from_slice(b"else\n")?;
    add_block(alloc, indent, block, into)
}
