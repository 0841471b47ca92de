// The parts of remainders, as the statements for which they stand, with two more spaces in each block.

ghost use Rattle.std.specs.Prelude.{◌++◌, codes};
ghost use Rattle.rb_trees.specs.mirror.Code.{mirror_expr};
ghost use Rattle.rb_trees.specs.mirror.Remainders.{mirror_part, mirror_parts};
ghost use Rattle.rb_shown.specs.Appends.{Appends};
ghost use Rattle.rb_shown.specs.Views.{shown_taken, pass_line, bind_line, both_line, branch_line, turns_line, list_turns_line, closing_line};
ghost use Rattle.rb_shown.specs.Views.{shown_part, shown_parts, inner_lines, ending_block_lines};

use crate::primitives::add_number;
use rb_trees::{Expr, Memory, Part, Word, print_expr, print_stmt, two_more};
use std::alloc::Global;

// Adds the value that a step kept.
#[tactic(auto, using(crate::proofs::Pieces::pieces))]
fn add_taken(alloc: Global, step: u32, into: &mut Word) -> Result<(), Memory>
    ensures { Appends (shown_taken step) into.old result into.new }
{
    into.push(b'<')?;
    add_number(alloc, u64::from(step), into)?;
    into.push(b'>')
}

// Adds the line of a step that gives nothing.
#[tactic(auto, using(crate::proofs::Pieces::pieces))]
fn add_pass(alloc: Global, indent: &[u8], step: u32, into: &mut Word) -> Result<(), Memory>
    ensures { Appends (pass_line indent.now step) into.old result into.new }
{
    into.extend_from_slice(indent)?;
    into.extend_from_slice(b"pass ")?;
    add_taken(alloc, step, into)?;
    into.extend_from_slice(b";\n")
}

// Adds the front of a line that binds a name.
#[tactic(auto, using(crate::proofs::Pieces::pieces))]
fn add_named(indent: &[u8], name: &Word, into: &mut Word) -> Result<(), Memory>
    ensures { Appends (indent.now ++ codes "val " ++ name.now ++ codes " = ") into.old result into.new }
{
    into.extend_from_slice(indent)?;
    into.extend_from_slice(b"val ")?;
    into.extend_from_slice(name.as_slice())?;
    into.extend_from_slice(b" = ")
}

// Adds the line of a name that is bound to a kept value.
#[tactic(auto, using(crate::proofs::Pieces::pieces))]
fn add_bind(
    alloc: Global,
    indent: &[u8],
    name: &Word,
    step: u32,
    into: &mut Word,
) -> Result<(), Memory>
    ensures { Appends (bind_line indent.now name.now step) into.old result into.new }
{
    add_named(indent, name, into)?;
    add_taken(alloc, step, into)?;
    into.extend_from_slice(b";\n")
}

// Adds the line of a name that is bound to a value of both sides.
#[tactic(auto, using(crate::proofs::Pieces::pieces))]
fn add_both(
    alloc: Global,
    indent: &[u8],
    name: &Word,
    value: &Expr,
    step: u32,
    into: &mut Word,
) -> Result<(), Memory>
    ensures { Appends (both_line indent.now name.now (mirror_expr value.now) step) into.old result into.new }
{
    add_named(indent, name, into)?;
    print_expr(alloc, value, into)?;
    into.extend_from_slice(b"; // ")?;
    add_taken(alloc, step, into)?;
    into.push(b'\n')
}

// Adds the line that opens a branch.
#[tactic(auto, using(crate::proofs::Pieces::pieces))]
fn add_branch(alloc: Global, indent: &[u8], step: u32, into: &mut Word) -> Result<(), Memory>
    ensures { Appends (branch_line indent.now step) into.old result into.new }
{
    into.extend_from_slice(indent)?;
    into.extend_from_slice(b"if ")?;
    add_taken(alloc, step, into)?;
    into.extend_from_slice(b" {\n")
}

// Adds the line that opens turns.
#[tactic(auto, using(crate::proofs::Pieces::pieces))]
fn add_turns(
    alloc: Global,
    indent: &[u8],
    name: &Word,
    step: u32,
    into: &mut Word,
) -> Result<(), Memory>
    ensures { Appends (turns_line indent.now name.now step) into.old result into.new }
{
    into.extend_from_slice(indent)?;
    into.extend_from_slice(b"for ")?;
    into.extend_from_slice(name.as_slice())?;
    into.extend_from_slice(b" in ")?;
    add_taken(alloc, step, into)?;
    into.extend_from_slice(b" {\n")
}

// Adds the line that opens turns over the items of a list.
#[tactic(auto, using(crate::proofs::Pieces::pieces))]
fn add_list_turns(
    alloc: Global,
    indent: &[u8],
    name: &Word,
    list: &Word,
    step: u32,
    into: &mut Word,
) -> Result<(), Memory>
    ensures { Appends (list_turns_line indent.now name.now list.now step) into.old result into.new }
{
    into.extend_from_slice(indent)?;
    into.extend_from_slice(b"for ")?;
    into.extend_from_slice(name.as_slice())?;
    into.extend_from_slice(b" in ")?;
    into.extend_from_slice(list.as_slice())?;
    into.push(b' ')?;
    add_taken(alloc, step, into)?;
    into.extend_from_slice(b" {\n")
}

// Adds the line that closes a block.
#[tactic(auto, using(crate::proofs::Pieces::pieces))]
fn add_closing(indent: &[u8], into: &mut Word) -> Result<(), Memory>
    ensures { Appends (closing_line indent.now) into.old result into.new }
{
    into.extend_from_slice(indent)?;
    into.extend_from_slice(b"}\n")
}

// Adds a part with its blocks.
#[cycle(parts)]
#[tactic(auto, using(crate::proofs::ViewForms::parts))]
fn add_part(alloc: Global, indent: &[u8], part: &Part, into: &mut Word) -> Result<(), Memory>
    ensures { Appends (shown_part indent.now (mirror_part part.now)) into.old result into.new }
{
    match part {
        Part::Plain(stmt, _) => print_stmt(alloc, indent, stmt, into),
        Part::Pass(step) => add_pass(alloc, indent, *step, into),
        Part::Bind { step, name, .. } => add_bind(alloc, indent, name, *step, into),
        Part::Both {
            step,
            name,
            value,
            ..
        } => add_both(alloc, indent, name, value, *step, into),
        Part::Branch { step, yes, no } => {
            add_branch(alloc, indent, *step, into)?;
            add_inner(alloc, indent, yes.as_slice(), into)?;
            add_ending(alloc, indent, no.as_slice(), into)
        }
        Part::Turns {
            step,
            name,
            body,
            ..
        } => {
            add_turns(alloc, indent, name, *step, into)?;
            add_inner(alloc, indent, body.as_slice(), into)?;
            add_closing(indent, into)
        }
        Part::Over {
            step,
            name,
            list,
            body,
            ..
        } => {
            add_list_turns(alloc, indent, name, list, *step, into)?;
            add_inner(alloc, indent, body.as_slice(), into)?;
            add_closing(indent, into)
        }
    }
}

/// Adds parts in order.
#[cycle(parts)]
#[tactic(auto, using(crate::proofs::ViewForms::parts))]
pub fn add_parts(
    alloc: Global,
    indent: &[u8],
    parts: &[Part],
    into: &mut Word,
) -> Result<(), Memory>
    ensures { Appends (shown_parts indent.now (mirror_parts parts.now)) into.old result into.new }
{
    for part in parts {
        add_part(alloc, indent, part, into)?;
    }
    Ok(())
}

// Adds the parts of a block.
#[cycle(parts)]
#[tactic(auto, using(crate::proofs::ViewForms::parts))]
fn add_inner(alloc: Global, indent: &[u8], block: &[Part], into: &mut Word) -> Result<(), Memory>
    ensures { Appends (inner_lines indent.now (mirror_parts block.now)) into.old result into.new }
{
    let spaces = two_more(alloc, indent)?;
    add_parts(alloc, spaces.as_slice(), block, into)
}

// Adds the end of a branch, whose second block isn't shown where it is empty.
#[cycle(parts)]
#[tactic(auto, using(crate::proofs::ViewForms::parts))]
fn add_ending(alloc: Global, indent: &[u8], block: &[Part], into: &mut Word) -> Result<(), Memory>
    ensures { Appends (ending_block_lines indent.now (mirror_parts block.now)) into.old result into.new }
{
    if block.is_empty() {
        return add_closing(indent, into);
    }
    into.extend_from_slice(indent)?;
    into.extend_from_slice(b"} else {\n")?;
    add_inner(alloc, indent, block, into)?;
    add_closing(indent, into)
}
