// Divisions as texts.

use crate::split::parts::add_parts;
use crate::split::steps::add_steps;
use crate::told::add_number;
use rb_flow::Admitted;
use rb_split::{SplitStop, split_all};
use rb_trees::{Memory, Refusal, Split, Word};
use std::alloc::Global;

/// Adds the names of the inputs, where `[]` stands behind that of a list.
fn add_inputs(division: &Split, into: &mut Word) -> Result<(), Memory> {
    let mut number = 0u8;
    for name in division.inputs.as_slice() {
        into.push(b' ')?;
        into.extend_from_slice(name.as_slice())?;
        if division.script.lists.as_slice().contains(&number) {
            into.extend_from_slice(b"[]")?;
        }
        number = number.wrapping_add(1);
    }
    Ok(())
}

fn add_division(alloc: Global, division: &Split, into: &mut Word) -> Result<(), Memory> {
    add_number(alloc, "", division.batch, into)?;
    add_inputs(division, into)?;
    into.push(b' ')?;
    add_steps(alloc, &division.script.body, into)?;
    into.push(b' ')?;
    add_parts(alloc, &division.remainder, into)
}

fn add_divisions(alloc: Global, divisions: &[Split], into: &mut Word) -> Result<(), Memory> {
    for division in divisions {
        add_division(alloc, division, into)?;
        into.push(b'\n')?;
    }
    Ok(())
}

fn add_refusal(alloc: Global, refusal: &Refusal, into: &mut Word) -> Result<(), Memory> {
    match refusal {
        Refusal::TooManyInputs(_, count) => add_number(alloc, "inputs ", *count, into),
        _ => into.push(b'?'),
    }
}

/// Adds the divisions of a program's batches, a line each, or why they aren't divided.
pub fn add_divided(alloc: Global, admitted: &Admitted<'_>, into: &mut Word) -> Result<(), Memory> {
    match split_all(alloc, admitted) {
        Ok(divisions) => add_divisions(alloc, divisions.as_slice(), into),
        Err(SplitStop::Refused(refusal)) => add_refusal(alloc, &refusal, into),
        Err(SplitStop::Memory) => Err(Memory),
    }
}
