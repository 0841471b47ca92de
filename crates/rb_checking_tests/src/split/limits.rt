// A batch with as many inputs as there may be, and with one more.

use crate::questions::{Question, add_told};
use crate::told::{add_number, expect};
use rb_trees::{Memory, Seq, Word};
use std::alloc::Global;
use std::test::Fail;

/// What is shown, a count of inputs, and the first eleven bytes of what is told.
static COUNTS: [(&str, u32, &str); 2] = [
    ("a batch has at most 255 inputs", 255, "0 a0 a1 a2 "),
    ("a batch of 256 inputs isn't divided", 256, "inputs 256"),
];

fn add_variable(alloc: Global, number: u32, into: &mut Word) -> Result<(), Memory> {
    add_number(alloc, "val a", number, into)?;
    add_number(alloc, " = ", number, into)?;
    into.extend_from_slice(b"; ")
}

fn add_variables(alloc: Global, count: u32, into: &mut Word) -> Result<(), Memory> {
    for number in 0..count {
        add_variable(alloc, number, into)?;
    }
    Ok(())
}

fn add_calls(alloc: Global, count: u32, into: &mut Word) -> Result<(), Memory> {
    for number in 0..count {
        add_number(alloc, "r.put(a", number, into)?;
        into.extend_from_slice(b"); r.put(a0); ")?;
    }
    Ok(())
}

/// Adds a program whose batch uses so many variables.
fn add_program(alloc: Global, count: u32, into: &mut Word) -> Result<(), Memory> {
    into.extend_from_slice(b"interface D { fun put(n: Int); } main { ")?;
    add_variables(alloc, count, into)?;
    into.extend_from_slice(b"batch (D r) { ")?;
    add_calls(alloc, count, into)?;
    into.extend_from_slice(b"} }")
}

/// Adds what is told of the divisions of such a program.
fn add_divisions(alloc: Global, count: u32, into: &mut Word) -> Result<(), Memory> {
    let mut text = Seq::new(alloc);
    add_program(alloc, count, &mut text)?;
    add_told(alloc, Question::Divisions, text.as_slice(), 0, into)
}

/// Fails where what is told of such a program begins otherwise than is wanted.
fn expect_front(alloc: Global, shown: &str, count: u32, wanted: &str) -> Result<(), Fail> {
    let mut told = Seq::new(alloc);
    add_divisions(alloc, count, &mut told)?;
    told.truncate(11);
    expect(shown, told.as_slice(), wanted)
}

#[test]
fn inputs_are_counted(rt: HostRuntime) -> Result<(), Fail> {
    for (shown, count, wanted) in COUNTS {
        expect_front(rt.alloc(), shown, count, wanted)?;
    }
    Ok(())
}
