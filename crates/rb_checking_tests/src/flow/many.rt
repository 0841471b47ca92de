// A batch of many statements.

use crate::questions::{Question, add_told};
use crate::told::{add_number, expect};
use rb_trees::{Memory, Seq, Word};
use std::alloc::Global;
use std::test::Fail;

/// Adds the statements of a number from 1 on: a variable that is set from the one before, and one that is set from a
/// constant.
fn add_pair(alloc: Global, number: u32, into: &mut Word) -> Result<(), Memory> {
    add_number(alloc, "var a", number, into)?;
    add_number(alloc, " = a", number.saturating_sub(1), into)?;
    add_number(alloc, " + 1; val b", number, into)?;
    add_number(alloc, " = ", number, into)?;
    into.extend_from_slice(b"; ")
}

fn add_pairs(alloc: Global, into: &mut Word) -> Result<(), Memory> {
    for number in 1..5000u32 {
        add_pair(alloc, number, into)?;
    }
    Ok(())
}

/// Adds a batch of 10,000 statements: 5,000 variables, each set from the one before, further 4,999 that are
/// set from constants, and a send of the last of the former.
fn add_many(alloc: Global, into: &mut Word) -> Result<(), Memory> {
    into.extend_from_slice(
        b"interface D { fun size(): Int; fun grow(by: Int); } main { batch (D r) { var a0 = r.size(); ",
    )?;
    add_pairs(alloc, into)?;
    into.extend_from_slice(b"r.grow(a4999); } }")
}

/// Adds the number of the batch's refusal, and how long its chain is.
fn add_chain_told(alloc: Global, into: &mut Word) -> Result<(), Memory> {
    let mut text = Seq::new(alloc);
    add_many(alloc, &mut text)?;
    add_told(alloc, Question::Chain, text.as_slice(), 0, into)
}

#[test]
fn a_long_chain_is_found(rt: HostRuntime) -> Result<(), Fail> {
    let mut told = Seq::new(rt.alloc());
    add_chain_told(rt.alloc(), &mut told)?;
    expect("a long chain", told.as_slice(), "1 5002")
}
