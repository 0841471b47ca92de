// How a run ends.

ghost use Rattle.std.specs.Prelude.{◌≡◌, IfOk};
ghost use Rattle.rb_meaning.specs.Shown.{line, shown_result, shown_ending};
ghost use Rattle.rb_shown.specs.Appends.{Appends};
ghost use Rattle.rb_shown.specs.Texts.{WithinLength};

use crate::faults::add_fault;
use crate::literals::add_literal;
use crate::places::add_place;
use rb_trees::{Ending, Fault, Memory, Seq, Value, Word};
use std::alloc::Global;

// Adds that a run is done, with its value if it has one.
#[tactic(auto, using(crate::proofs::Pieces::pieces))]
fn add_done(alloc: Global, value: &Option<Value>, into: &mut Word) -> Result<(), Memory>
    ensures { Appends (shown_result value.now) into.old result into.new }
{
    into.extend_from_slice(b"done")?;
    match value {
        None => Ok(()),
        Some(value) => {
            into.push(b' ')?;
            add_literal(alloc, value, into)
        }
    }
}

// Adds a fault with its place in the program's text.
#[tactic(auto, using(crate::proofs::Pieces::pieces))]
fn add_faulted(
    alloc: Global,
    source: &[u8],
    fault: &Fault,
    at: u32,
    into: &mut Word,
) -> Result<(), Memory>
    requires { WithinLength source.now }
    ensures { Appends (shown_ending source.now (Ending.Faulted fault.now at)) into.old result into.new }
{
    into.extend_from_slice(b"fault ")?;
    add_fault(alloc, fault, into)?;
    into.extend_from_slice(b" at ")?;
    add_place(alloc, source, at, into)
}

fn add_ending(alloc: Global, source: &[u8], ending: &Ending, into: &mut Word) -> Result<(), Memory>
    requires { WithinLength source.now }
    ensures { Appends (shown_ending source.now ending.now) into.old result into.new }
{
    match ending {
        Ending::Done(value) => add_done(alloc, value, into),
        Ending::Faulted(fault, at) => add_faulted(alloc, source, fault, *at, into),
    }
}

/// The line that tells how a run ended: `shown_ending`. The places are those of the program's text.
#[tactic(auto, using(crate::proofs::Pieces::pieces))]
pub fn ending_line(alloc: Global, source: &[u8], ending: &Ending) -> Result<Word, Memory>
    requires { WithinLength source.now }
    ensures { IfOk result (λ text. text ≡ line (shown_ending source.now ending.now)) }
{
    let mut text = Seq::new(alloc);
    add_ending(alloc, source, ending, &mut text)?;
    text.push(b'\n')?;
    Ok(text)
}
