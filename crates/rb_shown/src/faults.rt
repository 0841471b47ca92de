// Faults by their codes and names.

ghost use Rattle.std.specs.Prelude.{◌≡◌, ◌==◌, ◌++◌, [], cond, codes};
ghost use Rattle.rb_meaning_code.specs.Faults.{fault_name};
ghost use Rattle.rb_meaning.specs.Shown.{text_literal, shown_fault};
ghost use Rattle.rb_shown.specs.Appends.{Appends};

use crate::primitives::{add_number, add_text};
use rb_trees::{Fault, Memory, Word};
use std::alloc::Global;

/// The code of the one fault that keeps a text.
const THROWN: u8 = 8;

// The name of a fault: `fault_name`.
fn name_of(fault: &Fault) -> &'static [u8]
    ensures { result.now ≡ fault_name fault.now }
{
    match fault.code {
        0 | 1 => b"DivZero",
        2 => b"Index",
        3 => b"TextTooLong",
        4 => b"ListTooLong",
        5 => b"HeapFull",
        6 => b"TooDeep",
        7 => b"FuelUsed",
        8 => b"Thrown",
        9 => b"NoMethod",
        10 => b"BadArguments",
        11 => b"WrongKind",
        12 => b"Kind",
        13 => b"InputTooLarge",
        _ => b"",
    }
}

// Adds the text that was thrown, and of another fault nothing.
#[tactic(auto, using(crate::proofs::Pieces::pieces))]
fn add_thrown(fault: &Fault, into: &mut Word) -> Result<(), Memory>
    ensures { Appends (cond (fault.now.code == 8) (codes " " ++ text_literal fault.now.text) []) into.old result into.new }
{
    if fault.code != THROWN {
        return Ok(());
    }
    into.push(b' ')?;
    add_text(fault.text.as_slice(), into)
}

/// Adds a fault's code and name, and the text that was thrown.
#[tactic(auto, using(crate::proofs::Pieces::pieces))]
pub fn add_fault(alloc: Global, fault: &Fault, into: &mut Word) -> Result<(), Memory>
    ensures { Appends (shown_fault fault.now) into.old result into.new }
{
    add_number(alloc, u64::from(fault.code), into)?;
    into.push(b' ')?;
    into.extend_from_slice(name_of(fault))?;
    add_thrown(fault, into)
}
