// How expressions end early whose faults stand at positions.

ghost use Rattle.std.specs.Prelude.{◌≡◌};
ghost use Rattle.rb_engine.specs.Misses.{AtPlace, MissesBy};

use crate::ends::Failure;
use crate::faults::PlainFault;
use rb_trees::{Boxed, Fault, Memory};
use std::alloc::Global;

/// Why an expression gives no value: by a fault at a position, or for want of memory. The fault is boxed, so that what an
/// expression gives stays small.
#[derive(Drop)]
pub enum Miss {
    Fault(u32, Boxed<Fault>),
    Memory,
}

impl From<Memory> for Miss {
    ghost use Rattle.std.specs.Prelude.{◌≡◌};
    ghost use Rattle.rb_engine.specs.declared.misses.Miss.TheVariants as miss;

    ghost from_gives = { λ _ e. e ≡ miss.Memory };

    fn from(_want: Memory) -> Miss {
        Miss::Memory
    }
}

/// A miss by a fault at a position, or for want of memory where the fault finds no room.
#[inline(never)]
pub fn missed(alloc: Global, at: u32, fault: Fault) -> Miss
    ensures { MissesBy at fault result }
{
    match Boxed::new(alloc, fault) {
        Ok(fault) => Miss::Fault(at, fault),
        Err(_) => Miss::Memory,
    }
}

// A miss by a fault without a text.
#[inline(never)]
fn missed_plainly(at: u32, fault: PlainFault) -> Miss
    ensures { MissesBy at fault result }
{
    let alloc = fault.alloc();
    missed(alloc, at, fault.into_fault())
}

/// What a rule gives at a position.
#[inline(always)]
pub fn at_place<T>(at: u32, outcome: Result<T, Failure>) -> Result<T, Miss>
    ensures { AtPlace at outcome result }
{
    match outcome {
        Ok(value) => Ok(value),
        Err(Failure::Fault(fault)) => Err(missed_plainly(at, fault)),
        Err(Failure::Memory) => Err(Miss::Memory),
    }
}
