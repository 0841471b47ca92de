// How steps end early.

ghost use Rattle.std.specs.Prelude.{◌≡◌};
ghost use Rattle.rb_exec.specs.Ends.{AtStep, StopsBy};

use rb_engine::Miss;
use rb_trees::{Boxed, Fault, Memory, NodeFault};
use std::alloc::Global;

/// Why steps end early: by a fault of their node, by one that stands within its last entry, or for want of memory. The fault is
/// boxed, so that what a step gives stays small.
#[derive(Drop)]
pub enum Stop {
    Fault(Boxed<NodeFault>),
    Within,
    Memory,
}

impl From<Memory> for Stop {
    ghost use Rattle.std.specs.Prelude.{◌≡◌};
    ghost use Rattle.rb_exec.specs.declared.ends.Stop.TheVariants as stop;

    ghost from_gives = { λ _ e. e ≡ stop.Memory };

    fn from(_want: Memory) -> Stop {
        Stop::Memory
    }
}

/// An end by a fault of the node, or for want of memory where the fault finds no room.
#[inline(never)]
pub fn stopped(alloc: Global, step: u32, at: u32, fault: Fault) -> Stop
    ensures { StopsBy (record { step = step; at = at; fault = fault }) result }
{
    match Boxed::new(alloc, NodeFault { step, at, fault }) {
        Ok(fault) => Stop::Fault(fault),
        Err(_) => Stop::Memory,
    }
}

/// What an expression gives to the step of a number.
#[inline(always)]
pub fn at_step<T>(alloc: Global, id: u32, outcome: Result<T, Miss>) -> Result<T, Stop>
    ensures { AtStep id outcome result }
{
    match outcome {
        Ok(value) => Ok(value),
        Err(Miss::Fault(at, fault)) => Err(stopped(alloc, id, at, fault.into_inner())),
        Err(Miss::Memory) => Err(Stop::Memory),
    }
}
