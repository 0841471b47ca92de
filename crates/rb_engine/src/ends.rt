// How code ends early.

ghost use Rattle.std.specs.Prelude.{◌≡◌};
ghost use Rattle.rb_meaning_code.specs.Faults.{raised};
ghost use Rattle.rb_engine.specs.Ends.{EndsBy, StopsBy, Lifts, Flattens, flattened};

use crate::faults::PlainFault;
use crate::world::{Halt, RunResult};
use rb_trees::{Boxed, Memory, Raised};
use std::alloc::Global;

/// Why a rule gives no value: it says a fault, or memory ran out.
#[derive(Drop)]
pub enum Failure {
    Fault(PlainFault),
    Memory,
}

impl From<Memory> for Failure {
    ghost use Rattle.std.specs.Prelude.{◌≡◌};
    ghost use Rattle.rb_engine.specs.declared.ends.Failure.TheVariants as failure;

    ghost from_gives = { λ _ e. e ≡ failure.Memory };

    fn from(_want: Memory) -> Failure {
        Failure::Memory
    }
}

/// How code ends early: by a fault at a position, for want of memory, or because its World cuts the run off. Faults and stops
/// are boxed, so that what code gives stays small.
#[derive(Drop)]
pub enum End<X> {
    Raised(Boxed<Raised>),
    NoMemory,
    Stopped(Boxed<X>),
}

/// How code ends by a fault, or for want of memory where the fault finds no room.
#[inline(never)]
pub fn raise<X>(alloc: Global, raised: Raised) -> End<X>
    ensures { EndsBy raised result }
{
    match Boxed::new(alloc, raised) {
        Ok(raised) => End::Raised(raised),
        Err(_) => End::NoMemory,
    }
}

// How code ends by a fault without a text, at a position.
#[inline(never)]
fn raise_plain<X>(at: u32, fault: PlainFault) -> End<X>
    ensures { EndsBy (raised fault at) result }
{
    let alloc = fault.alloc();
    let fault = fault.into_fault();
    raise(
        alloc,
        Raised {
            fault,
            at,
            remote: false,
        },
    )
}

// How code ends where its World cuts the run off, or for want of memory where the reason finds no room.
#[inline(never)]
fn stop<X: Drop>(alloc: Global, reason: X) -> End<X>
    ensures { StopsBy reason result }
{
    match Boxed::new(alloc, reason) {
        Ok(reason) => End::Stopped(reason),
        Err(_) => End::NoMemory,
    }
}

/// What a rule at a position gives to code.
#[inline]
pub fn lift<T, X>(at: u32, outcome: Result<T, Failure>) -> Result<T, End<X>>
    ensures { Lifts at outcome result }
{
    match outcome {
        Ok(value) => Ok(value),
        Err(Failure::Fault(fault)) => Err(raise_plain(at, fault)),
        Err(Failure::Memory) => Err(End::NoMemory),
    }
}

/// A step with its kinds of end as one.
#[inline]
pub fn flat<T, X: Drop>(alloc: Global, step: RunResult<T, X>) -> Result<T, End<X>>
    ensures { Flattens step result }
{
    match step {
        Ok(Ok(value)) => Ok(value),
        Ok(Err(raised)) => Err(raise(alloc, raised)),
        Err(Halt::Memory) => Err(End::NoMemory),
        Err(Halt::World(reason)) => Err(stop(alloc, reason)),
    }
}

/// The kinds of end apart.
pub fn step_of<T, X>(outcome: Result<T, End<X>>) -> RunResult<T, X>
    ensures { flattened result ≡ outcome }
{
    match outcome {
        Ok(value) => Ok(Ok(value)),
        Err(End::Raised(raised)) => Ok(Err(raised.into_inner())),
        Err(End::NoMemory) => Err(Halt::Memory),
        Err(End::Stopped(reason)) => Err(Halt::World(reason.into_inner())),
    }
}
