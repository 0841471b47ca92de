// Units of fuel and active calls.

ghost use Rattle.rb_trees.specs.Outcome.{Gives};
ghost use Rattle.rb_meaning_code.specs.Calls.{unit_due, call_fits};
ghost use Rattle.rb_engine.specs.Ends.{fault_of};

use crate::ends::Failure;
use crate::faults::{fuel_used, too_deep};
use std::alloc::Global;

/// The greatest number of calls of one side that are active within each other.
const DEEPEST_CALL: u32 = 32;

/// Whether there is a unit of fuel, which is due: `unit_due`.
#[inline]
pub fn check_unit(alloc: Global, fuel: u64) -> Result<(), Failure>
    ensures { Gives (λ u. u) fault_of result (unit_due fuel) }
{
    if fuel == 0 {
        return Err(fuel_used(alloc));
    }
    Ok(())
}

/// Whether one call more may be active: `call_fits`.
#[inline]
pub fn check_depth(alloc: Global, depth: u32) -> Result<(), Failure>
    ensures { Gives (λ u. u) fault_of result (call_fits depth) }
{
    if depth >= DEEPEST_CALL {
        return Err(too_deep(alloc));
    }
    Ok(())
}
