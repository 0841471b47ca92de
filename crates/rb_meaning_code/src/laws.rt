// Laws of class code. They take no memory and do nothing.

ghost use Rattle.rb_meaning_code.specs.Dialogue.{Handler};
ghost use Rattle.rb_meaning_code.specs.Laws.{IsReflexive, IsTransitive, OfCode, LeavesLater, SameWithinMoreGas, BatchesLeaveLater, BatchesKeepFuel, HandledLater, HandledSameWithinMoreGas};
ghost use Rattle.rb_meaning_code.specs.Led.{LedBatchesLeaveLater, LedBatchesKeepFuel, LedLater, LedSameWithinMoreGas, RunsEndAsHandled, RunsAreCutAsHandled, RestsEndAsWhole};
ghost use Rattle.rb_meaning_code.specs.Leads.{leads};

use crate::surroundings::{SeenAs, Surroundings};

/// A local state is later than itself, and what is later than a later one is later.
pub fn later_is_an_order()
    ensures reflexive { IsReflexive }
    ensures transitive { IsTransitive }
{}

/// Code leaves only later local states: fuel never rises, heaps only grow, and as many calls are active as before.
pub fn code_leaves_later_states()
    ensures { OfCode LeavesLater }
{}

/// Under a handler whose batches leave later local states, code leaves only those too.
pub fn handled_code_leaves_later_states<S>()
    ensures { (h : Handler S) → BatchesLeaveLater h → OfCode (HandledLater h) }
{}

/// Where surroundings lead whose batches leave later local states, code leaves only those too.
pub fn led_code_leaves_later_states<W: Surroundings>()
    ensures { LedBatchesLeaveLater (leads W.Surroundings) → OfCode (LedLater (leads W.Surroundings)) }
{}

/// Within each gas that is at least the fuel, code is the same run.
pub fn more_gas_is_the_same_run()
    ensures { OfCode SameWithinMoreGas }
{}

/// Under a handler whose batches keep fuel, code ends alike within each gas that is at least the fuel.
pub fn more_gas_is_handled_the_same<S>()
    ensures { (h : Handler S) → BatchesKeepFuel h → OfCode (HandledSameWithinMoreGas h) }
{}

/// Surroundings whose batches keep fuel lead code alike within each gas that is at least the fuel.
pub fn more_gas_is_led_the_same<W: Surroundings>()
    ensures { LedBatchesKeepFuel (leads W.Surroundings) → OfCode (LedSameWithinMoreGas (leads W.Surroundings)) }
{}

/// Under a handler that answers as surroundings do, where they are seen as its state, each run ends as they lead it,
/// and passes what they cut off; what is left of it there ends as the whole.
pub fn led_runs_are_handled<W: SeenAs<S>, S, A>()
    ensures ended { RunsEndAsHandled W.sees (leads W.Surroundings) A }
    ensures cut { RunsAreCutAsHandled W.sees (leads W.Surroundings) A }
    ensures rest { RestsEndAsWhole S A }
{}
