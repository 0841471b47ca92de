// Laws of typed code in its surroundings.

ghost use Rattle.rb_meaning_code.specs.Leads.{leads};
ghost use Rattle.rb_law_types.specs.Around.{TypesKeepHandled, BatchesKeepHandled, TypesKeepLed, BatchesKeepLed};

use rb_meaning_code::Surroundings;

/// A fact of the states of a handler, as long as which its answers fit.
pub trait StateFact<S> {
    ghost holds: { S → Type 0 };
}

/// Surroundings with a fact of them, as long as which their answers fit.
pub trait FittingSurroundings: Surroundings {
    ghost fit: { Self → Type 0 };
}

/// Under a handler whose answers fit, typed code ends as its types say, and the fact still holds.
pub fn handled_code_keeps_types<S, F: StateFact<S>>()
    ensures own { TypesKeepHandled F.holds }
    ensures batches { BatchesKeepHandled F.holds }
{}

/// So it does where surroundings lead whose answers fit.
pub fn led_code_keeps_types<W: FittingSurroundings>()
    ensures own { TypesKeepLed W.fit (leads W.Surroundings) }
    ensures batches { BatchesKeepLed W.fit (leads W.Surroundings) }
{}
