// What surroundings of running code are to the laws.

ghost use Rattle.std.specs.Prelude.{ℕ, Result};
ghost use Rattle.rb_trees.specs.declared.values.Value.{Value};
ghost use Rattle.rb_trees.specs.declared.outcomes.Raised.{Raised};
ghost use Rattle.rb_meaning_code.specs.State.{Local};
ghost use Rattle.rb_meaning_code.specs.Dialogue.{Question, Outcome};

/// Surroundings of running code, by what they may answer. They may choose: `answers` relates what they were, what is
/// asked, the answer, and what they are then, and `performs` the same of a batch. An answer that isn't Ok cuts the run
/// off.
pub trait Surroundings {
    /// Why they cut a run off.
    type Stop;

    ghost answers: { Self → Question → Result (Result Value Raised) Self.Stop → Self → Type 0 };

    ghost performs: { Self → ℕ → Local → Result (Outcome (Unit {0})) Self.Stop → Self → Type 0 };
}

/// Surroundings that are seen as the state of a handler, as far as `sees` holds of both.
pub trait SeenAs<S>: Surroundings {
    ghost sees: { Self → S → Type 0 };
}
