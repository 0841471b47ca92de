// What code asks of its surroundings.

ghost use Rattle.std.specs.Prelude.{◌≡◌, ◌≤◌, ℕ, Result};
ghost use Rattle.rb_trees.specs.declared.values.Value as value;
ghost use Rattle.rb_meaning_code.specs.State.{Local};
ghost use Rattle.rb_meaning_code.specs.Dialogue.{Question, Line, Taken, Invoke, Turn, ListTurn, Outcome};
ghost use Rattle.rb_engine.specs.Answers.{Answer, Performed, Answered, as_value, performed};
ghost use Rattle.rb_engine.specs.Locals.{local};

use crate::frame::Frame;
use crate::state::State;
use rb_trees::{Raised, Seq, Value};

/// A run that was cut off: for want of memory, or by its World.
#[derive(Drop)]
pub enum Halt<X> {
    Memory,
    World(X),
}

/// What a step of a run gives: a value or a fault; or the run is cut off.
pub type RunResult<T, X> = Result<Result<T, Raised>, Halt<X>>;

/// The surroundings of running code.
///
/// The engine drives: it runs code in the order of the source, and calls one of these methods where the code needs its
/// surroundings, one call at a time. A call answers a value, with which the code goes on; or a fault, which the code may
/// catch as any other; or it cuts the run off, and then nothing more is called. What a call may answer, and what the
/// World is then, is one relation for all calls but `batch`, and one for `batch`; a World whose answers follow from what
/// it is makes them functions. After `Memory` nothing is promised of the World.
///
/// No call leads back into the engine over the same World.
pub trait World {
    /// Why this World cuts a run off.
    type Stop: Drop;

    ghost answers: { Self → Question → Answer Self.Stop → Self → Type 0 };

    ghost performs: { Self → ℕ → Local → Performed Self.Stop → Self → Type 0 };

    /// A line is printed, by a `print` at this position; its line feed isn't among the bytes.
    fn line(&mut self, at: u32, bytes: &[u8]) -> RunResult<(), Self::Stop>
        ensures { Answered (as_value result) (λ a. answers self.old (Line at bytes.now) a self.new) };

    /// A batch is performed, which stands at this position. The World is lent the state and the names, and gives them
    /// back as the batch leaves them, after a fault too.
    fn batch(&mut self, at: u32, state: &mut State, frame: &mut Frame) -> RunResult<(), Self::Stop>
        ensures fuel { state.new.fuel ≤ state.old.fuel }
        ensures depth { state.new.depth ≡ state.old.depth }
        ensures performs { let before = local frame.old state.old in
            let ended = performed (local frame.new state.new) result in
            Answered ended (λ o. performs self.old at before o self.new) };

    /// The value that a step of the script kept.
    fn taken(&mut self, step: u32) -> RunResult<Value, Self::Stop>
        ensures { Answered result (λ a. answers self.old (Taken step) a self.new) };

    /// A remote call, at this position, whose receiver and arguments were evaluated.
    fn invoke(
        &mut self,
        at: u32,
        target: Value,
        method: &[u8],
        args: Seq<Value>,
    ) -> RunResult<Value, Self::Stop>
        ensures { Answered result (λ a. answers self.old (Invoke at target method.now args) a self.new) };

    /// A turn of a loop over rows begins, before the turn's name is bound.
    fn turn(&mut self, at: u32) -> RunResult<(), Self::Stop>
        ensures { Answered (as_value result) (λ a. answers self.old (Turn at) a self.new) };

    /// A turn of a loop over a list begins, after its unit of fuel was taken and before the turn's name is bound.
    fn list_turn(&mut self, at: u32) -> RunResult<(), Self::Stop>
        ensures { Answered (as_value result) (λ a. answers self.old (ListTurn at) a self.new) };
}
