// What code asks of its World, with what is checked before.

ghost use Rattle.rb_trees.specs.declared.values.Value.{out-Value};
ghost use Rattle.rb_engine.specs.Code.{line_run, begin_run, taken_run, invoked_run, batch_run};
ghost use Rattle.rb_engine.specs.Machines.{EvaluatesAnywhere, Keeps, Performs};

use crate::conditions::shown;
use crate::ends::{End, flat, lift};
use crate::frame::Frame;
use crate::machine::Machine;
use crate::targets::Turns;
use crate::units::check_unit;
use crate::world::World;
use rb_trees::{Seq, Value, copy_value};

impl<'a, W: World> Machine<'a, W> {
    /// A turn of a loop begins.
    #[inline(never)]
    pub fn begin_turn(&mut self, at: u32, turns: Turns) -> Result<(), End<W::Stop>>
        ensures runs { let meant = begin_run turns at in
            EvaluatesAnywhere W.World meant self.old result self.new }
        ensures same { Keeps self.old self.new }
    {
        match turns {
            Turns::List => {
                lift(at, check_unit(self.alloc, self.state.fuel))?;
                self.state.fuel -= 1;
                flat(self.alloc, self.world.list_turn(at))
            }
            Turns::Rows => flat(self.alloc, self.world.turn(at)),
        }
    }

    /// Prints the line of a value.
    #[inline(never)]
    pub fn print(&mut self, at: u32, value: &Value) -> Result<(), End<W::Stop>>
        ensures runs { let meant = line_run at value.now in
            EvaluatesAnywhere W.World meant self.old result self.new }
        ensures same { Keeps self.old self.new }
    {
        let line = lift(at, shown(self.alloc, value))?;
        flat(self.alloc, self.world.line(at, line.as_slice()))
    }

    /// The value that a step of the script kept.
    #[inline(never)]
    pub fn taken(&mut self, step: u32) -> Result<Value, End<W::Stop>>
        ensures runs { let meant = taken_run step in
            EvaluatesAnywhere W.World meant self.old result self.new }
        ensures same { Keeps self.old self.new }
    {
        flat(self.alloc, self.world.taken(step))
    }

    /// The value of a remote call whose receiver and arguments were evaluated.
    #[inline(never)]
    pub fn invoke(
        &mut self,
        at: u32,
        target: &Value,
        name: &[u8],
        args: Seq<Value>,
    ) -> Result<Value, End<W::Stop>>
        ensures runs { let meant = invoked_run at target.now name.now args in
            EvaluatesAnywhere W.World meant self.old result self.new }
        ensures same { Keeps self.old self.new }
    {
        match copy_value(target) {
            Ok(target) => flat(self.alloc, self.world.invoke(at, target, name, args)),
            Err(_) => Err(End::NoMemory),
        }
    }

    /// A batch, which is lent the state and the names.
    #[inline(never)]
    pub fn perform_batch(&mut self, frame: &mut Frame, at: u32) -> Result<(), End<W::Stop>>
        ensures runs { let meant = batch_run at in
            Performs W.World meant self.old frame.old result self.new frame.new }
        ensures same { Keeps self.old self.new }
    {
        flat(self.alloc, self.world.batch(at, self.state, frame))
    }
}
