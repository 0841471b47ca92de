// Performs the statements that have blocks.

ghost use Rattle.rb_engine.specs.Code.{truth_run, if_run, while_run, for_run, turns_run, try_run};
ghost use Rattle.rb_engine.specs.Machines.{Evaluates, Keeps, Performs};

use crate::conditions::{bind_caught, is_caught, truth_in};
use crate::ends::{End, lift};
use crate::frame::Frame;
use crate::machine::Machine;
use crate::names::bind_copy;
use crate::targets::{Turns, turns_of};
use crate::units::check_unit;
use crate::world::World;
use rb_trees::{Expr, ExprForm, Seq, Stmt, Value, Word};

impl<'a, W: World> Machine<'a, W> {
    // The truth of a condition.
    #[cycle(running)]
    #[inline(never)]
    fn truth_at(&mut self, frame: &Frame, at: u32, condition: &Expr) -> Result<bool, End<W::Stop>>
        ensures runs { let meant = truth_run self.old.code.now at condition.now in
            Evaluates W.World meant frame.now self.old result self.new }
        ensures same { Keeps self.old self.new }
    {
        match &condition.form {
            ExprForm::Binary(op, a, b) => {
                let value = self.operator_value(frame, condition.at, *op, a.get(), b.get())?;
                lift(at, truth_in(self.alloc, &value))
            }
            _ => {
                let value = self.operand_of(frame, condition)?;
                lift(at, truth_in(self.alloc, value.get()))
            }
        }
    }

    /// An `if`.
    #[cycle(running)]
    #[inline(never)]
    pub fn run_if(
        &mut self,
        frame: &mut Frame,
        at: u32,
        condition: &Expr,
        yes: &Seq<Stmt>,
        no: &Seq<Stmt>,
    ) -> Result<(), End<W::Stop>>
        ensures runs { let meant = if_run self.old.code.now at condition.now yes.now no.now in
            Performs W.World meant self.old frame.old result self.new frame.new }
        ensures same { Keeps self.old self.new }
    {
        let holds = self.truth_at(frame, at, condition)?;
        let count = frame.len();
        if holds {
            return self.run_scope(frame, count, yes);
        }
        self.run_scope(frame, count, no)
    }

    /// The turns of a `while`.
    #[cycle(running)]
    #[inline(never)]
    pub fn run_while(
        &mut self,
        frame: &mut Frame,
        at: u32,
        condition: &Expr,
        block: &Seq<Stmt>,
    ) -> Result<(), End<W::Stop>>
        ensures runs { let meant = while_run self.old.code.now at condition.now block.now in
            Performs W.World meant self.old frame.old result self.new frame.new }
        ensures same { Keeps self.old self.new }
    {
        'turns: loop {
            let holds = self.truth_at(frame, at, condition)?;
            if !holds {
                return Ok(());
            }
            lift(at, check_unit(self.alloc, self.state.fuel))?;
            self.state.fuel -= 1;
            let count = frame.len();
            self.run_scope(frame, count, block)?;
        }
    }

    /// A loop over a list or rows.
    #[cycle(running)]
    #[inline(never)]
    pub fn run_for(
        &mut self,
        frame: &mut Frame,
        at: u32,
        name: &Word,
        list: &Expr,
        block: &Seq<Stmt>,
    ) -> Result<(), End<W::Stop>>
        ensures runs { let meant = for_run self.old.code.now at name.now list.now block.now in
            Performs W.World meant self.old frame.old result self.new frame.new }
        ensures same { Keeps self.old self.new }
    {
        let value = self.operand_of(frame, list)?;
        let (turns, values) = lift(at, turns_of(self.alloc, value.get()))?;
        drop(value);
        let values = values.get().as_slice();
        self.run_turns(frame, at, turns, name, values, block)
    }

    // The turns of a loop over values.
    #[cycle(running)]
    #[inline(never)]
    fn run_turns(
        &mut self,
        frame: &mut Frame,
        at: u32,
        turns: Turns,
        name: &Word,
        values: &[Value],
        block: &Seq<Stmt>,
    ) -> Result<(), End<W::Stop>>
        ensures runs { let meant = turns_run self.old.code.now turns at name.now values.now block.now in
            Performs W.World meant self.old frame.old result self.new frame.new }
        ensures same { Keeps self.old self.new }
    {
        'turns: for value in values {
            self.begin_turn(at, turns)?;
            let count = frame.len();
            bind_copy(self.alloc, frame, name, value)?;
            self.run_scope(frame, count, block)?;
        }
        Ok(())
    }

    /// A block that is tried, and the one that handles its fault.
    #[cycle(running)]
    #[inline(never)]
    pub fn run_try(
        &mut self,
        frame: &mut Frame,
        tried: &Seq<Stmt>,
        name: &Word,
        handler: &Seq<Stmt>,
    ) -> Result<(), End<W::Stop>>
        ensures runs { let meant = try_run self.old.code.now tried.now name.now handler.now in
            Performs W.World meant self.old frame.old result self.new frame.new }
        ensures same { Keeps self.old self.new }
    {
        let count = frame.len();
        match self.run_scope(frame, count, tried) {
            Err(End::Raised(raised)) => {
                if !is_caught(raised.get()) {
                    return Err(End::Raised(raised));
                }
                let count = frame.len();
                bind_caught(self.alloc, frame, name, &raised.get().fault)?;
                self.run_scope(frame, count, handler)
            }
            Err(End::NoMemory) => Err(End::NoMemory),
            Err(End::Stopped(stop)) => Err(End::Stopped(stop)),
            Ok(()) => Ok(()),
        }
    }
}
