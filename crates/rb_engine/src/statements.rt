// Performs statements, each form as its definition says.

ghost use Rattle.rb_engine.specs.Code.{stmts_run, scope_run, stmt_run, binding_run, alone_run, print_run, throw_run, assign_run};
ghost use Rattle.rb_engine.specs.Machines.{Keeps, Performs};

use crate::conditions::throw;
use crate::ends::{End, lift};
use crate::faults::kind;
use crate::frame::Frame;
use crate::machine::Machine;
use crate::names::{bind, set_name};
use crate::objects::write_field;
use crate::sums::sum_onto;
use crate::targets::{LeftSide, target_of};
use crate::world::World;
use rb_trees::{Expr, Seq, Stmt, StmtForm, Word};

impl<'a, W: World> Machine<'a, W> {
    /// The effects of statements in order.
    #[cycle(running)]
    #[inline(never)]
    pub fn run_all(&mut self, frame: &mut Frame, stmts: &[Stmt]) -> Result<(), End<W::Stop>>
        ensures runs { let meant = stmts_run self.old.code.now stmts.now in
            Performs W.World meant self.old frame.old result self.new frame.new }
        ensures same { Keeps self.old self.new }
    {
        'stmts: for stmt in stmts {
            self.run_stmt(frame, stmt)?;
        }
        Ok(())
    }

    /// The statements of a block, after which the first names stay, so many.
    #[cycle(running)]
    #[inline(never)]
    pub fn run_scope(
        &mut self,
        frame: &mut Frame,
        count: usize,
        stmts: &Seq<Stmt>,
    ) -> Result<(), End<W::Stop>>
        ensures runs { let meant = scope_run self.old.code.now count stmts.now in
            Performs W.World meant self.old frame.old result self.new frame.new }
        ensures same { Keeps self.old self.new }
    {
        let result = self.run_all(frame, stmts.as_slice());
        frame.truncate(count);
        result
    }

    // The effect of a statement.
    #[cycle(running)]
    #[inline(never)]
    fn run_stmt(&mut self, frame: &mut Frame, stmt: &Stmt) -> Result<(), End<W::Stop>>
        ensures runs { let meant = stmt_run self.old.code.now stmt.now in
            Performs W.World meant self.old frame.old result self.new frame.new }
        ensures same { Keeps self.old self.new }
    {
        let at = stmt.at;
        match &stmt.form {
            StmtForm::Val(name, expr) => self.run_binding(frame, name, expr),
            StmtForm::Var(name, expr) => self.run_binding(frame, name, expr),
            StmtForm::Assign(left, right) => self.assign(frame, at, left, right),
            StmtForm::Run(expr) => self.run_expr(frame, expr),
            StmtForm::Print(expr) => self.run_print(frame, at, expr),
            StmtForm::Throw(expr) => self.run_throw(frame, at, expr),
            StmtForm::If(condition, yes, no) => { self.run_if(frame, at, condition, yes, no) }
            StmtForm::While(condition, block) => { self.run_while(frame, at, condition, block) }
            StmtForm::For(name, list, block) => { self.run_for(frame, at, name, list, block) }
            StmtForm::Try(tried, name, handler) => { self.run_try(frame, tried, name, handler) }
            StmtForm::Batch(_, _, _) => self.perform_batch(frame, at),
        }
    }

    // A `val` or `var`.
    #[cycle(running)]
    #[inline(never)]
    fn run_binding(
        &mut self,
        frame: &mut Frame,
        name: &Word,
        expr: &Expr,
    ) -> Result<(), End<W::Stop>>
        ensures runs { let meant = binding_run self.old.code.now name.now expr.now in
            Performs W.World meant self.old frame.old result self.new frame.new }
        ensures same { Keeps self.old self.new }
    {
        let value = self.value_of(frame, expr)?;
        bind(self.alloc, frame, name, value)
    }

    // An expression alone.
    #[cycle(running)]
    #[inline(never)]
    fn run_expr(&mut self, frame: &mut Frame, expr: &Expr) -> Result<(), End<W::Stop>>
        ensures runs { let meant = alone_run self.old.code.now expr.now in
            Performs W.World meant self.old frame.old result self.new frame.new }
        ensures same { Keeps self.old self.new }
    {
        let _value = self.value_of(frame, expr)?;
        Ok(())
    }

    // A `print`.
    #[cycle(running)]
    #[inline(never)]
    fn run_print(&mut self, frame: &mut Frame, at: u32, expr: &Expr) -> Result<(), End<W::Stop>>
        ensures runs { let meant = print_run self.old.code.now at expr.now in
            Performs W.World meant self.old frame.old result self.new frame.new }
        ensures same { Keeps self.old self.new }
    {
        let value = self.operand_of(frame, expr)?;
        self.print(at, value.get())
    }

    // A `throw`.
    #[cycle(running)]
    #[inline(never)]
    fn run_throw(&mut self, frame: &mut Frame, at: u32, expr: &Expr) -> Result<(), End<W::Stop>>
        ensures runs { let meant = throw_run self.old.code.now at expr.now in
            Performs W.World meant self.old frame.old result self.new frame.new }
        ensures same { Keeps self.old self.new }
    {
        let value = self.operand_of(frame, expr)?;
        Err(throw(self.alloc, at, value.get()))
    }

    // An assignment to a name or a field.
    #[cycle(running)]
    #[inline(never)]
    fn assign(
        &mut self,
        frame: &mut Frame,
        at: u32,
        left: &Expr,
        right: &Expr,
    ) -> Result<(), End<W::Stop>>
        ensures runs { let meant = assign_run self.old.code.now at left.now right.now in
            Performs W.World meant self.old frame.old result self.new frame.new }
        ensures same { Keeps self.old self.new }
    {
        match target_of(left) {
            LeftSide::Name(name) => match sum_onto(frame, name, right) {
                Some((place, end)) => {
                    let value = self.value_of(frame, end)?;
                    lift(right.at, frame.add_at(self.alloc, place, &value))
                }
                None => {
                    let value = self.value_of(frame, right)?;
                    lift(left.at, set_name(self.alloc, frame, name, value))
                }
            },
            LeftSide::Field(object, name) => {
                let target = self.operand_of(frame, object)?;
                let value = self.value_of(frame, right)?;
                lift(
                    left.at,
                    write_field(
                        self.alloc,
                        &mut self.state.heap,
                        target.get(),
                        name.as_slice(),
                        value,
                    ),
                )
            }
            LeftSide::Other => lift(at, Err(kind(self.alloc))),
        }
    }
}
