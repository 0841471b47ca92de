// The engine's public calls.

ghost use Rattle.rb_trees.specs.declared.values.Value.TheVariants as value;
ghost use Rattle.rb_engine.specs.Code.{value_run, call_run, found_run, stmts_run};
ghost use Rattle.rb_engine.specs.Ends.{flattened};
ghost use Rattle.rb_engine.specs.Methods.{IsMethod};
ghost use Rattle.rb_engine.specs.Worlds.{AnyNames, Effects, Values};

use crate::ends::{End, step_of};
use crate::frame::Frame;
use crate::machine::Machine;
use crate::state::State;
use crate::world::{RunResult, World};
use rb_code::Code;
use rb_trees::{Expr, Method, Seq, Stmt, Value};
use std::alloc::Global;

/// Calls a method of an object of the own side, at a position: `call`.
#[tactic(auto, using(crate::proofs::Wrapped::wrapped))]
pub fn call<W: World>(
    alloc: Global,
    code: &Code,
    state: &mut State,
    world: &mut W,
    at: u32,
    object: u32,
    method: &[u8],
    args: Seq<Value>,
) -> RunResult<Value, W::Stop>
    ensures { let meant = call_run code.now at (value.Ref object) method.now args in
        AnyNames W.World meant state.old world.old (flattened result) state.new world.new }
{
    let mut machine = Machine {
        alloc,
        code,
        state,
        world,
    };
    machine.call_own(at, object, method, args)
}

/// Calls a method that was found of an object of the own side, at a position.
#[tactic(auto, using(crate::proofs::Wrapped::wrapped))]
pub fn call_found<W: World>(
    alloc: Global,
    code: &Code,
    state: &mut State,
    world: &mut W,
    at: u32,
    object: u32,
    method: &Method,
    args: Seq<Value>,
) -> RunResult<Value, W::Stop>
    requires { IsMethod code.now method.now }
    ensures { let meant = found_run code.now at method.now (value.Ref object) args in
        AnyNames W.World meant state.old world.old (flattened result) state.new world.new }
{
    let mut machine = Machine {
        alloc,
        code,
        state,
        world,
    };
    machine.call_own_found(at, object, method, args)
}

/// Runs the statements of a slice in order: `performs_all`. An early end stays in its box.
pub fn exec_early<W: World>(
    alloc: Global,
    code: &Code,
    state: &mut State,
    frame: &mut Frame,
    world: &mut W,
    body: &[Stmt],
) -> Result<(), End<W::Stop>>
    ensures { let meant = stmts_run code.now body.now in
        Effects W.World meant frame.old state.old world.old result frame.new state.new world.new }
{
    let mut machine = Machine {
        alloc,
        code,
        state,
        world,
    };
    machine.run_all(frame, body)
}

/// Runs statements in order: `performs_all`.
#[tactic(auto, using(crate::proofs::Wrapped::wrapped))]
pub fn exec<W: World>(
    alloc: Global,
    code: &Code,
    state: &mut State,
    frame: &mut Frame,
    world: &mut W,
    body: &Seq<Stmt>,
) -> RunResult<(), W::Stop>
    ensures { let meant = stmts_run code.now body.now in
        Effects W.World meant frame.old state.old world.old (flattened result) frame.new state.new world.new }
{
    step_of(exec_early(alloc, code, state, frame, world, body.as_slice()))
}

/// Runs the statements of a slice in order: `performs_all`.
#[tactic(auto, using(crate::proofs::Wrapped::wrapped))]
pub fn exec_slice<W: World>(
    alloc: Global,
    code: &Code,
    state: &mut State,
    frame: &mut Frame,
    world: &mut W,
    body: &[Stmt],
) -> RunResult<(), W::Stop>
    ensures { let meant = stmts_run code.now body.now in
        Effects W.World meant frame.old state.old world.old (flattened result) frame.new state.new world.new }
{
    step_of(exec_early(alloc, code, state, frame, world, body))
}

/// The value of an expression: `evaluates`. An early end stays in its box.
pub fn eval_early<W: World>(
    alloc: Global,
    code: &Code,
    state: &mut State,
    frame: &Frame,
    world: &mut W,
    expr: &Expr,
) -> Result<Value, End<W::Stop>>
    ensures { let meant = value_run code.now expr.now in
        Values W.World meant frame.now state.old world.old result state.new world.new }
{
    let mut machine = Machine {
        alloc,
        code,
        state,
        world,
    };
    machine.value_of(frame, expr)
}

/// The value of an expression: `evaluates`.
#[tactic(auto, using(crate::proofs::Wrapped::wrapped))]
pub fn eval<W: World>(
    alloc: Global,
    code: &Code,
    state: &mut State,
    frame: &Frame,
    world: &mut W,
    expr: &Expr,
) -> RunResult<Value, W::Stop>
    ensures { let meant = value_run code.now expr.now in
        Values W.World meant frame.now state.old world.old (flattened result) state.new world.new }
{
    step_of(eval_early(alloc, code, state, frame, world, expr))
}
