// The run of `main`.

ghost use Rattle.std.specs.Prelude.{[]};
ghost use Rattle.rb_engine.specs.Locals.{local};
ghost use Rattle.rb_plain.specs.MainRuns.{Leads, LeadsWithin, RunsMain, body_run, result_run};

use crate::outer_world::OuterWorld;
use crate::run::PlainStop;
use rb_base::{Failed, Sink};
use rb_code::Code;
use rb_engine::{Frame, Halt, RunResult, State, eval, exec};
use rb_heap::Heap;
use rb_trees::{Body, Ending, Expr, Value};
use std::alloc::Global;

/// The value of `main`, if it has one.
fn main_value<W: Sink>(
    alloc: Global,
    code: &Code,
    state: &mut State,
    frame: &Frame,
    world: &mut OuterWorld<'_, '_, '_, '_, W>,
    value: &Option<Expr>,
) -> RunResult<Option<Value>, Failed>
    ensures { LeadsWithin W.Sink (result_run code.now value.now) (local frame.now state.old) world.old result world.new }
{
    let Some(expr) = value else {
        return Ok(Ok(None));
    };
    match eval(alloc, code, state, frame, world, expr) {
        Ok(Ok(value)) => Ok(Ok(Some(value))),
        Ok(Err(raised)) => Ok(Err(raised)),
        Err(halt) => Err(halt),
    }
}

/// `main`: its statements, then its value.
fn run_main<W: Sink>(
    alloc: Global,
    code: &Code,
    state: &mut State,
    world: &mut OuterWorld<'_, '_, '_, '_, W>,
    body: &Body,
) -> RunResult<Option<Value>, Failed>
    ensures { Leads W.Sink (body_run code.now body.now (local [] state.old)) world.old result world.new }
{
    let mut frame = Frame::make(alloc);
    match exec(alloc, code, state, &mut frame, world, &body.statements) {
        Ok(Ok(())) => main_value(alloc, code, state, &frame, world, &body.result),
        Ok(Err(raised)) => Ok(Err(raised)),
        Err(halt) => Err(halt),
    }
}

/// How `main` ends with so much fuel.
pub fn perform_main<W: Sink>(
    alloc: Global,
    world: &mut OuterWorld<'_, '_, '_, '_, W>,
    fuel: u64,
) -> Result<Ending, PlainStop>
    ensures { RunsMain W.Sink fuel world.old result world.new }
{
    let code = world.inner.remote.stage.code();
    let program = world.inner.remote.stage.typed().program();
    let mut state = State {
        heap: Heap::make(alloc),
        fuel,
        depth: 0,
    };
    match run_main(alloc, code, &mut state, world, &program.body) {
        Ok(Ok(value)) => Ok(Ending::Done(value)),
        Ok(Err(raised)) => Ok(Ending::Faulted(raised.fault, raised.at)),
        Err(Halt::Memory) => Err(PlainStop::Memory),
        Err(Halt::World(_)) => Err(PlainStop::WriteFault),
    }
}
