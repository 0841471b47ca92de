// The run of a client.

ghost use Rattle.std.specs.Prelude.{◌≡◌, []};
ghost use Rattle.rb_trees.specs.mirror.Declarations.{mirror_program};
ghost use Rattle.rb_engine.specs.Locals.{local};
ghost use Rattle.rb_client.specs.Headline.{MeansWhereHonest, MeansWhereQuiet};
ghost use Rattle.rb_client.specs.MainRuns.{Leads, LeadsWithin, Leaves, RunsMain, body_run, result_run};
ghost use Rattle.rb_client.specs.Runs.{FailsAsListed, IsAcceptedWith, RunsOver};
ghost use Rattle.rb_client.specs.Scenes.{Between};

use crate::client_world::ClientWorld;
use crate::divisions::Divisions;
use crate::laws::reached_batches_perform_remote_parts;
use crate::plan::Plan;
use crate::stops::RunStop;
use rb_base::{Link, Sink};
use rb_code::Code;
use rb_engine::{Frame, Halt, RunResult, State, eval, exec};
use rb_heap::Heap;
use rb_law_client::{
    answers_fit_on_the_way, clients_mean_what_programs_mean, fronts_are_shown,
    programs_come_as_far_as_clients, reached_batches_can_be_exchanged,
};
use rb_law_division::divided_scripts_can_be_sent;
use rb_trees::{Body, Ending, Expr, Run, Seq, Split, Value};
use rb_types::Typed;
use std::alloc::Global;

/// The value of `main`, if it has one.
fn main_value<L: Link, W: Sink>(
    alloc: Global,
    code: &Code,
    state: &mut State,
    frame: &Frame,
    world: &mut ClientWorld<'_, '_, '_, L, W>,
    value: &Option<Expr>,
) -> RunResult<Option<Value>, RunStop>
    ensures { let meant = result_run code.now value.now in
        LeadsWithin L.Link W.Sink meant (local frame.now state.old) world.old result world.new }
{
    let Some(expr) = value else {
        return Ok(Ok(None));
    };
    match eval(alloc, code, state, frame, world, expr) {
        Ok(Ok(value)) => Ok(Ok(Some(value))),
        Ok(Err(raised)) => Ok(Err(raised)),
        Err(halt) => Err(halt),
    }
}

/// `main`: its statements, then its value.
fn run_main<L: Link, W: Sink>(
    alloc: Global,
    code: &Code,
    state: &mut State,
    world: &mut ClientWorld<'_, '_, '_, L, W>,
    body: &Body,
) -> RunResult<Option<Value>, RunStop>
    ensures { Leads L.Link W.Sink (body_run code.now body.now (local [] state.old)) world.old result world.new }
{
    let mut frame = Frame::make(alloc);
    match exec(alloc, code, state, &mut frame, world, &body.statements) {
        Ok(Ok(())) => main_value(alloc, code, state, &frame, world, &body.result),
        Ok(Err(raised)) => Ok(Err(raised)),
        Err(halt) => Err(halt),
    }
}

// Runs the program of a World, in which nothing was exchanged yet.
fn run_over<L: Link, W: Sink>(
    alloc: Global,
    world: &mut ClientWorld<'_, '_, '_, L, W>,
    fuel: u64,
) -> Result<Run, RunStop>
    requires { world.old.exchanges ≡ 0 }
    ensures { RunsMain L.Link W.Sink fuel world.old result world.new }
{
    let code = world.plan.code();
    let program = world.plan.typed().program();
    let mut state = State {
        heap: Heap::make(alloc),
        fuel,
        depth: 0,
    };
    match run_main(alloc, code, &mut state, world, &program.body) {
        Ok(Ok(value)) => Ok(Run {
            ending: Ending::Done(value),
            exchanges: world.exchanges,
        }),
        Ok(Err(raised)) => Ok(Run {
            ending: Ending::Faulted(raised.fault, raised.at),
            exchanges: world.exchanges,
        }),
        Err(Halt::Memory) => Err(RunStop::Memory),
        Err(Halt::World(stop)) => Err(stop),
    }
}

// A reference is given back as it stands.
fn give_back<A>(lent: &mut A)
    ensures { lent.new ≡ lent.old }
{
    let _lent = lent;
}

// Runs the program of a plan over a link and an output.
fn run_plan<L: Link, W: Sink>(
    alloc: Global,
    plan: &Plan<'_>,
    fuel: u64,
    link: &mut L,
    out: &mut W,
) -> Result<Run, RunStop>
    ensures { Between L.Link W.Sink link.old out.old link.new out.new (Leaves (mirror_program plan.now.program) fuel result) }
{
    let mut world = ClientWorld::over(alloc, plan, link, out);
    let ended = run_over(alloc, &mut world, fuel);
    let ClientWorld {
        alloc: _,
        plan: _,
        link,
        out,
        exchanges: _,
    } = world;
    give_back(link);
    give_back(out);
    ended
}

/// Runs an accepted program with so much fuel, whose batches have these divisions, over a link: `client`.
///
/// Each line goes to the output as it comes. At each batch its script is sent with the values of its inputs, and its remainder
/// is performed on the node that is replied. A batch whose inputs have more than 1,000 items together ends by the fault
/// InputTooLarge before it begins, and nothing is sent. Over an honest link that is what the program means on the server behind
/// it, on the tables that its batches find there; where the link is quiet too, each finds the one that stood. After
/// `WriteFault` all was written that comes before a line or a batch, and a front of that line or of the batch's own lines;
/// nothing was exchanged after that. After `LinkFault` and `BadReply` the lines before that batch were written. Whether the
/// link lends a table is kept. After `Memory` nothing is said.
pub fn run_client<L: Link, W: Sink>(
    alloc: Global,
    typed: &Typed,
    splits: &Seq<Split>,
    fuel: u64,
    link: &mut L,
    out: &mut W,
) -> Result<Run, RunStop>
    requires { IsAcceptedWith typed.now splits.now }
    // Over any link it is the client on the nodes that are replied, one exchange a script, until it is cut off.
    ensures runs { Between L.Link W.Sink link.old out.old link.new out.new (RunsOver (mirror_program typed.now) fuel result) }
    // An exchange fails exactly where the link lists it; where a write failed, `runs` says so.
    ensures lists { Between L.Link W.Sink link.old out.old link.new out.new (FailsAsListed result) }
    // Over an honest link it is what the program means on the tables that its batches find, and no reply is refused.
    ensures means { let program = mirror_program typed.now in
        Between L.Link W.Sink link.old out.old link.new out.new (MeansWhereHonest program fuel result) }
    // Over one that is quiet, too, each batch finds the table that stood.
    ensures means_alone { let program = mirror_program typed.now in
        Between L.Link W.Sink link.old out.old link.new out.new (MeansWhereQuiet program fuel result) }
{
    divided_scripts_can_be_sent();
    clients_mean_what_programs_mean();
    programs_come_as_far_as_clients();
    fronts_are_shown();
    reached_batches_can_be_exchanged();
    reached_batches_perform_remote_parts();
    answers_fit_on_the_way();
    let program = typed.program();
    let code = Code::make(alloc, &program.classes)?;
    let divisions = Divisions::of(alloc, splits)?;
    let plan = Plan::new(typed, divisions, &code);
    run_plan(alloc, &plan, fuel, link, out)
}
