// A run of a program over a link in memory: each batch is one exchange, and what the program shows is printed, with the table that it
// leaves or how many objects that has.

ghost use Rattle.std.specs.Prelude.{◌≡◌, true, IfOk};
ghost use Rattle.rb_trees.specs.mirror.Services.{mirror_service};
ghost use Rattle.rb_meaning.specs.Links.{IsTyped};
ghost use Rattle.rb_session.specs.Dials.{seen};
ghost use Rattle.rb_session.specs.MemoryLinks.{new_link};
ghost use Rattle.rb_top.specs.Accepted.{IsAccepted};
ghost use Rattle.rb_top.specs.Commands.{RunsInMemoryWith};
ghost use Rattle.rb_top.specs.LinkRuns.{RunsOverLink, run_end_in};
ghost use Rattle.rb_top.specs.Runs.{served_on};
ghost use Rattle.rb_top.specs.Scene.{Across};
ghost use Rattle.rb_top.specs.Sources.{accepted_program};

use crate::printing::print_run_end_in;
use crate::run_stops::say_stop;
use crate::saying::run_answer;
use crate::source::Accepted;
use crate::status::Status;
use crate::words::{Job, Way};
use rb_base::{Link, Sink};
use rb_client::run_client;
use rb_exec::Host;
use rb_heap::Heap;
use rb_session::{Dial, MemoryLink};
use rb_trees::{Memory, Service};
use std::alloc::Global;

/// A link to a server with a service and its table.
fn link_to(alloc: Global, service: Service, table: Heap) -> Result<MemoryLink, Memory>
    requires { IsTyped (mirror_service service) table }
    ensures { IfOk result (λ link. link ≡ new_link (record { service = service; table = table })) }
{
    let host = Host::make(alloc, service, table)?;
    MemoryLink::make(alloc, host)
}

/// Runs a program with so much fuel over a link that lends the table of its server, and prints what it shows, and that table or how
/// many objects it has, as the way asks.
fn run_over<L: Link, W: Sink>(
    alloc: Global,
    program: &Accepted<'_>,
    way: Way,
    fuel: u64,
    link: &mut L,
    out: &mut W,
) -> Status
    requires accepted { IsAccepted program.now }
    requires lends { L.lends link.old ≡ true }
    ensures { let x = program.now in let closing = run_end_in L.Link way x.text.now in
        Across W.Sink out.old out.new (RunsOverLink L.Link closing (accepted_program x) fuel link.old link.new result) }
{
    let typed = program.admitted.typed();
    match run_client(alloc, typed, program.splits, fuel, link, out) {
        Ok(run) => match link.table() {
            None => unreachable!(),
            Some(table) => run_answer(print_run_end_in(alloc, program.text, way, run, table, out)),
        },
        Err(stop) => say_stop(alloc, stop, out),
    }
}

/// Runs a program as a job asks over a link in memory to a service and its table, which is made a link of a Dial's and is given back
/// to it.
pub fn run_both<W: Sink, D: Dial>(
    alloc: Global,
    program: &Accepted<'_>,
    job: &Job,
    service: Service,
    table: Heap,
    dial: &mut D,
    out: &mut W,
) -> Status
    requires accepted { IsAccepted program.now }
    requires typed { IsTyped (mirror_service service) table }
    ensures { let dialled = seen D.told D.faults D.broken in let served = served_on service table in
        Across W.Sink out.old out.new
        (RunsInMemoryWith D.L.Link program.now job.now served result (dialled dial.old) (dialled dial.new)) }
{
    let Ok(inner) = link_to(alloc, service, table) else {
        return Status::Memory;
    };
    match dial.around(inner) {
        Err(Memory) => Status::Memory,
        Ok(mut link) => {
            let status = run_over(alloc, program, job.way, job.fuel, &mut link, out);
            dial.back(link);
            status
        }
    }
}
