// A run of a program over a link that was dialled: each batch is one exchange with the server behind it, and what the program shows
// is printed, but for the table.

ghost use Rattle.rb_session.specs.Dials.{seen};
ghost use Rattle.rb_top.specs.Accepted.{IsAccepted};
ghost use Rattle.rb_top.specs.Commands.{DialsWith};
ghost use Rattle.rb_top.specs.LinkRuns.{RunsOverLink, run_end};
ghost use Rattle.rb_top.specs.Scene.{Across};
ghost use Rattle.rb_top.specs.Sources.{accepted_program};

use crate::printing::print_run_end;
use crate::run_stops::say_stop;
use crate::saying::{run_answer, say};
use crate::source::Accepted;
use crate::status::Status;
use rb_base::{Link, Sink};
use rb_client::run_client;
use rb_session::{Dial, DialStop, Target};
use std::alloc::Global;

/// Runs a program with so much fuel over a link, and prints what it shows, but for the table.
fn run_over_link<L: Link, W: Sink>(
    alloc: Global,
    program: &Accepted<'_>,
    fuel: u64,
    link: &mut L,
    out: &mut W,
) -> Status
    requires { IsAccepted program.now }
    ensures { let x = program.now in let closing = run_end x.text.now in
        Across W.Sink out.old out.new (RunsOverLink L.Link closing (accepted_program x) fuel link.old link.new result) }
{
    let typed = program.admitted.typed();
    match run_client(alloc, typed, program.splits, fuel, link, out) {
        Ok(run) => run_answer(print_run_end(alloc, program.text, run, out)),
        Err(stop) => say_stop(alloc, stop, out),
    }
}

/// Dials a target, and runs a program with so much fuel over the link, which is given back.
pub fn run_dialled<W: Sink, D: Dial>(
    alloc: Global,
    program: &Accepted<'_>,
    fuel: u64,
    target: &Target,
    dial: &mut D,
    out: &mut W,
) -> Status
    requires { IsAccepted program.now }
    ensures { let dialled = seen D.told D.faults D.broken in
        Across W.Sink out.old out.new
        (DialsWith D.L.Link program.now fuel target.now result (dialled dial.old) (dialled dial.new)) }
{
    match dial.dial(target) {
        Ok(mut link) => {
            let status = run_over_link(alloc, program, fuel, &mut link, out);
            dial.back(link);
            status
        }
        Err(DialStop::Failed) => say(Status::DialFault, b"dial fault\n", out),
        Err(DialStop::Memory) => Status::Memory,
    }
}
