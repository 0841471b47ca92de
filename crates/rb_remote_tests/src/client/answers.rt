// How a run ended and what it printed, as a text.

use rb_base::place;
use rb_client::{BadReason, RunStop};
use rb_trees::{Ending, Run};
use rb_wire_forest::Misfit;
use std::alloc::Global;
use std::fmt;
use std::fmt::Debug;
use std::test::Fail;

/// What is wrong with a reply.
#[derive(Clone, Copy)]
struct Reason<'a>(&'a BadReason);

impl fmt::Display for Reason<'_> {
    fn fmt<W: fmt::Write>(&self, f: &mut fmt::Formatter<W>) -> fmt::Result {
        match self.0 {
            BadReason::Cut(got) => write!(f, "cut {got}"),
            BadReason::Frame(at) => write!(f, "frame {at}"),
            BadReason::Forest(number, at) => write!(f, "forest {number} {at}"),
            BadReason::Misfit(Misfit::At(step)) => write!(f, "misfit {step}"),
            BadReason::Misfit(Misfit::Extra) => write!(f, "misfit extra"),
            BadReason::Refused(number, at) => write!(f, "refused {number} {at}"),
            BadReason::Garbled => write!(f, "garbled"),
        }
    }
}

/// Why a run was cut off.
#[derive(Clone, Copy)]
struct Stop<'a>(&'a RunStop);

impl fmt::Display for Stop<'_> {
    fn fmt<W: fmt::Write>(&self, f: &mut fmt::Formatter<W>) -> fmt::Result {
        match self.0 {
            RunStop::LinkFault(done) => write!(f, "link fault {done}"),
            RunStop::BadReply { done, reason, .. } => {
                write!(f, "bad reply {done} {}", Reason(reason))
            }
            RunStop::WriteFault => write!(f, "write fault"),
            RunStop::Memory => write!(f, "out of memory"),
        }
    }
}

/// The line and the column of a position in a program's text.
fn place_in(program: &str, at: u32) -> Result<(u32, u32), Fail> {
    let source = program.as_bytes();
    if at == u32::MAX || at as usize > source.len() {
        return Err(Fail::new("a fault is behind the text"));
    }
    Ok(place(source, at))
}

/// How the run of a program's text ended, and behind it, each on a line, what it printed.
pub fn run_text(alloc: Global, program: &str, run: &Run, written: &[u8]) -> Result<String, Fail> {
    let count = run.exchanges;
    let lines = str::from_utf8(written)?;
    match &run.ending {
        Ending::Done(_) => Ok(format!(in alloc; "ok {count} done\n{lines}")?),
        Ending::Faulted(fault, at) => {
            let code = fault.code;
            let (line, column) = place_in(program, *at)?;
            Ok(format!(in alloc; "ok {count} fault {code} at {line}:{column}\n{lines}")?)
        }
    }
}

/// How the run of a program's text ended or was cut off, and behind it, each on a line, what it printed. Want of memory is no
/// answer.
pub fn answer_text(
    alloc: Global,
    program: &str,
    answer: &Result<Run, RunStop>,
    written: &[u8],
) -> Result<String, Fail> {
    match answer {
        Ok(run) => run_text(alloc, program, run, written),
        Err(RunStop::Memory) => Err(Fail::new("memory ran out")),
        Err(stop) => {
            let lines = str::from_utf8(written)?;
            Ok(format!(in alloc; "{}\n{lines}", Stop(stop))?)
        }
    }
}

/// Fails where the answer to a row isn't the one that is wanted.
pub fn same_answer<D: Debug>(row: &D, answer: &str, want: &str) -> Result<(), Fail> {
    if answer == want {
        return Ok(());
    }
    Err(Fail::new(format_args!("{answer:?} in place of {want:?}, to {row:?}")))
}

/// What a test says that finds another thing than is wanted, by these words.
pub fn other(thing: &str, words: &str) -> Fail {
    Fail::new(format_args!("another {thing}, by {words}"))
}
