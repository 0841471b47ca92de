// Runs of programs over links and unsplit, each with its answer as a text.

ghost use Rattle.std.specs.Prelude.{◌≡◌, [], IfOk};
ghost use Rattle.rb_trees.specs.mirror.Declarations.{mirror_program};
ghost use Rattle.rb_law_division.specs.Sendable.{HasPlaces};
ghost use Rattle.rb_flow.specs.Program.{HasNoRefusal};
ghost use Rattle.rb_base.specs.Sinks.{new_sink};
ghost use Rattle.rb_base.specs.Sources.{new_source};
ghost use Rattle.rb_client.specs.Runs.{IsAcceptedWith};

use crate::client::answers::{answer_text, run_text as ended_text, same_answer};
use crate::client::hosts::code_of;
use rb_base::{Link, MemorySink, MemorySource};
use rb_client::run_client;
use rb_flow::{Admitted, admit};
use rb_heap::Heap;
use rb_law_reading::read_programs_have_places;
use rb_marks::mark;
use rb_parse::parse_program;
use rb_plain::unsplit;
use rb_session::FrameLink;
use rb_split::split_all;
use rb_trees::{Change, Run, Seq, Service, Split};
use rb_types::{Typed, check};
use std::alloc::Global;
use std::test::Fail;

/// The interfaces of a directory of files, which are the first two lines of each program.
const INTERFACES: &str = "\
interface File { fun name(): Text; fun size(): Int; fun grow(by: Int); fun check(max: Int); fun rename(to: Text); }\n\
interface Dir { fun files(): Rows<File>; fun file(i: Int): File; fun burn(n: Int); fun sizes(): Rows<Int>; }\n";

/// A way to run a program that is admitted.
pub trait Way {
    /// Runs the program of a text, and answers how it ended and what it printed.
    fn run(&mut self, alloc: Global, text: &str, admitted: &Admitted<'_>) -> Result<String, Fail>
        requires none { HasNoRefusal (mirror_program admitted.now.0) }
        requires places { HasPlaces (mirror_program admitted.now.0) };
}

/// Admits a typed program, and runs it some way.
fn run_typed<Y: Way>(alloc: Global, text: &str, typed: &Typed, way: &mut Y) -> Result<String, Fail>
    requires { HasPlaces (mirror_program typed.now) }
{
    let marks = mark(alloc, typed)?;
    match admit(alloc, typed, marks) {
        Ok(admitted) => way.run(alloc, text, &admitted),
        Err(_) => Err(Fail::new("the program isn't admitted")),
    }
}

/// Runs the program of a text some way.
fn run_text<Y: Way>(alloc: Global, text: &str, way: &mut Y) -> Result<String, Fail> {
    read_programs_have_places();
    match parse_program(alloc, text.as_bytes()) {
        Ok(program) => match check(alloc, program) {
            Ok(typed) => run_typed(alloc, text, &typed, way),
            Err(_) => Err(Fail::new("the program isn't typed")),
        },
        Err(_) => Err(Fail::new("the text isn't read")),
    }
}

/// What `main`, behind the interfaces, answers some way.
pub fn ran<Y: Way>(alloc: Global, main: &str, way: &mut Y) -> Result<String, Fail> {
    let text = format!(in alloc; "{INTERFACES}{main}")?;
    run_text(alloc, text.as_str(), way)
}

/// To run over a link, with so much fuel, to an output of which these writes fail.
#[derive(Drop)]
pub struct Over<'a, L> {
    pub link: &'a mut L,
    pub fuel: u64,
    pub failing: &'a [u64],
}

impl<L: Link> Over<'_, L> {
    /// Runs the accepted program of a text.
    fn run_accepted(
        &mut self,
        alloc: Global,
        text: &str,
        typed: &Typed,
        splits: &Seq<Split>,
    ) -> Result<String, Fail>
        requires { IsAcceptedWith typed.now splits.now }
    {
        let failing = Seq::from_slice(alloc, self.failing)?;
        let mut out = MemorySink::make(alloc, failing, usize::MAX);
        let answer = run_client(alloc, typed, splits, self.fuel, self.link, &mut out);
        answer_text(alloc, text, &answer, out.written())
    }
}

impl<L: Link> Way for Over<'_, L> {
    fn run(&mut self, alloc: Global, text: &str, admitted: &Admitted<'_>) -> Result<String, Fail> {
        match split_all(alloc, admitted) {
            Ok(splits) => self.run_accepted(alloc, text, admitted.typed(), &splits),
            Err(_) => Err(Fail::new("the batches aren't divided")),
        }
    }
}

/// To run unsplit on a service, where others make these changes.
#[derive(Drop)]
pub struct Unsplit<'a> {
    pub service: &'a Service,
    pub table: &'a mut Heap,
    pub others: &'a Seq<Seq<Change>>,
}

impl Unsplit<'_> {
    /// Runs an admitted program.
    fn run_whole(
        &mut self,
        alloc: Global,
        admitted: &Admitted<'_>,
        out: &mut MemorySink,
    ) -> Result<Run, Fail> {
        let code = code_of(alloc, self.service)?;
        match unsplit(
            alloc,
            admitted,
            &code,
            self.service.root,
            self.table,
            1000,
            out,
            self.others,
        ) {
            Ok(run) => Ok(run),
            Err(_) => Err(Fail::new("the unsplit run was cut off")),
        }
    }
}

impl Way for Unsplit<'_> {
    fn run(&mut self, alloc: Global, text: &str, admitted: &Admitted<'_>) -> Result<String, Fail> {
        let mut out = MemorySink::make(alloc, Seq::new(alloc), usize::MAX);
        let run = self.run_whole(alloc, admitted, &mut out)?;
        ended_text(alloc, text, &run, out.written())
    }
}

/// What `main` answers over a link with much fuel, to an output that never fails.
pub fn ran_over<L: Link>(alloc: Global, main: &str, link: &mut L) -> Result<String, Fail> {
    let mut way = Over {
        link,
        fuel: 1000,
        failing: &[],
    };
    ran(alloc, main, &mut way)
}

/// A link that replies these bytes.
pub fn frame_link(alloc: Global, bytes: &[u8]) -> Result<FrameLink<MemorySource, MemorySink>, Fail>
    ensures { let max = usize.MAX in IfOk result (λ link. link ≡
        record { source = new_source bytes.now [] max; sink = new_sink [] max; pairs = [] }) }
{
    let source = MemorySource::make(Seq::from_slice(alloc, bytes)?, Seq::new(alloc), usize::MAX);
    let sink = MemorySink::make(alloc, Seq::new(alloc), usize::MAX);
    Ok(FrameLink::make(alloc, source, sink))
}

/// The frame of a kind and a payload.
pub fn framed(alloc: Global, kind: u8, payload: &[u8]) -> Result<Seq<u8>, Fail> {
    let mut frame = Seq::from_slice(alloc, b"RB")?;
    frame.push(kind)?;
    frame.extend_from_slice(&(payload.len() as u64).to_be_bytes())?;
    frame.extend_from_slice(payload)?;
    Ok(frame)
}

/// A part so many times, behind other bytes and before others.
pub fn nested(
    alloc: Global,
    front: &[u8],
    part: &[u8],
    count: usize,
    end: &[u8],
) -> Result<Seq<u8>, Fail> {
    let mut bytes = Seq::from_slice(alloc, front)?;
    for _ in 0..count {
        bytes.extend_from_slice(part)?;
    }
    bytes.extend_from_slice(end)?;
    Ok(bytes)
}

/// Fails where `main` answers otherwise over a link that replies these bytes.
fn expect_reply(alloc: Global, main: &str, bytes: &[u8], want: &str) -> Result<(), Fail> {
    let mut link = frame_link(alloc, bytes)?;
    let answer = ran_over(alloc, main, &mut link)?;
    same_answer(&bytes, answer.as_str(), want)
}

/// What a link replies, and what is answered to it.
pub type Row<'a> = (&'a [u8], &'a str);

/// Fails at the first reply to which `main` answers otherwise.
pub fn expect_replies(alloc: Global, main: &str, rows: &[Row<'_>]) -> Result<(), Fail> {
    for (bytes, want) in rows {
        expect_reply(alloc, main, bytes, want)?;
    }
    Ok(())
}

/// Fails at the first forest, or what else has these bytes, to which `main` answers otherwise.
pub fn expect_forests(alloc: Global, main: &str, rows: &[Row<'_>]) -> Result<(), Fail> {
    for (payload, want) in rows {
        let frame = framed(alloc, 2, payload)?;
        expect_reply(alloc, main, frame.as_slice(), want)?;
    }
    Ok(())
}
