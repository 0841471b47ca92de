// The commands, from their words to what they print.

ghost use Rattle.std.specs.Prelude.{Some, map};
ghost use Rattle.rb_trees.specs.mirror.Services.{mirror_service};
ghost use Rattle.rb_meaning.specs.Links.{IsTyped};
ghost use Rattle.rb_meaning_split.specs.Division.{mirror_split};
ghost use Rattle.rb_shown.specs.Views.{shown_divisions};
ghost use Rattle.rb_session.specs.Dials.{seen};
ghost use Rattle.rb_session.specs.declared.targets.Target.TheVariants as targets;
ghost use Rattle.rb_law_division.specs.Sendable.{HasPlaces};
ghost use Rattle.rb_top.specs.Accepted.{IsAdmitted, IsAccepted};
ghost use Rattle.rb_top.specs.Answers.{Says, SaysOfProgram, Tries};
ghost use Rattle.rb_top.specs.Commands.{DialsWith, DividesWith, GoesOnTyped, GoesWith, RunsWith};
ghost use Rattle.rb_top.specs.Completeness.{Completes};
ghost use Rattle.rb_top.specs.Ends.{Ends};
ghost use Rattle.rb_top.specs.Runs.{served_on};
ghost use Rattle.rb_top.specs.Scene.{output, Across, Between, outside};
ghost use Rattle.rb_top.specs.Sources.{text_of, program_of};
ghost use Rattle.rb_top.specs.Texts.{WithinLength};
ghost use Rattle.rb_top.specs.Words.{texts, wanted, wanted_by, asked_by, asked_job};
ghost use Rattle.rb_top.specs.declared.status.Status.TheVariants.{Done};

use crate::admission::admission;
use crate::both_run::run_both;
use crate::dial_run::run_dialled;
use crate::divisions::divisions_text;
use crate::hub_run::run_hub;
use crate::json_run::run_json;
use crate::keep_run::run_keep;
use crate::loaded::{loaded_program, loaded_service};
use crate::refusing::refuse_batch;
use crate::saying::{run_answer, say};
use crate::server::{run_child, run_server};
use crate::source::{Accepted, Source};
use crate::status::Status;
use crate::trial::trial_files;
use crate::unsplit_run::run_unsplit;
use crate::words::{Call, Command, Job, Task, Way, command_of};
use rb_base::{Files, Listen, Sink};
use rb_disk::Stores;
use rb_flow::{AdmitStop, Admitted};
use rb_heap::Heap;
use rb_hub_lines::event_lines_have_one_reading;
use rb_journal::one_reading;
use rb_parse::sources_have_one_outcome;
use rb_session::{Dial, Target};
use rb_split::{SplitStop, split_all};
use rb_store::sources_have_one_outcome_as_services;
use rb_trees::{Seq, Service, Split};
use std::alloc::Global;

/// Runs a program over a link to the server at the address of a call.
fn run_call<W: Sink, D: Dial>(
    alloc: Global,
    program: &Accepted<'_>,
    call: &Call,
    dial: &mut D,
    out: &mut W,
) -> Status
    requires { IsAccepted program.now }
    ensures { let dialled = seen D.told D.faults D.broken in let target = targets.Address call.now.address.now in
        Across W.Sink out.old out.new
        (DialsWith D.L.Link program.now call.now.fuel target result (dialled dial.old) (dialled dial.new)) }
{
    match Seq::from_slice(alloc, call.address.as_bytes()) {
        Ok(address) => {
            let target = Target::Address(address);
            run_dialled(alloc, program, call.fuel, &target, dial, out)
        }
        Err(_) => Status::Memory,
    }
}

/// Runs a program as a job asks over a link to a child that serves the job's service.
fn run_pair<W: Sink, D: Dial>(
    alloc: Global,
    program: &Accepted<'_>,
    job: &Job,
    dial: &mut D,
    out: &mut W,
) -> Status
    requires { IsAccepted program.now }
    ensures { let dialled = seen D.told D.faults D.broken in let target = targets.Child job.now.service.now in
        Across W.Sink out.old out.new
        (DialsWith D.L.Link program.now job.now.fuel target result (dialled dial.old) (dialled dial.new)) }
{
    match Seq::from_slice(alloc, job.service.as_bytes()) {
        Ok(service) => {
            let target = Target::Child(service);
            run_dialled(alloc, program, job.fuel, &target, dial, out)
        }
        Err(_) => Status::Memory,
    }
}

/// Runs a program on a service and its table as a job asks, and prints what it means there.
fn run_program<W: Sink, D: Dial>(
    alloc: Global,
    program: &Accepted<'_>,
    job: &Job,
    service: Service,
    table: Heap,
    dial: &mut D,
    out: &mut W,
) -> Status
    requires accepted { IsAccepted program.now }
    requires typed { IsTyped (mirror_service service) table }
    ensures { let dialled = seen D.told D.faults D.broken in let served = served_on service table in
        Across W.Sink out.old out.new
        (RunsWith D.L.Link program.now job.now served result (dialled dial.old) (dialled dial.new)) }
{
    match job.way {
        Way::Both | Way::Trial => run_both(alloc, program, job, service, table, dial, out),
        Way::Unsplit => run_answer(run_unsplit(alloc, program, &service, table, job.fuel, out)),
        Way::Pair => run_pair(alloc, program, job, dial, out),
    }
}

/// Runs a program as a job asks, on the service in its file.
fn run_on<F: Files, W: Sink, D: Dial>(
    alloc: Global,
    program: &Accepted<'_>,
    job: &Job,
    files: &mut F,
    dial: &mut D,
    out: &mut W,
) -> Status
    requires { IsAccepted program.now }
    ensures { let dialled = seen D.told D.faults D.broken in
        Between F.Files W.Sink files.old out.old files.new out.new
        (GoesWith D.L.Link program.now (asked_job job.now) result (dialled dial.old) (dialled dial.new)) }
{
    match loaded_service(alloc, job.service, files, out) {
        Err(status) => status,
        Ok((service, table)) => run_program(alloc, program, job, service, table, dial, out),
    }
}

/// Shows how the batches of a program are divided.
fn say_divided<W: Sink>(alloc: Global, text: &[u8], splits: &[Split], out: &mut W) -> Status
    requires { WithinLength text.now }
    ensures { Ends Done (shown_divisions text.now (map mirror_split splits.now)) result (output W.Sink out.old) (output W.Sink out.new) }
{
    match divisions_text(alloc, text, splits) {
        Ok(view) => say(Status::Done, view.as_slice(), out),
        Err(_) => Status::Memory,
    }
}

/// Carries out the rest of a task, once its program is known to be accepted.
fn fulfil<F: Files, W: Sink, D: Dial>(
    alloc: Global,
    program: &Accepted<'_>,
    task: &Task,
    files: &mut F,
    dial: &mut D,
    out: &mut W,
) -> Status
    requires { IsAccepted program.now }
    ensures { let dialled = seen D.told D.faults D.broken in
        Between F.Files W.Sink files.old out.old files.new out.new
        (GoesWith D.L.Link program.now (asked_by task.now) result (dialled dial.old) (dialled dial.new)) }
{
    match task {
        Task::Check(_) => say(Status::Done, b"accepted\n", out),
        Task::Split(_) => say_divided(alloc, program.text, program.splits.as_slice(), out),
        Task::Run(job) => run_on(alloc, program, job, files, dial, out),
        Task::Call(call) => run_call(alloc, program, call, dial, out),
    }
}

/// Carries out the rest of a task, once its program is known to be admitted: its batches are divided first.
fn go_on_admitted<F: Files, W: Sink, D: Dial>(
    alloc: Global,
    text: &[u8],
    admitted: &Admitted<'_>,
    task: &Task,
    files: &mut F,
    dial: &mut D,
    out: &mut W,
) -> Status
    requires admitted { IsAdmitted admitted.now }
    requires short { WithinLength text.now }
    ensures { let dialled = seen D.told D.faults D.broken in
        Between F.Files W.Sink files.old out.old files.new out.new
        (DividesWith D.L.Link text.now admitted.now (asked_by task.now) result (dialled dial.old) (dialled dial.new)) }
{
    match split_all(alloc, admitted) {
        Ok(splits) => {
            let program = Accepted {
                text,
                admitted,
                splits: &splits,
            };
            fulfil(alloc, &program, task, files, dial, out)
        }
        Err(SplitStop::Refused(refusal)) => refuse_batch(alloc, text, refusal, out),
        Err(SplitStop::Memory) => Status::Memory,
    }
}

/// Carries out the rest of a task, once its program is known to be typed: it is admitted first.
fn go_on<F: Files, W: Sink, D: Dial>(
    alloc: Global,
    source: &Source,
    task: &Task,
    files: &mut F,
    dial: &mut D,
    out: &mut W,
) -> Status
    requires places { HasPlaces (program_of source.now) }
    requires short { WithinLength (text_of source.now) }
    ensures { let dialled = seen D.told D.faults D.broken in
        Between F.Files W.Sink files.old out.old files.new out.new
        (GoesOnTyped D.L.Link source.now (asked_by task.now) result (dialled dial.old) (dialled dial.new)) }
{
    let text = source.text.as_slice();
    match admission(alloc, &source.typed) {
        Ok(admitted) => go_on_admitted(alloc, text, &admitted, task, files, dial, out),
        Err(AdmitStop::Refused(refusal)) => refuse_batch(alloc, text, refusal, out),
        Err(AdmitStop::Memory) => Status::Memory,
    }
}

/// Carries out what is asked of a program, which is read, typed, admitted and divided first.
fn carry_out_task<F: Files, W: Sink, D: Dial>(
    alloc: Global,
    task: &Task,
    files: &mut F,
    dial: &mut D,
    out: &mut W,
) -> Status
    ensures { let dialled = seen D.told D.faults D.broken in
        Between F.Files W.Sink files.old out.old files.new out.new
        (SaysOfProgram D.L.Link (asked_by task.now) result (dialled dial.old) (dialled dial.new)) }
{
    match loaded_program(alloc, task.program(), files, out) {
        Err(status) => status,
        Ok(source) => {
            let status = go_on(alloc, &source, task, files, dial, out);
            drop(source);
            status
        }
    }
}

/// Runs the program of a trial on its service of so many files, over files in memory that hold the two.
fn run_trial<W: Sink, D: Dial>(alloc: Global, count: u64, dial: &mut D, out: &mut W) -> Status
    ensures { let dialled = seen D.told D.faults D.broken in
        Across W.Sink out.old out.new (Tries D.L.Link count result (dialled dial.old) (dialled dial.new)) }
{
    let Ok(mut files) = trial_files(alloc, count) else {
        return Status::Memory;
    };
    let task = Task::Run(Job::of_trial());
    carry_out_task(alloc, &task, &mut files, dial, out)
}

/// Carries out a command.
fn carry_out<F: Files, W: Sink, D: Dial, N: Listen, T: Stores>(
    alloc: Global,
    command: &Command<'_>,
    files: &mut F,
    out: &mut W,
    dial: &mut D,
    listen: &mut N,
    stores: &mut T,
) -> Status
    ensures { let asked = Some (wanted_by command.now) in let it = outside F.Files W.Sink D.Dial N.Listen T.Stores in
        Says D.L.Link T.D.Disk asked result (it files.old out.old dial.old listen.old stores.old)
        (it files.new out.new dial.new listen.new stores.new) }
{
    match command {
        Command::Program(task) => carry_out_task(alloc, task, files, dial, out),
        Command::Serve(serving) => run_server(alloc, serving, files, out, listen),
        Command::Keep(keeping) => run_keep(alloc, keeping, files, out, listen, stores),
        Command::Child(service) => run_child(alloc, service, files, listen),
        Command::Trial(count) => run_trial(alloc, *count, dial, out),
        Command::Hub(playing) => run_hub(alloc, playing, files, out),
        Command::Json(asking) => run_json(alloc, asking, files, out),
    }
}

/// Runs the command that the words are.
///
/// Each answer has its cause in the words, the files, the links that are dialled, the sessions that come and the disks, as far as they
/// tell: `Says` states them, the order in which they count, and what is left of the outside. The files' count of faults rises exactly
/// where a file can't be read, and the output's exactly where the answer is `WriteFault`. Each link, each session and each disk that
/// was had is given back. Only `keep` touches the disks.
pub fn top<F: Files, W: Sink, D: Dial, N: Listen, T: Stores>(
    alloc: Global,
    words: &[String],
    files: &mut F,
    out: &mut W,
    dial: &mut D,
    listen: &mut N,
    stores: &mut T,
) -> Status
    // What is answered and printed is what the words and the outside mean.
    ensures answer { let asked = wanted (texts words.now) in let it = outside F.Files W.Sink D.Dial N.Listen T.Stores in
        Says D.L.Link T.D.Disk asked result (it files.old out.old dial.old listen.old stores.old)
        (it files.new out.new dial.new listen.new stores.new) }
    // Where the outside tells all that a command needs, it is carried out to its end, unless the output fails or memory runs out.
    ensures complete { let asked = wanted (texts words.now) in let it = outside F.Files W.Sink D.Dial N.Listen T.Stores in
        Completes D.L.Link asked result (it files.old out.old dial.old listen.old stores.old)
        (it files.new out.new dial.new listen.new stores.new) }
{
    sources_have_one_outcome();
    sources_have_one_outcome_as_services();
    event_lines_have_one_reading();
    one_reading();
    match command_of(words) {
        Some(command) => carry_out(alloc, &command, files, out, dial, listen, stores),
        None => say(Status::Words, b"words not understood\n", out),
    }
}
