// A server of a service whose accepted requests are kept in a journal.

ghost use Rattle.std.specs.Prelude.{◌≡◌, MatchResult, OnOk};
ghost use Rattle.rb_base.specs.Devices.{device};
ghost use Rattle.rb_disk.specs.Storing.{HasOneOut, after_back, seen};
ghost use Rattle.rb_journal.specs.declared.stops.JournalStop.TheVariants as stops;
ghost use Rattle.rb_session.specs.Answering.{IsTypedHost};
ghost use Rattle.rb_top.specs.Ends.{Ends};
ghost use Rattle.rb_top.specs.KeepParts.{BeginsBy, IsReady, KeepsToBack, ListensToBack, ServesKeptTo};
ghost use Rattle.rb_top.specs.KeepRuns.{EndsServing, FailsToBegin, IsServingStop, KeepsAs, KeepsOn, SaysStop, disk_line};
ghost use Rattle.rb_top.specs.Scene.{output, Across, Between};
ghost use Rattle.rb_top.specs.Words.{keeping_by};
ghost use Rattle.rb_top.specs.declared.status.Status.TheVariants.{DiskFault};

use crate::loaded::loaded_service;
use crate::saying::{say, say_of};
use crate::server::say_table;
use crate::sessions::{SessionsStop, serve_sessions};
use crate::status::Status;
use crate::words::Keeping;
use rb_base::{Failed, Files, Listen, Sink};
use rb_disk::{Disk, Stores};
use rb_exec::Host;
use rb_heap::Heap;
use rb_hub::Hub;
use rb_journal::{Journal, JournalStop, Kept, Stopped, answered_requests_are_kept};
use rb_trees::Seq;
use std::alloc::Global;

/// Says that the disk of a name failed.
fn say_disk_fault<W: Sink>(alloc: Global, name: &str, out: &mut W) -> Status
    ensures { Ends (DiskFault name.now) (disk_line name.now) result (output W.Sink out.old) (output W.Sink out.new) }
{
    match Seq::from_slice(alloc, name.as_bytes()) {
        Ok(word) => say_of(alloc, Status::DiskFault(word), b"disk fault ", name, out),
        Err(_) => Status::Memory,
    }
}

/// Says why the journal on the disk of a name stopped.
fn say_stop<W: Sink>(alloc: Global, name: &str, stop: JournalStop, out: &mut W) -> Status
    requires { stop ≡ stops.Closed → ⊥ }
    ensures { Across W.Sink out.old out.new (SaysStop name.now stop result) }
{
    match stop {
        JournalStop::DiskFault => say_disk_fault(alloc, name, out),
        JournalStop::Closed => unreachable!(),
        JournalStop::Full => say(Status::JournalRefused(3), b"journal 3 Full\n", out),
        JournalStop::NotAJournal => {
            say(Status::JournalRefused(4), b"journal 4 NotAJournal\n", out)
        }
        JournalStop::BadRecord(_) => say(Status::JournalRefused(5), b"journal 5 BadRecord\n", out),
        JournalStop::Memory => Status::Memory,
    }
}

/// Begins a journal on an empty disk; or opens the one that stands there, and performs its requests on a host.
fn begin_journal<D: Disk>(alloc: Global, disk: D, host: &mut Host) -> Result<Journal<D>, Stopped<D>>
    requires typed { IsTypedHost host.old }
    requires fresh { D.faults disk ≡ 0 }
    ensures begins { MatchResult result
        (λ journal. BeginsBy D.told D.faults disk host.old journal host.new)
        (λ stopped. FailsToBegin D.told D.faults disk stopped.stop stopped.disk) }
    ensures typed { OnOk result (IsTypedHost host.new) }
{
    let mut disk = disk;
    match disk.len() {
        Err(Failed) => Err(Stopped {
            stop: JournalStop::DiskFault,
            disk,
        }),
        Ok(0) => Journal::create(alloc, disk),
        Ok(_) => Journal::open(alloc, disk, host),
    }
}

/// Serves so many sessions at most by a hub over whoever keeps requests, and says how each was served.
fn serve_kept<D: Disk, W: Sink, N: Listen>(
    alloc: Global,
    kept: Kept<D>,
    count: u32,
    out: &mut W,
    listen: &mut N,
) -> (Kept<D>, Result<(), SessionsStop<JournalStop>>)
    requires { IsReady D.faults kept }
    ensures { let listener = device N.told N.faults in
        Across W.Sink out.old out.new
        (ServesKeptTo D.told D.faults kept result.0 count result.1 (listener listen.old) (listener listen.new)) }
{
    answered_requests_are_kept::<D>();
    let mut hub = Hub::make(alloc, kept);
    let answer = serve_sessions(alloc, &mut hub, count, out, listen);
    (hub.into_answers(), answer)
}

/// Prints the table that is left where serving ended well, or says why a journal on the disk of a name stopped, and answers how
/// serving ended.
fn say_end<W: Sink>(
    alloc: Global,
    name: &str,
    answer: Result<(), SessionsStop<JournalStop>>,
    table: &Heap,
    out: &mut W,
) -> Status
    requires { IsServingStop answer }
    ensures { Across W.Sink out.old out.new (EndsServing name.now table.now answer result) }
{
    match answer {
        Ok(()) => say_table(alloc, table, out),
        Err(SessionsStop::Said(status)) => status,
        Err(SessionsStop::Answers(stop)) => say_stop(alloc, name, stop, out),
    }
}

/// Gives the disk of whoever kept requests back, and says how serving ended.
fn end_serving<W: Sink, T: Stores>(
    alloc: Global,
    kept: Kept<T::D>,
    name: &str,
    answer: Result<(), SessionsStop<JournalStop>>,
    out: &mut W,
    stores: &mut T,
) -> Status
    requires out { HasOneOut (T.told stores.old) }
    requires stops { IsServingStop answer }
    ensures says { Across W.Sink out.old out.new (EndsServing name.now kept.host.table answer result) }
    ensures back { let it = seen T.told T.faults T.broken in let left = device T.D.told T.D.faults kept.journal.disk in
        it stores.new ≡ after_back left (it stores.old) }
{
    let (journal, host) = kept.into_parts();
    stores.back(journal.into_disk());
    say_end(alloc, name, answer, host.table(), out)
}

/// Serves so many sessions at most by whoever keeps requests, gives the disk back, and says how serving ended.
fn keep_sessions<W: Sink, N: Listen, T: Stores>(
    alloc: Global,
    kept: Kept<T::D>,
    keeping: &Keeping<'_>,
    out: &mut W,
    listen: &mut N,
    stores: &mut T,
) -> Status
    requires ready { IsReady T.D.faults kept }
    requires out { HasOneOut (T.told stores.old) }
    ensures { let listener = device N.told N.faults in let it = seen T.told T.faults T.broken in
        let asked = keeping_by keeping.now in Across W.Sink out.old out.new
        (KeepsToBack T.D.Disk asked kept result (listener listen.old) (listener listen.new) (it stores.old) (it stores.new)) }
{
    let (left, answer) = serve_kept(alloc, kept, keeping.serving.count, out, listen);
    end_serving(alloc, left, keeping.journal, answer, out, stores)
}

/// Listens at an address with whoever keeps requests, and serves; or gives the disk back, and says that it can't be listened there.
fn listen_and_keep<W: Sink, N: Listen, T: Stores>(
    alloc: Global,
    kept: Kept<T::D>,
    keeping: &Keeping<'_>,
    out: &mut W,
    listen: &mut N,
    stores: &mut T,
) -> Status
    requires ready { IsReady T.D.faults kept }
    requires out { HasOneOut (T.told stores.old) }
    ensures { let listener = device N.told N.faults in let it = seen T.told T.faults T.broken in
        let asked = keeping_by keeping.now in Across W.Sink out.old out.new
        (ListensToBack T.D.Disk asked kept result (listener listen.old) (listener listen.new) (it stores.old) (it stores.new)) }
{
    match listen.start(keeping.serving.address) {
        Ok(()) => keep_sessions(alloc, kept, keeping, out, listen, stores),
        Err(Failed) => {
            let (journal, _) = kept.into_parts();
            stores.back(journal.into_disk());
            say(Status::ListenFault, b"listen fault\n", out)
        }
    }
}

/// Keeps the requests to a host in the journal on the disk of a name, and serves.
fn keep_on<W: Sink, N: Listen, T: Stores>(
    alloc: Global,
    host: Host,
    keeping: &Keeping<'_>,
    out: &mut W,
    listen: &mut N,
    stores: &mut T,
) -> Status
    requires { IsTypedHost host }
    ensures { let listener = device N.told N.faults in let it = seen T.told T.faults T.broken in
        let asked = keeping_by keeping.now in Across W.Sink out.old out.new
        (KeepsOn T.D.Disk asked host result (listener listen.old) (listener listen.new) (it stores.old) (it stores.new)) }
{
    let Ok(disk) = stores.open(keeping.journal) else {
        return say_disk_fault(alloc, keeping.journal, out);
    };
    let mut host = host;
    match begin_journal(alloc, disk, &mut host) {
        Ok(journal) => {
            listen_and_keep(
                alloc,
                Kept::make(journal, host),
                keeping,
                out,
                listen,
                stores,
            )
        }
        Err(Stopped { stop, disk }) => {
            stores.back(disk);
            say_stop(alloc, keeping.journal, stop, out)
        }
    }
}

/// Serves the service in a file over the sessions that come at an address, and keeps the accepted requests in the journal on the disk
/// of a name, which is begun where the disk is empty.
pub fn run_keep<F: Files, W: Sink, N: Listen, T: Stores>(
    alloc: Global,
    keeping: &Keeping<'_>,
    files: &mut F,
    out: &mut W,
    listen: &mut N,
    stores: &mut T,
) -> Status
    ensures { let listener = device N.told N.faults in let it = seen T.told T.faults T.broken in
        let asked = keeping_by keeping.now in Between F.Files W.Sink files.old out.old files.new out.new
        (KeepsAs T.D.Disk asked result (listener listen.old) (listener listen.new) (it stores.old) (it stores.new)) }
{
    match loaded_service(alloc, keeping.serving.service, files, out) {
        Err(status) => status,
        Ok((service, table)) => match Host::make(alloc, service, table) {
            Ok(host) => keep_on(alloc, host, keeping, out, listen, stores),
            Err(_) => Status::Memory,
        },
    }
}
