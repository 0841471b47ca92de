// Requests that are kept in a file of the system.

ghost use Rattle.std.specs.Prelude.{IfOk, OnOk};
ghost use Rattle.rb_session.specs.Answering.{IsTypedHost};

use crate::hosts::{counter, line_of};
use crate::payloads::{UP, expect_bytes};
use bytes::BytesMut;
use rb_devices::{FileStores, RealDisk};
use rb_disk::{Disk, Stores};
use rb_exec::Host;
use rb_journal::{Journal, JournalStop, Kept, Stopped};
use rb_session::Answers;
use rb_trees::Word;
use std::alloc::Global;
use std::fs;
use std::test::*;

/// A new journal on an empty disk; or else the one that stands there, with its requests performed on the host.
fn journal_on(
    alloc: Global,
    disk: RealDisk,
    host: &mut Host,
) -> Result<Journal<RealDisk>, Stopped<RealDisk>>
    requires { IsTypedHost host.old }
    ensures { OnOk result (IsTypedHost host.new) }
{
    let mut disk = disk;
    match disk.len() {
        Ok(0) => Journal::create(alloc, disk),
        Ok(_) => Journal::open(alloc, disk, host),
        Err(_) => Err(Stopped {
            stop: JournalStop::DiskFault,
            disk,
        }),
    }
}

/// A host that has performed what a disk keeps, with the journal there.
fn kept_on(alloc: Global, disk: RealDisk, host: Host) -> Result<Kept<RealDisk>, Fail>
    requires { IsTypedHost host }
    ensures { IfOk result (λ kept. IsTypedHost kept.host) }
{
    let mut host = host;
    match journal_on(alloc, disk, &mut host) {
        Ok(journal) => Ok(Kept::make(journal, host)),
        Err(_) => Err(Fail::new("the file is no journal")),
    }
}

/// The line of a host after one request more.
fn line_of_one_more(alloc: Global, kept: &mut Kept<RealDisk>) -> Result<Word, Fail>
    requires { IsTypedHost kept.old.host }
{
    let mut reply = BytesMut::new(alloc);
    kept.answer_one(alloc, UP, &mut reply)?;
    line_of(alloc, kept.host())
}

/// The line of a host that has performed what a disk keeps, and one request more; and that disk.
fn answer_one_more(alloc: Global, disk: RealDisk) -> Result<(Word, RealDisk), Fail> {
    let host = counter(alloc)?;
    let mut kept = kept_on(alloc, disk, host)?;
    let line = line_of_one_more(alloc, &mut kept)?;
    let (journal, _) = kept.into_parts();
    Ok((line, journal.into_disk()))
}

/// Fails where a file, after one request more, doesn't keep as many as are wanted.
fn expect_one_more(rt: &HostRuntime, name: &str, want: &str) -> Result<(), Fail> {
    let mut stores = FileStores::make(rt);
    let (line, disk) = answer_one_more(rt.alloc(), stores.open(name)?)?;
    stores.back(disk);
    expect_bytes(line.as_slice(), want.as_bytes())
}

#[test]
fn requests_in_a_file_are_performed_again(rt: HostRuntime) -> Result<(), Fail> {
    let lines = [
        "object 0: Counter { count = 1; }\n",
        "object 0: Counter { count = 2; }\n",
        "object 0: Counter { count = 3; }\n",
    ];
    for line in lines {
        expect_one_more(&rt, "requests", line)?;
    }
    fs::remove_file(&rt, "requests")?;
    Ok(())
}
