// The files of the system.

ghost use Rattle.std.specs.Prelude.{◌≡◌, ◌+◌, ◌≤◌, length, OnOk, IfOk, OnErr};
ghost use Rattle.std.specs.Io.{StartsWith};

use crate::counts::count_one;
use bytes::BytesMut;
use rb_base::{Files, FilesStop};
use std::io::Read;
use std::marker::Model;
use std::{fs, rt};

/// The files of the system, by their paths.
///
/// They tell nothing: what a read finds is the system's. Contracts see them as their count of faults.
#[derive(Drop)]
pub struct RealFiles<'a, R> {
    runtime: &'a R,
    faults: u64,
}

impl<'a, R> Model for RealFiles<'a, R> {
    ghost use Rattle.std.specs.Prelude.{ℕ};

    ghost Value = { ℕ };

    ghost view = { λ it. it.faults };
}

impl<'a, R> RealFiles<'a, R> {
    /// The files of a runtime, of which no read failed so far.
    pub fn make(runtime: &'a R) -> RealFiles<'a, R>
        ensures { result ≡ 0 }
    {
        RealFiles { runtime, faults: 0 }
    }
}

impl<R: rt::Files> Files for RealFiles<'_, R> {
    ghost use Rattle.std.specs.Prelude.{None};

    ghost told = { λ it. None };

    ghost faults = { λ it. it };

    /// Fails where the file can't be opened, or where one of its reads fails.
    #[tactic(auto, using(crate::proofs::Fronts::reads_file))]
    fn read(&mut self, name: &str, limit: usize, into: &mut BytesMut) -> Result<(), FilesStop> {
        let before = into.len();
        let answer = read_front(self.runtime, name, limit, into);
        if answer.is_err() {
            into.truncate(before);
        }
        if let Err(FilesStop::Failed) = &answer {
            count_one(&mut self.faults);
        }
        answer
    }
}

/// Appends a file's first `limit + 1` bytes, or all where it has no more. After an error some of
/// them may have been appended.
#[tactic(auto, using(crate::proofs::Fronts::starts_further))]
fn read_front<R: rt::Files>(
    runtime: &R,
    name: &str,
    limit: usize,
    into: &mut BytesMut,
) -> Result<(), FilesStop>
    ensures kept { StartsWith into.new.items into.old.items }
    ensures bound { OnOk result (length into.new.items ≤ length into.old.items + (limit + 1)) }
{
    let Ok(mut file) = fs::open(runtime, name) else {
        return Err(FilesStop::Failed);
    };
    let mut room = limit.saturating_add(1);
    for _ in 0..u64::MAX {
        let count = read_some(&mut file, room, into)?;
        if count == 0 {
            return Ok(());
        }
        room -= count;
    }
    Err(FilesStop::Failed)
}

/// Appends some of the bytes that are still to be read, at most `room`, and answers how many: 0 at
/// the file's end, or where there is no room. After an error nothing was appended.
fn read_some<F: Read>(file: &mut F, room: usize, into: &mut BytesMut) -> Result<usize, FilesStop>
    ensures kept { StartsWith into.new.items into.old.items }
    ensures count { IfOk result (λ count. length into.new.items ≡ length into.old.items + count) }
    ensures within { IfOk result (λ count. count ≤ room) }
    ensures unchanged { OnErr result (into.new.items ≡ into.old.items) }
{
    let mut piece = [0u8; 4096];
    let most = room.min(piece.len());
    let Ok(count) = file.read(&mut piece[..most]) else {
        return Err(FilesStop::Failed);
    };
    match into.extend_from_slice(&piece[..count]) {
        Ok(()) => Ok(count),
        Err(_) => Err(FilesStop::Memory),
    }
}
