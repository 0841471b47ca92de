// A listener in memory.

ghost use Rattle.std.specs.Prelude.{◌≡◌, ◌+◌, ◌^◌, ◌<◌, ◌≤◌, vec_len, vec_capacity, is_ok, is_some, OnSome, IfOk, OnOk, OnErr};
ghost use Rattle.std.specs.Option.{option_copied};
ghost use Rattle.rb_base.specs.Listening.{started};
ghost use Rattle.rb_base.specs.Sinks.{new_sink};
ghost use Rattle.rb_base.specs.Sources.{new_source};
ghost use Rattle.rb_base.specs.MemoryListens.{position_of, coming_at, new_listener, listening_of, started_in_memory, with_pair_back, IsNext, GivesInMemory};

use crate::listens::{Coming, Listen, ListenStop};
use crate::memory_sink::MemorySink;
use crate::memory_source::MemorySource;
use crate::sinks::Failed;
use rb_trees::{Memory, Seq, Word};
use std::alloc::Global;
use std::marker::Model;

/// A listener of sessions that it holds, of which chosen calls fail.
///
/// Whoever makes it lends it to the code that serves, and then looks at the ends that came back. It tells all that it holds.
/// Of addresses of one name the first is started. Starting an address once more hands out its sessions once more.
#[derive(Drop)]
pub struct MemoryListen {
    addresses: Seq<(Word, Seq<Coming>)>,
    /// Where the address that was started stands.
    started: usize,
    /// How many sessions of that address were handed out.
    handed: usize,
    /// How many sessions are out.
    out: usize,
    /// The ends that came back, with room for those of the sessions that are out.
    returned: Vec<(MemorySource, MemorySink)>,
    calls: u64,
    failing: Seq<u64>,
    /// How many bytes a call of a session moves at most: at least one.
    most: usize,
    faults: u64,
}

impl Model for MemoryListen {
    ghost use Rattle.std.specs.Prelude.{◌+◌, ◌<◌, ◌≤◌, vec_len, vec_capacity};
    ghost use Rattle.rb_base.specs.MemoryListens.{ListenerInMemory, coming_at, IsSound};

    ghost Value = { ListenerInMemory };

    ghost view = { λ it. record {
      addresses = it.addresses;
      coming = coming_at it.addresses it.started it.handed;
      out = it.out;
      back = it.returned.items;
      calls = it.calls;
      failing = it.failing;
      most = it.most;
      faults = it.faults;
    } };

    ghost invariant = { λ it. IsSound (vec_len it.returned) it.out (vec_capacity it.returned) it.most };
}

impl MemoryListen {
    /// Nothing started yet. The calls of `start` and `next` whose numbers, counted together from 1, are in `failing` will
    /// fail, and each call of a session moves at most `most` bytes.
    pub fn make(
        alloc: Global,
        addresses: Seq<(Word, Seq<Coming>)>,
        failing: Seq<u64>,
        most: usize,
    ) -> MemoryListen
        requires { 0 < most }
        ensures { result ≡ new_listener addresses failing most }
    {
        MemoryListen {
            started: addresses.len(),
            addresses,
            handed: 0,
            out: 0,
            returned: Vec::new(alloc),
            calls: 0,
            failing,
            most,
            faults: 0,
        }
    }

    /// The ends of the sessions that came back, in that order.
    pub fn returned(&self) -> &[(MemorySource, MemorySink)]
        ensures { result.now ≡ self.now.back }
    {
        self.returned.as_slice()
    }
}

impl Listen for MemoryListen {
    type S = MemorySource;

    type K = MemorySink;

    ghost use Rattle.std.specs.Prelude.{Some};
    ghost use Rattle.rb_base.specs.MemoryListens.{listening_of};

    ghost told = { λ it. Some (listening_of it) };

    ghost faults = { λ it. it.faults };

    /// Fails exactly where the call's number is listed or there is no such address. Each call is numbered.
    fn start(&mut self, address: &str) -> Result<(), Failed>
        ensures answer { is_ok result ≡ is_some (started (listening_of self.old) address.now) }
        ensures after { self.new ≡ started_in_memory address.now result self.old }
    {
        self.calls = self.calls.saturating_add(1);
        let listed = self.failing.as_slice().contains(&self.calls);
        match find(self.addresses.as_slice(), address.as_bytes()) {
            Some(at) if !listed => {
                self.started = at;
                self.handed = 0;
                Ok(())
            }
            _ => {
                self.faults = self.faults.saturating_add(1);
                Err(Failed)
            }
        }
    }

    /// Fails exactly where the call's number is listed, unless memory is wanting. Each call is numbered.
    fn next(&mut self) -> Result<Option<(MemorySource, MemorySink)>, ListenStop>
        ensures gives { GivesInMemory result self.old self.new }
    {
        self.calls = self.calls.saturating_add(1);
        if self.failing.as_slice().contains(&self.calls) {
            self.faults = self.faults.saturating_add(1);
            return Err(ListenStop::Failed);
        }
        let Some(session) = next_of(self.addresses.as_slice(), self.started, self.handed) else {
            return Ok(None);
        };
        let ends = ends_of(session, &mut self.returned, self.out, self.most)?;
        self.handed += 1;
        self.out += 1;
        Ok(Some(ends))
    }

    fn back(&mut self, source: MemorySource, sink: MemorySink)
        requires { 0 < self.old.out }
        ensures { self.new ≡ with_pair_back (source, sink) self.old }
    {
        self.out -= 1;
        self.returned.push_reserved((source, sink));
    }
}

/// Where an address stands, the first of its name.
fn find(addresses: &[(Word, Seq<Coming>)], address: &[u8]) -> Option<usize>
    ensures { result ≡ position_of addresses.now address.now }
{
    addresses
        .iter()
        .position(|(own, _)| own.as_slice() == address)
}

/// The session that comes next of the address that stands there, of which so many were handed out.
fn next_of(addresses: &[(Word, Seq<Coming>)], at: usize, handed: usize) -> Option<&Coming>
    ensures next { IsNext (coming_at addresses.now at handed) (coming_at addresses.now at (handed + 1)) (option_copied result) }
    ensures within { OnSome result (handed + 1 < 2 ^ 64) }
{
    let (_, sessions) = addresses.get(at)?;
    let sessions = sessions.as_slice();
    if handed < sessions.len() {
        Some(&sessions[handed])
    } else {
        None
    }
}

/// The ends of a session, for which there is room among those that came back, beside so many.
fn ends_of(
    session: &Coming,
    returned: &mut Vec<(MemorySource, MemorySink)>,
    out: usize,
    most: usize,
) -> Result<(MemorySource, MemorySink), Memory>
    requires most { 0 < most }
    requires room { vec_len returned.old + out ≤ vec_capacity returned.old }
    ensures source { IfOk result (λ ends. ends.0 ≡ new_source session.now.bytes session.now.reads most) }
    ensures sink { IfOk result (λ ends. ends.1 ≡ new_sink session.now.writes most) }
    ensures items { returned.new.items ≡ returned.old.items }
    ensures len { vec_len returned.new ≡ vec_len returned.old }
    ensures room { OnOk result (vec_len returned.new + (out + 1) ≤ vec_capacity returned.new) }
    ensures kept { OnErr result (vec_len returned.new + out ≤ vec_capacity returned.new) }
{
    let alloc = *returned.allocator();
    returned.reserve(out + 1)?;
    let bytes = Seq::from_slice(alloc, session.bytes.as_slice())?;
    let reads = Seq::from_slice(alloc, session.reads.as_slice())?;
    let writes = Seq::from_slice(alloc, session.writes.as_slice())?;
    let source = MemorySource::make(bytes, reads, most);
    Ok((source, MemorySink::make(alloc, writes, most)))
}
