// A listener that never fails.

ghost use Rattle.std.specs.Prelude.{◌≡◌, ◌+◌, ◌≤◌, [], ◌-◌, ◌^◌, vec_len, vec_capacity, IfOk, OnOk, OnErr};
ghost use Rattle.rb_base.specs.Sinks.{new_sink};
ghost use Rattle.rb_base.specs.MemoryListens.{new_steady, GivesSteady};

use crate::listens::{Listen, ListenStop};
use crate::memory_sink::MemorySink;
use crate::memory_source::SteadySource;
use crate::sinks::Failed;
use rb_trees::{Memory, Seq, Word};
use std::alloc::Global;
use std::marker::Model;

/// A listener of which no call fails: each address has the same sessions.
///
/// Whoever makes it lends it to the code that serves, and then looks at the ends that came back. It tells all that it holds.
/// A call answers an error only where memory is wanting, and its count of faults is always 0. No read of a session fails.
#[derive(Drop)]
pub struct SteadyListen {
    sessions: Seq<Word>,
    /// How many sessions were handed out since an address was started; all before that.
    handed: usize,
    /// How many sessions are out.
    out: usize,
    /// The ends that came back, with room for those of the sessions that are out.
    returned: Vec<(SteadySource, MemorySink)>,
    calls: u64,
}

impl Model for SteadyListen {
    ghost use Rattle.std.specs.Prelude.{◌+◌, ◌≤◌, drop, length, vec_len, vec_capacity};
    ghost use Rattle.rb_base.specs.MemoryListens.{SteadyListener};

    ghost Value = { SteadyListener };

    ghost view = { λ it. record {
      sessions = it.sessions;
      coming = drop it.handed it.sessions;
      out = it.out;
      back = it.returned.items;
      calls = it.calls;
    } };

    ghost invariant = { λ it. (it.handed ≤ length it.sessions) × (vec_len it.returned + it.out ≤ vec_capacity it.returned) };
}

impl SteadyListen {
    /// Nothing started yet. Each address has sessions of these bytes.
    pub fn make(alloc: Global, sessions: Seq<Word>) -> SteadyListen
        ensures { result ≡ new_steady sessions }
    {
        SteadyListen {
            handed: sessions.len(),
            sessions,
            out: 0,
            returned: Vec::new(alloc),
            calls: 0,
        }
    }

    /// The ends of the sessions that came back, in that order.
    pub fn returned(&self) -> &[(SteadySource, MemorySink)]
        ensures { result.now ≡ self.now.back }
    {
        self.returned.as_slice()
    }
}

impl Listen for SteadyListen {
    type S = SteadySource;

    type K = MemorySink;

    ghost use Rattle.std.specs.Prelude.{Some};
    ghost use Rattle.rb_base.specs.MemoryListens.{steady_listening};

    ghost told = { λ it. Some (steady_listening it) };

    ghost faults = { λ it. 0 };

    fn start(&mut self, _address: &str) -> Result<(), Failed> {
        self.calls = self.calls.saturating_add(1);
        self.handed = 0;
        Ok(())
    }

    fn next(&mut self) -> Result<Option<(SteadySource, MemorySink)>, ListenStop>
        ensures { GivesSteady result self.old self.new }
    {
        self.calls = self.calls.saturating_add(1);
        if self.handed == self.sessions.len() {
            return Ok(None);
        }
        let bytes = self.sessions.as_slice()[self.handed].as_slice();
        let ends = ends_of(bytes, &mut self.returned, self.out)?;
        self.handed += 1;
        self.out += 1;
        Ok(Some(ends))
    }

    fn back(&mut self, source: SteadySource, sink: MemorySink) {
        self.out -= 1;
        self.returned.push_reserved((source, sink));
    }
}

/// The ends of a session, for which there is room among those that came back, beside so many.
fn ends_of(
    bytes: &[u8],
    returned: &mut Vec<(SteadySource, MemorySink)>,
    out: usize,
) -> Result<(SteadySource, MemorySink), Memory>
    requires { vec_len returned.old + out ≤ vec_capacity returned.old }
    ensures source { IfOk result (λ ends. ends.0 ≡ bytes.now) }
    ensures sink { IfOk result (λ ends. ends.1 ≡ new_sink [] (2 ^ 64 - 1)) }
    ensures items { returned.new.items ≡ returned.old.items }
    ensures len { vec_len returned.new ≡ vec_len returned.old }
    ensures room { OnOk result (vec_len returned.new + (out + 1) ≤ vec_capacity returned.new) }
    ensures kept { OnErr result (vec_len returned.new + out ≤ vec_capacity returned.new) }
{
    let alloc = *returned.allocator();
    returned.reserve(out + 1)?;
    let source = SteadySource::make(Seq::from_slice(alloc, bytes)?);
    let sink = MemorySink::make(alloc, Seq::new(alloc), usize::MAX);
    Ok((source, sink))
}
