// Sessions that come to a listener in memory.

use crate::client::answers::other;
use crate::client::runs::nested;
use rb_base::{Coming, MemoryListen};
use rb_trees::Seq;
use std::alloc::Global;
use std::test::Fail;

/// A session: its requests of these bytes, so many, and what follows them; and the numbers of its reads and of its writes that fail.
#[derive(Clone, Copy)]
pub struct Session<'a> {
    pub request: &'a [u8],
    pub times: usize,
    pub rest: &'a [u8],
    pub reads: &'a [u64],
    pub writes: &'a [u64],
}

/// A session of no bytes, of which no call fails.
pub const STEADY: Session<'static> = Session {
    request: b"",
    times: 0,
    rest: b"",
    reads: &[],
    writes: &[],
};

/// These sessions, which are to come.
fn comings(alloc: Global, sessions: &[Session<'_>]) -> Result<Seq<Coming>, Fail> {
    let mut all = Seq::new(alloc);
    for session in sessions {
        all.push(Coming {
            bytes: nested(alloc, b"", session.request, session.times, session.rest)?,
            reads: Seq::from_slice(alloc, session.reads)?,
            writes: Seq::from_slice(alloc, session.writes)?,
        })?;
    }
    Ok(all)
}

/// A listener with these sessions under each of these addresses, whose calls of these numbers fail, and whose sessions move so many
/// bytes at once.
pub fn listen_of(
    alloc: Global,
    addresses: &[&str],
    sessions: &[Session<'_>],
    failing: &[u64],
    most: usize,
) -> Result<MemoryListen, Fail> {
    if most == 0 {
        return Err(Fail::new("no byte is moved"));
    }
    let failing = Seq::from_slice(alloc, failing)?;
    let mut all = Seq::new(alloc);
    for address in addresses {
        let name = Seq::from_slice(alloc, address.as_bytes())?;
        all.push((name, comings(alloc, sessions)?))?;
    }
    Ok(MemoryListen::make(alloc, all, failing, most))
}

/// Fails where other bytes were written in the sessions that came back to a listener, or in another number of them.
pub fn same_replies(words: &str, listen: &MemoryListen, replies: &[&[u8]]) -> Result<(), Fail> {
    let mut is_same = listen.returned().len() == replies.len();
    for ((_source, sink), reply) in listen.returned().iter().zip(replies) {
        is_same = is_same && sink.written() == *reply;
    }
    if is_same {
        return Ok(());
    }
    Err(other("sessions that came back", words))
}
