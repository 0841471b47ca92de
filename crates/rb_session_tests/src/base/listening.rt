// Listeners: the sessions that come at an address, and how they come back.

use crate::expected::Told;
use rb_base::{
    Coming, Listen, ListenStop, MemoryListen, MemorySink, MemorySource, Sink, Source, SteadyListen,
    write_whole,
};
use rb_trees::{Memory, Seq};
use std::alloc::Global;

/// A session of which no call fails.
fn coming(alloc: Global, bytes: &[u8]) -> Result<Coming, Memory> {
    Ok(Coming {
        bytes: Seq::from_slice(alloc, bytes)?,
        reads: Seq::new(alloc),
        writes: Seq::new(alloc),
    })
}

/// A list of one item.
fn list_of<T: Drop>(alloc: Global, item: T) -> Result<Seq<T>, Memory> {
    let mut list = Seq::new(alloc);
    list.push(item)?;
    Ok(list)
}

/// Two sessions under the address `a`.
fn two_sessions(alloc: Global) -> Result<Seq<(Seq<u8>, Seq<Coming>)>, Memory> {
    let address = Seq::from_slice(alloc, b"a")?;
    let mut sessions = list_of(alloc, coming(alloc, b"one")?)?;
    sessions.push(coming(alloc, b"two")?)?;
    list_of(alloc, (address, sessions))
}

/// Reads once from a session, writes the three bytes of its buffer, and says how much was read.
fn word_of_session<S: Source, K: Sink>(source: &mut S, sink: &mut K) -> &'static str {
    let mut buffer = *b"...";
    let read = source.read(&mut buffer);
    let written = write_whole(sink, &buffer);
    match (read, written) {
        (Ok(2), Ok(())) => "two bytes",
        (Ok(3), Ok(())) => "three bytes",
        _ => "another session",
    }
}

/// Serves the next session and gives it back, and says what it came to.
fn word_of_next<N: Listen>(listen: &mut N) -> &'static str {
    match listen.next() {
        Ok(Some((mut source, mut sink))) => {
            let word = word_of_session(&mut source, &mut sink);
            listen.back(source, sink);
            word
        }
        Ok(None) => "no session",
        Err(ListenStop::Failed) => "failed",
        Err(ListenStop::Memory) => "out of memory",
    }
}

/// Starts of addresses, and of the next session where there is none, with what they come to.
type Call<'a> = (Option<&'a str>, &'a str);

/// Says what a call comes to that comes to something else.
fn call_told<N: Listen>(listen: &mut N, (address, want): &Call<'_>) -> Told {
    let word = match address {
        Some(address) if listen.start(address).is_ok() => "started",
        Some(_) => "failed",
        None => word_of_next(listen),
    };
    if word == *want { Ok(()) } else { Err(word) }
}

/// Says what the first such call comes to.
fn calls_told<N: Listen>(listen: &mut N, calls: &[Call<'_>]) -> Told {
    let mut told = Ok(());
    for call in calls {
        told = told.and(call_told(listen, call));
    }
    told
}

/// Calls of a listener of which the third is listed.
const CALLS: &[Call<'_>] = &[
    (Some("b"), "failed"),
    (Some("a"), "started"),
    (None, "failed"),
    (None, "two bytes"),
    (None, "two bytes"),
    (None, "no session"),
];

/// Whether the ends of a session have these bytes left, and these written.
fn stand_so((source, sink): &(MemorySource, MemorySink), left: &[u8], written: &[u8]) -> bool {
    source.left() == left && sink.written() == written
}

/// Whether just two sessions came back, with one byte left of each.
fn both_came_back(listen: &MemoryListen) -> bool {
    match listen.returned() {
        [one, two] => stand_so(one, b"e", b"on.") && stand_so(two, b"o", b"tw."),
        _ => false,
    }
}

#[test]
fn a_listener_hands_out_the_sessions_of_its_address(rt: HostRuntime) {
    let failing = Seq::from_slice(rt.alloc(), &[3]).expect(&rt, "a list");
    let sessions = two_sessions(rt.alloc()).expect(&rt, "sessions");
    let mut listen = MemoryListen::make(rt.alloc(), sessions, failing, 2);
    calls_told(&mut listen, CALLS).expect(&rt, "a call");
    assert!(rt; both_came_back(&listen), "other sessions came back");
}

/// Calls of a listener with one session at each address.
const STEADY_CALLS: &[Call<'_>] = &[
    (None, "no session"),
    (Some("a"), "started"),
    (None, "three bytes"),
    (None, "no session"),
    (Some("b"), "started"),
    (None, "three bytes"),
    (None, "no session"),
];

#[test]
fn a_steady_listener_has_each_address(rt: HostRuntime) {
    let bytes = Seq::from_slice(rt.alloc(), b"one").expect(&rt, "bytes");
    let sessions = list_of(rt.alloc(), bytes).expect(&rt, "a session");
    let mut listen = SteadyListen::make(rt.alloc(), sessions);
    calls_told(&mut listen, STEADY_CALLS).expect(&rt, "a call");
    assert!(rt;
        listen.returned().len() == 2,
        "another number of sessions came back"
    );
}
