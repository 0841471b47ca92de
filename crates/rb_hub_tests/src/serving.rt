// Sessions of a hub that are served over ends in memory.

use crate::expected::{NO_MEMORY, Told, told};
use crate::hosts::{NUMBER, host_of};
use crate::streams::{BOTH, BOTH_REPLIES, BROKEN, EMPTY, EMPTY_REPLY, ONE_AND_PART};
use rb_base::{MemorySink, MemorySource};
use rb_hub::{Hub, HubServeStop, serve_hub};
use rb_session::Served;
use rb_trees::{Memory, Seq};
use std::alloc::Global;

/// A session over a source of a stream, which gives so many bytes at most at once and of which these reads fail, and a sink of which
/// these writes fail; and what is wanted of it: how it ends, and what is written.
struct Case {
    stream: &'static [u8],
    most: usize,
    reads: &'static [u64],
    writes: &'static [u64],
    answer: &'static str,
    written: &'static [u8],
}

const CASES: &[Case] = &[
    // A source that gives all that is asked for.
    Case {
        stream: BOTH,
        most: 100,
        reads: &[],
        writes: &[],
        answer: "2 requests",
        written: BOTH_REPLIES,
    },
    // One that gives less.
    Case {
        stream: BOTH,
        most: 5,
        reads: &[],
        writes: &[],
        answer: "2 requests",
        written: BOTH_REPLIES,
    },
    Case {
        stream: b"",
        most: 5,
        reads: &[],
        writes: &[],
        answer: "0 requests",
        written: b"",
    },
    Case {
        stream: ONE_AND_PART,
        most: 7,
        reads: &[],
        writes: &[],
        answer: "after 1 requests: the stream ends within a frame, after 20 bytes",
        written: EMPTY_REPLY,
    },
    Case {
        stream: BROKEN,
        most: 100,
        reads: &[],
        writes: &[],
        answer: "after 1 requests: the stream breaks its form at offset 19",
        written: EMPTY_REPLY,
    },
    // The first request has come whole by the fifth read: a header in three, and its payload in two.
    Case {
        stream: BOTH,
        most: 5,
        reads: &[6],
        writes: &[],
        answer: "after 1 requests: the requests can't be read",
        written: EMPTY_REPLY,
    },
    // Both requests are answered, and a front of the replies is written.
    Case {
        stream: BOTH,
        most: 100,
        reads: &[],
        writes: &[2],
        answer: "after 2 requests: the replies can't be written",
        written: EMPTY_REPLY,
    },
];

/// Says what goes otherwise in how a session ended.
fn end_told(alloc: Global, answer: &Result<Served, HubServeStop<Memory>>, want: &str) -> Told {
    let text = match answer {
        Ok(served) => format!(in alloc; "{} requests", served.requests),
        Err(HubServeStop::Serve(stop)) => format!(in alloc; "{stop}"),
        Err(HubServeStop::Answers(Memory)) => return Err(NO_MEMORY),
    };
    match text {
        Ok(text) => told(text.as_bytes() == want.as_bytes(), "another end"),
        Err(_) => Err(NO_MEMORY),
    }
}

/// Says what goes otherwise where a session is served in a new hub.
fn served_told(
    alloc: Global,
    source: &mut MemorySource,
    sink: &mut MemorySink,
    want: &str,
) -> Told {
    match host_of(alloc, NUMBER) {
        Ok(host) => {
            let mut hub = Hub::make(alloc, host);
            end_told(alloc, &serve_hub(alloc, &mut hub, source, sink), want)
        }
        Err(why) => Err(why),
    }
}

/// The ends of a case.
fn ends_of(alloc: Global, case: &Case) -> Result<(MemorySource, MemorySink), Memory> {
    let stream = Seq::from_slice(alloc, case.stream)?;
    let reads = Seq::from_slice(alloc, case.reads)?;
    let writes = Seq::from_slice(alloc, case.writes)?;
    let source = MemorySource::make(stream, reads, case.most.max(1));
    Ok((source, MemorySink::make(alloc, writes, 100)))
}

/// Says what goes otherwise in a case.
fn case_told(alloc: Global, case: &Case) -> Told {
    match ends_of(alloc, case) {
        Ok((mut source, mut sink)) => {
            let served = served_told(alloc, &mut source, &mut sink, case.answer);
            served.and(told(sink.written() == case.written, "other bytes are written"))
        }
        Err(_) => Err(NO_MEMORY),
    }
}

#[test]
fn sessions_of_a_hub_end_as_the_cases_say(rt: HostRuntime) -> Told {
    let mut told = Ok(());
    for case in CASES {
        told = told.and(case_told(rt.alloc(), case));
    }
    told
}
