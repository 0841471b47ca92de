// Sessions that are served over ends in memory.

ghost use Rattle.rb_session.specs.Answering.{IsTypedHost};

use crate::ends::{Ends, ends_of, is_joined};
use crate::expected::{NO_MEMORY, Told, told};
use crate::hosts::{FILES, host_of};
use crate::session::streams::{EMPTY, EMPTY_REPLY, FRONT, OTHER, OTHER_REPLY, SHORT, SHORT_REPLY};
use rb_base::{MemorySink, MemorySource};
use rb_exec::Host;
use rb_session::{ServeCause, ServeStop, Served, serve};
use std::alloc::Global;

/// A session over a source of these streams, of which these reads fail, and a sink of which these writes fail; and what is
/// wanted of it: how it ends, and what is written.
struct Case<'a> {
    streams: &'a [&'a [u8]],
    reads: &'a [u64],
    writes: &'a [u64],
    answer: &'a str,
    written: &'a [&'a [u8]],
}

/// Says what goes otherwise in how a session ended.
fn end_told(alloc: Global, answer: &Result<Served, ServeStop>, want: &str) -> Told {
    let text = match answer {
        Ok(served) => format!(in alloc; "{} requests", served.requests),
        Err(
            ServeStop {
                requests: _,
                cause: ServeCause::Memory,
            },
        ) => return Err(NO_MEMORY),
        Err(stop) => format!(in alloc; "{stop}"),
    };
    match text {
        Ok(text) => told(text.as_bytes() == want.as_bytes(), "another end"),
        Err(_) => Err(NO_MEMORY),
    }
}

/// Says what goes otherwise where a session is served on a host.
fn served_told(
    alloc: Global,
    host: &mut Host,
    source: &mut MemorySource,
    sink: &mut MemorySink,
    case: &Case<'_>,
) -> Told
    requires { IsTypedHost host.old }
{
    let answer = serve(alloc, host, source, sink);
    let is_written = is_joined(sink.written(), case.written);
    end_told(alloc, &answer, case.answer).and(told(is_written, "other bytes are written"))
}

/// The same on a host of its own.
fn hosted_told(
    alloc: Global,
    source: &mut MemorySource,
    sink: &mut MemorySink,
    case: &Case<'_>,
) -> Told {
    match host_of(alloc, FILES) {
        Ok(mut host) => served_told(alloc, &mut host, source, sink, case),
        Err(why) => Err(why),
    }
}

/// Says what goes otherwise in a case. Each read gives five bytes at most, and each write takes seven.
fn case_told(alloc: Global, case: &Case<'_>) -> Told {
    let ends = Ends {
        streams: case.streams,
        most_read: 5,
        most_written: 7,
        reads: case.reads,
        writes: case.writes,
    };
    match ends_of(alloc, &ends) {
        Ok((mut source, mut sink)) => hosted_told(alloc, &mut source, &mut sink, case),
        Err(_) => Err(NO_MEMORY),
    }
}

const CASES: &[Case<'_>] = &[
    Case {
        streams: &[EMPTY, SHORT, EMPTY],
        reads: &[],
        writes: &[],
        answer: "3 requests",
        written: &[EMPTY_REPLY, SHORT_REPLY, EMPTY_REPLY],
    },
    Case {
        streams: &[OTHER, EMPTY, OTHER],
        reads: &[],
        writes: &[],
        answer: "3 requests",
        written: &[OTHER_REPLY, EMPTY_REPLY, OTHER_REPLY],
    },
    Case {
        streams: &[],
        reads: &[],
        writes: &[],
        answer: "0 requests",
        written: &[],
    },
    // The source ends within a frame, or breaks its form.
    Case {
        streams: &[EMPTY, b"RB\x01\x00\x00"],
        reads: &[],
        writes: &[],
        answer: "after 1 requests: the stream ends within a frame, after 22 bytes",
        written: &[EMPTY_REPLY],
    },
    Case {
        streams: &[EMPTY, b"RB\x02", EMPTY],
        reads: &[],
        writes: &[],
        answer: "after 1 requests: the stream breaks its form at offset 19",
        written: &[EMPTY_REPLY],
    },
    // A read that fails ends a session behind its requests. Five reads give the first one: three its header, and two its payload.
    Case {
        streams: &[EMPTY, EMPTY],
        reads: &[1],
        writes: &[],
        answer: "after 0 requests: the requests can't be read",
        written: &[],
    },
    Case {
        streams: &[EMPTY, EMPTY],
        reads: &[5],
        writes: &[],
        answer: "after 0 requests: the requests can't be read",
        written: &[],
    },
    Case {
        streams: &[EMPTY, EMPTY],
        reads: &[6],
        writes: &[],
        answer: "after 1 requests: the requests can't be read",
        written: &[EMPTY_REPLY],
    },
    // A write that fails leaves a front of the replies. Three writes take a reply, and two this front of it.
    Case {
        streams: &[EMPTY, EMPTY],
        reads: &[],
        writes: &[1],
        answer: "after 1 requests: the replies can't be written",
        written: &[],
    },
    Case {
        streams: &[EMPTY, EMPTY],
        reads: &[],
        writes: &[3],
        answer: "after 1 requests: the replies can't be written",
        written: &[FRONT],
    },
    Case {
        streams: &[EMPTY, EMPTY],
        reads: &[],
        writes: &[4],
        answer: "after 2 requests: the replies can't be written",
        written: &[EMPTY_REPLY],
    },
    Case {
        streams: &[EMPTY, EMPTY],
        reads: &[],
        writes: &[6],
        answer: "after 2 requests: the replies can't be written",
        written: &[EMPTY_REPLY, FRONT],
    },
];

#[test]
fn sessions_end_and_write_as_the_cases_say(rt: HostRuntime) -> Told {
    let mut told = Ok(());
    for case in CASES {
        told = told.and(case_told(rt.alloc(), case));
    }
    told
}
