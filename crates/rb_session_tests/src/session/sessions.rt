// Sessions, fed in pieces.

ghost use Rattle.std.specs.Prelude.{◌<◌};
ghost use Rattle.rb_session.specs.Answering.{IsTypedHost};
ghost use Rattle.rb_session.specs.Sessions.{UnlessSpentMemory};

use crate::ends::{is_joined, joined};
use crate::expected::{NO_MEMORY, Told, told};
use crate::hosts::{FILES, FILES_TABLE, host_of, lines_told};
use crate::session::streams::{
    EMPTY, EMPTY_REPLY, OTHER, OTHER_REPLY, OTHER_SHORT, OTHER_SHORT_REPLY, SHORT, SHORT_REPLY,
};
use bytes::BytesMut;
use rb_exec::Host;
use rb_session::{Session, SessionStop, frame_header};
use std::alloc::Global;

/// Streams, one after the other; the sizes of the pieces in which they come; the offset at which they break their form, if they do;
/// and the replies.
type Case<'a> = (&'a [&'a [u8]], &'a [usize], Option<u64>, &'a [&'a [u8]]);

/// Feeds a session a stream in pieces of so many bytes.
fn feed_all(
    alloc: Global,
    host: &mut Host,
    session: &mut Session,
    stream: &[u8],
    size: usize,
    out: &mut BytesMut,
) -> Result<(), SessionStop>
    requires typed { IsTypedHost host.old }
    requires size { 0 < size }
    ensures { UnlessSpentMemory result (IsTypedHost host.new) }
{
    for piece in stream.chunks(size) {
        session.feed(alloc, host, piece, out)?;
    }
    Ok(())
}

/// Says what goes otherwise where a session is fed a stream. Once it has stopped, a whole request is answered by the same stop.
fn stop_told(
    alloc: Global,
    host: &mut Host,
    session: &mut Session,
    stream: &[u8],
    size: usize,
    broken_at: Option<u64>,
    out: &mut BytesMut,
) -> Told
    requires { IsTypedHost host.old }
{
    match feed_all(alloc, host, session, stream, size.max(1), out) {
        Ok(()) => told(broken_at.is_none(), "the stream breaks its form nowhere"),
        Err(SessionStop::BadFrame(at)) => {
            let again = session.feed(alloc, host, EMPTY, out);
            let is_same = matches!(again, Err(SessionStop::BadFrame(same)) if same == at);
            told(
                broken_at == Some(at) && is_same,
                "the stream breaks its form elsewhere",
            )
        }
        Err(SessionStop::Memory) => Err(NO_MEMORY),
        Err(SessionStop::SessionSpent) => Err("the session is spent"),
    }
}

/// Says what goes otherwise where a new session of a host is fed a stream in pieces of a size. No request of a case changes the
/// table.
fn session_told(alloc: Global, host: &mut Host, stream: &[u8], size: usize, case: &Case<'_>) -> Told
    requires { IsTypedHost host.old }
{
    let mut out = BytesMut::new(alloc);
    let mut session = Session::make(alloc);
    let (_, _, broken_at, replies) = case;
    let stop = stop_told(
        alloc,
        host,
        &mut session,
        stream,
        size,
        *broken_at,
        &mut out,
    );
    let is_wanted = is_joined(out.as_slice(), replies);
    let is_counted = session.requests() == replies.len() as u64;
    stop.and(told(is_wanted && is_counted, "other replies"))
        .and(lines_told(alloc, host.table(), FILES_TABLE))
}

/// Says what goes otherwise in pieces of any of a case's sizes, each on a host of its own.
fn stream_told(alloc: Global, stream: &[u8], case: &Case<'_>) -> Told {
    let mut told = Ok(());
    for size in case.1 {
        told = told.and(match host_of(alloc, FILES) {
            Ok(mut host) => session_told(alloc, &mut host, stream, *size, case),
            Err(why) => Err(why),
        });
    }
    told
}

/// Says what goes otherwise in a case.
fn case_told(alloc: Global, case: &Case<'_>) -> Told {
    match joined(alloc, case.0) {
        Ok(stream) => stream_told(alloc, stream.as_slice(), case),
        Err(_) => Err(NO_MEMORY),
    }
}

const CASES: &[Case<'_>] = &[
    // Two requests in any pieces have two replies.
    (
        &[EMPTY, EMPTY],
        &[1, 2, 11, 16, 17, 18, 33, 34],
        None,
        &[EMPTY_REPLY, EMPTY_REPLY],
    ),
    // Each request is answered in its version.
    (
        &[EMPTY, OTHER, SHORT, OTHER_SHORT, OTHER, EMPTY],
        &[1, 16, 64],
        None,
        &[
            EMPTY_REPLY,
            OTHER_REPLY,
            SHORT_REPLY,
            OTHER_SHORT_REPLY,
            OTHER_REPLY,
            EMPTY_REPLY,
        ],
    ),
    // A refused request leaves the table and the session.
    (&[SHORT], &[16], None, &[SHORT_REPLY]),
    (&[SHORT, EMPTY], &[16], None, &[SHORT_REPLY, EMPTY_REPLY]),
    // A stream breaks its form at its first wrong byte, alone and behind a request.
    (&[b"B"], SIZES, Some(0), &[]),
    (&[EMPTY, b"B"], SIZES, Some(17), &[EMPTY_REPLY]),
    (&[b"RR"], SIZES, Some(1), &[]),
    (&[EMPTY, b"RR"], SIZES, Some(18), &[EMPTY_REPLY]),
    (&[b"RB\x02"], SIZES, Some(2), &[]),
    (&[EMPTY, b"RB\x02"], SIZES, Some(19), &[EMPTY_REPLY]),
    (&[b"RB\x00"], SIZES, Some(2), &[]),
    // Two violations: the one that stands first.
    (&[b"BR"], SIZES, Some(0), &[]),
    (&[EMPTY, b"BR"], SIZES, Some(17), &[EMPTY_REPLY]),
    (&[OTHER_KIND], SIZES, Some(2), &[]),
    (&[EMPTY, OTHER_KIND], SIZES, Some(19), &[EMPTY_REPLY]),
    // One byte more than a request may have, and as many as it may.
    (&[TOO_LONG], SIZES, Some(3), &[]),
    (&[EMPTY, TOO_LONG], SIZES, Some(20), &[EMPTY_REPLY]),
    (&[LONGEST], SIZES, None, &[]),
    (&[EMPTY, LONGEST], SIZES, None, &[EMPTY_REPLY]),
    // A length that isn't whole isn't judged.
    (&[UNFINISHED], SIZES, None, &[]),
    (&[EMPTY, UNFINISHED], SIZES, None, &[EMPTY_REPLY]),
    (&[b"RB\x01"], SIZES, None, &[]),
    (&[EMPTY, b"RB\x01"], SIZES, None, &[EMPTY_REPLY]),
    (&[b""], SIZES, None, &[]),
    (&[EMPTY, b""], SIZES, None, &[EMPTY_REPLY]),
];

/// Sizes of pieces.
const SIZES: &[usize] = &[1, 4, 64];

/// A header with a kind that no request has, and the greatest length.
const OTHER_KIND: &[u8] = b"RB\x03\xff\xff\xff\xff\xff\xff\xff\xff";

/// The header of a request with one byte more than it may have.
const TOO_LONG: &[u8] = b"RB\x01\x00\x00\x00\x00\x01\x00\x00\x01";

/// The header of the longest request.
const LONGEST: &[u8] = b"RB\x01\x00\x00\x00\x00\x01\x00\x00\x00";

/// A header without the last byte of the greatest length.
const UNFINISHED: &[u8] = b"RB\x01\xff\xff\xff\xff\xff\xff\xff";

#[test]
fn sessions_reply_and_stop_as_the_cases_say(rt: HostRuntime) -> Told {
    let mut told = Ok(());
    for case in CASES {
        told = told.and(case_told(rt.alloc(), case));
    }
    told
}

/// Headers, with what they are read as.
const HEADERS: &[(&[u8; 11], Result<(u8, u64), usize>)] = &[
    (b"RB\x01\x00\x00\x00\x00\x00\x00\x01\x02", Ok((1, 258))),
    (b"RB\x03\xff\xff\xff\xff\xff\xff\xff\xff", Ok((3, u64::MAX))),
    (b"RB\x04\x00\x00\x00\x00\x00\x00\x00\x00", Err(2)),
    (b"RB\x00\x00\x00\x00\x00\x00\x00\x00\x00", Err(2)),
    (b"Rb\x00\x00\x00\x00\x00\x00\x00\x00\x00", Err(1)),
    (b"rB\x01\x00\x00\x00\x00\x00\x00\x00\x00", Err(0)),
];

#[test]
fn headers_have_a_kind_and_a_length(rt: HostRuntime) {
    for (header, want) in HEADERS {
        assert!(rt; frame_header(header) == *want);
    }
}
