// Links over frames, with both ends in memory.

use crate::ends::{Ends, ends_of};
use crate::expected::{NO_MEMORY, Told, told};
use crate::hosts::{CALL, CALL_REPLY};
use crate::links::exchanges::{Outcome, exchange_told};
use rb_base::{Link, MemorySink, MemorySource};
use rb_session::FrameLink;
use std::alloc::Global;

/// The frame of the call.
const SENT: &[u8] =
    b"RB\x01\x00\x00\x00\x00\x00\x00\x00\x1f\x01\x00\x00\x00\x00\x01\x11\x00\x00\x00\x00\x00\x00\x00\x3b\x26\x00\x00\x00\x3b\x01\x00\x00\x00\x01n\x23\x00\x00\x00\x00";

/// The frame of its reply, and a byte of the next one.
const RECEIVED: &[u8] =
    b"RB\x02\x00\x00\x00\x00\x00\x00\x00\x10\x01\x00\x00\x00\x01\x31\x01\x00\x00\x00\x00\x00\x00\x00\x07\x00R";

/// What is left of that behind its header.
const RECEIVED_END: &[u8] = b"\x01\x00\x00\x00\x01\x31\x01\x00\x00\x00\x00\x00\x00\x00\x07\x00R";

/// A link whose source has these bytes, and whose ends move so many at once, of which these reads and these writes fail; and what is
/// wanted of an exchange of the call over it.
#[derive(Clone, Copy)]
struct Case<'a> {
    bytes: &'a [u8],
    most: usize,
    reads: &'a [u64],
    writes: &'a [u64],
    /// What the exchange comes to, if there is one.
    outcome: Option<Outcome>,
    /// How many bytes of the call's frame are written.
    written: usize,
    /// The bytes that the source has left.
    left: &'a [u8],
}

/// Whether the ends of a link stand as a case wants them.
fn ends_stand(source: &MemorySource, sink: &MemorySink, case: &Case<'_>) -> bool {
    SENT.get(..case.written) == Some(sink.written()) && source.left() == case.left
}

/// The bytes that an answer keeps: of a reply the payload, and of one that is broken or cut all its bytes.
fn kept_of<'a>(outcome: Outcome, bytes: &'a [u8]) -> &'a [u8] {
    match outcome {
        Outcome::Reply(_) => CALL_REPLY,
        Outcome::Frame(_) | Outcome::Cut(_) => bytes,
        Outcome::Failed => b"",
    }
}

/// Says what goes otherwise over a link.
fn link_told(link: &mut FrameLink<MemorySource, MemorySink>, case: &Case<'_>) -> Told {
    let exchanged = match case.outcome {
        Some(outcome) => exchange_told(link, &(CALL, outcome, kept_of(outcome, case.bytes))),
        None => Ok(()),
    };
    let stand = ends_stand(link.source(), link.sink(), case) && link.table().is_none();
    exchanged.and(told(
        stand,
        "other bytes are written or left, or there is a table",
    ))
}

/// Says what goes otherwise in a case, and in the ends that come back.
fn case_told(alloc: Global, case: &Case<'_>) -> Told {
    let ends = Ends {
        streams: &[case.bytes],
        most_read: case.most,
        most_written: case.most,
        reads: case.reads,
        writes: case.writes,
    };
    match ends_of(alloc, &ends) {
        Ok((source, sink)) => {
            let mut link = FrameLink::make(alloc, source, sink);
            let exchanged = link_told(&mut link, case);
            let (source, sink) = link.into_ends();
            exchanged.and(told(ends_stand(&source, &sink, case), "other ends come back"))
        }
        Err(_) => Err(NO_MEMORY),
    }
}

/// A whole reply, and then a byte more.
const WHOLE: Case<'_> = Case {
    bytes: RECEIVED,
    most: 1,
    reads: &[],
    writes: &[],
    outcome: Some(Outcome::Reply(2)),
    written: 42,
    left: b"R",
};

/// No exchange.
const NONE: Case<'_> = Case {
    outcome: None,
    written: 0,
    left: RECEIVED,
    ..WHOLE
};

/// A reply all of whose bytes are taken, 64 at once, and that breaks its form.
const BROKEN: Case<'_> = Case {
    most: 64,
    left: b"",
    ..WHOLE
};

/// One all of whose bytes are taken, four at once, and that ends too early.
const CUT: Case<'_> = Case {
    most: 4,
    left: b"",
    ..WHOLE
};

/// An end that fails.
const FAILED: Case<'_> = Case {
    most: 20,
    outcome: Some(Outcome::Failed),
    left: RECEIVED,
    ..WHOLE
};

const CASES: &[Case<'_>] = &[
    // An exchange writes one frame and takes one.
    WHOLE,
    Case { most: 7, ..WHOLE },
    Case {
        most: usize::MAX,
        ..WHOLE
    },
    NONE,
    // A reply breaks its form at its first wrong byte.
    Case {
        bytes: b"B",
        outcome: Some(Outcome::Frame(0)),
        ..BROKEN
    },
    Case {
        bytes: b"RC\x02",
        outcome: Some(Outcome::Frame(1)),
        ..BROKEN
    },
    Case {
        bytes: b"RB\x01\x00\x00\x00\x00\x00\x00\x00\x00",
        outcome: Some(Outcome::Frame(2)),
        ..BROKEN
    },
    Case {
        bytes: b"RB\x04",
        outcome: Some(Outcome::Frame(2)),
        ..BROKEN
    },
    Case {
        bytes: b"XX\x02",
        outcome: Some(Outcome::Frame(0)),
        ..BROKEN
    },
    // A reply that ends too early is cut. The last one says the greatest length.
    Case {
        bytes: b"",
        outcome: Some(Outcome::Cut(0)),
        ..CUT
    },
    Case {
        bytes: b"RB",
        outcome: Some(Outcome::Cut(2)),
        ..CUT
    },
    Case {
        bytes: b"RB\x03\x00\x00",
        outcome: Some(Outcome::Cut(5)),
        ..CUT
    },
    Case {
        bytes: b"RB\x02\x00\x00\x00\x00\x00\x00\x00\x05ab",
        outcome: Some(Outcome::Cut(13)),
        ..CUT
    },
    Case {
        bytes: b"RB\x02\xff\xff\xff\xff\xff\xff\xff\xff",
        outcome: Some(Outcome::Cut(11)),
        ..CUT
    },
    // A fault of an end is one of the link: the second read, of the payload; the first write; and the second.
    Case {
        reads: &[2],
        left: RECEIVED_END,
        ..FAILED
    },
    Case {
        writes: &[1],
        written: 0,
        ..FAILED
    },
    Case {
        writes: &[2],
        written: 20,
        ..FAILED
    },
];

#[test]
fn exchanges_over_frames_go_as_the_cases_say(rt: HostRuntime) -> Told {
    let mut told = Ok(());
    for case in CASES {
        told = told.and(case_told(rt.alloc(), case));
    }
    told
}
