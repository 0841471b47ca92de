// Hubs, event by event and at once.

use crate::events::{events_told, opens_told};
use crate::expected::{Come, NO_MEMORY, Step, Told, Want, event_of, outs_told};
use crate::hosts::{NUMBER, NUMBER_TABLE, host_of, lines_told};
use crate::streams::{
    BOTH, BROKEN, EMPTY, EMPTY_END, EMPTY_REPLY, OTHER, OTHER_REPLY, SHORT, SHORT_REPLY,
};
use rb_exec::Host;
use rb_hub::{End, Event, Hub, HubRefusal, play};
use rb_trees::{Memory, Seq};
use std::alloc::Global;
use std::collections::VecDeque;

/// How many sessions are opened first; events, with what they come to; and what comes out.
struct Row {
    opens: u32,
    events: &'static [(Come, Step)],
    outs: &'static [Want],
}

/// No session is open under the number.
const UNKNOWN: Step = Step::Refused(HubRefusal::UnknownSession);

/// As many sessions are open as may be.
const CROWDED: Step = Step::Refused(HubRefusal::Crowded);

const ROWS: &[Row] = &[
    // The request that began first ends last. No session 7 was opened.
    Row {
        opens: 0,
        events: &[
            (Come::Open, Step::Done),
            (Come::Open, Step::Done),
            (Come::Piece(0, b"RB\x01"), Step::Done),
            (Come::Piece(1, EMPTY), Step::Done),
            (Come::Piece(0, EMPTY_END), Step::Done),
            (Come::Close(0), Step::Done),
            (Come::Close(7), UNKNOWN),
            (Come::Close(1), Step::Done),
        ],
        outs: &[
            Want::Opened(0),
            Want::Opened(1),
            Want::Reply(1, EMPTY_REPLY),
            Want::Reply(0, EMPTY_REPLY),
            Want::Ended(0, 1, End::Whole),
            Want::Ended(1, 1, End::Whole),
        ],
    },
    // Both requests of a piece, and a refusal between others' replies.
    Row {
        opens: 0,
        events: &[
            (Come::Open, Step::Done),
            (Come::Open, Step::Done),
            (Come::Piece(0, BOTH), Step::Done),
            (Come::Piece(1, SHORT), Step::Done),
            (Come::Piece(0, OTHER), Step::Done),
            (Come::Close(1), Step::Done),
            (Come::Close(0), Step::Done),
        ],
        outs: &[
            Want::Opened(0),
            Want::Opened(1),
            Want::Reply(0, EMPTY_REPLY),
            Want::Reply(0, OTHER_REPLY),
            Want::Reply(1, SHORT_REPLY),
            Want::Reply(0, OTHER_REPLY),
            Want::Ended(1, 1, End::Whole),
            Want::Ended(0, 3, End::Whole),
        ],
    },
    // What breaks the form ends the session, behind the requests before it.
    Row {
        opens: 0,
        events: &[
            (Come::Open, Step::Done),
            (Come::Piece(0, b"RC"), Step::Done),
            (Come::Piece(0, b"R"), UNKNOWN),
        ],
        outs: &[Want::Opened(0), Want::Ended(0, 0, End::BadFrame(1))],
    },
    Row {
        opens: 0,
        events: &[
            (Come::Open, Step::Done),
            (Come::Piece(0, BROKEN), Step::Done),
            (Come::Close(0), UNKNOWN),
        ],
        outs: &[
            Want::Opened(0),
            Want::Reply(0, EMPTY_REPLY),
            Want::Ended(0, 1, End::BadFrame(19)),
        ],
    },
    // A stream that ends within a frame is cut, and its number isn't given again.
    Row {
        opens: 0,
        events: &[
            (Come::Open, Step::Done),
            (Come::Piece(0, EMPTY), Step::Done),
            (Come::Piece(0, b"RB\x01"), Step::Done),
            (Come::Close(0), Step::Done),
            (Come::Open, Step::Done),
            (Come::Close(1), Step::Done),
        ],
        outs: &[
            Want::Opened(0),
            Want::Reply(0, EMPTY_REPLY),
            Want::Ended(0, 1, End::Cut(20)),
            Want::Opened(1),
            Want::Ended(1, 0, End::Whole),
        ],
    },
    // Nothing comes out of an empty piece, and nothing was opened.
    Row {
        opens: 0,
        events: &[
            (Come::Close(0), UNKNOWN),
            (Come::Open, Step::Done),
            (Come::Piece(0, b""), Step::Done),
            (Come::Piece(1, EMPTY), UNKNOWN),
        ],
        outs: &[Want::Opened(0)],
    },
    // No more than 64 sessions are open. One more is opened where one has ended.
    Row {
        opens: 64,
        events: &[
            (Come::Open, CROWDED),
            (Come::Close(5), Step::Done),
            (Come::Open, Step::Done),
            (Come::Open, CROWDED),
        ],
        outs: &[Want::Ended(5, 0, End::Whole), Want::Opened(64)],
    },
];

/// The events of a row.
fn events_of(alloc: Global, comes: &[(Come, Step)]) -> Result<VecDeque<Event>, Memory> {
    let mut events = VecDeque::new(alloc);
    for (come, _) in comes {
        events.push_back(event_of(alloc, *come)?)?;
    }
    Ok(events)
}

/// Says so where something else comes out of events that are played at once.
fn play_told(alloc: Global, hub: &mut Hub<Host>, events: VecDeque<Event>, wants: &[Want]) -> Told {
    let mut outs = Seq::new(alloc);
    match play(alloc, hub, events, &mut outs) {
        Ok(()) => outs_told(outs.as_slice(), wants),
        Err(_) => Err(NO_MEMORY),
    }
}

/// Says what goes otherwise where the events of a row come to a new hub, one after the other or at once.
fn hub_told(alloc: Global, hub: &mut Hub<Host>, row: &Row, at_once: bool) -> Told {
    let opened = opens_told(alloc, hub, row.opens);
    if !at_once {
        return opened.and(events_told(alloc, hub, row.events, row.outs));
    }
    match events_of(alloc, row.events) {
        Ok(events) => opened.and(play_told(alloc, hub, events, row.outs)),
        Err(_) => Err(NO_MEMORY),
    }
}

/// The same, with the lines of the table that is left.
fn row_told(alloc: Global, row: &Row, at_once: bool) -> Told {
    match host_of(alloc, NUMBER) {
        Ok(host) => {
            let mut hub = Hub::make(alloc, host);
            let played = hub_told(alloc, &mut hub, row, at_once);
            played.and(lines_told(alloc, &hub.into_answers(), NUMBER_TABLE))
        }
        Err(why) => Err(why),
    }
}

#[test]
fn hubs_do_what_the_rows_say(rt: HostRuntime) -> Told {
    let mut told = Ok(());
    for row in ROWS {
        told = told
            .and(row_told(rt.alloc(), row, false))
            .and(row_told(rt.alloc(), row, true));
    }
    told
}
