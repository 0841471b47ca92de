// Two open sessions whose pieces and ends come in every order, beside the history that is told of them.

use crate::events::{events_told, opens_told};
use crate::expected::{Come, NO_MEMORY, Step, Told, Want};
use crate::hosts::{COUNTER, host_of};
use rb_exec::Host;
use rb_hub::{End, Hub, HubRefusal};
use rb_trees::{Memory, Seq};
use std::alloc::Global;

/// A turn of a session: the piece that comes, or None where it is closed; what that comes to; how many requests have their last
/// byte in it; and after how many requests and how the session ends by it, if it does.
struct Turn {
    piece: Option<&'static [u8]>,
    step: Step,
    requests: usize,
    end: Option<(u64, End)>,
}

/// The session has ended.
const ENDED: Step = Step::Refused(HubRefusal::UnknownSession);

/// Two requests become whole at once, each within its frame.
const WHOLE: &[Turn] = &[
    Turn {
        piece: Some(b"RB\x01\x00\x00"),
        step: Step::Done,
        requests: 0,
        end: None,
    },
    Turn {
        piece: Some(
            b"\x00\x00\x00\x00\x00\x0f\x02\x01\x01n\x00\x01\x11\x00\x00\x26\x00\x01\x00\x23\x00RB\x01\x00\x00\x00\x00\x00\x00\x00\x0f\x02\x01\x01n\x00\x01\x11\x00\x00\x26\x00\x01\x00\x23\x00RB\x01\x00\x00\x00\x00\x00\x00\x00\x0f\x02\x01\x01n",
        ),
        step: Step::Done,
        requests: 2,
        end: None,
    },
    Turn {
        piece: Some(b"\x00\x01\x11\x00\x00\x26\x00\x01\x00\x23\x00"),
        step: Step::Done,
        requests: 1,
        end: None,
    },
    Turn {
        piece: None,
        step: Step::Done,
        requests: 0,
        end: Some((3, End::Whole)),
    },
];

/// The stream ends with the first byte of a third frame, which is byte 53.
const CUT: &[Turn] = &[
    Turn {
        piece: Some(
            b"RB\x01\x00\x00\x00\x00\x00\x00\x00\x0f\x02\x01\x01n\x00\x01\x11\x00\x00\x26\x00\x01\x00\x23\x00RB\x01\x00",
        ),
        step: Step::Done,
        requests: 1,
        end: None,
    },
    Turn {
        piece: Some(b"\x00\x00\x00\x00\x00\x00\x0f\x02\x01\x01n\x00\x01\x11"),
        step: Step::Done,
        requests: 0,
        end: None,
    },
    Turn {
        piece: Some(b"\x00\x00\x26\x00\x01\x00\x23\x00R"),
        step: Step::Done,
        requests: 1,
        end: None,
    },
    Turn {
        piece: None,
        step: Step::Done,
        requests: 0,
        end: Some((2, End::Cut(53))),
    },
];

/// The byte at offset 27 breaks the form behind the first request, so the third piece, which is a request, isn't heard.
const BROKEN: &[Turn] = &[
    Turn {
        piece: Some(b"R"),
        step: Step::Done,
        requests: 0,
        end: None,
    },
    Turn {
        piece: Some(
            b"B\x01\x00\x00\x00\x00\x00\x00\x00\x0f\x02\x01\x01n\x00\x01\x11\x00\x00\x26\x00\x01\x00\x23\x00RC",
        ),
        step: Step::Done,
        requests: 1,
        end: Some((1, End::BadFrame(27))),
    },
    Turn {
        piece: Some(
            b"RB\x01\x00\x00\x00\x00\x00\x00\x00\x0f\x02\x01\x01n\x00\x01\x11\x00\x00\x26\x00\x01\x00\x23\x00",
        ),
        step: ENDED,
        requests: 0,
        end: None,
    },
    Turn {
        piece: None,
        step: ENDED,
        requests: 0,
        end: None,
    },
];

/// The replies to the requests of the history, whose counter is one after the first of them, two after the second, and so on.
const REPLIES: &[&[u8]] = &[
    b"RB\x02\x00\x00\x00\x00\x00\x00\x00\x09\x02\x00\x00\x00\x01\x31\x01\x02\x00",
    b"RB\x02\x00\x00\x00\x00\x00\x00\x00\x09\x02\x00\x00\x00\x01\x31\x01\x04\x00",
    b"RB\x02\x00\x00\x00\x00\x00\x00\x00\x09\x02\x00\x00\x00\x01\x31\x01\x06\x00",
    b"RB\x02\x00\x00\x00\x00\x00\x00\x00\x09\x02\x00\x00\x00\x01\x31\x01\x08\x00",
    b"RB\x02\x00\x00\x00\x00\x00\x00\x00\x09\x02\x00\x00\x00\x01\x31\x01\x0a\x00",
];

/// How many turns two sessions have.
const TURNS: u32 = 8;

/// The session whose turn it is at a place of an order, whose bits say so from the lowest one, and how many turns it had before.
fn turn_at(order: u32, place: u32) -> (u32, u32) {
    let seconds = (order & 1u32.wrapping_shl(place).wrapping_sub(1)).count_ones();
    if order.wrapping_shr(place) & 1 == 1 {
        (1, seconds)
    } else {
        (0, place.wrapping_sub(seconds))
    }
}

/// What comes by a turn of a session.
fn come_of(number: u32, turn: &Turn) -> Come {
    match turn.piece {
        Some(bytes) => Come::Piece(number, bytes),
        None => Come::Close(number),
    }
}

/// What is wanted to come out by a turn of a session, behind so many requests of the history.
fn wants_of(alloc: Global, number: u32, turn: &Turn, before: usize) -> Result<Seq<Want>, Memory> {
    let mut wants = Seq::new(alloc);
    for reply in REPLIES.iter().skip(before).take(turn.requests) {
        wants.push(Want::Reply(number, *reply))?;
    }
    if let Some((requests, end)) = turn.end {
        wants.push(Want::Ended(number, requests, end))?;
    }
    Ok(wants)
}

/// Says so where something else comes out by a turn of a session than is wanted behind so many requests of the history.
fn turn_told(alloc: Global, hub: &mut Hub<Host>, number: u32, turn: &Turn, before: usize) -> Told {
    match wants_of(alloc, number, turn, before) {
        Ok(wants) => {
            let events = &[(come_of(number, turn), turn.step)];
            events_told(alloc, hub, events, wants.as_slice())
        }
        Err(_) => Err(NO_MEMORY),
    }
}

/// Opens two sessions, and says so where something else comes out by their turns in an order than the history says.
fn turns_told(alloc: Global, hub: &mut Hub<Host>, turns: &[&[Turn]; 2], order: u32) -> Told {
    let mut told = opens_told(alloc, hub, 2);
    let mut before = 0usize;
    for place in 0..TURNS {
        let (number, turn) = turn_at(order, place);
        let talk = if number == 0 { turns[0] } else { turns[1] };
        let Some(turn) = talk.get(turn as usize) else {
            return Err("more turns than are told");
        };
        told = told.and(turn_told(alloc, hub, number, turn, before));
        before = before.wrapping_add(turn.requests);
    }
    told
}

/// The same in a new hub.
fn order_told(alloc: Global, turns: &[&[Turn]; 2], order: u32) -> Told {
    match host_of(alloc, COUNTER) {
        Ok(host) => turns_told(alloc, &mut Hub::make(alloc, host), turns, order),
        Err(why) => Err(why),
    }
}

/// Pairs of sessions.
const PAIRS: &[[&[Turn]; 2]] = &[[WHOLE, CUT], [BROKEN, WHOLE]];

#[test]
fn each_order_of_two_sessions_has_its_history(rt: HostRuntime) -> Told {
    let mut told = Ok(());
    for turns in PAIRS {
        for order in 0u32..1 << TURNS {
            if order.count_ones() == TURNS / 2 {
                told = told.and(order_told(rt.alloc(), turns, order));
            }
        }
    }
    told
}
