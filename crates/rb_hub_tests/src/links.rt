// Links to the host of a hub that others use too.

use crate::expected::{Come, NO_MEMORY, Told, event_of, told};
use crate::hosts::{NUMBER, host_of};
use crate::streams::EMPTY;
use rb_base::Link;
use rb_hub::{Event, Hub, HubLink, HubLinkStop};
use rb_trees::{Memory, Seq};
use std::alloc::Global;

/// The payload of a request without steps, which is the payload of the reply to it too.
const PAYLOAD: &[u8] = b"\x01\x00\x00\x00\x00\x00";

/// What others do before the first exchange: in a session of their own, and with the link's.
const OTHERS: &[Come] = &[
    Come::Open,
    Come::Piece(1, EMPTY),
    Come::Piece(0, b"RC"),
    Come::Close(0),
    Come::Close(7),
];

/// The lists of what others do.
fn others_of(alloc: Global) -> Result<Seq<Seq<Event>>, Memory> {
    let mut events = Seq::new(alloc);
    for come in OTHERS {
        events.push(event_of(alloc, *come)?)?;
    }
    let mut others = Seq::new(alloc);
    others.push(events)?;
    Ok(others)
}

/// Says what goes otherwise in an exchange.
fn reply_told<L: Link>(link: &mut L) -> Told {
    match link.exchange(PAYLOAD) {
        Ok(reply) => told(
            reply.kind == 2 && reply.payload.as_slice() == PAYLOAD,
            "another reply",
        ),
        Err(_) => Err(NO_MEMORY),
    }
}

/// Says so where two exchanges over a link don't find its own session as it was, and that of others.
fn link_told(link: &mut HubLink) -> Told {
    let replied = reply_told(link).and(reply_told(link));
    let are_kept = link.pairs().len() == 2 && link.hub().opened() == 2;
    replied.and(told(are_kept, "another number of exchanges or of sessions"))
}

/// The same of a link that was made.
fn made_told(made: Result<HubLink, HubLinkStop>) -> Told {
    match made {
        Ok(mut link) => link_told(&mut link),
        Err(HubLinkStop::Refused(..)) => Err("no session is opened"),
        Err(HubLinkStop::Memory) => Err(NO_MEMORY),
    }
}

/// The same of a link through a new hub, with what others do.
fn others_told(alloc: Global, others: Seq<Seq<Event>>) -> Told {
    match host_of(alloc, NUMBER) {
        Ok(host) => made_told(HubLink::make(alloc, Hub::make(alloc, host), others)),
        Err(why) => Err(why),
    }
}

#[test]
fn a_link_skips_what_others_do_with_its_own_session(rt: HostRuntime) -> Told {
    match others_of(rt.alloc()) {
        Ok(others) => others_told(rt.alloc(), others),
        Err(_) => Err(NO_MEMORY),
    }
}
