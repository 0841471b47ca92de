// A hub whose requests may stop whoever answers.

ghost use Rattle.rb_session.specs.Answering.{IsTypedHost};

use crate::events::events_told;
use crate::expected::{Come, Step, Told, Want, told};
use crate::hosts::{NUMBER, host_of};
use crate::streams::{BOTH, EMPTY_REPLY};
use bytes::BytesMut;
use rb_exec::Host;
use rb_hub::{Hub, HubRefusal};
use rb_session::{Answers, answer};
use rb_trees::Memory;
use std::alloc::Global;

/// A host that answers so many requests more.
#[derive(Drop)]
struct Limited {
    host: Host,
    left: u32,
}

/// Why it answers no more.
#[derive(Drop)]
enum Limit {
    Reached,
    Memory,
}

impl From<Memory> for Limit {
    ghost use Rattle.std.specs.Prelude.{◌≡◌};
    ghost use Rattle.rb_hub_tests.specs.declared.limited.Limit.TheVariants as limits;

    ghost from_gives = { λ _ e. e ≡ limits.Memory };

    fn from(_want: Memory) -> Limit {
        Limit::Memory
    }
}

impl Answers for Limited {
    type Stop = Limit;

    ghost use Rattle.rb_trees.specs.mirror.Services.{mirror_service};

    ghost service = { λ it. mirror_service it.host.service };

    ghost table = { λ it. it.host.table };

    ghost ready = { λ it. IsTypedHost it.host };

    ghost does = { λ before payload after. Unit {0} };

    ghost stops = { λ before payload stop after. Unit {0} };

    fn answer_one(
        &mut self,
        alloc: Global,
        payload: &[u8],
        reply: &mut BytesMut,
    ) -> Result<u8, Limit> {
        if self.left == 0 {
            return Err(Limit::Reached);
        }
        self.left -= 1;
        Ok(answer(alloc, &mut self.host, payload, reply)?)
    }
}

/// Events, of which the second has two requests, where one is answered.
const EVENTS: &[(Come, Step)] = &[
    (Come::Open, Step::Done),
    (Come::Piece(0, BOTH), Step::Stopped),
    (Come::Close(0), OVER),
    (Come::Open, OVER),
    (Come::Piece(7, b""), OVER),
];

/// The hub is over.
const OVER: Step = Step::Refused(HubRefusal::Over);

/// What comes out of them.
const OUTS: &[Want] = &[Want::Opened(0), Want::Reply(0, EMPTY_REPLY)];

/// Says what goes otherwise in a hub where one request is answered.
fn hub_told(alloc: Global, hub: &mut Hub<Limited>) -> Told {
    let stopped = events_told(alloc, hub, EVENTS, OUTS);
    stopped.and(told(hub.answers().left == 0, "more may be answered"))
}

#[test]
fn a_hub_is_over_where_a_request_stopped_whoever_answers(rt: HostRuntime) -> Told {
    match host_of(rt.alloc(), NUMBER) {
        Ok(host) => {
            let mut hub = Hub::make(rt.alloc(), Limited { host, left: 1 });
            hub_told(rt.alloc(), &mut hub)
        }
        Err(why) => Err(why),
    }
}
