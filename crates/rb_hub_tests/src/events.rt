// Events that come to a hub, whoever answers, beside what they come to and what comes out.

use crate::expected::{Come, NO_MEMORY, Step, Told, Want, event_of, outs_told, told};
use rb_hub::{Event, Hub, HubRefusal, HubStop, Out, play_one};
use rb_session::Answers;
use rb_trees::Seq;
use std::alloc::Global;

/// Whether an event was refused, or not, as is wanted.
fn is_step(refusal: Option<HubRefusal>, want: Step) -> bool {
    match (refusal, want) {
        (None, Step::Done) => true,
        (Some(found), Step::Refused(wanted)) => found == wanted,
        _ => false,
    }
}

/// Says what goes otherwise where an event comes.
fn step_told<A: Answers>(
    alloc: Global,
    hub: &mut Hub<A>,
    event: Event,
    want: Step,
    outs: &mut Seq<Out>,
) -> Told {
    match play_one(alloc, hub, event, outs) {
        Ok(refusal) => told(is_step(refusal, want), "an event is refused, or not"),
        Err(HubStop::Answers(_)) => {
            told(matches!(want, Step::Stopped), "whoever answers is stopped")
        }
        Err(_) => Err(NO_MEMORY),
    }
}

/// Says what goes otherwise where events come, one after the other, or what comes out of them.
pub fn events_told<A: Answers>(
    alloc: Global,
    hub: &mut Hub<A>,
    events: &[(Come, Step)],
    wants: &[Want],
) -> Told {
    let mut outs = Seq::new(alloc);
    let mut stepped = Ok(());
    for (come, step) in events {
        stepped = stepped.and(match event_of(alloc, *come) {
            Ok(event) => step_told(alloc, hub, event, *step, &mut outs),
            Err(_) => Err(NO_MEMORY),
        });
    }
    stepped.and(outs_told(outs.as_slice(), wants))
}

/// Opens sessions, and says so where one isn't opened under the next number.
pub fn opens_told<A: Answers>(alloc: Global, hub: &mut Hub<A>, count: u32) -> Told {
    let mut opened = Ok(());
    for number in 0..count {
        let wants = &[Want::Opened(number)];
        opened = opened.and(events_told(alloc, hub, &[(Come::Open, Step::Done)], wants));
    }
    opened
}
