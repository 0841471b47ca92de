// Whole runs of a hub.

ghost use Rattle.std.specs.Prelude.{◌≡◌, true, map, IfErr, OnOk, OnErr};
ghost use Rattle.rb_hub.specs.Hubs.{new_hub, IsStop};
ghost use Rattle.rb_hub.specs.Serial.{as_event};
ghost use Rattle.rb_hub.specs.Standing.{EachGoesOn, PlaysOne, PlaysAll, PlaysSerially};

use crate::events::{Event, HubRefusal, HubStop, Out};
use crate::hubs::Hub;
use rb_meaning_frames::{histories_go_on, streams_are_read};
use rb_session::Answers;
use rb_trees::Seq;
use std::alloc::Global;
use std::collections::VecDeque;

/// By whole streams a hub goes on by each event as the history says, whoever answers. It takes no memory and does nothing.
pub fn each_step_goes_on<A: Answers>()
    ensures { EachGoesOn A.Answers }
{
    streams_are_read();
}

/// Plays an event, and adds what comes out. A refused event does nothing, and why it was refused is answered.
///
/// Wherever the hub stands by whole streams, it goes on from there as the history says. After want of memory the first of the
/// replies were added; and a stop is one that may come at the next request of the history.
pub fn play_one<A: Answers>(
    alloc: Global,
    hub: &mut Hub<A>,
    event: Event,
    outs: &mut Seq<Out>,
) -> Result<Option<HubRefusal>, HubStop<A::Stop>>
    ensures plays { PlaysOne A.Answers (as_event event) hub.old hub.new outs.old outs.new result }
    ensures stops { IfErr result IsStop }
    // The hub is over then.
    ensures over { OnErr result (hub.new.over ≡ true) }
    ensures service { A.service hub.new.answers ≡ A.service hub.old.answers }
{
    each_step_goes_on::<A>();
    match hub.step(alloc, event, outs) {
        Ok(()) => Ok(None),
        Err(HubStop::Refused(refusal)) => Ok(Some(refusal)),
        Err(HubStop::Memory) => Err(HubStop::Memory),
        Err(HubStop::Answers(stop)) => Err(HubStop::Answers(stop)),
    }
}

/// Plays events in order, and adds what comes out. A refused event is left out.
///
/// The replies are those to the history, one at a time and in its order, each under its own session, and the table is theirs:
/// whatever the interleaving. No event is played behind one that wanted memory, or whose request stopped whoever answers.
pub fn play<A: Answers>(
    alloc: Global,
    hub: &mut Hub<A>,
    events: VecDeque<Event>,
    outs: &mut Seq<Out>,
) -> Result<(), HubStop<A::Stop>>
    ensures plays { PlaysAll A.Answers (map as_event events.items) hub.old hub.new outs.old outs.new result }
    ensures stops { IfErr result IsStop }
    ensures service { A.service hub.new.answers ≡ A.service hub.old.answers }
    ensures serially { hub.old ≡ new_hub hub.old.answers →
        OnOk result (PlaysSerially A.Answers (map as_event events.items) hub.old hub.new outs.old outs.new) }
{
    histories_go_on();
    let mut left = events;
    'events: while let Some(event) = left.pop_front() {
        play_one(alloc, hub, event, outs)?;
    }
    Ok(())
}
