// A hub: many sessions at once.

ghost use Rattle.std.specs.Prelude.{◌≡◌, ◌<◌, ◌∷◌, [], None, true, false, IfOk};

use crate::events::{End, Event, HubRefusal, HubStop, Out};
use crate::performing::{perform, shut_session};
use crate::runs::each_step_goes_on;
use crate::seats::{Seat, place_of, seat_of};
use rb_session::Answers;
use rb_trees::Seq;
use std::alloc::Global;
use std::marker::Model;

/// How many sessions may be open at once.
const MOST_OPEN: usize = 64;

/// How many sessions may be opened.
const MOST_SESSIONS: u64 = 1 << 32;

/// A hub: many sessions at once, whose requests are answered in the order in which their last bytes come.
///
/// Contracts see it as `HubSeen`: whoever answers, how many sessions were opened, the open ones in order of their numbers, and
/// whether it is over. It holds no more of a stream than the bytes after its last whole frame.
#[derive(Drop)]
pub struct Hub<A: Answers> {
    answers: A,
    opened: u64,
    seats: Vec<Seat>,
    over: bool,
}

impl<A: Answers> Model for Hub<A> {
    ghost use Rattle.std.specs.Prelude.{◌≡◌, false};
    ghost use Rattle.rb_hub.specs.Codes.{hub_code};
    ghost use Rattle.rb_hub.specs.Hubs.{HubSeen, hub_of};
    ghost use Rattle.rb_hub.specs.Standing.{GoesOnSomewhere};

    ghost Value = { HubSeen A };

    ghost coded = { hub_code A.code };

    ghost view = { λ it. record {
      answers = it.answers;
      opened = it.opened;
      seats = it.seats.items;
      over = it.over;
    } };

    ghost invariant = { λ it. it.over ≡ false → GoesOnSomewhere A.Answers (hub_of it.answers it.opened it.seats.items) };
}

impl<A: Answers> Hub<A> {
    ghost use Rattle.rb_meaning_frames.specs.Histories.{Close};
    ghost use Rattle.rb_hub.specs.declared.events.Out.{Out};
    ghost use Rattle.rb_hub.specs.Serial.{as_event};
    ghost use Rattle.rb_hub.specs.Hubs.{new_hub, refusal_of, refusal_in, refused_by, Does, Steps};
    ghost use Rattle.rb_hub.specs.Seats.{SitsAt};
    ghost use Rattle.rb_hub.specs.Standing.{StandsSomewhere};

    /// No session was opened yet. Takes no memory.
    pub fn make(alloc: Global, answers: A) -> Hub<A>
        requires { A.ready answers }
        ensures { result ≡ new_hub answers }
    {
        Hub {
            answers,
            opened: 0,
            seats: Vec::new(alloc),
            over: false,
        }
    }

    /// Whoever answers, who may be asked unless the hub is over.
    pub fn answers(&self) -> &A
        ensures value { result.now ≡ self.now.answers }
        ensures ready { self.now.over ≡ false → A.ready result.now }
    {
        &self.answers
    }

    /// The same without the hub.
    pub fn into_answers(self) -> A
        ensures value { result ≡ self.answers }
        ensures ready { self.over ≡ false → A.ready result }
    {
        self.answers
    }

    /// How many sessions were opened, which is the number of the next one.
    pub fn opened(&self) -> u64
        ensures { result ≡ self.now.opened }
    {
        self.opened
    }

    /// How many bytes to read for an open session at most, so that no read goes beyond the request at hand. It is at least one.
    pub fn lacks(&self, number: u32) -> u64
        ensures { 0 < result }
    {
        match place_of(self.seats.as_slice(), number) {
            Some(place) => self.seats[place].session.lacks().max(1),
            None => 1,
        }
    }

    /// A hub that isn't over stands where some sessions are, and whoever answers may be asked. It takes no memory and does nothing.
    pub fn stands_somewhere(&self)
        ensures stands { self.now.over ≡ false → StandsSomewhere self.now }
        ensures ready { self.now.over ≡ false → A.ready self.now.answers }
    {
        let _ = &self.over;
    }

    /// The place of the session that an event names, or why the event is refused. An event that names none has any place.
    fn place_for(&self, event: &Event) -> Result<usize, HubRefusal>
        ensures refused { refusal_in result ≡ refusal_of self.now (as_event event.now) }
        ensures place { IfOk result (λ place. SitsAt (as_event event.now) self.now.seats place) }
    {
        if self.over {
            return Err(HubRefusal::Over);
        }
        match event {
            Event::Open if self.opened >= MOST_SESSIONS => Err(HubRefusal::Numbers),
            Event::Open if self.seats.len() >= MOST_OPEN => Err(HubRefusal::Crowded),
            Event::Open => Ok(0),
            Event::Piece(number, _) | Event::Close(number) => seat_of(
                self.seats.as_slice(),
                *number,
            ),
        }
    }

    /// Does what an event asks for, and adds what comes out.
    ///
    /// A refused event changes nothing. After want of memory, and where a request stopped whoever answers, a front of what
    /// comes out was added, and the hub is over: it refuses all events from then on.
    pub fn step(
        &mut self,
        alloc: Global,
        event: Event,
        outs: &mut Seq<Out>,
    ) -> Result<(), HubStop<A::Stop>>
        ensures refused { refused_by result ≡ refusal_of self.old (as_event event) }
        ensures steps { Steps A.Answers (as_event event) self.old self.new outs.old outs.new result }
        ensures service { A.service self.new.answers ≡ A.service self.old.answers }
    {
        let place = match self.place_for(&event) {
            Ok(place) => place,
            Err(refusal) => return Err(HubStop::Refused(refusal)),
        };
        let answer = perform(
            alloc,
            &mut self.answers,
            &mut self.opened,
            &mut self.seats,
            event,
            place,
            outs,
        );
        each_step_goes_on::<A>();
        self.over = answer.is_err();
        answer
    }

    /// Closes an open session as a step by `Close` does, and says after how many requests and how it ends. It takes no memory.
    pub fn close(&mut self, number: u32) -> (u64, End)
        requires { refusal_of self.old (Close number) ≡ None }
        ensures going { self.new.over ≡ false }
        ensures closes { Does A.Answers (Close number) self.old self.new (Out.Ended number result.0 result.1 ∷ []) }
        ensures same { self.new.answers ≡ self.old.answers }
    {
        each_step_goes_on::<A>();
        shut_session(&mut self.seats, number)
    }

    /// Refuses all events from now on.
    pub(crate) fn end(&mut self)
        ensures { self.new ≡ record self.old { over = true } }
    {
        self.over = true;
    }
}
