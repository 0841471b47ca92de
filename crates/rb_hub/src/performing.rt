// What an event does to the parts of a hub.

ghost use Rattle.std.specs.Prelude.{◌≡◌, ◌<◌, ◌+◌, ◌∷◌, ◌++◌, [], List, None, Some, length, take, drop, slice_index_or, All, IsSome, OnOk, OnErr};
ghost use Rattle.rb_meaning_frames.specs.Histories.{most_sessions};
ghost use Rattle.rb_session.specs.Taking.{longest_frame};
ghost use Rattle.rb_session.specs.Sessions.{new_session};
ghost use Rattle.rb_hub.specs.declared.events.Out.{Out};
ghost use Rattle.rb_hub.specs.declared.seats.Seat.{Seat};
ghost use Rattle.rb_hub.specs.Serial.{as_event};
ghost use Rattle.rb_hub.specs.Seats.{session_of, IsPlace, SitsAt};
ghost use Rattle.rb_hub.specs.Hubs.{IsOpen, MayGoOn, DoesOpen, DoesClose, AnswersPiece, HearsBy, EndsBy, Performs, close_of, said, kept_by, hub_of, refusal_by};

use crate::events::{End, Event, HubStop, Out};
use crate::replying::answer_all;
use crate::seats::{Seat, gather_at, place_of};
use rb_session::{Answers, Session, SessionStop};
use rb_trees::{Memory, Seq};
use std::alloc::Global;

/// Adds a new session.
fn add_seat(alloc: Global, seats: &mut Vec<Seat>, number: u32) -> Result<(), Memory>
    ensures { OnOk result (seats.new.items ≡ seats.old.items ++ record { number = number; session = new_session } ∷ []) }
{
    let session = Session::make(alloc);
    seats.push(Seat { number, session })?;
    Ok(())
}

/// Opens a session under the next number.
fn open_next(
    alloc: Global,
    opened: &mut u64,
    seats: &mut Vec<Seat>,
    outs: &mut Seq<Out>,
) -> Result<(), Memory>
    requires room { opened.old < most_sessions }
    requires seats { All IsOpen seats.old.items }
    ensures opens { let given = Out.Opened opened.old ∷ [] in
        OnOk result (DoesOpen opened.old opened.new seats.old.items seats.new.items given) }
    ensures outs { OnOk result (outs.new ≡ outs.old ++ Out.Opened opened.old ∷ []) }
    ensures err { OnErr result (outs.new ≡ outs.old) }
    ensures kept { OnOk result (All IsOpen seats.new.items) }
{
    let number = *opened as u32;
    add_seat(alloc, seats, number)?;
    outs.push(Out::Opened(number))?;
    *opened += 1;
    Ok(())
}

/// How a session ends that is closed.
fn close_of(session: &Session) -> End
    requires { length session.now.rest < longest_frame }
    ensures { result ≡ close_of session.now session.now.rest }
{
    match session.came() {
        (_, true) => End::Whole,
        (bytes, false) => End::Cut(bytes),
    }
}

/// Ends the session at a place.
fn end_session(
    seats: &mut Vec<Seat>,
    place: usize,
    number: u32,
    end: End,
    outs: &mut Seq<Out>,
) -> Result<(), Memory>
    requires { place < length seats.old.items }
    ensures outs { let seat = slice_index_or seats.old.items place in
        OnOk result ((d : Seat) → outs.new ≡ outs.old ++ said number (seat d).session (Some end)) }
    ensures seats { OnOk result (seats.new.items ≡ take place seats.old.items ++ drop (place + 1) seats.old.items) }
    ensures err { OnErr result (outs.new ≡ outs.old) }
{
    let requests = seats[place].session.requests();
    outs.push(Out::Ended(number, requests, end))?;
    seats.remove(place);
    Ok(())
}

/// Closes the session at a place, and says after how many requests and how it ends. It takes no memory.
fn shut_seat(seats: &mut Vec<Seat>, number: u32, place: usize) -> (u64, End)
    requires place { IsPlace number seats.old.items place }
    requires seats { All IsOpen seats.old.items }
    ensures closes { let given = Out.Ended number result.0 result.1 ∷ [] in
        DoesClose number seats.old.items seats.new.items given }
    ensures kept { All IsOpen seats.new.items }
{
    let session = &seats[place].session;
    let ended = (session.requests(), close_of(session));
    seats.remove(place);
    ended
}

/// Closes a session, and says after how many requests and how it ends. It takes no memory.
pub fn shut_session(seats: &mut Vec<Seat>, number: u32) -> (u64, End)
    requires found { IsSome (session_of number seats.old.items) }
    requires seats { All IsOpen seats.old.items }
    ensures closes { let given = Out.Ended number result.0 result.1 ∷ [] in
        DoesClose number seats.old.items seats.new.items given }
    ensures kept { All IsOpen seats.new.items }
{
    let Some(place) = place_of(seats.as_slice(), number) else {
        unreachable!()
    };
    shut_seat(seats, number, place)
}

/// Closes the session at a place.
fn close_session(
    seats: &mut Vec<Seat>,
    number: u32,
    place: usize,
    outs: &mut Seq<Out>,
) -> Result<(), Memory>
    requires place { IsPlace number seats.old.items place }
    requires seats { All IsOpen seats.old.items }
    ensures closes { OnOk result ((given : List Out) × (outs.new ≡ outs.old ++ given)
        × DoesClose number seats.old.items seats.new.items given) }
    ensures err { OnErr result (outs.new ≡ outs.old) }
    ensures kept { OnOk result (All IsOpen seats.new.items) }
{
    let (requests, end) = shut_seat(seats, number, place);
    outs.push(Out::Ended(number, requests, end))?;
    Ok(())
}

/// How a session ends that took a piece with this answer, if it does.
fn end_of(answer: Result<(), SessionStop>) -> Result<Option<End>, Memory>
    ensures { EndsBy answer result }
{
    match answer {
        Ok(()) => Ok(None),
        Err(SessionStop::BadFrame(at)) => Ok(Some(End::BadFrame(at))),
        Err(SessionStop::SessionSpent) => Ok(Some(End::Spent)),
        Err(SessionStop::Memory) => Err(Memory),
    }
}

/// Gives the session at a place a piece, and answers the requests that became whole. Says how the session ends, if it does.
fn answer_piece<A: Answers>(
    alloc: Global,
    answers: &mut A,
    seats: &mut Vec<Seat>,
    number: u32,
    place: usize,
    piece: &[u8],
    outs: &mut Seq<Out>,
) -> Result<Option<End>, HubStop<A::Stop>>
    requires place { IsPlace number seats.old.items place }
    requires may { MayGoOn A.Answers answers.old seats.old.items }
    ensures answers { (given : List Out) × (outs.new ≡ outs.old ++ given)
        × AnswersPiece A.Answers number piece.now answers.old answers.new seats.old.items seats.new.items given result }
    ensures ready { OnOk result (A.ready answers.new) }
    ensures service { A.service answers.new ≡ A.service answers.old }
{
    let mut whole = Seq::new(alloc);
    let answer = gather_at(seats, place, alloc, piece, &mut whole);
    let end = end_of(answer)?;
    answer_all(alloc, answers, number, whole.as_slice(), outs)?;
    Ok(end)
}

/// Ends the session at a place, if it ends.
fn finish(
    seats: &mut Vec<Seat>,
    place: usize,
    number: u32,
    end: Option<End>,
    outs: &mut Seq<Out>,
) -> Result<(), Memory>
    requires { place < length seats.old.items }
    ensures outs { let seat = slice_index_or seats.old.items place in
        OnOk result ((d : Seat) → outs.new ≡ outs.old ++ said number (seat d).session end) }
    ensures seats { OnOk result (seats.new.items ≡ kept_by place end seats.old.items) }
    ensures err { OnErr result (outs.new ≡ outs.old) }
{
    match end {
        None => Ok(()),
        Some(end) => end_session(seats, place, number, end, outs),
    }
}

/// Gives the session at a place a piece, answers the requests that became whole, and ends it where it stopped.
fn hear<A: Answers>(
    alloc: Global,
    answers: &mut A,
    seats: &mut Vec<Seat>,
    number: u32,
    place: usize,
    piece: &[u8],
    outs: &mut Seq<Out>,
) -> Result<(), HubStop<A::Stop>>
    requires place { IsPlace number seats.old.items place }
    requires may { MayGoOn A.Answers answers.old seats.old.items }
    ensures hears { (given : List Out) × (outs.new ≡ outs.old ++ given)
        × HearsBy A.Answers number piece.now answers.old answers.new seats.old.items seats.new.items given result }
    ensures kept { OnOk result (MayGoOn A.Answers answers.new seats.new.items) }
    ensures service { A.service answers.new ≡ A.service answers.old }
{
    let end = answer_piece(alloc, answers, seats, number, place, piece, outs)?;
    finish(seats, place, number, end, outs)?;
    Ok(())
}

/// Does what an event asks for that isn't refused. The session that it names, if it names one, stands at the place.
pub fn perform<A: Answers>(
    alloc: Global,
    answers: &mut A,
    opened: &mut u64,
    seats: &mut Vec<Seat>,
    event: Event,
    place: usize,
    outs: &mut Seq<Out>,
) -> Result<(), HubStop<A::Stop>>
    requires may { refusal_by (hub_of answers.old opened.old seats.old.items) (as_event event) ≡ None }
    requires place { SitsAt (as_event event) seats.old.items place }
    requires keeps { MayGoOn A.Answers answers.old seats.old.items }
    ensures performs { Performs A.Answers (as_event event) (hub_of answers.old opened.old seats.old.items)
        (hub_of answers.new opened.new seats.new.items) outs.old outs.new result }
    ensures kept { OnOk result (MayGoOn A.Answers answers.new seats.new.items) }
    ensures service { A.service answers.new ≡ A.service answers.old }
{
    match event {
        Event::Open => Ok(open_next(alloc, opened, seats, outs)?),
        Event::Piece(number, piece) => {
            hear(alloc, answers, seats, number, place, piece.as_slice(), outs)
        }
        Event::Close(number) => Ok(close_session(seats, number, place, outs)?),
    }
}
