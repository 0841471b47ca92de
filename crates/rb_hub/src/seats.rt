// The open sessions of a hub, in order of their numbers.

ghost use Rattle.std.specs.Prelude.{◌≡◌, ◌<◌, length, IfOk};
ghost use Rattle.rb_hub.specs.Seats.{StandsAt, IsPlace, GathersAt, session_of};
ghost use Rattle.rb_hub.specs.Hubs.{unknown, refusal_in};

use crate::events::HubRefusal;
use rb_session::{Session, SessionStop};
use rb_trees::{Seq, Word};
use std::alloc::Global;

/// An open session, and its number.
#[derive(Drop)]
pub struct Seat {
    pub number: u32,
    pub session: Session,
}

/// The place of the session with a number, or None where none is open under it.
pub fn place_of(seats: &[Seat], number: u32) -> Option<usize>
    ensures { StandsAt number seats.now result }
{
    for place in 0..seats.len() {
        if seats[place].number == number {
            return Some(place);
        }
    }
    None
}

/// Gives the session at a place a piece of its stream, and gathers the requests that became whole.
pub fn gather_at(
    seats: &mut Vec<Seat>,
    place: usize,
    alloc: Global,
    piece: &[u8],
    whole: &mut Seq<Word>,
) -> Result<(), SessionStop>
    requires { place < length seats.old.items }
    ensures { GathersAt seats.old.items seats.new.items place piece.now whole.old whole.new result }
{
    seats[place].session.take(alloc, piece, whole)
}

/// The place of the session that an event names, or why the event is refused.
pub fn seat_of(seats: &[Seat], number: u32) -> Result<usize, HubRefusal>
    ensures refused { refusal_in result ≡ unknown (session_of number seats.now) }
    ensures place { IfOk result (λ place. IsPlace number seats.now place) }
{
    match place_of(seats, number) {
        Some(place) => Ok(place),
        None => Err(HubRefusal::UnknownSession),
    }
}
