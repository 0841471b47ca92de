// What came out, beside what is wanted; and what is said where something goes otherwise.

use rb_hub::{End, Event, HubRefusal, Out};
use rb_trees::{Memory, Seq};
use std::alloc::Global;

/// Nothing where all goes as is wanted; or else what goes otherwise.
pub type Told = Result<(), &'static str>;

/// What is said where memory is wanting.
pub const NO_MEMORY: &str = "out of memory";

/// Says what goes otherwise, unless all goes as is wanted.
pub fn told(is_wanted: bool, otherwise: &'static str) -> Told {
    if is_wanted { Ok(()) } else { Err(otherwise) }
}

/// An event, as a table has it.
#[derive(Clone, Copy)]
pub enum Come {
    Open,
    Piece(u32, &'static [u8]),
    Close(u32),
}

/// What an event comes to.
#[derive(Clone, Copy)]
pub enum Step {
    Done,
    Refused(HubRefusal),
    /// One of its requests stops whoever answers.
    Stopped,
}

/// What is wanted to come out.
#[derive(Clone, Copy)]
pub enum Want {
    Opened(u32),
    Reply(u32, &'static [u8]),
    Ended(u32, u64, End),
}

/// The event that a table has.
pub fn event_of(alloc: Global, come: Come) -> Result<Event, Memory> {
    match come {
        Come::Open => Ok(Event::Open),
        Come::Piece(number, bytes) => Ok(Event::Piece(number, Seq::from_slice(alloc, bytes)?)),
        Come::Close(number) => Ok(Event::Close(number)),
    }
}

/// Whether this came out.
fn is_wanted(out: &Out, want: Want) -> bool {
    match (out, want) {
        (Out::Opened(number), Want::Opened(wanted)) => *number == wanted,
        (Out::Reply(number, frame), Want::Reply(wanted, bytes)) => {
            *number == wanted && frame.as_slice() == bytes
        }
        (Out::Ended(number, requests, end), Want::Ended(wanted, count, how)) => {
            *number == wanted && *requests == count && *end == how
        }
        _ => false,
    }
}

/// Says so where something else came out, or more or less.
pub fn outs_told(outs: &[Out], wants: &[Want]) -> Told {
    let mut are_wanted = outs.len() == wants.len();
    for (out, want) in outs.iter().zip(wants) {
        are_wanted &= is_wanted(out, *want);
    }
    told(are_wanted, "something else came out")
}
