// The lines of events are read.

ghost use Rattle.std.specs.Prelude.{◌≡◌, ◌++◌, ◌∷◌, [], IfOk, OnOk};
ghost use Rattle.rb_hub_lines.specs.Reading.{ReadsEvents, ReadsFirst, ReadsWords, found};

use crate::cutting::cut;
use crate::finding::likely_event;
use crate::words::event_words;
use rb_hub::Event;
use rb_trees::Memory;
use std::alloc::Global;
use std::collections::VecDeque;
use thiserror::Error;

/// Why events weren't read.
#[derive(Debug, Drop, Error)]
pub enum EventsStop {
    /// The line with this number, from 1, is the first that is no event's.
    #[error("line {0} is no event's")]
    Refused(u64),
    #[error("out of memory")]
    Memory,
}

impl From<Memory> for EventsStop {
    ghost use Rattle.std.specs.Prelude.{◌≡◌};
    ghost use Rattle.rb_hub_lines.specs.declared.reading.EventsStop.TheVariants as stops;

    ghost from_gives = { λ _ e. e ≡ stops.Memory };

    fn from(_want: Memory) -> EventsStop {
        EventsStop::Memory
    }
}

/// The event whose words these are, if they are one's.
fn event_of(alloc: Global, words: &[u8]) -> Result<Option<Event>, Memory>
    ensures { IfOk result (λ answer. ReadsWords words.now (found answer)) }
{
    let Some(event) = likely_event(alloc, words)? else {
        return Ok(None);
    };
    let text = event_words(alloc, &event)?;
    if text.as_bytes() == words {
        Ok(Some(event))
    } else {
        Ok(None)
    }
}

/// The event whose line stands at the front of a text, if one does, and the text behind it.
fn first_event(alloc: Global, text: &[u8]) -> Result<Option<(Event, &[u8])>, Memory>
    ensures { IfOk result (λ answer. ReadsFirst text.now answer) }
{
    let Some((words, rest)) = cut(b'\n', text) else {
        return Ok(None);
    };
    match event_of(alloc, words)? {
        Some(event) => Ok(Some((event, rest))),
        None => Ok(None),
    }
}

/// Adds an event.
fn add_event(events: &mut VecDeque<Event>, event: Event) -> Result<(), Memory>
    ensures { OnOk result (events.new.items ≡ events.old.items ++ event ∷ []) }
{
    events.push_back(event)?;
    Ok(())
}

/// Reads the lines of events.
///
/// Each line is ended by a line feed: `open`, `piece K HEX` or `close K`. K is a session's number in decimal, below 2^32 and
/// without a needless zero, and HEX has two digits of each byte, with lower-case letters, and at least one byte.
pub fn read_events(alloc: Global, text: &[u8]) -> Result<VecDeque<Event>, EventsStop>
    ensures { ReadsEvents (λ events. events.items) text.now result }
{
    let mut events = VecDeque::new(alloc);
    let mut rest = text;
    while !rest.is_empty() {
        match first_event(alloc, rest)? {
            Some((event, behind)) => {
                add_event(&mut events, event)?;
                rest = behind;
            }
            None => return Err(EventsStop::Refused(events.len() as u64 + 1)),
        }
    }
    Ok(events)
}
