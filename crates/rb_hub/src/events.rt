// What comes to a hub, and what comes out of it.

use rb_trees::{Memory, Word};
use thiserror::Error;

/// What comes to a hub.
#[derive(Debug, Drop)]
pub enum Event {
    /// A session is wanted.
    Open,
    /// A piece of a session's stream.
    Piece(u32, Word),
    /// A session's stream has ended.
    Close(u32),
}

/// How a session ended.
#[derive(Clone, Copy, Debug, PartialEq)]
pub enum End {
    /// Its stream ended with a whole frame.
    Whole,
    /// Its stream ended within a frame, after so many bytes.
    Cut(u64),
    /// Its stream breaks the form of a request frame at this offset.
    BadFrame(u64),
    /// A request more is whole than a session may have.
    Spent,
}

/// What comes out of a hub.
#[derive(Debug, Drop)]
pub enum Out {
    /// A session was opened under this number.
    Opened(u32),
    /// The frame of the reply to a session's next request.
    Reply(u32, Word),
    /// A session ended after so many requests.
    Ended(u32, u64, End),
}

/// Why an event changes nothing.
#[derive(Clone, Copy, Debug, PartialEq, Error)]
pub enum HubRefusal {
    /// No session is open under the number.
    #[error("no session is open under the number")]
    UnknownSession,
    /// As many sessions are open as may be.
    #[error("too many sessions are open")]
    Crowded,
    /// All numbers were given.
    #[error("too many sessions were opened")]
    Numbers,
    /// An earlier event wanted memory, or one of its requests stopped whoever answers.
    #[error("the hub is over")]
    Over,
}

/// Why a step wasn't done, or not whole.
#[derive(Drop)]
pub enum HubStop<S: Drop> {
    Refused(HubRefusal),
    Memory,
    /// The next request stopped whoever answers.
    Answers(S),
}

impl<S: Drop> From<Memory> for HubStop<S> {
    ghost use Rattle.std.specs.Prelude.{◌≡◌};
    ghost use Rattle.rb_hub.specs.declared.events.HubStop.TheVariants as stops;

    ghost from_gives = { λ _ e. e ≡ stops.Memory };

    fn from(_want: Memory) -> HubStop<S> {
        HubStop::Memory
    }
}
