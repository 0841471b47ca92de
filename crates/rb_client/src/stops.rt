// Why a run is cut off.

use rb_trees::{Memory, Seq};
use rb_wire_forest::Misfit;
use thiserror::Error;

/// What is wrong with a reply.
#[derive(Debug, Drop, Error)]
pub enum BadReason {
    /// It ended after so many bytes, which break nothing but aren't the whole of it.
    #[error("the reply ends after {0} bytes")]
    Cut(u64),
    /// The byte at this offset is none that a reply has there.
    #[error("the reply breaks its form at offset {0}")]
    Frame(u64),
    /// The payload is no forest: the number and the offset of its first violation.
    #[error("the forest has violation {0} at offset {1}")]
    Forest(u8, u64),
    /// The forest doesn't fit the remainder.
    #[error("{0}")]
    Misfit(Misfit),
    /// The server refused the script, by a refusal with this number and this place.
    #[error("refused with {0} at {1}")]
    Refused(u8, u32),
    /// The payload should be a refusal, and spells none.
    #[error("garbled")]
    Garbled,
}

/// Why a run was cut off.
#[derive(Debug, Drop, Error)]
pub enum RunStop {
    /// An exchange failed, before which there were so many: a fault that the link counted.
    #[error("the link failed after {0} exchanges")]
    LinkFault(u64),
    /// The reply after so many was refused. Its kind and its payload are kept; or kind 0 and the bytes that were taken, where
    /// its frame is broken or cut.
    #[error("reply refused after {done} exchanges: {reason}")]
    BadReply {
        done: u64,
        reason: BadReason,
        kind: u8,
        bytes: Seq<u8>,
    },
    #[error("a write failed")]
    WriteFault,
    #[error("out of memory")]
    Memory,
}

impl From<Memory> for RunStop {
    ghost use Rattle.std.specs.Prelude.{◌≡◌};
    ghost use Rattle.rb_client.specs.declared.stops.RunStop.TheVariants as stops;

    ghost from_gives = { λ _ e. e ≡ stops.Memory };

    fn from(_want: Memory) -> RunStop {
        RunStop::Memory
    }
}
