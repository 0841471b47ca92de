// What a run is given, and why it is cut off.

use rb_trees::{Change, Memory, Seq};
use thiserror::Error;

/// What a run is given beside its program and its service: its fuel, and what others change before each of its batches, a list
/// before each. Before a batch for which there is no list they change nothing.
#[derive(Clone, Copy)]
pub struct Terms<'c> {
    pub fuel: u64,
    pub others: &'c [Seq<Change>],
}

/// Why a run was cut off.
#[derive(Debug, Drop, Error)]
pub enum PlainStop {
    #[error("a write failed")]
    WriteFault,
    #[error("out of memory")]
    Memory,
}

impl From<Memory> for PlainStop {
    ghost use Rattle.std.specs.Prelude.{◌≡◌};
    ghost use Rattle.rb_plain.specs.declared.run.PlainStop.TheVariants as stops;

    ghost from_gives = { λ _ e. e ≡ stops.Memory };

    fn from(_want: Memory) -> PlainStop {
        PlainStop::Memory
    }
}
