// Why a batch isn't divided.

use rb_trees::{Memory, Refusal};
use std::fmt;
use thiserror::Error;

/// Why a batch isn't divided.
#[derive(Drop, Error)]
pub enum SplitStop {
    /// The batch has too many inputs, or its script is too large.
    #[error("a batch of the program can't be divided")]
    Refused(Refusal),
    #[error("out of memory")]
    Memory,
}

// Its message: a derived text would want one of each refusal.
impl fmt::Debug for SplitStop {
    fn fmt<W: fmt::Write>(&self, f: &mut fmt::Formatter<W>) -> fmt::Result {
        write!(f, "{self}")
    }
}

impl From<Memory> for SplitStop {
    ghost use Rattle.std.specs.Prelude.{◌≡◌};
    ghost use Rattle.rb_split.specs.declared.stops.SplitStop.TheVariants as stops;

    ghost from_gives = { λ _ e. e ≡ stops.Memory };

    fn from(_want: Memory) -> SplitStop {
        SplitStop::Memory
    }
}
