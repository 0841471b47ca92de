// Why a text isn't laid out.

use rb_trees::{Memory, ReadError, StoreError};
use std::fmt;
use thiserror::Error;

/// Why a text isn't laid out. An `Unread` or `Unserved` holds no Memory.
#[derive(Drop, Error)]
pub enum FormatStop {
    /// The source isn't read as a program.
    #[error("{0}")]
    Unread(ReadError),
    /// The source is no service.
    #[error("{0}")]
    Unserved(StoreError),
    /// With its comments the text would be too long, or wouldn't be read as what the source is.
    #[error("its comments can't be kept")]
    Unkept,
    /// What is printed is longer than 1,048,576 bytes, and so couldn't be read again.
    #[error("laid out it would be too long")]
    TooLong,
    #[error("out of memory")]
    Memory,
}

// Its message: a derived text would want one of each type.
impl fmt::Debug for FormatStop {
    fn fmt<W: fmt::Write>(&self, f: &mut fmt::Formatter<W>) -> fmt::Result {
        write!(f, "{self}")
    }
}

impl From<Memory> for FormatStop {
    ghost use Rattle.std.specs.Prelude.{◌≡◌};
    ghost use Rattle.rb_format.specs.declared.stops.FormatStop.TheVariants as stops;

    ghost from_gives = { λ _ e. e ≡ stops.Memory };

    fn from(_want: Memory) -> FormatStop {
        FormatStop::Memory
    }
}
