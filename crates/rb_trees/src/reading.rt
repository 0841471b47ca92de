// Why a text isn't read.

use crate::want::Memory;
use thiserror::Error;

/// Why a text has no tokens: the first violation, at a byte offset.
#[derive(Debug, Drop, Error)]
pub enum LexError {
    /// A byte that no token can begin with, or a backslash of a text literal that makes no escape.
    #[error("no token begins with the byte at offset {0}")]
    BadByte(u32),
    /// A text literal whose line is over before a quote closes it.
    #[error("the text literal at offset {0} isn't closed on its line")]
    OpenText(u32),
    /// A number that no Int has: at most 9223372036854775807, and right behind a minus one more.
    #[error("the number at offset {0} is above 9223372036854775807")]
    NumberTooLarge(u32),
    /// The text goes on from here by bytes that are no UTF-8.
    #[error("the text isn't UTF-8 from offset {0} on")]
    NotUtf8(u32),
    /// The text is longer than 1,048,576 bytes, or the value of a text literal longer than 4,096.
    #[error("too long at offset {0}")]
    TooLong(u32),
    #[error("out of memory")]
    Memory,
}

/// Why a text isn't read: the first violation, at a byte offset. A `Lex` holds no Memory.
#[derive(Debug, Drop, Error)]
pub enum ReadError {
    #[error("{0}")]
    Lex(LexError),
    /// The grammar can go on from here, but not by this token; or it can't stop at this end.
    #[error("the token at offset {0} isn't expected there")]
    Unexpected(u32),
    /// The first token that a limit of nesting forbids.
    #[error("the token at offset {0} nests too deep")]
    TooNested(u32),
    #[error("out of memory")]
    Memory,
}

impl From<Memory> for LexError {
    ghost use Rattle.std.specs.Prelude.{◌≡◌};
    ghost use Rattle.rb_trees.specs.declared.reading.LexError.TheVariants as errors;

    ghost from_gives = { λ _ e. e ≡ errors.Memory };

    fn from(_want: Memory) -> LexError {
        LexError::Memory
    }
}

impl From<Memory> for ReadError {
    ghost use Rattle.std.specs.Prelude.{◌≡◌};
    ghost use Rattle.rb_trees.specs.declared.reading.ReadError.TheVariants as errors;

    ghost from_gives = { λ _ e. e ≡ errors.Memory };

    fn from(_want: Memory) -> ReadError {
        ReadError::Memory
    }
}
