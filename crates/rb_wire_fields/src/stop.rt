// Why reading stops, and the numbers of violations.

use rb_trees::Memory;

/// The number of the first violation, and how many bytes are left at its place.
///
/// The number is a byte in a whole word. What a reader gives else has words in the same place, and what has a byte there is
/// copied in parts.
#[derive(Clone, Copy)]
pub struct Violation {
    pub number: usize,
    pub left: usize,
}

/// Why reading into memory stops: at the first violation, or since memory ran out.
#[derive(Drop)]
pub enum Stop {
    Refused(Violation),
    Memory,
}

impl From<Violation> for Stop {
    ghost use Rattle.std.specs.Prelude.{◌≡◌};
    ghost use Rattle.rb_wire_fields.specs.declared.stop.Stop.TheVariants as stops;

    ghost from_gives = { λ violation e. e ≡ stops.Refused violation };

    fn from(violation: Violation) -> Stop {
        Stop::Refused(violation)
    }
}

impl From<Memory> for Stop {
    ghost use Rattle.std.specs.Prelude.{◌≡◌};
    ghost use Rattle.rb_wire_fields.specs.declared.stop.Stop.TheVariants as stops;

    ghost from_gives = { λ _ e. e ≡ stops.Memory };

    fn from(_want: Memory) -> Stop {
        Stop::Memory
    }
}

/// A field lacks bytes.
pub const TRUNCATED: u8 = 1;

/// A version, a tag or a code that isn't in its table.
pub const BAD_TAG: u8 = 2;

/// A text that is too long or no UTF-8, or a name that is none.
pub const BAD_TEXT: u8 = 3;

/// A truth value above 1, or a number with a needless group or beyond its bits.
pub const NOT_CANONICAL: u8 = 4;

/// A part of the message within too many others.
pub const TOO_DEEP: u8 = 5;

/// Bytes after the message.
pub const TRAILING: u8 = 6;

/// A text of a pool that equals an earlier one, is used too early, or isn't used.
pub const BAD_POOL: u8 = 7;

/// Lists with too many items together.
pub const TOO_MANY_ITEMS: u8 = 8;
