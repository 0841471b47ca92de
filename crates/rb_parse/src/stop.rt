// Why reading stops.

use rb_trees::Memory;

/// Why reading stops.
#[derive(Drop)]
pub(crate) enum Stop {
    /// With so many tokens left: the next one isn't expected.
    Unexpected(usize),
    Memory,
}

impl From<Memory> for Stop {
    ghost use Rattle.std.specs.Prelude.{◌≡◌};
    ghost use Rattle.rb_parse.specs.declared.stop.Stop.TheVariants as stops;

    ghost from_gives = { λ _ e. e ≡ stops.Memory };

    fn from(_want: Memory) -> Stop {
        Stop::Memory
    }
}

/// Why the tokens of a text aren't read.
#[derive(Drop)]
pub(crate) enum Refusal {
    /// With so many tokens left: the next one isn't expected.
    Unexpected(usize),
    /// With so many tokens left: the next one breaks a limit of nesting.
    TooNested(usize),
    Memory,
}
