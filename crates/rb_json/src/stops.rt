// Why a request in JSON isn't answered.

use rb_trees::Memory;

/// Why bytes aren't a request in JSON.
#[derive(Clone, Copy, Debug, PartialEq, Eq, thiserror::Error)]
pub enum JsonRefusal {
    /// They have no reading as JSON of at most 127 levels.
    #[error("not JSON of at most 127 levels")]
    NotJson,
    /// The first value that isn't of the form, by its number. The whole is 0, and each value's parts are counted after it: items
    /// as they stand, members by their keys.
    #[error("wrong form at value {0}")]
    WrongForm(u32),
}

/// Why a request in JSON isn't answered.
#[derive(Debug, Drop, thiserror::Error)]
pub enum JsonStop {
    /// The bytes aren't a request.
    #[error("the request is refused: {0}")]
    Refused(JsonRefusal),
    #[error("out of memory")]
    Memory,
}

/// Why a JSON value isn't read.
#[derive(Drop)]
pub(crate) enum ReadStop {
    /// The number of the first value that breaks the form.
    WrongForm(u32),
    Memory,
}

impl From<Memory> for ReadStop {
    ghost use Rattle.std.specs.Prelude.{◌≡◌};
    ghost use Rattle.rb_json.specs.declared.stops.ReadStop.TheVariants as stops;

    ghost from_gives = { λ _ e. e ≡ stops.Memory };

    fn from(_want: Memory) -> ReadStop {
        ReadStop::Memory
    }
}

impl From<Memory> for JsonStop {
    ghost use Rattle.std.specs.Prelude.{◌≡◌};
    ghost use Rattle.rb_json.specs.declared.stops.JsonStop.TheVariants as stops;

    ghost from_gives = { λ _ e. e ≡ stops.Memory };

    fn from(_want: Memory) -> JsonStop {
        JsonStop::Memory
    }
}
