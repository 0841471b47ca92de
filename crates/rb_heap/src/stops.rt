// Why an object isn't added, or a field isn't written.

use rb_trees::{Memory, Object, Value};
use std::fmt;
use thiserror::Error;

/// Why an object isn't added to a heap.
#[derive(Drop, Error)]
pub enum AddStop {
    /// The heap has 100,000 objects. The object is handed back.
    #[error("the heap is full")]
    Full(Object),
    #[error("out of memory")]
    Memory,
}

// Its message: objects have no text of their own.
impl fmt::Debug for AddStop {
    fn fmt<W: fmt::Write>(&self, f: &mut fmt::Formatter<W>) -> fmt::Result {
        write!(f, "{self}")
    }
}

impl From<Memory> for AddStop {
    ghost use Rattle.std.specs.Prelude.{◌≡◌};
    ghost use Rattle.rb_heap.specs.declared.stops.AddStop.TheVariants as stops;

    ghost from_gives = { λ _ e. e ≡ stops.Memory };

    fn from(_want: Memory) -> AddStop {
        AddStop::Memory
    }
}

/// Why a field of a heap's object isn't given another value.
#[derive(Drop, Error)]
pub enum SetStop {
    /// There is no such object or field. The value is handed back.
    #[error("there is no such field")]
    Missing(Value),
    #[error("out of memory")]
    Memory,
}

// Its message: values have no text of their own.
impl fmt::Debug for SetStop {
    fn fmt<W: fmt::Write>(&self, f: &mut fmt::Formatter<W>) -> fmt::Result {
        write!(f, "{self}")
    }
}

impl From<Memory> for SetStop {
    ghost use Rattle.std.specs.Prelude.{◌≡◌};
    ghost use Rattle.rb_heap.specs.declared.stops.SetStop.TheVariants as stops;

    ghost from_gives = { λ _ e. e ≡ stops.Memory };

    fn from(_want: Memory) -> SetStop {
        SetStop::Memory
    }
}
