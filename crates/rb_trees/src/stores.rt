// Why a text is no service.

use crate::reading::ReadError;
use crate::typing::TypeError;
use crate::want::Memory;
use std::fmt;
use thiserror::Error;

/// Why a text is no service with a table: the first refusal. The number is that of an object, by its place in the text
/// from 0. A `Read` or `Types` holds no Memory.
#[derive(Drop, Error)]
pub enum StoreError {
    /// It isn't read.
    #[error("{0}")]
    Read(ReadError),
    /// Its classes aren't typed; or an object is of a class that isn't there.
    #[error("{0}")]
    Types(TypeError),
    /// No object is written with the root's number.
    #[error("no object has the root's number")]
    NoRoot,
    /// A value of the object refers to a number that no object is written with.
    #[error("object {0} refers to an object that isn't there")]
    BadReference(u32),
    /// The object's fields aren't those of its class in order.
    #[error("object {0} doesn't have the fields of its class")]
    FieldMissing(u32),
    /// A value of the object isn't of its field's type, or has a list of more than 10,000 items.
    #[error("object {0} has a value of another type than its field")]
    FieldKind(u32),
    /// The object is written with another number than its place.
    #[error("object {0} has another number")]
    ObjectNumber(u32),
    #[error("out of memory")]
    Memory,
}

// Its message: a derived text would want one of each type.
impl fmt::Debug for StoreError {
    fn fmt<W: fmt::Write>(&self, f: &mut fmt::Formatter<W>) -> fmt::Result {
        write!(f, "{self}")
    }
}

impl From<Memory> for StoreError {
    ghost use Rattle.std.specs.Prelude.{◌≡◌};
    ghost use Rattle.rb_trees.specs.declared.stores.StoreError.TheVariants as errors;

    ghost from_gives = { λ _ e. e ≡ errors.Memory };

    fn from(_want: Memory) -> StoreError {
        StoreError::Memory
    }
}
