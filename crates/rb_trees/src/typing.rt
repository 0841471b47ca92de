// Why a program or a service isn't typed.

use crate::code::TypeForm;
use crate::want::Memory;
use std::fmt;
use thiserror::Error;

/// Why a program or a service isn't typed: the first violation, at a position.
#[derive(Drop, Error)]
pub enum TypeError {
    /// Nothing is known by this name here; `this` is known in methods alone.
    #[error("nothing of the name at offset {0} is known there")]
    UnknownName(u32),
    /// A second thing of the same name.
    #[error("the name at offset {0} is taken")]
    NameTaken(u32),
    /// The type that an expression has, where another is wanted.
    #[error("the expression at offset {0} has another type than is wanted")]
    WrongType(u32, TypeForm),
    /// A call or a `new` with too few or too many arguments.
    #[error("the call at offset {0} has a wrong count of arguments")]
    WrongCount(u32),
    /// What stands left of `=` has no place that a value could go to.
    #[error("the left side of the assignment at offset {0} can't be assigned")]
    NotAssignable(u32),
    /// A body promises a result and ends without a `return`.
    #[error("the body declared at offset {0} needs a return")]
    MissingReturn(u32),
    /// A type that is of no use where it stands.
    #[error("the type at offset {0} may not stand there")]
    TypeNotHere(u32),
    /// A statement or call that its surroundings forbid.
    #[error("what stands at offset {0} isn't allowed there")]
    NotAllowedHere(u32),
    #[error("out of memory")]
    Memory,
}

// Its message: a derived text would want one of each type.
impl fmt::Debug for TypeError {
    fn fmt<W: fmt::Write>(&self, f: &mut fmt::Formatter<W>) -> fmt::Result {
        write!(f, "{self}")
    }
}

impl From<Memory> for TypeError {
    ghost use Rattle.std.specs.Prelude.{◌≡◌};
    ghost use Rattle.rb_trees.specs.declared.typing.TypeError.TheVariants as errors;

    ghost from_gives = { λ _ e. e ≡ errors.Memory };

    fn from(_want: Memory) -> TypeError {
        TypeError::Memory
    }
}
