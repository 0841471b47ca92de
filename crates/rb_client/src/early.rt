// How a remainder ends early.

ghost use Rattle.std.specs.Prelude.{◌≡◌};
ghost use Rattle.rb_client.specs.Ends as words;
ghost use Rattle.rb_client.specs.Ends.{RaisesBy, flattened};

use rb_base::Failed;
use rb_engine::{End, Halt, RunResult};
use rb_trees::{Boxed, Memory, Raised};
use std::alloc::Global;

/// How a remainder ends early: by a fault, because a write failed, or for want of memory. The fault is boxed, so that what a
/// part gives stays small.
#[derive(Drop)]
pub enum Early {
    Raised(Boxed<Raised>),
    WriteFault,
    Memory,
}

impl From<Memory> for Early {
    ghost use Rattle.std.specs.Prelude.{◌≡◌};
    ghost use Rattle.rb_client.specs.declared.early.Early.TheVariants as early;

    ghost from_gives = { λ _ e. e ≡ early.Memory };

    fn from(_want: Memory) -> Early {
        Early::Memory
    }
}

/// An end by a fault, or for want of memory where the fault finds no room.
#[inline(never)]
pub fn raise(alloc: Global, raised: Raised) -> Early
    ensures { RaisesBy raised result }
{
    match Boxed::new(alloc, raised) {
        Ok(raised) => Early::Raised(raised),
        Err(_) => Early::Memory,
    }
}

/// How code ended, as the end of a part.
#[inline(always)]
pub fn early_of<T>(ended: Result<T, End<Failed>>) -> Result<T, Early>
    ensures { result ≡ words.early_of ended }
{
    match ended {
        Ok(value) => Ok(value),
        Err(End::Raised(raised)) => Err(Early::Raised(raised)),
        Err(End::NoMemory) => Err(Early::Memory),
        Err(End::Stopped(_)) => Err(Early::WriteFault),
    }
}

/// The kinds of end apart.
pub fn step_of<T>(outcome: Result<T, Early>) -> RunResult<T, Failed>
    ensures { flattened result ≡ outcome }
{
    match outcome {
        Ok(value) => Ok(Ok(value)),
        Err(Early::Raised(raised)) => Ok(Err(raised.into_inner())),
        Err(Early::Memory) => Err(Halt::Memory),
        Err(Early::WriteFault) => Err(Halt::World(Failed)),
    }
}
