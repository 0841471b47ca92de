// Where links are had from.

ghost use Rattle.std.specs.Prelude.{◌≡◌, ℕ, Option, IfOk};
ghost use Rattle.rb_session.specs.Dials.{Dialling, seen, TakesNext, after_dial, IsDialled, GoesOn, after_around, HasOneOut, after_back};

use crate::memory_link::MemoryLink;
use crate::targets::Target;
use rb_base::Link;
use rb_trees::Memory;
use thiserror::Error;

/// Why no link was dialled.
#[derive(Debug, Drop, Error)]
pub enum DialStop {
    /// The target can't be reached: a fault that was counted.
    #[error("the target can't be dialled")]
    Failed,
    #[error("out of memory")]
    Memory,
}

impl From<Memory> for DialStop {
    ghost use Rattle.std.specs.Prelude.{◌≡◌};
    ghost use Rattle.rb_session.specs.declared.dials.DialStop.TheVariants as stops;

    ghost from_gives = { λ _ e. e ≡ stops.Memory };

    fn from(_want: Memory) -> DialStop {
        DialStop::Memory
    }
}

/// Where links are had from.
///
/// The caller dials a target, or hands in a link in memory and gets it as one of this Dial's links; it exchanges over the link
/// that it got, and gives it back when that run has ended. After an error the same object may be dialled again.
///
/// What a Dial tells is `Dialling`: the links that wait, each under its target, which dials fail, how many links are out, and
/// the links that came back, each with all that it tells then. A real device tells nothing, and then no clause says what stands
/// behind a link that was dialled. Where it tells, whether that link is honest follows from the link that waits.
pub trait Dial {
    /// Its links.
    type L: Link;

    /// What it tells, where it tells anything. Whether it does is kept by each call.
    ghost told: { Self → Option (Dialling Self.L) };

    /// How many dials failed. The count never falls, and stands still at the end of a `u64`.
    ghost faults: { Self → ℕ };

    /// How many links came back broken: with a count of faults that isn't 0. The count never falls, and stands still at the end
    /// of a `u64`.
    ghost broken: { Self → ℕ };

    /// Dials a target, and answers a link to it, over which no exchange failed yet. Each call is numbered, whatever it answers.
    fn dial(&mut self, target: &Target) -> Result<Self::L, DialStop>
        ensures takes { TakesNext target.now result (told self.old) }
        ensures dialled { IfOk result (IsDialled Self.L.Link) }
        ensures after { seen told faults broken self.new ≡ after_dial target.now result (seen told faults broken self.old) };

    /// Takes a link in memory, and answers it as a link of this Dial. It is no dial: it isn't numbered, and no fault is counted.
    /// Its error is want of memory, after which the link is gone.
    fn around(&mut self, link: MemoryLink) -> Result<Self::L, Memory>
        ensures goes_on { IfOk result (GoesOn Self.L.Link link) }
        ensures after { seen told faults broken self.new ≡ after_around result (seen told faults broken self.old) };

    /// Takes back a link that `dial` or `around` gave. It takes no memory, can't fail and isn't numbered.
    fn back(&mut self, link: Self::L)
        requires { HasOneOut (told self.old) }
        ensures after { seen told faults broken self.new ≡ after_back Self.L.Link link (seen told faults broken self.old) };
}
