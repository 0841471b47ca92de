// Where sessions come from.

ghost use Rattle.std.specs.Prelude.{◌≡◌, ◌<◌, ℕ, Option, option_map, is_ok, is_some, IfSome};
ghost use Rattle.rb_base.specs.Devices.{device};
ghost use Rattle.rb_base.specs.Listening.{Listening, started, after_start, risen_on_err, faults_after, seen, ends_of, IsFresh, GivesWhereTold, with_back};

use crate::sinks::{Failed, Sink};
use crate::sources::Source;
use rb_trees::{Memory, Seq, Word};
use thiserror::Error;

/// A session that is to come: the bytes of its source, and the numbers, counted from 1, of its reads and of its writes that
/// fail.
#[derive(Drop)]
pub struct Coming {
    pub bytes: Word,
    pub reads: Seq<u64>,
    pub writes: Seq<u64>,
}

/// Why no session is handed out.
#[derive(Debug, Drop, Error)]
pub enum ListenStop {
    /// The listener failed: a fault that was counted.
    #[error("the listener failed")]
    Failed,
    #[error("out of memory")]
    Memory,
}

impl From<Memory> for ListenStop {
    ghost use Rattle.std.specs.Prelude.{◌≡◌};
    ghost use Rattle.rb_base.specs.declared.listens.ListenStop.TheVariants as stops;

    ghost from_gives = { λ _ e. e ≡ stops.Memory };

    fn from(_want: Memory) -> ListenStop {
        ListenStop::Memory
    }
}

/// Where sessions come from, each with a source of requests and a sink for the replies.
///
/// An address is started first, and then its sessions are handed out one after the other. Whoever has served one gives its
/// two ends back. What a listener tells is `Listening`: the sessions of each address, those still to come, those that came
/// back, and which calls fail. A real listener tells nothing, and then no clause says which sessions come. After an error
/// the same listener may be used again.
pub trait Listen {
    type S: Source + Drop;

    type K: Sink + Drop;

    /// What it tells, where it tells anything. Whether it does is kept by each call.
    ghost told: { Self → Option Listening };

    /// How many calls failed. The count never falls, and stands still at the end of a `u64`.
    ghost faults: { Self → ℕ };

    /// Starts an address: its sessions are those that come from now on.
    fn start(&mut self, address: &str) -> Result<(), Failed>
        ensures answer { IfSome (told self.old) (λ l. is_ok result ≡ is_some (started l address.now)) }
        ensures after { told self.new ≡ option_map (after_start address.now) (told self.old) }
        ensures faults { faults self.new ≡ risen_on_err result (faults self.old) };

    /// The two ends of the next session, of which no call has failed yet; None where no session comes any more.
    fn next(&mut self) -> Result<Option<(Self::S, Self::K)>, ListenStop>
        ensures gives { let answer = seen (device Self.S.told Self.S.faults) (device Self.K.told Self.K.faults) result in
            GivesWhereTold answer (told self.old) (told self.new) }
        ensures fresh { IsFresh (seen (device Self.S.told Self.S.faults) (device Self.K.told Self.K.faults) result) }
        ensures faults { faults self.new ≡ faults_after result (faults self.old) };

    /// Takes back the two ends of a session that is out. It takes no memory, and can't fail.
    fn back(&mut self, source: Self::S, sink: Self::K)
        requires { IfSome (told self.old) (λ l. 0 < l.out) }
        ensures after { let ends = ends_of (device Self.S.told Self.S.faults) (device Self.K.told Self.K.faults) source sink in
            told self.new ≡ option_map (with_back ends) (told self.old) }
        ensures faults { faults self.new ≡ faults self.old };
}
