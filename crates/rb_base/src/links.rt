// Links to servers: one request, one reply.

ghost use Rattle.std.specs.Prelude.{◌≡◌, ◌≤◌, ℕ, Bool, Option, length, IfOk, IfErr};
ghost use Rattle.std.specs.Option.{option_copied};
ghost use Rattle.rb_meaning.specs.Answers.{longest_request};
ghost use Rattle.rb_meaning.specs.Links.{Told, pairs_told, server_told, TellsTyped};
ghost use Rattle.rb_base.specs.Links.{IsReplyKind, KeepsCause, pairs_after, faults_after, FindsFitting, FindsStanding, IsListedWhereTold, ServesAsTold, UnlessMemory, Lends};

use bytes::BytesMut;
use rb_heap::Heap;
use rb_trees::{Memory, Seq};
use thiserror::Error;

/// What a server replied: the kind, 2 for a forest and 3 for a refusal, and the payload.
#[derive(Drop)]
pub struct Reply {
    pub kind: u8,
    pub payload: BytesMut,
}

/// Why an exchange has no reply.
#[derive(Debug, Drop, Error)]
pub enum LinkStop {
    /// The request couldn't be sent, or the reply couldn't be read: a fault that was counted.
    #[error("the link failed")]
    Failed,
    /// The byte at this offset of the reply is none that a reply has there. The bytes are those that were taken, this one
    /// among them.
    #[error("the reply breaks its form at offset {at}")]
    Frame { at: u64, bytes: Seq<u8> },
    /// The reply ended after so many bytes, which break nothing but aren't the whole of it. The bytes are these.
    #[error("the reply ends after {got} bytes")]
    Cut { got: u64, bytes: Seq<u8> },
    #[error("out of memory")]
    Memory,
}

impl From<Memory> for LinkStop {
    ghost use Rattle.std.specs.Prelude.{◌≡◌};
    ghost use Rattle.rb_base.specs.declared.links.LinkStop.TheVariants as stops;

    ghost from_gives = { λ _ e. e ≡ stops.Memory };

    fn from(_want: Memory) -> LinkStop {
        LinkStop::Memory
    }
}

/// A link to a server, which replies to one request after the other.
///
/// What a link tells is `Told`: the pairs of requests and replies so far, and what stands behind it: a service, its table,
/// and which exchanges fail. A link may tell the pairs alone, and a link over a real device tells nothing; then no clause
/// says what stands behind it.
///
/// A link is honest where it tells its server, which is typed, and each exchange over it is what that server does. Whoever
/// writes a link says when it is so, by `honest`: then the server is told and typed, each reply is `Answers` on the table that
/// its request found, with the table that is told then, no reply breaks off, and the link stays honest. A link that says
/// of itself that it is never honest promises none of this.
///
/// Others may use the server too: a request finds any table that fits the service. A link is quiet where nobody else changes
/// the table: each request finds the one that stood, and the link stays quiet. A link that tells its server notes for each
/// reply which table its request found, and which one it left.
///
/// After an error but want of memory the same link may be used again.
pub trait Link {
    /// What it tells, where it tells anything. Whether it does, and whether it tells a server, is kept by each call.
    ghost told: { Self → Option Told };

    /// How many exchanges failed. The count never falls, and stands still at the end of a `u64`.
    ghost faults: { Self → ℕ };

    /// Whether it lends the table of a server of its own.
    ghost lends: { Self → Bool };

    /// Whether it is honest.
    ghost honest: { Self → Type 0 };

    /// Whether it is quiet.
    ghost quiet: { Self → Type 0 };

    /// Sends the payload of a request, and answers the reply. Only after a reply there is a pair more.
    fn exchange(&mut self, request: &[u8]) -> Result<Reply, LinkStop>
        requires { length request.now ≤ longest_request }
        ensures kind { IfOk result (λ reply. IsReplyKind reply.kind) }
        ensures cause { IfErr result (λ stop. KeepsCause stop) }
        ensures pairs { pairs_told (told self.new) ≡ pairs_after request.now result (pairs_told (told self.old)) }
        ensures listed { IsListedWhereTold result (server_told (told self.old)) (server_told (told self.new)) }
        ensures faults { faults self.new ≡ faults_after result (faults self.old) }
        ensures lends { lends self.new ≡ lends self.old }
        ensures serves { honest self.old
            → ServesAsTold FindsFitting request.now result (server_told (told self.old)) (server_told (told self.new)) }
        ensures serves_alone { honest self.old → quiet self.old
            → ServesAsTold FindsStanding request.now result (server_told (told self.old)) (server_told (told self.new)) }
        ensures stays { honest self.old → UnlessMemory result (honest self.new) }
        ensures stays_quiet { quiet self.old → UnlessMemory result (quiet self.new) };

    /// The table of a link that has a server of its own, which is the table told; None where it has none.
    fn table(&self) -> Option<&Heap>
        ensures { Lends (lends self.now) (server_told (told self.now)) (option_copied result) };

    /// An honest link tells its server, which is typed.
    ghost honest_tells: { (l : Self) → honest l → TellsTyped (server_told (told l)) };
}
