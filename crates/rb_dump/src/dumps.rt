// What is found in bytes.

use crate::fields::Message;
use crate::pieces::Piece;
use crate::verdicts::Verdict;
use rb_trees::Seq;

/// What bytes were read as.
#[derive(Clone, Copy, Debug, PartialEq, Eq)]
pub enum Form {
    /// One payload, which is to be such a message.
    Payload(Message),
    /// Frames that stand one behind the other.
    Frames,
    /// A journal: a head, and records between gates.
    Journal,
}

/// Bytes, shown piece by piece.
#[derive(Drop)]
pub struct Dump {
    /// What they were read as.
    pub form: Form,
    /// Their pieces, from the first byte to the last.
    pub pieces: Seq<Piece>,
    /// What the decoders say of them.
    pub verdict: Verdict,
}
