// What is found in a batch.

use rb_trees::{BadPart, Refusal, Seq, Writer};

/// What was found in a batch so far.
#[derive(Drop)]
pub struct Findings {
    /// The earliest refusal of one statement or one expression alone.
    pub first: Option<Refusal>,
    /// What writes a node of the flow graph.
    pub writers: Seq<Writer>,
    /// The bad part at the least position.
    pub part: Option<BadPart>,
}
