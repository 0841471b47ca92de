// How what stands around a statement or an expression of a batch bears on it.

use rb_trees::Seq;

/// What is read: nodes of the flow graph, and the positions of the remote calls whose results are read.
#[derive(Drop)]
pub struct Reading {
    pub nodes: Seq<u32>,
    pub sources: Seq<u32>,
}

/// How what stands around a statement bears on it.
#[derive(Drop)]
pub struct Standing {
    /// Whether it stands at a script place.
    pub script: bool,
    /// The innermost condition that the script can't decide.
    pub condition: Option<u32>,
    /// Whether it stands in a `try`.
    pub tried: bool,
    /// What is read by all that stands around.
    pub around: Reading,
}

/// How what stands around an expression bears on it.
#[derive(Clone, Copy)]
pub struct Inside {
    /// The innermost condition that the script can't decide.
    pub condition: Option<u32>,
    /// Whether it stands in a `try`.
    pub tried: bool,
    /// Whether a remote object or rows may stand there.
    pub may: bool,
}
