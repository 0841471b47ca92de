// The parts of a batch's flow graph. A node of the graph is a variable, numbered by the position of its declaration, or all
// objects together, numbered 0.

use crate::sequence::Seq;

/// What writes a node of a batch's flow graph.
#[derive(Drop)]
pub struct Writer {
    pub at: u32,
    /// The node that it writes.
    pub writes: u32,
    /// The nodes that it reads.
    pub reads: Seq<u32>,
    /// The positions of the remote calls whose results it reads.
    pub sources: Seq<u32>,
}

/// A part of what is sent to the remote that isn't known when the batch begins.
#[derive(Drop)]
pub struct BadPart {
    pub at: u32,
    /// The nodes that it reads.
    pub reads: Seq<u32>,
    /// The positions of the remote calls whose results it reads.
    pub sources: Seq<u32>,
}
