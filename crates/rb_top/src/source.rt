// Typed programs as they were loaded, and accepted ones.

use bytes::BytesMut;
use rb_flow::Admitted;
use rb_trees::{Seq, Split};
use rb_types::Typed;

/// A typed program, with the text that it was read from.
#[derive(Drop)]
pub struct Source {
    pub text: BytesMut,
    pub typed: Typed,
}

/// An accepted program, with the text that it was read from and the divisions of its batches in source order.
#[derive(Drop)]
pub struct Accepted<'a> {
    pub text: &'a [u8],
    pub admitted: &'a Admitted<'a>,
    pub splits: &'a Seq<Split>,
}
