// What scripts give.

use crate::sequence::Seq;
use crate::values::{Fault, Value};

/// What a block of a script gave: its entries in order, and the fault that ended it, if any.
#[cycle(nodes)]
#[derive(Drop)]
pub struct Node {
    pub entries: Seq<Entry>,
    pub fault: Option<NodeFault>,
}

/// What one step gave.
#[cycle(nodes)]
#[derive(Drop)]
pub enum Entry {
    /// A kept value.
    Value(Value),
    /// The branch that was taken, and what its block gave.
    Branch(bool, Node),
    /// What each begun turn gave.
    Rows(Seq<Node>),
}

/// The fault of a node: the step and the position in the source that it stands at.
#[derive(Drop)]
pub struct NodeFault {
    pub step: u32,
    pub at: u32,
    pub fault: Fault,
}
