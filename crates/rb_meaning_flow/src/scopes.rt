// The variables in scope, by what they are to a batch.

use rb_trees::Word;

/// What a variable is to a batch.
#[derive(Clone, Copy)]
pub enum Role {
    /// A primitive one from outside the batch, which the batch doesn't assign.
    Constant,
    /// A List of primitives from outside the batch, which the batch doesn't assign.
    ConstantList,
    /// The root of the batch.
    Root,
    /// The variable of a loop over rows, or of one over a constant list that goes along into the script.
    Row,
    /// A `val` that goes along into the script: it stands at a script place, and what it binds is portable.
    Carried,
    /// Any other.
    Plain,
}

/// A variable in scope. Its node in the flow graph is the position of its declaration, so that two
/// variables of one name are two nodes.
#[derive(Drop)]
pub struct Variable {
    pub name: Word,
    pub role: Role,
    pub node: u32,
}
