// Where the parts of a batch are performed.

/// Where an expression of a batch is evaluated.
#[derive(Clone, Copy, PartialEq, Eq)]
pub enum Mark {
    /// On either side: it is made of literals, operators and constant variables alone.
    Constant,
    /// By the script.
    Remote,
    /// By the remainder.
    Local,
}

/// What stands at a statement of a batch.
#[derive(Clone, Copy, PartialEq, Eq)]
pub enum Place {
    /// It holds a remote operation, and the script may have steps for it.
    Script,
    /// It holds no remote operation.
    LocalOnly,
    /// It holds a remote operation, and the script has no place for it.
    Elsewhere,
}
