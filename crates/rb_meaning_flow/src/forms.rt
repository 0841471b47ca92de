// The form that a statement has at its place.

/// The form that a statement has at a script place: what goes into the script of it, and what is left to the client. The
/// division, the walk over the remote part and what follows of them go by these cases.
#[derive(Clone, Copy)]
pub enum PlacedForm {
    /// A `val` whose initialiser is portable: it goes along into the script.
    CarriedVal,
    /// An expression alone that is portable and holds a call.
    CallAlone,
    /// An `if` that holds a remote operation in its branches: it goes with both blocks.
    CarriedIf,
    /// A loop over rows: it goes with its block.
    RowsLoop,
    /// A loop over a constant list that holds a remote operation: it goes with its block, and the list with it.
    CarriedLoop,
    /// Any other: the remote expressions in it go, one by one, and the rest is left.
    Plain,
}
