// The versions of the wire.

/// A version of the wire, by which scripts, forests and refusals are spelled.
#[derive(Clone, Copy, Debug, PartialEq, Eq)]
pub enum Version {
    One,
    Two,
}
