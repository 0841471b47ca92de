// Pieces of bytes.

use rb_trees::Word;

/// Some bytes that stand one behind the other, and what they are.
#[derive(Drop)]
pub struct Piece {
    /// In how many others it stands.
    pub depth: u32,
    /// The offset of its first byte.
    pub start: usize,
    /// The offset behind its last byte.
    pub end: usize,
    /// What it is, in plain words.
    pub what: Word,
}
