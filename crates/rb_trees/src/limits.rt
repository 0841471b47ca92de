//! How large values may grow, and how deep texts and scripts may nest.

/// The greatest number of bytes of a text.
pub const LONGEST_TEXT: usize = 4_096;
/// The greatest number of items of a list.
pub const LONGEST_LIST: usize = 10_000;
/// The greatest number of objects of a heap.
pub const MOST_OBJECTS: u32 = 100_000;
/// The greatest number of blocks within each other, in a text and in a script.
pub const MOST_BLOCKS: u32 = 64;
/// The greatest number of expressions within each other in a script.
pub const MOST_EXPRS: u32 = 256;
