// Ends in memory.

use rb_base::{MemorySink, MemorySource};
use rb_trees::{Memory, Seq};
use std::alloc::Global;

/// A source of streams, one after the other, and a sink. Each read gives so many bytes at most and each write takes so many, and
/// these reads and these writes fail.
#[derive(Clone, Copy)]
pub struct Ends<'a> {
    pub streams: &'a [&'a [u8]],
    pub most_read: usize,
    pub most_written: usize,
    pub reads: &'a [u64],
    pub writes: &'a [u64],
}

/// The source among such ends.
pub fn source_of(alloc: Global, ends: &Ends<'_>) -> Result<MemorySource, Memory> {
    let bytes = joined(alloc, ends.streams)?;
    let reads = Seq::from_slice(alloc, ends.reads)?;
    Ok(MemorySource::make(bytes, reads, ends.most_read.max(1)))
}

/// The ends.
pub fn ends_of(alloc: Global, ends: &Ends<'_>) -> Result<(MemorySource, MemorySink), Memory> {
    let source = source_of(alloc, ends)?;
    let writes = Seq::from_slice(alloc, ends.writes)?;
    Ok((
        source,
        MemorySink::make(alloc, writes, ends.most_written.max(1)),
    ))
}

/// The streams in one.
pub fn joined(alloc: Global, streams: &[&[u8]]) -> Result<Seq<u8>, Memory> {
    let mut all = Seq::new(alloc);
    for stream in streams {
        all.extend_from_slice(stream)?;
    }
    Ok(all)
}

/// Whether bytes are these pieces, one after the other.
pub fn is_joined(bytes: &[u8], pieces: &[&[u8]]) -> bool {
    let mut rest = bytes;
    for piece in pieces {
        match rest.strip_prefix(*piece) {
            Some(behind) => rest = behind,
            None => return false,
        }
    }
    rest.is_empty()
}
