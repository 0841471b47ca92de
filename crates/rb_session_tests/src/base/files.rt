// Files: what a read takes, and where it fails.

use crate::expected::{NO_MEMORY, Told, told};
use bytes::BytesMut;
use rb_base::{Files, FilesStop, MemoryFiles, SameFiles};
use rb_trees::{Memory, Seq};
use std::alloc::Global;

/// The names of files, and what they hold.
const FILES: &[(&str, &[u8])] = &[("p", b"first"), ("s", b"second"), ("p", b"third")];

/// A read of the file of a name, up to a limit, with what stands behind `> ` in the buffer then; or nothing where it fails.
type Read<'a> = (&'a str, usize, &'a [u8]);

/// Says what goes otherwise in a read behind `> `, which takes nothing where it fails.
fn read_told<F: Files>(files: &mut F, (name, limit, want): &Read<'_>, into: &mut BytesMut) -> Told {
    into.truncate(2);
    match files.read(name, *limit, into) {
        Ok(()) => told(into.as_slice() == *want, "other bytes are read"),
        Err(FilesStop::Failed) => told(want.is_empty() && into.len() == 2, "a read fails"),
        Err(FilesStop::Memory) => Err(NO_MEMORY),
    }
}

/// Says what goes otherwise in reads.
fn reads_told<F: Files>(alloc: Global, files: &mut F, reads: &[Read<'_>]) -> Told {
    let mut into = BytesMut::new(alloc);
    if into.extend_from_slice(b"> ").is_err() {
        return Err(NO_MEMORY);
    }
    let mut told = Ok(());
    for read in reads {
        told = told.and(read_told(files, read, &mut into));
    }
    told
}

/// Those files. Their fifth read fails.
fn memory_files(alloc: Global) -> Result<MemoryFiles, Memory> {
    let mut files = MemoryFiles::make(alloc, Seq::from_slice(alloc, &[5])?);
    for (name, content) in FILES {
        files.add(name, content)?;
    }
    Ok(files)
}

/// Reads of those files. The fifth is listed, and the sixth has no file.
const READS: &[Read<'_>] = &[
    ("p", 3, b"> firs"),
    ("p", 4, b"> first"),
    ("s", usize::MAX, b"> second"),
    ("p", 9, b"> first"),
    ("p", 9, b""),
    ("P", 9, b""),
    ("p", 9, b"> first"),
];

#[test]
fn a_read_takes_one_byte_more_than_its_limit_unless_it_fails(rt: HostRuntime) {
    let mut files = memory_files(rt.alloc()).expect(&rt, "files");
    reads_told(rt.alloc(), &mut files, READS).expect(&rt, "a read");
}

/// Reads of files that are all alike.
const SAME_READS: &[Read<'_>] = &[("p", 1, b"> te"), ("s", 4, b"> text")];

#[test]
fn same_files_have_each_name(rt: HostRuntime) {
    let text = Seq::from_slice(rt.alloc(), b"text").expect(&rt, "a text");
    let mut files = SameFiles::make(text);
    reads_told(rt.alloc(), &mut files, SAME_READS).expect(&rt, "a read");
}
