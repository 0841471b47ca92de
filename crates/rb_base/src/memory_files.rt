// Files in memory.

ghost use Rattle.std.specs.Prelude.{◌≡◌, OnOk, OnErr};
ghost use Rattle.std.specs.Option.{option_copied};
ghost use Rattle.rb_base.specs.Directories.{new_files, with_file, content_of};

use crate::contents::append_front;
use crate::files::{Files, FilesStop};
use bytes::BytesMut;
use rb_trees::{Memory, Seq, Word};
use std::alloc::Global;
use std::marker::Model;

/// Files in memory, of which chosen reads fail.
///
/// Whoever makes them adds the files, and then lends them to the code that reads. They tell all
/// that they hold: the files in the order in which they were added, the number of reads so far,
/// and the numbers of the reads that fail. Of files with one name the first is read. After an
/// error the next read is the next number, and files can still be added.
#[derive(Drop)]
pub struct MemoryFiles {
    /// Names with contents.
    files: Vec<(Word, Word)>,
    reads: u64,
    failing: Seq<u64>,
    faults: u64,
}

impl Model for MemoryFiles {
    ghost use Rattle.rb_base.specs.Directories.{FilesInMemory};

    ghost Value = { FilesInMemory };

    ghost view = { λ it. record {
      files = it.files.items;
      reads = it.reads;
      failing = it.failing;
      faults = it.faults;
    } };
}

impl MemoryFiles {
    /// No files yet. The reads whose numbers, counted from 1, are in `failing` will fail.
    pub fn make(alloc: Global, failing: Seq<u64>) -> MemoryFiles
        ensures { result ≡ new_files failing }
    {
        MemoryFiles {
            files: Vec::new(alloc),
            reads: 0,
            failing,
            faults: 0,
        }
    }

    /// Adds a file after the others. After an error nothing changed.
    pub fn add(&mut self, name: &str, content: &[u8]) -> Result<(), Memory>
        ensures ok { OnOk result (self.new ≡ with_file self.old name.now content.now) }
        ensures err { OnErr result (self.new ≡ self.old) }
    {
        let alloc = *self.files.allocator();
        let name = Seq::from_slice(alloc, name.as_bytes())?;
        let content = Seq::from_slice(alloc, content)?;
        self.files.push((name, content))?;
        Ok(())
    }
}

impl Files for MemoryFiles {
    ghost use Rattle.std.specs.Prelude.{Some};
    ghost use Rattle.rb_base.specs.Directories.{directory_of};

    ghost told = { λ it. Some (directory_of it) };

    ghost faults = { λ it. it.faults };

    /// Fails exactly where the read's number is listed or no file has the name, unless memory is
    /// wanting. Each call is numbered, whatever it answers.
    fn read(&mut self, name: &str, limit: usize, into: &mut BytesMut) -> Result<(), FilesStop> {
        self.reads = self.reads.saturating_add(1);
        let listed = self.failing.as_slice().contains(&self.reads);
        match find(self.files.as_slice(), name.as_bytes()) {
            Some(content) if !listed => Ok(append_front(content, limit, into)?),
            _ => {
                self.faults = self.faults.saturating_add(1);
                Err(FilesStop::Failed)
            }
        }
    }
}

/// The content of the first file of the name.
fn find<'a>(files: &'a [(Word, Word)], name: &[u8]) -> Option<&'a [u8]>
    ensures { option_copied result ≡ content_of files.now name.now }
{
    for (own, content) in files {
        if own.as_slice() == name {
            return Some(content.as_slice());
        }
    }
    None
}
