// Files that are all alike.

ghost use Rattle.std.specs.Prelude.{◌≡◌};

use crate::contents::append_front;
use crate::files::{Files, FilesStop};
use bytes::BytesMut;
use rb_trees::Word;
use std::marker::Model;

/// Files of which no read fails: each name has a file, and all have the same content.
///
/// Whoever makes them lends them to the code that reads. They tell the content of every name, and
/// that no read is listed, so a read answers an error only where memory is wanting. Their count of
/// faults is always 0.
#[derive(Drop)]
pub struct SameFiles {
    content: Word,
    reads: u64,
}

impl Model for SameFiles {
    ghost use Rattle.rb_base.specs.Directories.{OneContent};

    ghost Value = { OneContent };

    ghost view = { λ it. record { content = it.content; reads = it.reads } };
}

impl SameFiles {
    /// Files of one content, of which none was read yet.
    pub fn make(content: Word) -> SameFiles
        ensures { result ≡ record { content = content; reads = 0 } }
    {
        SameFiles { content, reads: 0 }
    }
}

impl Files for SameFiles {
    ghost use Rattle.std.specs.Prelude.{Some};
    ghost use Rattle.rb_base.specs.Directories.{same_everywhere};

    ghost told = { λ it. Some (same_everywhere it) };

    ghost faults = { λ it. 0 };

    fn read(&mut self, _name: &str, limit: usize, into: &mut BytesMut) -> Result<(), FilesStop> {
        self.reads = self.reads.saturating_add(1);
        append_front(self.content.as_slice(), limit, into)?;
        Ok(())
    }
}
