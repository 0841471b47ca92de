// Files of which each text is kept as it was read, so that help speaks of just those bytes.

ghost use Rattle.std.specs.Prelude.{◌≡◌};

use bytes::BytesMut;
use rb_base::{Files, FilesStop};
use rb_trees::Memory;
use std::alloc::Global;
use std::marker::Model;

/// Other files, and the texts that were read of them, in their order.
///
/// A program is read before the service that it runs on. So the first text is the program's, and the last one the
/// service's, where a command reads one. Contracts see the other files.
#[derive(Drop)]
pub struct KeptFiles<F> {
    files: F,
    alloc: Global,
    texts: Vec<Vec<u8>>,
    /// Whether no memory was left to keep one of the texts.
    is_lost: bool,
}

impl<F> Model for KeptFiles<F> {
    ghost Value = { F };

    ghost view = { λ it. it.files };
}

impl<F> KeptFiles<F> {
    /// These files, of which nothing was read so far.
    pub fn make(alloc: Global, files: F) -> KeptFiles<F>
        ensures { result ≡ files }
    {
        KeptFiles {
            files,
            alloc,
            texts: Vec::new(alloc),
            is_lost: false,
        }
    }

    /// The text that was read first. There is none where nothing was read, or where a text was not kept.
    pub fn first(&self) -> Option<&[u8]> {
        match self.texts.first() {
            Some(text) if !self.is_lost => Some(text.as_slice()),
            _ => None,
        }
    }

    /// The text that was read last. There is none where nothing was read, or where a text was not kept.
    pub fn last(&self) -> Option<&[u8]> {
        match self.texts.last() {
            Some(text) if !self.is_lost => Some(text.as_slice()),
            _ => None,
        }
    }

    /// Keeps a text.
    fn keep(&mut self, text: &[u8]) -> Result<(), Memory>
        ensures { self.new ≡ self.old }
    {
        let copy = Vec::from_slice(self.alloc, text)?;
        self.texts.push(copy)?;
        Ok(())
    }
}

impl<F: Files> Files for KeptFiles<F> {
    ghost told = { λ it. F.told it };

    ghost faults = { λ it. F.faults it };

    /// Reads of the other files, and keeps what was read.
    fn read(&mut self, name: &str, limit: usize, into: &mut BytesMut) -> Result<(), FilesStop> {
        let before = into.len();
        self.files.read(name, limit, into)?;
        if self.keep(&into.as_slice()[before..]).is_err() {
            self.is_lost = true;
        }
        Ok(())
    }
}
