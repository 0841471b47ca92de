// Why a journal stopped.

ghost use Rattle.std.specs.Prelude.{◌≡◌};
ghost use Rattle.rb_journal.specs.declared.stops.JournalStop.TheVariants.{DiskFault, Memory};

use rb_base::Failed;
use rb_trees::Memory;
use std::alloc::{AllocError, AllocFailed};
use thiserror::Error;

/// Why a call of a journal stopped.
#[derive(Debug, Drop, Error)]
pub enum JournalStop {
    /// A call of the disk failed.
    #[error("a disk failed")]
    DiskFault,
    /// An earlier append of this journal met a fault of the disk: it is to be opened again.
    #[error("the journal is closed")]
    Closed,
    /// The record and its next gate would end past 2^40 bytes.
    #[error("the journal is full")]
    Full,
    /// The bytes don't begin as a journal.
    #[error("not a journal")]
    NotAJournal,
    /// The record of that number, from 0, is none.
    #[error("bad record {0}")]
    BadRecord(u64),
    /// Memory ran out.
    #[error("out of memory")]
    Memory,
}

impl From<Failed> for JournalStop {
    ghost from_gives = { λ _ e. e ≡ DiskFault };

    fn from(_error: Failed) -> JournalStop {
        JournalStop::DiskFault
    }
}

impl From<AllocError> for JournalStop {
    ghost from_gives = { λ _ e. e ≡ Memory };

    fn from(_error: AllocError) -> JournalStop {
        JournalStop::Memory
    }
}

impl From<Memory> for JournalStop {
    ghost from_gives = { λ _ e. e ≡ Memory };

    fn from(_error: Memory) -> JournalStop {
        JournalStop::Memory
    }
}

impl<T: Drop> From<AllocFailed<T>> for JournalStop {
    ghost from_gives = { λ _ e. e ≡ Memory };

    fn from(_error: AllocFailed<T>) -> JournalStop {
        JournalStop::Memory
    }
}

/// A stop, and the disk that was handed in.
#[derive(Drop)]
pub struct Stopped<D> {
    pub stop: JournalStop,
    pub disk: D,
}
