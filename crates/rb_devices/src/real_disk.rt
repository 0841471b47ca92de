// A file of the system as a disk.

ghost use Rattle.std.specs.Prelude.{◌≡◌, ◌==◌, not};

use crate::counts::count_one;
use crate::moves::read_some_at;
use rb_base::Failed;
use rb_disk::Disk;
use std::fs::File;
use std::marker::Model;
use std::os::unix::fs::FileExt;

/// A file of the system as a disk.
///
/// It tells nothing: what the file holds and what a crash leaves of it is the system's. Contracts see it as its count of faults.
#[derive(Drop)]
pub struct RealDisk {
    file: File,
    /// Whether a sync failed. From then on each sync fails: the system may hold bytes for safe that it couldn't write.
    spoiled: bool,
    faults: u64,
}

impl Model for RealDisk {
    ghost use Rattle.std.specs.Prelude.{ℕ};

    ghost Value = { ℕ };

    ghost view = { λ it. it.faults };
}

impl RealDisk {
    /// The disk of an open file, of which no call failed so far.
    pub(crate) fn make(file: File) -> RealDisk
        ensures { result ≡ 0 }
    {
        RealDisk {
            file,
            spoiled: false,
            faults: 0,
        }
    }

    /// Whether a call failed.
    pub fn has_failed(&self) -> bool
        ensures { result ≡ not (self.now == 0) }
    {
        self.faults != 0
    }
}

impl Disk for RealDisk {
    ghost use Rattle.std.specs.Prelude.{None};

    ghost told = { λ it. None };

    ghost faults = { λ it. it };

    fn len(&mut self) -> Result<u64, Failed> {
        match self.file.metadata() {
            Ok(found) => Ok(found.len()),
            Err(_) => {
                count_one(&mut self.faults);
                Err(Failed)
            }
        }
    }

    /// A read that a signal interrupts is repeated.
    fn read(&mut self, at: u64, into: &mut [u8]) -> Result<usize, Failed> {
        match read_some_at(&self.file, at, into) {
            Some(count) => Ok(count),
            None => {
                count_one(&mut self.faults);
                Err(Failed)
            }
        }
    }

    /// Fails where the system takes nothing more, as on a full device. A write that takes a part goes on behind it.
    fn write(&mut self, at: u64, bytes: &[u8]) -> Result<(), Failed> {
        match self.file.write_all_at(bytes, at) {
            Ok(()) => Ok(()),
            Err(_) => {
                count_one(&mut self.faults);
                Err(Failed)
            }
        }
    }

    /// Fails where the system fails, and always after that.
    fn sync(&mut self) -> Result<(), Failed> {
        if self.spoiled || self.file.sync_all().is_err() {
            self.spoiled = true;
            count_one(&mut self.faults);
            return Err(Failed);
        }
        Ok(())
    }
}
