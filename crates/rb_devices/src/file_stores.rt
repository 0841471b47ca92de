// The files of the system as disks.

ghost use Rattle.std.specs.Prelude.{◌≡◌};

use crate::counts::count_one;
use crate::real_disk::RealDisk;
use rb_base::Failed;
use rb_disk::Stores;
use std::fs::{File, OpenOptions, TryLockError};
use std::marker::Model;
use std::os::fd::AsRawFd;
use std::{fs, rt};

/// The files of the system, by their paths, each as a disk.
///
/// A file that isn't there is made. While its disk is out, no other opener that asks for the lock gets it: neither this process
/// nor another one that uses the same lock. A program that asks for no lock isn't kept away.
///
/// They tell nothing: what a file holds is the system's. Contracts see them as their two counts.
#[derive(Drop)]
pub struct FileStores<'a, R> {
    runtime: &'a R,
    faults: u64,
    broken: u64,
}

impl<'a, R> Model for FileStores<'a, R> {
    ghost use Rattle.rb_devices.specs.StoreCounts.{StoreCounts};

    ghost Value = { StoreCounts };

    ghost view = { λ it. record { faults = it.faults; broken = it.broken } };
}

impl<'a, R> FileStores<'a, R> {
    ghost use Rattle.rb_devices.specs.StoreCounts.{no_counts};

    /// The files of a runtime, of which none failed so far.
    pub fn make(runtime: &'a R) -> FileStores<'a, R>
        ensures { result ≡ no_counts }
    {
        FileStores {
            runtime,
            faults: 0,
            broken: 0,
        }
    }
}

impl<R: rt::Files<File = File> + AllocGlobal + Eprint> Stores for FileStores<'_, R> {
    type D = RealDisk;

    ghost use Rattle.std.specs.Prelude.{None};

    ghost told = { λ it. None };

    ghost faults = { λ it. it.faults };

    ghost broken = { λ it. it.broken };

    /// Fails where the file can't be read and written, where it is a folder or a device, or where another opener has its lock.
    /// Standard error says the last.
    fn open(&mut self, name: &str) -> Result<RealDisk, Failed> {
        match open_file(self.runtime, name) {
            Some(file) => Ok(RealDisk::make(file)),
            None => {
                count_one(&mut self.faults);
                Err(Failed)
            }
        }
    }

    /// Closes the file, which lets go of its lock.
    fn back(&mut self, disk: RealDisk) {
        if disk.has_failed() {
            count_one(&mut self.broken);
        }
    }
}

/// Opens a file, which is made where it isn't there, takes its lock, and makes sure that a crash leaves it.
fn open_file<R: rt::Files<File = File> + AllocGlobal + Eprint>(
    runtime: &R,
    name: &str,
) -> Option<File> {
    let file = OpenOptions::new()
        .read(true)
        .write(true)
        .create(true)
        .open(runtime, name)
        .ok()?;
    if !file.metadata().ok()?.is_file() {
        return None;
    }
    if let Err(refused) = file.try_lock() {
        if let TryLockError::WouldBlock = refused {
            let _ = eprintln!(runtime; "rbi: {name} is in use by another process");
        }
        return None;
    }
    file.sync_all().ok()?;
    forget_copies(&file)?;
    sync_folder(runtime, name)?;
    Some(file)
}

/// Lets the system forget its copies of a file's bytes. After a sync of an earlier process that failed they may differ from
/// what the device holds, and what is read next is to be what a crash leaves.
fn forget_copies(file: &File) -> Option<()> {
    match libc::posix_fadvise(file.as_raw_fd(), 0, 0, libc::POSIX_FADV_DONTNEED) {
        0 => Some(()),
        _ => None,
    }
}

/// Makes sure that a crash leaves the name of a file in its folder.
fn sync_folder<R: rt::Files<File = File> + AllocGlobal>(runtime: &R, name: &str) -> Option<()> {
    let mut folder = fs::canonicalize(runtime, name).ok()?;
    folder.pop();
    let folder = File::open(runtime, folder.as_str()).ok()?;
    folder.sync_all().ok()
}
