// Files of the system as disks.

use crate::frames::expect;
use rb_base::Failed;
use rb_devices::{FileStores, RealDisk};
use rb_disk::{Disk, Stores};
use std::fs::{self, File};
use std::rt::Files;
use std::test::Fail;

/// Whether a file is opened as a disk.
fn is_opened<R: Files<File = File> + AllocGlobal + Eprint>(rt: &R, name: &str) -> bool {
    FileStores::make(rt).open(name).is_ok()
}

/// What is no file: a folder, a file of no such folder, a device, and no name.
const NO_FILES: &[&str] = &["folder", "none/file", "/dev/null", ""];

#[test]
fn what_is_no_file_is_not_opened(rt: HostRuntime) -> Result<(), Fail> {
    fs::create_dir_all(&rt, "folder")?;
    for name in NO_FILES {
        expect(!is_opened(&rt, name), name)?;
    }
    fs::remove_dir(&rt, "folder")?;
    Ok(())
}

/// Whether a file is opened once more while its disk is out, and after it came back.
fn opened_twice<R: Files<File = File> + AllocGlobal + Eprint>(
    rt: &R,
    name: &str,
) -> Result<(bool, bool), Failed> {
    let mut stores = FileStores::make(rt);
    let disk = stores.open(name)?;
    let is_shared = is_opened(rt, name);
    stores.back(disk);
    Ok((is_shared, is_opened(rt, name)))
}

#[test]
fn a_file_that_is_out_is_not_opened_again(rt: HostRuntime) -> Result<(), Fail> {
    let opened = opened_twice(&rt, "locked")?;
    expect(
        opened == (false, true),
        "another opener has the file, or none",
    )?;
    fs::remove_file(&rt, "locked")?;
    Ok(())
}

/// A call of a disk, with what it comes to.
enum Call {
    /// Bytes are written at an offset.
    Write(u64, &'static [u8]),
    /// A write at an offset fails.
    WriteFails(u64),
    /// The disk is made safe.
    Sync,
    /// So many bytes are there.
    Length(u64),
    /// A read at an offset gives so many bytes, and these are in the buffer then, with zeros behind them.
    Read(u64, usize, &'static [u8; 8]),
    /// Whether a call failed so far.
    HasFailed(bool),
}

/// Whether a call comes to what it is to come to.
fn is_done(disk: &mut RealDisk, call: &Call) -> bool {
    match call {
        Call::Write(at, bytes) => disk.write(*at, bytes).is_ok(),
        Call::WriteFails(at) => disk.write(*at, b"a").is_err(),
        Call::Sync => disk.sync().is_ok(),
        Call::Length(length) => matches!(disk.len(), Ok(found) if found == *length),
        Call::Read(at, count, bytes) => {
            let mut buffer = [0; 8];
            let found = disk.read(*at, &mut buffer);
            matches!(found, Ok(found) if found == *count) && buffer == **bytes
        }
        Call::HasFailed(has_failed) => disk.has_failed() == *has_failed,
    }
}

/// Whether each call comes to what it is to come to.
fn are_done(disk: &mut RealDisk, calls: &[Call]) -> bool {
    for call in calls {
        if !is_done(disk, call) {
            return false;
        }
    }
    true
}

/// Opens a file and gives its disk back, and fails where a call between them comes to something else.
fn expect_calls<R: Files<File = File> + AllocGlobal + Eprint>(
    stores: &mut FileStores<R>,
    name: &str,
    calls: &[Call],
) -> Result<(), Fail> {
    let mut disk = stores.open(name)?;
    let are_done = are_done(&mut disk, calls);
    stores.back(disk);
    expect(are_done, "a call comes to something else")
}

/// A file, and the calls of its disk each time that it is opened.
type Opened = (&'static str, &'static [&'static [Call]]);

const FILES: &[Opened] = &[
    // Three bytes are written behind three that aren't, and are there when the file is opened again.
    (
        "written",
        &[
            &[Call::Write(3, b"abc"), Call::Sync, Call::Length(6)],
            &[
                Call::Read(0, 6, b"\x00\x00\x00abc\x00\x00"),
                Call::Read(4, 2, b"bc\x00\x00\x00\x00\x00\x00"),
                // At the end, and behind it.
                Call::Read(6, 0, &[0; 8]),
                Call::Read(100, 0, &[0; 8]),
            ],
        ],
    ),
    // A write so far behind that no file reaches there is a fault, and leaves the file as it was. None is counted when
    // that is opened again.
    (
        "refused",
        &[
            &[
                Call::WriteFails(u64::MAX),
                Call::HasFailed(true),
                Call::Length(0),
            ],
            &[Call::HasFailed(false)],
        ],
    ),
];

/// Fails where the calls of a file come to something else.
fn expect_file<R: Files<File = File> + AllocGlobal + Eprint>(
    rt: &R,
    (name, opened): &Opened,
) -> Result<(), Fail> {
    let mut stores = FileStores::make(rt);
    for calls in *opened {
        expect_calls(&mut stores, name, calls)?;
    }
    fs::remove_file(rt, name)?;
    Ok(())
}

#[test]
fn files_hold_what_was_written(rt: HostRuntime) -> Result<(), Fail> {
    for file in FILES {
        expect_file(&rt, file)?;
    }
    Ok(())
}
