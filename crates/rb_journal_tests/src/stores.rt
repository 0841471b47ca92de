// Disks under names: in memory, and where nothing is kept.

use crate::payloads::expect_bytes;
use crate::rows::disk_of;
use rb_disk::{Disk, MemoryStores, NullDisk, NullStores, Stores};
use rb_trees::Seq;
use std::alloc::Global;
use std::test::*;

/// Adds a disk of these bytes to a store, of which these calls fail.
fn add(
    alloc: Global,
    stores: &mut MemoryStores,
    name: &str,
    bytes: &[u8],
    failing: &[u64],
) -> Result<(), Fail> {
    let disk = disk_of(alloc, bytes, failing)?;
    stores.add(name, disk)?;
    Ok(())
}

/// Two disks, of which the second call of the first fails, and a store of them, of which the second call fails.
fn two_disks(alloc: Global) -> Result<MemoryStores, Fail> {
    let mut stores = MemoryStores::make(alloc, Seq::from_slice(alloc, &[2])?);
    add(alloc, &mut stores, "j", b"old", &[2])?;
    add(alloc, &mut stores, "k", b"other", &[])?;
    Ok(stores)
}

/// Writes to the disk of a name, syncs it and gives it back: whether it is opened, written and synced.
fn write_once(stores: &mut MemoryStores, name: &str) -> (bool, bool, bool) {
    let Ok(mut disk) = stores.open(name) else {
        return (false, false, false);
    };
    let is_written = disk.write(1, b"a").is_ok();
    let is_synced = disk.sync().is_ok();
    stores.back(disk);
    (true, is_written, is_synced)
}

/// Fails where other bytes stand under a name than are wanted.
fn expect_under(stores: &MemoryStores, name: &str, want: &[u8]) -> Result<(), Fail> {
    match stores.disk(name) {
        Some(disk) => expect_bytes(disk.bytes(), want),
        None => Err(Fail::new(format_args!("no disk {name}"))),
    }
}

/// Fails where a disk goes otherwise than a row wants: whether it is opened, written and synced, and the bytes that it then has.
fn expect_writes(stores: &mut MemoryStores) -> Result<(), Fail> {
    let rows = [
        // No such name, and then a call that fails.
        ("x", (false, false, false)),
        ("j", (false, false, false)),
        // Its sync fails; opened again it goes on.
        ("j", (true, true, false)),
        ("j", (true, true, true)),
        ("k", (true, true, true)),
    ];
    for (name, want) in rows {
        let found = write_once(stores, name);
        if found != want {
            return Err(Fail::new(format_args!("{found:?} of {name}")));
        }
    }
    Ok(())
}

#[test]
fn disks_are_opened_by_their_names_and_come_back(rt: HostRuntime) -> Result<(), Fail> {
    let mut stores = two_disks(rt.alloc())?;
    expect_writes(&mut stores)?;
    expect_under(&stores, "j", b"oad")?;
    expect_under(&stores, "k", b"oaher")
}

/// Whether no disk can be looked at or opened while one is out.
fn is_one_out(stores: &mut MemoryStores) -> bool {
    let Ok(disk) = stores.open("k") else {
        return false;
    };
    let is_gone = stores.disk("k").is_none() && stores.open("j").is_err();
    stores.back(disk);
    is_gone
}

#[test]
fn one_disk_is_out_at_a_time(rt: HostRuntime) -> Result<(), Fail> {
    let mut stores = two_disks(rt.alloc())?;
    assert!(rt; is_one_out(&mut stores));
    Ok(())
}

/// How many bytes a disk says that it has, and reads, after a write and a sync.
fn kept_of(disk: &mut NullDisk) -> Result<(u64, usize), Fail> {
    disk.write(0, b"a")?;
    disk.sync()?;
    Ok((disk.len()?, disk.read(0, &mut [0; 4])?))
}

#[test]
fn nothing_is_kept_under_any_name(rt: HostRuntime) -> Result<(), Fail> {
    let mut disk = NullStores.open("any")?;
    assert!(rt; kept_of(&mut disk)? == (0, 0));
    Ok(())
}
