// A store of disks in memory.

ghost use Rattle.std.specs.Prelude.{◌≡◌, OnOk, OnErr, true, is_none, position};
ghost use Rattle.std.specs.Str.{bytes_eq};
ghost use Rattle.std.specs.Option.{option_copied};
ghost use Rattle.rb_disk.specs.Storing.{disk_under, emptied, filled, is_out};
ghost use Rattle.rb_disk.specs.MemoryStores.{new_store, with_disk, next_in_memory, without_next};

use crate::memory_disk::MemoryDisk;
use crate::stores::Stores;
use rb_base::Failed;
use rb_trees::{Memory, Seq, Word};
use std::alloc::Global;
use std::marker::Model;

/// Disks in memory under names, of which chosen calls of `open` fail.
///
/// Whoever makes it adds the disks, lends it to the code that opens them, and then looks at them. It tells all that it holds. Of
/// disks of one name the first is opened. A disk that is opened once more goes on with the record of its calls, and its calls
/// are numbered on.
#[derive(Drop)]
pub struct MemoryStores {
    places: Vec<(Word, Option<MemoryDisk>)>,
    opens: u64,
    failing: Seq<u64>,
    faults: u64,
    broken: u64,
}

impl Model for MemoryStores {
    ghost use Rattle.rb_disk.specs.MemoryStores.{StoreInMemory};

    ghost Value = { StoreInMemory };

    ghost view = { λ it. record {
      places = it.places.items;
      opens = it.opens;
      failing = it.failing;
      faults = it.faults;
      broken = it.broken;
    } };
}

impl MemoryStores {
    /// No disk yet. The calls of `open` whose numbers, counted from 1, are in `failing` will fail.
    pub fn make(alloc: Global, failing: Seq<u64>) -> MemoryStores
        ensures { result ≡ new_store failing }
    {
        MemoryStores {
            places: Vec::new(alloc),
            opens: 0,
            failing,
            faults: 0,
            broken: 0,
        }
    }

    /// Adds a disk after the others. After an error nothing changed, but that the disk is gone.
    pub fn add(&mut self, name: &str, disk: MemoryDisk) -> Result<(), Memory>
        ensures ok { OnOk result (self.new ≡ with_disk self.old name.now disk) }
        ensures err { OnErr result (self.new ≡ self.old) }
    {
        let name = Seq::from_slice(*self.places.allocator(), name.as_bytes())?;
        self.places.push((name, Some(disk)))?;
        Ok(())
    }

    /// The disk in the place of a name; `None` where there is no such place, or its disk is out.
    pub fn disk(&self, name: &str) -> Option<&MemoryDisk>
        ensures { option_copied result ≡ disk_under self.now.places name.now }
    {
        find(self.places.as_slice(), name.as_bytes())
    }

    // Numbers a call of `open`, and takes out the disk that it finds under a name.
    #[tactic(auto, using(crate::proofs::Placed::emptied_none, crate::proofs::Placed::empty_is_out))]
    fn take_next(&mut self, name: &[u8]) -> Option<MemoryDisk>
        ensures disk { result ≡ next_in_memory self.old name.now }
        ensures after { self.new ≡ without_next result name.now self.old }
    {
        self.opens = self.opens.saturating_add(1);
        if self.failing.as_slice().contains(&self.opens) {
            return None;
        }
        if empty_place(self.places.as_slice()).is_some() {
            return None;
        }
        take(&mut self.places, name)
    }
}

impl Stores for MemoryStores {
    type D = MemoryDisk;

    ghost use Rattle.std.specs.Prelude.{Some};
    ghost use Rattle.rb_disk.specs.MemoryStores.{storing_of};

    ghost told = { λ it. Some (storing_of it) };

    ghost faults = { λ it. it.faults };

    ghost broken = { λ it. it.broken };

    /// Fails exactly where the call's number is listed, a disk is out, or no place has the name.
    #[tactic(auto, using(crate::proofs::Placed::told_next, crate::proofs::Placed::told_emptied, crate::proofs::Placed::out_after))]
    fn open(&mut self, name: &str) -> Result<MemoryDisk, Failed> {
        match self.take_next(name.as_bytes()) {
            Some(disk) => Ok(disk.reopen()),
            None => {
                self.faults = self.faults.saturating_add(1);
                Err(Failed)
            }
        }
    }

    #[tactic(auto, using(crate::proofs::Placed::told_filled, crate::proofs::Placed::told_out))]
    fn back(&mut self, disk: MemoryDisk) {
        if disk.has_failed() {
            self.broken = self.broken.saturating_add(1);
        }
        put(&mut self.places, disk);
    }
}

/// The first place of a name.
fn place_of(places: &[(Word, Option<MemoryDisk>)], name: &[u8]) -> Option<usize>
    ensures { result ≡ position (λ p. bytes_eq p.0 name.now) places.now }
{
    places.iter().position(|(own, _)| own.as_slice() == name)
}

/// The first empty place.
fn empty_place(places: &[(Word, Option<MemoryDisk>)]) -> Option<usize>
    ensures { result ≡ position (λ p. is_none p.1) places.now }
{
    places.iter().position(|(_, disk)| disk.is_none())
}

/// The disk in the first place of a name.
fn find<'a>(places: &'a [(Word, Option<MemoryDisk>)], name: &[u8]) -> Option<&'a MemoryDisk>
    ensures { option_copied result ≡ disk_under places.now name.now }
{
    let Some(place) = place_of(places, name) else {
        return None;
    };
    places[place].1.as_ref()
}

/// Takes the disk of a name out of the first place of it.
fn take(places: &mut Vec<(Word, Option<MemoryDisk>)>, name: &[u8]) -> Option<MemoryDisk>
    ensures disk { result ≡ disk_under places.old.items name.now }
    ensures places { places.new.items ≡ emptied places.old.items name.now }
{
    let Some(place) = place_of(places.as_slice(), name) else {
        return None;
    };
    places[place].1.take()
}

/// Puts a disk into the first empty place.
fn put(places: &mut Vec<(Word, Option<MemoryDisk>)>, disk: MemoryDisk)
    requires { is_out places.old.items ≡ true }
    ensures { places.new.items ≡ filled places.old.items disk }
{
    let Some(place) = empty_place(places.as_slice()) else {
        unreachable!()
    };
    places[place].1 = Some(disk);
}
