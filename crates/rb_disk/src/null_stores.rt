// A store whose disks keep nothing.

ghost use Rattle.std.specs.Prelude.{IsOk};

use crate::null_disk::NullDisk;
use crate::stores::Stores;
use rb_base::Failed;

/// A store of which no call fails: under each name stands a disk that keeps nothing.
///
/// It is lent to code that is to keep nothing. It tells nothing, and its counts are always 0.
#[derive(Drop)]
pub struct NullStores;

impl Stores for NullStores {
    type D = NullDisk;

    ghost use Rattle.std.specs.Prelude.{None};

    ghost told = { λ it. None };

    ghost faults = { λ it. 0 };

    ghost broken = { λ it. 0 };

    fn open(&mut self, _name: &str) -> Result<NullDisk, Failed>
        ensures { IsOk result }
    {
        Ok(NullDisk)
    }

    fn back(&mut self, _disk: NullDisk) {}
}
