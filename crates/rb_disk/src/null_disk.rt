// A disk that keeps nothing.

ghost use Rattle.std.specs.Prelude.{◌≡◌, IsOk};

use crate::disk::Disk;
use rb_base::Failed;

/// A disk that takes all that it is handed, keeps nothing, and never fails.
///
/// It tells nothing, and its count of faults is always 0.
#[derive(Drop)]
pub struct NullDisk;

impl Disk for NullDisk {
    ghost use Rattle.std.specs.Prelude.{None};

    ghost told = { λ it. None };

    ghost faults = { λ it. 0 };

    fn len(&mut self) -> Result<u64, Failed>
        ensures { result ≡ Ok 0 }
    {
        Ok(0)
    }

    fn read(&mut self, _at: u64, _into: &mut [u8]) -> Result<usize, Failed>
        ensures { result ≡ Ok 0 }
    {
        Ok(0)
    }

    fn write(&mut self, _at: u64, _bytes: &[u8]) -> Result<(), Failed>
        ensures { IsOk result }
    {
        Ok(())
    }

    fn sync(&mut self) -> Result<(), Failed>
        ensures { IsOk result }
    {
        Ok(())
    }
}
