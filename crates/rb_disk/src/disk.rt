// One file as whoever writes it sees it.

ghost use Rattle.std.specs.Prelude.{◌≡◌, ◌<◌, ◌≤◌, ℕ, Option, length, IfOk};
ghost use Rattle.rb_base.specs.Devices.{device};
ghost use Rattle.rb_disk.specs.Images.{DiskRecord, Looks, Writes, Syncs, IsLength, IsPart, IsPastEnd};

use rb_base::Failed;

/// A disk that holds one file.
///
/// What a disk tells is the record of its calls. It says what a read gives (`shown`), what a crash now may leave
/// (`MayLeave`), and what a crash at some moment since an earlier one may have left (`MayHaveLeft`). A crash can spoil only
/// the ranges written since the last sync, and what stands behind the old end; every other byte is safe. Right after a sync
/// that answers `Ok`, it spoils nothing. A real device tells nothing.
pub trait Disk {
    /// The record of the calls, where the disk tells it. Whether it does is kept by each call.
    ghost told: { Self → Option DiskRecord };

    /// How many calls failed. The count never falls, and stands still at the end of a `u64`.
    ghost faults: { Self → ℕ };

    /// How many bytes the file has.
    fn len(&mut self) -> Result<u64, Failed>
        ensures length { IfOk result (λ n. IsLength n (told self.old)) }
        ensures after { Looks result (device told faults self.old) (device told faults self.new) };

    /// Puts bytes from an offset on at the front of a buffer, and answers how many: 0 only where the buffer is empty or no
    /// byte stands there. What stands behind them in the buffer, or in all of it after an error, no clause says.
    fn read(&mut self, at: u64, into: &mut [u8]) -> Result<usize, Failed>
        ensures within { IfOk result (λ count. count ≤ length into.new) }
        ensures part { IfOk result (λ count. IsPart at count into.new (told self.old)) }
        ensures end { result ≡ Ok 0 → 0 < length into.old → IsPastEnd at (told self.old) }
        ensures after { Looks result (device told faults self.old) (device told faults self.new) };

    /// Writes all of the bytes at an offset, with zeros between the old end and it. After an error a part of the range may
    /// be written, in any way.
    fn write(&mut self, at: u64, bytes: &[u8]) -> Result<(), Failed>
        ensures after { Writes at bytes.now result (device told faults self.old) (device told faults self.new) };

    /// Makes what was written safe: right after an `Ok`, a crash leaves what a read gives.
    fn sync(&mut self) -> Result<(), Failed>
        ensures after { Syncs result (device told faults self.old) (device told faults self.new) };
}
