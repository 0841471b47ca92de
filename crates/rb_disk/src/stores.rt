// Where disks are had from.

ghost use Rattle.std.specs.Prelude.{◌≡◌, ℕ, Option, IfOk, OnOk};
ghost use Rattle.rb_base.specs.Devices.{device};
ghost use Rattle.rb_disk.specs.Storing.{Storing, handed, seen, OpensNext, after_open, HasOneOut, after_back};

use crate::disk::Disk;
use rb_base::Failed;

/// Where disks are had from, each by a name.
///
/// The caller opens a disk, works on it, and gives it back. One disk is out at a time. After an error the same object may be
/// asked again.
///
/// What a store tells is `Storing`: the disk in the place of each name, which place is empty, and which calls of `open` fail. A
/// real device tells nothing, and then no clause says what an opened disk holds.
pub trait Stores {
    /// Its disks.
    type D: Disk;

    /// What it tells, where it tells anything. Whether it does is kept by each call.
    ghost told: { Self → Option Storing };

    /// How many calls of `open` failed. The count never falls, and stands still at the end of a `u64`.
    ghost faults: { Self → ℕ };

    /// How many disks came back broken: with a count of faults that isn't 0. The count never falls, and stands still at the end
    /// of a `u64`.
    ghost broken: { Self → ℕ };

    /// Opens the disk of a name, of which no call failed since then. Each call is numbered, whatever it answers.
    fn open(&mut self, name: &str) -> Result<Self::D, Failed>
        ensures opens { OpensNext name.now (handed (device Self.D.told Self.D.faults) result) (told self.old) }
        ensures fresh { IfOk result (λ disk. Self.D.faults disk ≡ 0) }
        ensures is_out { OnOk result (HasOneOut (told self.new)) }
        ensures after { seen told faults broken self.new ≡ after_open name.now result (seen told faults broken self.old) };

    /// Takes back the disk that is out, into its place. It takes no memory, can't fail and isn't numbered.
    fn back(&mut self, disk: Self::D)
        requires { HasOneOut (told self.old) }
        ensures after { let came = device Self.D.told Self.D.faults disk in
            seen told faults broken self.new ≡ after_back came (seen told faults broken self.old) };
}
