// What holds of each record of a disk, and of each store.

ghost use Rattle.std.specs.Prelude.{◌≡◌, ℕ, List, Some};
ghost use Rattle.rb_base.specs.Devices.{Device};
ghost use Rattle.rb_disk.specs.Images.{DiskRecord, MayLeave, shown};
ghost use Rattle.rb_disk.specs.Storing.{Storing, next_disk, disk_under, emptied, filled};

/// A disk as it reads is one of its images.
pub fn reading_is_an_image()
    ensures { (d : DiskRecord) → MayLeave d (shown d) }
{}

/// A disk that was opened and came back stands under its name, as it came back.
pub fn disks_come_back_to_their_names()
    ensures { (s : Storing) (name : List ℕ) (found disk : Device DiskRecord) → next_disk s name ≡ Some found
        → disk_under (filled (emptied s.places name) disk) name ≡ Some disk }
{}
