// Files of the outside, read by their names.

ghost use Rattle.std.specs.Prelude.{◌≡◌, ℕ, List, Option, OnOk, OnErr};
ghost use Rattle.rb_base.specs.Devices.{device};
ghost use Rattle.rb_base.specs.Directories.{Directory, files_after, FailsNext, ReadsFile};

use bytes::BytesMut;
use rb_trees::Memory;
use thiserror::Error;

/// Why a file wasn't read.
#[derive(Debug, Drop, Error)]
pub enum FilesStop {
    /// The file isn't there or can't be read: a fault that was counted.
    #[error("the file can't be read")]
    Failed,
    #[error("out of memory")]
    Memory,
}

impl From<Memory> for FilesStop {
    ghost use Rattle.std.specs.Prelude.{◌≡◌};
    ghost use Rattle.rb_base.specs.declared.files.FilesStop.TheVariants as stops;

    ghost from_gives = { λ _ e. e ≡ stops.Memory };

    fn from(_want: Memory) -> FilesStop {
        FilesStop::Memory
    }
}

/// Files that can be read by their names.
///
/// The caller reads a file whole, up to a limit. After an error the same object may be read again.
/// What files tell is `Directory`: their names and bytes, and which coming reads fail. Real files
/// tell nothing, and then no clause says what a read finds.
pub trait Files {
    /// What they hold, where they tell it. Whether they do is kept by each call.
    ghost told: { Self → Option Directory };

    /// How many calls failed. The count never falls, and stands still at the end of a `u64`.
    ghost faults: { Self → ℕ };

    /// Appends the file's first `limit + 1` bytes, or all where it has no more.
    /// After an error `into` is unchanged.
    fn read(&mut self, name: &str, limit: usize, into: &mut BytesMut) -> Result<(), FilesStop>
        ensures read { OnOk result (ReadsFile (told self.old) name.now limit into.old.items into.new.items) }
        ensures failed { result ≡ Err FilesStop.Failed → FailsNext (told self.old) name.now }
        ensures unchanged { OnErr result (into.new.items ≡ into.old.items) }
        ensures after { device told faults self.new ≡ files_after result (device told faults self.old) };
}
