// Where bytes are read.

ghost use Rattle.std.specs.Prelude.{◌≡◌, ◌<◌, ◌≤◌, ℕ, List, Option, length, IfOk};
ghost use Rattle.rb_base.specs.Devices.{device};
ghost use Rattle.rb_base.specs.Sources.{Reads, IsAtEnd};

use crate::sinks::Failed;

/// Where bytes are read.
///
/// A read gives at least one byte, or answers 0, which is the end. After an error no byte was taken, and the same object may
/// be read again. What a source tells is the bytes that are left; a real device tells nothing.
pub trait Source {
    /// The bytes left, where the source tells them. Whether it does is kept by each call.
    ghost told: { Self → Option (List ℕ) };

    /// How many calls failed. The count never falls, and stands still at the end of a `u64`.
    ghost faults: { Self → ℕ };

    /// Puts a front of the bytes left at the front of a buffer that isn't empty, and answers how many: 0 only where none is
    /// left. What stands behind them in the buffer, or in all of it after an error, no clause says.
    fn read(&mut self, into: &mut [u8]) -> Result<usize, Failed>
        requires { 0 < length into.old }
        ensures within { IfOk result (λ count. count ≤ length into.new) }
        ensures end { result ≡ Ok 0 → IsAtEnd (told self.old) }
        ensures after { Reads into.new result (device told faults self.old) (device told faults self.new) };
}
