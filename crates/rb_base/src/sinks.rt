// Where bytes are written.

ghost use Rattle.std.specs.Prelude.{◌≡◌, ℕ, ◌<◌, ◌≤◌, List, Option, length, IfOk};
ghost use Rattle.rb_base.specs.Devices.{device};
ghost use Rattle.rb_base.specs.Sinks.{sink_after, Writes};

use thiserror::Error;

/// A call of the outside failed: a fault that its object counted.
#[derive(Debug, Drop, Error)]
#[error("a device failed")]
pub struct Failed;

/// Where bytes are written.
///
/// A call may take only a front of what it is handed: `write_whole` goes on until all is taken.
/// After an error nothing of the piece was taken, and the same object may be written to again.
/// What a sink tells is the bytes written so far; a real device tells nothing.
pub trait Sink {
    /// The bytes written, where the sink tells them. Whether it does is kept by each call.
    ghost told: { Self → Option (List ℕ) };

    /// How many calls failed. The count never falls, and stands still at the end of a `u64`.
    ghost faults: { Self → ℕ };

    /// Takes from one byte to all of a piece that isn't empty, and answers how many.
    fn write(&mut self, piece: &[u8]) -> Result<usize, Failed>
        requires { 0 < length piece.now }
        ensures some { IfOk result (λ count. 0 < count) }
        ensures within { IfOk result (λ count. count ≤ length piece.now) }
        ensures after { device told faults self.new ≡ sink_after piece.now result (device told faults self.old) };
}

/// Writes all of the piece. After `Failed` a front of it was written.
pub fn write_whole<W: Sink>(out: &mut W, piece: &[u8]) -> Result<(), Failed>
    ensures { Writes piece.now result (device W.told W.faults out.old) (device W.told W.faults out.new) }
{
    let mut rest = piece;
    while !rest.is_empty() {
        let count = out.write(rest)?;
        rest = &rest[count..];
    }
    Ok(())
}
