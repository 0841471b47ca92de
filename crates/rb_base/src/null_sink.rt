// A sink that keeps nothing.

ghost use Rattle.std.specs.Prelude.{◌≡◌, ◌<◌, length};

use crate::sinks::{Failed, Sink};

/// A sink that takes all that it is handed, keeps nothing, and never fails.
///
/// It is lent to code whose output nobody wants. It tells nothing, and its count of faults is
/// always 0.
#[derive(Drop)]
pub struct NullSink;

impl Sink for NullSink {
    ghost use Rattle.std.specs.Prelude.{None};

    ghost told = { λ it. None };

    ghost faults = { λ it. 0 };

    fn write(&mut self, piece: &[u8]) -> Result<usize, Failed>
        requires { 0 < length piece.now }
        ensures { result ≡ Ok (length piece.now) }
    {
        Ok(piece.len())
    }
}
