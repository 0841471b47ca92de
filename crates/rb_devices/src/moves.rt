// Single reads and writes, which are repeated where a signal interrupts them.

ghost use Rattle.std.specs.Prelude.{◌<◌, ◌≤◌, length, IfSome};

use std::io::{ErrorKind, Read, Write};
use std::os::unix::fs::FileExt;

/// Reads once, and answers how many bytes came; None where the read fails.
pub fn read_some<R: Read>(from: &mut R, into: &mut [u8]) -> Option<usize>
    ensures { IfSome result (λ count. count ≤ length into.new) }
{
    for _ in 0..u64::MAX {
        match from.read(into) {
            Ok(count) => return Some(count),
            Err(error) if error.kind() == ErrorKind::Interrupted => {}
            Err(_) => return None,
        }
    }
    None
}

/// Writes once, and answers how many bytes were taken; None where the write fails or takes nothing.
pub fn write_some<W: Write>(to: &mut W, piece: &[u8]) -> Option<usize>
    ensures some { IfSome result (λ count. 0 < count) }
    ensures within { IfSome result (λ count. count ≤ length piece.now) }
{
    for _ in 0..u64::MAX {
        match to.write(piece) {
            Ok(0) => return None,
            Ok(count) => return Some(count),
            Err(error) if error.kind() == ErrorKind::Interrupted => {}
            Err(_) => return None,
        }
    }
    None
}

/// Reads once from an offset on, and answers how many bytes came; None where the read fails.
pub fn read_some_at<F: FileExt>(from: &F, at: u64, into: &mut [u8]) -> Option<usize>
    ensures { IfSome result (λ count. count ≤ length into.new) }
{
    for _ in 0..u64::MAX {
        match from.read_at(into, at) {
            Ok(count) => return Some(count),
            Err(error) if error.kind() == ErrorKind::Interrupted => {}
            Err(_) => return None,
        }
    }
    None
}
