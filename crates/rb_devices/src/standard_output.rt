// The output of the system.

ghost use Rattle.std.specs.Prelude.{◌≡◌};

use crate::counts::count_one;
use crate::moves::write_some;
use rb_base::{Failed, Sink};
use std::io::writer;
use std::marker::Model;

/// Standard output.
///
/// It tells nothing: what reaches the system is the system's. Contracts see it as its count of faults.
#[derive(Drop)]
pub struct StandardOutput<'a, P> {
    runtime: &'a P,
    faults: u64,
}

impl<'a, P> Model for StandardOutput<'a, P> {
    ghost use Rattle.std.specs.Prelude.{ℕ};

    ghost Value = { ℕ };

    ghost view = { λ it. it.faults };
}

impl<'a, P> StandardOutput<'a, P> {
    /// A runtime's standard output, of which no write failed so far.
    pub fn make(runtime: &'a P) -> StandardOutput<'a, P>
        ensures { result ≡ 0 }
    {
        StandardOutput { runtime, faults: 0 }
    }
}

impl<P: Print> Sink for StandardOutput<'_, P> {
    ghost use Rattle.std.specs.Prelude.{None};

    ghost told = { λ it. None };

    ghost faults = { λ it. it };

    /// Fails where the system fails or takes nothing. A write that a signal interrupts is repeated.
    fn write(&mut self, piece: &[u8]) -> Result<usize, Failed> {
        match write_some(&mut writer(self.runtime), piece) {
            Some(count) => Ok(count),
            None => {
                count_one(&mut self.faults);
                Err(Failed)
            }
        }
    }
}
