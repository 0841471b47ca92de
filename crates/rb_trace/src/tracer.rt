// Exchanges told on standard error.

ghost use Rattle.std.specs.Prelude.{◌≤◌, length};

use crate::answers::answer_text;
use crate::batches::Batches;
use crate::requests::request_text;
use crate::watches::Watch;
use rb_base::{LinkStop, Reply};
use rb_trees::{Memory, Word};
use std::rt::Clock;
use std::str;
use std::time::Instant;

/// A watch that tells each exchange on standard error: the request before it is sent, as [`request_text`] has it, and what came
/// of it, as [`answer_text`] does.
///
/// What can't be told for want of memory, or because standard error can't be written, is left out.
#[derive(Drop)]
pub struct Tracer<'a, R> {
    runtime: &'a R,
    batches: Batches<'a>,
}

impl<'a, R: AllocGlobal> Tracer<'a, R> {
    /// Tells the exchanges of a program with this text. By another text, as the empty one, only the places that are told would be
    /// wrong or missing.
    pub fn make(runtime: &'a R, source: &'a [u8]) -> Result<Tracer<'a, R>, Memory> {
        let batches = Batches::of(runtime.alloc(), source)?;
        Ok(Tracer { runtime, batches })
    }
}

impl<R: Eprint + Clock + AllocGlobal> Watch for Tracer<'_, R> {
    fn before(&self, number: u64, request: &[u8]) -> Option<Instant> {
        let alloc = self.runtime.alloc();
        tell(
            self.runtime,
            request_text(alloc, &self.batches, number, request),
        );
        Instant::now(self.runtime).ok()
    }

    fn after(&self, began: Option<Instant>, answer: &Result<Reply, LinkStop>) {
        let took = match began {
            Some(began) => began.elapsed(self.runtime).ok(),
            None => None,
        };
        let alloc = self.runtime.alloc();
        tell(
            self.runtime,
            answer_text(alloc, &self.batches, answer, took),
        );
    }
}

/// Writes a text to standard error, if there is one.
fn tell<R: Eprint>(runtime: &R, text: Result<Word, Memory>) {
    if let Ok(text) = text {
        if let Ok(lines) = str::from_utf8(text.as_slice()) {
            let _ = eprint!(runtime; "{lines}");
        }
    }
}
