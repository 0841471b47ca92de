// Whoever uses a tool, at standard output and standard error.

use rb_base::{Failed, write_whole};
use rb_devices::StandardOutput;
use rb_top::Status;
use std::alloc::Global;
use std::str;

/// The exit status of a tool that did what was asked.
pub const DONE: u8 = 0;

/// The exit status of a tool whose answer is no: a text isn't laid out, or can't be, or bytes break their form.
pub const NO: u8 = 1;

/// Whoever uses a tool, and whether standard error is in colours.
#[derive(Drop)]
pub struct Person<'a, R> {
    pub rt: &'a R,
    pub in_colours: bool,
}

impl<R: AllocGlobal> Person<'_, R> {
    /// Where memory is had from.
    pub fn alloc(&self) -> Global {
        self.rt.alloc()
    }
}

impl<R: Print> Person<'_, R> {
    /// Prints a text, and gives this exit status; or that of an output that failed.
    pub fn print(&self, text: &[u8], code: u8) -> u8 {
        match write_whole(&mut StandardOutput::make(self.rt), text) {
            Ok(()) => code,
            Err(Failed) => Status::WriteFault.code(),
        }
    }
}

impl<R: Eprint> Person<'_, R> {
    /// Writes a text to standard error. Where that fails it is left out.
    pub fn note(&self, text: &str) {
        let _ = eprint!(self.rt; "{text}");
    }
}
