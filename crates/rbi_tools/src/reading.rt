// Files as the tools read them.

use crate::judging::{Kind, refuse};
use crate::person::Person;
use bytes::BytesMut;
use rb_base::{Files as _, FilesStop};
use rb_devices::RealFiles;
use rb_top::Status;
use std::fs::File;
use std::rt::Files;

/// The greatest number of bytes of a text.
pub const LONGEST_TEXT: usize = 1_048_576;

/// The first bytes of a file, one more than so many at most; or the exit status after it was said that it can't be read.
pub fn read_file<R: Files<File = File> + Print + Eprint + AllocGlobal>(
    person: &Person<'_, R>,
    name: &str,
    most: usize,
) -> Result<BytesMut, u8> {
    let mut text = BytesMut::new(person.alloc());
    match RealFiles::make(person.rt).read(name, most, &mut text) {
        Ok(()) => Ok(text),
        Err(FilesStop::Failed) => Err(refuse(person, Kind::Program, name, None)),
        Err(FilesStop::Memory) => Err(Status::Memory.code()),
    }
}
