// What is said on the output, with the status that is answered.

ghost use Rattle.std.specs.Prelude.{◌≡◌, ◌++◌, IfOk};
ghost use Rattle.rb_meaning.specs.Shown.{line};
ghost use Rattle.rb_top.specs.Commands.{EndsUnread, run_answer, status_after};
ghost use Rattle.rb_top.specs.Ends.{Ends};
ghost use Rattle.rb_top.specs.Printing.{stopped_status};
ghost use Rattle.rb_top.specs.Scene.{output};

use crate::loading::TextStop;
use crate::printing::{PrintStop, print_text};
use crate::status::Status;
use rb_base::Sink;
use rb_trees::Seq;
use std::alloc::{AllocError, Global};

/// The status where not all was printed.
pub fn stopped(stop: PrintStop) -> Status
    ensures { result ≡ stopped_status stop }
{
    match stop {
        PrintStop::WriteFault => Status::WriteFault,
        PrintStop::Memory => Status::Memory,
    }
}

/// The status that a run answered, or that of its stop.
pub fn run_answer(answered: Result<Status, PrintStop>) -> Status
    ensures { result ≡ run_answer answered }
{
    match answered {
        Ok(status) => status,
        Err(stop) => stopped(stop),
    }
}

/// The status after a text was printed, or wasn't.
pub fn ended(status: Status, printed: Result<(), PrintStop>) -> Status
    ensures { result ≡ status_after status printed }
{
    match printed {
        Ok(()) => status,
        Err(stop) => stopped(stop),
    }
}

/// Prints a text and answers the status, or why the text wasn't printed whole.
pub fn say<W: Sink>(status: Status, text: &[u8], out: &mut W) -> Status
    ensures { Ends status text.now result (output W.Sink out.old) (output W.Sink out.new) }
{
    let printed = print_text(text, out);
    ended(status, printed)
}

/// The line of what is told of a file or a disk.
fn line_of(alloc: Global, what: &[u8], name: &str) -> Result<Vec<u8>, AllocError>
    ensures { IfOk result (λ text. text.items ≡ line (what.now ++ name.now)) }
{
    let mut text = Vec::from_slice(alloc, what)?;
    text.extend_from_slice(name.as_bytes())?;
    text.extend_from_slice(b"\n")?;
    Ok(text)
}

/// Says what is told of a file or a disk.
pub fn say_of<W: Sink>(
    alloc: Global,
    status: Status,
    what: &[u8],
    name: &str,
    out: &mut W,
) -> Status
    ensures { Ends status (line (what.now ++ name.now)) result (output W.Sink out.old) (output W.Sink out.new) }
{
    match line_of(alloc, what, name) {
        Ok(text) => say(status, text.as_slice(), out),
        Err(_) => Status::Memory,
    }
}

/// Says why no text is read from a file.
pub fn say_unread<W: Sink>(alloc: Global, stop: TextStop, name: &str, out: &mut W) -> Status
    ensures { EndsUnread stop name.now result (output W.Sink out.old) (output W.Sink out.new) }
{
    let Ok(word) = Seq::from_slice(alloc, name.as_bytes()) else {
        return Status::Memory;
    };
    match stop {
        TextStop::FileFault => say_of(alloc, Status::FileFault(word), b"file fault ", name, out),
        TextStop::TooLong => say_of(
            alloc,
            Status::FileTooLong(word),
            b"file too long ",
            name,
            out,
        ),
        TextStop::Memory => Status::Memory,
    }
}
