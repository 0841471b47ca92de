// What a person is told on standard error, behind the answer's line.

use crate::kept_files::KeptFiles;
use rb_client::BadReason;
use rb_help::{JournalFlaw, ReplyFlaw, Server, Trouble, coloured, explain, is_help_option};
use rb_json::JsonRefusal;
use rb_top::{SourceError, Status};
use rb_trees::{Memory, Word};
use rb_wire_forest::Misfit;
use std::alloc::Global;
use std::str;

/// The word of a number, or nothing where there is none.
fn word(words: &[String], number: usize) -> &str {
    match words.get(number) {
        Some(word) => word.as_str(),
        None => "",
    }
}

/// The name that the word of a number is, or nothing where there is none.
fn name_in(words: &[String], number: usize) -> &[u8] {
    word(words, number).as_bytes()
}

/// The name of the program's file.
fn program_of(words: &[String]) -> &str {
    match word(words, 0) {
        "run" => word(words, 2),
        _ => word(words, 1),
    }
}

/// The name of the service's file.
fn service_of(words: &[String]) -> &str {
    match word(words, 0) {
        "child" | "json" => word(words, 1),
        _ => word(words, 2),
    }
}

/// The server that a client of these words speaks to.
fn server(words: &[String]) -> Server<'_> {
    if word(words, 0) == "run" {
        Server::Address(word(words, 1).as_bytes())
    } else {
        Server::Child(word(words, 2).as_bytes())
    }
}

/// What is wrong with a reply.
fn flaw(reason: &BadReason) -> ReplyFlaw {
    match reason {
        BadReason::Cut(got) => ReplyFlaw::Cut(*got),
        BadReason::Frame(at) => ReplyFlaw::Frame(*at),
        BadReason::Forest(number, at) => ReplyFlaw::Forest(*number, *at),
        BadReason::Misfit(Misfit::At(step)) => ReplyFlaw::Misfit(*step),
        BadReason::Misfit(Misfit::Extra) => ReplyFlaw::Extra,
        BadReason::Refused(number, at) => ReplyFlaw::Refused(*number, *at),
        BadReason::Garbled => ReplyFlaw::Garbled,
    }
}

/// What went wrong with the program, if something did.
fn trouble_of_program(status: &Status) -> Option<Trouble<'_>> {
    match status {
        Status::Faulted(fault, at) => Some(Trouble::Faulted(fault, *at)),
        Status::SourceRefused(SourceError::Read(error)) => Some(Trouble::Unread(error)),
        Status::SourceRefused(SourceError::Types(error)) => Some(Trouble::Untyped(error)),
        Status::BatchRefused(refusal) => Some(Trouble::Refused(refusal)),
        _ => None,
    }
}

/// What went wrong with the service, if something did.
fn trouble_of_service(status: &Status) -> Option<Trouble<'_>> {
    match status {
        Status::ServiceRefused(error) => Some(Trouble::Unserved(error)),
        _ => None,
    }
}

/// What is wrong with a request in JSON in the file of a name.
fn trouble_of_request<'a>(name: &'a [u8], refusal: &JsonRefusal) -> Trouble<'a> {
    match refusal {
        JsonRefusal::NotJson => Trouble::NotJson(name),
        JsonRefusal::WrongForm(place) => Trouble::WrongForm(name, *place),
    }
}

/// What is wrong with a journal that is refused by a number.
fn journal_flaw(number: u8) -> JournalFlaw {
    match number {
        3 => JournalFlaw::Full,
        4 => JournalFlaw::None,
        _ => JournalFlaw::BadRecord,
    }
}

/// What went wrong around the texts, if something did.
fn trouble_around<'a>(words: &'a [String], status: &'a Status) -> Option<Trouble<'a>> {
    match status {
        Status::Words => Some(Trouble::Words(words)),
        Status::FileFault(name) if is_help_option(name.as_slice()) => Some(Trouble::Words(words)),
        Status::FileFault(name) => Some(Trouble::FileFault(name.as_slice())),
        Status::FileTooLong(name) => Some(Trouble::FileTooLong(name.as_slice())),
        Status::EventRefused(line) => Some(Trouble::NoEvent(name_in(words, 1), *line)),
        Status::JsonRefused(refusal) => Some(trouble_of_request(name_in(words, 2), refusal)),
        Status::DiskFault(name) => Some(Trouble::DiskFault(name.as_slice())),
        Status::JournalRefused(number) => {
            Some(Trouble::Journal(name_in(words, 4), journal_flaw(*number)))
        }
        Status::LinkFault(done) => Some(Trouble::LinkFault(server(words), *done)),
        Status::BadReply { done, reason, .. } => {
            Some(Trouble::BadReply(server(words), *done, flaw(reason)))
        }
        Status::DialFault => Some(Trouble::DialFault(server(words))),
        Status::ListenFault => Some(Trouble::ListenFault(listened(words).as_bytes())),
        Status::WriteFault => Some(Trouble::OutputFault),
        Status::Memory => Some(Trouble::Memory),
        _ => None,
    }
}

/// What a server of these words listens at.
fn listened(words: &[String]) -> &str {
    match word(words, 0) {
        "serve" | "keep" => word(words, 1),
        _ => "-",
    }
}

/// What a person is told of a trouble in a text of a name. There is nothing to be told of a text that isn't there.
fn told(
    alloc: Global,
    name: &str,
    text: Option<&[u8]>,
    trouble: &Trouble<'_>,
) -> Result<Option<Word>, Memory> {
    match text {
        Some(text) => Ok(Some(explain(alloc, name.as_bytes(), text, trouble)?)),
        None => Ok(None),
    }
}

/// What a person is told of a status, if anything went wrong.
fn help<F>(
    alloc: Global,
    words: &[String],
    status: &Status,
    files: &KeptFiles<F>,
) -> Result<Option<Word>, Memory> {
    if let Some(trouble) = trouble_of_program(status) {
        return told(alloc, program_of(words), files.first(), &trouble);
    }
    if let Some(trouble) = trouble_of_service(status) {
        return told(alloc, service_of(words), files.last(), &trouble);
    }
    match trouble_around(words, status) {
        Some(trouble) => told(alloc, "", Some(b""), &trouble),
        None => Ok(None),
    }
}

/// A help as it is written, in colours or plain.
fn written(alloc: Global, help: Word, in_colours: bool) -> Result<Word, Memory> {
    if in_colours {
        coloured(alloc, help.as_slice())
    } else {
        Ok(help)
    }
}

/// Writes to standard error what went wrong, with the lines of the text as it was read, in colours or plain. Where no memory
/// is left or standard error can't be written it is left out: it changes neither output nor status.
pub fn tell<R: AllocGlobal + Eprint, F>(
    rt: &R,
    words: &[String],
    status: &Status,
    files: &KeptFiles<F>,
    in_colours: bool,
) {
    let Ok(Some(help)) = help(rt.alloc(), words, status, files) else {
        return;
    };
    if let Ok(help) = written(rt.alloc(), help, in_colours) {
        if let Ok(lines) = str::from_utf8(help.as_slice()) {
            let _ = eprint!(rt; "{lines}");
        }
    }
}
