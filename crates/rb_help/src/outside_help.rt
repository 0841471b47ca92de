// What is said of what stands around a program: words, files, links, output and memory.

use crate::event_texts::NO_EVENT;
use crate::journal_texts::{BAD_RECORD, DISK_FAULT, JOURNAL_FULL, NO_JOURNAL};
use crate::json_texts::{NOT_JSON, WRONG_FORM};
use crate::link_help::{say_bad_reply, say_dial_fault, say_link_fault};
use crate::outside_texts as texts;
use crate::trouble::{JournalFlaw, Trouble};
use crate::word_help::say_words;
use rb_pieces::{Help, OUT_OF_MEMORY, Page};
use rb_trees::Memory;
use std::alloc::Global;

/// The sentences on what is wrong with a journal.
fn flaw_help(flaw: JournalFlaw) -> &'static Help {
    match flaw {
        JournalFlaw::Full => &JOURNAL_FULL,
        JournalFlaw::None => &NO_JOURNAL,
        JournalFlaw::BadRecord => &BAD_RECORD,
    }
}

/// What is said of what stands around a program, and nothing of its text.
pub fn say_outside(alloc: Global, page: &mut Page, trouble: &Trouble<'_>) -> Result<(), Memory> {
    match trouble {
        Trouble::Words(words) => say_words(alloc, page, words),
        Trouble::FileFault(name) => page.say_name(&texts::FILE_FAULT, name),
        Trouble::FileTooLong(name) => page.say_name(&texts::FILE_TOO_LONG, name),
        Trouble::NoEvent(name, line) => page.say_number(&NO_EVENT, name, *line),
        Trouble::NotJson(name) => page.say_name(&NOT_JSON, name),
        Trouble::WrongForm(name, place) => page.say_number(&WRONG_FORM, name, u64::from(*place)),
        Trouble::DiskFault(name) => page.say_name(&DISK_FAULT, name),
        Trouble::Journal(name, flaw) => page.say_name(flaw_help(*flaw), name),
        Trouble::LinkFault(server, done) => say_link_fault(page, server, *done),
        Trouble::BadReply(server, done, flaw) => say_bad_reply(alloc, page, server, *done, flaw),
        Trouble::DialFault(server) => say_dial_fault(page, server),
        Trouble::ListenFault(address) => page.say_name(&texts::LISTEN_FAULT, address),
        Trouble::OutputFault => page.say_plain(&texts::OUTPUT_FAULT),
        Trouble::Memory => page.say_plain(&OUT_OF_MEMORY),
        Trouble::Faulted(_, _)
        | Trouble::Unread(_)
        | Trouble::Untyped(_)
        | Trouble::Refused(_)
        | Trouble::Unserved(_) => Ok(()),
    }
}
