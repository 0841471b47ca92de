// What is said where a client and its server don't come to an end together.

use crate::outside_texts as texts;
use crate::trouble::{ReplyFlaw, Server};
use rb_pieces::Page;
use rb_trees::Memory;
use std::alloc::Global;

/// The number of an exchange, from 1, before which there were so many.
fn exchange_after(done: u64) -> u64 {
    done.saturating_add(1)
}

/// What is said where no link to a server came about.
pub fn say_dial_fault(page: &mut Page, server: &Server<'_>) -> Result<(), Memory> {
    match server {
        Server::Address(address) => page.say_name(&texts::DIAL_FAULT, address),
        Server::Child(file) => page.say_name(&texts::CHILD_DIAL_FAULT, file),
    }
}

/// What is said where an exchange with a server failed, before which there were so many.
pub fn say_link_fault(page: &mut Page, server: &Server<'_>, done: u64) -> Result<(), Memory> {
    let exchange = exchange_after(done);
    match server {
        Server::Address(address) => page.say_number(&texts::LINK_FAULT, address, exchange),
        Server::Child(file) => page.say_number(&texts::CHILD_LINK_FAULT, file, exchange),
    }
}

/// What is said of bytes that are no results, by the number of what they break.
fn results_broken_by(number: u8) -> &'static [u8] {
    match number {
        1 => texts::RESULTS_CUT,
        2 => texts::RESULTS_WITH_SIGN,
        3 => texts::RESULTS_WITH_TEXT,
        4 => texts::RESULTS_MISSPELLED,
        5 => texts::RESULTS_NESTED,
        6 => texts::RESULTS_AND_MORE,
        _ => texts::RESULTS_BROKEN,
    }
}

/// Says by what number and at what place a server refused a script.
fn say_script_refused(
    alloc: Global,
    page: &mut Page,
    number: u8,
    place: u32,
) -> Result<(), Memory> {
    let refusal = format!(in alloc; "{number} at {place}")?;
    page.sentence(texts::SCRIPT_REFUSED, b"", refusal.as_bytes())
}

/// Says what a server did in place of a reply that can be used.
fn say_flaw(alloc: Global, page: &mut Page, flaw: &ReplyFlaw) -> Result<(), Memory> {
    match flaw {
        ReplyFlaw::Cut(0) => page.sentence(texts::NO_REPLY, b"", b""),
        ReplyFlaw::Cut(at) => page.sentence_of(texts::CUT_REPLY, b"", *at),
        ReplyFlaw::Frame(at) => page.sentence_of(texts::NO_FRAME, b"", *at),
        ReplyFlaw::Forest(number, at) => page.sentence_of(results_broken_by(*number), b"", *at),
        ReplyFlaw::Misfit(step) => page.sentence_of(texts::RESULTS_LACK, b"", u64::from(*step)),
        ReplyFlaw::Extra => page.sentence(texts::RESULTS_LEFT, b"", b""),
        ReplyFlaw::Refused(number, place) => say_script_refused(alloc, page, *number, *place),
        ReplyFlaw::Garbled => page.sentence(texts::REFUSAL_GARBLED, b"", b""),
    }
}

/// What is to be done where a server sent no reply that can be used.
fn mend_of(server: &Server<'_>, flaw: &ReplyFlaw) -> &'static [u8] {
    match (server, flaw) {
        (Server::Child(_), _) => texts::CHILD_WENT,
        (Server::Address(_), ReplyFlaw::Cut(_)) => texts::SERVER_WENT,
        (Server::Address(_), _) => texts::OTHER_SERVER,
    }
}

/// What is said where a server sent no reply that can be used, before which there were so many.
pub fn say_bad_reply(
    alloc: Global,
    page: &mut Page,
    server: &Server<'_>,
    done: u64,
    flaw: &ReplyFlaw,
) -> Result<(), Memory> {
    let exchange = exchange_after(done);
    match server {
        Server::Address(address) => page.fill_of(texts::SERVER_SENT, address, exchange)?,
        Server::Child(file) => page.fill_of(texts::CHILD_SENT, file, exchange)?,
    }
    say_flaw(alloc, page, flaw)?;
    page.sentence(mend_of(server, flaw), b"", b"")
}
