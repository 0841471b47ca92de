// Payloads with their answers.

ghost use Rattle.rb_session.specs.Answering.{IsTypedHost};

use crate::expected::{NO_MEMORY, Told};
use crate::hosts::{
    CALL, CALL_REPLY, FILES, FILES_TABLE, LONGEST_REQUEST, NUMBER, NUMBER_TABLE, SHORT_CALL,
    SHORT_CALL_REPLY, host_of, lines_told,
};
use bytes::BytesMut;
use rb_exec::Host;
use rb_session::answer;
use std::alloc::Global;

/// A payload, with the kind and the payload of its reply.
type Row<'a> = (&'a [u8], u8, &'a [u8]);

/// Says what goes otherwise in the reply to a payload, and in the lines of the host's table then.
fn reply_told(alloc: Global, host: &mut Host, row: &Row<'_>, table: &[u8]) -> Told
    requires { IsTypedHost host.old }
{
    let (payload, kind, want) = row;
    if payload.len() > LONGEST_REQUEST {
        return Err("the payload is too long");
    }
    let mut reply = BytesMut::new(alloc);
    match answer(alloc, host, payload, &mut reply) {
        Ok(found) if found == *kind && reply.as_slice() == *want => {
            lines_told(alloc, host.table(), table)
        }
        Ok(_) => Err("another reply"),
        Err(_) => Err(NO_MEMORY),
    }
}

/// The same on the host of a text.
fn row_told(alloc: Global, source: &[u8], row: &Row<'_>, table: &[u8]) -> Told {
    match host_of(alloc, source) {
        Ok(mut host) => reply_told(alloc, &mut host, row, table),
        Err(why) => Err(why),
    }
}

/// The text of a service, the lines of its table, and payloads, each of which leaves it as it is.
type Table = (&'static [u8], &'static [u8], &'static [Row<'static>]);

const TABLES: &[Table] = &[
    (NUMBER, NUMBER_TABLE, NUMBER_ROWS),
    (FILES, FILES_TABLE, HOSTILE_ROWS),
    (FILES, FILES_TABLE, SHORT_ROWS),
];

/// A kept call gives its value.
const NUMBER_ROWS: &[Row<'_>] = &[(CALL, 2, CALL_REPLY), (SHORT_CALL, 2, SHORT_CALL_REPLY)];

/// Payloads that are refused, and a script that faults.
const HOSTILE_ROWS: &[Row<'_>] = &[
    // A variable that nothing binds, in the first step.
    (
        b"\x01\x00\x00\x00\x00\x01\x10\x00\x00\x00\x00\x00\x00\x00\x00\x22\x00\x00\x00\x05",
        3,
        b"\x01\x0b\x00\x00\x00\x00",
    ),
    // The same behind a step that would have a file grow.
    (
        b"\x01\x00\x00\x00\x00\x02\x10\x00\x00\x00\x00\x00\x00\x00\x00\x26\x00\x00\x00\x00\x00\x00\x00\x00\x04grow\x26\x00\x00\x00\x00\x04\x00\x00\x00\x04file\x23\x00\x00\x00\x01\x20\x01\x00\x00\x00\x00\x00\x00\x00\x00\x00\x00\x00\x01\x20\x01\x00\x00\x00\x00\x00\x00\x00\x05\x10\x00\x00\x00\x01\x00\x00\x00\x00\x22\x00\x00\x00\x05",
        3,
        b"\x01\x0b\x00\x00\x00\x01",
    ),
    // A byte behind the message.
    (
        b"\x01\x00\x00\x00\x00\x00\x00",
        3,
        b"\x01\x06\x00\x00\x00\x06",
    ),
    // No version.
    (b"\x07", 3, b"\x01\x02\x00\x00\x00\x00"),
    // A valid script that faults: `!` of a number.
    (
        b"\x01\x00\x00\x00\x00\x01\x11\x00\x00\x00\x00\x00\x00\x00\x09\x24\x01\x00\x00\x00\x09\x20\x01\x00\x00\x00\x00\x00\x00\x00\x07",
        2,
        b"\x01\x00\x00\x00\x00\x01\x00\x00\x00\x00\x00\x00\x00\x09\x0c",
    ),
];

/// Payloads of version 2, which are answered in version 2.
const SHORT_ROWS: &[Row<'_>] = &[
    // The empty script.
    (b"\x02\x00\x00\x00", 2, b"\x02\x00\x00\x00\x00\x00"),
    // A needless group of a count, and a text that nothing uses.
    (b"\x02\x00\x00\x80\x00", 3, b"\x02\x04\x03"),
    (b"\x02\x01\x01\x6e\x00\x00", 3, b"\x02\x07\x06"),
    // The sizes of the files of a list; of a list of which one isn't there; of one without items.
    (
        b"\x02\x02\x04size\x04file\x01\x04\x02\x01\x00\x01\x02\x01\x15\x00\x01\x00\x00\x01\x11\x01\x02\x26\x03\x01\x00\x26\x04\x04\x01\x23\x01\x22\x00\x00",
        2,
        b"\x02\x00\x00\x00\x01\x33\x00\x00\x00\x02\x00\x00\x00\x01\x31\x01\x14\x00\x00\x00\x00\x01\x31\x01\x90\x03\x00\x00",
    ),
    (
        b"\x02\x02\x04size\x04file\x01\x04\x03\x01\x02\x01\x0e\x01\x00\x01\x15\x00\x01\x00\x00\x01\x11\x01\x02\x26\x03\x01\x00\x26\x04\x04\x01\x23\x01\x22\x00\x00",
        2,
        b"\x02\x00\x00\x00\x01\x33\x00\x00\x00\x02\x00\x00\x00\x01\x31\x01\x90\x03\x00\x00\x00\x00\x00\x01\x01\x04\x02\x00",
    ),
    (
        b"\x02\x02\x04size\x04file\x01\x04\x00\x01\x15\x00\x01\x00\x00\x01\x11\x01\x02\x26\x03\x01\x00\x26\x04\x04\x01\x23\x01\x22\x00\x00",
        2,
        b"\x02\x00\x00\x00\x01\x33\x00\x00\x00\x00\x00",
    ),
    // A kept value that is an object: the first turn is the last.
    (
        b"\x02\x01\x04file\x01\x04\x02\x01\x00\x01\x02\x01\x15\x00\x00\x00\x00\x01\x11\x01\x00\x26\x00\x04\x00\x23\x01\x22\x00",
        2,
        b"\x02\x00\x00\x00\x01\x33\x00\x00\x00\x01\x00\x00\x00\x00\x01\x01\x00\x0c\x00",
    ),
    // A text.
    (
        b"\x02\x02\x04name\x04file\x00\x01\x11\x00\x09\x26\x09\x03\x00\x26\x09\x04\x01\x23\x01\x20\x01\x02\x00",
        2,
        b"\x02\x00\x00\x00\x01\x31\x03\x02bb\x00",
    ),
    // A valid script that faults: `!` of a number.
    (
        b"\x02\x00\x00\x01\x11\x00\x09\x24\x01\x09\x20\x01\x0e",
        2,
        b"\x02\x00\x00\x00\x00\x01\x00\x09\x0c",
    ),
    // An expression with an input that is a list.
    (
        b"\x02\x00\x01\x04\x01\x01\x02\x01\x10\x00\x09\x21\x00",
        3,
        b"\x02\x0f\x00",
    ),
    // A variable that nothing binds, behind a step that would have a file grow.
    (
        b"\x02\x02\x04grow\x04file\x00\x02\x10\x00\x00\x26\x00\x00\x00\x26\x00\x04\x01\x23\x01\x20\x01\x00\x01\x20\x01\x0a\x10\x01\x00\x22\x05",
        3,
        b"\x02\x0b\x01",
    ),
];

#[test]
fn payloads_have_their_answers(rt: HostRuntime) -> Told {
    let mut told = Ok(());
    for (source, table, rows) in TABLES {
        for row in *rows {
            told = told.and(row_told(rt.alloc(), source, row, table));
        }
    }
    told
}
