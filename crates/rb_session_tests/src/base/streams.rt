// Sinks and sources: the pieces that they take and give, and where they fail.

use crate::ends::{Ends, source_of};
use crate::expected::{NO_MEMORY, Told, told};
use rb_base::{MemorySink, MemorySource, NullSink, Sink, Source, SteadySource, write_whole};
use rb_trees::Seq;
use std::alloc::Global;

/// How many bytes of a piece are taken by one write, or by as many as it takes; None where a write fails.
fn taken<K: Sink>(sink: &mut K, piece: &[u8], is_whole: bool) -> Option<usize> {
    if is_whole || piece.is_empty() {
        match write_whole(sink, piece) {
            Ok(()) => Some(piece.len()),
            Err(_) => None,
        }
    } else {
        sink.write(piece).ok()
    }
}

/// Whether each of these pieces is written whole or once, has so many bytes taken, and leaves these bytes written.
fn are_taken(sink: &mut MemorySink, rows: &[(&[u8], bool, Option<usize>, &[u8])]) -> bool {
    let mut are_taken = true;
    for (piece, is_whole, count, written) in rows {
        are_taken &= taken(sink, piece, *is_whole) == *count && sink.written() == *written;
    }
    are_taken
}

/// Pieces for a sink that takes one byte at once, and whose third write is listed.
const PIECES: &[(&[u8], bool, Option<usize>, &[u8])] = &[
    (b"abc", true, None, b"ab"),
    (b"cd", true, Some(2), b"abcd"),
    (b"ef", false, Some(1), b"abcde"),
];

#[test]
fn a_piece_is_written_byte_by_byte_up_to_a_fault(rt: HostRuntime) {
    let failing = Seq::from_slice(rt.alloc(), &[3]).expect(&rt, "a list");
    let mut sink = MemorySink::make(rt.alloc(), failing, 1);
    assert!(rt; are_taken(&mut sink, PIECES));
}

#[test]
fn a_null_sink_takes_all(rt: HostRuntime) {
    let whole = taken(&mut NullSink, b"abc", true);
    let once = taken(&mut NullSink, b"abc", false);
    assert!(rt; whole == Some(3) && once == Some(3));
}

/// Whether a read into so many dots, up to three, gives these bytes and leaves the dots behind them; or fails, where None are
/// wanted.
fn reads_so<S: Source>(source: &mut S, size: usize, want: Option<&[u8]>) -> bool {
    let mut buffer = *b"...";
    match (source.read(&mut buffer[..size.clamp(1, 3)]), want) {
        (Ok(count), Some(want)) => {
            let (read, rest) = buffer.split_at(count.min(3));
            read == want && b"...".starts_with(rest)
        }
        (Err(_), None) => true,
        _ => false,
    }
}

/// A source of these bytes, of which these reads fail and the others give two bytes at most; and reads, with what they give and
/// what is left then.
type Case<'a> = (
    &'a [u8],
    &'a [u64],
    &'a [(usize, Option<&'a [u8]>, &'a [u8])],
);

const CASES: &[Case<'_>] = &[
    // Up to the end.
    (
        b"abcde",
        &[],
        &[
            (3, Some(b"ab"), b"cde"),
            (3, Some(b"cd"), b"e"),
            (3, Some(b"e"), b""),
            (3, Some(b""), b""),
        ],
    ),
    // A read that is listed, and the next one.
    (b"abc", &[1], &[(3, None, b"abc"), (1, Some(b"a"), b"bc")]),
];

/// Whether reads of a source give these bytes, and leave these.
fn are_read(source: &mut MemorySource, reads: &[(usize, Option<&[u8]>, &[u8])]) -> bool {
    let mut are_read = true;
    for (size, want, left) in reads {
        are_read &= reads_so(source, *size, *want) && source.left() == *left;
    }
    are_read
}

/// Says what goes otherwise in a case.
fn case_told(alloc: Global, (bytes, failing, reads): &Case<'_>) -> Told {
    let ends = Ends {
        streams: &[*bytes],
        most_read: 2,
        most_written: 2,
        reads: failing,
        writes: &[],
    };
    match source_of(alloc, &ends) {
        Ok(mut source) => told(are_read(&mut source, reads), "other bytes are read or left"),
        Err(_) => Err(NO_MEMORY),
    }
}

#[test]
fn a_source_gives_pieces_and_then_its_end_unless_a_read_is_listed(rt: HostRuntime) -> Told {
    let mut told = Ok(());
    for case in CASES {
        told = told.and(case_told(rt.alloc(), case));
    }
    told
}

#[test]
fn a_steady_source_fills_its_buffer(rt: HostRuntime) {
    let bytes = Seq::from_slice(rt.alloc(), b"abcd").expect(&rt, "bytes");
    let source = &mut SteadySource::make(bytes);
    let are_read = reads_so(source, 3, Some(b"abc"))
        && reads_so(source, 3, Some(b"d"))
        && reads_so(source, 3, Some(b""));
    assert!(rt; are_read);
}
