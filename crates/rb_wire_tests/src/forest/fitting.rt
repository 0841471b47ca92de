// Nodes that fit a remainder, and nodes that don't.

use crate::digits::add_bytes;
use crate::parts::{Make, remainder};
use bytes::BytesMut;
use rb_trees::{Part, Seq, Version};
use rb_wire_forest::{Misfit, decode_forest, encode_forest, fits, scan_forest};
use std::alloc::{AllocError, Global};
use std::test::Fail;

/// What is told of a forest that fits otherwise in its bytes than as a tree.
const DISPUTED: i64 = -3;

/// That something is left over.
const EXTRA: i64 = -2;

/// That a node fits.
const FITS: i64 = -1;

/// A loop that takes a remote Int; a step without an entry; a branch with such a loop, or with a kept Bool; a loop over Ints,
/// with such a loop in each turn; a value that both sides evaluate.
static REMAINDER: [Make; 12] = [
    Make::Block,
    Make::Loop(&[(0, 1)]),
    Make::Pass(1),
    Make::Block,
    Make::Loop(&[(3, 1)]),
    Make::Block,
    Make::Bind(4, "", 2),
    Make::Branch(2),
    Make::Block,
    Make::Loop(&[(6, 1)]),
    Make::Turns(5, "", 1),
    Make::Both(7, ""),
];

/// A loop over the second input, with a loop that takes a remote Int and a branch in each turn.
static LIST: [Make; 9] = [
    Make::Block,
    Make::Block,
    Make::Loop(&[(6, 1)]),
    Make::Block,
    Make::Loop(&[(3, 1)]),
    Make::Block,
    Make::Bind(4, "", 2),
    Make::Branch(2),
    Make::Over(5, "", "", 1),
];

/// Forests in letters, each with what doesn't fit: a step, or that something is left over. An `i` is an Int, a `t` a Bool,
/// `y` and `n` are branches, `r` rows, digits counts, a point the end of a node without a fault, and the letters from A on
/// are the ends of nodes with a fault at the steps from 0 on.
static ROWS: [(&str, i64); 34] = [
    ("3iy1i.r22ii.2ii..", FITS),
    ("3in1t.r0.", FITS),
    // A fault at each step that demands something, and at those that give no entry.
    ("0A", FITS),
    ("1iB", FITS),
    ("1iC", FITS),
    ("2iy0D.", FITS),
    ("2in0E.", FITS),
    ("2iy1i.F", FITS),
    ("3iy1i.r11iG.", FITS),
    ("3iy1i.r0F", FITS),
    ("3iy1i.r12ii.F", FITS),
    ("3iy1i.r0H", FITS),
    // Steps without an entry, with that of another form, and with a value of another kind.
    ("0.", 0),
    ("0B", 0),
    ("1tB", 0),
    ("1y1i..", 0),
    ("1i.", 2),
    ("2ii.", 2),
    ("2ir0.", 2),
    ("3iy0.r0.", 3),
    ("3in1i.r0.", 4),
    ("2iy1i..", 5),
    ("3iy1i.i.", 5),
    // Turns that don't begin with their row, and one without its value.
    ("3iy1i.r10G.", 5),
    ("3iy1i.r12ti..", 5),
    ("3iy1i.r11i..", 6),
    // Something left over: within a branch, within a turn, behind the last step.
    ("3iy2ii.r0.", EXTRA),
    ("3iy1i.r13iii..", EXTRA),
    ("4iy1i.r0i.", EXTRA),
    // A fault at a step that has its entry, and what stands behind a fault: an entry, a fault, a turn.
    ("3iy1i.r0A", EXTRA),
    ("3iy0Dr0.", EXTRA),
    ("2iy0DC", EXTRA),
    ("3iy1i.r21iG2ii..", EXTRA),
    // What is left over within a branch doesn't hide the step that finds nothing.
    ("2iy2ii..", 5),
];

/// Forests of a loop over a list with two items, in letters.
static LISTS: [(&str, i64); 16] = [
    // As many turns as items, and a fault in the last of them.
    ("1r22iy1i..2in1t...", FITS),
    ("1r22iy1i..0G.", FITS),
    // Fewer turns, where a fault stands behind them, or ends the last: its own, or one within its last entry.
    ("0F", FITS),
    ("1r0F", FITS),
    ("1r12iy1i..F", FITS),
    ("1r10G.", FITS),
    ("1r12iy0D..", FITS),
    // Other numbers of turns, and as many before a fault.
    ("0.", 5),
    ("1r0.", 5),
    ("1r12iy1i...", 5),
    ("1r32iy1i..2iy1i..2iy1i...", 5),
    ("1r22iy1i..2iy1i..F", 5),
    // Another number comes before a turn without its value.
    ("1r12ty1i...", 5),
    ("1r22ty1i..2iy1i...", 6),
    // A turn behind a fault, and something left over in a turn.
    ("1r20G2iy1i...", EXTRA),
    ("1r22iy2ii..2iy1i...", EXTRA),
];

/// Forests of such a loop where nothing is told of the list's length.
static UNTOLD: [(&str, i64); 3] = [("1r0.", FITS), ("1r0F", 5), ("1r12iy1i...", 5)];

/// What the letters stand for, in hexadecimal digits.
static LETTERS: [(u8, &str); 19] = [
    (b'i', "31 01 0000000000000007"),
    (b't', "31 02 01"),
    (b'y', "32 01"),
    (b'n', "32 00"),
    (b'r', "33"),
    (b'0', "00000000"),
    (b'1', "00000001"),
    (b'2', "00000002"),
    (b'3', "00000003"),
    (b'4', "00000004"),
    (b'.', "00"),
    (b'A', "01 00000000 00000000 07"),
    (b'B', "01 00000001 00000000 07"),
    (b'C', "01 00000002 00000000 07"),
    (b'D', "01 00000003 00000000 07"),
    (b'E', "01 00000004 00000000 07"),
    (b'F', "01 00000005 00000000 07"),
    (b'G', "01 00000006 00000000 07"),
    (b'H', "01 00000007 00000000 07"),
];

fn spelling(letter: u8) -> &'static str {
    for (own, digits) in &LETTERS {
        if *own == letter {
            return digits;
        }
    }
    ""
}

/// The payload of a forest in letters.
fn payload_of(alloc: Global, letters: &str) -> Result<Vec<u8>, AllocError> {
    let mut payload = Vec::new(alloc);
    payload.push(1)?;
    for letter in letters.as_bytes() {
        add_bytes(&mut payload, spelling(*letter), 0)?;
    }
    Ok(payload)
}

/// What doesn't fit.
fn told(fit: Result<(), Misfit>) -> i64 {
    match fit {
        Ok(()) => FITS,
        Err(Misfit::At(step)) => i64::from(step),
        Err(Misfit::Extra) => EXTRA,
    }
}

/// What doesn't fit of a forest in its bytes.
fn scanned(parts: &Seq<Part>, lengths: &[u32], payload: &[u8]) -> i64 {
    match scan_forest(payload) {
        Ok(forest) => told(forest.fits(parts, lengths)),
        Err(_) => DISPUTED,
    }
}

/// What doesn't fit of a forest. It is the same as a tree, in its bytes, and in its bytes of version 2.
fn misfit(alloc: Global, parts: &Seq<Part>, lengths: &[u32], payload: &[u8]) -> Result<i64, Fail> {
    match &decode_forest(alloc, payload) {
        Ok(root) => {
            let mut other = BytesMut::new(alloc);
            encode_forest(root, Version::Two, &mut other)?;
            let fit = told(fits(root, parts, lengths));
            let same = scanned(parts, lengths, payload) == fit
                && scanned(parts, lengths, other.as_slice()) == fit;
            Ok(if same { fit } else { DISPUTED })
        }
        Err(stop) => Err(Fail::new(format_args!("{stop}"))),
    }
}

/// Fails unless of each forest that doesn't fit which stands beside it.
fn misfits_are(
    alloc: Global,
    parts: &Seq<Part>,
    lengths: &[u32],
    rows: &[(&str, i64)],
) -> Result<(), Fail> {
    for (letters, unfit) in rows {
        let payload = payload_of(alloc, letters)?;
        let found = misfit(alloc, parts, lengths, payload.as_slice())?;
        if found != *unfit {
            return Err(Fail::new(format_args!("{found} in place of {unfit}, of {letters}")));
        }
    }
    Ok(())
}

/// The same of a remainder that is made so.
fn made_misfits_are(
    alloc: Global,
    makes: &[Make],
    lengths: &[u32],
    rows: &[(&str, i64)],
) -> Result<(), Fail> {
    let parts = remainder(alloc, makes)?;
    misfits_are(alloc, &parts, lengths, rows)
}

#[test]
fn the_first_misfit_is_answered(rt: HostRuntime) -> Result<(), Fail> {
    made_misfits_are(rt.alloc(), &REMAINDER, &[], &ROWS)?;
    made_misfits_are(rt.alloc(), &LIST, &[7, 2], &LISTS)?;
    made_misfits_are(rt.alloc(), &LIST, &[7], &UNTOLD)
}
