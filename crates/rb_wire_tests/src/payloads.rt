// What is told of payloads, row by row.

use crate::digits::{Pieces, add_pieces, bytes_of};
use crate::forest::{forests, refusals};
use crate::script::scripts;
use std::alloc::Global;
use std::mem::replace;
use std::test::Fail;

/// What payloads are read as.
#[derive(Clone, Copy)]
pub enum Reader {
    Script,
    Forest,
    Refusal,
}

/// What is told of a payload: the number and the place of its refusal or of its first violation. The number is 0 where
/// the payload is taken. Of a payload that is read as a refusal it is the refusal that it spells, (0, 0) where there is
/// none.
pub type Told = (u32, u64);

/// What is told of a payload that is taken, and is the spelling of what it is taken for.
pub const TAKEN: Told = (0, 0);

/// What is told of a payload that is taken, and is another spelling than that of what it is taken for.
pub const OTHER: Told = (0, 1);

/// What is told of a payload of which two tell different things.
pub const DISPUTED: Told = (0, 2);

/// A payload's digits, and what is told of it.
pub type Row = (&'static str, u32, u64);

/// A payload's pieces, and what is told of it.
pub type LongRow = (Pieces<'static>, u32, u64);

/// What is told of a payload that is read so.
fn told(alloc: Global, reader: Reader, payload: &[u8]) -> Result<Told, Fail> {
    match reader {
        Reader::Script => scripts::told(alloc, payload),
        Reader::Forest => forests::told(alloc, payload),
        Reader::Refusal => refusals::told(alloc, payload),
    }
}

/// Fails unless what is told of a payload is what is wanted.
fn expect(digits: &str, told: Told, wanted: Told) -> Result<(), Fail> {
    if told == wanted {
        return Ok(());
    }
    Err(Fail::new(format_args!(
        "{}, {} in place of {}, {} of {digits}",
        told.0, told.1, wanted.0, wanted.1
    )))
}

/// Fails unless of each row's payload is told what stands there.
pub fn rows_are_told(alloc: Global, reader: Reader, rows: &[Row]) -> Result<(), Fail> {
    for (digits, number, at) in rows {
        let payload = bytes_of(alloc, digits)?;
        expect(
            digits,
            told(alloc, reader, payload.as_slice())?,
            (*number, *at),
        )?;
    }
    Ok(())
}

/// The digits of the second of pieces, which is the one that stands there many times.
fn repeated(pieces: Pieces<'static>) -> &'static str {
    match pieces.get(1) {
        Some((digits, _)) => digits,
        None => "",
    }
}

/// The same of rows with pieces.
pub fn long_rows_are_told(alloc: Global, reader: Reader, rows: &[LongRow]) -> Result<(), Fail> {
    let mut payload = Vec::new(alloc);
    for (pieces, number, at) in rows {
        payload.clear();
        add_pieces(&mut payload, pieces)?;
        expect(
            repeated(pieces),
            told(alloc, reader, payload.as_slice())?,
            (*number, *at),
        )?;
    }
    Ok(())
}

/// Fails unless each payload is the spelling of what it is taken for, and is truncated at its own end where it lacks
/// bytes.
pub fn are_spellings(alloc: Global, reader: Reader, rows: &[&str]) -> Result<(), Fail> {
    for digits in rows {
        let payload = bytes_of(alloc, digits)?;
        expect(digits, told(alloc, reader, payload.as_slice())?, TAKEN)?;
        for n in 0..payload.len() {
            expect(digits, told(alloc, reader, &payload[..n])?, (1, n as u64))?;
        }
    }
    Ok(())
}

/// A sum with one more word. It depends on the order of its words.
fn added(sum: u32, word: u32) -> u32 {
    (sum ^ word).wrapping_mul(16_777_619)
}

/// Puts a byte in the place of another one, which is answered.
fn put(bytes: &mut [u8], at: usize, byte: u8) -> u8 {
    match bytes.get_mut(at) {
        Some(place) => replace(place, byte),
        None => byte,
    }
}

/// How many payloads with any byte at any place are taken, and a sum of what is told of all.
fn counted(alloc: Global, reader: Reader, payload: &mut [u8]) -> Result<Told, Fail> {
    let mut taken: u32 = 0;
    let mut sum = 0;
    for at in 0..payload.len() {
        let own = put(payload, at, 0);
        for byte in 0..=255u8 {
            put(payload, at, byte);
            let (number, place) = told(alloc, reader, payload)?;
            if number == 0 {
                taken = taken.saturating_add(1);
            }
            sum = added(added(sum, number), (place % 4_294_967_296) as u32);
        }
        put(payload, at, own);
    }
    Ok((taken, u64::from(sum)))
}

/// Fails unless so many payloads are taken in which one byte is any, with such a sum of what is told of all.
pub fn changes_are_counted(alloc: Global, reader: Reader, rows: &[Row]) -> Result<(), Fail> {
    for (digits, taken, sum) in rows {
        let mut payload = bytes_of(alloc, digits)?;
        expect(
            digits,
            counted(alloc, reader, payload.as_mut_slice())?,
            (*taken, *sum),
        )?;
    }
    Ok(())
}
