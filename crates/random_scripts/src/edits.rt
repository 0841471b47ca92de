// Payloads with another byte.

use crate::random::Random;
use rb_trees::Memory;
use std::alloc::Global;

/// What is done to a payload, at a random place.
#[derive(Clone, Copy)]
pub enum Edit {
    /// A byte becomes another one.
    Change,
    /// A byte goes.
    TakeOut,
    /// A byte comes, in front of another one or at the end.
    PutIn,
}

/// The payload after an edit.
pub fn edited(
    alloc: Global,
    payload: &[u8],
    edit: Edit,
    random: &mut Random,
) -> Result<Vec<u8>, Memory> {
    match edit {
        Edit::Change => changed(alloc, payload, random),
        Edit::TakeOut => taken_out(alloc, payload, random),
        Edit::PutIn => put_in(alloc, payload, random),
    }
}

/// Another byte: as often one of the two next to it.
fn another(byte: u8, random: &mut Random) -> u8 {
    if random.coin() {
        return byte.wrapping_add((1 + random.below(255)) as u8);
    }
    if random.coin() {
        byte.wrapping_add(1)
    } else {
        byte.wrapping_sub(1)
    }
}

/// The bytes of three pieces.
fn joined(alloc: Global, front: &[u8], middle: &[u8], back: &[u8]) -> Result<Vec<u8>, Memory> {
    let mut bytes = Vec::from_slice(alloc, front)?;
    bytes.extend_from_slice(middle)?;
    bytes.extend_from_slice(back)?;
    Ok(bytes)
}

/// The payload parted in front of a byte, if it has one.
fn parted<'a>(payload: &'a [u8], random: &mut Random) -> (&'a [u8], &'a [u8]) {
    if payload.is_empty() {
        return (payload, payload);
    }
    payload.split_at(random.below(payload.len()))
}

fn changed(alloc: Global, payload: &[u8], random: &mut Random) -> Result<Vec<u8>, Memory> {
    let (front, back) = parted(payload, random);
    match back.split_first() {
        Some((first, rest)) => {
            let byte = another(*first, random);
            joined(alloc, front, &[byte], rest)
        }
        None => joined(alloc, front, back, back),
    }
}

fn taken_out(alloc: Global, payload: &[u8], random: &mut Random) -> Result<Vec<u8>, Memory> {
    let (front, back) = parted(payload, random);
    match back.split_first() {
        Some((_first, rest)) => joined(alloc, front, rest, &[]),
        None => joined(alloc, front, back, back),
    }
}

fn put_in(alloc: Global, payload: &[u8], random: &mut Random) -> Result<Vec<u8>, Memory> {
    let (front, back) = payload.split_at(random.below(payload.len() + 1));
    joined(alloc, front, &[random.byte()], back)
}
