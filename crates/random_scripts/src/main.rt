//! Reads a thousand random scripts, half of them in each version of the wire, each of them also with a byte changed, with
//! one taken out and with one put in.
//!
//! The payload of a valid script is written form by form, by the random numbers of a fixed seed, so that it is read as a
//! script, whose spelling is the payload. A payload with another byte is refused, or is the spelling of another script. Each
//! line tells, of the scripts so far, how many there were, how many bytes they had, how many payloads were scripts, how many
//! answers were wrong, and a sum of all payloads, scripts and refusals. The last lines tell how often each refusal came.
#![tactic(auto)]

mod answers;
mod edits;
mod message;
mod numbers;
mod random;
mod sum;
mod tally;

use answers::answer_to;
use edits::{Edit, edited};
use message::message;
use random::Random;
use rb_trees::{Memory, Version};
use std::alloc::Global;
use std::io;
use sum::Sum;
use tally::Tally;

/// The seed of the random numbers.
const SEED: u64 = 2009;

/// How many scripts there are for a line.
const LINE: u32 = 100;

/// How many lines there are.
const LINES: u32 = 10;

/// How often a payload is taken with each edit.
const ROUNDS: u32 = 4;

/// The numbers of refusals.
static REFUSALS: [u8; 12] = [1, 2, 3, 4, 5, 6, 7, 8, 11, 12, 13, 15];

fn main(rt: HostRuntime) -> io::Result<()> {
    let mut random = Random::new(SEED);
    let mut tally = Tally::new();
    let mut sum = Sum::new();
    for line in 0..LINES {
        if take_line(rt.alloc(), &mut random, &mut tally, &mut sum).is_err() {
            return Err(io::Error::from(io::ErrorKind::OutOfMemory));
        }
        report(&rt, (line + 1) * LINE, &tally, sum.value())?;
    }
    for number in &REFUSALS {
        let count = tally.count(*number);
        println!(rt; "refusal {number}: {count}")?;
    }
    Ok(())
}

/// Prints what was counted of so many scripts.
fn report<R: Print>(rt: &R, count: u32, tally: &Tally, sum: u32) -> io::Result<()> {
    let (bytes, scripts, wrong) = (tally.bytes(), tally.scripts(), tally.wrong());
    println!(rt; "{count} scripts, {bytes} bytes: {scripts} read, {wrong} wrong, sum {sum}")
}

/// Takes the scripts of a line.
fn take_line(
    alloc: Global,
    random: &mut Random,
    tally: &mut Tally,
    sum: &mut Sum,
) -> Result<(), Memory> {
    for _ in 0..LINE / 2 {
        take(alloc, Version::One, random, tally, sum)?;
        take(alloc, Version::Two, random, tally, sum)?;
    }
    Ok(())
}

/// Takes a script in a version, and its payload with another byte.
fn take(
    alloc: Global,
    version: Version,
    random: &mut Random,
    tally: &mut Tally,
    sum: &mut Sum,
) -> Result<(), Memory> {
    let payload = message(alloc, version, random)?;
    sum.add_bytes(payload.as_slice());
    tally.add_payload(payload.as_slice());
    tally.add_answer(answer_to(alloc, payload.as_slice(), sum)?);
    for _ in 0..ROUNDS {
        take_edits(alloc, payload.as_slice(), random, tally, sum)?;
    }
    Ok(())
}

/// Takes a payload after each of the edits.
fn take_edits(
    alloc: Global,
    payload: &[u8],
    random: &mut Random,
    tally: &mut Tally,
    sum: &mut Sum,
) -> Result<(), Memory> {
    for edit in [Edit::Change, Edit::TakeOut, Edit::PutIn] {
        let other = edited(alloc, payload, edit, random)?;
        tally.add_answer(answer_to(alloc, other.as_slice(), sum)?);
    }
    Ok(())
}
