// What is told of an exchange when it has ended.

use crate::batches::Batches;
use crate::entries::add_forest;
use rb_base::{LinkStop, Reply};
use rb_trees::{Memory, Seq, Word};
use rb_wire_forest::decode_refusal;
use std::alloc::Global;
use std::time::Duration;

/// The kind of a reply that is a forest: `forest_kind`.
const FOREST: u8 = 2;

/// The kind of a reply that is a refusal: `refusal_kind`.
const REFUSAL: u8 = 3;

/// The lines that are told of an exchange when it has ended. They have how many bytes came back, and what these are, with the
/// entries of a forest. Last comes how long the exchange took, where that is known.
///
/// A payload that isn't read as its kind demands is told as not decoded. Where there is no reply it is told why.
pub fn answer_text(
    alloc: Global,
    batches: &Batches<'_>,
    answer: &Result<Reply, LinkStop>,
    took: Option<Duration>,
) -> Result<Word, Memory> {
    let mut text = Seq::new(alloc);
    match answer {
        Ok(reply) => add_reply(alloc, batches, reply, &mut text)?,
        Err(stop) => add_stop(alloc, stop, &mut text)?,
    }
    if let Some(took) = took {
        add_time(alloc, took, &mut text)?;
    }
    Ok(text)
}

/// Adds the lines of a reply.
fn add_reply(
    alloc: Global,
    batches: &Batches<'_>,
    reply: &Reply,
    into: &mut Word,
) -> Result<(), Memory> {
    let payload = reply.payload.as_slice();
    let length = payload.len();
    let back = format!(in alloc; "  back    {length} bytes: ")?;
    into.extend_from_slice(back.as_bytes())?;
    match reply.kind {
        FOREST => add_forest(alloc, batches, payload, into),
        REFUSAL => add_refusal(alloc, payload, into),
        _ => into.extend_from_slice(b"not decoded\n"),
    }
}

/// Adds what a refusal is.
fn add_refusal(alloc: Global, payload: &[u8], into: &mut Word) -> Result<(), Memory> {
    match decode_refusal(payload) {
        Some((number, at)) => {
            let refusal = format!(in alloc; "refusal {number} at {at}\n")?;
            into.extend_from_slice(refusal.as_bytes())
        }
        None => into.extend_from_slice(b"not decoded\n"),
    }
}

/// Adds why there is no reply.
fn add_stop(alloc: Global, stop: &LinkStop, into: &mut Word) -> Result<(), Memory> {
    let length = taken(stop);
    let back = format!(in alloc; "  back    {length} bytes: {stop}\n")?;
    into.extend_from_slice(back.as_bytes())
}

/// How many bytes of a reply were taken that is none.
fn taken(stop: &LinkStop) -> usize {
    match stop {
        LinkStop::Frame { bytes, .. } | LinkStop::Cut { bytes, .. } => bytes.len(),
        LinkStop::Failed | LinkStop::Memory => 0,
    }
}

/// Adds how long an exchange took: so many microseconds, and from a second on the seconds with their thousandths.
fn add_time(alloc: Global, took: Duration, into: &mut Word) -> Result<(), Memory> {
    let seconds = took.as_secs();
    let line = if seconds == 0 {
        let micros = took.subsec_micros();
        format!(in alloc; "  took    {micros} µs\n")?
    } else {
        let millis = took.subsec_millis();
        format!(in alloc; "  took    {seconds}.{millis:03} s\n")?
    };
    into.extend_from_slice(line.as_bytes())
}
