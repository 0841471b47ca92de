// What payloads come to.

use rb_json::{JsonStop, read_request};
use rb_wire_forest::{ForestStop, decode_forest, scan_forest};
use rb_wire_script::{ScriptStop, decode_script};
use std::alloc::Global;
use std::fmt;

/// What a payload comes to.
#[derive(Clone, Copy)]
pub enum Outcome {
    Valid,
    Refused(u8, u64),
    Memory,
    TooLong,
}

impl fmt::Display for Outcome {
    fn fmt<W: fmt::Write>(&self, f: &mut fmt::Formatter<W>) -> fmt::Result {
        match self {
            Outcome::Valid => write!(f, "valid"),
            Outcome::Refused(number, at) => write!(f, "refusal {number} at {at}"),
            Outcome::Memory => write!(f, "out of memory"),
            Outcome::TooLong => write!(f, "too long"),
        }
    }
}

/// What a payload comes to as a script.
pub fn outcome_of(alloc: Global, payload: &[u8]) -> Outcome {
    if payload.len() > 16_777_216 {
        return Outcome::TooLong;
    }
    match decode_script(alloc, payload) {
        Ok(_) => Outcome::Valid,
        Err(ScriptStop::Refused { number, at, .. }) => Outcome::Refused(number, u64::from(at)),
        Err(ScriptStop::Memory) => Outcome::Memory,
    }
}

/// What a payload comes to as a forest, of which no tree is made.
pub fn scanned(payload: &[u8]) -> Outcome {
    match scan_forest(payload) {
        Ok(_) => Outcome::Valid,
        Err(refusal) => Outcome::Refused(refusal.number, refusal.at),
    }
}

/// What a payload comes to as the tree of a forest.
pub fn forest_of(alloc: Global, payload: &[u8]) -> Outcome {
    match decode_forest(alloc, payload) {
        Ok(_) => Outcome::Valid,
        Err(ForestStop::Refused { number, at }) => Outcome::Refused(number, at),
        Err(ForestStop::Memory) => Outcome::Memory,
    }
}

/// Whether bytes are a request in JSON, whose script is then made and let go.
pub fn request_of(alloc: Global, bytes: &[u8]) -> Result<(), JsonStop> {
    match read_request(alloc, bytes) {
        Ok(_) => Ok(()),
        Err(stop) => Err(stop),
    }
}
