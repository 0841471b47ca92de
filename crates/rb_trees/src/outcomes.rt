// How running code ends.

use crate::values::{Fault, Value};

/// A fault of running code, with the position of the node that gave it, and whether it is remote.
#[derive(Drop)]
pub struct Raised {
    pub fault: Fault,
    pub at: u32,
    pub remote: bool,
}

/// How a program ends: by the value of `main`, if it has one, or by a fault at a position.
#[derive(Drop)]
pub enum Ending {
    Done(Option<Value>),
    Faulted(Fault, u32),
}

/// How a run ended, and the number of batches that were begun.
#[derive(Drop)]
pub struct Run {
    pub ending: Ending,
    pub exchanges: u64,
}
