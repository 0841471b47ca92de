// What was counted.

use crate::answers::{SCRIPT, WRONG};

/// Counts of bytes and of answers.
#[derive(Drop)]
pub struct Tally {
    bytes: usize,
    /// The answers of each number.
    numbers: [u32; 16],
}

impl Tally {
    /// Nothing was counted.
    pub fn new() -> Tally {
        Tally {
            bytes: 0,
            numbers: [0; 16],
        }
    }

    /// Counts the bytes of a script.
    pub fn add_payload(&mut self, payload: &[u8]) {
        self.bytes = self.bytes.saturating_add(payload.len());
    }

    /// Counts an answer.
    pub fn add_answer(&mut self, number: u8) {
        let at = (number % 16) as usize;
        self.numbers[at] = self.numbers[at].saturating_add(1);
    }

    /// How many bytes the scripts had.
    pub fn bytes(&self) -> usize {
        self.bytes
    }

    /// How many answers had a number.
    pub fn count(&self, number: u8) -> u32 {
        self.numbers[(number % 16) as usize]
    }

    /// How many payloads were scripts.
    pub fn scripts(&self) -> u32 {
        self.count(SCRIPT)
    }

    /// How many answers mustn't have come.
    pub fn wrong(&self) -> u32 {
        self.count(WRONG)
    }
}
