// A text that is written to its end.

use crate::showing::shown;
use rb_trees::{Memory, Seq, Word};
use std::alloc::Global;

/// Of a longer name so many bytes are shown.
const LONGEST_NAME: usize = 60;

/// What is wrong, and what to do.
#[derive(Clone, Copy)]
pub struct Help {
    pub wrong: &'static [u8],
    pub mend: &'static [u8],
}

/// What is said where no memory was left.
pub const OUT_OF_MEMORY: Help = Help {
    wrong: b"No memory was left.",
    mend: b"Give the program more, or less to do.",
};

/// A text that is written to its end.
#[derive(Drop)]
pub struct Page {
    alloc: Global,
    text: Vec<u8>,
}

/// The front of a name that is shown, and whether it is the whole name.
fn front_of(name: &[u8]) -> (&[u8], bool) {
    match name.get(..LONGEST_NAME) {
        Some(front) if name.len() > LONGEST_NAME => (front, false),
        _ => (name, true),
    }
}

impl Page {
    /// An empty text.
    pub fn new(alloc: Global) -> Page {
        Page {
            alloc,
            text: Vec::new(alloc),
        }
    }

    /// Adds bytes as they are.
    pub fn add(&mut self, bytes: &[u8]) -> Result<(), Memory> {
        self.text.extend_from_slice(bytes)?;
        Ok(())
    }

    /// Adds so many spaces.
    pub fn spaces(&mut self, count: usize) -> Result<(), Memory> {
        for _ in 0..count {
            self.text.push(b' ')?;
        }
        Ok(())
    }

    /// Adds a name or a sign of a text as it is shown. A long one is cut.
    pub fn name(&mut self, name: &[u8]) -> Result<(), Memory> {
        let (front, is_whole) = front_of(name);
        let text = shown(self.alloc, front)?;
        self.text.extend_from_slice(text.as_bytes())?;
        if !is_whole {
            self.text.extend_from_slice(b"...")?;
        }
        Ok(())
    }

    /// Adds a text with the name in place of each `@`, and the number or type in place of each `#`.
    pub fn fill(&mut self, text: &[u8], name: &[u8], number: &[u8]) -> Result<(), Memory> {
        for byte in text {
            match *byte {
                b'@' => self.name(name)?,
                b'#' => self.add(number)?,
                other => self.text.push(other)?,
            }
        }
        Ok(())
    }

    /// Adds a sentence on a line of its own.
    pub fn sentence(&mut self, text: &[u8], name: &[u8], number: &[u8]) -> Result<(), Memory> {
        self.fill(text, name, number)?;
        self.add(b"\n")
    }

    /// Adds a text with the name in place of each `@`, and the number in decimal in place of each `#`.
    pub fn fill_of(&mut self, text: &[u8], name: &[u8], number: u64) -> Result<(), Memory> {
        let digits = format!(in self.alloc; "{number}")?;
        self.fill(text, name, digits.as_bytes())
    }

    /// Adds a sentence with a number on a line of its own.
    pub fn sentence_of(&mut self, text: &[u8], name: &[u8], number: u64) -> Result<(), Memory> {
        self.fill_of(text, name, number)?;
        self.add(b"\n")
    }

    /// Adds what is wrong and what to do, of a name and a number or type.
    pub fn say(&mut self, help: &Help, name: &[u8], number: &[u8]) -> Result<(), Memory> {
        self.sentence(help.wrong, name, number)?;
        self.sentence(help.mend, name, number)
    }

    /// The same of a number.
    pub fn say_number(&mut self, help: &Help, name: &[u8], number: u64) -> Result<(), Memory> {
        self.sentence_of(help.wrong, name, number)?;
        self.sentence_of(help.mend, name, number)
    }

    /// The same of a name alone.
    pub fn say_name(&mut self, help: &Help, name: &[u8]) -> Result<(), Memory> {
        self.say(help, name, b"")
    }

    /// The same of nothing.
    pub fn say_plain(&mut self, help: &Help) -> Result<(), Memory> {
        self.say(help, b"", b"")
    }

    /// The text.
    pub fn into_word(self) -> Word {
        let Page { alloc: _, text } = self;
        Seq::from_vec(text)
    }
}
