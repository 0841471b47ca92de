// A text, and what is told of a trouble in it.

use rb_help::{Trouble, explain};
use rb_trees::{Memory, Word};
use std::alloc::Global;

/// A text of a file.
#[derive(Clone, Copy)]
pub struct Text<'a> {
    pub alloc: Global,
    /// The file's name, or nothing where it isn't told.
    pub file: &'a str,
    pub source: &'a str,
}

impl<'a> Text<'a> {
    /// The bytes of the text; some that are no text have a name here.
    pub fn bytes(&self) -> &'a [u8] {
        match self.source {
            "(what cannot be seen)" => b"a \x07\x7f \xff\xe6\x97 x",
            "(EF BB BF main { })" => b"\xef\xbb\xbfmain { }",
            "(EF BB BF root 0;)" => b"\xef\xbb\xbfroot 0;",
            "(FF FE m 0)" => b"\xff\xfem\0",
            _ => self.source.as_bytes(),
        }
    }

    /// What is told of a trouble.
    pub fn tell(&self, trouble: &Trouble<'_>) -> Result<Word, Memory> {
        explain(self.alloc, self.file.as_bytes(), self.bytes(), trouble)
    }

    /// The place of a word: where it first stands, or the first place where it stands nowhere; of `byte 7` it is 7.
    pub fn place(&self, word: &str) -> u32 {
        if let Some(number) = word.strip_prefix("byte ") {
            return number.parse::<u32>().unwrap_or(0);
        }
        match self.source.find(word) {
            Some(at) if at < 1_000_000 => at as u32,
            _ => 0,
        }
    }
}
