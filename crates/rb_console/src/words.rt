// What a program was started with.

use rb_trees::Memory;
use std::env::VarError;
use std::rt::Env;
use std::{env, io};

/// Whether the environment asks for no colours: NO_COLOR is set, be it empty, or the terminal is a dumb one.
pub fn is_plain<R: Env + AllocGlobal>(rt: &R) -> bool {
    let is_dumb = match env::var(rt, "TERM") {
        Ok(terminal) => terminal.as_str() == "dumb",
        Err(_) => false,
    };
    is_dumb || !matches!(env::var(rt, "NO_COLOR"), Err(VarError::NotPresent))
}

/// The name by which the program was started, and the words behind it. Where one isn't UTF-8 there are none, since no command has
/// such a word. Its error is want of memory.
pub fn words_of<R: Env + AllocGlobal>(rt: &R) -> Result<(String, Vec<String>), Memory> {
    let mut words = Vec::new(rt.alloc());
    let mut program = String::new(rt.alloc());
    match env::args(rt) {
        Ok(mut all) => {
            if let Some(name) = all.next() {
                program = name;
            }
            for word in all {
                words.push(word)?;
            }
            Ok((program, words))
        }
        Err(error) if error.kind() == io::ErrorKind::OutOfMemory => Err(Memory),
        Err(_) => Ok((program, words)),
    }
}
