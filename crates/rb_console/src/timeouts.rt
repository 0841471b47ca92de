// How long the other side of a connection may be silent.

use rb_trees::Memory;
use std::env;
use std::env::VarError;
use std::rt::Env;
use std::time::Duration;

/// The variable of the environment that says for how many seconds.
const NAME: &str = "RBI_TIMEOUT";

/// For how many seconds where it says nothing.
const USUAL: u64 = 60;

/// How long a connection of these words may send nothing, or take nothing: so many seconds as the environment says, or without
/// end where it says 0. Where it says no number, that is told on standard error, and the usual time counts. Its error is want of
/// memory.
///
/// Commands without connections ask for nothing.
pub fn timeout_for<R: Env + Eprint + AllocGlobal>(
    rt: &R,
    words: &[String],
) -> Result<Option<Duration>, Memory> {
    if !has_connections(words) {
        return Ok(None);
    }
    match seconds_asked(rt)? {
        0 => Ok(None),
        seconds => Ok(Some(Duration::from_secs(seconds))),
    }
}

/// Whether a command of these words connects, or is connected to.
fn has_connections(words: &[String]) -> bool {
    match words.first() {
        Some(command) => matches!(command.as_str(), "run" | "serve" | "keep"),
        None => false,
    }
}

/// How many seconds the environment asks for.
fn seconds_asked<R: Env + Eprint + AllocGlobal>(rt: &R) -> Result<u64, Memory> {
    let asked = match env::var(rt, NAME) {
        Ok(text) => seconds_in(text.as_str()),
        Err(VarError::NotPresent) => return Ok(USUAL),
        Err(VarError::NotUnicode) => None,
        Err(VarError::OutOfMemory) => return Err(Memory),
    };
    match asked {
        Some(seconds) => Ok(seconds),
        None => {
            let _ = eprintln!(rt; "rbi: {NAME} is no number of seconds, so it counts as {USUAL}");
            Ok(USUAL)
        }
    }
}

/// The number that a text is, if it is one.
fn seconds_in(text: &str) -> Option<u64> {
    match text.parse::<u64>() {
        Ok(seconds) => Some(seconds),
        Err(_) => None,
    }
}
