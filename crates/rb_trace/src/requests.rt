// What is told of a request before it is sent.

ghost use Rattle.std.specs.Prelude.{◌≤◌, length};
ghost use Rattle.rb_meaning.specs.Answers.{longest_request};

use crate::batches::Batches;
use rb_shown::{add_literal, add_steps};
use rb_trees::{Memory, Script, Seq, Step, Value, Version, Word};
use rb_wire_script::{ScriptStop, decode_script};
use std::alloc::Global;

/// What the payload of a request says: its version, its script, and the values of the script's inputs.
type Sent = (Version, Script, Seq<Value>);

/// The lines that are told of a request before it is sent. The first has the number of the exchange, and the line of its batch
/// in the program's text. Then come the values of the inputs, the steps of the script, and how many bytes the payload has.
///
/// A payload that isn't read as a script is told as not decoded.
pub fn request_text(
    alloc: Global,
    batches: &Batches<'_>,
    number: u64,
    request: &[u8],
) -> Result<Word, Memory>
    requires { length request.now ≤ longest_request }
{
    let mut text = Seq::new(alloc);
    let length = request.len();
    match decode_script(alloc, request) {
        Ok(sent) => add_decoded(alloc, batches, number, length, &sent, &mut text)?,
        Err(ScriptStop::Refused { .. }) => add_undecoded(alloc, number, length, &mut text)?,
        Err(ScriptStop::Memory) => return Err(Memory),
    }
    Ok(text)
}

/// Adds the lines of a request that was decoded.
fn add_decoded(
    alloc: Global,
    batches: &Batches<'_>,
    number: u64,
    length: usize,
    sent: &Sent,
    into: &mut Word,
) -> Result<(), Memory> {
    let (version, script, values) = sent;
    let steps = script.body.as_slice();
    add_head(alloc, number, line_of(batches, steps), into)?;
    add_inputs(alloc, values.as_slice(), into)?;
    add_script(alloc, steps, into)?;
    add_length(alloc, length, into)?;
    into.extend_from_slice(words_of(*version))
}

/// Adds the lines of a request that wasn't decoded.
fn add_undecoded(alloc: Global, number: u64, length: usize, into: &mut Word) -> Result<(), Memory> {
    add_head(alloc, number, None, into)?;
    into.extend_from_slice(b"  script  not decoded\n")?;
    add_length(alloc, length, into)?;
    into.push(b'\n')
}

/// The line of the batch that a script is of: the last one that begins at its first step or before it.
fn line_of(batches: &Batches<'_>, steps: &[Step]) -> Option<usize> {
    match steps.first() {
        Some(step) => batches.line_at(step.at),
        None => None,
    }
}

/// Adds the line of the exchange.
fn add_head(
    alloc: Global,
    number: u64,
    line: Option<usize>,
    into: &mut Word,
) -> Result<(), Memory> {
    let head = match line {
        Some(line) => format!(in alloc; "exchange {number}, batch at line {line}\n")?,
        None => format!(in alloc; "exchange {number}\n")?,
    };
    into.extend_from_slice(head.as_bytes())
}

/// Adds the line of the inputs. Each stands behind its number in the script.
fn add_inputs(alloc: Global, values: &[Value], into: &mut Word) -> Result<(), Memory> {
    into.extend_from_slice(b"  inputs  ")?;
    if values.is_empty() {
        into.extend_from_slice(b"none")?;
    }
    for (number, value) in values.iter().enumerate() {
        add_input(alloc, number, value, into)?;
    }
    into.push(b'\n')
}

/// Adds an input.
fn add_input(alloc: Global, number: usize, value: &Value, into: &mut Word) -> Result<(), Memory> {
    if number > 0 {
        into.extend_from_slice(b", ")?;
    }
    let front = format!(in alloc; "in{number} = ")?;
    into.extend_from_slice(front.as_bytes())?;
    add_literal(alloc, value, into)
}

/// Adds the steps of a script, each on a line of its own.
fn add_script(alloc: Global, steps: &[Step], into: &mut Word) -> Result<(), Memory> {
    if steps.is_empty() {
        return into.extend_from_slice(b"  script  none\n");
    }
    into.extend_from_slice(b"  script\n")?;
    add_steps(alloc, b"    ", steps, into)
}

/// Adds how many bytes are sent.
fn add_length(alloc: Global, length: usize, into: &mut Word) -> Result<(), Memory> {
    let sent = format!(in alloc; "  sent    {length} bytes")?;
    into.extend_from_slice(sent.as_bytes())
}

/// The words of a version.
fn words_of(version: Version) -> &'static [u8] {
    match version {
        Version::One => b" in version 1\n",
        Version::Two => b" in version 2\n",
    }
}
