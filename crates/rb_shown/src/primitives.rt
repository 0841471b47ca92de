// Numbers, truth values, texts and references to objects as literals.

ghost use Rattle.std.specs.Prelude.{◌++◌, codes};
ghost use Rattle.std.specs.Fmt.{decimal, signed_decimal};
ghost use Rattle.rb_trees.specs.printing.Words.{escaped};
ghost use Rattle.rb_meaning_code.specs.Operators.{bool_text};
ghost use Rattle.rb_meaning.specs.Shown.{text_literal};
ghost use Rattle.rb_shown.specs.Appends.{Appends};

use rb_trees::{Memory, Word};
use std::alloc::Global;

/// Adds a number in decimal.
pub fn add_number(alloc: Global, number: u64, into: &mut Word) -> Result<(), Memory>
    ensures { Appends (decimal number) into.old result into.new }
{
    let digits = format!(in alloc; "{number}")?;
    into.extend_from_slice(digits.as_bytes())
}

/// Adds an Int in decimal, with a `-` where it is below 0.
pub fn add_int(alloc: Global, number: i64, into: &mut Word) -> Result<(), Memory>
    ensures { Appends (signed_decimal number) into.old result into.new }
{
    let digits = format!(in alloc; "{number}")?;
    into.extend_from_slice(digits.as_bytes())
}

/// Adds a Bool.
pub fn add_bool(truth: bool, into: &mut Word) -> Result<(), Memory>
    ensures { Appends (bool_text truth) into.old result into.new }
{
    if truth {
        into.extend_from_slice(b"true")
    } else {
        into.extend_from_slice(b"false")
    }
}

// Adds a byte of a text as a literal has it.
fn add_escaped(byte: u8, into: &mut Word) -> Result<(), Memory>
    ensures { Appends (escaped byte) into.old result into.new }
{
    match byte {
        b'\n' => into.extend_from_slice(b"\\n"),
        b'"' => into.extend_from_slice(b"\\\""),
        b'\\' => into.extend_from_slice(b"\\\\"),
        other => into.push(other),
    }
}

/// Adds a text in quotes. A line feed, a quote and a backslash are escaped.
#[tactic(auto, using(crate::proofs::Pieces::pieces))]
pub fn add_text(text: &[u8], into: &mut Word) -> Result<(), Memory>
    ensures { Appends (text_literal text.now) into.old result into.new }
{
    into.push(b'"')?;
    for byte in text {
        add_escaped(*byte, into)?;
    }
    into.push(b'"')
}

/// Adds an object by its number.
#[tactic(auto, using(crate::proofs::Pieces::pieces))]
pub fn add_reference(alloc: Global, object: u32, into: &mut Word) -> Result<(), Memory>
    ensures { Appends (codes "#" ++ decimal object) into.old result into.new }
{
    into.push(b'#')?;
    add_number(alloc, u64::from(object), into)
}
