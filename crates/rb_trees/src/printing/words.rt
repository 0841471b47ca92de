// The text of numbers and literals.

ghost use Rattle.std.specs.Prelude.{◌≡◌, [], ◌∷◌, ◌++◌, OnOk};
ghost use Rattle.rb_trees.specs.printing.Pieces.{Adds};
ghost use Rattle.rb_trees.specs.printing.Words.{number_piece, int_pieces, bool_piece, escaped, text_piece, literal_pieces};

use crate::sequence::Word;
use crate::values::Value;
use crate::want::Memory;
use std::alloc::Global;

/// Adds a number in decimal.
pub fn print_number(alloc: Global, number: u64, into: &mut Word) -> Result<(), Memory>
    ensures { Adds (number_piece number ∷ []) into.old result into.new }
{
    let digits = format!(in alloc; "{number}")?;
    into.extend_from_slice(digits.as_bytes())
}

// Adds an Int. The least one stands without a sign.
#[tactic(auto, using(crate::proofs::printed::Words::words))]
fn print_int(alloc: Global, number: i64, into: &mut Word) -> Result<(), Memory>
    ensures { Adds (int_pieces number) into.old result into.new }
{
    if number < 0 && number != i64::MIN {
        into.extend_from_slice(b"-")?;
    }
    print_number(alloc, number.unsigned_abs(), into)
}

fn print_bool(truth: bool, into: &mut Word) -> Result<(), Memory>
    ensures { Adds (bool_piece truth ∷ []) into.old result into.new }
{
    if truth {
        into.extend_from_slice(b"true")
    } else {
        into.extend_from_slice(b"false")
    }
}

// Adds a byte of a text as a literal has it.
fn print_escaped(byte: u8, into: &mut Word) -> Result<(), Memory>
    ensures { OnOk result (into.new ≡ into.old ++ escaped byte) }
{
    match byte {
        b'\n' => into.extend_from_slice(b"\\n"),
        b'"' => into.extend_from_slice(b"\\\""),
        b'\\' => into.extend_from_slice(b"\\\\"),
        other => into.push(other),
    }
}

#[tactic(auto, using(crate::proofs::printed::Words::words))]
fn print_text(text: &[u8], into: &mut Word) -> Result<(), Memory>
    ensures { Adds (text_piece text.now ∷ []) into.old result into.new }
{
    into.push(b'"')?;
    for byte in text {
        print_escaped(*byte, into)?;
    }
    into.push(b'"')
}

/// Adds a literal. Values without a literal add nothing.
#[tactic(auto, using(crate::proofs::printed::Words::literals))]
pub fn print_literal(alloc: Global, value: &Value, into: &mut Word) -> Result<(), Memory>
    ensures { Adds (literal_pieces value.now) into.old result into.new }
{
    match value {
        Value::Int(number) => print_int(alloc, *number, into),
        Value::Bool(truth) => print_bool(*truth, into),
        Value::Text(text) => print_text(text.get().as_slice(), into),
        Value::Unit | Value::List(_) | Value::Ref(_) | Value::Remote(_) | Value::Rows(_) => Ok(()),
    }
}
