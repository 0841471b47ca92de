// Objects of a table.

ghost use Rattle.std.specs.Prelude.{◌≡◌, ◌++◌, codes, IfOk};
ghost use Rattle.std.specs.Fmt.{decimal};
ghost use Rattle.std.specs.List.{zip};
ghost use Rattle.rb_meaning.specs.Shown.{line, literal, shown_fields, shown_object};
ghost use Rattle.rb_shown.specs.Appends.{Appends};

use crate::literals::add_literal;
use crate::primitives::add_number;
use rb_trees::{Memory, Seq, Value, Word};
use std::alloc::Global;

// Adds a field with its value.
#[tactic(auto, using(crate::proofs::Pieces::pieces))]
fn add_field(alloc: Global, name: &Word, value: &Value, into: &mut Word) -> Result<(), Memory>
    ensures { Appends (name.now ++ codes " = " ++ literal value.now ++ codes "; ") into.old result into.new }
{
    into.extend_from_slice(name.as_slice())?;
    into.extend_from_slice(b" = ")?;
    add_literal(alloc, value, into)?;
    into.extend_from_slice(b"; ")
}

// Adds names with their values in order, as long as both last.
#[tactic(auto, using(crate::proofs::Fields::fields))]
fn add_fields(
    alloc: Global,
    names: &[Word],
    values: &[Value],
    into: &mut Word,
) -> Result<(), Memory>
    ensures { Appends (shown_fields (zip names.now values.now)) into.old result into.new }
{
    for (place, name) in names.iter().enumerate() {
        match values.get(place) {
            Some(value) => add_field(alloc, name, value, into)?,
            None => return Ok(()),
        }
    }
    Ok(())
}

// Adds the number and the class that the line of an object begins with.
#[tactic(auto, using(crate::proofs::Pieces::pieces))]
fn add_class(alloc: Global, number: u64, class: &[u8], into: &mut Word) -> Result<(), Memory>
    ensures { Appends (codes "object " ++ decimal number ++ codes ": " ++ class.now ++ codes " { ") into.old result into.new }
{
    into.extend_from_slice(b"object ")?;
    add_number(alloc, number, into)?;
    into.extend_from_slice(b": ")?;
    into.extend_from_slice(class)?;
    into.extend_from_slice(b" { ")
}

/// The line of an object with its number: `shown_object`. The object is one of the class, and its fields are the names with
/// the values in order.
#[tactic(auto, using(crate::proofs::Pieces::pieces))]
pub fn object_line(
    alloc: Global,
    number: u64,
    class: &[u8],
    names: &[Word],
    values: &[Value],
) -> Result<Word, Memory>
    ensures { IfOk result (λ text. text ≡ line (shown_object number (record { class = class.now; fields = zip names.now values.now }))) }
{
    let mut text = Seq::new(alloc);
    add_class(alloc, number, class, &mut text)?;
    add_fields(alloc, names, values, &mut text)?;
    text.extend_from_slice(b"}\n")?;
    Ok(text)
}
