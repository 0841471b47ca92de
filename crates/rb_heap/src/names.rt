// Names with values, found by walking them.

ghost use Rattle.std.specs.Prelude.{◌≡◌, length, position};
ghost use Rattle.std.specs.List.{zip};
ghost use Rattle.std.specs.Option.{option_copied};
ghost use Rattle.std.specs.Str.{bytes_eq};
ghost use Rattle.rb_trees.specs.Named.{lookup};
ghost use Rattle.rb_heap.specs.Writes.{SetsNamed};

use crate::stops::SetStop;
use crate::values::SharedValues;
use rb_trees::{Seq, Value, Word};
use std::alloc::Global;

// The first place of a name among names.
fn place_among(names: &[Word], name: &[u8]) -> Option<usize>
    ensures { result ≡ position (λ n. bytes_eq n name.now) names.now }
{
    names.iter().position(|n| n.as_slice() == name)
}

/// The first value of a name, where the names have the values in order: `lookup`.
#[tactic(auto, using(crate::proofs::Zipped::lookup_zipped))]
pub(crate) fn find_named<'a>(
    names: &[Word],
    values: &'a Seq<Value>,
    name: &[u8],
) -> Option<&'a Value>
    ensures { option_copied result ≡ lookup (zip names.now values.now) name.now }
{
    match place_among(names, name) {
        Some(place) => values.get(place),
        None => None,
    }
}

/// Gives the first of a name another value, where the names have the values in order, or hands the value back where there
/// is no such name.
#[tactic(auto, using(crate::proofs::Zipped::lookup_zipped, crate::proofs::Zipped::replaced_zipped))]
pub(crate) fn replace_named(
    alloc: Global,
    names: &[Word],
    values: &mut SharedValues,
    name: &[u8],
    value: Value,
) -> Result<(), SetStop>
    ensures replaced { SetsNamed (zip names.now values.old) name.now value result (zip names.now values.new) }
    ensures count { length values.new ≡ length values.old }
{
    match place_among(names, name) {
        Some(place) => values.set(alloc, place, value),
        None => Err(SetStop::Missing(value)),
    }
}
