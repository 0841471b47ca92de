// The names and the values of an object's fields.

ghost use Rattle.std.specs.Prelude.{◌≡◌, ◌↔◌, IsTrue, IfOk};
ghost use Rattle.rb_heap.specs.Seen.{names_of, values_of};

use rb_trees::{Memory, Seq, Value, Word, copy_word};
use std::alloc::Global;

/// A copy of names: the same in order.
pub(crate) fn copy_names(alloc: Global, names: &[Word]) -> Result<Seq<Word>, Memory>
    ensures { IfOk result (λ copies. copies ≡ names.now) }
{
    let mut copies = Seq::new(alloc);
    for name in names {
        copies.push(copy_word(alloc, name)?)?;
    }
    Ok(copies)
}

/// A copy of the names of fields.
pub(crate) fn copy_names_of(alloc: Global, fields: &[(Word, Value)]) -> Result<Seq<Word>, Memory>
    ensures { IfOk result (λ names. names ≡ names_of fields.now) }
{
    let mut names = Seq::new(alloc);
    for field in fields {
        names.push(copy_word(alloc, &field.0)?)?;
    }
    Ok(names)
}

/// Whether names are those of fields, in order.
pub(crate) fn are_names_of(names: &[Word], fields: &[(Word, Value)]) -> bool
    ensures { IsTrue result ↔ (names.now ≡ names_of fields.now) }
{
    if names.len() != fields.len() {
        return false;
    }
    for (place, field) in fields.iter().enumerate() {
        match names.get(place) {
            Some(name) => if name.as_slice() != field.0.as_slice() {
                return false;
            },
            None => return false,
        }
    }
    true
}

/// The values of fields, whose names are let go.
pub(crate) fn values_of(alloc: Global, fields: Seq<(Word, Value)>) -> Result<Seq<Value>, Memory>
    ensures { IfOk result (λ values. values ≡ values_of fields) }
{
    let mut values = Seq::new(alloc);
    for (_name, value) in fields.into_vec() {
        values.push(value)?;
    }
    Ok(values)
}
