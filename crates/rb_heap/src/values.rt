// The values of an object, which copies of a heap share.

ghost use Rattle.std.specs.Prelude.{◌≡◌, slice_get, slice_set, IfOk};
ghost use Rattle.rb_heap.specs.Writes.{Writes};

use crate::stops::SetStop;
use rb_trees::{Memory, Seq, Value, copy_values};
use std::alloc::Global;
use std::marker::Model;
use std::rc::Rc;

/// The values of an object, in the order of its layout. Copies of a heap share them: one that is written gets a list of
/// its own first. Contracts see the list.
#[derive(Drop)]
pub(crate) struct SharedValues {
    inner: Rc<Seq<Value>>,
}

impl Model for SharedValues {
    ghost use Rattle.std.specs.Prelude.{List};
    ghost use Rattle.std.specs.Coded.{coded_list};
    ghost use Rattle.rb_trees.specs.contracts.values.Value as value_code;
    ghost use Rattle.rb_trees.specs.declared.values.Value as values;

    ghost Value = { List values.Value };

    ghost coded = { coded_list value_code.the_row.coded };

    ghost view = { λ shared. shared.inner.value };
}

impl SharedValues {
    /// Puts a list where it can be shared.
    pub(crate) fn of(alloc: Global, values: Seq<Value>) -> Result<SharedValues, Memory>
        ensures { IfOk result (λ shared. shared ≡ values) }
    {
        Ok(SharedValues {
            inner: Rc::new(alloc, values)?,
        })
    }

    /// The list.
    pub(crate) fn list(&self) -> &Seq<Value>
        ensures { result.now ≡ self.now }
    {
        self.inner.as_ref()
    }

    /// The same list with one owner more. It takes no memory; an error comes only where the count of owners is at its
    /// end.
    pub(crate) fn share(&self) -> Result<SharedValues, Memory>
        ensures { IfOk result (λ shared. shared ≡ self.now) }
    {
        Ok(SharedValues {
            inner: self.inner.clone()?,
        })
    }

    /// Puts another value at a place. A list that has another owner is copied first.
    pub(crate) fn set(&mut self, alloc: Global, place: usize, value: Value) -> Result<(), SetStop>
        ensures { Writes (slice_get self.old place) self.old (slice_set self.old place value) value result self.new }
    {
        match Rc::get_mut(&mut self.inner) {
            Some(values) => put(values, place, value),
            None => self.set_in_copy(alloc, place, value),
        }
    }

    // The same in a copy of the list, which the other owners don't see.
    fn set_in_copy(&mut self, alloc: Global, place: usize, value: Value) -> Result<(), SetStop>
        ensures { Writes (slice_get self.old place) self.old (slice_set self.old place value) value result self.new }
    {
        let shared = self.list();
        if shared.get(place).is_none() {
            return Err(SetStop::Missing(value));
        }
        let mut copy = copy_values(alloc, shared.as_slice())?;
        put(&mut copy, place, value)?;
        *self = SharedValues::of(alloc, copy)?;
        Ok(())
    }
}

// Puts another value at a place.
fn put(values: &mut Seq<Value>, place: usize, value: Value) -> Result<(), SetStop>
    ensures { Writes (slice_get values.old place) values.old (slice_set values.old place value) value result values.new }
{
    match values.get_mut(place) {
        Some(found) => {
            *found = value;
            Ok(())
        }
        None => Err(SetStop::Missing(value)),
    }
}
