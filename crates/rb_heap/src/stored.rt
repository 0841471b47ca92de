// An object as a heap keeps it.

ghost use Rattle.std.specs.Prelude.{◌≡◌, IfOk};

use crate::values::SharedValues;
use rb_trees::{Memory, Seq};
use std::alloc::Global;

/// The place of an object's layout, and its values in the layout's order.
#[derive(Drop)]
pub(crate) struct Stored {
    pub(crate) layout: usize,
    pub(crate) values: SharedValues,
}

// A copy of what is kept: the same place, and the same values with one owner more.
fn copy_stored(stored: &Stored) -> Result<Stored, Memory>
    ensures { IfOk result (λ copy. copy ≡ stored.now) }
{
    Ok(Stored {
        layout: stored.layout,
        values: stored.values.share()?,
    })
}

/// A copy of a list of them: the same in order, with shared values.
pub(crate) fn copy_objects(alloc: Global, objects: &[Stored]) -> Result<Seq<Stored>, Memory>
    ensures { IfOk result (λ copies. copies ≡ objects.now) }
{
    let mut copies = Seq::new(alloc);
    for stored in objects {
        copies.push(copy_stored(stored)?)?;
    }
    Ok(copies)
}
