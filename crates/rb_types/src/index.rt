// The types of expressions by their positions.

ghost use Rattle.std.specs.Prelude.{◌≡◌, ℕ, nat_eq, IfOk, OnOk};
ghost use Rattle.std.specs.HashMap.{get};
ghost use Rattle.rb_meaning_types.specs.Kinds.{kind_of_form};
ghost use Rattle.rb_meaning_types.specs.Notes.{note_at};
ghost use Rattle.rb_types.specs.Given.{kind_given, Adds};
ghost use Rattle.rb_types.specs.Views.{notes_of};

use crate::kinds::Placed;
use rb_trees::{Memory, Seq, TypeForm};
use std::alloc::Global;
use std::collections::HashMap;

fn insert(index: &mut HashMap<u32, TypeForm>, p: Placed) -> Result<(), Memory>
    ensures { OnOk result (Adds p.at (kind_of_form p.kind) (get nat_eq index.old) (get nat_eq index.new)) }
{
    let Placed { at, kind } = p;
    let _before = index.insert(at, kind)?;
    Ok(())
}

/// The first type that was noted at each position.
pub fn index_notes(alloc: Global, notes: Seq<Placed>) -> Result<HashMap<u32, TypeForm>, Memory>
    ensures { IfOk result (λ index. (at : ℕ) → kind_given (get nat_eq index at) ≡ note_at (notes_of notes) at None) }
{
    let mut rest = notes.into_vec();
    let mut index = HashMap::new(alloc);
    while let Some(last) = rest.pop() {
        insert(&mut index, last)?;
    }
    Ok(index)
}
