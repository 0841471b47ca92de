// The table of the objects of a text.
#![tactic(auto, using(crate::proofs::Rules::rules))]

ghost use Rattle.std.specs.Prelude.{◌≡◌, [], ◌∷◌, ◌++◌, ◌<◌, ◌≤◌, ◌^◌, true, map, length, IfOk, OnOk};
ghost use Rattle.rb_trees.specs.Limits.{most_objects};
ghost use Rattle.rb_trees.specs.mirror.Services.{mirror_literal, mirror_object};
ghost use Rattle.rb_meaning_types.specs.Stores as stores;
ghost use Rattle.rb_store.specs.Referred.{is_below, FieldsBelow, ObjectsBelow};
ghost use Rattle.rb_store.specs.Views.{written_fields};

use crate::values::value_of;
use rb_heap::{AddStop, Heap};
use rb_trees::{Literal, Memory, Object, ObjectText, Seq, Value, Word, copy_word};
use std::alloc::Global;

fn field_of(alloc: Global, field: &(Word, Literal)) -> Result<(Word, Value), Memory>
    requires { is_below (2 ^ 32) (mirror_literal field.now.1) ≡ true }
    ensures { IfOk result (λ f. f ≡ (field.now.0, stores.value_of (mirror_literal field.now.1))) }
{
    let name = copy_word(alloc, &field.0)?;
    let value = value_of(alloc, &field.1)?;
    Ok((name, value))
}

fn fields_of(alloc: Global, fields: &[(Word, Literal)]) -> Result<Seq<(Word, Value)>, Memory>
    requires { FieldsBelow (2 ^ 32) (written_fields fields.now) }
    ensures { IfOk result (λ fs. fs ≡ stores.fields_of (written_fields fields.now)) }
{
    let mut values = Seq::new(alloc);
    for field in fields {
        values.push(field_of(alloc, field)?)?;
    }
    Ok(values)
}

fn object_of(alloc: Global, object: &ObjectText) -> Result<Object, Memory>
    requires { FieldsBelow (2 ^ 32) (written_fields object.now.fields) }
    ensures { IfOk result (λ o. o ≡ stores.object_of (mirror_object object.now)) }
{
    let class = copy_word(alloc, &object.class)?;
    let fields = fields_of(alloc, object.fields.as_slice())?;
    Ok(Object { class, fields })
}

fn add(table: &mut Heap, object: Object) -> Result<(), Memory>
    requires { length table.old < most_objects }
    ensures { OnOk result (table.new ≡ table.old ++ object ∷ []) }
{
    match table.add(object) {
        Ok(_number) => Ok(()),
        Err(AddStop::Full(_object)) => unreachable!(),
        Err(AddStop::Memory) => Err(Memory),
    }
}

/// The table of the objects: `table_of`.
pub fn make_table(alloc: Global, objects: &[ObjectText]) -> Result<Heap, Memory>
    requires room { length objects.now ≤ most_objects }
    requires below { ObjectsBelow (2 ^ 32) (map mirror_object objects.now) }
    ensures { IfOk result (λ t. t ≡ stores.table_of (map mirror_object objects.now)) }
{
    let mut table = Heap::make(alloc);
    for object in objects {
        add(&mut table, object_of(alloc, object)?)?;
    }
    Ok(table)
}
