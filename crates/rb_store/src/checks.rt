// The first refusal of the objects of a text.
#![tactic(auto, using(crate::proofs::Rules::rules))]

ghost use Rattle.std.specs.Prelude.{◌≡◌, ◌≤◌, map, length, IfErr};
ghost use Rattle.rb_trees.specs.Limits.{most_objects};
ghost use Rattle.rb_trees.specs.mirror.Declarations.{mirror_param, mirror_class};
ghost use Rattle.rb_trees.specs.mirror.Services.{mirror_literal, mirror_object, mirror_service_text};
ghost use Rattle.rb_meaning_types.specs.Kinds.{kind_of_form};
ghost use Rattle.rb_meaning_types.specs.Stores as stores;
ghost use Rattle.rb_store.specs.Views.{HoldsNoMemory, Passes, objects_of, written_fields};

use crate::indexed::IndexedText;
use crate::kinds::is_of_kind;
use crate::references::refers_well;
use rb_names::same_name;
use rb_trees::{Class, Literal, ObjectText, Param, Seq, StoreError, TypeError, TypeForm, Word};

fn check_literal(
    text: &IndexedText,
    place: u32,
    kind: &TypeForm,
    literal: &Literal,
) -> Result<(), StoreError>
    ensures gives { Passes result (stores.check_literal (objects_of text.now) place (kind_of_form kind.now) (mirror_literal literal.now)) }
    ensures apart { IfErr result HoldsNoMemory }
{
    if !is_of_kind(text, kind, literal) {
        return Err(StoreError::FieldKind(place));
    }
    if !refers_well(text, literal) {
        return Err(StoreError::BadReference(place));
    }
    Ok(())
}

fn check_literals(
    text: &IndexedText,
    place: u32,
    params: &[Param],
    fields: &[(Word, Literal)],
) -> Result<(), StoreError>
    ensures gives { let params = map mirror_param params.now in
        Passes result (stores.check_literals (objects_of text.now) place params (written_fields fields.now)) }
    ensures apart { IfErr result HoldsNoMemory }
{
    let mut rest = fields;
    for param in params {
        let Some((field, more)) = rest.split_first() else {
            return Ok(());
        };
        check_literal(text, place, &param.kind.form, &field.1)?;
        rest = more;
    }
    Ok(())
}

fn has_fields(params: &[Param], fields: &[(Word, Literal)]) -> bool
    ensures { result ≡ stores.has_fields (map mirror_param params.now) (written_fields fields.now) }
{
    let mut rest = fields;
    for param in params {
        let Some((field, more)) = rest.split_first() else {
            return false;
        };
        if !same_name(&param.name, &field.0) {
            return false;
        }
        rest = more;
    }
    rest.is_empty()
}

fn check_fields(
    text: &IndexedText,
    place: u32,
    class: &Class,
    fields: &Seq<(Word, Literal)>,
) -> Result<(), StoreError>
    ensures gives { Passes result (stores.check_fields (objects_of text.now) place (mirror_class class.now) (written_fields fields.now)) }
    ensures apart { IfErr result HoldsNoMemory }
{
    let params = class.fields.as_slice();
    if !has_fields(params, fields.as_slice()) {
        return Err(StoreError::FieldMissing(place));
    }
    check_literals(text, place, params, fields.as_slice())
}

fn check_object(text: &IndexedText, place: u32, object: &ObjectText) -> Result<(), StoreError>
    ensures gives { Passes result (stores.check_object (mirror_service_text text.now) place (mirror_object object.now)) }
    ensures apart { IfErr result HoldsNoMemory }
{
    if object.number != place as u64 {
        return Err(StoreError::ObjectNumber(place));
    }
    match text.find_class(&object.class) {
        Some(class) => check_fields(text, place, class, &object.fields),
        None => Err(StoreError::Types(TypeError::UnknownName(object.at))),
    }
}

fn check_objects(text: &IndexedText, objects: &[ObjectText]) -> Result<(), StoreError>
    requires { length objects.now ≤ most_objects }
    ensures gives { Passes result (stores.check_objects (mirror_service_text text.now) 0 (map mirror_object objects.now)) }
    ensures apart { IfErr result HoldsNoMemory }
{
    let mut place: u32 = 0;
    for object in objects {
        check_object(text, place, object)?;
        place += 1;
    }
    Ok(())
}

/// The objects of a text in order, and then its root: Ok, or the first refusal. The rule stands in `check_table`.
pub fn check_table(text: &IndexedText) -> Result<(), StoreError>
    requires { length text.now.objects ≤ most_objects }
    ensures gives { Passes result (stores.check_table (mirror_service_text text.now)) }
    ensures apart { IfErr result HoldsNoMemory }
{
    check_objects(text, text.get().objects.as_slice())?;
    if text.find_written(text.get().root).is_none() {
        return Err(StoreError::NoRoot);
    }
    Ok(())
}
