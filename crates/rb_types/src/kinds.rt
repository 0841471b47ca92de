// Types as the checker keeps them, and violations by wrong types.

#![tactic(auto, using(crate::proofs::Rules::rules))]

ghost use Rattle.std.specs.Prelude.{◌≡◌, ⊤};
ghost use Rattle.rb_trees.specs.mirror.Types.{mirror_type};
ghost use Rattle.rb_meaning_types.specs.Kinds as kinds;
ghost use Rattle.rb_meaning_types.specs.Kinds.{kind_of_form};
ghost use Rattle.rb_meaning_types.specs.Literals as literals;
ghost use Rattle.rb_meaning_types.specs.Violations as violations;
ghost use Rattle.rb_meaning_types.specs.Violations.{violation_of};
ghost use Rattle.rb_trees.specs.Outcome.{Refuses};
ghost use Rattle.rb_types.specs.Checks.{Passes, Types};
ghost use Rattle.rb_types.specs.Views.{placed_of};

use rb_names::same_name;
use rb_trees::{TypeError, TypeForm, TypeTree, Value, Word, copy_type_form};
use std::alloc::Global;

/// The type of an expression, at the expression's position.
#[derive(Drop)]
pub struct Placed {
    pub at: u32,
    pub kind: TypeForm,
}

pub fn is_int(kind: &TypeForm) -> bool
    ensures { result ≡ kinds.is_int (kind_of_form kind.now) }
{
    match kind {
        TypeForm::Int => true,
        TypeForm::Bool
        | TypeForm::Text
        | TypeForm::Unit
        | TypeForm::Named(_)
        | TypeForm::ListOf(_)
        | TypeForm::RowsOf(_) => false,
    }
}

pub fn is_bool(kind: &TypeForm) -> bool
    ensures { result ≡ kinds.is_bool (kind_of_form kind.now) }
{
    match kind {
        TypeForm::Bool => true,
        TypeForm::Int
        | TypeForm::Text
        | TypeForm::Unit
        | TypeForm::Named(_)
        | TypeForm::ListOf(_)
        | TypeForm::RowsOf(_) => false,
    }
}

pub fn is_text(kind: &TypeForm) -> bool
    ensures { result ≡ kinds.is_text (kind_of_form kind.now) }
{
    match kind {
        TypeForm::Text => true,
        TypeForm::Int
        | TypeForm::Bool
        | TypeForm::Unit
        | TypeForm::Named(_)
        | TypeForm::ListOf(_)
        | TypeForm::RowsOf(_) => false,
    }
}

pub fn is_unit(kind: &TypeForm) -> bool
    ensures { result ≡ kinds.is_unit (kind_of_form kind.now) }
{
    match kind {
        TypeForm::Unit => true,
        TypeForm::Int
        | TypeForm::Bool
        | TypeForm::Text
        | TypeForm::Named(_)
        | TypeForm::ListOf(_)
        | TypeForm::RowsOf(_) => false,
    }
}

pub fn is_list(kind: &TypeForm) -> bool
    ensures { result ≡ kinds.is_list (kind_of_form kind.now) }
{
    match kind {
        TypeForm::ListOf(_) => true,
        TypeForm::Int
        | TypeForm::Bool
        | TypeForm::Text
        | TypeForm::Unit
        | TypeForm::Named(_)
        | TypeForm::RowsOf(_) => false,
    }
}

pub fn is_primitive(kind: &TypeForm) -> bool
    ensures { result ≡ kinds.is_primitive (kind_of_form kind.now) }
{
    match kind {
        TypeForm::Int | TypeForm::Bool | TypeForm::Text => true,
        TypeForm::Unit | TypeForm::Named(_) | TypeForm::ListOf(_) | TypeForm::RowsOf(_) => false,
    }
}

fn is_named(name: &Word, kind: &TypeForm) -> bool
    ensures { result ≡ kinds.is_named name.now (kind_of_form kind.now) }
{
    match kind {
        TypeForm::Named(other) => same_name(name, other),
        TypeForm::Int
        | TypeForm::Bool
        | TypeForm::Text
        | TypeForm::Unit
        | TypeForm::ListOf(_)
        | TypeForm::RowsOf(_) => false,
    }
}

/// Whether two types are the same; where their texts stand counts for nothing.
pub fn same_kind(a: &TypeForm, b: &TypeForm) -> bool
    ensures { result ≡ kinds.same_kind (kind_of_form a.now) (kind_of_form b.now) }
{
    match a {
        TypeForm::Int => is_int(b),
        TypeForm::Bool => is_bool(b),
        TypeForm::Text => is_text(b),
        TypeForm::Unit => is_unit(b),
        TypeForm::Named(name) => is_named(name, b),
        TypeForm::ListOf(item) => match b {
            TypeForm::ListOf(other) => same_kind(&item.get().form, &other.get().form),
            TypeForm::Int
            | TypeForm::Bool
            | TypeForm::Text
            | TypeForm::Unit
            | TypeForm::Named(_)
            | TypeForm::RowsOf(_) => false,
        },
        TypeForm::RowsOf(row) => match b {
            TypeForm::RowsOf(other) => same_kind(&row.get().form, &other.get().form),
            TypeForm::Int
            | TypeForm::Bool
            | TypeForm::Text
            | TypeForm::Unit
            | TypeForm::Named(_)
            | TypeForm::ListOf(_) => false,
        },
    }
}

/// A copy of a type: the same form.
pub fn copy_kind(alloc: Global, kind: &TypeForm) -> Result<TypeForm, TypeError>
    ensures { Types result (Ok (kind_of_form kind.now)) }
{
    Ok(copy_type_form(alloc, kind)?)
}

/// The type that a written type stands for.
pub fn kind_of(alloc: Global, kind: &TypeTree) -> Result<TypeForm, TypeError>
    ensures { Types result (Ok (kinds.kind_of (mirror_type kind.now))) }
{
    Ok(copy_type_form(alloc, &kind.form)?)
}

/// The type of a literal.
pub fn literal_kind(value: &Value) -> TypeForm
    ensures { kind_of_form result ≡ literals.literal_kind value.now }
{
    match value {
        Value::Int(_) => TypeForm::Int,
        Value::Bool(_) => TypeForm::Bool,
        Value::Text(_) => TypeForm::Text,
        Value::Unit | Value::List(_) | Value::Ref(_) | Value::Remote(_) | Value::Rows(_) =>
            TypeForm::Unit,
    }
}

/// The violation of an expression whose type isn't wanted where it stands.
pub fn wrong_type(alloc: Global, p: &Placed) -> TypeError
    ensures { Refuses {Y = ⊤} (violation_of result) (Err (violations.wrong_type (placed_of p.now))) }
{
    match copy_type_form(alloc, &p.kind) {
        Ok(kind) => TypeError::WrongType(p.at, kind),
        Err(want) => TypeError::from(want),
    }
}

/// An expression that has to have one type.
pub fn wanted(alloc: Global, kind: &TypeForm, p: &Placed) -> Result<(), TypeError>
    ensures { Passes result (violations.wanted (kind_of_form kind.now) (placed_of p.now)) }
{
    if same_kind(kind, &p.kind) {
        Ok(())
    } else {
        Err(wrong_type(alloc, p))
    }
}

/// An expression that has to have a written type.
pub fn wanted_tree(alloc: Global, kind: &TypeTree, p: &Placed) -> Result<(), TypeError>
    ensures { Passes result (violations.wanted (kinds.kind_of (mirror_type kind.now)) (placed_of p.now)) }
{
    wanted(alloc, &kind.form, p)
}
