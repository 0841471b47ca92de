// Which type may stand where.

#![tactic(auto, using(crate::proofs::Rules::rules))]

ghost use Rattle.std.specs.Prelude.{◌≡◌};
ghost use Rattle.rb_trees.specs.mirror.Types.{mirror_type};
ghost use Rattle.rb_meaning_types.specs.Declared as declared;
ghost use Rattle.rb_meaning_types.specs.Places as places;
ghost use Rattle.rb_meaning_types.specs.Violations.{TypeNotHere};
ghost use Rattle.rb_trees.specs.Outcome.{must};
ghost use Rattle.rb_types.specs.Checks.{Passes};
ghost use Rattle.rb_types.specs.Views.{declarations_of};

use crate::context::Declarations;
use rb_trees::{TypeError, TypeForm, TypeTree, Word};

/// Whether a name is that of an interface.
pub fn is_interface(d: &Declarations, name: &Word) -> bool
    ensures { result ≡ declared.is_interface (declarations_of d.now) name.now }
{
    d.interfaces.find(name).is_some()
}

fn is_class(d: &Declarations, name: &Word) -> bool
    ensures { result ≡ declared.is_class (declarations_of d.now) name.now }
{
    if is_interface(d, name) {
        false
    } else {
        d.classes.find(name).is_some()
    }
}

fn is_declared(d: &Declarations, name: &Word) -> bool
    ensures { result ≡ declared.is_declared (declarations_of d.now) name.now }
{
    if is_interface(d, name) {
        true
    } else {
        d.classes.find(name).is_some()
    }
}

fn declared_type(d: &Declarations, kind: &TypeTree) -> Result<(), TypeError>
    ensures { Passes result (places.declared_type (declarations_of d.now) (mirror_type kind.now)) }
{
    match &kind.form {
        TypeForm::Int | TypeForm::Bool | TypeForm::Text | TypeForm::Unit => Ok(()),
        TypeForm::Named(name) => {
            if is_declared(d, name) {
                Ok(())
            } else {
                Err(TypeError::UnknownName(kind.at))
            }
        }
        TypeForm::ListOf(item) => declared_type(d, item.get()),
        TypeForm::RowsOf(row) => declared_type(d, row.get()),
    }
}

fn value_type(d: &Declarations, kind: &TypeTree) -> Result<(), TypeError>
    ensures { Passes result (places.value_type (declarations_of d.now) (mirror_type kind.now)) }
{
    match &kind.form {
        TypeForm::Int | TypeForm::Bool | TypeForm::Text => Ok(()),
        TypeForm::Unit | TypeForm::RowsOf(_) => Err(TypeError::TypeNotHere(kind.at)),
        TypeForm::Named(name) => {
            if is_class(d, name) {
                Ok(())
            } else {
                Err(TypeError::TypeNotHere(kind.at))
            }
        }
        TypeForm::ListOf(item) => value_type(d, item.get()),
    }
}

fn value_result(d: &Declarations, kind: &TypeTree) -> Result<(), TypeError>
    ensures { Passes result (places.value_result (declarations_of d.now) (mirror_type kind.now)) }
{
    match &kind.form {
        TypeForm::Unit => Ok(()),
        TypeForm::Int | TypeForm::Bool | TypeForm::Text => value_type(d, kind),
        TypeForm::Named(_) | TypeForm::ListOf(_) | TypeForm::RowsOf(_) => value_type(d, kind),
    }
}

fn is_remote_value(d: &Declarations, kind: &TypeTree) -> bool
    ensures { result ≡ places.is_remote_value (declarations_of d.now) (mirror_type kind.now) }
{
    match &kind.form {
        TypeForm::Int | TypeForm::Bool | TypeForm::Text => true,
        TypeForm::Named(name) => is_interface(d, name),
        TypeForm::Unit | TypeForm::ListOf(_) | TypeForm::RowsOf(_) => false,
    }
}

fn is_remote_result(d: &Declarations, kind: &TypeTree) -> bool
    ensures { result ≡ places.is_remote_result (declarations_of d.now) (mirror_type kind.now) }
{
    match &kind.form {
        TypeForm::Unit => true,
        TypeForm::RowsOf(row) => is_remote_value(d, row.get()),
        TypeForm::Int | TypeForm::Bool | TypeForm::Text => is_remote_value(d, kind),
        TypeForm::Named(_) | TypeForm::ListOf(_) => is_remote_value(d, kind),
    }
}

fn is_main_result(main: u32, kind: &TypeTree) -> bool
    ensures { result ≡ places.is_main_result main (mirror_type kind.now) }
{
    match &kind.form {
        TypeForm::Int | TypeForm::Bool | TypeForm::Text => true,
        TypeForm::Unit => kind.at == main,
        TypeForm::Named(_) | TypeForm::ListOf(_) | TypeForm::RowsOf(_) => false,
    }
}

/// The type of an item of a list: its names are declared, and it may stand there.
pub fn item_type(d: &Declarations, kind: &TypeTree) -> Result<(), TypeError>
    ensures { Passes result (places.item_type (declarations_of d.now) (mirror_type kind.now)) }
{
    declared_type(d, kind)?;
    value_type(d, kind)
}

fn must_stand(holds: bool, at: u32) -> Result<(), TypeError>
    ensures { Passes result (must holds (TypeNotHere at)) }
{
    if holds {
        Ok(())
    } else {
        Err(TypeError::TypeNotHere(at))
    }
}

/// The type of a parameter of a method, of an interface (`remote`) or of a class, or of a field.
pub fn parameter_type(remote: bool, d: &Declarations, kind: &TypeTree) -> Result<(), TypeError>
    ensures { Passes result (places.parameter_type remote (declarations_of d.now) (mirror_type kind.now)) }
{
    declared_type(d, kind)?;
    if remote {
        must_stand(is_remote_value(d, kind), kind.at)
    } else {
        value_type(d, kind)
    }
}

/// The result type of a method, of an interface (`remote`) or of a class.
pub fn result_type(remote: bool, d: &Declarations, kind: &TypeTree) -> Result<(), TypeError>
    ensures { Passes result (places.result_type remote (declarations_of d.now) (mirror_type kind.now)) }
{
    declared_type(d, kind)?;
    if remote {
        must_stand(is_remote_result(d, kind), kind.at)
    } else {
        value_result(d, kind)
    }
}

/// The result type of `main`, which stands at a position.
pub fn main_type(d: &Declarations, main: u32, kind: &TypeTree) -> Result<(), TypeError>
    ensures { Passes result (places.main_type (declarations_of d.now) main (mirror_type kind.now)) }
{
    declared_type(d, kind)?;
    must_stand(is_main_result(main, kind), kind.at)
}
