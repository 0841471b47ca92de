// Fields, methods, arguments and new objects.

#![tactic(auto, using(crate::proofs::Rules::rules))]

ghost use Rattle.std.specs.Prelude.{◌≡◌, map};
ghost use Rattle.rb_trees.specs.mirror.Declarations.{mirror_param, mirror_signature, mirror_interface, mirror_class};
ghost use Rattle.rb_meaning_types.specs.Kinds.{kind_of_form};
ghost use Rattle.rb_meaning_types.specs.Members as members;
ghost use Rattle.rb_types.specs.Checks.{Passes, Types, Classes};
ghost use Rattle.rb_types.specs.Views.{declarations_of, context_of, placed_of, all_placed, found};

use crate::classes::IndexedClass;
use crate::context::{Context, Declarations};
use crate::interfaces::IndexedInterface;
use crate::kinds::{Placed, kind_of, wanted_tree, wrong_type};
use rb_trees::{Param, Signature, TypeError, TypeForm, Word, copy_word};
use std::alloc::Global;

fn arguments_wanted(alloc: Global, params: &[Param], args: &[Placed]) -> Result<(), TypeError>
    ensures { Passes result (members.arguments_wanted (map mirror_param params.now) (all_placed args.now)) }
{
    for (i, param) in params.iter().enumerate() {
        match args.get(i) {
            Some(arg) => wanted_tree(alloc, &param.kind, arg)?,
            None => return Ok(()),
        }
    }
    Ok(())
}

fn arguments_fit(alloc: Global, at: u32, params: &[Param], args: &[Placed]) -> Result<(), TypeError>
    ensures { Passes result (members.arguments_fit at (map mirror_param params.now) (all_placed args.now)) }
{
    if args.len() == params.len() {
        arguments_wanted(alloc, params, args)
    } else {
        Err(TypeError::WrongCount(at))
    }
}

fn receiver_class<'a, 'b>(
    alloc: Global,
    d: &'b Declarations<'a>,
    p: &Placed,
) -> Result<&'b IndexedClass<'a>, TypeError>
    ensures { Classes result (members.receiver_class (declarations_of d.now) (placed_of p.now) (kind_of_form p.now.kind)) }
{
    match &p.kind {
        TypeForm::Named(name) => match d.classes.find(name) {
            Some(class) => Ok(class),
            None => Err(wrong_type(alloc, p)),
        },
        TypeForm::Int | TypeForm::Bool | TypeForm::Text => Err(wrong_type(alloc, p)),
        TypeForm::Unit | TypeForm::ListOf(_) | TypeForm::RowsOf(_) => Err(wrong_type(alloc, p)),
    }
}

/// The type of a field of an object.
pub fn field_kind(
    alloc: Global,
    d: &Declarations,
    at: u32,
    name: &Word,
    p: &Placed,
) -> Result<TypeForm, TypeError>
    ensures { Types result (members.field_kind (declarations_of d.now) at name.now (placed_of p.now)) }
{
    let class = receiver_class(alloc, d, p)?;
    match class.find_field(name) {
        Some(field) => kind_of(alloc, &field.kind),
        None => Err(TypeError::UnknownName(at)),
    }
}

fn signature_kind(
    alloc: Global,
    at: u32,
    signature: &Signature,
    args: &[Placed],
) -> Result<TypeForm, TypeError>
    ensures { Types result (members.signature_kind at (mirror_signature signature.now) (all_placed args.now)) }
{
    arguments_fit(alloc, at, signature.params.as_slice(), args)?;
    kind_of(alloc, &signature.result)
}

fn interface_call(
    alloc: Global,
    at: u32,
    method: &Word,
    interface: &IndexedInterface,
    args: &[Placed],
) -> Result<TypeForm, TypeError>
    ensures { Types result (members.interface_call at method.now (mirror_interface interface.now) (all_placed args.now)) }
{
    match interface.find_method(method) {
        Some(signature) => signature_kind(alloc, at, signature, args),
        None => Err(TypeError::UnknownName(at)),
    }
}

fn class_call(
    alloc: Global,
    x: &Context,
    at: u32,
    method: &Word,
    class: &IndexedClass,
    args: &[Placed],
) -> Result<TypeForm, TypeError>
    ensures { Types result (members.class_call (context_of x.now) at method.now (mirror_class class.now) (all_placed args.now)) }
{
    match class.find_method(method) {
        Some(found) => {
            let kind = signature_kind(alloc, at, &found.signature, args)?;
            if x.remote || !found.remote {
                Ok(kind)
            } else {
                Err(TypeError::NotAllowedHere(at))
            }
        }
        None => Err(TypeError::UnknownName(at)),
    }
}

fn receiver_interface<'a, 'b>(
    d: &'b Declarations<'a>,
    kind: &TypeForm,
) -> Option<&'b IndexedInterface<'a>>
    ensures { found mirror_interface result ≡ members.receiver_interface (declarations_of d.now) (kind_of_form kind.now) }
{
    match kind {
        TypeForm::Named(name) => d.interfaces.find(name),
        TypeForm::Int | TypeForm::Bool | TypeForm::Text => None,
        TypeForm::Unit | TypeForm::ListOf(_) | TypeForm::RowsOf(_) => None,
    }
}

/// What a call gives: the receiver is of interface or class type, the method is there, the arguments
/// fit, and a `remote` method may be called there.
pub fn call_kind(
    alloc: Global,
    x: &Context,
    at: u32,
    method: &Word,
    p: &Placed,
    args: &[Placed],
) -> Result<TypeForm, TypeError>
    ensures { Types result (members.call_kind (context_of x.now) at method.now (placed_of p.now) (all_placed args.now)) }
{
    match receiver_interface(x.declared, &p.kind) {
        Some(interface) => interface_call(alloc, at, method, interface, args),
        None => {
            let class = receiver_class(alloc, x.declared, p)?;
            class_call(alloc, x, at, method, class, args)
        }
    }
}

/// A new object: the class is there, and the arguments fit its fields.
pub fn new_kind(
    alloc: Global,
    d: &Declarations,
    at: u32,
    name: &Word,
    args: &[Placed],
) -> Result<TypeForm, TypeError>
    ensures { Types result (members.new_kind (declarations_of d.now) at name.now (all_placed args.now)) }
{
    match d.classes.find(name) {
        Some(class) => {
            arguments_fit(alloc, at, class.get().fields.as_slice(), args)?;
            Ok(TypeForm::Named(copy_word(alloc, name)?))
        }
        None => Err(TypeError::UnknownName(at)),
    }
}
