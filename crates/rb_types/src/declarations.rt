// Interfaces and classes, each by its name and members.

ghost use Rattle.std.specs.Prelude.{◌≡◌, [], ◌∷◌, ◌++◌, map, OnOk};
ghost use Rattle.rb_trees.specs.mirror.Declarations.{mirror_param, mirror_signature, mirror_interface, mirror_method, mirror_class};
ghost use Rattle.rb_meaning_types.specs.Declarations as declarations;
ghost use Rattle.rb_types.specs.Checks.{Passes};
ghost use Rattle.rb_types.specs.Views.{declarations_of};

use crate::classes::IndexedClass;
use crate::context::Declarations;
use crate::interfaces::IndexedInterface;
use crate::places::{parameter_type, result_type};
use rb_names::Names;
use rb_trees::{Class, Method, Param, Signature, TypeError, Word, copy_word};
use std::alloc::Global;

/// Adds a name that differs from those before.
fn add_name(alloc: Global, names: &mut Names, at: u32, name: &Word) -> Result<(), TypeError>
    ensures gives { Passes result (declarations.new_name names.old at name.now) }
    ensures added { OnOk result (names.new ≡ names.old ++ name.now ∷ []) }
{
    if names.has(name) {
        return Err(TypeError::NameTaken(at));
    }
    let word = copy_word(alloc, name)?;
    names.push(alloc, word)?;
    Ok(())
}

fn check_params(
    alloc: Global,
    remote: bool,
    d: &Declarations,
    params: &[Param],
) -> Result<(), TypeError>
    ensures { Passes result (declarations.check_params remote (declarations_of d.now) [] (map mirror_param params.now)) }
{
    let mut names = Names::new(alloc);
    for param in params {
        add_name(alloc, &mut names, param.at, &param.name)?;
        parameter_type(remote, d, &param.kind)?;
    }
    Ok(())
}

fn check_signature(
    alloc: Global,
    remote: bool,
    d: &Declarations,
    s: &Signature,
) -> Result<(), TypeError>
    ensures { Passes result (declarations.check_signature remote (declarations_of d.now) (mirror_signature s.now)) }
{
    check_params(alloc, remote, d, s.params.as_slice())?;
    result_type(remote, d, &s.result)
}

fn check_signatures(
    alloc: Global,
    d: &Declarations,
    signatures: &[Signature],
) -> Result<(), TypeError>
    ensures { Passes result (declarations.check_signatures (declarations_of d.now) [] (map mirror_signature signatures.now)) }
{
    let mut names = Names::new(alloc);
    for s in signatures {
        add_name(alloc, &mut names, s.at, &s.name)?;
        check_signature(alloc, true, d, s)?;
    }
    Ok(())
}

fn check_method(alloc: Global, d: &Declarations, m: &Method) -> Result<(), TypeError>
    ensures { Passes result (declarations.check_method (declarations_of d.now) (mirror_method m.now)) }
{
    check_signature(alloc, false, d, &m.signature)?;
    if d.service && m.remote {
        return Err(TypeError::NotAllowedHere(m.signature.at));
    }
    Ok(())
}

fn check_methods(alloc: Global, d: &Declarations, methods: &[Method]) -> Result<(), TypeError>
    ensures { Passes result (declarations.check_methods (declarations_of d.now) [] (map mirror_method methods.now)) }
{
    let mut names = Names::new(alloc);
    for m in methods {
        add_name(alloc, &mut names, m.signature.at, &m.signature.name)?;
        check_method(alloc, d, m)?;
    }
    Ok(())
}

fn check_class(alloc: Global, d: &Declarations, class: &Class) -> Result<(), TypeError>
    ensures { Passes result (declarations.check_class (declarations_of d.now) (mirror_class class.now)) }
{
    check_params(alloc, false, d, class.fields.as_slice())?;
    check_methods(alloc, d, class.methods.as_slice())
}

fn check_interfaces(
    alloc: Global,
    names: &mut Names,
    d: &Declarations,
    items: &[IndexedInterface],
) -> Result<(), TypeError>
    ensures gives { Passes result (declarations.check_interfaces (declarations_of d.now) names.old (map mirror_interface items.now)) }
    ensures added { OnOk result (names.new ≡ names.old ++ map (λ i. i.name) (map mirror_interface items.now)) }
{
    for item in items {
        let interface = item.get();
        add_name(alloc, names, interface.at, &interface.name)?;
        check_signatures(alloc, d, interface.methods.as_slice())?;
    }
    Ok(())
}

fn check_classes(
    alloc: Global,
    names: &mut Names,
    d: &Declarations,
    items: &[IndexedClass],
) -> Result<(), TypeError>
    ensures { Passes result (declarations.check_classes (declarations_of d.now) names.old (map mirror_class items.now)) }
{
    for item in items {
        let class = item.get();
        add_name(alloc, names, class.at, &class.name)?;
        check_class(alloc, d, class)?;
    }
    Ok(())
}

/// Declarations in source order: interfaces, then classes, each by its name and then its members.
pub fn check_declarations(alloc: Global, d: &Declarations) -> Result<(), TypeError>
    ensures { Passes result (declarations.check_declarations (declarations_of d.now)) }
{
    let mut names = Names::new(alloc);
    check_interfaces(alloc, &mut names, d, d.interfaces.as_slice())?;
    check_classes(alloc, &mut names, d, d.classes.as_slice())
}
