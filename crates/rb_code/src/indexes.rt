// The names that classes and methods are found by.

ghost use Rattle.std.specs.Prelude.{◌≡◌, map, IfOk};
ghost use Rattle.rb_trees.specs.mirror.Declarations.{mirror_class, mirror_method};
ghost use Rattle.rb_code.specs.Differ.{MethodsDiffer, ClassesDiffer};
ghost use Rattle.rb_code.specs.Places.{names_of_classes, names_of_methods, methods_of_each};

use crate::names::NameSet;
use rb_trees::{Class, Memory, Method, Seq};
use std::alloc::Global;

/// The names of the classes.
pub fn class_names(alloc: Global, classes: &[Class]) -> Result<NameSet, Memory>
    requires { ClassesDiffer (map mirror_class classes.now) }
    ensures { IfOk result (λ names. names ≡ names_of_classes classes.now) }
{
    let mut names = NameSet::new(alloc);
    for class in classes {
        names.insert(alloc, class.name.as_slice())?;
    }
    Ok(names)
}

fn method_names(alloc: Global, methods: &[Method]) -> Result<NameSet, Memory>
    requires { MethodsDiffer (map mirror_method methods.now) }
    ensures { IfOk result (λ names. names ≡ names_of_methods methods.now) }
{
    let mut names = NameSet::new(alloc);
    for method in methods {
        names.insert(alloc, method.signature.name.as_slice())?;
    }
    Ok(names)
}

/// The names of each class's methods.
pub fn names_of_each(alloc: Global, classes: &[Class]) -> Result<Seq<NameSet>, Memory>
    requires { ClassesDiffer (map mirror_class classes.now) }
    ensures { IfOk result (λ names. names ≡ methods_of_each classes.now) }
{
    let mut names = Seq::new(alloc);
    for class in classes {
        names.push(method_names(alloc, class.methods.as_slice())?)?;
    }
    Ok(names)
}
