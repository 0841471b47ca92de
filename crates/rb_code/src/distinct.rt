// Whether classes differ by name, and the methods of each: what `Code` wants of the classes that it is made of. Programs and
// tests ask it of what they have read.

ghost use Rattle.std.specs.Prelude.{◌≡◌, map, IsTrue, IfOk};
ghost use Rattle.rb_trees.specs.mirror.Declarations.{mirror_class, mirror_method};
ghost use Rattle.rb_code.specs.Differ.{MethodsDiffer, ClassesDiffer};

use crate::names::NameSet;
use rb_trees::{Class, Memory, Method};
use std::alloc::Global;

fn methods_differ(alloc: Global, methods: &[Method]) -> Result<bool, Memory>
    ensures { IfOk result (λ differ. IsTrue differ → MethodsDiffer (map mirror_method methods.now)) }
{
    let mut names = NameSet::new(alloc);
    for method in methods {
        if !names.insert(alloc, method.signature.name.as_slice())? {
            return Ok(false);
        }
    }
    Ok(true)
}

/// Whether the classes' names differ, and those of each one's methods. Its error is want of memory.
pub fn classes_differ(alloc: Global, classes: &[Class]) -> Result<bool, Memory>
    ensures { IfOk result (λ differ. IsTrue differ → ClassesDiffer (map mirror_class classes.now)) }
{
    let mut names = NameSet::new(alloc);
    for class in classes {
        if !names.insert(alloc, class.name.as_slice())? {
            return Ok(false);
        }
        if !methods_differ(alloc, class.methods.as_slice())? {
            return Ok(false);
        }
    }
    Ok(true)
}
