// The classes of code as their list.

ghost use Rattle.std.specs.Prelude.{◌≡◌, map, IfOk};
ghost use Rattle.std.specs.Option.{option_copied, option_map};
ghost use Rattle.rb_trees.specs.mirror.Declarations.{mirror_class, mirror_method};
ghost use Rattle.rb_trees.specs.Classes.{class_named, method_of_class};
ghost use Rattle.rb_code.specs.Differ.{ClassesDiffer};
ghost use Rattle.rb_code.specs.Places.{method_at_place};

use crate::copies::copy_classes;
use crate::indexes::{class_names, names_of_each};
use crate::names::NameSet;
use rb_trees::{Class, Memory, Method, Seq};
use std::alloc::Global;
use std::marker::Model;

/// The classes of a program or service, whose names differ, as do the names of each one's methods: `ClassesDiffer`.
/// Contracts see their list.
#[derive(Drop)]
pub struct Code {
    classes: Seq<Class>,
    // the names of the classes, in order
    class_names: NameSet,
    // the names of each class's methods, in order
    method_names: Seq<NameSet>,
}

impl Model for Code {
    ghost use Rattle.std.specs.Prelude.{◌≡◌, List, map};
    ghost use Rattle.std.specs.Coded.{coded_list};
    ghost use Rattle.rb_trees.specs.declared.declarations.Class.{Class};
    ghost use Rattle.rb_trees.specs.contracts.declarations.Class as class_code;
    ghost use Rattle.rb_trees.specs.mirror.Declarations.{mirror_class};
    ghost use Rattle.rb_code.specs.Differ.{ClassesDiffer};
    ghost use Rattle.rb_code.specs.Places.{names_of_classes, methods_of_each};

    ghost Value = { List Class };

    ghost coded = { coded_list class_code.the_row.coded };

    ghost view = { λ code. code.classes };

    ghost invariant = { λ code. ClassesDiffer (map mirror_class code.classes)
        × (code.class_names ≡ names_of_classes code.classes) × (code.method_names ≡ methods_of_each code.classes) };
}

impl Code {
    /// The code of these classes, which are copied. Its error is want of memory.
    pub fn make(alloc: Global, classes: &Seq<Class>) -> Result<Code, Memory>
        requires { ClassesDiffer (map mirror_class classes.now) }
        ensures { IfOk result (λ code. code ≡ classes.now) }
    {
        let classes = copy_classes(alloc, classes.as_slice())?;
        let class_names = class_names(alloc, classes.as_slice())?;
        let method_names = names_of_each(alloc, classes.as_slice())?;
        Ok(Code {
            classes,
            class_names,
            method_names,
        })
    }

    /// The classes in order.
    pub fn classes(&self) -> &[Class]
        ensures list { result.now ≡ self.now }
        ensures differ { ClassesDiffer (map mirror_class self.now) }
    {
        self.classes.as_slice()
    }

    /// The first class of a name: `class_named`.
    pub fn find_class(&self, name: &[u8]) -> Option<&Class>
        ensures { option_map mirror_class (option_copied result) ≡ class_named (map mirror_class self.now) name.now }
    {
        match self.class_names.find(name) {
            Some(place) => self.classes.get(place),
            None => None,
        }
    }

    /// The first method of a name of the first class of a name: `method_of_class`.
    pub fn find_method(&self, class: &[u8], name: &[u8]) -> Option<&Method>
        ensures { option_map mirror_method (option_copied result) ≡ method_of_class (map mirror_class self.now) class.now name.now }
    {
        match self.class_names.find(class) {
            Some(place) => self.method_at(place, name),
            None => None,
        }
    }

    // The method of a name of the class at a place.
    fn method_at(&self, place: usize, name: &[u8]) -> Option<&Method>
        ensures { option_map mirror_method (option_copied result) ≡ method_at_place (map mirror_class self.now) place name.now }
    {
        let class = self.classes.get(place)?;
        let names = self.method_names.get(place)?;
        class.methods.get(names.find(name)?)
    }
}
