// The text of a service with an index.

ghost use Rattle.std.specs.Prelude.{◌≡◌, map, nat_eq, IfOk, OnOk};
ghost use Rattle.std.specs.HashMap.{get};
ghost use Rattle.std.specs.Option.{option_copied};
ghost use Rattle.rb_trees.specs.mirror.Declarations.{mirror_class};
ghost use Rattle.rb_trees.specs.mirror.Services.{mirror_object};
ghost use Rattle.rb_trees.specs.Classes.{class_named};
ghost use Rattle.rb_meaning_types.specs.Stores.{class_written};
ghost use Rattle.rb_store.specs.Views.{objects_of, found};
ghost use Rattle.rb_store.specs.Written.{AreWritten, Adds};

use rb_names::Names;
use rb_trees::{Class, Memory, ObjectText, ServiceText, Word, copy_word};
use std::alloc::Global;
use std::collections::HashMap;
use std::marker::Model;

/// The text of a service, whose classes are found by name and whose objects by number without walking their lists.
/// Contracts see the text.
#[derive(Drop)]
pub struct IndexedText<'a> {
    text: &'a ServiceText,
    // the names of the classes
    names: Names,
    // the class of the first object that is written with a number
    written: HashMap<u64, Word>,
}

impl<'a> Model for IndexedText<'a> {
    ghost use Rattle.std.specs.Prelude.{◌≡◌, map, nat_eq};
    ghost use Rattle.std.specs.HashMap.{get};
    ghost use Rattle.rb_trees.specs.declared.services.ServiceText.{ServiceText};
    ghost use Rattle.rb_trees.specs.contracts.services.ServiceText as text_code;
    ghost use Rattle.rb_store.specs.Views.{objects_of};
    ghost use Rattle.rb_store.specs.Written.{AreWritten};

    ghost Value = { ServiceText };

    ghost coded = { text_code.the_row.coded };

    ghost view = { λ i. i.text.now };

    ghost invariant = { λ i. (i.names ≡ map (λ c. c.name) i.text.now.classes) × AreWritten (get nat_eq i.written) (objects_of i.text.now) };
}

fn class_names(alloc: Global, classes: &[Class]) -> Result<Names, Memory>
    ensures { IfOk result (λ names. names ≡ map (λ c. c.name) classes.now) }
{
    let mut names = Names::new(alloc);
    for class in classes {
        let name = copy_word(alloc, &class.name)?;
        names.push(alloc, name)?;
    }
    Ok(names)
}

// Notes the class of an object, where none of its number is noted yet.
fn note(alloc: Global, written: &mut HashMap<u64, Word>, object: &ObjectText) -> Result<(), Memory>
    ensures { OnOk result (Adds (mirror_object object.now) (get nat_eq written.old) (get nat_eq written.new)) }
{
    if written.contains_key(&object.number) {
        return Ok(());
    }
    let class = copy_word(alloc, &object.class)?;
    let _before = written.insert(object.number, class)?;
    Ok(())
}

fn classes_written(alloc: Global, objects: &[ObjectText]) -> Result<HashMap<u64, Word>, Memory>
    ensures { IfOk result (λ written. AreWritten (get nat_eq written) (map mirror_object objects.now)) }
{
    let mut written = HashMap::new(alloc);
    for object in objects {
        note(alloc, &mut written, object)?;
    }
    Ok(written)
}

impl<'a> IndexedText<'a> {
    /// The text, with its index.
    pub fn new(alloc: Global, text: &'a ServiceText) -> Result<IndexedText<'a>, Memory>
        ensures { IfOk result (λ i. i ≡ text.now) }
    {
        let names = class_names(alloc, text.classes.as_slice())?;
        let written = classes_written(alloc, text.objects.as_slice())?;
        Ok(IndexedText {
            text,
            names,
            written,
        })
    }

    /// The text.
    pub fn get(&self) -> &ServiceText
        ensures { result.now ≡ self.now }
    {
        self.text
    }

    /// The first class of a name.
    #[tactic(auto, using(crate::proofs::Classes::class_viewed))]
    pub fn find_class(&self, name: &Word) -> Option<&Class>
        ensures { found mirror_class result ≡ class_named (map mirror_class self.now.classes) name.now }
    {
        match self.names.find(name) {
            Some(place) => self.text.classes.get(place),
            None => None,
        }
    }

    /// The class of the first object that is written with a number.
    pub fn find_written(&self, number: u64) -> Option<&Word>
        ensures { option_copied result ≡ class_written (objects_of self.now) number }
    {
        self.written.get(&number)
    }
}
