// The service of a text, with its table.

ghost use Rattle.std.specs.Prelude.{◌≡◌, ◌<◌, ◌≤◌, ◌^◌, map, length, IfOk, IfErr};
ghost use Rattle.rb_trees.specs.Limits.{most_objects};
ghost use Rattle.rb_trees.specs.Outcome.{Gives, refused_as};
ghost use Rattle.rb_trees.specs.mirror.Declarations.{mirror_class};
ghost use Rattle.rb_trees.specs.mirror.Services.{mirror_service, mirror_service_text};
ghost use Rattle.rb_meaning_types.specs.Lawful.{IsLawfulService, IsLawfulServiceText};
ghost use Rattle.rb_meaning_types.specs.Programs as judged;
ghost use Rattle.rb_meaning_types.specs.Stores as stores;
ghost use Rattle.rb_meaning_types.specs.Stores.{Types, store_refusal};
ghost use Rattle.rb_meaning.specs.Links.{IsTyped};
ghost use Rattle.rb_store.specs.Views.{HoldsNoMemory, Passes, stored};

use crate::checks::check_table;
use crate::indexed::IndexedText;
use crate::tables::make_table;
use rb_heap::Heap;
use rb_trees::{Class, Seq, Service, ServiceText, StoreError, TypeError};
use rb_types::check_service;
use std::alloc::Global;

fn check_classes(alloc: Global, classes: &Seq<Class>) -> Result<(), StoreError>
    requires { IsLawfulService (map mirror_class classes.now) }
    ensures gives { Passes result (refused_as Types (judged.check_service (map mirror_class classes.now))) }
    ensures apart { IfErr result HoldsNoMemory }
{
    match check_service(alloc, classes) {
        Ok(()) => Ok(()),
        Err(TypeError::Memory) => Err(StoreError::Memory),
        Err(error) => Err(StoreError::Types(error)),
    }
}

// The classes of a text, and then its objects and its root.
fn check_text(alloc: Global, text: &ServiceText) -> Result<(), StoreError>
    requires lawful { IsLawfulServiceText (mirror_service_text text.now) }
    requires room { length text.now.objects ≤ most_objects }
    ensures gives { Passes result (stores.check_text (mirror_service_text text.now)) }
    ensures apart { IfErr result HoldsNoMemory }
{
    check_classes(alloc, &text.classes)?;
    let indexed = IndexedText::new(alloc, text)?;
    check_table(&indexed)
}

// The service of a text without its objects.
fn service_part(text: ServiceText) -> Service
    requires { text.root < 2 ^ 32 }
    ensures classes { result.classes ≡ text.classes }
    ensures root { result.root ≡ text.root }
{
    let ServiceText {
        classes,
        objects: _objects,
        root,
    } = text;
    Service {
        classes,
        root: root as u32,
    }
}

/// The service of a text, with its table: `service_of`.
pub fn make_service(alloc: Global, text: ServiceText) -> Result<(Service, Heap), StoreError>
    requires lawful { IsLawfulServiceText (mirror_service_text text) }
    requires room { length text.objects ≤ most_objects }
    ensures gives { Gives stored store_refusal result (stores.service_of (mirror_service_text text)) }
    ensures apart { IfErr result HoldsNoMemory }
    ensures typed { IfOk result (λ s. IsTyped (mirror_service s.0) s.1) }
{
    check_text(alloc, &text)?;
    let table = make_table(alloc, text.objects.as_slice())?;
    Ok((service_part(text), table))
}
