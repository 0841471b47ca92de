// The heap as the list of its objects.

ghost use Rattle.std.specs.Prelude.{◌≡◌, [], ◌∷◌, ◌++◌, ◌<◌, ◌≤◌, length, slice_get, IfSome, IfOk, OnOk, IfErr, OnErr};
ghost use Rattle.std.specs.Option.{option_copied, option_map};
ghost use Rattle.rb_trees.specs.Limits.{most_objects};
ghost use Rattle.rb_trees.specs.Objects.{field_value};
ghost use Rattle.rb_heap.specs.Additions.{RefusesObject};
ghost use Rattle.rb_heap.specs.Views.{object_viewed};
ghost use Rattle.rb_heap.specs.Writes.{SetsField};

use crate::layouts::Layouts;
use crate::names::{find_named, replace_named};
use crate::parts::values_of;
use crate::stops::{AddStop, SetStop};
use crate::stored::{Stored, copy_objects};
use crate::values::SharedValues;
use rb_trees::limits::MOST_OBJECTS;
use rb_trees::{Memory, Object, Seq, Value, Word};
use std::alloc::Global;
use std::marker::Model;

/// An object of a heap: the object of the class whose fields are the names with the values, in order. There are as many
/// names as values.
#[derive(Clone, Copy)]
pub struct View<'a> {
    pub class: &'a [u8],
    pub names: &'a Seq<Word>,
    pub values: &'a Seq<Value>,
}

/// The objects of running code. Contracts see the list of the objects; an object's number is its place from 0.
#[derive(Drop)]
pub struct Heap {
    // each layout of the objects once, and each object by its layout's place with its values
    layouts: Layouts,
    objects: Seq<Stored>,
    alloc: Global,
}

impl Model for Heap {
    ghost use Rattle.std.specs.Prelude.{◌≤◌, List, length};
    ghost use Rattle.std.specs.Coded.{coded_list};
    ghost use Rattle.rb_trees.specs.declared.services.Object.{Object};
    ghost use Rattle.rb_trees.specs.contracts.services.Object as object_code;
    ghost use Rattle.rb_trees.specs.Limits.{most_objects};
    ghost use Rattle.rb_heap.specs.Seen.{objects_seen, AreLaidOut};

    ghost Value = { List Object };

    ghost coded = { coded_list object_code.the_row.coded };

    ghost view = { λ heap. objects_seen heap.layouts heap.objects };

    ghost invariant = { λ heap. (length heap.objects ≤ most_objects) × AreLaidOut heap.layouts heap.objects };
}

impl Heap {
    /// The heap without objects, which takes no memory.
    pub fn make(alloc: Global) -> Heap
        ensures { result ≡ [] }
    {
        Heap {
            layouts: Layouts::new(alloc),
            objects: Seq::new(alloc),
            alloc,
        }
    }

    /// The number of objects, of which there are at most `most_objects`.
    pub fn len(&self) -> u32
        ensures value { result ≡ length self.now }
        ensures within { length self.now ≤ most_objects }
    {
        self.objects.len() as u32
    }

    /// A copy of the heap: the same objects, whose values both share until one writes them. Its error is want of memory.
    pub fn copy(&self, alloc: Global) -> Result<Heap, Memory>
        ensures { IfOk result (λ copy. copy ≡ self.now) }
    {
        let layouts = self.layouts.copy(alloc)?;
        let objects = copy_objects(alloc, self.objects.as_slice())?;
        Ok(Heap {
            layouts,
            objects,
            alloc,
        })
    }

    /// Adds an object at the end and answers its number. `Full` hands it back exactly where the heap has
    /// `most_objects`; after an error nothing changed.
    #[tactic(auto, using(crate::proofs::Seen::seen_extended, crate::proofs::Seen::laid_extended, crate::proofs::Seen::seen_added, crate::proofs::Seen::laid_added))]
    pub fn add(&mut self, object: Object) -> Result<u32, AddStop>
        ensures room { OnOk result (length self.old < most_objects) }
        ensures added { IfOk result (λ number. (number ≡ length self.old) × (self.new ≡ self.old ++ object ∷ [])) }
        ensures refused { IfErr result (λ stop. RefusesObject self.old object stop) }
        ensures kept { OnErr result (self.new ≡ self.old) }
    {
        let number = self.len();
        if number >= MOST_OBJECTS {
            return Err(AddStop::Full(object));
        }
        let layout = self.layouts.place_for(self.alloc, &object)?;
        let values = SharedValues::of(self.alloc, values_of(self.alloc, object.fields)?)?;
        self.objects.push(Stored { layout, values })?;
        Ok(number)
    }

    /// The object of a number, or None where there is none.
    pub fn get(&self, object: u32) -> Option<View<'_>>
        ensures seen { option_map object_viewed result ≡ slice_get self.now object }
        ensures even { IfSome result (λ o. length o.names.now ≡ length o.values.now) }
    {
        let stored = self.objects.get(object as usize)?;
        let layout = self.layouts.get(stored.layout)?;
        Some(View {
            class: layout.class.as_slice(),
            names: &layout.names,
            values: stored.values.list(),
        })
    }

    /// The class of an object, or None where there is no such object.
    pub fn class_of(&self, object: u32) -> Option<&[u8]>
        ensures { option_copied result ≡ option_map (λ o. o.class) (slice_get self.now object) }
    {
        match self.get(object) {
            Some(found) => Some(found.class),
            None => None,
        }
    }

    /// The value of an object's field, or None where there is no such object or field: `field_value`.
    pub fn get_field(&self, object: u32, name: &[u8]) -> Option<&Value>
        ensures { option_copied result ≡ field_value self.now object name.now }
    {
        match self.get(object) {
            Some(found) => find_named(found.names.as_slice(), found.values, name),
            None => None,
        }
    }

    /// Gives an object's field another value: `with_field_value`. Where there is no such object or field the value is
    /// handed back. Values that a copy shares are copied first, which takes memory. After an error nothing changed.
    #[tactic(auto, using(crate::proofs::Written::object_written, crate::proofs::Written::object_missing))]
    pub fn set_field(&mut self, object: u32, name: &[u8], value: Value) -> Result<(), SetStop>
        ensures { SetsField self.old object name.now value result self.new }
    {
        let Some(stored) = self.objects.get_mut(object as usize) else {
            return Err(SetStop::Missing(value));
        };
        match self.layouts.get(stored.layout) {
            Some(layout) => replace_named(
                self.alloc,
                layout.names.as_slice(),
                &mut stored.values,
                name,
                value,
            ),
            None => Err(SetStop::Missing(value)),
        }
    }
}
