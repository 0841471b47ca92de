// The layouts of objects: each the name of a class with the names of its fields.

ghost use Rattle.std.specs.Prelude.{◌≡◌, ◌↔◌, [], ◌∷◌, ◌++◌, length, slice_get, IsTrue, IfOk, IfSome, OnOk, OnErr};
ghost use Rattle.std.specs.Option.{option_copied};
ghost use Rattle.rb_heap.specs.Seen.{layout_of, Extends};

use crate::parts::{are_names_of, copy_names, copy_names_of};
use indexmap::IndexMap;
use rb_trees::{Memory, Object, Seq, Word, copy_word};
use std::alloc::Global;
use std::marker::Model;

/// The name of a class, and the names of an object's fields in order.
#[derive(Drop)]
pub(crate) struct Layout {
    pub(crate) class: Word,
    pub(crate) names: Seq<Word>,
}

fn layout_of(alloc: Global, object: &Object) -> Result<Layout, Memory>
    ensures { IfOk result (λ layout. layout ≡ layout_of object.now) }
{
    Ok(Layout {
        class: copy_word(alloc, &object.class)?,
        names: copy_names_of(alloc, object.fields.as_slice())?,
    })
}

fn copy_layout(alloc: Global, layout: &Layout) -> Result<Layout, Memory>
    ensures { IfOk result (λ copy. copy ≡ layout.now) }
{
    Ok(Layout {
        class: copy_word(alloc, &layout.class)?,
        names: copy_names(alloc, layout.names.as_slice())?,
    })
}

/// Layouts in order. Contracts see their list.
#[derive(Drop)]
pub(crate) struct Layouts {
    list: Seq<Layout>,
    // the place of the layout that was wanted last, and for each class that of the layout that was added last; each is
    // compared with the object, so that it may be any number
    latest: usize,
    guesses: IndexMap<Word, usize>,
}

impl Model for Layouts {
    ghost use Rattle.std.specs.Prelude.{List};
    ghost use Rattle.std.specs.Coded.{coded_list};
    ghost use Rattle.rb_heap.specs.declared.layouts.Layout.{Layout};
    ghost use Rattle.rb_heap.specs.contracts.layouts.Layout as layout_code;

    ghost Value = { List Layout };

    ghost coded = { coded_list layout_code.the_row.coded };

    ghost view = { λ layouts. layouts.list };
}

impl Layouts {
    /// No layouts, which takes no memory.
    pub(crate) fn new(alloc: Global) -> Layouts
        ensures { result ≡ [] }
    {
        Layouts {
            list: Seq::new(alloc),
            latest: 0,
            guesses: IndexMap::new(alloc),
        }
    }

    /// A copy of the layouts: the same in order.
    pub(crate) fn copy(&self, alloc: Global) -> Result<Layouts, Memory>
        ensures { IfOk result (λ copy. copy ≡ self.now) }
    {
        let mut copies = Layouts::new(alloc);
        for layout in self.list.as_slice() {
            copies.push(alloc, copy_layout(alloc, layout)?)?;
        }
        Ok(copies)
    }

    /// The layout at a place, or None where there is none.
    pub(crate) fn get(&self, place: usize) -> Option<&Layout>
        ensures { option_copied result ≡ slice_get self.now place }
    {
        self.list.get(place)
    }

    // Adds a layout at the end. After an error nothing changed.
    fn push(&mut self, alloc: Global, layout: Layout) -> Result<(), Memory>
        ensures ok { OnOk result (self.new ≡ self.old ++ layout ∷ []) }
        ensures err { OnErr result (self.new ≡ self.old) }
    {
        let class = copy_word(alloc, &layout.class)?;
        let place = self.list.len();
        let _before = self.guesses.insert(class, place)?;
        self.list.push(layout)
    }

    // Whether the layout at a place is the object's.
    fn is_at(&self, place: usize, object: &Object) -> bool
        ensures { IsTrue result ↔ (slice_get self.now place ≡ Some (layout_of object.now)) }
    {
        match self.list.get(place) {
            Some(layout) => {
                layout.class.as_slice() == object.class.as_slice()
                    && are_names_of(layout.names.as_slice(), object.fields.as_slice())
            }
            None => false,
        }
    }

    // The place of an object's layout, if it is the one that was wanted last, or was added last for the class.
    fn find(&self, object: &Object) -> Option<usize>
        ensures { IfSome result (λ place. slice_get self.now place ≡ Some (layout_of object.now)) }
    {
        if self.is_at(self.latest, object) {
            return Some(self.latest);
        }
        let place = *self.guesses.get(&object.class)?;
        if self.is_at(place, object) {
            Some(place)
        } else {
            None
        }
    }

    // The place of an object's layout, which is added at the end unless it is found.
    fn find_or_add(&mut self, alloc: Global, object: &Object) -> Result<usize, Memory>
        ensures kept { Extends self.old self.new }
        ensures place { IfOk result (λ place. slice_get self.new place ≡ Some (layout_of object.now)) }
    {
        match self.find(object) {
            Some(place) => Ok(place),
            None => {
                let layout = layout_of(alloc, object)?;
                let place = self.list.len();
                self.push(alloc, layout)?;
                Ok(place)
            }
        }
    }

    /// The place of an object's layout, which is added at the end where it isn't known.
    pub(crate) fn place_for(&mut self, alloc: Global, object: &Object) -> Result<usize, Memory>
        ensures kept { Extends self.old self.new }
        ensures place { IfOk result (λ place. slice_get self.new place ≡ Some (layout_of object.now)) }
    {
        let place = self.find_or_add(alloc, object)?;
        self.latest = place;
        Ok(place)
    }
}
