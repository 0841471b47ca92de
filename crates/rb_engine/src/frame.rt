// The names in scope, with their values.

ghost use Rattle.std.specs.Prelude.{◌≡◌, [], ◌∷◌, ◌++◌, length, take, IfOk, OnOk, OnErr};
ghost use Rattle.std.specs.Option.{option_copied};
ghost use Rattle.rb_trees.specs.Named.{lookup};
ghost use Rattle.rb_trees.specs.Outcome.{Gives};
ghost use Rattle.rb_meaning_code.specs.State.{this_name};
ghost use Rattle.rb_engine.specs.Ends.{fault_of};
ghost use Rattle.rb_engine.specs.NameWrites.{Replaces};
ghost use Rattle.rb_engine.specs.Places.{first_place};
ghost use Rattle.rb_engine.specs.Sums.{sum_at};

use crate::ends::Failure;
use crate::faults::kind;
use crate::later::{Later, note, place_among};
use crate::name::Name;
use crate::sums::add_value;
use rb_trees::{Memory, Seq, Value, Word, copy_value};
use std::alloc::Global;
use std::marker::Model;

/// So many names are compared one after the other, which takes less time than a hash. An index finds those after them.
const FEW: usize = 16;

/// The names that code has in scope, with their values, in order of binding. Contracts see that list.
#[derive(Drop)]
pub struct Frame {
    names: Seq<(Name, Value)>,
    // the names after the first few, where there were more
    later: Option<Box<Later>>,
}

impl Model for Frame {
    ghost use Rattle.std.specs.Coded.{coded×, coded_list, coded_ℕ};
    ghost use Rattle.rb_trees.specs.contracts.values.Value as value_code;
    ghost use Rattle.rb_meaning_code.specs.State.{Names};
    ghost use Rattle.rb_engine.specs.Places.{IsIndexed, unboxed};

    ghost Value = { Names };

    ghost coded = { coded_list (coded× (coded_list coded_ℕ) value_code.the_row.coded) };

    ghost view = { λ frame. frame.names };

    ghost invariant = { λ frame. IsIndexed (unboxed frame.later) frame.names };
}

// No names, with room for so many.
fn with_room(alloc: Global, count: usize) -> Result<Seq<(Name, Value)>, Memory>
    ensures { IfOk result (λ names. names ≡ []) }
{
    let names = Vec::with_capacity(alloc, count)?;
    Ok(Seq::from_vec(names))
}

// A copy of a name with its value.
fn copy_name(alloc: Global, name: &(Name, Value)) -> Result<(Name, Value), Memory>
    ensures { IfOk result (λ copy. copy ≡ name.now) }
{
    let copy = name.0.copy(alloc)?;
    let value = copy_value(&name.1)?;
    Ok((copy, value))
}

impl Frame {
    /// The frame without names, which takes no memory.
    pub fn make(alloc: Global) -> Frame
        ensures { result ≡ [] }
    {
        Frame {
            names: Seq::new(alloc),
            later: None,
        }
    }

    /// The frame without names, with room for so many.
    pub fn with_room(alloc: Global, count: usize) -> Result<Frame, Memory>
        ensures { IfOk result (λ frame. frame ≡ []) }
    {
        Ok(Frame {
            names: with_room(alloc, count)?,
            later: None,
        })
    }

    /// The frame of these names with their values.
    pub fn of(names: Seq<(Name, Value)>) -> Frame
        ensures { result ≡ names }
    {
        Frame { names, later: None }
    }

    /// A copy of the frame: the same names with the same values. It has no index, so that it costs little where few of them are
    /// looked up. Its error is want of memory.
    pub fn copy(&self, alloc: Global) -> Result<Frame, Memory>
        ensures { IfOk result (λ copy. copy ≡ self.now) }
    {
        let mut names = with_room(alloc, self.names.len())?;
        for name in self.names.as_slice() {
            names.push(copy_name(alloc, name)?)?;
        }
        Ok(Frame::of(names))
    }

    /// The number of names.
    pub fn len(&self) -> usize
        ensures { result ≡ length self.now }
    {
        self.names.len()
    }

    /// The first place of a name.
    #[inline]
    pub(crate) fn place_of(&self, name: &Word) -> Option<usize>
        ensures { result ≡ first_place self.now name.now }
    {
        match &self.later {
            None => place_among(self.names.as_slice(), name.as_slice()),
            Some(later) => later.place_of(self.names.as_slice(), name),
        }
    }

    /// The value of a name: `lookup`.
    #[tactic(auto, using(crate::proofs::Placed::lookup_placed))]
    pub fn find(&self, name: &Word) -> Option<&Value>
        ensures { option_copied result ≡ lookup self.now name.now }
    {
        match self.place_of(name) {
            Some(place) => match self.names.get(place) {
                Some(named) => Some(&named.1),
                None => None,
            },
            None => None,
        }
    }

    /// The value of `this`, which a method's frame has first: `lookup`.
    #[tactic(auto, using(crate::proofs::Placed::lookup_placed))]
    pub fn this(&self) -> Option<&Value>
        ensures { option_copied result ≡ lookup self.now this_name }
    {
        match place_among(self.names.as_slice(), b"this") {
            Some(place) => match self.names.get(place) {
                Some(named) => Some(&named.1),
                None => None,
            },
            None => None,
        }
    }

    /// Binds a name to a value. After an error nothing changed.
    #[tactic(auto, using(crate::proofs::Indexed::bound))]
    pub fn bind(&mut self, alloc: Global, name: &[u8], value: Value) -> Result<(), Memory>
        ensures bound { OnOk result (self.new ≡ self.old ++ (name.now, value) ∷ []) }
        ensures kept { OnErr result (self.new ≡ self.old) }
    {
        let kept = Name::of(alloc, name)?;
        let count = self.names.len();
        self.names.push((kept, value))?;
        if count < FEW && self.later.is_none() {
            return Ok(());
        }
        match note(alloc, &mut self.later, count, name) {
            Ok(()) => Ok(()),
            Err(error) => {
                self.names.truncate(count);
                Err(error)
            }
        }
    }

    /// Gives a name another value: `replaced`. Where the name isn't there, the value is handed back and nothing changed.
    #[tactic(auto, using(crate::proofs::Placed::lookup_placed, crate::proofs::Placed::replaced_placed, crate::proofs::Indexed::renamed))]
    pub fn set(&mut self, name: &Word, value: Value) -> Result<(), Value>
        ensures { Replaces self.old name.now value result self.new }
    {
        match self.place_of(name) {
            Some(place) => match self.names.get_mut(place) {
                Some(named) => {
                    named.1 = value;
                    Ok(())
                }
                None => Err(value),
            },
            None => Err(value),
        }
    }

    /// Adds to the value at a place: `sum_at`. After an error nothing changed.
    #[tactic(auto, using(crate::proofs::Additions::sum_made, crate::proofs::Indexed::renamed))]
    pub(crate) fn add_at(
        &mut self,
        alloc: Global,
        place: usize,
        value: &Value,
    ) -> Result<(), Failure>
        ensures gives { Gives (λ u. self.new) fault_of result (sum_at self.old place value.now) }
        ensures kept { OnErr result (self.new ≡ self.old) }
    {
        match self.names.get_mut(place) {
            Some(named) => add_value(alloc, &mut named.1, value),
            None => Err(kind(alloc)),
        }
    }

    /// Keeps the first `count` names.
    #[inline]
    #[tactic(auto, using(crate::proofs::Indexed::cut))]
    pub fn truncate(&mut self, count: usize)
        ensures { self.new ≡ take count self.old }
    {
        self.names.truncate(count);
        if let Some(later) = &mut self.later {
            later.truncate(count);
        }
    }
}
