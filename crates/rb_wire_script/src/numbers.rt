// Lists of numbers with an index.

ghost use Rattle.std.specs.Prelude.{◌≡◌, [], ◌∷◌, ◌++◌, nat_eq, take, length, OnOk, OnErr};
ghost use Rattle.rb_trees.specs.Validity.{has};
ghost use Rattle.rb_wire_script.specs.Guesses.{first_place};

use rb_trees::{Memory, Seq};
use std::alloc::Global;
use std::collections::BTreeMap;
use std::marker::Model;

/// Whether two numbers are the same.
fn same_number(a: u32, b: u32) -> bool
    ensures { result ≡ nat_eq a b }
{
    a == b
}

/// Numbers in order, with a guess at the place of each, so that finding one doesn't walk the list.
/// Contracts see the list.
#[derive(Drop)]
pub(crate) struct Numbers {
    numbers: Seq<u32>,
    // wherever the list has a number, its first place; of other numbers it may say anything
    places: BTreeMap<u32, usize>,
}

impl Model for Numbers {
    ghost use Rattle.std.specs.Prelude.{ℕ, List};
    ghost use Rattle.std.specs.Ordering.{nat_cmp};
    ghost use Rattle.std.specs.BTreeMap.{get};
    ghost use Rattle.rb_wire_script.specs.Guesses.{Guides};

    ghost Value = { List ℕ };

    ghost view = { λ w. w.numbers };

    ghost invariant = { λ w. Guides (get nat_cmp w.places) w.numbers };
}

impl Numbers {
    /// No numbers.
    pub(crate) fn new(alloc: Global) -> Numbers
        ensures { result ≡ [] }
    {
        Numbers {
            numbers: Seq::new(alloc),
            places: BTreeMap::new(alloc),
        }
    }

    /// The first place of a number.
    fn find(&self, number: u32) -> Option<usize>
        ensures { result ≡ first_place number self.now }
    {
        match self.places.get(&number) {
            Some(place) => {
                let place = *place;
                match self.numbers.get(place) {
                    Some(other) => {
                        if same_number(*other, number) {
                            Some(place)
                        } else {
                            None
                        }
                    }
                    None => None,
                }
            }
            None => None,
        }
    }

    /// Whether the number is one of them.
    #[tactic(auto, using(crate::proofs::Guided::has_place))]
    pub(crate) fn has(&self, number: u32) -> bool
        ensures { result ≡ has number self.now }
    {
        self.find(number).is_some()
    }

    /// How many there are.
    pub(crate) fn len(&self) -> usize
        ensures { result ≡ length self.now }
    {
        self.numbers.len()
    }

    /// Adds a number at the end. After an error nothing changed.
    pub(crate) fn push(&mut self, number: u32) -> Result<(), Memory>
        ensures ok { OnOk result (self.new ≡ self.old ++ number ∷ []) }
        ensures err { OnErr result (self.new ≡ self.old) }
    {
        match self.find(number) {
            None => {
                let place = self.numbers.len();
                let _before = self.places.insert(number, place)?;
                self.numbers.push(number)?;
                Ok(())
            }
            Some(_place) => {
                self.numbers.push(number)?;
                Ok(())
            }
        }
    }

    /// Keeps the first `count` numbers.
    pub(crate) fn truncate(&mut self, count: usize)
        ensures { self.new ≡ take count self.old }
    {
        self.numbers.truncate(count);
    }
}
