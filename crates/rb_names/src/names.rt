// Lists of names with an index.

ghost use Rattle.std.specs.Prelude.{◌≡◌, [], ◌∷◌, ◌++◌, not, take, length, OnOk, OnErr};
ghost use Rattle.std.specs.Str.{bytes_eq};
ghost use Rattle.rb_meaning_types.specs.Names.{is_new};
ghost use Rattle.rb_names.specs.Guesses.{first_place};

use rb_trees::{Memory, Seq, Word, copy_word};
use std::alloc::Global;
use std::collections::HashMap;
use std::marker::Model;

/// Whether two names are the same bytes.
pub fn same_name(a: &Word, b: &Word) -> bool
    ensures { result ≡ bytes_eq a.now b.now }
{
    a.as_slice() == b.as_slice()
}

/// Names in order, with a guess at the place of each, so that finding one doesn't walk the list.
/// Contracts see the list of names.
#[derive(Drop)]
pub struct Names {
    names: Seq<Word>,
    // wherever the list has a name, its first place; of other names it may say anything
    places: HashMap<Word, usize>,
}

impl Model for Names {
    ghost use Rattle.std.specs.Prelude.{ℕ, List, nat_eq};
    ghost use Rattle.std.specs.HashMap.{get};
    ghost use Rattle.std.specs.Cmp.Lexicographic.{pointwise};
    ghost use Rattle.rb_names.specs.Guesses.{Guides};

    ghost Value = { List (List ℕ) };

    ghost view = { λ w. w.names };

    ghost invariant = { λ w. Guides (get (pointwise nat_eq) w.places) w.names };
}

impl Names {
    /// No names.
    pub fn new(alloc: Global) -> Names
        ensures { result ≡ [] }
    {
        Names {
            names: Seq::new(alloc),
            places: HashMap::new(alloc),
        }
    }

    /// The first place of a name.
    pub fn find(&self, name: &Word) -> Option<usize>
        ensures { result ≡ first_place name.now self.now }
    {
        match self.places.get(name) {
            Some(place) => {
                let place = *place;
                match self.names.get(place) {
                    Some(other) => {
                        if same_name(other, name) {
                            Some(place)
                        } else {
                            None
                        }
                    }
                    None => None,
                }
            }
            None => None,
        }
    }

    /// Whether the name is one of them.
    #[tactic(auto, using(crate::proofs::Guided::new_place))]
    pub fn has(&self, name: &Word) -> bool
        ensures { result ≡ not (is_new name.now self.now) }
    {
        self.find(name).is_some()
    }

    /// How many names there are.
    pub fn len(&self) -> usize
        ensures { result ≡ length self.now }
    {
        self.names.len()
    }

    /// Adds a name at the end. After an error nothing changed.
    pub fn push(&mut self, alloc: Global, name: Word) -> Result<(), Memory>
        ensures ok { OnOk result (self.new ≡ self.old ++ name ∷ []) }
        ensures err { OnErr result (self.new ≡ self.old) }
    {
        match self.find(&name) {
            None => {
                let key = copy_word(alloc, &name)?;
                let place = self.names.len();
                let _before = self.places.insert(key, place)?;
                self.names.push(name)?;
                Ok(())
            }
            Some(_place) => {
                self.names.push(name)?;
                Ok(())
            }
        }
    }

    /// Keeps the first `count` names.
    pub fn truncate(&mut self, count: usize)
        ensures { self.new ≡ take count self.old }
    {
        self.names.truncate(count);
    }
}
