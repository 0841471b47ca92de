// Sets of names.

ghost use Rattle.std.specs.Prelude.{◌≡◌, [], ◌∷◌, ◌++◌, not, if◌then◌else◌, IfOk, position};
ghost use Rattle.std.specs.Str.{bytes_eq};
ghost use Rattle.rb_code.specs.Places.{place_of, is_among};

use indexmap::IndexSet;
use rb_trees::Memory;
use std::alloc::Global;
use std::marker::Model;

/// Up to so many names are compared one after the other, which takes less time than a hash.
const FEW: usize = 8;

// The first place of a name among names.
fn place_among(names: &[Vec<u8>], name: &[u8]) -> Option<usize>
    ensures { result ≡ position (λ n. bytes_eq name.now n.items) names.now }
{
    names.iter().position(|n| name == n.as_slice())
}

/// Names that differ, in order. Where there are many, each is found by its hash. Contracts see their list.
#[derive(Drop)]
pub struct NameSet {
    set: IndexSet<Vec<u8>>,
}

impl Model for NameSet {
    ghost use Rattle.std.specs.Prelude.{ℕ, List, map};

    ghost Value = { List (List ℕ) };

    ghost view = { λ names. map (λ name. name.items) names.set.keys };
}

impl NameSet {
    /// No names.
    pub fn new(alloc: Global) -> NameSet
        ensures { result ≡ [] }
    {
        NameSet {
            set: IndexSet::new(alloc),
        }
    }

    /// The place of a name.
    #[tactic(auto, using(crate::proofs::Placed::place_viewed))]
    pub fn find(&self, name: &[u8]) -> Option<usize>
        ensures { result ≡ place_of name.now self.now }
    {
        if self.set.len() > FEW {
            return self.set.get_index_of(name);
        }
        place_among(self.set.as_slice(), name)
    }

    /// Adds a name at the end, unless it is among them. Answers whether it was new.
    #[tactic(auto, using(crate::proofs::Placed::among_viewed, crate::proofs::Placed::added_viewed))]
    pub fn insert(&mut self, alloc: Global, name: &[u8]) -> Result<bool, Memory>
        ensures new { IfOk result (λ new. new ≡ not (is_among name.now self.old)) }
        ensures added { IfOk result (λ new. self.new ≡ if new then self.old ++ name.now ∷ [] else self.old) }
    {
        let key = Vec::from_slice(alloc, name)?;
        Ok(self.set.insert(key)?)
    }
}
