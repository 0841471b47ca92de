// The names of the inputs of a batch, in order of first use.

ghost use Rattle.std.specs.Prelude.{◌≡◌, [], OnOk};
ghost use Rattle.rb_split.specs.Uses.{with_use};

use rb_names::Names;
use rb_trees::{Memory, Seq, Word, copy_word};
use std::alloc::Global;
use std::marker::Model;

/// Names, each once, in order of first use. Contracts see their list.
#[derive(Drop)]
pub struct Uses {
    names: Seq<Word>,
    // the same with an index, by which one is found
    known: Names,
}

impl Model for Uses {
    ghost use Rattle.std.specs.Prelude.{◌≡◌, ℕ, List};

    ghost Value = { List (List ℕ) };

    ghost view = { λ u. u.names };

    ghost invariant = { λ u. u.known ≡ u.names };
}

impl Uses {
    /// No names.
    pub fn new(alloc: Global) -> Uses
        ensures { result ≡ [] }
    {
        Uses {
            names: Seq::new(alloc),
            known: Names::new(alloc),
        }
    }

    /// Adds a name at the end, where it is new.
    pub fn note(&mut self, alloc: Global, name: &Word) -> Result<(), Memory>
        ensures { OnOk result (self.new ≡ with_use self.old name.now) }
    {
        if self.known.has(name) {
            return Ok(());
        }
        let count = self.names.len();
        let key = copy_word(alloc, name)?;
        let name = copy_word(alloc, name)?;
        self.known.push(alloc, key)?;
        if let Err(want) = self.names.push(name) {
            self.known.truncate(count);
            return Err(want);
        }
        Ok(())
    }

    /// The list of the names.
    pub fn into_names(self) -> Seq<Word>
        ensures { result ≡ self }
    {
        let Uses { names, known: _ } = self;
        names
    }
}
