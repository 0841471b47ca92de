// Variables in order of binding, with an index of their names.

ghost use Rattle.std.specs.Prelude.{◌≡◌, [], ◌++◌, take, length, slice_get, OnOk, OnErr};
ghost use Rattle.std.specs.Option.{option_copied};
ghost use Rattle.rb_meaning_flow.specs.Scopes as scopes;

use rb_meaning_flow::{Role, Variable};
use rb_names::Names;
use rb_trees::{Memory, Seq, Word, copy_word};
use std::alloc::Global;
use std::marker::Model;

/// Variables in order of binding. Contracts see their list.
#[derive(Drop)]
pub struct Variables {
    items: Seq<Variable>,
    // their names, by which a variable is found
    names: Names,
}

impl Model for Variables {
    ghost use Rattle.std.specs.Prelude.{◌≡◌, List, map};
    ghost use Rattle.std.specs.Coded.{coded_list};
    ghost use Rattle.rb_meaning_flow.specs.declared.scopes.Variable.{Variable};
    ghost use Rattle.rb_meaning_flow.specs.contracts.scopes.Variable as variable_code;

    ghost Value = { List Variable };

    ghost coded = { coded_list variable_code.the_row.coded };

    ghost view = { λ s. s.items };

    ghost invariant = { λ s. s.names ≡ map (λ v. v.name) s.items };
}

impl Variables {
    /// No variables.
    pub fn new(alloc: Global) -> Variables
        ensures { result ≡ [] }
    {
        Variables {
            items: Seq::new(alloc),
            names: Names::new(alloc),
        }
    }

    /// The variable of a name among the first `count`.
    #[tactic(auto, using(crate::proofs::Placed::inside, crate::proofs::Placed::outside, crate::proofs::Placed::nowhere))]
    pub fn find_within(&self, count: usize, name: &Word) -> Option<&Variable>
        ensures { option_copied result ≡ scopes.variable_named (take count self.now) name.now }
    {
        match self.names.find(name) {
            Some(place) => {
                if place < count {
                    self.items.get(place)
                } else {
                    None
                }
            }
            None => None,
        }
    }

    /// The variable of a name.
    #[tactic(auto, using(crate::proofs::Placed::variable_placed))]
    pub fn find(&self, name: &Word) -> Option<&Variable>
        ensures { option_copied result ≡ scopes.variable_named self.now name.now }
    {
        match self.names.find(name) {
            Some(place) => self.items.get(place),
            None => None,
        }
    }

    /// The variable at a place.
    pub fn get(&self, place: usize) -> Option<&Variable>
        ensures { option_copied result ≡ slice_get self.now place }
    {
        self.items.get(place)
    }

    /// Adds a variable at the end.
    pub fn bind(&mut self, alloc: Global, name: &Word, role: Role, node: u32) -> Result<(), Memory>
        ensures ok { OnOk result (self.new ≡ scopes.with_variable self.old name.now role node) }
        ensures err { OnErr result (self.new ≡ self.old) }
    {
        let count = self.items.len();
        let key = copy_word(alloc, name)?;
        let name = copy_word(alloc, name)?;
        self.names.push(alloc, key)?;
        if let Err(want) = self.items.push(Variable { name, role, node }) {
            self.names.truncate(count);
            return Err(want);
        }
        Ok(())
    }

    /// Adds the same variables as others at the end.
    pub fn bind_all(&mut self, alloc: Global, others: &Variables) -> Result<(), Memory>
        ensures { OnOk result (self.new ≡ self.old ++ others.now) }
    {
        for v in others.items.as_slice() {
            self.bind(alloc, &v.name, v.role, v.node)?;
        }
        Ok(())
    }

    /// How many there are.
    pub fn len(&self) -> usize
        ensures { result ≡ length self.now }
    {
        self.items.len()
    }

    /// Keeps the first `count`.
    pub fn truncate(&mut self, count: usize)
        ensures { self.new ≡ take count self.old }
    {
        self.items.truncate(count);
        self.names.truncate(count);
    }
}
