// What a script calls the portable variables.

ghost use Rattle.std.specs.Prelude.{◌≡◌, [], ◌∷◌, ◌++◌, take, length, OnOk};
ghost use Rattle.std.specs.Option.{option_map};
ghost use Rattle.rb_trees.specs.Named.{lookup};
ghost use Rattle.rb_trees.specs.mirror.Code.{mirror_expr};
ghost use Rattle.rb_meaning_split.specs.Refs.{input_number, list_number};
ghost use Rattle.rb_split.specs.Views.{ref_of, refs_of};

use crate::loops::list_name;
use rb_names::Names;
use rb_trees::{Expr, Memory, Seq, Word, copy_word};
use std::alloc::Global;
use std::marker::Model;

/// What a script calls a portable variable: the root, an input or a variable of its own.
#[derive(Clone, Copy)]
pub enum Referent {
    Root,
    Input(u8),
    Var(u32),
}

/// A portable variable.
#[derive(Drop)]
pub struct Known {
    pub name: Word,
    pub target: Referent,
}

/// The portable variables, in order of binding. Contracts see their list.
#[derive(Drop)]
pub struct Refs {
    variables: Seq<Known>,
    // their names, by which one is found
    names: Names,
}

impl Model for Refs {
    ghost use Rattle.std.specs.Prelude.{◌≡◌, List, map};
    ghost use Rattle.std.specs.Coded.{coded_list};
    ghost use Rattle.rb_split.specs.declared.refs.Known.{Known};
    ghost use Rattle.rb_split.specs.contracts.refs.Known as known_code;

    ghost Value = { List Known };

    ghost coded = { coded_list known_code.the_row.coded };

    ghost view = { λ r. r.variables };

    ghost invariant = { λ r. r.names ≡ map (λ k. k.name) r.variables };
}

impl Refs {
    /// No variables.
    pub fn new(alloc: Global) -> Refs
        ensures { result ≡ [] }
    {
        Refs {
            variables: Seq::new(alloc),
            names: Names::new(alloc),
        }
    }

    /// What a name is in the script.
    #[tactic(auto, using(crate::proofs::Placed::ref_placed))]
    pub fn find(&self, name: &Word) -> Option<Referent>
        ensures { option_map ref_of result ≡ lookup (refs_of self.now) name.now }
    {
        match self.names.find(name) {
            Some(place) => match self.variables.get(place) {
                Some(known) => Some(known.target),
                None => None,
            },
            None => None,
        }
    }

    /// The number of the input that a name is.
    pub fn input_number(&self, name: &Word) -> u8
        ensures { result ≡ input_number (lookup (refs_of self.now) name.now) }
    {
        match self.find(name) {
            Some(Referent::Input(number)) => number,
            Some(Referent::Root) | Some(Referent::Var(_)) | None => 0,
        }
    }

    /// The number of the input that a list is, by its name.
    #[tactic(auto, using(crate::proofs::Lists::number_named))]
    pub fn list_number(&self, list: &Expr) -> u8
        ensures { result ≡ list_number (refs_of self.now) (mirror_expr list.now) }
    {
        match list_name(list) {
            Some(name) => self.input_number(name),
            None => 0,
        }
    }

    /// Adds a variable at the end.
    pub fn bind(&mut self, alloc: Global, name: &Word, target: Referent) -> Result<(), Memory>
        ensures { OnOk result (self.new ≡ self.old ++ record { name = name.now; target = target } ∷ []) }
    {
        let count = self.variables.len();
        let key = copy_word(alloc, name)?;
        let name = copy_word(alloc, name)?;
        self.names.push(alloc, key)?;
        if let Err(want) = self.variables.push(Known { name, target }) {
            self.names.truncate(count);
            return Err(want);
        }
        Ok(())
    }

    /// How many variables there are.
    pub fn len(&self) -> usize
        ensures { result ≡ length self.now }
    {
        self.variables.len()
    }

    /// Ends a block: the first `count` variables stay.
    pub fn truncate(&mut self, count: usize)
        ensures { self.new ≡ take count self.old }
    {
        self.variables.truncate(count);
        self.names.truncate(count);
    }
}
