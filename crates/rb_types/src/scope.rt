// The variables in scope.

ghost use Rattle.std.specs.Prelude.{◌≡◌, [], take, length, OnOk};
ghost use Rattle.rb_meaning_types.specs.Kinds.{kind_of_form};
ghost use Rattle.rb_meaning_types.specs.Scopes as scopes;
ghost use Rattle.rb_types.specs.Views.{variable_of, scope_of, found};

use rb_names::Names;
use rb_trees::{Memory, Seq, TypeForm, Word, copy_word};
use std::alloc::Global;
use std::marker::Model;

/// A variable in scope: its name, its type, and whether it can't be assigned.
#[derive(Drop)]
pub struct Variable {
    pub name: Word,
    pub kind: TypeForm,
    pub fixed: bool,
}

/// The variables in scope, in order of binding. Contracts see their list.
#[derive(Drop)]
pub struct Scope {
    variables: Seq<Variable>,
    // their names, by which a variable is found
    names: Names,
}

impl Model for Scope {
    ghost use Rattle.std.specs.Prelude.{◌≡◌, List, map};
    ghost use Rattle.std.specs.Coded.{coded_list};
    ghost use Rattle.rb_types.specs.declared.scope.Variable.{Variable};
    ghost use Rattle.rb_types.specs.contracts.scope.Variable as variable_code;

    ghost Value = { List Variable };

    ghost coded = { coded_list variable_code.the_row.coded };

    ghost view = { λ s. s.variables };

    ghost invariant = { λ s. s.names ≡ map (λ v. v.name) s.variables };
}

impl Scope {
    /// The scope without variables.
    pub fn new(alloc: Global) -> Scope
        ensures { result ≡ [] }
    {
        Scope {
            variables: Seq::new(alloc),
            names: Names::new(alloc),
        }
    }

    /// The variable of a name.
    #[tactic(auto, using(crate::proofs::Viewed::variable_viewed))]
    pub fn find(&self, name: &Word) -> Option<&Variable>
        ensures { found variable_of result ≡ scopes.variable_named (scope_of self.now) name.now }
    {
        match self.names.find(name) {
            Some(place) => self.variables.get(place),
            None => None,
        }
    }

    /// Whether no variable of the name is in scope.
    pub fn is_free(&self, name: &Word) -> bool
        ensures { result ≡ scopes.is_free (scope_of self.now) name.now }
    {
        self.find(name).is_none()
    }

    /// Adds a variable at the end.
    pub fn bind(
        &mut self,
        alloc: Global,
        name: Word,
        kind: TypeForm,
        fixed: bool,
    ) -> Result<(), Memory>
        ensures { OnOk result (scope_of self.new ≡ scopes.with_variable (scope_of self.old) name (kind_of_form kind) fixed) }
    {
        let count = self.variables.len();
        let key = copy_word(alloc, &name)?;
        self.names.push(alloc, key)?;
        if let Err(want) = self.variables.push(Variable { name, kind, fixed }) {
            self.names.truncate(count);
            return Err(want);
        }
        Ok(())
    }

    /// How many variables are in scope.
    pub fn len(&self) -> usize
        ensures { result ≡ length (scope_of self.now) }
    {
        self.variables.len()
    }

    /// Ends a block: the first `count` variables stay.
    #[tactic(auto, using(crate::proofs::Fronts::take_mapped))]
    pub fn truncate(&mut self, count: usize)
        ensures { scope_of self.new ≡ take count (scope_of self.old) }
    {
        self.variables.truncate(count);
        self.names.truncate(count);
    }
}
