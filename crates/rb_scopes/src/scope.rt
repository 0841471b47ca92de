// The scope of code in a batch.

ghost use Rattle.std.specs.Prelude.{◌≡◌, [], take, length, slice_get, IfOk, OnOk};
ghost use Rattle.std.specs.Option.{option_copied, option_map, option_to_list};
ghost use Rattle.rb_meaning_flow.specs.Scopes as scopes;
ghost use Rattle.rb_scopes.specs.Seen.{name_and_node, newest, role_and_node};

use crate::assigned::Assigned;
use crate::segments::Segments;
use crate::variables::Variables;
use rb_meaning_flow::{Role, Variable};
use rb_names::Names;
use rb_trees::{Memory, Shared, Word};
use std::alloc::Global;
use std::marker::Model;

/// The variables in scope in a batch, in order of binding. Contracts see their list.
#[derive(Drop)]
pub struct Scope {
    // those from outside the batch, of which the first so many are in scope, and the names that the batch assigns
    outer: Segments,
    shown: usize,
    assigned: Shared<Assigned>,
    // those that were bound since, and how many there are of both
    own: Variables,
    count: usize,
}

impl Model for Scope {
    ghost use Rattle.std.specs.Prelude.{◌≡◌, ◌≤◌, ◌+◌, ◌++◌, List, length, take};
    ghost use Rattle.std.specs.Coded.{coded_list};
    ghost use Rattle.rb_meaning_flow.specs.declared.scopes.Variable.{Variable};
    ghost use Rattle.rb_meaning_flow.specs.contracts.scopes.Variable as variable_code;
    ghost use Rattle.rb_meaning_flow.specs.Scopes.{scope_with};

    ghost Value = { List Variable };

    ghost coded = { coded_list variable_code.the_row.coded };

    ghost view = { λ s. scope_with s.assigned (take s.shown s.outer) ++ s.own };

    ghost invariant = { λ s. (s.shown ≤ length s.outer) × (s.count ≡ s.shown + length s.own) };
}

impl Scope {
    /// The scope without variables.
    pub fn new(alloc: Global) -> Result<Scope, Memory>
        ensures { IfOk result (λ s. s ≡ []) }
    {
        Scope::over(alloc, Segments::new(alloc), Names::new(alloc))
    }

    /// The scope of variables from outside a batch, which assigns variables of these names.
    pub(crate) fn over(alloc: Global, outer: Segments, assigned: Names) -> Result<Scope, Memory>
        ensures { IfOk result (λ s. s ≡ scopes.scope_with assigned outer) }
    {
        let shown = outer.len();
        let assigned = Shared::new(alloc, Assigned { names: assigned })?;
        Ok(Scope {
            outer,
            shown,
            assigned,
            own: Variables::new(alloc),
            count: shown,
        })
    }

    // The role and the node of the variable of a name.
    #[tactic(auto, using(crate::proofs::Seen::seen_first))]
    fn find(&self, name: &Word) -> Option<(Role, u32)>
        ensures { result ≡ option_map role_and_node (scopes.variable_named self.now name.now) }
    {
        match self.outer.find_within(self.shown, name) {
            Some(v) => Some((self.assigned.get().role_of(v), v.node)),
            None => match self.own.find(name) {
                Some(v) => Some((v.role, v.node)),
                None => None,
            },
        }
    }

    /// What the variable of a name is to the batch: plain where there is none.
    #[tactic(auto, using(crate::proofs::Seen::role_found))]
    pub fn role_of(&self, name: &Word) -> Role
        ensures { result ≡ scopes.role_of self.now name.now }
    {
        match self.find(name) {
            Some((role, _)) => role,
            None => Role::Plain,
        }
    }

    /// The node of the variable of a name.
    #[tactic(auto, using(crate::proofs::Seen::node_found))]
    pub fn node_of(&self, name: &Word) -> Option<u32>
        ensures { option_to_list result ≡ scopes.node_of self.now name.now }
    {
        match self.find(name) {
            Some((_, node)) => Some(node),
            None => None,
        }
    }

    /// The name and the node of the variable that was bound last.
    #[tactic(auto, using(crate::proofs::Seen::seen_count, crate::proofs::Seen::newest_none))]
    pub fn newest(&self) -> Option<(&Word, u32)>
        ensures { option_map (λ v. (v.0.now, v.1)) result ≡ newest self.now }
    {
        let place = self.count.checked_sub(1)?;
        let v = self.get(place)?;
        Some((&v.name, v.node))
    }

    // The variable at a place, as it was bound: with its name and its node.
    #[tactic(auto, using(crate::proofs::Seen::seen_outer, crate::proofs::Seen::seen_own))]
    fn get(&self, place: usize) -> Option<&Variable>
        ensures { option_map name_and_node (option_copied result) ≡ option_map name_and_node (slice_get self.now place) }
    {
        if place < self.shown {
            self.outer.get(place)
        } else {
            self.own.get(place - self.shown)
        }
    }

    /// Adds a variable at the end.
    pub fn bind(&mut self, alloc: Global, name: &Word, role: Role, node: u32) -> Result<(), Memory>
        ensures { OnOk result (self.new ≡ scopes.with_variable self.old name.now role node) }
    {
        let count = self.count.checked_add(1).ok_or(Memory)?;
        self.own.bind(alloc, name, role, node)?;
        self.count = count;
        Ok(())
    }

    /// How many variables are in scope.
    #[tactic(auto, using(crate::proofs::Seen::seen_count))]
    pub fn len(&self) -> usize
        ensures { result ≡ length self.now }
    {
        self.count
    }

    /// Ends a block: the first `count` variables stay.
    #[tactic(auto, using(crate::proofs::Seen::seen_cut))]
    pub fn truncate(&mut self, count: usize)
        ensures { self.new ≡ take count self.old }
    {
        self.own.truncate(count.saturating_sub(self.shown));
        self.shown = self.shown.min(count);
        self.count = self.count.min(count);
    }

    /// The same variables in a scope of its own.
    pub fn copy(&self, alloc: Global) -> Result<Scope, Memory>
        ensures { IfOk result (λ s. s ≡ self.now) }
    {
        let mut own = Variables::new(alloc);
        own.bind_all(alloc, &self.own)?;
        Ok(Scope {
            outer: self.outer.share(alloc)?,
            shown: self.shown,
            assigned: self.assigned.share()?,
            own,
            count: self.count,
        })
    }
}
