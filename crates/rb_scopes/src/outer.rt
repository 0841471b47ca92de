// The scope of code outside of batches.

ghost use Rattle.std.specs.Prelude.{◌≡◌, [], IfOk, OnOk};
ghost use Rattle.rb_meaning_flow.specs.declared.scopes.Role.{Role};
ghost use Rattle.rb_meaning_flow.specs.Scopes as scopes;

use crate::scope::Scope;
use crate::segments::Segments;
use crate::variables::Variables;
use rb_meaning_flow::Role;
use rb_names::Names;
use rb_trees::{Memory, Word};
use std::alloc::Global;
use std::marker::Model;
use std::mem;

/// The variables in scope outside of batches, in order of binding. Contracts see their list.
#[derive(Drop)]
pub struct OuterScope {
    // those that scopes inside of it share
    earlier: Segments,
    // those that were bound since
    own: Variables,
}

impl Model for OuterScope {
    ghost use Rattle.std.specs.Prelude.{List, ◌++◌};
    ghost use Rattle.std.specs.Coded.{coded_list};
    ghost use Rattle.rb_meaning_flow.specs.declared.scopes.Variable.{Variable};
    ghost use Rattle.rb_meaning_flow.specs.contracts.scopes.Variable as variable_code;

    ghost Value = { List Variable };

    ghost coded = { coded_list variable_code.the_row.coded };

    ghost view = { λ s. s.earlier ++ s.own };
}

impl OuterScope {
    /// The scope without variables.
    pub fn new(alloc: Global) -> OuterScope
        ensures { result ≡ [] }
    {
        OuterScope {
            earlier: Segments::new(alloc),
            own: Variables::new(alloc),
        }
    }

    /// Adds a variable at the end.
    pub fn bind(&mut self, alloc: Global, name: &Word, role: Role, node: u32) -> Result<(), Memory>
        ensures { OnOk result (self.new ≡ scopes.with_variable self.old name.now role node) }
    {
        self.own.bind(alloc, name, role, node)
    }

    // All variables, shared.
    fn shared(&mut self, alloc: Global) -> Result<Segments, Memory>
        ensures all { IfOk result (λ all. all ≡ self.old) }
        ensures same { OnOk result (self.new ≡ self.old) }
    {
        if self.own.len() > 0 {
            let own = mem::replace(&mut self.own, Variables::new(alloc));
            let earlier = mem::replace(&mut self.earlier, Segments::new(alloc));
            self.earlier = earlier.with(alloc, own)?;
        }
        self.earlier.share(alloc)
    }

    /// The scope in which a block begins. This one stays.
    pub fn begin_block(&mut self, alloc: Global) -> Result<OuterScope, Memory>
        ensures block { IfOk result (λ s. s ≡ self.old) }
        ensures same { OnOk result (self.new ≡ self.old) }
    {
        Ok(OuterScope {
            earlier: self.shared(alloc)?,
            own: Variables::new(alloc),
        })
    }

    /// The scope in which the block of a batch begins that stands at this position, has this root, and assigns variables of these
    /// names: `opened`. This one stays.
    pub fn open(
        &mut self,
        alloc: Global,
        assigned: Names,
        root: &Word,
        at: u32,
    ) -> Result<Scope, Memory>
        ensures batch { IfOk result (λ s. s ≡ scopes.scope_with assigned (scopes.with_variable self.old root.now Role.Root at)) }
        ensures same { OnOk result (self.new ≡ self.old) }
    {
        let outer = self.shared(alloc)?;
        let mut scope = Scope::over(alloc, outer, assigned)?;
        scope.bind(alloc, root, Role::Root, at)?;
        Ok(scope)
    }
}
