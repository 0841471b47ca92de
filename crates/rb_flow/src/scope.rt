// What the variable of a name is to a batch.

ghost use Rattle.std.specs.Prelude.{◌≡◌, OnOk};
ghost use Rattle.rb_meaning_flow.specs.Scopes as scopes;
ghost use Rattle.rb_flow.specs.Views.{node_list};

use rb_meaning_flow::Role;
use rb_scopes::Scope;
use rb_trees::{Memory, Word};
use std::alloc::Global;

/// The role of the variable of a name.
pub fn role_of(scope: &Scope, name: &Word) -> Role
    ensures { result ≡ scopes.role_of scope.now name.now }
{
    scope.role_of(name)
}

/// The node of the variable of a name.
pub fn node_of(scope: &Scope, name: &Word) -> Option<u32>
    ensures { node_list result ≡ scopes.node_of scope.now name.now }
{
    scope.node_of(name)
}

/// Adds a variable at the end.
pub fn bind(
    alloc: Global,
    scope: &mut Scope,
    name: &Word,
    role: Role,
    node: u32,
) -> Result<(), Memory>
    ensures { OnOk result (scope.new ≡ scopes.with_variable scope.old name.now role node) }
{
    scope.bind(alloc, name, role, node)
}
