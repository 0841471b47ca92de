// What a block begins with, or a statement declares.

ghost use Rattle.std.specs.Prelude.{◌≡◌, OnOk};
ghost use Rattle.rb_meaning_flow.specs.declared.scopes.Role.{Role};
ghost use Rattle.rb_marks.specs.Views.{with_declared};

use rb_meaning_flow::Role;
use rb_scopes::Scope;
use rb_trees::{Memory, Word};
use std::alloc::Global;

/// A variable that a block begins with, or that a statement declares: its name, its role, and its position.
#[derive(Clone, Copy)]
pub struct Declared<'a> {
    pub name: &'a Word,
    pub role: Role,
    pub at: u32,
}

impl<'a> Declared<'a> {
    /// A plain variable.
    pub fn plain(name: &'a Word, at: u32) -> Declared<'a>
        ensures { result ≡ record { name = name.exit; role = Role.Plain; at = at } }
    {
        Declared {
            name,
            role: Role::Plain,
            at,
        }
    }
}

/// Adds the variable at the end of a scope.
pub fn bind_declared(
    alloc: Global,
    scope: &mut Scope,
    declared: &Declared<'_>,
) -> Result<(), Memory>
    ensures { OnOk result (scope.new ≡ with_declared scope.old declared.now) }
{
    scope.bind(alloc, declared.name, declared.role, declared.at)
}
