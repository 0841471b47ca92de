// The variables in scope after a statement at a script place.

#![tactic(auto, using(crate::proofs::Scoped::scope_rules))]

ghost use Rattle.std.specs.Prelude.{◌≡◌, OnOk};
ghost use Rattle.rb_trees.specs.mirror.Code.{mirror_stmt};
ghost use Rattle.rb_split.specs.Views.{plain_scope};

use rb_meaning_flow::Role;
use rb_scopes::Scope;
use rb_trees::{Memory, Stmt, StmtForm};
use std::alloc::Global;

/// Binds what a statement declares that carries nothing.
pub fn bind_plain(alloc: Global, scope: &mut Scope, s: &Stmt) -> Result<(), Memory>
    ensures { OnOk result (scope.new ≡ plain_scope scope.old (mirror_stmt s.now)) }
{
    match &s.form {
        StmtForm::Val(name, _) | StmtForm::Var(name, _) => {
            scope.bind(alloc, name, Role::Plain, s.at)
        }
        StmtForm::Assign(_, _) | StmtForm::Run(_) | StmtForm::Print(_) => Ok(()),
        StmtForm::Throw(_) | StmtForm::If(_, _, _) | StmtForm::While(_, _) => Ok(()),
        StmtForm::For(_, _, _) | StmtForm::Try(_, _, _) | StmtForm::Batch(_, _, _) => Ok(()),
    }
}
