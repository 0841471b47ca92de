// What a walk through a batch asks.

ghost use Rattle.std.specs.Prelude.{◌≡◌, ◌++◌, OnOk, IfOk};
ghost use Rattle.rb_trees.specs.mirror.Code.{mirror_expr, mirror_stmt, mirror_stmts};
ghost use Rattle.rb_meaning_flow.specs.Scopes as scopes;
ghost use Rattle.rb_marks.specs.Views.{seen};

use crate::facts::Facts;
use rb_meaning_flow::Role;
use rb_names::Names;
use rb_scopes::Scope;
use rb_trees::{Expr, ExprForm, Memory, Stmt, StmtForm, Word, copy_word};
use std::alloc::Global;

/// What a walk through a batch asks: the facts of the program, and which variables the batch assigns.
#[derive(Drop)]
pub struct Batch<'a, 'p> {
    pub alloc: Global,
    pub facts: &'a Facts<'p>,
    pub assigned: Names,
}

#[tactic(auto, using(crate::proofs::Rules::expr_rules))]
fn note_variable(alloc: Global, names: &mut Names, left: &Expr) -> Result<(), Memory>
    ensures { OnOk result (names.new ≡ names.old ++ scopes.assigned_variable (mirror_expr left.now)) }
{
    match &left.form {
        ExprForm::Name(name) => {
            let name = copy_word(alloc, name)?;
            names.push(alloc, name)
        }
        ExprForm::Lit(_) | ExprForm::This | ExprForm::Unary(_, _) => Ok(()),
        ExprForm::Binary(_, _, _) | ExprForm::Field(_, _) | ExprForm::Call(_, _, _) => Ok(()),
        ExprForm::Index(_, _) | ExprForm::New(_, _) => Ok(()),
        ExprForm::Items(_, _) | ExprForm::Taken(_) => Ok(()),
    }
}

#[cycle(assignments)]
#[tactic(auto, using(crate::proofs::Rules::stmt_rules))]
fn note_assigned(alloc: Global, names: &mut Names, s: &Stmt) -> Result<(), Memory>
    ensures { OnOk result (names.new ≡ names.old ++ scopes.assigned_by (mirror_stmt s.now)) }
{
    match &s.form {
        StmtForm::Val(_, _) | StmtForm::Var(_, _) | StmtForm::Run(_) => Ok(()),
        StmtForm::Print(_) | StmtForm::Throw(_) => Ok(()),
        StmtForm::Assign(a, _) => note_variable(alloc, names, a),
        StmtForm::If(_, a, b) | StmtForm::Try(a, _, b) => {
            note_all_assigned(alloc, names, a.as_slice())?;
            note_all_assigned(alloc, names, b.as_slice())
        }
        StmtForm::While(_, a) | StmtForm::For(_, _, a) | StmtForm::Batch(_, _, a) => {
            note_all_assigned(alloc, names, a.as_slice())
        }
    }
}

#[cycle(assignments)]
#[tactic(auto, using(crate::proofs::Rules::stmt_rules))]
fn note_all_assigned(alloc: Global, names: &mut Names, ss: &[Stmt]) -> Result<(), Memory>
    ensures { OnOk result (names.new ≡ names.old ++ scopes.assigned_in (mirror_stmts ss.now)) }
{
    for s in ss {
        note_assigned(alloc, names, s)?;
    }
    Ok(())
}

fn is_constant_role(role: Role) -> bool
    ensures { result ≡ scopes.is_constant_role role }
{
    match role {
        Role::Constant => true,
        Role::ConstantList | Role::Root | Role::Row | Role::Carried | Role::Plain => false,
    }
}

fn is_list_role(role: Role) -> bool
    ensures { result ≡ scopes.is_list_role role }
{
    match role {
        Role::ConstantList => true,
        Role::Constant | Role::Root | Role::Row | Role::Carried | Role::Plain => false,
    }
}

impl<'a, 'p> Batch<'a, 'p> {
    /// Begins a walk through a batch with this block.
    pub fn new(alloc: Global, facts: &'a Facts<'p>, block: &[Stmt]) -> Result<Batch<'a, 'p>, Memory>
        ensures facts { IfOk result (λ x. x.facts.now ≡ facts.now) }
        ensures assigned { IfOk result (λ x. x.assigned ≡ scopes.assigned_in (mirror_stmts block.now)) }
    {
        let mut assigned = Names::new(alloc);
        note_all_assigned(alloc, &mut assigned, block)?;
        Ok(Batch {
            alloc,
            facts,
            assigned,
        })
    }

    fn role_with(&self, name: &Word, role: Role) -> Role
        ensures { result ≡ scopes.role_with self.now.assigned name.now role }
    {
        if (is_constant_role(role) || is_list_role(role)) && self.assigned.has(name) {
            Role::Plain
        } else {
            role
        }
    }

    /// What the variable of a name is to the batch.
    #[tactic(auto, using(crate::proofs::Scopes::role_seen))]
    pub fn role_of(&self, scope: &Scope, name: &Word) -> Role
        ensures { result ≡ scopes.role_of (seen self.now scope.now) name.now }
    {
        self.role_with(name, scope.role_of(name))
    }

    /// Whether the variable of a name is constant in the batch.
    pub fn is_constant(&self, scope: &Scope, name: &Word) -> bool
        ensures { result ≡ scopes.is_constant_role (scopes.role_of (seen self.now scope.now) name.now) }
    {
        is_constant_role(self.role_of(scope, name))
    }

    /// Whether it is a constant list.
    pub fn is_list(&self, scope: &Scope, name: &Word) -> bool
        ensures { result ≡ scopes.is_list_role (scopes.role_of (seen self.now scope.now) name.now) }
    {
        is_list_role(self.role_of(scope, name))
    }

    /// Whether it is portable.
    pub fn is_portable(&self, scope: &Scope, name: &Word) -> bool
        ensures { result ≡ scopes.is_portable_role (scopes.role_of (seen self.now scope.now) name.now) }
    {
        match self.role_of(scope, name) {
            Role::Constant | Role::Root | Role::Row | Role::Carried => true,
            Role::ConstantList | Role::Plain => false,
        }
    }
}
