// Statements: what they do to the variables in scope.
#![tactic(auto, using(crate::proofs::Rules::rules))]

ghost use Rattle.std.specs.Prelude.{◌≡◌};
ghost use Rattle.rb_trees.specs.mirror.Code.{mirror_expr, mirror_stmt, mirror_stmts};
ghost use Rattle.rb_meaning_types.specs.Kinds.{kind_of_form};
ghost use Rattle.rb_meaning_types.specs.Statements as statements;
ghost use Rattle.rb_types.specs.Checks.{Checks, Leaves};
ghost use Rattle.rb_types.specs.Steps as steps;
ghost use Rattle.rb_types.specs.Views.{declarations_of, context_of, scope_of, placed_of};

use crate::checker::Checker;
use crate::context::{Context, Declarations};
use crate::kinds::{Placed, wanted, wrong_type};
use crate::places::is_interface;
use crate::scope::Scope;
use rb_trees::{Expr, ExprForm, Stmt, StmtForm, TypeError, TypeForm, Word};
use std::alloc::Global;

#[tactic(auto, using(crate::proofs::ExprRules::expr_rules))]
fn is_assignable(scope: &Scope, left: &Expr) -> bool
    ensures { result ≡ statements.is_assignable (scope_of scope.now) (mirror_expr left.now) }
{
    match &left.form {
        ExprForm::Name(name) => match scope.find(name) {
            Some(variable) => !variable.fixed,
            None => false,
        },
        ExprForm::Field(_, _) => true,
        ExprForm::Lit(_) | ExprForm::This | ExprForm::Unary(_, _) => false,
        ExprForm::Binary(_, _, _) | ExprForm::Call(_, _, _) | ExprForm::Index(_, _) => false,
        ExprForm::New(_, _) | ExprForm::Items(_, _) | ExprForm::Taken(_) => false,
    }
}

fn assign(
    alloc: Global,
    scope: &Scope,
    at: u32,
    left: &Expr,
    p: &Placed,
    q: &Placed,
) -> Result<(), TypeError>
    ensures { Leaves (λ s. statements.assign s at (mirror_expr left.now) (placed_of p.now) (placed_of q.now)) scope.now result }
{
    if !is_assignable(scope, left) {
        return Err(TypeError::NotAssignable(at));
    }
    wanted(alloc, &p.kind, q)
}

fn is_printable(d: &Declarations, kind: &TypeForm) -> bool
    ensures { result ≡ statements.is_printable (declarations_of d.now) (kind_of_form kind.now) }
{
    match kind {
        TypeForm::Int | TypeForm::Bool | TypeForm::Text | TypeForm::RowsOf(_) => true,
        TypeForm::Named(name) => is_interface(d, name),
        TypeForm::Unit | TypeForm::ListOf(_) => false,
    }
}

fn print(
    alloc: Global,
    d: &Declarations,
    scope: &Scope,
    at: u32,
    p: &Placed,
) -> Result<(), TypeError>
    ensures { Leaves (λ s. statements.print (declarations_of d.now) s at (placed_of p.now)) scope.now result }
{
    if !is_printable(d, &p.kind) {
        return Err(wrong_type(alloc, p));
    }
    if d.service {
        return Err(TypeError::NotAllowedHere(at));
    }
    Ok(())
}

impl Checker {
    #[tactic(auto, using(crate::proofs::Rules::rules), unfolding(crate::specs::Steps::variable))]
    fn check_variable(
        &mut self,
        x: &Context,
        at: u32,
        name: &Word,
        fixed: bool,
        e: &Expr,
    ) -> Result<(), TypeError>
        ensures { Checks (steps.variable (context_of x.now) at name.now fixed (mirror_expr e.now)) self.old result self.new }
    {
        let p = self.check_expr(x, e)?;
        self.declare(at, name, fixed, &p)
    }

    #[tactic(auto, using(crate::proofs::Rules::rules), unfolding(crate::specs::Steps::assign))]
    fn check_assign(&mut self, x: &Context, at: u32, a: &Expr, b: &Expr) -> Result<(), TypeError>
        ensures { Checks (steps.assign (context_of x.now) at (mirror_expr a.now) (mirror_expr b.now)) self.old result self.new }
    {
        let p = self.check_expr(x, a)?;
        let q = self.check_expr(x, b)?;
        assign(self.alloc, &self.scope, at, a, &p, &q)
    }

    #[tactic(auto, using(crate::proofs::Rules::rules), unfolding(crate::specs::Steps::run))]
    fn check_run(&mut self, x: &Context, e: &Expr) -> Result<(), TypeError>
        ensures { Checks (steps.run (context_of x.now) (mirror_expr e.now)) self.old result self.new }
    {
        self.check_expr(x, e)?;
        Ok(())
    }

    #[tactic(auto, using(crate::proofs::Rules::rules), unfolding(crate::specs::Steps::print))]
    fn check_print(&mut self, x: &Context, at: u32, e: &Expr) -> Result<(), TypeError>
        ensures { Checks (steps.print (context_of x.now) at (mirror_expr e.now)) self.old result self.new }
    {
        let p = self.check_expr(x, e)?;
        print(self.alloc, x.declared, &self.scope, at, &p)
    }

    #[tactic(auto, using(crate::proofs::Rules::rules), unfolding(crate::specs::Steps::throw))]
    fn check_throw(&mut self, x: &Context, e: &Expr) -> Result<(), TypeError>
        ensures { Checks (steps.throw (context_of x.now) (mirror_expr e.now)) self.old result self.new }
    {
        let p = self.check_expr(x, e)?;
        wanted(self.alloc, &TypeForm::Text, &p)
    }

    #[tactic(auto, using(crate::proofs::Rules::rules), unfolding(crate::specs::Steps::condition))]
    fn check_condition(&mut self, x: &Context, e: &Expr) -> Result<(), TypeError>
        ensures { Checks (steps.condition (context_of x.now) (mirror_expr e.now)) self.old result self.new }
    {
        let p = self.check_expr(x, e)?;
        wanted(self.alloc, &TypeForm::Bool, &p)
    }

    /// Opens the block of a loop over the items or rows of what `e` gives.
    #[tactic(auto, using(crate::proofs::Rules::rules), unfolding(crate::specs::Steps::open_turns))]
    fn open_turns(&mut self, x: &Context, at: u32, name: &Word, e: &Expr) -> Result<(), TypeError>
        ensures { Checks (steps.open_turns (context_of x.now) at name.now (mirror_expr e.now)) self.old result self.new }
    {
        let p = self.check_expr(x, e)?;
        self.open_loop(at, name, &p)
    }

    /// What a statement does to the scope, or the first violation in it. What the judgement gives to its
    /// expressions goes to the notes.
    #[cycle(stmts)]
    #[tactic(auto, using(crate::proofs::StmtRules::stmt_rules))]
    fn check_stmt(&mut self, x: &Context, s: &Stmt) -> Result<(), TypeError>
        ensures { Checks (steps.stmt (context_of x.now) (mirror_stmt s.now)) self.old result self.new }
    {
        let at = s.at;
        match &s.form {
            StmtForm::Val(name, e) => self.check_variable(x, at, name, true, e),
            StmtForm::Var(name, e) => self.check_variable(x, at, name, false, e),
            StmtForm::Assign(a, b) => self.check_assign(x, at, a, b),
            StmtForm::Run(e) => self.check_run(x, e),
            StmtForm::Print(e) => self.check_print(x, at, e),
            StmtForm::Throw(e) => self.check_throw(x, e),
            StmtForm::If(c, a, b) => {
                self.check_condition(x, c)?;
                self.check_block(x, a.as_slice())?;
                self.check_block(x, b.as_slice())
            }
            StmtForm::While(c, a) => {
                self.check_condition(x, c)?;
                self.check_block(x, a.as_slice())
            }
            StmtForm::For(name, e, a) => {
                let outer = self.scope.len();
                self.open_turns(x, at, name, e)?;
                self.check_inside(x, outer, a.as_slice())
            }
            StmtForm::Try(a, name, b) => {
                self.check_block(x, a.as_slice())?;
                let outer = self.scope.len();
                self.open_catch(at, name)?;
                self.check_inside(x, outer, b.as_slice())
            }
            StmtForm::Batch(interface, root, a) => {
                let outer = self.scope.len();
                self.open_batch(x, at, interface, root)?;
                self.check_inside(x, outer, a.as_slice())
            }
        }
    }

    /// The names of a block are gone at its end.
    #[cycle(stmts)]
    #[tactic(auto, using(crate::proofs::StmtRules::stmt_rules), unfolding(crate::specs::Steps::block))]
    fn check_block(&mut self, x: &Context, ss: &[Stmt]) -> Result<(), TypeError>
        ensures { Checks (steps.block (context_of x.now) (mirror_stmts ss.now)) self.old result self.new }
    {
        let outer = self.scope.len();
        self.check_inside(x, outer, ss)
    }

    /// The statements of a block, at whose end `outer` variables stay.
    #[cycle(stmts)]
    #[tactic(auto, using(crate::proofs::StmtRules::stmt_rules), unfolding(crate::specs::Steps::inside))]
    fn check_inside(&mut self, x: &Context, outer: usize, ss: &[Stmt]) -> Result<(), TypeError>
        ensures { Checks (steps.inside (context_of x.now) outer (mirror_stmts ss.now)) self.old result self.new }
    {
        self.check_stmts(x, ss)?;
        self.scope.truncate(outer);
        Ok(())
    }

    /// Statements in order: each sees the scope that those before it leave.
    #[cycle(stmts)]
    #[tactic(auto, using(crate::proofs::StmtRules::stmt_rules))]
    pub fn check_stmts(&mut self, x: &Context, ss: &[Stmt]) -> Result<(), TypeError>
        ensures { Checks (steps.stmts (context_of x.now) (mirror_stmts ss.now)) self.old result self.new }
    {
        for s in ss {
            self.check_stmt(x, s)?;
        }
        Ok(())
    }
}
