// The checker's state, and what a rule does to the variables in scope.
#![tactic(auto, using(crate::proofs::Rules::rules))]

ghost use Rattle.std.specs.Prelude.{◌≡◌, [], map};
ghost use Rattle.rb_trees.specs.mirror.Declarations.{mirror_param};
ghost use Rattle.rb_meaning_types.specs.Kinds.{kind_of_form};
ghost use Rattle.rb_meaning_types.specs.Scopes as scopes;
ghost use Rattle.rb_meaning_types.specs.Statements as statements;
ghost use Rattle.rb_types.specs.Checks.{state_of, Checks, Types};
ghost use Rattle.rb_types.specs.Steps as steps;
ghost use Rattle.rb_types.specs.Views.{context_of, scope_of, placed_of, notes_of};

use crate::context::Context;
use crate::kinds::{Placed, copy_kind, is_unit, wrong_type};
use crate::places::is_interface;
use crate::scope::Scope;
use rb_trees::{Seq, TypeError, TypeForm, Word, copy_word};
use std::alloc::Global;

/// The variables in scope, and the types that were found so far.
#[derive(Drop)]
pub struct Checker {
    pub alloc: Global,
    pub scope: Scope,
    pub notes: Seq<Placed>,
}

fn turn_kind(alloc: Global, p: &Placed) -> Result<TypeForm, TypeError>
    ensures { Types result (statements.turn_kind (placed_of p.now) (kind_of_form p.now.kind)) }
{
    match &p.kind {
        TypeForm::ListOf(item) => copy_kind(alloc, &item.get().form),
        TypeForm::RowsOf(row) => copy_kind(alloc, &row.get().form),
        TypeForm::Int | TypeForm::Bool | TypeForm::Text => Err(wrong_type(alloc, p)),
        TypeForm::Unit | TypeForm::Named(_) => Err(wrong_type(alloc, p)),
    }
}

impl Checker {
    /// Nothing in scope, and no notes.
    pub fn new(alloc: Global) -> Checker
        ensures { state_of result ≡ record { scope = []; notes = [] } }
    {
        Checker {
            alloc,
            scope: Scope::new(alloc),
            notes: Seq::new(alloc),
        }
    }

    /// Notes the type of the expression at a position.
    pub fn note(&mut self, at: u32, kind: &TypeForm) -> Result<(), TypeError>
        ensures { Checks (steps.note at (kind_of_form kind.now)) self.old result self.new }
    {
        let kind = copy_kind(self.alloc, kind)?;
        self.notes.push(Placed { at, kind })?;
        Ok(())
    }

    /// Binds a new variable, with copies of its name and type.
    pub fn bind(&mut self, name: &Word, kind: &TypeForm, fixed: bool) -> Result<(), TypeError>
        ensures { Checks (steps.bind name.now (kind_of_form kind.now) fixed) self.old result self.new }
    {
        let name = copy_word(self.alloc, name)?;
        let kind = copy_kind(self.alloc, kind)?;
        self.scope.bind(self.alloc, name, kind, fixed)?;
        Ok(())
    }

    /// The variable of a `val` or `var`, with its initialiser.
    #[tactic(auto, using(crate::proofs::Rules::rules), unfolding(crate::specs::Steps::declare))]
    pub fn declare(
        &mut self,
        at: u32,
        name: &Word,
        fixed: bool,
        p: &Placed,
    ) -> Result<(), TypeError>
        ensures { Checks (steps.declare at name.now fixed (placed_of p.now)) self.old result self.new }
    {
        if !self.scope.is_free(name) {
            return Err(TypeError::NameTaken(at));
        }
        if is_unit(&p.kind) {
            return Err(wrong_type(self.alloc, p));
        }
        self.bind(name, &p.kind, fixed)
    }

    /// The variable of a loop over what `p` is.
    #[tactic(auto, using(crate::proofs::Rules::rules), unfolding(crate::specs::Steps::open_loop))]
    pub fn open_loop(&mut self, at: u32, name: &Word, p: &Placed) -> Result<(), TypeError>
        ensures { Checks (steps.open_loop at name.now (placed_of p.now)) self.old result self.new }
    {
        if !self.scope.is_free(name) {
            return Err(TypeError::NameTaken(at));
        }
        let kind = turn_kind(self.alloc, p)?;
        self.bind(name, &kind, true)
    }

    /// The name of a fault that is caught.
    #[tactic(auto, using(crate::proofs::Rules::rules), unfolding(crate::specs::Steps::open_catch))]
    pub fn open_catch(&mut self, at: u32, name: &Word) -> Result<(), TypeError>
        ensures { Checks (steps.open_catch at name.now) self.old result self.new }
    {
        if !self.scope.is_free(name) {
            return Err(TypeError::NameTaken(at));
        }
        self.bind(name, &TypeForm::Text, true)
    }

    /// The root of a batch.
    #[tactic(auto, using(crate::proofs::Rules::rules), unfolding(crate::specs::Steps::open_batch))]
    pub fn open_batch(
        &mut self,
        x: &Context,
        at: u32,
        interface: &Word,
        root: &Word,
    ) -> Result<(), TypeError>
        ensures { Checks (steps.open_batch (context_of x.now) at interface.now root.now) self.old result self.new }
    {
        if !self.scope.is_free(root) {
            return Err(TypeError::NameTaken(at));
        }
        if !is_interface(x.declared, interface) {
            return Err(TypeError::UnknownName(at));
        }
        if !x.remote {
            return Err(TypeError::NotAllowedHere(at));
        }
        let kind = TypeForm::Named(copy_word(self.alloc, interface)?);
        self.bind(root, &kind, true)
    }
}
