// What the types of a program tell of its expressions.
#![tactic(auto, using(crate::proofs::Rules::fact_rules), unfolding(rb_meaning_flow::specs::Facts::facts_of))]

ghost use Rattle.std.specs.Prelude.{◌≡◌, IfOk};
ghost use Rattle.rb_trees.specs.mirror.Code.{mirror_expr};
ghost use Rattle.rb_trees.specs.mirror.Declarations.{mirror_program};
ghost use Rattle.rb_meaning_types.specs.Declared.{of_program};
ghost use Rattle.rb_meaning_types.specs.Kinds as kinds;
ghost use Rattle.rb_meaning_types.specs.Kinds.{kind_of_form};
ghost use Rattle.rb_meaning_types.specs.Names.{class_named};
ghost use Rattle.rb_meaning_flow.specs.Facts as words;
ghost use Rattle.rb_meaning_flow.specs.Facts.{facts_of};
ghost use Rattle.rb_meaning_flow.specs.Flow as flow;
ghost use Rattle.rb_meaning_flow.specs.Refusals as refusals;

use rb_trees::{Expr, ExprForm, Memory, TypeForm, Word};
use rb_types::{Declarations, Typed};
use std::alloc::Global;
use std::marker::Model;

/// What the types of a program tell of its expressions, by their positions. Contracts see the program,
/// and `facts_of` says what is told.
#[derive(Drop)]
pub struct Facts<'p> {
    typed: &'p Typed,
    // its interfaces and classes, which are found by name
    declared: Declarations<'p>,
}

impl<'p> Model for Facts<'p> {
    ghost use Rattle.std.specs.Prelude.{◌≡◌};
    ghost use Rattle.rb_trees.specs.declared.declarations.Program.{Program};
    ghost use Rattle.rb_trees.specs.contracts.declarations.Program as program_code;
    ghost use Rattle.rb_trees.specs.mirror.Declarations.{mirror_program};
    ghost use Rattle.rb_meaning_types.specs.Declared.{of_program};
    ghost use Rattle.rb_types.specs.Views.{declarations_of};

    ghost Value = { Program };

    ghost coded = { program_code.the_row.coded };

    ghost view = { λ f. f.typed.now };

    ghost invariant = { λ f. declarations_of f.declared ≡ of_program (mirror_program f.typed.now) };
}

/// Whether a type is Int, Bool or Text.
pub fn is_primitive(kind: &TypeForm) -> bool
    ensures { result ≡ kinds.is_primitive (kind_of_form kind.now) }
{
    match kind {
        TypeForm::Int | TypeForm::Bool | TypeForm::Text => true,
        TypeForm::Unit | TypeForm::Named(_) => false,
        TypeForm::ListOf(_) | TypeForm::RowsOf(_) => false,
    }
}

/// Whether a type is a List or Rows of such.
pub fn has_primitive_items(kind: &TypeForm) -> bool
    ensures { result ≡ words.has_primitive_items (kind_of_form kind.now) }
{
    match kind {
        TypeForm::ListOf(item) | TypeForm::RowsOf(item) => is_primitive(&item.get().form),
        TypeForm::Int | TypeForm::Bool | TypeForm::Text => false,
        TypeForm::Unit | TypeForm::Named(_) => false,
    }
}

// Whether a type is a List of Lists of such.
fn has_list_items(kind: &TypeForm) -> bool
    ensures { result ≡ words.has_list_items (kind_of_form kind.now) }
{
    match kind {
        TypeForm::ListOf(item) => match &item.get().form {
            TypeForm::ListOf(inner) => is_primitive(&inner.get().form),
            TypeForm::Int | TypeForm::Bool | TypeForm::Text => false,
            TypeForm::Unit | TypeForm::Named(_) | TypeForm::RowsOf(_) => false,
        },
        TypeForm::Int | TypeForm::Bool | TypeForm::Text => false,
        TypeForm::Unit | TypeForm::Named(_) | TypeForm::RowsOf(_) => false,
    }
}

fn is_rows(kind: &TypeForm) -> bool
    ensures { result ≡ words.is_rows (kind_of_form kind.now) }
{
    match kind {
        TypeForm::RowsOf(_) => true,
        TypeForm::Int | TypeForm::Bool | TypeForm::Text => false,
        TypeForm::Unit | TypeForm::Named(_) | TypeForm::ListOf(_) => false,
    }
}

impl<'p> Facts<'p> {
    /// The facts of a program.
    pub fn new(alloc: Global, typed: &'p Typed) -> Result<Facts<'p>, Memory>
        ensures { IfOk result (λ facts. facts ≡ typed.now) }
    {
        let declared = Declarations::of_program(alloc, typed.program())?;
        Ok(Facts { typed, declared })
    }

    /// The program.
    pub fn typed(&self) -> &'p Typed
        ensures { result.now ≡ self.now }
    {
        self.typed
    }

    fn is_object(&self, kind: &TypeForm) -> bool
        ensures { result ≡ words.is_object (of_program (mirror_program self.now)) (kind_of_form kind.now) }
    {
        match kind {
            TypeForm::Named(name) => self.declared.interfaces.find(name).is_some(),
            TypeForm::Int | TypeForm::Bool | TypeForm::Text => false,
            TypeForm::Unit | TypeForm::ListOf(_) | TypeForm::RowsOf(_) => false,
        }
    }

    fn class_has(&self, name: &Word, method: &Word) -> bool
        ensures { result ≡ words.class_has_remote method.now (class_named (of_program (mirror_program self.now)).classes name.now) }
    {
        match self.declared.classes.find(name) {
            Some(class) => match class.find_method(method) {
                Some(method) => method.remote,
                None => false,
            },
            None => false,
        }
    }

    fn has_remote_method(&self, kind: &TypeForm, method: &Word) -> bool
        ensures { result ≡ words.has_remote_method (of_program (mirror_program self.now)) method.now (kind_of_form kind.now) }
    {
        match kind {
            TypeForm::Named(name) => self.class_has(name, method),
            TypeForm::Int | TypeForm::Bool | TypeForm::Text => false,
            TypeForm::Unit | TypeForm::ListOf(_) | TypeForm::RowsOf(_) => false,
        }
    }

    fn has_remote_method_at(&self, at: u32, method: &Word) -> bool
        ensures { result ≡ (facts_of (mirror_program self.now)).remote_method at method.now }
    {
        match self.typed.type_of(at) {
            Some(kind) => self.has_remote_method(kind, method),
            None => false,
        }
    }

    /// Whether an expression is an Int, a Bool or a Text.
    pub fn is_primitive(&self, e: &Expr) -> bool
        ensures { result ≡ (facts_of (mirror_program self.now)).primitive e.now.at }
    {
        match self.typed.type_of(e.at) {
            Some(kind) => is_primitive(kind),
            None => false,
        }
    }

    /// Whether an expression is a list or rows of such.
    pub fn has_primitive_items(&self, e: &Expr) -> bool
        ensures { result ≡ (facts_of (mirror_program self.now)).items e.now.at }
    {
        match self.typed.type_of(e.at) {
            Some(kind) => has_primitive_items(kind),
            None => false,
        }
    }

    /// Whether an expression is a List of Lists of such.
    pub fn has_list_items(&self, e: &Expr) -> bool
        ensures { result ≡ (facts_of (mirror_program self.now)).lists e.now.at }
    {
        match self.typed.type_of(e.at) {
            Some(kind) => has_list_items(kind),
            None => false,
        }
    }

    /// Whether a call with this receiver is remote.
    pub fn is_remote(&self, receiver: &Expr) -> bool
        ensures { result ≡ words.is_remote (facts_of (mirror_program self.now)) (mirror_expr receiver.now) }
    {
        match self.typed.type_of(receiver.at) {
            Some(kind) => self.is_object(kind),
            None => false,
        }
    }

    /// Whether a loop over this is over rows.
    pub fn over_rows(&self, list: &Expr) -> bool
        ensures { result ≡ words.over_rows (facts_of (mirror_program self.now)) (mirror_expr list.now) }
    {
        match self.typed.type_of(list.at) {
            Some(kind) => is_rows(kind),
            None => false,
        }
    }

    /// Whether an expression is an object of the service, or rows.
    pub fn has_remote_type(&self, e: &Expr) -> bool
        ensures { result ≡ refusals.has_remote_type (facts_of (mirror_program self.now)) (mirror_expr e.now) }
    {
        self.is_remote(e) || self.over_rows(e)
    }

    /// Whether an expression is a remote call.
    #[tactic(auto, using(crate::proofs::Rules::call_rules), unfolding(rb_meaning_flow::specs::Facts::facts_of))]
    pub fn is_call(&self, e: &Expr) -> bool
        ensures { result ≡ flow.is_call (facts_of (mirror_program self.now)) (mirror_expr e.now) }
    {
        match &e.form {
            ExprForm::Call(a, _, _) => self.is_remote(a.get()),
            ExprForm::Lit(_) | ExprForm::Name(_) | ExprForm::This | ExprForm::Unary(_, _) => false,
            ExprForm::Binary(_, _, _) | ExprForm::Field(_, _) | ExprForm::Index(_, _) => false,
            ExprForm::New(_, _) | ExprForm::Items(_, _) | ExprForm::Taken(_) => false,
        }
    }

    /// Whether an expression is a call of a `remote` method of a class.
    #[tactic(auto, using(crate::proofs::Rules::call_rules), unfolding(rb_meaning_flow::specs::Facts::facts_of))]
    pub fn calls_remote_method(&self, e: &Expr) -> bool
        ensures { result ≡ refusals.calls_remote_method (facts_of (mirror_program self.now)) (mirror_expr e.now) }
    {
        match &e.form {
            ExprForm::Call(a, method, _) => {
                !self.is_remote(a.get()) && self.has_remote_method_at(a.get().at, method)
            }
            ExprForm::Lit(_) | ExprForm::Name(_) | ExprForm::This | ExprForm::Unary(_, _) => false,
            ExprForm::Binary(_, _, _) | ExprForm::Field(_, _) | ExprForm::Index(_, _) => false,
            ExprForm::New(_, _) | ExprForm::Items(_, _) | ExprForm::Taken(_) => false,
        }
    }
}
