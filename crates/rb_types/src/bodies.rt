// Bodies: the statements in order, then the `return`.
#![tactic(auto, using(crate::proofs::Rules::rules))]

ghost use Rattle.std.specs.Prelude.{◌≡◌, map};
ghost use Rattle.std.specs.Option.{option_map};
ghost use Rattle.rb_trees.specs.mirror.Types.{mirror_type};
ghost use Rattle.rb_trees.specs.mirror.Code.{mirror_expr};
ghost use Rattle.rb_trees.specs.mirror.Declarations.{mirror_param, mirror_body, mirror_method, mirror_class};
ghost use Rattle.rb_trees.specs.Outcome.{Gives};
ghost use Rattle.rb_meaning_types.specs.Kinds.{kind_of_form};
ghost use Rattle.rb_meaning_types.specs.Violations.{violation_of};
ghost use Rattle.rb_meaning_types.specs.Scopes as scopes;
ghost use Rattle.rb_meaning_types.specs.Bodies as bodies;
ghost use Rattle.rb_types.specs.Checks.{Passes, Checks, Notes};
ghost use Rattle.rb_types.specs.Steps as steps;
ghost use Rattle.rb_types.specs.Views.{declarations_of, context_of, scope_of, placed_of, returned_of};

use crate::checker::Checker;
use crate::classes::IndexedClass;
use crate::context::{Context, Declarations};
use crate::kinds::{Placed, is_unit, kind_of, same_kind, wrong_type};
use crate::scope::Scope;
use rb_trees::{Body, Expr, Method, Param, TypeError, TypeForm, TypeTree, Word, copy_word};
use std::alloc::Global;

fn return_fits(alloc: Global, kind: &TypeForm, p: &Placed) -> Result<(), TypeError>
    ensures { Passes result (bodies.return_fits (kind_of_form kind.now) (placed_of p.now)) }
{
    if !is_unit(kind) && same_kind(kind, &p.kind) {
        Ok(())
    } else {
        Err(wrong_type(alloc, p))
    }
}

fn parameters(alloc: Global, params: &[Param]) -> Result<Scope, TypeError>
    ensures { Gives scope_of violation_of result (Ok (scopes.parameters (map mirror_param params.now))) }
{
    let mut scope = Scope::new(alloc);
    for param in params {
        let name = copy_word(alloc, &param.name)?;
        let kind = kind_of(alloc, &param.kind)?;
        scope.bind(alloc, name, kind, true)?;
    }
    Ok(scope)
}

impl Checker {
    #[tactic(auto, using(crate::proofs::Rules::rules), unfolding(crate::specs::Steps::returned))]
    fn check_return(
        &mut self,
        x: &Context,
        at: u32,
        kind: &TypeForm,
        returned: &Option<Expr>,
    ) -> Result<(), TypeError>
        ensures { Checks (steps.returned (context_of x.now) at (kind_of_form kind.now) (returned_of returned.now)) self.old result self.new }
    {
        match returned {
            Some(e) => {
                let p = self.check_expr(x, e)?;
                return_fits(self.alloc, kind, &p)
            }
            None => {
                if is_unit(kind) {
                    Ok(())
                } else {
                    Err(TypeError::MissingReturn(at))
                }
            }
        }
    }

    /// A body in the scope in which it begins: the statements in order, then the `return`. `at` is the
    /// position of the method's name or of `main`.
    #[tactic(auto, using(crate::proofs::Rules::rules), unfolding(crate::specs::Steps::body))]
    pub fn check_body(
        &mut self,
        x: &Context,
        at: u32,
        kind: &TypeTree,
        body: &Body,
    ) -> Result<(), TypeError>
        ensures { Checks (steps.body (context_of x.now) at (mirror_type kind.now) (mirror_body body.now)) self.old result self.new }
    {
        self.check_stmts(x, body.statements.as_slice())?;
        self.check_return(x, at, &kind.form, &body.result)
    }

    /// Begins a body: its parameters alone are in scope.
    pub fn begin(&mut self, params: &[Param]) -> Result<(), TypeError>
        ensures { Checks (steps.begin (map mirror_param params.now)) self.old result self.new }
    {
        self.scope = parameters(self.alloc, params)?;
        Ok(())
    }

    #[tactic(auto, using(crate::proofs::BodyRules::body_rules))]
    fn check_method_body(
        &mut self,
        d: &Declarations,
        class: &Word,
        m: &Method,
    ) -> Result<(), TypeError>
        ensures { Notes (steps.method (declarations_of d.now) class.now (mirror_method m.now)) self.old result self.new }
    {
        self.begin(m.signature.params.as_slice())?;
        let x = Context {
            declared: d,
            this: Some(class),
            remote: m.remote,
        };
        self.check_body(&x, m.signature.at, &m.signature.result, &m.body)
    }

    #[tactic(auto, using(crate::proofs::BodyRules::body_rules))]
    fn check_method_bodies(
        &mut self,
        d: &Declarations,
        class: &Word,
        methods: &[Method],
    ) -> Result<(), TypeError>
        ensures { Notes (steps.methods (declarations_of d.now) class.now (map mirror_method methods.now)) self.old result self.new }
    {
        for m in methods {
            self.check_method_body(d, class, m)?;
        }
        Ok(())
    }

    /// The bodies of all methods of `items`, in source order.
    #[tactic(auto, using(crate::proofs::BodyRules::body_rules))]
    pub fn check_class_bodies(
        &mut self,
        d: &Declarations,
        items: &[IndexedClass],
    ) -> Result<(), TypeError>
        ensures { Notes (steps.classes (declarations_of d.now) (map mirror_class items.now)) self.old result self.new }
    {
        for item in items {
            let class = item.get();
            self.check_method_bodies(d, &class.name, class.methods.as_slice())?;
        }
        Ok(())
    }
}
