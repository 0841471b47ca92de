// Whole programs and services.
#![tactic(auto, using(crate::proofs::Rules::rules))]

ghost use Rattle.std.specs.Prelude.{◌≡◌, map, IfOk};
ghost use Rattle.rb_trees.specs.mirror.Declarations.{mirror_class, mirror_program};
ghost use Rattle.rb_trees.specs.Outcome.{Gives};
ghost use Rattle.rb_meaning_types.specs.Declared.{of_program};
ghost use Rattle.rb_meaning_types.specs.Programs as judged;
ghost use Rattle.rb_meaning_types.specs.Notes.{program_notes};
ghost use Rattle.rb_meaning_types.specs.Lawful.{IsLawfulService};
ghost use Rattle.rb_meaning_types.specs.Violations.{violation_of};
ghost use Rattle.rb_types.specs.Checks.{Passes, Notes};
ghost use Rattle.rb_types.specs.Steps as steps;
ghost use Rattle.rb_types.specs.Views.{declarations_of, notes_of};

use crate::checker::Checker;
use crate::context::{Context, Declarations};
use crate::declarations::check_declarations;
use crate::kinds::Placed;
use crate::places::main_type;
use rb_trees::{Class, Program, Seq, TypeError};
use std::alloc::Global;

impl Checker {
    #[tactic(auto, using(crate::proofs::BodyRules::body_rules))]
    fn check_main(&mut self, d: &Declarations, program: &Program) -> Result<(), TypeError>
        requires { declarations_of d.now ≡ of_program (mirror_program program.now) }
        ensures { Notes (steps.main (mirror_program program.now)) self.old result self.new }
    {
        main_type(d, program.at, &program.result)?;
        self.scope.truncate(0);
        let x = Context {
            declared: d,
            this: None,
            remote: true,
        };
        self.check_body(&x, program.at, &program.result, &program.body)
    }
}

/// The declarations, then the bodies of all methods.
fn check_classes(alloc: Global, d: &Declarations) -> Result<Checker, TypeError>
    ensures { Gives (λ c. notes_of c.notes) violation_of result (steps.declared (declarations_of d.now)) }
{
    check_declarations(alloc, d)?;
    let mut checker = Checker::new(alloc);
    checker.check_class_bodies(d, d.classes.as_slice())?;
    Ok(checker)
}

#[tactic(auto, using(crate::proofs::BodyRules::body_rules))]
fn check_declared(
    alloc: Global,
    d: &Declarations,
    program: &Program,
) -> Result<Seq<Placed>, TypeError>
    requires { declarations_of d.now ≡ of_program (mirror_program program.now) }
    ensures { Gives notes_of violation_of result (steps.program (mirror_program program.now)) }
{
    let mut checker = check_classes(alloc, d)?;
    checker.check_main(d, program)?;
    Ok(checker.notes)
}

/// The types of a program's expressions by position, or the first violation.
pub fn check_all(alloc: Global, program: &Program) -> Result<Seq<Placed>, TypeError>
    ensures gives { Gives (λ all. tt) violation_of result (judged.check_program (mirror_program program.now)) }
    ensures notes { IfOk result (λ all. notes_of all ≡ program_notes (mirror_program program.now)) }
{
    let declared = Declarations::of_program(alloc, program)?;
    check_declared(alloc, &declared, program)
}

/// Checks the classes of a service: Ok exactly where they are typed, else the first violation. The rule
/// stands in `check_service` of `rb_meaning_types`. Memory is free.
#[tactic(auto, using(crate::proofs::BodySteps::service_is, crate::proofs::Rules::rules))]
pub fn check_service(alloc: Global, classes: &Seq<Class>) -> Result<(), TypeError>
    requires { IsLawfulService (map mirror_class classes.now) }
    ensures { Passes result (judged.check_service (map mirror_class classes.now)) }
{
    let declared = Declarations::of_service(alloc, classes.as_slice())?;
    check_classes(alloc, &declared)?;
    Ok(())
}
