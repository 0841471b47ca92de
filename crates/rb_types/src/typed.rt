// Typed programs.
ghost use Rattle.std.specs.Prelude.{◌≡◌, nat_eq, IfOk, IsTrue};
ghost use Rattle.std.specs.HashMap.{get};
ghost use Rattle.std.specs.Option.{option_copied};
ghost use Rattle.rb_trees.specs.mirror.Declarations.{mirror_program};
ghost use Rattle.rb_meaning_types.specs.Programs.{check_program, is_typed};
ghost use Rattle.rb_meaning_types.specs.Notes as notes;
ghost use Rattle.rb_meaning_types.specs.Batches.{batch_count};
ghost use Rattle.rb_meaning_types.specs.Lawful.{IsLawful};
ghost use Rattle.rb_meaning_types.specs.Violations.{violation_of};
ghost use Rattle.rb_trees.specs.Outcome.{Gives};
ghost use Rattle.rb_types.specs.Given.{kind_given, AreTypes};

use crate::batches::count_batches;
use crate::index::index_notes;
use crate::programs::check_all;
use rb_trees::{Program, TypeError, TypeForm};
use std::alloc::Global;
use std::collections::HashMap;
use std::marker::Model;

/// A program that is typed and lawful. Contracts see it as the program; only [`check`] makes one.
#[derive(Drop)]
pub struct Typed {
    program: Program,
    // how many batches the program has
    batches: u32,
    // the type of the expression at each position
    types: HashMap<u32, TypeForm>,
}

impl Model for Typed {
    ghost use Rattle.std.specs.Prelude.{nat_eq};
    ghost use Rattle.std.specs.HashMap.{get};
    ghost use Rattle.rb_trees.specs.declared.declarations.Program.{Program};
    ghost use Rattle.rb_trees.specs.mirror.Declarations.{mirror_program};
    ghost use Rattle.rb_types.specs.Given.{IsTypedWith};
    ghost use Rattle.rb_trees.specs.contracts.declarations.Program as program_code;

    ghost Value = { Program };

    ghost coded = { program_code.the_row.coded };

    ghost view = { λ t. t.program };

    ghost invariant = { λ t. IsTypedWith (mirror_program t.program) t.batches (get nat_eq t.types) };
}

impl Typed {
    /// The program.
    pub fn program(&self) -> &Program
        ensures same { result.now ≡ self.now }
        ensures typed { IsTrue (is_typed (mirror_program self.now)) }
        ensures lawful { IsLawful (mirror_program self.now) }
    {
        &self.program
    }

    /// How many batches the program has. They are numbered from 0 in source order.
    pub fn batches(&self) -> u32
        ensures { result ≡ batch_count (mirror_program self.now) }
    {
        self.batches
    }

    /// The type that the judgement gives to the expression at a position, or None exactly where no
    /// expression stands there. The rule stands in `type_at` of
    /// `rb_meaning_types`, whose law `types_stand_at_expressions` says where one stands.
    pub fn type_of(&self, at: u32) -> Option<&TypeForm>
        ensures { kind_given (option_copied result) ≡ notes.type_at (mirror_program self.now) at }
    {
        self.types.get(&at)
    }
}

// What is found of a program that is typed.
#[derive(Drop)]
struct Found {
    batches: u32,
    types: HashMap<u32, TypeForm>,
}

fn find_types(alloc: Global, program: &Program) -> Result<HashMap<u32, TypeForm>, TypeError>
    ensures gives { Gives (λ t. tt) violation_of result (check_program (mirror_program program.now)) }
    ensures types { IfOk result (λ types. AreTypes (mirror_program program.now) (get nat_eq types)) }
{
    let all = check_all(alloc, program)?;
    Ok(index_notes(alloc, all)?)
}

fn find(alloc: Global, program: &Program) -> Result<Found, TypeError>
    ensures gives { Gives (λ t. tt) violation_of result (check_program (mirror_program program.now)) }
    ensures batches { IfOk result (λ found. found.batches ≡ batch_count (mirror_program program.now)) }
    ensures types { IfOk result (λ found. AreTypes (mirror_program program.now) (get nat_eq found.types)) }
{
    let batches = count_batches(program)?;
    let types = find_types(alloc, program)?;
    Ok(Found { batches, types })
}

/// Checks a program: Ok exactly where it is typed, else the first violation. The rule stands in
/// `check_program` of `rb_meaning_types`. Memory is free.
pub fn check(alloc: Global, program: Program) -> Result<Typed, TypeError>
    requires { IsLawful (mirror_program program) }
    ensures gives { Gives (λ t. tt) violation_of result (check_program (mirror_program program)) }
    ensures same { IfOk result (λ t. t ≡ program) }
{
    let Found { batches, types } = find(alloc, &program)?;
    Ok(Typed {
        program,
        batches,
        types,
    })
}
