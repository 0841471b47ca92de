// Admission of typed programs.

ghost use Rattle.std.specs.Prelude.{◌≡◌, IfOk};
ghost use Rattle.rb_trees.specs.Outcome.{Tells};
ghost use Rattle.rb_trees.specs.mirror.Declarations.{mirror_program};
ghost use Rattle.rb_flow.specs.Admission.{refusal_of};
ghost use Rattle.rb_flow.specs.Program.{IsAdmission};

use rb_flow::{AdmitStop, Admitted, admit};
use rb_marks::mark;
use rb_types::Typed;
use std::alloc::Global;

/// Admits a typed program with its marks, or tells its first refusal.
pub fn admission<'a>(alloc: Global, typed: &'a Typed) -> Result<Admitted<'a>, AdmitStop>
    ensures admission { Tells (λ a. tt) refusal_of result (IsAdmission (mirror_program typed.now)) }
    ensures typed { IfOk result (λ admitted. admitted.0 ≡ typed.now) }
{
    let marks = mark(alloc, typed)?;
    admit(alloc, typed, marks)
}
