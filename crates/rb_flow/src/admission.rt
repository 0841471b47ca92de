// Admitted programs.

ghost use Rattle.std.specs.Prelude.{◌≡◌, IfOk};
ghost use Rattle.rb_trees.specs.mirror.Declarations.{mirror_program};
ghost use Rattle.rb_trees.specs.Outcome.{Tells};
ghost use Rattle.rb_meaning_flow.specs.Programs as programs;
ghost use Rattle.rb_flow.specs.Admission.{refusal_of};
ghost use Rattle.rb_flow.specs.Program.{AreMarksOf, HasNoRefusal, IsAdmission};

use crate::loops::index_loops;
use crate::program::program_answer;
use rb_marks::Marks;
use rb_trees::{Memory, Refusal};
use rb_types::Typed;
use std::alloc::Global;
use std::collections::BTreeSet;
use std::fmt;
use std::marker::Model;
use thiserror::Error;

/// Why a program isn't admitted.
#[derive(Drop, Error)]
pub enum AdmitStop {
    /// The first refusal of the program.
    #[error("a batch of the program is refused")]
    Refused(Refusal),
    #[error("out of memory")]
    Memory,
}

// Its message: a derived text would want one of each refusal.
impl fmt::Debug for AdmitStop {
    fn fmt<W: fmt::Write>(&self, f: &mut fmt::Formatter<W>) -> fmt::Result {
        write!(f, "{self}")
    }
}

impl From<Memory> for AdmitStop {
    ghost use Rattle.std.specs.Prelude.{◌≡◌};
    ghost use Rattle.rb_flow.specs.declared.admission.AdmitStop.TheVariants as stops;

    ghost from_gives = { λ _ e. e ≡ stops.Memory };

    fn from(_want: Memory) -> AdmitStop {
        AdmitStop::Memory
    }
}

/// A typed program without a refusal, with its own marks. Contracts see the program and the marks; only
/// [`admit`] makes one.
#[derive(Drop)]
pub struct Admitted<'a> {
    typed: &'a Typed,
    marks: Marks,
    // the positions of its carried loops
    loops: BTreeSet<u32>,
}

impl<'a> Model for Admitted<'a> {
    ghost use Rattle.std.specs.Ordering.{nat_cmp};
    ghost use Rattle.std.specs.Coded.{coded×, coded_ℕ};
    ghost use Rattle.std.specs.FinMap as map;
    ghost use Rattle.rb_trees.specs.declared.declarations.Program.{Program};
    ghost use Rattle.rb_trees.specs.contracts.declarations.Program as program_code;
    ghost use Rattle.rb_trees.specs.declared.marks.Mark.{Mark};
    ghost use Rattle.rb_trees.specs.declared.marks.Place.{Place};
    ghost use Rattle.rb_trees.specs.contracts.marks.Mark as mark_code;
    ghost use Rattle.rb_trees.specs.contracts.marks.Place as place_code;
    ghost use Rattle.rb_trees.specs.mirror.Declarations.{mirror_program};
    ghost use Rattle.rb_flow.specs.Carried.{AreCarriedLoopsOf};
    ghost use Rattle.rb_flow.specs.Program.{IsAdmittedWith};

    ghost Value = { Program × (map.FinMap nat_cmp Mark × map.FinMap nat_cmp Place) };

    ghost coded = { coded× program_code.the_row.coded (coded× (map.code coded_ℕ mark_code.the_row.coded) (map.code coded_ℕ place_code.the_row.coded)) };

    ghost view = { λ a. (a.typed.now, a.marks) };

    ghost invariant = { λ a. IsAdmittedWith (mirror_program a.typed.now) a.marks × AreCarriedLoopsOf (mirror_program a.typed.now) a.loops };
}

impl<'a> Admitted<'a> {
    /// The program.
    pub fn typed(&self) -> &'a Typed
        ensures same { result.now ≡ self.now.0 }
        ensures admitted { HasNoRefusal (mirror_program self.now.0) }
    {
        self.typed
    }

    /// The marks that came with it, which are the program's own.
    pub fn marks(&self) -> &Marks
        ensures same { result.now ≡ self.now.1 }
        ensures own { AreMarksOf (mirror_program self.now.0) self.now.1 }
    {
        &self.marks
    }

    /// Whether a carried loop stands at a position.
    pub fn is_carried_at(&self, at: u32) -> bool
        ensures { result ≡ programs.is_carried_at (mirror_program self.now.0) at }
    {
        self.loops.contains(&at)
    }
}

/// Admits a program with its own marks: Ok exactly where it has no refusal, else the refusal before which
/// there is none. The rules stand in `specs/Refusals` and `specs/Programs` of `rb_meaning_flow`.
pub fn admit<'a>(alloc: Global, typed: &'a Typed, marks: Marks) -> Result<Admitted<'a>, AdmitStop>
    requires { AreMarksOf (mirror_program typed.now) marks }
    ensures admission { Tells (λ a. tt) refusal_of result (IsAdmission (mirror_program typed.now)) }
    ensures typed { IfOk result (λ a. a.0 ≡ typed.now) }
    ensures marks { IfOk result (λ a. a.1 ≡ marks) }
{
    let (answer, loops) = program_answer(alloc, typed)?;
    match answer {
        Some(refusal) => Err(AdmitStop::Refused(refusal)),
        None => {
            let loops = index_loops(alloc, loops.into_vec())?;
            Ok(Admitted {
                typed,
                marks,
                loops,
            })
        }
    }
}
