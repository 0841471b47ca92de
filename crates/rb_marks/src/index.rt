// The marks and places of a program, by their positions.

ghost use Rattle.std.specs.Prelude.{◌≡◌, ℕ, IfOk, OnOk};
ghost use Rattle.std.specs.Ordering.{nat_cmp};
ghost use Rattle.std.specs.BTreeMap.{get};
ghost use Rattle.std.specs.FinMap as map;
ghost use Rattle.rb_trees.specs.mirror.Declarations.{mirror_program};
ghost use Rattle.rb_meaning_flow.specs.Programs.{program_marks, program_places};
ghost use Rattle.rb_marks.specs.Notes.{first_at, Adds};

use crate::facts::Facts;
use crate::marks::Notes;
use crate::outermost::mark_program;
use rb_trees::{Mark, Memory, Place};
use rb_types::Typed;
use std::alloc::Global;
use std::collections::BTreeMap;
use std::marker::Model;

/// Where each part of a program's batches is performed. Contracts see two finite maps from positions:
/// the marks of expressions, and the places of statements.
#[derive(Drop)]
pub struct Marks {
    marks: BTreeMap<u32, Mark>,
    places: BTreeMap<u32, Place>,
}

impl Model for Marks {
    ghost use Rattle.std.specs.Prelude.{ℕ};
    ghost use Rattle.std.specs.Ordering.{nat_cmp};
    ghost use Rattle.std.specs.Coded.{coded×, coded_ℕ};
    ghost use Rattle.std.specs.FinMap as map;
    ghost use Rattle.rb_trees.specs.declared.marks.Mark.{Mark};
    ghost use Rattle.rb_trees.specs.declared.marks.Place.{Place};
    ghost use Rattle.rb_trees.specs.contracts.marks.Mark as mark_code;
    ghost use Rattle.rb_trees.specs.contracts.marks.Place as place_code;

    ghost Value = { map.FinMap nat_cmp Mark × map.FinMap nat_cmp Place };

    ghost coded = { coded× (map.code coded_ℕ mark_code.the_row.coded) (map.code coded_ℕ place_code.the_row.coded) };

    ghost view = { λ m. (map.from_entries m.marks.entries, map.from_entries m.places.entries) };
}

fn insert_mark(index: &mut BTreeMap<u32, Mark>, at: u32, mark: Mark) -> Result<(), Memory>
    ensures { OnOk result (Adds at mark (get nat_cmp index.old) (get nat_cmp index.new)) }
{
    let _before = index.insert(at, mark)?;
    Ok(())
}

fn index_marks(alloc: Global, notes: Vec<(u32, Mark)>) -> Result<BTreeMap<u32, Mark>, Memory>
    ensures { IfOk result (λ m. (q : ℕ) → get nat_cmp m q ≡ first_at notes.items q None) }
{
    let mut rest = notes;
    let mut index = BTreeMap::new(alloc);
    while let Some(last) = rest.pop() {
        insert_mark(&mut index, last.0, last.1)?;
    }
    Ok(index)
}

fn insert_place(index: &mut BTreeMap<u32, Place>, at: u32, place: Place) -> Result<(), Memory>
    ensures { OnOk result (Adds at place (get nat_cmp index.old) (get nat_cmp index.new)) }
{
    let _before = index.insert(at, place)?;
    Ok(())
}

fn index_places(alloc: Global, notes: Vec<(u32, Place)>) -> Result<BTreeMap<u32, Place>, Memory>
    ensures { IfOk result (λ m. (q : ℕ) → get nat_cmp m q ≡ first_at notes.items q None) }
{
    let mut rest = notes;
    let mut index = BTreeMap::new(alloc);
    while let Some(last) = rest.pop() {
        insert_place(&mut index, last.0, last.1)?;
    }
    Ok(index)
}

impl Marks {
    /// The mark of the expression at a position, or None exactly where none in a batch stands there.
    pub fn mark_at(&self, at: u32) -> Option<Mark>
        ensures { result ≡ map.get self.now.0 at }
    {
        self.marks.get(&at).copied()
    }

    /// The place of the statement at a position, or None exactly where none in a batch stands there.
    pub fn place_at(&self, at: u32) -> Option<Place>
        ensures { result ≡ map.get self.now.1 at }
    {
        self.places.get(&at).copied()
    }
}

/// The marks of the expressions in a program's batches, and the places of the statements in them. The
/// rules stand in `specs/Marks` of `rb_meaning_flow`.
pub fn mark(alloc: Global, typed: &Typed) -> Result<Marks, Memory>
    ensures marks { IfOk result (λ m. m.0 ≡ program_marks (mirror_program typed.now)) }
    ensures places { IfOk result (λ m. m.1 ≡ program_places (mirror_program typed.now)) }
{
    let facts = Facts::new(alloc, typed)?;
    let notes = mark_program(alloc, &facts, typed.program())?;
    let Notes {
        marks: marked,
        places: placed,
    } = notes;
    let marks = index_marks(alloc, marked)?;
    let places = index_places(alloc, placed)?;
    Ok(Marks { marks, places })
}
