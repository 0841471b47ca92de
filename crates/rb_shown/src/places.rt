// Places in a program's text.

ghost use Rattle.std.specs.Prelude.{◌++◌, codes};
ghost use Rattle.std.specs.Fmt.{decimal};
ghost use Rattle.rb_meaning.specs.Shown.{line_and_column};
ghost use Rattle.rb_shown.specs.Appends.{Appends};
ghost use Rattle.rb_shown.specs.Texts.{WithinLength};

use crate::primitives::add_number;
use rb_base::place;
use rb_places::Places;
use rb_trees::{Memory, Word};
use std::alloc::Global;

/// Adds a line and a column.
#[tactic(auto, using(crate::proofs::Offsets::places))]
fn add_line_and_column(alloc: Global, line: u32, column: u32, into: &mut Word) -> Result<(), Memory>
    ensures { Appends (decimal line ++ codes ":" ++ decimal column) into.old result into.new }
{
    add_number(alloc, u64::from(line), into)?;
    into.push(b':')?;
    add_number(alloc, u64::from(column), into)
}

/// Adds the line and the column of an offset. One behind the text has those of the text's end.
#[tactic(auto, using(crate::proofs::Offsets::places))]
pub fn add_place(alloc: Global, source: &[u8], at: u32, into: &mut Word) -> Result<(), Memory>
    requires { WithinLength source.now }
    ensures { Appends (line_and_column source.now at) into.old result into.new }
{
    let (line, column) = place(source, at.min(source.len() as u32));
    add_line_and_column(alloc, line, column, into)
}

/// The same of a text whose places are looked up.
#[tactic(auto, using(crate::proofs::Offsets::places))]
pub fn add_place_in(
    alloc: Global,
    places: &Places<'_>,
    at: u32,
    into: &mut Word,
) -> Result<(), Memory>
    requires { WithinLength places.now }
    ensures { Appends (line_and_column places.now at) into.old result into.new }
{
    let (line, column) = places.place(at.min(places.text().len() as u32));
    add_line_and_column(alloc, line, column, into)
}
