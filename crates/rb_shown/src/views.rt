// The view of a batch's division.

ghost use Rattle.std.specs.Prelude.{◌≡◌, ◌++◌, codes, IfOk};
ghost use Rattle.rb_meaning.specs.Shown.{line, line_and_column};
ghost use Rattle.rb_shown.specs.Appends.{Appends};
ghost use Rattle.rb_shown.specs.Texts.{WithinLength};
ghost use Rattle.rb_meaning_split.specs.Division.{mirror_split};
ghost use Rattle.rb_shown.specs.Views.{shown_names, shown_division};

mod expressions;
mod parts;
mod steps;

use crate::places::add_place_in;
pub use parts::add_parts;
use rb_places::Places;
use rb_trees::{Memory, Seq, Split, Word};
use std::alloc::Global;
pub use steps::add_steps;

// Adds the line of the batch, by its place.
#[tactic(auto, using(crate::proofs::Pieces::pieces))]
fn add_batch(alloc: Global, places: &Places<'_>, at: u32, into: &mut Word) -> Result<(), Memory>
    requires { WithinLength places.now }
    ensures { Appends (line (codes "batch " ++ line_and_column places.now at)) into.old result into.new }
{
    into.extend_from_slice(b"batch ")?;
    add_place_in(alloc, places, at, into)?;
    into.push(b'\n')
}

// Adds a name behind a space.
#[tactic(auto, using(crate::proofs::Pieces::pieces))]
fn add_name(name: &Word, into: &mut Word) -> Result<(), Memory>
    ensures { Appends (codes " " ++ name.now) into.old result into.new }
{
    into.push(b' ')?;
    into.extend_from_slice(name.as_slice())
}

// Adds names, each behind a space.
#[tactic(auto, using(crate::proofs::Pieces::pieces))]
fn add_names(names: &[Word], into: &mut Word) -> Result<(), Memory>
    ensures { Appends (shown_names names.now) into.old result into.new }
{
    for name in names {
        add_name(name, into)?;
    }
    Ok(())
}

// Adds the line of the inputs.
#[tactic(auto, using(crate::proofs::Pieces::pieces))]
fn add_inputs(names: &[Word], into: &mut Word) -> Result<(), Memory>
    ensures { Appends (line (codes "inputs" ++ shown_names names.now)) into.old result into.new }
{
    into.extend_from_slice(b"inputs")?;
    add_names(names, into)?;
    into.push(b'\n')
}

/// The view of a division: `shown_division`. Its place is one of the program's text.
#[tactic(auto, using(crate::proofs::Pieces::pieces))]
pub fn split_view(alloc: Global, places: &Places<'_>, split: &Split) -> Result<Word, Memory>
    requires { WithinLength places.now }
    ensures { IfOk result (λ text. text ≡ shown_division places.now (mirror_split split.now)) }
{
    let mut text = Seq::new(alloc);
    add_batch(alloc, places, split.at, &mut text)?;
    add_inputs(split.inputs.as_slice(), &mut text)?;
    text.extend_from_slice(b"script\n")?;
    add_steps(alloc, b"  ", split.script.body.as_slice(), &mut text)?;
    text.extend_from_slice(b"remainder\n")?;
    add_parts(alloc, b"  ", split.remainder.as_slice(), &mut text)?;
    Ok(text)
}
