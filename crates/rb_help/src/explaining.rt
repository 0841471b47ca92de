// What a person is told of a trouble.

ghost use Rattle.std.specs.Prelude.{IfOk};
ghost use Rattle.rb_help.specs.Headings.{named};
ghost use Rattle.rb_help.specs.Positions.{positions_of};
ghost use Rattle.rb_help.specs.Quotes.{Quotes};

use crate::blocks::blocks;
use crate::byte_order::mark_of;
use crate::outside_help::say_outside;
use crate::placing::positions;
use crate::refusal_help::say_refusal;
use crate::run_help::say_fault;
use crate::service_help::say_service;
use crate::sheet::Sheet;
use crate::trouble::Trouble;
use crate::typing_help::say_types;
use rb_pieces::{Page, Pieces};
use rb_places::Places;
use rb_slips::say_read;
use rb_trees::{Memory, Word};
use std::alloc::Global;

/// What is said of a trouble below the lines that are quoted.
fn say(
    alloc: Global,
    page: &mut Page,
    pieces: &Pieces<'_>,
    trouble: &Trouble<'_>,
) -> Result<(), Memory> {
    if let Some(mark) = mark_of(pieces.source(), trouble) {
        return page.say_plain(mark);
    }
    match trouble {
        Trouble::Faulted(fault, at) => say_fault(page, pieces, fault, *at),
        Trouble::Unread(error) => say_read(page, pieces, error),
        Trouble::Untyped(error) => say_types(alloc, page, pieces, error, false),
        Trouble::Refused(refusal) => say_refusal(page, pieces, refusal),
        Trouble::Unserved(error) => say_service(alloc, page, pieces, error),
        _ => say_outside(alloc, page, trouble),
    }
}

/// The sentences on a trouble.
fn sentences(alloc: Global, pieces: &Pieces<'_>, trouble: &Trouble<'_>) -> Result<Word, Memory> {
    let mut page = Page::new(alloc);
    say(alloc, &mut page, pieces, trouble)?;
    Ok(page.into_word())
}

/// What a person is told of a trouble in a text: the lines at its positions with a caret under each place, what is wrong,
/// and what to do. Any text and any trouble will do; a position behind the end is the end.
///
/// The lines that are quoted are those of the text at the trouble's positions, in their order (`Quotes`). Above each stands
/// the place, by the name of the text's file, unless that is empty.
pub fn explain(
    alloc: Global,
    name: &[u8],
    source: &[u8],
    trouble: &Trouble<'_>,
) -> Result<Word, Memory>
    ensures { IfOk result (λ text. Quotes (named name.now source.now) (positions_of trouble.now) text) }
{
    let places = Places::of(alloc, source)?;
    let pieces = Pieces::make(alloc, &places)?;
    let sheet = Sheet::make(alloc, name, &places)?;
    let ats = positions(alloc, trouble)?;
    let mut text = blocks(alloc, &sheet, &pieces, trouble, ats.as_slice())?;
    let said = sentences(alloc, &pieces, trouble)?;
    text.extend_from_slice(said.as_slice())?;
    Ok(text)
}
