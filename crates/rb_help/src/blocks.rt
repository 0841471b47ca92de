// Quoted lines with the carets under them.

ghost use Rattle.std.specs.Prelude.{◌≡◌, false, IfOk};
ghost use Rattle.rb_help.specs.Quotes as words;
ghost use Rattle.rb_help.specs.Quotes.{Quotes, Within};

use crate::carets::caret;
use crate::labels::label;
use crate::quotes::{digits, quote, shares};
use crate::sheet::Sheet;
use crate::trouble::Trouble;
use rb_pieces::Pieces;
use rb_trees::{Memory, Seq, Word};
use std::alloc::Global;

/// The caret under a place, and the quote of its line before, where the place doesn't share that of the place before it.
fn block(
    alloc: Global,
    sheet: &Sheet<'_>,
    earlier: Option<u32>,
    at: u32,
    columns: usize,
    label: &[u8],
) -> Result<Word, Memory>
    ensures { IfOk result (λ text. words.shares sheet.now.text earlier at ≡ false → Within sheet.now at text) }
{
    let under = caret(alloc, sheet.text(), at, columns, label)?;
    if shares(sheet, earlier, at) {
        return Ok(under);
    }
    let mut text = quote(alloc, sheet, at, columns)?;
    text.extend_from_slice(under.as_slice())?;
    Ok(text)
}

/// The quoted lines at positions of a trouble in their order, with a caret for each of them.
pub fn blocks(
    alloc: Global,
    sheet: &Sheet<'_>,
    pieces: &Pieces<'_>,
    trouble: &Trouble<'_>,
    ats: &[u32],
) -> Result<Word, Memory>
    ensures { IfOk result (λ text. Quotes sheet.now ats.now text) }
{
    let columns = digits(alloc, sheet.line(u32::MAX))?;
    let mut text = Seq::new(alloc);
    let mut earlier = None;
    for (number, at) in ats.iter().enumerate() {
        let label = label(alloc, pieces, trouble, number)?;
        let block = block(alloc, sheet, earlier, *at, columns, label.as_slice())?;
        text.extend_from_slice(block.as_slice())?;
        earlier = Some(*at);
    }
    Ok(text)
}
