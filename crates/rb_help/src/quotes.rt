// Quotes of lines.

ghost use Rattle.std.specs.Prelude.{◌≡◌, ◌+◌, ◌≤◌, codes, length, IfOk};
ghost use Rattle.std.specs.Fmt.{decimal};
ghost use Rattle.std.specs.List.{repeat};
ghost use Rattle.rb_help.specs.Appends.{Appends};
ghost use Rattle.rb_pieces.specs.Characters.{shown_text};
ghost use Rattle.rb_help.specs.Headings as headings;
ghost use Rattle.rb_help.specs.Near.{IsNear, IsPart, IsPartOfLine};
ghost use Rattle.rb_help.specs.Quotes as words;
ghost use Rattle.rb_help.specs.Quotes.{IsQuote};

use crate::lines::{Line, line_within};
use crate::sheet::Sheet;
use rb_pieces::shown;
use rb_trees::{Memory, Seq, Word};
use std::alloc::Global;

/// A line of at most so many bytes is quoted whole.
const LONGEST_WHOLE: usize = 120;

/// Of a longer line so many bytes are quoted on each side of the place.
const BESIDE: usize = 60;

/// So many bytes on each side of a place are looked at: a line that goes on behind them isn't quoted whole.
const NEAR: usize = LONGEST_WHOLE + 1;

/// What is quoted of the line of a place.
#[derive(Clone, Copy)]
pub struct Cut<'a> {
    /// Whether the line begins before the part that is quoted.
    pub is_cut_before: bool,
    pub part: &'a [u8],
    /// Where the place stands in the part.
    pub offset: usize,
    /// Whether the line goes on behind the part.
    pub is_cut_behind: bool,
}

/// Whether a byte goes on with a character that another byte begins.
fn goes_on(byte: Option<&u8>) -> bool {
    match byte {
        Some(byte) => *byte >= 0x80 && *byte < 0xC0,
        None => false,
    }
}

/// A place, or the one before it where a character would be cut.
fn one_back(line: &[u8], at: usize) -> usize
    ensures before { result ≤ at }
    ensures near { at ≤ result + 1 }
{
    if at > 0 && goes_on(line.get(at)) {
        at - 1
    } else {
        at
    }
}

/// A place at most three bytes before another, at which no character is cut if the text is UTF-8.
fn uncut(line: &[u8], at: usize) -> usize
    ensures before { result ≤ at }
    ensures near { at ≤ result + 3 }
{
    let once = one_back(line, at);
    let twice = one_back(line, once);
    one_back(line, twice)
}

/// What is quoted of a piece of a line, around a place of it.
fn cut_around(line: &[u8], at: usize) -> Cut<'_>
    requires { at ≤ length line.now }
    ensures part { IsPart line.now at (60 + 3) result }
    ensures within { result.offset ≤ length result.part.now }
{
    let mut from = 0;
    let mut to = line.len();
    if line.len() > LONGEST_WHOLE {
        from = uncut(line, at.saturating_sub(BESIDE));
        if line.len() - at > BESIDE {
            to = uncut(line, at + BESIDE);
        }
    }
    Cut {
        is_cut_before: from > 0,
        part: &line[from..to],
        offset: at - from,
        is_cut_behind: to < line.len(),
    }
}

/// What is near a place of its line: all of a line that is quoted whole, and of a longer one more than is quoted.
fn near_line(text: &[u8], at: u32) -> Line<'_>
    ensures near { IsNear text.now at 121 result.bytes.now result.offset }
    ensures within { result.offset ≤ length result.bytes.now }
{
    let place = (at as usize).min(text.len());
    let from = place.saturating_sub(NEAR);
    let to = place + (text.len() - place).min(NEAR);
    line_within(&text[from..to], place - from)
}

/// What is quoted of the line of a place.
pub fn cut_at(text: &[u8], at: u32) -> Cut<'_>
    ensures part { IsPartOfLine text.now at result }
    ensures within { result.offset ≤ length result.part.now }
{
    let line = near_line(text, at);
    cut_around(line.bytes, line.offset)
}

/// Adds a number in decimal.
fn add_number(alloc: Global, number: usize, into: &mut Word) -> Result<(), Memory>
    ensures { Appends (decimal number) into.old result into.new }
{
    let digits = format!(in alloc; "{number}")?;
    into.extend_from_slice(digits.as_bytes())
}

/// Adds bytes of a text as they are shown.
fn add_shown(alloc: Global, bytes: &[u8], into: &mut Word) -> Result<(), Memory>
    ensures { Appends (shown_text bytes.now) into.old result into.new }
{
    let text = shown(alloc, bytes)?;
    into.extend_from_slice(text.as_bytes())
}

/// Adds what stands for bytes that are cut off, where some are.
fn add_mark(is_cut: bool, into: &mut Word) -> Result<(), Memory>
    ensures { Appends (words.cut_mark is_cut) into.old result into.new }
{
    if is_cut {
        into.extend_from_slice(b"...")
    } else {
        Ok(())
    }
}

/// The line that editors jump by: `heading`.
fn heading(alloc: Global, sheet: &Sheet<'_>, at: u32) -> Result<Word, Memory>
    ensures { IfOk result (λ text. text ≡ headings.heading sheet.now at) }
{
    let mut text = Seq::new(alloc);
    if sheet.name().is_empty() {
        return Ok(text);
    }
    add_shown(alloc, sheet.name(), &mut text)?;
    text.push(b':')?;
    add_number(alloc, sheet.line(at), &mut text)?;
    text.push(b':')?;
    add_number(alloc, sheet.column(at), &mut text)?;
    text.extend_from_slice(b":\n")?;
    Ok(text)
}

/// How many digits a number has in decimal.
pub fn digits(alloc: Global, number: usize) -> Result<usize, Memory> {
    let text = format!(in alloc; "{number}")?;
    Ok(text.len())
}

/// Adds so many blanks.
fn add_blanks(alloc: Global, count: usize, into: &mut Word) -> Result<(), Memory>
    ensures { Appends (repeat count (codes " ")) into.old result into.new }
{
    let blanks = b" ".repeat(alloc, count)?;
    into.extend_from_slice(blanks.as_slice())
}

/// Adds the number of a line and what is shown of it.
#[tactic(auto, using(crate::proofs::Appended::pieces))]
fn add_quoted(alloc: Global, number: usize, cut: &Cut<'_>, into: &mut Word) -> Result<(), Memory>
    ensures { Appends (words.quoted number cut.now.is_cut_before cut.now.part.now cut.now.is_cut_behind) into.old result into.new }
{
    add_number(alloc, number, into)?;
    into.extend_from_slice(b" | ")?;
    add_mark(cut.is_cut_before, into)?;
    add_shown(alloc, cut.part, into)?;
    add_mark(cut.is_cut_behind, into)?;
    into.push(b'\n')
}

/// The quote of the line of a place: `IsQuote`. The bar stands behind at least so many columns.
pub fn quote(alloc: Global, sheet: &Sheet<'_>, at: u32, columns: usize) -> Result<Word, Memory>
    ensures { IfOk result (λ text. IsQuote sheet.now at text) }
{
    let number = sheet.line(at);
    let width = digits(alloc, number)?;
    let cut = cut_at(sheet.text(), at);
    let mut text = heading(alloc, sheet, at)?;
    add_blanks(alloc, columns.saturating_sub(width), &mut text)?;
    add_quoted(alloc, number, &cut, &mut text)?;
    Ok(text)
}

/// Whether a place shares the quote of the place before it: `shares`.
pub fn shares(sheet: &Sheet<'_>, earlier: Option<u32>, at: u32) -> bool
    ensures { result ≡ words.shares sheet.now.text earlier at }
{
    match earlier {
        None => false,
        Some(earlier) => {
            sheet.line(earlier) == sheet.line(at)
                && near_line(sheet.text(), at).bytes.len() <= LONGEST_WHOLE
        }
    }
}
