// Laying out programs.

ghost use Rattle.std.specs.Prelude.{◌≡◌, ◌≤◌, length, IfOk, IfErr, IsTrue};
ghost use Rattle.rb_trees.specs.mirror.Declarations.{mirror_program};
ghost use Rattle.rb_trees.specs.printing.Programs.{printed_program};
ghost use Rattle.rb_meaning_bytes.specs.tokens.Texts.{longest_text};
ghost use Rattle.rb_format.specs.Formats.{LaysOutProgram, StopsProgram};
ghost use Rattle.rb_format.specs.Prints.{IsTooMuch, PrintsProgram};

use crate::short::short_text;
use crate::slashes::has_slashes;
use crate::stops::FormatStop;
use crate::weaving::{keeps_comments, weave};
use crate::woven::is_woven;
use rb_parse::{parse_program, printed_programs_read_back, sources_have_one_outcome};
use rb_trees::{Memory, Program, ReadError, Word, print_program};
use std::alloc::Global;

/// The text of a program as the product prints it, with the comments of the source.
///
/// The text is read as the same program but for positions (`LaysOutProgram`). Where the source has no `//` it is just what
/// is printed of that program. Else it is that, line by line, with comments on lines between and behind lines (`IsWoven`).
/// `StopsProgram` says when each error comes.
///
/// A comment that ends a line of the text stays behind that line, two spaces apart. Every other comment gets a line of its
/// own, before the line of the token that follows it. Blanks at the end of a comment go. That the comments are all there,
/// and in order, is made sure of when this runs, but no clause says it: it rests on tests alone.
pub fn format_program(alloc: Global, source: &[u8]) -> Result<Word, FormatStop>
    // The text means what the source means.
    ensures laid_out { IfOk result (LaysOutProgram source.now) }
    // Each error has its cause.
    ensures stopped { IfErr result (StopsProgram source.now) }
{
    printed_programs_read_back();
    sources_have_one_outcome();
    let printed = print_source(alloc, source)?;
    if !has_slashes(source) {
        return Ok(printed);
    }
    let woven = weave(alloc, source, printed.as_slice())?;
    let kept = keeps_comments(alloc, source, woven.as_slice())?;
    let placed = is_woven(printed.as_slice(), woven.as_slice());
    if kept && placed && prints_as(alloc, woven.as_slice(), printed.as_slice())? {
        Ok(woven)
    } else {
        Err(FormatStop::Unkept)
    }
}

// What is printed of the program of a source.
fn print_source(alloc: Global, source: &[u8]) -> Result<Word, FormatStop>
    ensures printed { IfOk result (PrintsProgram source.now) }
    ensures stopped { IfErr result (StopsProgram source.now) }
{
    match parse_program(alloc, source) {
        Ok(program) => print_short(alloc, &program),
        Err(ReadError::Memory) => Err(FormatStop::Memory),
        Err(error) => Err(FormatStop::Unread(error)),
    }
}

// What is printed of a program, if it isn't too long to be read.
fn print_short(alloc: Global, program: &Program) -> Result<Word, FormatStop>
    ensures printed { IfOk result (λ text. text ≡ printed_program (mirror_program program.now)) }
    ensures short { IfOk result (λ text. length text ≤ longest_text) }
    ensures stopped { IfErr result (IsTooMuch (printed_program (mirror_program program.now))) }
{
    let text = print_program(alloc, program)?;
    short_text(text)
}

// Whether this is printed of the program of a source.
fn prints_as(alloc: Global, source: &[u8], printed: &[u8]) -> Result<bool, Memory>
    ensures { IfOk result (λ prints. IsTrue prints → PrintsProgram source.now printed.now) }
{
    match print_source(alloc, source) {
        Ok(text) => Ok(text.as_slice() == printed),
        Err(FormatStop::Memory) => Err(Memory),
        Err(_) => Ok(false),
    }
}
