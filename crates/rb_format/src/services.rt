// Laying out services.

ghost use Rattle.std.specs.Prelude.{◌≡◌, ◌≤◌, length, IfOk, IfErr, IsTrue, OnOk, ◌++◌};
ghost use Rattle.rb_trees.specs.mirror.Services.{mirror_service};
ghost use Rattle.rb_meaning_bytes.specs.tokens.Texts.{longest_text};
ghost use Rattle.rb_law_tables.specs.Printed.{printed_service, root_line};
ghost use Rattle.rb_format.specs.Formats.{LaysOutService, StopsService};
ghost use Rattle.rb_format.specs.Prints.{IsTooMuch, PrintsService};

use crate::short::short_text;
use crate::slashes::has_slashes;
use crate::stops::FormatStop;
use crate::weaving::{keeps_comments, weave};
use crate::woven::is_woven;
use rb_heap::Heap;
use rb_law_tables::{printed_tables_read_back, read_services_have_read_classes};
use rb_store::{print_table, read_service, sources_have_one_outcome_as_services};
use rb_trees::{Memory, Seq, Service, StoreError, Word, print_classes};
use std::alloc::Global;

/// The text of a service as the product prints it, with the comments of the source: its classes as programs print them,
/// a line for each object, and the line of the root.
///
/// The text is read as the same service but for positions, and with the same table (`LaysOutService`). Where the source has
/// no `//` it is just what is printed of that service. Else it is that with comments among its lines (`IsWoven`).
/// `StopsService` says when each error comes.
///
/// Comments stand as in [`format_program`](crate::format_program), and that they are all there is tested alone here too.
pub fn format_service(alloc: Global, source: &[u8]) -> Result<Word, FormatStop>
    // The text means what the source means.
    ensures laid_out { IfOk result (LaysOutService source.now) }
    // Each error has its cause.
    ensures stopped { IfErr result (StopsService source.now) }
{
    printed_tables_read_back();
    read_services_have_read_classes();
    sources_have_one_outcome_as_services();
    let printed = print_source(alloc, source)?;
    if !has_slashes(source) {
        return Ok(printed);
    }
    let woven = weave(alloc, source, printed.as_slice())?;
    let kept = keeps_comments(alloc, source, woven.as_slice())?;
    let placed = is_woven(printed.as_slice(), woven.as_slice());
    if kept && placed && prints_as(alloc, woven.as_slice(), printed.as_slice())? {
        Ok(woven)
    } else {
        Err(FormatStop::Unkept)
    }
}

// What is printed of the service of a source.
fn print_source(alloc: Global, source: &[u8]) -> Result<Word, FormatStop>
    ensures printed { IfOk result (PrintsService source.now) }
    ensures stopped { IfErr result (StopsService source.now) }
{
    match read_service(alloc, source) {
        Ok((service, table)) => print_short(alloc, &service, &table),
        Err(StoreError::Memory) => Err(FormatStop::Memory),
        Err(error) => Err(FormatStop::Unserved(error)),
    }
}

// What is printed of a service with its table, if it isn't too long to be read.
fn print_short(alloc: Global, service: &Service, table: &Heap) -> Result<Word, FormatStop>
    ensures printed { IfOk result (λ text. text ≡ printed_service (mirror_service service.now) table.now) }
    ensures short { IfOk result (λ text. length text ≤ longest_text) }
    ensures stopped { IfErr result (IsTooMuch (printed_service (mirror_service service.now) table.now)) }
{
    let text = print_service(alloc, service, table)?;
    short_text(text)
}

// What is printed of a service with its table.
fn print_service(alloc: Global, service: &Service, table: &Heap) -> Result<Word, Memory>
    ensures { IfOk result (λ text. text ≡ printed_service (mirror_service service.now) table.now) }
{
    let mut text = Seq::new(alloc);
    print_classes(alloc, service.classes.as_slice(), &mut text)?;
    let objects = print_table(alloc, table)?;
    text.extend_from_slice(objects.as_slice())?;
    add_root(alloc, service.root, &mut text)?;
    Ok(text)
}

// Adds the line that names the root.
fn add_root(alloc: Global, root: u32, into: &mut Word) -> Result<(), Memory>
    ensures { OnOk result (into.new ≡ into.old ++ root_line root) }
{
    let line = format!(in alloc; "root {root};\n")?;
    into.extend_from_slice(line.as_bytes())
}

// Whether this is printed of the service of a source.
fn prints_as(alloc: Global, source: &[u8], printed: &[u8]) -> Result<bool, Memory>
    ensures { IfOk result (λ prints. IsTrue prints → PrintsService source.now printed.now) }
{
    match print_source(alloc, source) {
        Ok(text) => Ok(text.as_slice() == printed),
        Err(FormatStop::Memory) => Err(Memory),
        Err(_) => Ok(false),
    }
}
