// Tables as texts.

ghost use Rattle.std.specs.Prelude.{◌≡◌, ◌+◌, ◌<◌, ◌++◌, length, drop, IfOk};
ghost use Rattle.rb_meaning.specs.Shown.{shown_table};

use rb_heap::Heap;
use rb_shown::object_line;
use rb_trees::{Memory, Seq, Word};
use std::alloc::Global;

// The line of an object, which stands before those of the objects behind it.
fn line_of(alloc: Global, table: &Heap, number: u32) -> Result<Word, Memory>
    requires { number < length table.now }
    ensures { let rest = shown_table (number + 1) (drop (number + 1) table.now) in
        IfOk result (λ text. text ++ rest ≡ shown_table number (drop number table.now)) }
{
    match table.get(number) {
        Some(object) => {
            let (names, values) = (object.names.as_slice(), object.values.as_slice());
            object_line(alloc, number as u64, object.class, names, values)
        }
        None => unreachable!(),
    }
}

/// The lines of all objects of a table, numbered from 0: `shown_table`. Its error is want of memory.
pub fn print_table(alloc: Global, table: &Heap) -> Result<Word, Memory>
    ensures { IfOk result (λ text. text ≡ shown_table 0 table.now) }
{
    let mut text = Seq::new(alloc);
    for number in 0..table.len() {
        let line = line_of(alloc, table, number)?;
        text.extend_from_slice(line.as_slice())?;
    }
    Ok(text)
}
