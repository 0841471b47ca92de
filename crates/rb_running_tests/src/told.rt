// What is told, beside what is wanted.

use rb_trees::{Memory, Word};
use std::alloc::Global;
use std::test::Fail;

/// Fails, with what was asked, where something else is told than is wanted.
pub fn expect(asked: &str, told: &[u8], wanted: &str) -> Result<(), Fail> {
    if told == wanted.as_bytes() {
        return Ok(());
    }
    let told = str::from_utf8(told).unwrap_or("no text");
    Err(Fail::new(format_args!("{asked}\nis told as {told:?}\nand not {wanted:?}")))
}

/// Adds a number behind a text.
pub fn add_number(alloc: Global, before: &str, number: i64, into: &mut Word) -> Result<(), Memory> {
    let text = format!(in alloc; "{before}{number}")?;
    into.extend_from_slice(text.as_bytes())
}
