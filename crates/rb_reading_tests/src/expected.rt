// What is found, beside what is wanted.

use std::test::Fail;

/// Fails unless what is found of a source is what is wanted.
pub fn expect(source: &str, found: &[u8], wanted: &[u8]) -> Result<(), Fail> {
    if found == wanted {
        return Ok(());
    }
    match str::from_utf8(found) {
        Ok(text) => Err(Fail::new(format_args!("{text:?} isn't wanted of {source}"))),
        Err(_) => Err(Fail::new(format_args!("what has no UTF-8 isn't wanted of {source}"))),
    }
}
