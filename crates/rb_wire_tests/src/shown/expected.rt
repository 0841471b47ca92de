// What is shown, beside what is wanted.

use rb_trees::Word;
use std::test::Fail;

/// Fails unless what is shown is what is wanted.
pub fn expect(shown: &Word, wanted: &str) -> Result<(), Fail> {
    if shown.as_slice() == wanted.as_bytes() {
        return Ok(());
    }
    Err(Fail::new(format_args!("not shown: {wanted}")))
}
