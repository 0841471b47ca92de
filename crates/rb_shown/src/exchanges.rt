// The number of exchanges.

ghost use Rattle.std.specs.Prelude.{◌≡◌, ◌++◌, IfOk, codes};
ghost use Rattle.std.specs.Fmt.{decimal};
ghost use Rattle.rb_meaning.specs.Shown.{line};

use rb_trees::{Memory, Seq, Word};
use std::alloc::Global;

/// The line of the number of exchanges.
pub fn exchanges_line(alloc: Global, count: u64) -> Result<Word, Memory>
    ensures { IfOk result (λ text. text ≡ line (codes "exchanges " ++ decimal count)) }
{
    let text = format!(in alloc; "exchanges {count}\n")?;
    Seq::from_slice(alloc, text.as_bytes())
}
