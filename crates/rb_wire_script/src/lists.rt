// Lists of what was read.

ghost use Rattle.std.specs.Prelude.{◌≡◌};

use rb_trees::Seq;

/// How many items a list has at most to be short.
const FEW: usize = 3;

/// The list. A short one gives back the room that it doesn't take, which may be more than what it takes.
#[tactic(auto)]
pub(crate) fn fitted<T>(items: Seq<T>) -> Seq<T>
    ensures { result ≡ items }
{
    let mut items = items.into_vec();
    if items.len() <= FEW {
        items.shrink_to_fit();
    }
    Seq::from_vec(items)
}
