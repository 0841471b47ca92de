// How the batches of a program are divided, as a text.

ghost use Rattle.std.specs.Prelude.{◌≡◌, map, IfOk};
ghost use Rattle.rb_meaning_split.specs.Division.{mirror_split};
ghost use Rattle.rb_shown.specs.Views.{shown_divisions};
ghost use Rattle.rb_top.specs.Texts.{WithinLength};

use rb_places::Places;
use rb_shown::split_view;
use rb_trees::{Memory, Split};
use std::alloc::Global;

/// The views of divided batches of a text, one after the other.
#[tactic(auto, using(crate::proofs::Lines::pieces))]
fn views(alloc: Global, places: &Places<'_>, splits: &[Split]) -> Result<Vec<u8>, Memory>
    requires { WithinLength places.now }
    ensures { IfOk result (λ view. view.items ≡ shown_divisions places.now (map mirror_split splits.now)) }
{
    let mut view = Vec::new(alloc);
    for split in splits {
        let own = split_view(alloc, places, split)?;
        view.extend_from_slice(own.as_slice())?;
    }
    Ok(view)
}

/// The view of a program's division.
pub fn divisions_text(alloc: Global, text: &[u8], splits: &[Split]) -> Result<Vec<u8>, Memory>
    requires { WithinLength text.now }
    ensures { IfOk result (λ view. view.items ≡ shown_divisions text.now (map mirror_split splits.now)) }
{
    let places = Places::of(alloc, text)?;
    views(alloc, &places, splits)
}
