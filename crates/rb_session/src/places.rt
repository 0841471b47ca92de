// Where something stands under a target.

ghost use Rattle.rb_session.specs.Places.{StandsAt};

use crate::targets::Target;

/// The place of the first that stands under the target, or None where nothing does.
pub fn place_of<X>(pairs: &[(Target, X)], target: &Target) -> Option<usize>
    ensures { StandsAt target.now pairs.now result }
{
    for place in 0..pairs.len() {
        if pairs[place].0.is_same(target) {
            return Some(place);
        }
    }
    None
}
