// What runs code.

use crate::state::State;
use rb_code::Code;
use std::alloc::Global;

/// What runs code: the code of its classes, what it changes beside its names, and its World. It is lent the last two, and
/// keeps them lent: no call puts another state or World in their place.
#[derive(Drop)]
pub struct Machine<'a, W> {
    pub alloc: Global,
    pub code: &'a Code,
    pub state: &'a mut State,
    pub world: &'a mut W,
}
