// What running code changes beside its names.

use rb_heap::Heap;

/// The objects of a side, the units of fuel that are left, and the number of active calls.
#[derive(Drop)]
pub struct State {
    pub heap: Heap,
    pub fuel: u64,
    pub depth: u32,
}
