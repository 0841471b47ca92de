// Tests of the heap: what heaps answer, as texts.

mod answers;
mod heaps;
