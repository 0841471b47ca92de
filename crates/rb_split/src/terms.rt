// What the steps of a script are written with.

ghost use Rattle.std.specs.Prelude.{◌≡◌};

use crate::refs::Refs;
use rb_marks::Facts;
use std::alloc::Global;

/// What the steps of a script are written with: the facts of the program, and what the script calls the portable variables.
#[derive(Clone, Copy)]
pub struct Terms<'a, 'p> {
    pub alloc: Global,
    pub facts: &'a Facts<'p>,
    pub refs: &'a Refs,
}

impl<'a, 'p> Terms<'a, 'p> {
    /// These facts and variables.
    pub fn of(alloc: Global, facts: &'a Facts<'p>, refs: &'a Refs) -> Terms<'a, 'p>
        ensures facts { result.facts.now ≡ facts.now }
        ensures refs { result.refs.now ≡ refs.now }
    {
        Terms { alloc, facts, refs }
    }
}
