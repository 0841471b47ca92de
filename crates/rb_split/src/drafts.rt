// The steps and the parts of a block, as far as they are written.

#![tactic(auto, using(crate::proofs::Steps::step_rules))]

ghost use Rattle.std.specs.Prelude.{◌≡◌, OnOk};
ghost use Rattle.rb_trees.specs.mirror.Remainders.{mirror_part};
ghost use Rattle.rb_trees.specs.mirror.Scripts.{mirror_step};
ghost use Rattle.rb_split.specs.Drafts as words;
ghost use Rattle.rb_split.specs.Drafts.{drafted};

use rb_trees::{Memory, Part, Seq, Step};
use std::alloc::Global;

/// The steps and the parts so far, and the numbers of the next step and of the next variable.
#[derive(Drop)]
pub struct Draft {
    pub steps: Seq<Step>,
    pub parts: Seq<Part>,
    pub step: u32,
    pub var: u32,
}

impl Draft {
    /// An empty block, whose first step and first variable have these numbers.
    pub fn new(alloc: Global, step: u32, var: u32) -> Draft
        ensures { drafted result ≡ words.fresh step var }
    {
        Draft {
            steps: Seq::new(alloc),
            parts: Seq::new(alloc),
            step,
            var,
        }
    }

    /// Adds a part.
    pub fn add_part(&mut self, part: Part) -> Result<(), Memory>
        ensures { OnOk result (drafted self.new ≡ words.with_part (drafted self.old) (mirror_part part)) }
    {
        self.parts.push(part)
    }

    /// Adds a step. The next step and the next variable have these numbers.
    pub fn add_step(&mut self, step: Step, next: u32, var: u32) -> Result<(), Memory>
        ensures { OnOk result (drafted self.new ≡ words.with_kept (drafted self.old) (mirror_step step) next var) }
    {
        self.steps.push(step)?;
        self.step = next;
        self.var = var;
        Ok(())
    }
}
