// What a script runs on, and where its steps stand.

ghost use Rattle.std.specs.Prelude.{◌≡◌};
ghost use Rattle.rb_exec.specs.Ends.{Gets, Ruled};
ghost use Rattle.rb_exec.specs.Stages.{site_value};

use crate::ends::{Stop, at_step};
use crate::expressions::Scope;
use crate::variables::Variables;
use rb_code::Code;
use rb_engine::{Failure, Server, at_place};
use rb_trees::{SExpr, Value, Version};
use std::alloc::Global;

/// What stays the same while a script runs: the service's classes and the number of its root, the values of the script's
/// inputs, and the version in which the forest is written.
#[derive(Clone, Copy)]
pub struct Stage<'a> {
    pub alloc: Global,
    pub code: &'a Code,
    pub root: u32,
    pub inputs: &'a [Value],
    pub version: Version,
}

/// The number of a step and its position, on a stage.
#[derive(Clone, Copy)]
pub struct Site<'a> {
    pub stage: &'a Stage<'a>,
    pub id: u32,
    pub at: u32,
}

impl Site<'_> {
    /// The value of an expression in the step.
    #[inline(always)]
    pub fn value(
        self,
        variables: &Variables,
        server: &mut Server,
        expr: &SExpr,
    ) -> Result<Value, Stop>
        ensures { Gets self.entry.id (site_value self.entry variables.now expr.now server.old) result server.new }
    {
        let scope = Scope {
            site: self,
            variables,
        };
        at_step(self.stage.alloc, self.id, scope.value_of(server, expr))
    }

    /// The value of a condition in the step.
    #[inline(always)]
    pub fn condition(
        self,
        variables: &Variables,
        server: &mut Server,
        expr: &SExpr,
    ) -> Result<Value, Stop>
        ensures { Gets self.entry.id (site_value self.entry variables.now expr.now server.old) result server.new }
    {
        let scope = Scope {
            site: self,
            variables,
        };
        at_step(self.stage.alloc, self.id, scope.condition_of(server, expr))
    }

    /// What a rule gives at the position of the step.
    #[inline(always)]
    pub fn ruled<T>(self, outcome: Result<T, Failure>) -> Result<T, Stop>
        ensures { Ruled self.entry.id self.entry.at outcome result }
    {
        at_step(self.stage.alloc, self.id, at_place(self.at, outcome))
    }
}
