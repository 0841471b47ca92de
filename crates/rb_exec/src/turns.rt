// Performs the turns of an `Each` or an `Over`.

ghost use Rattle.std.specs.Prelude.{◌≡◌, OnErr};
ghost use Rattle.rb_wire_fields.specs.Buffers.{Keeps};
ghost use Rattle.rb_exec.specs.Blocks.{EndsTurns, RunsBlock, RunsTurns};
ghost use Rattle.rb_exec.specs.Ends.{UnlessMemory};
ghost use Rattle.rb_exec.specs.Stages.{kept_row_run, turn_run, turns_run};

use crate::ends::{Stop, stopped};
use crate::holes::add_one;
use crate::nodes::put_faulted;
use crate::rules::{fuel_used, if_kept, may_keep};
use crate::run::Run;
use crate::stage::Site;
use rb_engine::{Miss, at_place};
use rb_trees::{Seq, Step, Value, copy_value};

/// An `Each` without its rows, or an `Over` without its items: where its step stands, the variable of its rows, whether they
/// are kept, and its block.
#[derive(Clone, Copy)]
pub struct Walk<'a> {
    pub site: Site<'a>,
    pub variable: u32,
    pub keep: bool,
    pub body: &'a Seq<Step>,
}

/// Why turns ended: each row had its turn, a fault stands within the last one, or the next one found no unit of fuel.
#[derive(Clone, Copy)]
pub enum TurnsEnd {
    AllDone,
    InTurn,
    NoUnit,
}

impl Run {
    /// Performs the turns over rows, appends the nodes of those that began and counts them. Tells why they ended.
    #[cycle(running)]
    #[inline(never)]
    pub fn run_turns(
        &mut self,
        walk: &Walk<'_>,
        begun: &mut u32,
        rows: &[Value],
    ) -> Result<TurnsEnd, Stop>
        ensures turns { let version = walk.now.site.stage.now.version in
            RunsTurns version (turns_run walk.now rows.now) begun.old self.old result begun.new self.new }
        ensures closes { UnlessMemory result (λ end. self.new.variables ≡ self.old.variables) }
        ensures kept { OnErr result (Keeps self.old.bytes.items self.new.bytes.items) }
    {
        'rows: for row in rows {
            if !self.server.take_unit() {
                return Ok(TurnsEnd::NoUnit);
            }
            let stopped = self.run_turn(walk, row)?;
            add_one(begun);
            if stopped {
                return Ok(TurnsEnd::InTurn);
            }
        }
        Ok(TurnsEnd::AllDone)
    }

    // A turn over a row: appends its node. A row that is kept and isn't primitive is the turn's fault, and its only content.
    #[cycle(running)]
    #[inline(always)]
    fn run_turn(&mut self, walk: &Walk<'_>, row: &Value) -> Result<bool, Stop>
        ensures turn { RunsBlock walk.now.site.stage.now.version (turn_run walk.now row.now) self.old result self.new }
        ensures closes { UnlessMemory result (λ stopped. self.new.variables ≡ self.old.variables) }
        ensures kept { OnErr result (Keeps self.old.bytes.items self.new.bytes.items) }
    {
        let site = walk.site;
        match at_place(site.at, may_keep(site.stage.alloc, walk.keep, row)) {
            Ok(()) => self.run_row(walk, row),
            Err(Miss::Fault(at, fault)) => {
                let fault = fault.into_inner();
                put_faulted(site.stage.version, site.id, at, fault, &mut self.bytes)?;
                Ok(true)
            }
            Err(Miss::Memory) => Err(Stop::Memory),
        }
    }

    // The block of a turn, with its row bound. Its node begins with the row, where rows are kept.
    #[cycle(running)]
    #[inline(always)]
    fn run_row(&mut self, walk: &Walk<'_>, row: &Value) -> Result<bool, Stop>
        ensures turn { let version = walk.now.site.stage.now.version in
            RunsBlock version (kept_row_run walk.now row.now) self.old result self.new }
        ensures closes { UnlessMemory result (λ stopped. self.new.variables ≡ self.old.variables) }
        ensures kept { OnErr result (Keeps self.old.bytes.items self.new.bytes.items) }
    {
        let count = self.variables.count();
        self.variables.bind(walk.variable, copy_value(row)?)?;
        let first = if_kept(walk.keep, row);
        self.run_block(walk.site.stage, count, first, walk.body)
    }
}

/// How the steps go on after the turns.
pub fn end_turns(site: Site<'_>, end: TurnsEnd) -> Result<(), Stop>
    ensures { EndsTurns site.entry.id site.entry.at end result }
{
    match end {
        TurnsEnd::AllDone => Ok(()),
        TurnsEnd::InTurn => Err(Stop::Within),
        TurnsEnd::NoUnit => {
            let alloc = site.stage.alloc;
            Err(stopped(alloc, site.id, site.at, fuel_used(alloc)))
        }
    }
}
