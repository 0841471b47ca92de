// Performs the steps of a script.

ghost use Rattle.std.specs.Prelude.{◌≡◌, cond, false, OnErr};
ghost use Rattle.std.specs.Option.{option_copied};
ghost use Rattle.rb_wire_fields.specs.Buffers.{Keeps};
ghost use Rattle.rb_exec.specs.Blocks.{Closes, Runs, RunsBlock, RunsQuietly};
ghost use Rattle.rb_exec.specs.Ends.{UnlessMemory};
ghost use Rattle.rb_exec.specs.Stages.{block_from, do_run, each_run, if_run, keep_run, let_run, over_run, step_run, steps_run, walk_run};

use crate::ends::Stop;
use crate::holes::{add_one, fill, leave_hole};
use crate::nodes::{end_node, put_branch, put_entry, put_first, put_rows};
use crate::rules::{if_kept, input_items, may_keep, rows_in};
use crate::run::Run;
use crate::stage::{Site, Stage};
use crate::turns::{Walk, end_turns};
use rb_engine::truth_in;
use rb_trees::{SExpr, Seq, Step, StepForm, Value};

// The block that a condition chooses.
fn chosen<'a>(holds: bool, yes: &'a Seq<Step>, no: &'a Seq<Step>) -> &'a Seq<Step>
    ensures { result.now ≡ cond holds yes.now no.now }
{
    if holds { yes } else { no }
}

impl Run {
    /// Performs the steps of a block and appends its node, which begins with a value where one is given. Tells whether a fault
    /// stopped the block, wherever in the node it stands. At its end the bindings that are older than so many stay.
    #[cycle(running)]
    #[inline(never)]
    pub fn run_block(
        &mut self,
        stage: &Stage<'_>,
        count: usize,
        first: Option<&Value>,
        steps: &Seq<Step>,
    ) -> Result<bool, Stop>
        ensures runs { let version = stage.now.version in
            RunsBlock version (block_from stage.now (option_copied first.entry) steps.now) self.old result self.new }
        ensures closes { UnlessMemory result (λ stopped. Closes count self.old.variables self.new.variables) }
        ensures kept { OnErr result (Keeps self.old.bytes.items self.new.bytes.items) }
    {
        let at = leave_hole(&mut self.bytes)?;
        let mut entries = 0;
        put_first(stage.version, first, &mut entries, &mut self.bytes)?;
        let end = self.run_all(stage, &mut entries, steps.as_slice());
        self.variables.close(count)?;
        let stopped = end_node(stage.version, &mut self.bytes, at, entries, end)?;
        Ok(stopped)
    }

    // Steps in order.
    #[cycle(running)]
    #[inline(never)]
    fn run_all(&mut self, stage: &Stage<'_>, entries: &mut u32, steps: &[Step]) -> Result<(), Stop>
        ensures { let version = stage.now.version in
            Runs version (steps_run stage.now steps.now) entries.old self.old result entries.new self.new }
    {
        'steps: for step in steps {
            self.run_step(stage, entries, step)?;
        }
        Ok(())
    }

    // A step.
    #[cycle(running)]
    #[inline(always)]
    fn run_step(&mut self, stage: &Stage<'_>, entries: &mut u32, step: &Step) -> Result<(), Stop>
        ensures { let version = stage.now.version in
            Runs version (step_run stage.now step.now) entries.old self.old result entries.new self.new }
    {
        let site = Site {
            stage: &*stage,
            id: step.id,
            at: step.at,
        };
        match &step.form {
            StepForm::Do(expr) => self.run_do(site, expr),
            StepForm::Keep(expr) => self.run_keep(entries, site, expr),
            StepForm::Let { var, keep, value } => self.run_let(entries, site, *var, *keep, value),
            StepForm::If(test, yes, no) => self.run_if(entries, site, test, yes, no),
            StepForm::Each {
                var,
                keep,
                rows,
                body,
            } => {
                let walk = Walk {
                    site,
                    variable: *var,
                    keep: *keep,
                    body,
                };
                self.run_each(entries, &walk, rows)
            }
            StepForm::Over { var, input, body } => {
                let walk = Walk {
                    site,
                    variable: *var,
                    keep: false,
                    body,
                };
                self.run_over(entries, &walk, *input)
            }
        }
    }

    // A `Do`, which gives no entry.
    #[inline(always)]
    fn run_do(&mut self, site: Site<'_>, expr: &SExpr) -> Result<(), Stop>
        ensures { RunsQuietly site.entry.stage.now.version (do_run site.entry expr.now) self.old result self.new }
    {
        let _value = site.value(&self.variables, &mut self.server, expr)?;
        Ok(())
    }

    // A `Keep`, whose value is an entry.
    #[inline(always)]
    fn run_keep(&mut self, entries: &mut u32, site: Site<'_>, expr: &SExpr) -> Result<(), Stop>
        ensures { let version = site.entry.stage.now.version in
            Runs version (keep_run site.entry expr.now) entries.old self.old result entries.new self.new }
    {
        let value = site.value(&self.variables, &mut self.server, expr)?;
        site.ruled(may_keep(site.stage.alloc, true, &value))?;
        put_entry(site.stage.version, &value, entries, &mut self.bytes)?;
        Ok(())
    }

    // A `Let`, which binds its variable, and whose value is an entry where it is kept.
    #[inline(always)]
    fn run_let(
        &mut self,
        entries: &mut u32,
        site: Site<'_>,
        variable: u32,
        keep: bool,
        expr: &SExpr,
    ) -> Result<(), Stop>
        ensures { let version = site.entry.stage.now.version in
            Runs version (let_run site.entry variable keep expr.now) entries.old self.old result entries.new self.new }
    {
        let value = site.value(&self.variables, &mut self.server, expr)?;
        site.ruled(may_keep(site.stage.alloc, keep, &value))?;
        let kept = if_kept(keep, &value);
        put_first(site.stage.version, kept, entries, &mut self.bytes)?;
        self.variables.bind(variable, value)?;
        Ok(())
    }

    // An `If`: the entry of the branch that was taken. A fault within it ends the steps.
    #[cycle(running)]
    #[inline(always)]
    fn run_if(
        &mut self,
        entries: &mut u32,
        site: Site<'_>,
        test: &SExpr,
        yes: &Seq<Step>,
        no: &Seq<Step>,
    ) -> Result<(), Stop>
        ensures { let version = site.entry.stage.now.version in
            Runs version (if_run site.entry test.now yes.now no.now) entries.old self.old result entries.new self.new }
    {
        let value = site.condition(&self.variables, &mut self.server, test)?;
        let holds = site.ruled(truth_in(site.stage.alloc, &value))?;
        let steps = chosen(holds, yes, no);
        let count = self.variables.count();
        put_branch(holds, &mut self.bytes)?;
        let stopped = self.run_block(site.stage, count, None, steps)?;
        add_one(entries);
        if stopped {
            return Err(Stop::Within);
        }
        Ok(())
    }

    // An `Each`: the entry of its turns.
    #[cycle(running)]
    #[inline(never)]
    fn run_each(&mut self, entries: &mut u32, walk: &Walk<'_>, rows: &SExpr) -> Result<(), Stop>
        ensures { let version = walk.now.site.stage.now.version in
            Runs version (each_run walk.now rows.now) entries.old self.old result entries.new self.new }
    {
        let site = walk.site;
        let value = site.value(&self.variables, &mut self.server, rows)?;
        let rows = site.ruled(rows_in(site.stage.alloc, &value))?;
        self.run_walk(entries, walk, rows.get().as_slice())
    }

    // An `Over`: the entry of its turns. Its walk keeps no items.
    #[cycle(running)]
    #[inline(never)]
    fn run_over(&mut self, entries: &mut u32, walk: &Walk<'_>, input: u8) -> Result<(), Stop>
        requires plain { walk.now.keep ≡ false }
        ensures { let version = walk.now.site.stage.now.version in
            Runs version (over_run walk.now input) entries.old self.old result entries.new self.new }
    {
        let site = walk.site;
        let stage = site.stage;
        let items = site.ruled(input_items(stage.alloc, stage.inputs, input))?;
        self.run_walk(entries, walk, items.get().as_slice())
    }

    // The entry of the turns over rows or items.
    #[cycle(running)]
    #[inline(always)]
    fn run_walk(&mut self, entries: &mut u32, walk: &Walk<'_>, rows: &[Value]) -> Result<(), Stop>
        ensures { let version = walk.now.site.stage.now.version in
            Runs version (walk_run walk.now rows.now) entries.old self.old result entries.new self.new }
    {
        let at = put_rows(&mut self.bytes)?;
        let mut begun = 0;
        let end = self.run_turns(walk, &mut begun, rows)?;
        fill(&mut self.bytes, at, begun);
        add_one(entries);
        end_turns(walk.site, end)
    }
}
