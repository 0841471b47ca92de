// Steps in JSON.

ghost use Rattle.std.specs.Prelude.{◌≡◌, ◌+◌, length, OnOk};
ghost use Rattle.rb_trees.specs.Outcome.{Gives};
ghost use Rattle.rb_trees.specs.mirror.Scripts.{mirror_sexpr, mirror_step, mirror_steps};
ghost use Rattle.serde_json.specs.Data.{array, item, string};
ghost use Rattle.serde_json.specs.View.{view, items_view};
ghost use Rattle.rb_json.specs.Counts.{count, count_items};
ghost use Rattle.rb_json.specs.Values.{pair};
ghost use Rattle.rb_json.specs.Steps as form;
ghost use Rattle.rb_json.specs.Steps.{head_at, bound_at, walk_at, step_at, steps_at, steps_in};
ghost use Rattle.rb_json.specs.Stops.{wrong};

use crate::reader::Reader;
use crate::stops::ReadStop;
use crate::words::{five, six, three, worded};
use rb_trees::{SExpr, Seq, Step, StepForm};
use serde_json::Value;

/// Blocks of a script.
type Block = Seq<Step>;

impl Reader {
    /// The number of a step, and its position.
    fn head(&mut self, id: &Value, at: &Value) -> Result<(u32, u32), ReadStop>
        ensures reads { Gives (λ h. (h.0, h.1)) wrong result (head_at self.old.place (view id.now) (view at.now)) }
        ensures next { OnOk result (self.new.place ≡ self.old.place + (count (view id.now) + count (view at.now))) }
    {
        let id = self.number32(id)?;
        let at = self.number32(at)?;
        Ok((id, at))
    }

    /// A variable, whether what it stands for is kept, and the expression that gives it.
    fn bound(
        &mut self,
        var: &Value,
        keep: &Value,
        expr: &Value,
    ) -> Result<(u32, bool, SExpr), ReadStop>
        ensures reads { Gives (λ b. (b.0, b.1, mirror_sexpr b.2)) wrong result
            (bound_at self.old.place (view var.now) (view keep.now) (view expr.now)) }
        ensures next { OnOk result
            (self.new.place ≡ self.old.place + (count (view var.now) + count (view keep.now) + count (view expr.now))) }
    {
        let var = self.number32(var)?;
        let keep = self.truth(keep)?;
        let expr = self.expr(expr)?;
        Ok((var, keep, expr))
    }

    /// A variable, and the number of the list input that it goes through.
    fn walk(&mut self, var: &Value, input: &Value) -> Result<(u32, u8), ReadStop>
        ensures reads { Gives (λ w. (w.0, w.1)) wrong result (walk_at self.old.place (view var.now) (view input.now)) }
        ensures next { OnOk result (self.new.place ≡ self.old.place + (count (view var.now) + count (view input.now))) }
    {
        let var = self.number32(var)?;
        let input = self.number8(input)?;
        Ok((var, input))
    }

    /// A step.
    #[cycle(steps)]
    #[tactic(auto, using(crate::proofs::Blocks::worded_steps))]
    fn step(&mut self, value: &Value) -> Result<Step, ReadStop>
        ensures reads { Gives mirror_step wrong result (step_at self.old.place (view value.now)) }
        ensures next { OnOk result (self.new.place ≡ self.old.place + count (view value.now)) }
    {
        let place = self.place;
        let Some((word, parts)) = worded(value) else {
            return Err(ReadStop::WrongForm(place));
        };
        self.skip(2)?;
        self.step_by(place, word, parts)
    }

    /// The step that an array with this number is, by its word and the parts behind it.
    #[cycle(steps)]
    #[tactic(auto, using(crate::proofs::Worded::chosen))]
    fn step_by(&mut self, place: u32, word: &str, parts: &[Value]) -> Result<Step, ReadStop>
        requires { self.old.place ≡ place + 2 }
        ensures reads { Gives mirror_step wrong result (step_at place (array (item (string word.now) (items_view parts.now)))) }
        ensures next { OnOk result (self.new.place ≡ self.old.place + count_items (items_view parts.now)) }
    {
        let len = parts.len();
        if word == "do" && len == 3 {
            self.do_step(parts)
        } else if word == "keep" && len == 3 {
            self.keep_step(parts)
        } else if word == "let" && len == 5 {
            self.let_step(parts)
        } else if word == "if" && len == 5 {
            self.if_step(parts)
        } else if word == "each" && len == 6 {
            self.each_step(parts)
        } else if word == "over" && len == 5 {
            self.over_step(parts)
        } else {
            Err(ReadStop::WrongForm(place))
        }
    }

    #[tactic(auto, using(crate::proofs::Blocks::parts))]
    fn do_step(&mut self, parts: &[Value]) -> Result<Step, ReadStop>
        requires { length parts.now ≡ 3 }
        ensures reads { Gives mirror_step wrong result (form.do_step self.old.place (items_view parts.now)) }
        ensures next { OnOk result (self.new.place ≡ self.old.place + count_items (items_view parts.now)) }
    {
        let (id, at, expr) = three(parts);
        let (id, at) = self.head(id, at)?;
        let form = StepForm::Do(self.expr(expr)?);
        Ok(Step { id, at, form })
    }

    #[tactic(auto, using(crate::proofs::Blocks::parts))]
    fn keep_step(&mut self, parts: &[Value]) -> Result<Step, ReadStop>
        requires { length parts.now ≡ 3 }
        ensures reads { Gives mirror_step wrong result (form.keep_step self.old.place (items_view parts.now)) }
        ensures next { OnOk result (self.new.place ≡ self.old.place + count_items (items_view parts.now)) }
    {
        let (id, at, expr) = three(parts);
        let (id, at) = self.head(id, at)?;
        let form = StepForm::Keep(self.expr(expr)?);
        Ok(Step { id, at, form })
    }

    #[tactic(auto, using(crate::proofs::Blocks::parts))]
    fn let_step(&mut self, parts: &[Value]) -> Result<Step, ReadStop>
        requires { length parts.now ≡ 5 }
        ensures reads { Gives mirror_step wrong result (form.let_step self.old.place (items_view parts.now)) }
        ensures next { OnOk result (self.new.place ≡ self.old.place + count_items (items_view parts.now)) }
    {
        let (id, at, var, keep, value) = five(parts);
        let (id, at) = self.head(id, at)?;
        let (var, keep, value) = self.bound(var, keep, value)?;
        let form = StepForm::Let { var, keep, value };
        Ok(Step { id, at, form })
    }

    #[cycle(steps)]
    #[tactic(auto, using(crate::proofs::Blocks::parts))]
    fn if_step(&mut self, parts: &[Value]) -> Result<Step, ReadStop>
        requires { length parts.now ≡ 5 }
        ensures reads { Gives mirror_step wrong result (form.if_step self.old.place (items_view parts.now)) }
        ensures next { OnOk result (self.new.place ≡ self.old.place + count_items (items_view parts.now)) }
    {
        let (id, at, condition, yes, no) = five(parts);
        let (id, at) = self.head(id, at)?;
        let condition = self.expr(condition)?;
        let (yes, no) = self.branches(yes, no)?;
        let form = StepForm::If(condition, yes, no);
        Ok(Step { id, at, form })
    }

    /// Both blocks of an `if`.
    #[cycle(steps)]
    #[tactic(auto, using(crate::proofs::Blocks::parts))]
    fn branches(&mut self, yes: &Value, no: &Value) -> Result<(Block, Block), ReadStop>
        ensures reads { Gives (λ b. (mirror_steps b.0, mirror_steps b.1)) wrong result
            (pair (steps_at self.old.place (view yes.now)) (steps_at (self.old.place + count (view yes.now)) (view no.now))) }
        ensures next { OnOk result (self.new.place ≡ self.old.place + count (view yes.now) + count (view no.now)) }
    {
        let yes = self.steps(yes)?;
        let no = self.steps(no)?;
        Ok((yes, no))
    }

    #[cycle(steps)]
    #[tactic(auto, using(crate::proofs::Blocks::parts))]
    fn each_step(&mut self, parts: &[Value]) -> Result<Step, ReadStop>
        requires { length parts.now ≡ 6 }
        ensures reads { Gives mirror_step wrong result (form.each_step self.old.place (items_view parts.now)) }
        ensures next { OnOk result (self.new.place ≡ self.old.place + count_items (items_view parts.now)) }
    {
        let (id, at, var, keep, rows, body) = six(parts);
        let (id, at) = self.head(id, at)?;
        let (var, keep, rows) = self.bound(var, keep, rows)?;
        let body = self.steps(body)?;
        let form = StepForm::Each {
            var,
            keep,
            rows,
            body,
        };
        Ok(Step { id, at, form })
    }

    #[cycle(steps)]
    #[tactic(auto, using(crate::proofs::Blocks::parts))]
    fn over_step(&mut self, parts: &[Value]) -> Result<Step, ReadStop>
        requires { length parts.now ≡ 5 }
        ensures reads { Gives mirror_step wrong result (form.over_step self.old.place (items_view parts.now)) }
        ensures next { OnOk result (self.new.place ≡ self.old.place + count_items (items_view parts.now)) }
    {
        let (id, at, var, input, body) = five(parts);
        let (id, at) = self.head(id, at)?;
        let (var, input) = self.walk(var, input)?;
        let body = self.steps(body)?;
        let form = StepForm::Over { var, input, body };
        Ok(Step { id, at, form })
    }

    /// An array of steps.
    #[cycle(steps)]
    #[tactic(auto, using(crate::proofs::Blocks::lists))]
    pub(crate) fn steps(&mut self, value: &Value) -> Result<Block, ReadStop>
        ensures reads { Gives mirror_steps wrong result (steps_at self.old.place (view value.now)) }
        ensures next { OnOk result (self.new.place ≡ self.old.place + count (view value.now)) }
    {
        let place = self.take()?;
        let Some(items) = value.as_array() else {
            return Err(ReadStop::WrongForm(place));
        };
        self.step_list(items.as_slice())
    }

    /// Steps one after another.
    #[cycle(steps)]
    #[tactic(auto, using(crate::proofs::Blocks::step_lists))]
    fn step_list(&mut self, items: &[Value]) -> Result<Block, ReadStop>
        ensures reads { Gives mirror_steps wrong result (steps_in self.old.place (items_view items.now)) }
        ensures next { OnOk result (self.new.place ≡ self.old.place + count_items (items_view items.now)) }
    {
        let mut steps = Seq::new(self.alloc);
        for item in items {
            let step = self.step(item)?;
            steps.push(step)?;
        }
        Ok(steps)
    }
}
