// Steps and blocks.

ghost use Rattle.std.specs.Prelude.{◌≡◌, ◌<◌, ◌^◌, map};
ghost use Rattle.rb_trees.specs.mirror.Scripts.{mirror_sexpr, mirror_step, mirror_steps};
ghost use Rattle.rb_trees.specs.Outcome.{Gives};
ghost use Rattle.rb_wire_fields.specs.Stops.{fault_of};
ghost use Rattle.rb_wire_script.specs.Parts as parts;
ghost use Rattle.rb_wire_script.specs.Parts.{reads};
ghost use Rattle.rb_wire_script.specs.Stops.{seen_at};

use crate::exprs::expr;
use crate::lists::fitted;
use crate::pools::{Place, Pool};
use rb_trees::limits::MOST_EXPRS;
use rb_trees::{SExpr, Seq, Step, StepForm, Version};
use rb_wire_fields::fields::{bad_tag, byte, natural, too_deep, truth};
use rb_wire_fields::stop::Stop;
use std::alloc::Global;

/// An expression that stands in a step.
#[tactic(auto, unfolding(rb_meaning_bytes::specs::formats::Scripts::whole_expr))]
fn whole_expr<'a>(alloc: Global, pool: &Pool, from: Place<'a>) -> Result<(SExpr, Place<'a>), Stop>
    ensures { Gives (seen_at mirror_sexpr) fault_of result (reads (parts.whole_expr pool.now) from.entry) }
{
    expr(alloc, pool, MOST_EXPRS as usize, from)
}

/// A block, with at most so many within each other.
#[cycle(steps)]
#[tactic(auto, using(crate::proofs::Equations::blocks))]
pub(crate) fn block<'a>(
    alloc: Global,
    pool: &Pool,
    left: usize,
    from: Place<'a>,
) -> Result<(Seq<Step>, Place<'a>), Stop>
    requires { left < 2 ^ 32 }
    ensures { Gives (seen_at mirror_steps) fault_of result (reads (parts.block pool.now left) from.entry) }
{
    if left == 0 {
        return Err(Stop::from(too_deep(from.bytes)));
    }
    let (count, bytes) = natural(pool.version, from.bytes)?;
    let used = from.used;
    let (steps, behind) = steps(alloc, pool, left - 1, count, Place { used, bytes })?;
    Ok((steps, behind))
}

/// So many steps, whose blocks have at most so many within each other.
#[cycle(steps)]
#[tactic(auto, using(crate::proofs::Stages::lists))]
fn steps<'a>(
    alloc: Global,
    pool: &Pool,
    left: usize,
    count: u32,
    from: Place<'a>,
) -> Result<(Seq<Step>, Place<'a>), Stop>
    requires { left < 2 ^ 32 }
    ensures { Gives (seen_at (map mirror_step)) fault_of result (reads (parts.steps pool.now left count) from.entry) }
{
    let mut items = Seq::new(alloc);
    let mut place = from;
    for _ in 0..count {
        let (item, behind) = step(alloc, pool, left, place)?;
        items.push(item)?;
        place = behind;
    }
    Ok((fitted(items), place))
}

/// A step, whose blocks have at most so many within each other.
#[cycle(steps)]
#[tactic(auto, using(crate::proofs::Equations::steps), unfolding(rb_meaning_bytes::specs::formats::Reading::read))]
fn step<'a>(
    alloc: Global,
    pool: &Pool,
    left: usize,
    from: Place<'a>,
) -> Result<(Step, Place<'a>), Stop>
    requires { left < 2 ^ 32 }
    ensures { Gives (seen_at mirror_step) fault_of result (reads (parts.step pool.now left) from.entry) }
{
    let (tag, bytes) = byte(from.bytes)?;
    let used = from.used;
    let behind = Place { used, bytes };
    match tag {
        0x10 => do_step(alloc, pool, behind),
        0x11 => keep_step(alloc, pool, behind),
        0x12 => let_step(alloc, pool, behind),
        0x13 => if_step(alloc, pool, left, behind),
        0x14 => each_step(alloc, pool, left, behind),
        0x15 => match pool.version {
            Version::One => Err(Stop::from(bad_tag(bytes))),
            Version::Two => over_step(alloc, pool, left, behind),
        },
        _ => Err(Stop::from(bad_tag(bytes))),
    }
}

/// A step that does an expression.
#[tactic(auto, using(crate::proofs::Equations::steps), unfolding(rb_meaning_bytes::specs::formats::Reading::read))]
fn do_step<'a>(alloc: Global, pool: &Pool, from: Place<'a>) -> Result<(Step, Place<'a>), Stop>
    ensures { Gives (seen_at mirror_step) fault_of result (reads (parts.do_step pool.now) from.entry) }
{
    let (id, rest) = natural(pool.version, from.bytes)?;
    let (at, bytes) = natural(pool.version, rest)?;
    let used = from.used;
    let (e, behind) = whole_expr(alloc, pool, Place { used, bytes })?;
    let form = StepForm::Do(e);
    Ok((Step { id, at, form }, behind))
}

/// A step that keeps an expression's value.
#[tactic(auto, using(crate::proofs::Equations::steps), unfolding(rb_meaning_bytes::specs::formats::Reading::read))]
fn keep_step<'a>(alloc: Global, pool: &Pool, from: Place<'a>) -> Result<(Step, Place<'a>), Stop>
    ensures { Gives (seen_at mirror_step) fault_of result (reads (parts.keep_step pool.now) from.entry) }
{
    let (id, rest) = natural(pool.version, from.bytes)?;
    let (at, bytes) = natural(pool.version, rest)?;
    let used = from.used;
    let (e, behind) = whole_expr(alloc, pool, Place { used, bytes })?;
    let form = StepForm::Keep(e);
    Ok((Step { id, at, form }, behind))
}

/// A step that binds a variable.
#[tactic(auto, using(crate::proofs::Equations::steps), unfolding(rb_meaning_bytes::specs::formats::Reading::read))]
fn let_step<'a>(alloc: Global, pool: &Pool, from: Place<'a>) -> Result<(Step, Place<'a>), Stop>
    ensures { Gives (seen_at mirror_step) fault_of result (reads (parts.let_step pool.now) from.entry) }
{
    let (id, rest) = natural(pool.version, from.bytes)?;
    let (at, rest) = natural(pool.version, rest)?;
    let (var, rest) = natural(pool.version, rest)?;
    let (keep, bytes) = truth(rest)?;
    let used = from.used;
    let (value, behind) = whole_expr(alloc, pool, Place { used, bytes })?;
    let form = StepForm::Let { var, keep, value };
    Ok((Step { id, at, form }, behind))
}

/// A branch, whose blocks have at most so many within each other.
#[cycle(steps)]
#[tactic(auto, using(crate::proofs::Equations::steps), unfolding(rb_meaning_bytes::specs::formats::Reading::read))]
fn if_step<'a>(
    alloc: Global,
    pool: &Pool,
    left: usize,
    from: Place<'a>,
) -> Result<(Step, Place<'a>), Stop>
    requires { left < 2 ^ 32 }
    ensures { Gives (seen_at mirror_step) fault_of result (reads (parts.if_step pool.now left) from.entry) }
{
    let (id, rest) = natural(pool.version, from.bytes)?;
    let (at, bytes) = natural(pool.version, rest)?;
    let used = from.used;
    let (e, behind) = whole_expr(alloc, pool, Place { used, bytes })?;
    let (a, behind) = block(alloc, pool, left, behind)?;
    let (b, behind) = block(alloc, pool, left, behind)?;
    let form = StepForm::If(e, a, b);
    Ok((Step { id, at, form }, behind))
}

/// A loop over rows, whose block has at most so many within each other.
#[cycle(steps)]
#[tactic(auto, using(crate::proofs::Equations::steps), unfolding(rb_meaning_bytes::specs::formats::Reading::read))]
fn each_step<'a>(
    alloc: Global,
    pool: &Pool,
    left: usize,
    from: Place<'a>,
) -> Result<(Step, Place<'a>), Stop>
    requires { left < 2 ^ 32 }
    ensures { Gives (seen_at mirror_step) fault_of result (reads (parts.each_step pool.now left) from.entry) }
{
    let (id, rest) = natural(pool.version, from.bytes)?;
    let (at, rest) = natural(pool.version, rest)?;
    let (var, rest) = natural(pool.version, rest)?;
    let (keep, bytes) = truth(rest)?;
    let used = from.used;
    let (rows, behind) = whole_expr(alloc, pool, Place { used, bytes })?;
    let (body, behind) = block(alloc, pool, left, behind)?;
    let form = StepForm::Each {
        var,
        keep,
        rows,
        body,
    };
    Ok((Step { id, at, form }, behind))
}

/// A loop over the items of an input, whose block has at most so many within each other.
#[cycle(steps)]
#[tactic(auto, using(crate::proofs::Equations::steps), unfolding(rb_meaning_bytes::specs::formats::Reading::read))]
fn over_step<'a>(
    alloc: Global,
    pool: &Pool,
    left: usize,
    from: Place<'a>,
) -> Result<(Step, Place<'a>), Stop>
    requires { left < 2 ^ 32 }
    ensures { Gives (seen_at mirror_step) fault_of result (reads (parts.over_step pool.now left) from.entry) }
{
    let (id, rest) = natural(pool.version, from.bytes)?;
    let (at, rest) = natural(pool.version, rest)?;
    let (var, rest) = natural(pool.version, rest)?;
    let (input, bytes) = byte(rest)?;
    let used = from.used;
    let (body, behind) = block(alloc, pool, left, Place { used, bytes })?;
    let form = StepForm::Over { var, input, body };
    Ok((Step { id, at, form }, behind))
}
