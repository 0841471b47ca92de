// Expressions.

ghost use Rattle.std.specs.Prelude.{◌≡◌, ◌<◌, ◌^◌, map};
ghost use Rattle.rb_trees.specs.mirror.Scripts.{mirror_sexpr};
ghost use Rattle.rb_trees.specs.Outcome.{Gives};
ghost use Rattle.rb_wire_fields.specs.Stops.{fault_of};
ghost use Rattle.rb_wire_script.specs.Parts as parts;
ghost use Rattle.rb_wire_script.specs.Parts.{reads};
ghost use Rattle.rb_wire_script.specs.Stops.{seen_at};

use crate::lists::fitted;
use crate::operators::{binary_op, kind, unary_op};
use crate::pools::{Place, Pool, name};
use crate::values::value;
use rb_trees::{Boxed, Invocation, Operands, SExpr, Seq};
use rb_wire_fields::fields::{bad_tag, byte, natural, too_deep};
use rb_wire_fields::stop::Stop;
use std::alloc::Global;

/// An expression, with at most so many within each other.
#[cycle(exprs)]
#[tactic(auto, using(crate::proofs::Equations::exprs), unfolding(rb_meaning_bytes::specs::formats::Reading::read))]
pub(crate) fn expr<'a>(
    alloc: Global,
    pool: &Pool,
    left: usize,
    from: Place<'a>,
) -> Result<(SExpr, Place<'a>), Stop>
    requires { left < 2 ^ 32 }
    ensures { Gives (seen_at mirror_sexpr) fault_of result (reads (parts.expr pool.now left) from.entry) }
{
    if left == 0 {
        return Err(Stop::from(too_deep(from.bytes)));
    }
    let (tag, bytes) = byte(from.bytes)?;
    let used = from.used;
    let behind = Place { used, bytes };
    match tag {
        0x20 => {
            let (value, behind) = value(alloc, pool, behind)?;
            Ok((SExpr::Lit(Boxed::new(alloc, value)?), behind))
        }
        0x21 => {
            let (input, bytes) = byte(bytes)?;
            Ok((SExpr::Input(input), Place { used, bytes }))
        }
        0x22 => {
            let (var, bytes) = natural(pool.version, bytes)?;
            Ok((SExpr::Var(var), Place { used, bytes }))
        }
        0x23 => Ok((SExpr::Root, behind)),
        0x24 => unary(alloc, pool, left - 1, behind),
        0x25 => binary(alloc, pool, left - 1, behind),
        0x26 => call(alloc, pool, left - 1, behind),
        _ => Err(Stop::from(bad_tag(bytes))),
    }
}

/// An operator and its operand, in which at most so many are within each other.
#[cycle(exprs)]
#[tactic(auto, using(crate::proofs::Equations::parts), unfolding(rb_meaning_bytes::specs::formats::Reading::read))]
fn unary<'a>(
    alloc: Global,
    pool: &Pool,
    left: usize,
    from: Place<'a>,
) -> Result<(SExpr, Place<'a>), Stop>
    requires { left < 2 ^ 32 }
    ensures { Gives (seen_at mirror_sexpr) fault_of result (reads (parts.unary pool.now left) from.entry) }
{
    let (op, rest) = unary_op(from.bytes)?;
    let (at, bytes) = natural(pool.version, rest)?;
    let used = from.used;
    let (operand, behind) = expr(alloc, pool, left, Place { used, bytes })?;
    Ok((SExpr::Unary(op, at, Boxed::new(alloc, operand)?), behind))
}

/// An operator and its two operands, in which at most so many are within each other.
#[cycle(exprs)]
#[tactic(auto, using(crate::proofs::Equations::parts), unfolding(rb_meaning_bytes::specs::formats::Reading::read))]
fn binary<'a>(
    alloc: Global,
    pool: &Pool,
    left: usize,
    from: Place<'a>,
) -> Result<(SExpr, Place<'a>), Stop>
    requires { left < 2 ^ 32 }
    ensures { Gives (seen_at mirror_sexpr) fault_of result (reads (parts.binary pool.now left) from.entry) }
{
    let (op, rest) = binary_op(from.bytes)?;
    let (at, bytes) = natural(pool.version, rest)?;
    let used = from.used;
    let (first, behind) = expr(alloc, pool, left, Place { used, bytes })?;
    let (second, behind) = expr(alloc, pool, left, behind)?;
    let operands = Operands {
        left: first,
        right: second,
    };
    Ok((SExpr::Binary(op, at, Boxed::new(alloc, operands)?), behind))
}

/// A call, in whose target and arguments at most so many are within each other.
#[cycle(exprs)]
#[tactic(auto, using(crate::proofs::Equations::parts), unfolding(rb_meaning_bytes::specs::formats::Reading::read))]
fn call<'a>(
    alloc: Global,
    pool: &Pool,
    left: usize,
    from: Place<'a>,
) -> Result<(SExpr, Place<'a>), Stop>
    requires { left < 2 ^ 32 }
    ensures { Gives (seen_at mirror_sexpr) fault_of result (reads (parts.call pool.now left) from.entry) }
{
    let (at, rest) = natural(pool.version, from.bytes)?;
    let (kind, bytes) = kind(rest)?;
    let used = from.used;
    let (method, behind) = name(alloc, pool, Place { used, bytes })?;
    let (target, behind) = expr(alloc, pool, left, behind)?;
    let (count, bytes) = natural(pool.version, behind.bytes)?;
    let used = behind.used;
    let (args, behind) = exprs(alloc, pool, left, count, Place { used, bytes })?;
    let call = Invocation {
        method,
        target,
        args,
    };
    Ok((
        SExpr::Call {
            kind,
            at,
            call: Boxed::new(alloc, call)?,
        },
        behind,
    ))
}

/// So many expressions.
#[cycle(exprs)]
#[tactic(auto, using(crate::proofs::Stages::lists))]
fn exprs<'a>(
    alloc: Global,
    pool: &Pool,
    left: usize,
    count: u32,
    from: Place<'a>,
) -> Result<(Seq<SExpr>, Place<'a>), Stop>
    requires { left < 2 ^ 32 }
    ensures { Gives (seen_at (map mirror_sexpr)) fault_of result (reads (parts.exprs pool.now left count) from.entry) }
{
    let mut items = Seq::new(alloc);
    let mut place = from;
    for _ in 0..count {
        let (item, behind) = expr(alloc, pool, left, place)?;
        items.push(item)?;
        place = behind;
    }
    Ok((fitted(items), place))
}
