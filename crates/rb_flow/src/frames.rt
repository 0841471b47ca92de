// How a statement bears on its expressions and on what stands in its blocks.

#![tactic(auto, using(crate::proofs::WalkRules::walk_rules))]

ghost use Rattle.std.specs.Prelude.{◌≡◌, IfOk, OnOk};
ghost use Rattle.rb_trees.specs.mirror.Code.{mirror_expr};
ghost use Rattle.rb_flow.specs.ByTrees as trees;
ghost use Rattle.rb_flow.specs.Views.{facts};
ghost use Rattle.rb_flow.specs.Walked as words;

use crate::portable::{has_far_turns, is_constant_list, is_portable};
use crate::reading::{read_block, read_opened};
use crate::standing::{Inside, Reading, Standing};
use crate::writers::read_around;
use rb_marks::{Declared, Facts, branches_hold};
use rb_meaning_flow::Role;
use rb_scopes::Scope;
use rb_trees::{Expr, Memory, Seq, Stmt};
use std::alloc::Global;

/// An `if`: its condition, and its blocks.
#[derive(Clone, Copy)]
pub struct Branch<'a> {
    pub condition: &'a Expr,
    pub yes: &'a Seq<Stmt>,
    pub no: &'a Seq<Stmt>,
}

/// How what stands around a statement bears on an expression of it.
pub fn whole_inside(standing: &Standing, may: bool) -> Inside
    ensures { result ≡ words.whole_inside standing.now may }
{
    Inside {
        condition: standing.condition,
        tried: standing.tried,
        may,
    }
}

/// The same of the condition of a `while`.
pub fn while_inside(standing: &Standing, c: &Expr) -> Inside
    ensures { result ≡ words.while_inside standing.now (mirror_expr c.now) }
{
    Inside {
        condition: Some(c.at),
        tried: standing.tried,
        may: false,
    }
}

/// What the role of a `val` is.
pub fn val_role(x: &Facts<'_>, standing: &Standing, scope: &Scope, e: &Expr) -> Role
    ensures { result ≡ trees.val_role x.now standing.now scope.now e.now }
{
    if standing.script && is_portable(x, scope, e) {
        Role::Carried
    } else {
        Role::Plain
    }
}

fn condition_unless(known: bool, outer: Option<u32>, e: &Expr) -> Option<u32>
    ensures { result ≡ words.condition_unless known outer (mirror_expr e.now) }
{
    if known { outer } else { Some(e.at) }
}

/// What stands around the branches of an `if`.
pub fn branch_standing(
    alloc: Global,
    x: &Facts<'_>,
    scope: &Scope,
    standing: &Standing,
    branch: &Branch<'_>,
) -> Result<Standing, Memory>
    ensures { let branch = branch.now in
        let within = trees.branch_standing x.now scope.now standing.now branch.condition.now branch.yes.now branch.no.now in
        IfOk result (λ s. s ≡ within) }
{
    let c = branch.condition;
    let around = read_around(alloc, x, scope, &standing.around, c)?;
    Ok(Standing {
        script: standing.script && branches_hold(x, branch.yes.as_slice(), branch.no.as_slice()),
        condition: condition_unless(is_portable(x, scope, c), standing.condition, c),
        tried: standing.tried,
        around,
    })
}

/// What stands around the block of a `while`.
pub fn while_standing(
    alloc: Global,
    x: &Facts<'_>,
    scope: &Scope,
    standing: &Standing,
    c: &Expr,
) -> Result<Standing, Memory>
    ensures { IfOk result (λ s. s ≡ words.while_standing (facts x.now) scope.now standing.now (mirror_expr c.now)) }
{
    let around = read_around(alloc, x, scope, &standing.around, c)?;
    Ok(Standing {
        script: false,
        condition: Some(c.at),
        tried: standing.tried,
        around,
    })
}

/// What stands around the block of a `for`.
pub fn turn_standing(
    alloc: Global,
    x: &Facts<'_>,
    scope: &Scope,
    standing: &Standing,
    e: &Expr,
    block: &[Stmt],
) -> Result<Standing, Memory>
    ensures { IfOk result (λ s. s ≡ trees.turn_standing x.now scope.now standing.now e.now block.now) }
{
    let around = read_around(alloc, x, scope, &standing.around, e)?;
    let known = x.over_rows(e) || is_constant_list(scope, e);
    Ok(Standing {
        script: standing.script && has_far_turns(x, scope, e, block),
        condition: condition_unless(known, standing.condition, e),
        tried: standing.tried,
        around,
    })
}

/// What stands around the blocks of a `try`, whose second has this variable. The scope stays.
pub fn try_standing(
    alloc: Global,
    x: &Facts<'_>,
    scope: &mut Scope,
    standing: &Standing,
    a: &Seq<Stmt>,
    own: &Declared<'_>,
    b: &Seq<Stmt>,
) -> Result<Standing, Memory>
    ensures standing { IfOk result (λ s. s ≡ trees.try_standing x.now scope.old standing.now own.now.at a.now own.now.name.now b.now) }
    ensures scope { OnOk result (scope.new ≡ scope.old) }
{
    let mut around = Reading::new(alloc);
    read_block(alloc, x, scope, &mut around, a.as_slice())?;
    read_opened(alloc, x, scope, &mut around, own.name, own.at, b.as_slice())?;
    around.add(&standing.around)?;
    Ok(Standing {
        script: false,
        condition: standing.condition,
        tried: true,
        around,
    })
}

/// What stands around the block of a batch in a batch.
pub fn batch_standing(alloc: Global, standing: &Standing) -> Result<Standing, Memory>
    ensures { IfOk result (λ s. s ≡ words.batch_standing standing.now) }
{
    let mut around = Reading::new(alloc);
    around.add(&standing.around)?;
    Ok(Standing {
        script: false,
        condition: standing.condition,
        tried: standing.tried,
        around,
    })
}
