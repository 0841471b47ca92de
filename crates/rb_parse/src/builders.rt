// Expressions of their parts.

ghost use Rattle.rb_trees.specs.mirror.Types.{mirror_type};
ghost use Rattle.rb_trees.specs.mirror.Code as code;
ghost use Rattle.rb_trees.specs.mirror.Code.{mirror_expr, mirror_exprs};
ghost use Rattle.rb_meaning_bytes.specs.grammar.Values.{name_of};
ghost use Rattle.rb_parse.specs.Readers.{Builds};

use crate::atoms::boxed;
use crate::values::name as name_at;
use rb_trees::{BinOp, Boxed, Expr, ExprForm, Memory, Seq, Token, TypeTree, UnOp};
use std::alloc::Global;

/// The operator at a sign between two operands.
#[tactic(auto, using(rb_trees::proofs::mirror::Exprs::exprs))]
pub(crate) fn binary(
    alloc: Global,
    sign: Token,
    op: BinOp,
    left: Boxed<Expr>,
    right: Boxed<Expr>,
) -> Result<Boxed<Expr>, Memory>
    ensures { Builds result (code.Binary sign.start op (mirror_expr left) (mirror_expr right)) }
{
    boxed(alloc, sign, ExprForm::Binary(op, left, right))
}

/// The operator at a sign or word before an operand.
#[tactic(auto, using(rb_trees::proofs::mirror::Exprs::exprs))]
pub(crate) fn unary(
    alloc: Global,
    sign: Token,
    op: UnOp,
    operand: Boxed<Expr>,
) -> Result<Boxed<Expr>, Memory>
    ensures { Builds result (code.Unary sign.start op (mirror_expr operand)) }
{
    boxed(alloc, sign, ExprForm::Unary(op, operand))
}

/// The field of a name.
#[tactic(auto, using(rb_trees::proofs::mirror::Exprs::exprs))]
pub(crate) fn field(
    alloc: Global,
    source: &[u8],
    object: Boxed<Expr>,
    name: Token,
) -> Result<Boxed<Expr>, Memory>
    ensures { Builds result (code.Field name.start (mirror_expr object) (name_of source.now name)) }
{
    let word = name_at(alloc, source, name)?;
    boxed(alloc, name, ExprForm::Field(object, word))
}

/// The call of a method of a name.
#[tactic(auto, using(rb_trees::proofs::mirror::Exprs::exprs))]
pub(crate) fn call(
    alloc: Global,
    source: &[u8],
    object: Boxed<Expr>,
    name: Token,
    args: Seq<Expr>,
) -> Result<Boxed<Expr>, Memory>
    ensures { Builds result (code.Call name.start (mirror_expr object) (name_of source.now name) (mirror_exprs args)) }
{
    let word = name_at(alloc, source, name)?;
    boxed(alloc, name, ExprForm::Call(object, word, args))
}

/// The index at a bracket.
#[tactic(auto, using(rb_trees::proofs::mirror::Exprs::exprs))]
pub(crate) fn index_node(
    alloc: Global,
    sign: Token,
    list: Boxed<Expr>,
    place: Boxed<Expr>,
) -> Result<Boxed<Expr>, Memory>
    ensures { Builds result (code.Index sign.start (mirror_expr list) (mirror_expr place)) }
{
    boxed(alloc, sign, ExprForm::Index(list, place))
}

/// The new object of a class.
#[tactic(auto, using(rb_trees::proofs::mirror::Exprs::exprs))]
pub(crate) fn object(
    alloc: Global,
    source: &[u8],
    word: Token,
    class: Token,
    args: Seq<Expr>,
) -> Result<Boxed<Expr>, Memory>
    ensures { Builds result (code.New word.start (name_of source.now class) (mirror_exprs args)) }
{
    let class = name_at(alloc, source, class)?;
    boxed(alloc, word, ExprForm::New(class, args))
}

/// The list of items of a type.
#[tactic(auto, using(rb_trees::proofs::mirror::Exprs::exprs))]
pub(crate) fn items(
    alloc: Global,
    word: Token,
    item: TypeTree,
    args: Seq<Expr>,
) -> Result<Boxed<Expr>, Memory>
    ensures { Builds result (code.Items word.start (mirror_type item) (mirror_exprs args)) }
{
    boxed(alloc, word, ExprForm::Items(item, args))
}
