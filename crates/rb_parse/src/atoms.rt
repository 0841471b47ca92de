// Expressions of one token.

ghost use Rattle.std.specs.Prelude.{◌≡◌, ◌<◌, length, IfOk, IfSome, option_map};
ghost use Rattle.rb_trees.specs.mirror.Code.{mirror_expr, mirror_expr_form};
ghost use Rattle.rb_trees.specs.Kinds.{is_one_of};
ghost use Rattle.rb_parse.specs.Table.{expression_kinds};
ghost use Rattle.rb_parse.specs.Reading.{next_in};
ghost use Rattle.rb_parse.specs.Parts.{atom_of};

use crate::kinds::{FALSE, LEN, LIST, MINUS, NEW, NOT, OPEN, STR, THIS, TRUE};
use crate::next::{same_kind, take_if};
use crate::values::{name, number, text};
use rb_trees::{Boxed, Expr, ExprForm, Memory, Shared, Token, TokenKind, Value};
use std::alloc::Global;

/// The expression of a form at a token, in a box.
#[tactic(auto, using(rb_trees::proofs::mirror::Exprs::exprs))]
pub(crate) fn boxed(alloc: Global, token: Token, form: ExprForm) -> Result<Boxed<Expr>, Memory>
    ensures { IfOk result (λ e. mirror_expr e ≡ mirror_expr_form form token.start) }
{
    let at = token.start;
    Boxed::new(alloc, Expr { at, form })
}

/// The expression of one token that comes next, if one does, and the tokens behind it.
#[tactic(auto, using(rb_trees::proofs::mirror::Exprs::exprs), unfolding(crate::specs::Parts::atom_of))]
pub(crate) fn atom<'t>(
    alloc: Global,
    source: &[u8],
    tokens: &'t [Token],
) -> Result<Option<(Boxed<Expr>, &'t [Token])>, Memory>
    ensures value { IfOk result (λ o. atom_of source.now tokens.now ≡ option_map (λ x. (mirror_expr x.0, x.1.now)) o) }
    ensures shorter { IfOk result (λ o. IfSome o (λ x. length x.1.now < length tokens.now)) }
{
    if let Some((token, rest)) = take_if(TokenKind::Number, tokens) {
        let form = ExprForm::Lit(Value::Int(number(source, token)));
        return Ok(Some((boxed(alloc, token, form)?, rest)));
    }
    if let Some((token, rest)) = take_if(TokenKind::TextLit, tokens) {
        let form = ExprForm::Lit(Value::Text(Shared::new(alloc, text(alloc, source, token)?)?));
        return Ok(Some((boxed(alloc, token, form)?, rest)));
    }
    if let Some((token, rest)) = take_if(TRUE, tokens) {
        let form = ExprForm::Lit(Value::Bool(true));
        return Ok(Some((boxed(alloc, token, form)?, rest)));
    }
    if let Some((token, rest)) = take_if(FALSE, tokens) {
        let form = ExprForm::Lit(Value::Bool(false));
        return Ok(Some((boxed(alloc, token, form)?, rest)));
    }
    if let Some((token, rest)) = take_if(THIS, tokens) {
        return Ok(Some((boxed(alloc, token, ExprForm::This)?, rest)));
    }
    if let Some((token, rest)) = take_if(TokenKind::Name, tokens) {
        let form = ExprForm::Name(name(alloc, source, token)?);
        return Ok(Some((boxed(alloc, token, form)?, rest)));
    }
    Ok(None)
}

/// Whether an expression begins with the next token.
pub(crate) fn begins_expression(tokens: &[Token]) -> bool
    ensures { result ≡ next_in expression_kinds tokens.now }
{
    match tokens {
        [token, ..] => begins_with(token.kind),
        [] => false,
    }
}

/// Whether an expression begins with a token of the kind.
pub(crate) fn begins_with(kind: TokenKind) -> bool
    ensures { result ≡ is_one_of kind expression_kinds }
{
    match kind {
        TokenKind::Name | TokenKind::Number | TokenKind::TextLit => true,
        TokenKind::Keyword(_) => {
            same_kind(kind, TRUE)
                || same_kind(kind, FALSE)
                || same_kind(kind, THIS)
                || same_kind(kind, LEN)
                || same_kind(kind, STR)
                || same_kind(kind, NEW)
                || same_kind(kind, LIST)
        }
        TokenKind::Sign(_) => {
            same_kind(kind, NOT) || same_kind(kind, MINUS) || same_kind(kind, OPEN)
        }
    }
}
