// The levels of binary operators.

ghost use Rattle.std.specs.Prelude.{◌≡◌, ◌<◌, length, IfSome, option_map};
ghost use Rattle.rb_parse.specs.Parts.{operator_at, repeats};
ghost use Rattle.rb_parse.specs.declared.levels.Level.TheVariants as levels;

use crate::kinds::{
    AND, AT_LEAST, AT_MOST, EQUAL, GREATER, LESS, MINUS, OR, PERCENT, PLUS, SLASH, STAR, UNEQUAL,
};
use crate::next::take_if;
use rb_trees::{BinOp, Token};

/// The levels, from the operators that bind least.
#[derive(Clone, Copy, Debug, PartialEq, Eq)]
pub(crate) enum Level {
    Or,
    And,
    Same,
    Order,
    Sum,
    Product,
}

/// Whether more operators of the level may follow one.
#[tactic(auto, unfolding(crate::specs::Parts::repeats))]
pub(crate) fn repeats(level: Level) -> bool
    ensures { result ≡ repeats level }
{
    match level {
        Level::Same | Level::Order => false,
        Level::Or | Level::And | Level::Sum | Level::Product => true,
    }
}

/// The operator of the level that comes next, its token and the tokens behind it.
pub(crate) fn operator(level: Level, tokens: &[Token]) -> Option<(BinOp, Token, &[Token])>
    ensures value { operator_at level tokens.now ≡ option_map (λ x. (x.0, x.1, x.2.now)) result }
    ensures shorter { IfSome result (λ x. length x.2.now < length tokens.now) }
{
    match level {
        Level::Or => or(tokens),
        Level::And => and(tokens),
        Level::Same => same(tokens),
        Level::Order => order(tokens),
        Level::Sum => sum(tokens),
        Level::Product => product(tokens),
    }
}

#[tactic(auto, unfolding(crate::specs::Parts::operator_at))]
fn or(tokens: &[Token]) -> Option<(BinOp, Token, &[Token])>
    ensures value { operator_at levels.Or tokens.now ≡ option_map (λ x. (x.0, x.1, x.2.now)) result }
    ensures shorter { IfSome result (λ x. length x.2.now < length tokens.now) }
{
    if let Some((sign, rest)) = take_if(OR, tokens) {
        return Some((BinOp::Or, sign, rest));
    }
    None
}

#[tactic(auto, unfolding(crate::specs::Parts::operator_at))]
fn and(tokens: &[Token]) -> Option<(BinOp, Token, &[Token])>
    ensures value { operator_at levels.And tokens.now ≡ option_map (λ x. (x.0, x.1, x.2.now)) result }
    ensures shorter { IfSome result (λ x. length x.2.now < length tokens.now) }
{
    if let Some((sign, rest)) = take_if(AND, tokens) {
        return Some((BinOp::And, sign, rest));
    }
    None
}

#[tactic(auto, unfolding(crate::specs::Parts::operator_at))]
fn same(tokens: &[Token]) -> Option<(BinOp, Token, &[Token])>
    ensures value { operator_at levels.Same tokens.now ≡ option_map (λ x. (x.0, x.1, x.2.now)) result }
    ensures shorter { IfSome result (λ x. length x.2.now < length tokens.now) }
{
    if let Some((sign, rest)) = take_if(EQUAL, tokens) {
        return Some((BinOp::Eq, sign, rest));
    }
    if let Some((sign, rest)) = take_if(UNEQUAL, tokens) {
        return Some((BinOp::Ne, sign, rest));
    }
    None
}

#[tactic(auto, unfolding(crate::specs::Parts::operator_at))]
fn order(tokens: &[Token]) -> Option<(BinOp, Token, &[Token])>
    ensures value { operator_at levels.Order tokens.now ≡ option_map (λ x. (x.0, x.1, x.2.now)) result }
    ensures shorter { IfSome result (λ x. length x.2.now < length tokens.now) }
{
    if let Some((sign, rest)) = take_if(LESS, tokens) {
        return Some((BinOp::Lt, sign, rest));
    }
    if let Some((sign, rest)) = take_if(AT_MOST, tokens) {
        return Some((BinOp::Le, sign, rest));
    }
    if let Some((sign, rest)) = take_if(GREATER, tokens) {
        return Some((BinOp::Gt, sign, rest));
    }
    if let Some((sign, rest)) = take_if(AT_LEAST, tokens) {
        return Some((BinOp::Ge, sign, rest));
    }
    None
}

#[tactic(auto, unfolding(crate::specs::Parts::operator_at))]
fn sum(tokens: &[Token]) -> Option<(BinOp, Token, &[Token])>
    ensures value { operator_at levels.Sum tokens.now ≡ option_map (λ x. (x.0, x.1, x.2.now)) result }
    ensures shorter { IfSome result (λ x. length x.2.now < length tokens.now) }
{
    if let Some((sign, rest)) = take_if(PLUS, tokens) {
        return Some((BinOp::Add, sign, rest));
    }
    if let Some((sign, rest)) = take_if(MINUS, tokens) {
        return Some((BinOp::Sub, sign, rest));
    }
    None
}

#[tactic(auto, unfolding(crate::specs::Parts::operator_at))]
fn product(tokens: &[Token]) -> Option<(BinOp, Token, &[Token])>
    ensures value { operator_at levels.Product tokens.now ≡ option_map (λ x. (x.0, x.1, x.2.now)) result }
    ensures shorter { IfSome result (λ x. length x.2.now < length tokens.now) }
{
    if let Some((sign, rest)) = take_if(STAR, tokens) {
        return Some((BinOp::Mul, sign, rest));
    }
    if let Some((sign, rest)) = take_if(SLASH, tokens) {
        return Some((BinOp::Div, sign, rest));
    }
    if let Some((sign, rest)) = take_if(PERCENT, tokens) {
        return Some((BinOp::Rem, sign, rest));
    }
    None
}
