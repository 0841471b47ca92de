// Types.

ghost use Rattle.std.specs.Prelude.{◌≡◌};
ghost use Rattle.rb_trees.specs.mirror.Types.{mirror_type, mirror_type_form};
ghost use Rattle.rb_meaning_bytes.specs.grammar.Symbols as s;
ghost use Rattle.rb_parse.specs.Reading.{read_of};
ghost use Rattle.rb_parse.specs.Readers.{Reads, Shortens};
ghost use Rattle.rb_parse.specs.Parts.{item_of};

use crate::kinds::{BOOL, GREATER, INT, LESS, LIST, ROWS, TEXT, UNIT};
use crate::next::{expect, take_if};
use crate::stop::Stop;
use crate::values::name;
use rb_trees::{Boxed, Token, TokenKind, TypeForm, TypeTree};
use std::alloc::Global;

/// A type.
#[cycle(types)]
#[tactic(auto, using(crate::proofs::Equations::type_is, rb_trees::proofs::mirror::Types::types))]
pub(crate) fn type_tree<'t>(
    alloc: Global,
    source: &[u8],
    tokens: &'t [Token],
) -> Result<(TypeTree, &'t [Token]), Stop>
    ensures value { Reads mirror_type result (read_of source.now s.AType tokens.now) }
    ensures shorter { Shortens tokens.now result }
{
    if let Some((word, rest)) = take_if(INT, tokens) {
        return Ok((of_form(word, TypeForm::Int), rest));
    }
    if let Some((word, rest)) = take_if(BOOL, tokens) {
        return Ok((of_form(word, TypeForm::Bool), rest));
    }
    if let Some((word, rest)) = take_if(TEXT, tokens) {
        return Ok((of_form(word, TypeForm::Text), rest));
    }
    if let Some((word, rest)) = take_if(UNIT, tokens) {
        return Ok((of_form(word, TypeForm::Unit), rest));
    }
    if let Some((word, rest)) = take_if(TokenKind::Name, tokens) {
        let form = TypeForm::Named(name(alloc, source, word)?);
        return Ok((of_form(word, form), rest));
    }
    if let Some((word, rest)) = take_if(LIST, tokens) {
        let (item, rest) = item_type(alloc, source, rest)?;
        return Ok((of_form(word, TypeForm::ListOf(item)), rest));
    }
    if let Some((word, rest)) = take_if(ROWS, tokens) {
        let (row, rest) = item_type(alloc, source, rest)?;
        return Ok((of_form(word, TypeForm::RowsOf(row)), rest));
    }
    Err(Stop::Unexpected(tokens.len()))
}

/// The type of an item or row, between its signs.
#[cycle(types)]
#[tactic(auto, unfolding(crate::specs::Parts::item_of))]
pub(crate) fn item_type<'t>(
    alloc: Global,
    source: &[u8],
    tokens: &'t [Token],
) -> Result<(Boxed<TypeTree>, &'t [Token]), Stop>
    ensures value { Reads mirror_type result (item_of source.now tokens.now) }
    ensures shorter { Shortens tokens.now result }
{
    let (_, rest) = expect(LESS, tokens)?;
    let (item, rest) = type_tree(alloc, source, rest)?;
    let item = Boxed::new(alloc, item)?;
    let (_, rest) = expect(GREATER, rest)?;
    Ok((item, rest))
}

/// The type of a form at a word.
#[tactic(auto, using(rb_trees::proofs::mirror::Types::types))]
fn of_form(word: Token, form: TypeForm) -> TypeTree
    ensures { mirror_type result ≡ mirror_type_form form word.start }
{
    TypeTree {
        at: word.start,
        form,
    }
}
