// Declarations and the program.

ghost use Rattle.std.specs.Prelude.{map, option_map};
ghost use Rattle.rb_trees.specs.Outcome.{Gives};
ghost use Rattle.rb_trees.specs.mirror.Types.{mirror_type};
ghost use Rattle.rb_trees.specs.mirror.Code.{mirror_expr};
ghost use Rattle.rb_trees.specs.mirror.Declarations.{mirror_param, mirror_signature, mirror_interface, mirror_body, mirror_method, mirror_class, mirror_program};
ghost use Rattle.rb_meaning_bytes.specs.grammar.Symbols as s;
ghost use Rattle.rb_parse.specs.Reading.{read_of, whole_of};
ghost use Rattle.rb_parse.specs.Readers.{left_of, Reads, Shortens, NoLonger};
ghost use Rattle.rb_parse.specs.Heads as d;

use crate::kinds::{
    CLASS, CLOSE, CLOSE_BRACE, COLON, COMMA, FUN, INTERFACE, MAIN, OPEN, OPEN_BRACE, REMOTE,
    RETURN, SEMICOLON,
};
use crate::next::{expect, next_is, take_if};
use crate::simple::expression_to_end;
use crate::statements::statements;
use crate::stop::Stop;
use crate::types::type_tree;
use crate::values::name;
use rb_trees::{
    Body, Boxed, Class, Expr, Interface, Method, Param, Program, Seq, Signature, Token, TokenKind,
    TypeForm, TypeTree,
};
use std::alloc::Global;

/// The result type of a declaration at a position; Unit where none is written.
#[tactic(auto, using(crate::proofs::DeclarationEquations::result_is, rb_trees::proofs::mirror::Types::types))]
fn result_type<'t>(
    alloc: Global,
    source: &[u8],
    at: u32,
    tokens: &'t [Token],
) -> Result<(TypeTree, &'t [Token]), Stop>
    ensures value { Reads mirror_type result (d.result_of source.now at tokens.now) }
    ensures shorter { NoLonger tokens.now result }
{
    match take_if(COLON, tokens) {
        Some((_, rest)) => type_tree(alloc, source, rest),
        None => Ok((
            TypeTree {
                at,
                form: TypeForm::Unit,
            },
            tokens,
        )),
    }
}

/// A parameter.
#[tactic(auto, using(crate::proofs::DeclarationEquations::param_is))]
fn param<'t>(
    alloc: Global,
    source: &[u8],
    tokens: &'t [Token],
) -> Result<(Param, &'t [Token]), Stop>
    ensures value { Reads mirror_param result (read_of source.now s.AParam tokens.now) }
    ensures shorter { Shortens tokens.now result }
{
    let (token, rest) = expect(TokenKind::Name, tokens)?;
    let (_, rest) = expect(COLON, rest)?;
    let name = name(alloc, source, token)?;
    let (kind, rest) = type_tree(alloc, source, rest)?;
    let at = token.start;
    Ok((Param { name, at, kind }, rest))
}

/// A comma and a parameter.
#[tactic(auto, unfolding(crate::specs::Heads::next_param))]
fn next_param<'t>(
    alloc: Global,
    source: &[u8],
    tokens: &'t [Token],
) -> Result<(Param, &'t [Token]), Stop>
    ensures value { Reads mirror_param result (d.next_param source.now tokens.now) }
    ensures shorter { Shortens tokens.now result }
{
    let (_, rest) = expect(COMMA, tokens)?;
    param(alloc, source, rest)
}

/// The parameters from the first one on.
#[tactic(auto, using(crate::proofs::DeclarationEquations::params_first, crate::proofs::ItemLists::lists))]
fn more_params<'t>(
    alloc: Global,
    source: &[u8],
    first: Param,
    tokens: &'t [Token],
) -> Result<(Seq<Param>, &'t [Token]), Stop>
    ensures value { Reads (map mirror_param) result (d.params_on source.now (mirror_param first) tokens.now) }
    ensures shorter { NoLonger tokens.now result }
{
    let mut list = Seq::new(alloc);
    list.push(first)?;
    let mut rest = tokens;
    while next_is(COMMA, rest) {
        let (next, behind) = next_param(alloc, source, rest)?;
        list.push(next)?;
        rest = behind;
    }
    Ok((list, rest))
}

/// Parameters and the bracket that closes them.
#[tactic(auto, using(crate::proofs::DeclarationEquations::params_is), unfolding(crate::specs::Heads::params_to_close))]
fn params_to_close<'t>(
    alloc: Global,
    source: &[u8],
    tokens: &'t [Token],
) -> Result<(Seq<Param>, &'t [Token]), Stop>
    ensures value { Reads (map mirror_param) result (d.params_to_close source.now tokens.now) }
    ensures shorter { Shortens tokens.now result }
{
    if !next_is(TokenKind::Name, tokens) {
        let (_, rest) = expect(CLOSE, tokens)?;
        return Ok((Seq::new(alloc), rest));
    }
    let (first, rest) = param(alloc, source, tokens)?;
    let (list, rest) = more_params(alloc, source, first, rest)?;
    let (_, rest) = expect(CLOSE, rest)?;
    Ok((list, rest))
}

/// A signature.
#[tactic(auto, using(crate::proofs::DeclarationEquations::signature_is))]
fn signature<'t>(
    alloc: Global,
    source: &[u8],
    tokens: &'t [Token],
) -> Result<(Signature, &'t [Token]), Stop>
    ensures value { Reads mirror_signature result (read_of source.now s.ASignature tokens.now) }
    ensures shorter { Shortens tokens.now result }
{
    let (_, rest) = expect(FUN, tokens)?;
    let (token, rest) = expect(TokenKind::Name, rest)?;
    let (_, rest) = expect(OPEN, rest)?;
    let (params, rest) = params_to_close(alloc, source, rest)?;
    let name = name(alloc, source, token)?;
    let (result, rest) = result_type(alloc, source, token.start, rest)?;
    let signature = Signature {
        name,
        at: token.start,
        params,
        result,
    };
    Ok((signature, rest))
}

/// A signature and the semicolon behind it.
#[tactic(auto, unfolding(crate::specs::Heads::signature_to_end))]
fn signature_to_end<'t>(
    alloc: Global,
    source: &[u8],
    tokens: &'t [Token],
) -> Result<(Signature, &'t [Token]), Stop>
    ensures value { Reads mirror_signature result (d.signature_to_end source.now tokens.now) }
    ensures shorter { Shortens tokens.now result }
{
    let (found, rest) = signature(alloc, source, tokens)?;
    let (_, rest) = expect(SEMICOLON, rest)?;
    Ok((found, rest))
}

/// A field and the semicolon behind it.
#[tactic(auto, unfolding(crate::specs::Heads::field_to_end))]
fn field_to_end<'t>(
    alloc: Global,
    source: &[u8],
    tokens: &'t [Token],
) -> Result<(Param, &'t [Token]), Stop>
    ensures value { Reads mirror_param result (d.field_to_end source.now tokens.now) }
    ensures shorter { Shortens tokens.now result }
{
    let (found, rest) = param(alloc, source, tokens)?;
    let (_, rest) = expect(SEMICOLON, rest)?;
    Ok((found, rest))
}

/// The signatures that come next.
#[tactic(auto, using(crate::proofs::ItemLists::lists))]
fn signatures<'t>(
    alloc: Global,
    source: &[u8],
    tokens: &'t [Token],
) -> Result<(Seq<Signature>, &'t [Token]), Stop>
    ensures value { Reads (map mirror_signature) result (read_of source.now s.Signatures tokens.now) }
    ensures shorter { NoLonger tokens.now result }
{
    let mut list = Seq::new(alloc);
    let mut rest = tokens;
    while next_is(FUN, rest) {
        let (next, behind) = signature_to_end(alloc, source, rest)?;
        list.push(next)?;
        rest = behind;
    }
    Ok((list, rest))
}

/// The fields that come next.
#[tactic(auto, using(crate::proofs::ItemLists::lists))]
fn fields<'t>(
    alloc: Global,
    source: &[u8],
    tokens: &'t [Token],
) -> Result<(Seq<Param>, &'t [Token]), Stop>
    ensures value { Reads (map mirror_param) result (read_of source.now s.Fields tokens.now) }
    ensures shorter { NoLonger tokens.now result }
{
    let mut list = Seq::new(alloc);
    let mut rest = tokens;
    while next_is(TokenKind::Name, rest) {
        let (next, behind) = field_to_end(alloc, source, rest)?;
        list.push(next)?;
        rest = behind;
    }
    Ok((list, rest))
}

/// The name of a declaration and the brace behind it.
#[tactic(auto, unfolding(crate::specs::Heads::headed_of))]
pub(crate) fn headed(tokens: &[Token]) -> Result<(Token, &[Token]), Stop>
    ensures value { Reads (λ x. x) result (d.headed_of tokens.now) }
    ensures shorter { Shortens tokens.now result }
{
    let (name, rest) = expect(TokenKind::Name, tokens)?;
    let (_, rest) = expect(OPEN_BRACE, rest)?;
    Ok((name, rest))
}

/// An interface.
#[tactic(auto, using(crate::proofs::DeclarationEquations::interface_is))]
fn interface<'t>(
    alloc: Global,
    source: &[u8],
    tokens: &'t [Token],
) -> Result<(Interface, &'t [Token]), Stop>
    ensures value { Reads mirror_interface result (read_of source.now s.AnInterface tokens.now) }
    ensures shorter { Shortens tokens.now result }
{
    let (_, rest) = expect(INTERFACE, tokens)?;
    let (token, rest) = headed(rest)?;
    let (methods, rest) = signatures(alloc, source, rest)?;
    let (_, rest) = expect(CLOSE_BRACE, rest)?;
    let interface = Interface {
        name: name(alloc, source, token)?,
        at: token.start,
        methods,
    };
    Ok((interface, rest))
}

/// The interfaces that come next.
#[tactic(auto, using(crate::proofs::ItemLists::lists))]
fn interfaces<'t>(
    alloc: Global,
    source: &[u8],
    tokens: &'t [Token],
) -> Result<(Seq<Interface>, &'t [Token]), Stop>
    ensures value { Reads (map mirror_interface) result (read_of source.now s.Interfaces tokens.now) }
    ensures shorter { NoLonger tokens.now result }
{
    let mut list = Seq::new(alloc);
    let mut rest = tokens;
    while next_is(INTERFACE, rest) {
        let (next, behind) = interface(alloc, source, rest)?;
        list.push(next)?;
        rest = behind;
    }
    Ok((list, rest))
}

/// The expression of a body's return, if it has one.
#[tactic(auto, using(crate::proofs::DeclarationEquations::returns_is))]
fn returned<'t>(
    alloc: Global,
    source: &[u8],
    tokens: &'t [Token],
) -> Result<(Option<Boxed<Expr>>, &'t [Token]), Stop>
    ensures value { Reads (option_map mirror_expr) result (read_of source.now s.Returns tokens.now) }
    ensures shorter { NoLonger tokens.now result }
{
    match take_if(RETURN, tokens) {
        Some((_, rest)) => {
            let (expr, rest) = expression_to_end(alloc, source, rest)?;
            Ok((Some(expr), rest))
        }
        None => Ok((None, tokens)),
    }
}

/// A body.
#[tactic(auto, using(crate::proofs::DeclarationEquations::body_is))]
fn body<'t>(alloc: Global, source: &[u8], tokens: &'t [Token]) -> Result<(Body, &'t [Token]), Stop>
    ensures value { Reads mirror_body result (read_of source.now s.ABody tokens.now) }
    ensures shorter { Shortens tokens.now result }
{
    let (_, rest) = expect(OPEN_BRACE, tokens)?;
    let (statements, rest) = statements(alloc, source, rest)?;
    let (result, rest) = returned(alloc, source, rest)?;
    let (_, rest) = expect(CLOSE_BRACE, rest)?;
    let result = match result {
        Some(expr) => Some(expr.into_inner()),
        None => None,
    };
    Ok((Body { statements, result }, rest))
}

/// A method.
#[tactic(auto, using(crate::proofs::DeclarationEquations::method_is))]
fn method<'t>(
    alloc: Global,
    source: &[u8],
    tokens: &'t [Token],
) -> Result<(Method, &'t [Token]), Stop>
    ensures value { Reads mirror_method result (read_of source.now s.AMethod tokens.now) }
    ensures shorter { Shortens tokens.now result }
{
    let (remote, rest) = match take_if(REMOTE, tokens) {
        Some((_, rest)) => (true, rest),
        None => (false, tokens),
    };
    let (signature, rest) = signature(alloc, source, rest)?;
    let (body, rest) = body(alloc, source, rest)?;
    let method = Method {
        remote,
        signature,
        body,
    };
    Ok((method, rest))
}

/// The methods that come next.
#[tactic(auto, using(crate::proofs::ItemLists::lists))]
fn methods<'t>(
    alloc: Global,
    source: &[u8],
    tokens: &'t [Token],
) -> Result<(Seq<Method>, &'t [Token]), Stop>
    ensures value { Reads (map mirror_method) result (read_of source.now s.Methods tokens.now) }
    ensures shorter { NoLonger tokens.now result }
{
    let mut list = Seq::new(alloc);
    let mut rest = tokens;
    while next_is(REMOTE, rest) || next_is(FUN, rest) {
        let (next, behind) = method(alloc, source, rest)?;
        list.push(next)?;
        rest = behind;
    }
    Ok((list, rest))
}

/// A class.
#[tactic(auto, using(crate::proofs::DeclarationEquations::class_is))]
fn class<'t>(
    alloc: Global,
    source: &[u8],
    tokens: &'t [Token],
) -> Result<(Class, &'t [Token]), Stop>
    ensures value { Reads mirror_class result (read_of source.now s.AClass tokens.now) }
    ensures shorter { Shortens tokens.now result }
{
    let (_, rest) = expect(CLASS, tokens)?;
    let (token, rest) = headed(rest)?;
    let (fields, rest) = fields(alloc, source, rest)?;
    let (methods, rest) = methods(alloc, source, rest)?;
    let (_, rest) = expect(CLOSE_BRACE, rest)?;
    let class = Class {
        name: name(alloc, source, token)?,
        at: token.start,
        fields,
        methods,
    };
    Ok((class, rest))
}

/// The classes that come next.
#[tactic(auto, using(crate::proofs::ItemLists::lists))]
pub(crate) fn classes<'t>(
    alloc: Global,
    source: &[u8],
    tokens: &'t [Token],
) -> Result<(Seq<Class>, &'t [Token]), Stop>
    ensures value { Reads (map mirror_class) result (read_of source.now s.Classes tokens.now) }
    ensures shorter { NoLonger tokens.now result }
{
    let mut list = Seq::new(alloc);
    let mut rest = tokens;
    while next_is(CLASS, rest) {
        let (next, behind) = class(alloc, source, rest)?;
        list.push(next)?;
        rest = behind;
    }
    Ok((list, rest))
}

/// A program, and the tokens behind it.
#[tactic(auto, using(crate::proofs::DeclarationEquations::program_is))]
fn program_part<'t>(
    alloc: Global,
    source: &[u8],
    tokens: &'t [Token],
) -> Result<(Boxed<Program>, &'t [Token]), Stop>
    ensures value { Reads mirror_program result (read_of source.now s.TheProgram tokens.now) }
    ensures shorter { Shortens tokens.now result }
{
    let (interfaces, rest) = interfaces(alloc, source, tokens)?;
    let (classes, rest) = classes(alloc, source, rest)?;
    let (word, rest) = expect(MAIN, rest)?;
    let (result, rest) = result_type(alloc, source, word.start, rest)?;
    let (body, rest) = body(alloc, source, rest)?;
    let program = Program {
        interfaces,
        classes,
        result,
        body,
        at: word.start,
    };
    Ok((Boxed::new(alloc, program)?, rest))
}

/// The program that all tokens are.
#[tactic(auto, unfolding(crate::specs::Reading::whole_of))]
pub(crate) fn program(
    alloc: Global,
    source: &[u8],
    tokens: &[Token],
) -> Result<Boxed<Program>, Stop>
    ensures { Gives mirror_program left_of result (whole_of s.TheProgram source.now tokens.now) }
{
    let (program, rest) = program_part(alloc, source, tokens)?;
    if rest.is_empty() {
        Ok(program)
    } else {
        Err(Stop::Unexpected(rest.len()))
    }
}
