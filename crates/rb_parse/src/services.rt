// Objects, and the text of a service.

ghost use Rattle.std.specs.Prelude.{map};
ghost use Rattle.rb_trees.specs.Outcome.{Gives};
ghost use Rattle.rb_trees.specs.mirror.Services.{mirror_object, mirror_service_text};
ghost use Rattle.rb_meaning_bytes.specs.grammar.Symbols as s;
ghost use Rattle.rb_parse.specs.Reading.{read_of, whole_of};
ghost use Rattle.rb_parse.specs.Readers.{left_of, Reads, Shortens, NoLonger};
ghost use Rattle.rb_parse.specs.Services as v;

use crate::declarations::{classes, headed};
use crate::kinds::{ASSIGN, CLOSE_BRACE, COLON, OBJECT, ROOT, SEMICOLON};
use crate::literals::literal;
use crate::next::{expect, next_is};
use crate::stop::Stop;
use crate::values::{count, name};
use rb_trees::{Literal, ObjectText, Seq, ServiceText, Token, TokenKind, Word};
use std::alloc::Global;

/// A field that an object gives, and the semicolon behind it.
#[tactic(auto, unfolding(crate::specs::Services::given_to_end))]
fn given_field<'t>(
    alloc: Global,
    source: &[u8],
    tokens: &'t [Token],
) -> Result<((Word, Literal), &'t [Token]), Stop>
    ensures value { Reads v.mirror_given result (v.given_to_end source.now tokens.now) }
    ensures shorter { Shortens tokens.now result }
{
    let (token, rest) = expect(TokenKind::Name, tokens)?;
    let (_, rest) = expect(ASSIGN, rest)?;
    let name = name(alloc, source, token)?;
    let (given, rest) = literal(alloc, source, rest)?;
    let (_, rest) = expect(SEMICOLON, rest)?;
    Ok(((name, given), rest))
}

/// The fields that an object gives.
#[tactic(auto, using(crate::proofs::ItemLists::lists))]
fn given_fields<'t>(
    alloc: Global,
    source: &[u8],
    tokens: &'t [Token],
) -> Result<(Seq<(Word, Literal)>, &'t [Token]), Stop>
    ensures value { Reads (map v.mirror_given) result (read_of source.now s.GivenFields tokens.now) }
    ensures shorter { NoLonger tokens.now result }
{
    let mut list = Seq::new(alloc);
    let mut rest = tokens;
    while next_is(TokenKind::Name, rest) {
        let (next, behind) = given_field(alloc, source, rest)?;
        list.push(next)?;
        rest = behind;
    }
    Ok((list, rest))
}

/// An object up to its brace: its number, and its class's name.
#[tactic(auto, unfolding(crate::specs::Services::object_head_of))]
fn object_head(tokens: &[Token]) -> Result<((Token, Token), &[Token]), Stop>
    ensures value { Reads (λ x. x) result (v.object_head_of tokens.now) }
    ensures shorter { Shortens tokens.now result }
{
    let (_, rest) = expect(OBJECT, tokens)?;
    let (number, rest) = expect(TokenKind::Number, rest)?;
    let (_, rest) = expect(COLON, rest)?;
    let (class, rest) = headed(rest)?;
    Ok(((number, class), rest))
}

/// An object.
#[tactic(auto, using(crate::proofs::ServiceEquations::object_is))]
fn object<'t>(
    alloc: Global,
    source: &[u8],
    tokens: &'t [Token],
) -> Result<(ObjectText, &'t [Token]), Stop>
    ensures value { Reads mirror_object result (read_of source.now s.AnObject tokens.now) }
    ensures shorter { Shortens tokens.now result }
{
    let ((number, class), rest) = object_head(tokens)?;
    let (fields, rest) = given_fields(alloc, source, rest)?;
    let (_, rest) = expect(CLOSE_BRACE, rest)?;
    let object = ObjectText {
        number: count(source, number),
        class: name(alloc, source, class)?,
        at: class.start,
        fields,
    };
    Ok((object, rest))
}

/// The objects that come next.
#[tactic(auto, using(crate::proofs::ItemLists::lists))]
fn objects<'t>(
    alloc: Global,
    source: &[u8],
    tokens: &'t [Token],
) -> Result<(Seq<ObjectText>, &'t [Token]), Stop>
    ensures value { Reads (map mirror_object) result (read_of source.now s.Objects tokens.now) }
    ensures shorter { NoLonger tokens.now result }
{
    let mut list = Seq::new(alloc);
    let mut rest = tokens;
    while next_is(OBJECT, rest) {
        let (next, behind) = object(alloc, source, rest)?;
        list.push(next)?;
        rest = behind;
    }
    Ok((list, rest))
}

/// The number of the root, and the semicolon behind it.
#[tactic(auto, unfolding(crate::specs::Services::root_of))]
fn root<'t>(source: &[u8], tokens: &'t [Token]) -> Result<(u64, &'t [Token]), Stop>
    ensures value { Reads (λ x. x) result (v.root_of source.now tokens.now) }
    ensures shorter { Shortens tokens.now result }
{
    let (_, rest) = expect(ROOT, tokens)?;
    let (number, rest) = expect(TokenKind::Number, rest)?;
    let (_, rest) = expect(SEMICOLON, rest)?;
    Ok((count(source, number), rest))
}

/// The text of a service, and the tokens behind it.
#[tactic(auto, using(crate::proofs::ServiceEquations::service_is))]
fn service_part<'t>(
    alloc: Global,
    source: &[u8],
    tokens: &'t [Token],
) -> Result<(ServiceText, &'t [Token]), Stop>
    ensures value { Reads mirror_service_text result (read_of source.now s.TheService tokens.now) }
    ensures shorter { Shortens tokens.now result }
{
    let (classes, rest) = classes(alloc, source, tokens)?;
    let (objects, rest) = objects(alloc, source, rest)?;
    let (root, rest) = root(source, rest)?;
    let service = ServiceText {
        classes,
        objects,
        root,
    };
    Ok((service, rest))
}

/// The text of a service that all tokens are.
#[tactic(auto, unfolding(crate::specs::Reading::whole_of))]
pub(crate) fn service(alloc: Global, source: &[u8], tokens: &[Token]) -> Result<ServiceText, Stop>
    ensures { Gives mirror_service_text left_of result (whole_of s.TheService source.now tokens.now) }
{
    let (service, rest) = service_part(alloc, source, tokens)?;
    if rest.is_empty() {
        Ok(service)
    } else {
        Err(Stop::Unexpected(rest.len()))
    }
}
