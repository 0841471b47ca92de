// What is wanted where an expression stands, as far as the pieces around it tell.

use crate::known_types::{Written, known_type, name_of, variable_type};
use crate::members::{Part, agreed_type, member_in, member_once, part_of, result_of};
use crate::standing::{Standing, standing_at};
use rb_pieces::Pieces;
use rb_pieces::declarations::{Declared, declared_before, declared_once, head_before};
use rb_pieces::spans::{Sign, Span, left_first, operand_first};

/// What may be wanted.
#[derive(Clone, Copy)]
pub enum Wanted {
    /// Another type, of which nothing is told.
    Untold,
    Int,
    Bool,
    Text,
    /// What `print` takes.
    Printed,
    /// What `for` goes over.
    Turns,
    /// What `len` takes.
    Measured,
    /// What `str` takes.
    Spelled,
    /// What `+` takes on its left.
    Joined,
    /// What `==` and `!=` take on their left.
    Compared,
    /// The type of a left operand, and the same where that type is known.
    LikeLeft,
    LeftType,
    /// A list of which an item is taken.
    Indexed,
    /// An object of which a method is called.
    Receiver,
    /// An object of which a field is taken.
    Owner,
    /// The type of a parameter, of a field, of a list's items, and of the result of a method or of `main`, as it is written.
    Parameter,
    Field,
    Item,
    Result,
    MainResult,
    /// The type of a parameter or of a field that all methods or fields of a name write alike.
    EachParameter,
    EachField,
    /// Nothing, since a method or `main` gives no result.
    NoResult,
    NoMainResult,
    /// The type of a variable whose declaration is known, the same where the type is known too, and the type of a variable or
    /// a field whose declaration isn't known.
    Variable,
    VariableType,
    SomeVariable,
    SomeField,
}

/// What is wanted: by what sign or word or under what name, the piece that declares that name, and the type.
#[derive(Clone, Copy)]
pub struct Want<'a> {
    pub what: Wanted,
    pub name: &'a [u8],
    pub declaration: usize,
    pub written: Written,
}

/// What is wanted by a sign or a word.
fn by<'a>(what: Wanted, name: &'a [u8]) -> Want<'a> {
    typed(what, name, Written::Nowhere)
}

/// A type that is wanted by a sign or a word, or of all that has a name.
fn typed<'a>(what: Wanted, name: &'a [u8], written: Written) -> Want<'a> {
    Want {
        what,
        name,
        declaration: 0,
        written,
    }
}

/// What is wanted by the declaration of a name, and the type that is written there.
fn declared<'a>(
    pieces: &Pieces<'a>,
    what: Wanted,
    declaration: usize,
    written: Written,
) -> Want<'a> {
    Want {
        what,
        name: pieces.text(declaration),
        declaration,
        written,
    }
}

/// The bytes of a sign between operands.
fn sign_text<'a>(pieces: &Pieces<'a>, sign: &Sign) -> &'a [u8] {
    let start = pieces.start(sign.first);
    let count = sign.behind.saturating_sub(sign.first);
    pieces
        .source()
        .get(start..start.saturating_add(count))
        .unwrap_or(b"")
}

/// What a sign between operands wants on both sides, where that is one type.
fn on_both_sides(text: &[u8]) -> Option<Wanted> {
    match text {
        b"||" | b"&&" => Some(Wanted::Bool),
        b"+" | b"==" | b"!=" => None,
        _ => Some(Wanted::Int),
    }
}

/// What a sign wants on its left.
fn left_of<'a>(pieces: &Pieces<'a>, sign: &Sign) -> Want<'a> {
    let text = sign_text(pieces, sign);
    match (on_both_sides(text), text) {
        (Some(what), _) => by(what, text),
        (None, b"+") => by(Wanted::Joined, text),
        (None, _) => by(Wanted::Compared, text),
    }
}

/// What a sign wants on its right.
fn right_of<'a>(pieces: &Pieces<'a>, sign: &Sign) -> Want<'a> {
    let text = sign_text(pieces, sign);
    if let Some(what) = on_both_sides(text) {
        return by(what, text);
    }
    let left = Span {
        first: left_first(pieces, sign),
        last: sign.first.saturating_sub(1),
    };
    match known_type(pieces, left) {
        Written::Nowhere => by(Wanted::LikeLeft, text),
        written => typed(Wanted::LeftType, text, written),
    }
}

/// What a sign before an operand wants.
fn behind_prefix(text: &[u8]) -> Want<'_> {
    match text {
        b"!" => by(Wanted::Bool, text),
        _ => by(Wanted::Int, text),
    }
}

/// What a member wants before its dot.
fn before_dot<'a>(pieces: &Pieces<'a>, name: usize) -> Want<'a> {
    if pieces.is_later(name, 1, b"(") {
        by(Wanted::Receiver, pieces.text(name))
    } else {
        by(Wanted::Owner, pieces.text(name))
    }
}

/// What a word wants in its parentheses.
fn in_parentheses(word: &[u8]) -> Want<'_> {
    match word {
        b"print" => by(Wanted::Printed, word),
        b"len" => by(Wanted::Measured, word),
        b"str" => by(Wanted::Spelled, word),
        _ => by(Wanted::Bool, word),
    }
}

/// What the body around a `return` gives.
fn returned<'a>(pieces: &Pieces<'a>, index: usize) -> Want<'a> {
    let head = head_before(pieces, index);
    let name = head.saturating_add(1);
    match (pieces.text(head), result_of(pieces, head)) {
        (b"main", Some(first)) => {
            declared(pieces, Wanted::MainResult, head, Written::From(first))
        }
        (b"main", None) => declared(pieces, Wanted::NoMainResult, head, Written::Nowhere),
        (b"fun", Some(first)) => declared(pieces, Wanted::Result, name, Written::From(first)),
        (b"fun", None) => declared(pieces, Wanted::NoResult, name, Written::Nowhere),
        _ => by(Wanted::Untold, b""),
    }
}

/// What a word wants behind it.
fn behind_word<'a>(pieces: &Pieces<'a>, word: usize) -> Want<'a> {
    match pieces.text(word) {
        b"throw" => by(Wanted::Text, pieces.text(word)),
        b"in" => by(Wanted::Turns, pieces.text(word)),
        _ => returned(pieces, word),
    }
}

/// What the parameter or field of this number wants, of a declaration.
fn part_wanted<'a>(
    pieces: &Pieces<'a>,
    declaration: Option<usize>,
    number: usize,
    what: Wanted,
) -> Option<Want<'a>> {
    let place = part_of(pieces, declaration?, number)?;
    let written = Written::From(place.saturating_add(2));
    Some(declared(pieces, what, place, written))
}

/// The piece that declares the member whose name a piece is, behind a dot: by the type of what stands before the dot, or since
/// there is no other of this name.
fn member_at(pieces: &Pieces<'_>, index: usize, part: Part) -> Option<usize> {
    let last = index.saturating_sub(2);
    let owner = known_type(
        pieces,
        Span {
            first: operand_first(pieces, last),
            last,
        },
    );
    let name = pieces.text(index);
    match member_in(pieces, name_of(pieces, owner), name, part) {
        Some(declaration) => Some(declaration),
        None => member_once(pieces, name, part),
    }
}

/// What a type wants that all members of a name write alike.
fn wanted_by_all<'a>(
    pieces: &Pieces<'a>,
    name: usize,
    part: Part,
    what: Wanted,
) -> Option<Want<'a>> {
    let written = agreed_type(pieces, pieces.text(name), part)?;
    Some(typed(what, pieces.text(name), Written::From(written)))
}

/// What a method wants as its argument of this number.
fn in_call<'a>(pieces: &Pieces<'a>, name: usize, number: usize) -> Want<'a> {
    let part = Part::Parameter(number);
    let declaration = member_at(pieces, name, part);
    part_wanted(pieces, declaration, number, Wanted::Parameter)
        .or_else(|| wanted_by_all(pieces, name, part, Wanted::EachParameter))
        .unwrap_or(by(Wanted::Untold, b""))
}

/// What a `new` wants as its value of this number.
fn in_new<'a>(pieces: &Pieces<'a>, name: usize, number: usize) -> Want<'a> {
    let class = declared_once(pieces, pieces.text(name), Declared::Type);
    part_wanted(pieces, class, number, Wanted::Field).unwrap_or(by(Wanted::Untold, b""))
}

/// What a field wants that is assigned.
fn into_field<'a>(pieces: &Pieces<'a>, name: usize) -> Want<'a> {
    if let Some(declaration) = member_at(pieces, name, Part::Field) {
        let written = Written::From(declaration.saturating_add(2));
        return declared(pieces, Wanted::Field, declaration, written);
    }
    wanted_by_all(pieces, name, Part::Field, Wanted::EachField).unwrap_or(by(
        Wanted::SomeField,
        pieces.text(name),
    ))
}

/// What a variable wants that is assigned where it is named.
fn into_variable<'a>(pieces: &Pieces<'a>, index: usize) -> Want<'a> {
    let name = pieces.text(index);
    match declared_before(pieces, index, name, Declared::Variable) {
        Some(place) if pieces.is_earlier(place, 1, b"var") => {
            match variable_type(pieces, place) {
                Written::Nowhere => declared(pieces, Wanted::Variable, place, Written::Nowhere),
                written => declared(pieces, Wanted::VariableType, place, written),
            }
        }
        _ => by(Wanted::SomeVariable, name),
    }
}

/// What is wanted behind a `=`.
fn behind_assign<'a>(pieces: &Pieces<'a>, index: usize) -> Want<'a> {
    let place = index.saturating_sub(1);
    let name = pieces.text(place);
    match pieces.earlier(place, 1) {
        b"val" | b"var" => by(Wanted::Untold, b""),
        b"." => into_field(pieces, place),
        _ => match name.first() {
            Some(b'a'..=b'z' | b'A'..=b'Z' | b'_') => into_variable(pieces, place),
            _ => by(Wanted::Untold, b""),
        },
    }
}

/// What is wanted of an expression that stands so.
fn wanted_by<'a>(pieces: &Pieces<'a>, standing: &Standing) -> Want<'a> {
    match standing {
        Standing::BeforeDot(name) => before_dot(pieces, *name),
        Standing::BeforeIndex => by(Wanted::Indexed, b""),
        Standing::BehindPrefix(sign) => behind_prefix(pieces.text(*sign)),
        Standing::Left(sign) => left_of(pieces, sign),
        Standing::Right(sign) => right_of(pieces, sign),
        Standing::InIndex => by(Wanted::Int, b"[..]"),
        Standing::BehindWord(word) => behind_word(pieces, *word),
        Standing::InParentheses(word) => in_parentheses(pieces.text(*word)),
        Standing::Argument(name, number) => in_call(pieces, *name, *number),
        Standing::FieldValue(name, number) => in_new(pieces, *name, *number),
        Standing::Item(list) => {
            let written = Written::From(list.saturating_add(2));
            declared(pieces, Wanted::Item, *list, written)
        }
        Standing::BehindAssign(sign) => behind_assign(pieces, *sign),
        Standing::Nowhere => by(Wanted::Untold, b""),
    }
}

/// What is wanted of the expression at a position.
pub fn wanted_at<'a>(pieces: &Pieces<'a>, at: u32) -> Want<'a> {
    let index = pieces.index_of(at);
    if pieces.start(index) == at as usize {
        wanted_by(pieces, &standing_at(pieces, index))
    } else {
        by(Wanted::Untold, b"")
    }
}
