// What is said where a program or a service isn't typed.

use crate::name_help::say_unknown;
use crate::texts::Count;
use crate::{name_texts, texts};
use rb_pieces::around::is_name;
use rb_pieces::declarations::{
    Declared, arguments_behind, bound_name, declared_at, declared_before, declared_once,
    fields_behind,
};
use rb_pieces::spans::opening;
use rb_pieces::{Help, OUT_OF_MEMORY, Page, Pieces};
use rb_trees::{Memory, TypeError};
use rb_type_help::say_wrong_type;
use std::alloc::Global;

fn say_taken(page: &mut Page, pieces: &Pieces<'_>, at: u32) -> Result<(), Memory> {
    let statement = pieces.index_of(at);
    let index = bound_name(pieces, statement);
    let name = pieces.text(index);
    match declared_before(pieces, statement, name, declared_at(pieces, index)) {
        Some(earlier) => page.say_number(&texts::TAKEN, name, pieces.line(earlier)),
        None => page.say_name(&texts::TAKEN_SOMEWHERE, name),
    }
}

/// What is said of the arguments behind a name, of which another number is wanted.
fn say_counted(
    page: &mut Page,
    pieces: &Pieces<'_>,
    counted: usize,
    help: &Count,
    declared: Declared,
) -> Result<(), Memory> {
    let name = pieces.text(counted);
    let count = arguments_behind(pieces, counted);
    page.sentence_of(help.wrong, name, count)?;
    let Some(declaration) = declared_once(pieces, name, declared) else {
        return page.sentence(help.mend, b"", b"");
    };
    let line = pieces.line(declaration);
    match wanted_by(pieces, declaration, declared) {
        0 => page.sentence_of(help.write_none, name, line),
        wanted => {
            page.fill_of(texts::WRITE_SO_MANY, b"", wanted)?;
            page.sentence_of(help.one_for_each, name, line)
        }
    }
}

/// How many arguments a declaration wants: of a method its parameters, and of a class its fields.
fn wanted_by(pieces: &Pieces<'_>, declaration: usize, declared: Declared) -> u64 {
    match declared {
        Declared::Type => fields_behind(pieces, declaration),
        _ => arguments_behind(pieces, declaration),
    }
}

fn say_count(page: &mut Page, pieces: &Pieces<'_>, at: u32) -> Result<(), Memory> {
    let index = pieces.index_of(at);
    if pieces.is_later(index, 0, b"new") {
        let class = index.saturating_add(1);
        say_counted(page, pieces, class, &texts::NEW_COUNT, Declared::Type)
    } else {
        say_counted(page, pieces, index, &texts::CALL_COUNT, Declared::Method)
    }
}

/// What is said where a variable of this name can't be assigned.
fn say_no_var(page: &mut Page, pieces: &Pieces<'_>, index: usize) -> Result<(), Memory> {
    let name = pieces.text(index);
    match declared_before(pieces, index, name, Declared::Variable) {
        Some(place) if pieces.is_earlier(place, 1, b"val") => {
            page.say_number(&name_texts::VAL_TO_VAR, name, pieces.line(place))
        }
        _ => page.say_name(&name_texts::COPY_TO_VAR, name),
    }
}

fn say_not_assignable(page: &mut Page, pieces: &Pieces<'_>, at: u32) -> Result<(), Memory> {
    let index = pieces.index_of(at);
    let last = index.saturating_sub(1);
    match pieces.text(last) {
        b"]" => {
            let list = opening(pieces, last).saturating_sub(1);
            page.say_name(&name_texts::NO_ITEM, pieces.text(list))
        }
        name if is_name(name) && !pieces.is_earlier(index, 2, b".") => {
            say_no_var(page, pieces, last)
        }
        _ => page.say_plain(&texts::NOT_A_PLACE),
    }
}

/// What is said of a type of a method of an interface.
fn type_at_server(pieces: &Pieces<'_>, index: usize) -> &'static Help {
    let is_result = pieces.is_earlier(index, 1, b":") && pieces.is_earlier(index, 2, b")");
    match pieces.text(index) {
        b"List" if is_result => &name_texts::LIST_IN_RESULT,
        b"List" => &name_texts::LIST_IN_PARAMETER,
        name if is_name(name) => &name_texts::CLASS_AT_SERVER,
        _ => &texts::TYPE_OF_INTERFACE,
    }
}

/// What is said of a type of a class.
fn type_in_class(pieces: &Pieces<'_>, index: usize, is_service: bool) -> &'static Help {
    match pieces.text(index) {
        b"Rows" if is_service => &name_texts::ROWS_IN_SERVICE,
        b"Rows" => &name_texts::ROWS_IN_CLASS,
        name if is_name(name) => &name_texts::INTERFACE_IN_CLASS,
        _ => &texts::TYPE_OF_CLASS,
    }
}

/// What is said of a type that can't stand at a piece, by the declaration around it.
fn types_around(pieces: &Pieces<'_>, index: usize, is_service: bool) -> &'static Help {
    let mut around = &texts::TYPE_OF_MAIN;
    for place in 0..index {
        match pieces.text(place) {
            b"interface" => around = type_at_server(pieces, index),
            b"class" => around = type_in_class(pieces, index, is_service),
            b"main" => around = &texts::TYPE_OF_MAIN,
            _ => {}
        }
    }
    around
}

/// What isn't allowed at a piece.
fn not_allowed(pieces: &Pieces<'_>, index: usize, is_service: bool) -> &'static Help {
    match pieces.text(index) {
        b"print" => &texts::NO_PRINT,
        b"batch" if is_service => &texts::NO_BATCH,
        b"batch" => &texts::BATCH_PLACE,
        _ if pieces.is_earlier(index, 1, b"fun") => &texts::NO_REMOTE,
        _ => &texts::REMOTE_CALL,
    }
}

/// What is said where a program or a service isn't typed.
pub fn say_types(
    alloc: Global,
    page: &mut Page,
    pieces: &Pieces<'_>,
    error: &TypeError,
    is_service: bool,
) -> Result<(), Memory> {
    match error {
        TypeError::UnknownName(at) => say_unknown(page, pieces, *at, is_service),
        TypeError::NameTaken(at) => say_taken(page, pieces, *at),
        TypeError::WrongType(at, found) => say_wrong_type(alloc, page, pieces, *at, found),
        TypeError::WrongCount(at) => say_count(page, pieces, *at),
        TypeError::NotAssignable(at) => say_not_assignable(page, pieces, *at),
        TypeError::MissingReturn(at) => {
            let name = pieces.text(pieces.index_of(*at));
            page.say_name(&texts::NO_RETURN, name)
        }
        TypeError::TypeNotHere(at) => {
            let index = pieces.index_of(*at);
            page.say_name(types_around(pieces, index, is_service), pieces.text(index))
        }
        TypeError::NotAllowedHere(at) => {
            let index = pieces.index_of(*at);
            page.say_name(not_allowed(pieces, index, is_service), pieces.text(index))
        }
        TypeError::Memory => page.say_plain(&OUT_OF_MEMORY),
    }
}
