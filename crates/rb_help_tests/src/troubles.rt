// Troubles that rows ask for.
//
// A row asks for one by its name, or by that and the word of the text at whose place it is, as `BadByte at $`.

use crate::text::Text;
use rb_help::{JournalFlaw, ReplyFlaw, Server, Trouble};
use rb_trees::{
    Boxed, Fault, LexError, Memory, ReadError, Refusal, Seq, StoreError, TypeError, TypeForm,
    TypeTree, Word,
};
use std::alloc::Global;

/// The server of most replies.
const HERE: Server<'static> = Server::Address(b"here:9");

/// A server that isn't reached.
const THERE: Server<'static> = Server::Address(b"127.0.0.1:99");

/// A server in a child process.
const CHILD: Server<'static> = Server::Child(b"files.rbs");

fn unread(text: Text<'_>, error: ReadError) -> Result<Word, Memory> {
    text.tell(&Trouble::Unread(&error))
}

fn untyped(text: Text<'_>, error: TypeError) -> Result<Word, Memory> {
    text.tell(&Trouble::Untyped(&error))
}

fn unserved(text: Text<'_>, error: StoreError) -> Result<Word, Memory> {
    text.tell(&Trouble::Unserved(&error))
}

fn refused(text: Text<'_>, refusal: Refusal) -> Result<Word, Memory> {
    text.tell(&Trouble::Refused(&refusal))
}

/// What is told of a fault with this code and the text `Big`.
fn faulted(text: Text<'_>, code: u8, at: u32) -> Result<Word, Memory> {
    let fault = Fault {
        code,
        text: Seq::from_slice(text.alloc, b"Big")?,
    };
    text.tell(&Trouble::Faulted(&fault, at))
}

/// A type at place 0.
fn tree(form: TypeForm) -> TypeTree {
    TypeTree { at: 0, form }
}

/// The type of a name: `A` is a class or an interface.
fn type_of(alloc: Global, name: &str) -> Result<TypeForm, Memory> {
    match name {
        "Int" => Ok(TypeForm::Int),
        "Bool" => Ok(TypeForm::Bool),
        "Text" => Ok(TypeForm::Text),
        "Unit" => Ok(TypeForm::Unit),
        "List<Int>" => Ok(TypeForm::ListOf(Boxed::new(alloc, tree(TypeForm::Int))?)),
        "Rows<Int>" => Ok(TypeForm::RowsOf(Boxed::new(alloc, tree(TypeForm::Int))?)),
        "Rows<Text>" => Ok(TypeForm::RowsOf(Boxed::new(alloc, tree(TypeForm::Text))?)),
        _ => Ok(TypeForm::Named(Seq::from_slice(alloc, name.as_bytes())?)),
    }
}

/// What is told of this type at a place where another is wanted.
fn mistyped(text: Text<'_>, name: &str, at: u32) -> Result<Word, Memory> {
    let form = type_of(text.alloc, name)?;
    untyped(text, TypeError::WrongType(at, form))
}

/// Adds the places of words, which commas part.
fn add_places(text: Text<'_>, words: &str, places: &mut Seq<u32>) -> Result<(), Memory> {
    for word in words.split(", ") {
        places.push(text.place(word))?;
    }
    Ok(())
}

/// What is told of a flow through the places of words, which commas part; without a word it has no place.
fn flowing(text: Text<'_>, words: &str) -> Result<Word, Memory> {
    let mut chain = Seq::new(text.alloc);
    if !words.is_empty() {
        add_places(text, words, &mut chain)?;
    }
    refused(text, Refusal::Flow(chain))
}

/// What is told of a batch that is refused.
fn told_of_batch(text: Text<'_>, name: &str, at: u32) -> Result<Word, Memory> {
    match name {
        "UnderLocalCondition" => {
            refused(text, Refusal::UnderLocalCondition(at, at.saturating_add(2)))
        }
        "TooManyInputs" => refused(text, Refusal::TooManyInputs(at, 256)),
        "ScriptTooLarge" => refused(text, Refusal::ScriptTooLarge(at, 4_194_305)),
        _ => Seq::from_slice(text.alloc, b"no such trouble is known here"),
    }
}

/// What is told of a program or a service that isn't typed.
fn told_of_types(text: Text<'_>, name: &str, at: u32) -> Result<Word, Memory> {
    match name {
        "UnknownName" => untyped(text, TypeError::UnknownName(at)),
        "NameTaken" => untyped(text, TypeError::NameTaken(at)),
        "WrongCount" => untyped(text, TypeError::WrongCount(at)),
        "NotAssignable" => untyped(text, TypeError::NotAssignable(at)),
        "MissingReturn" => untyped(text, TypeError::MissingReturn(at)),
        "TypeNotHere" => untyped(text, TypeError::TypeNotHere(at)),
        "NotAllowedHere" => untyped(text, TypeError::NotAllowedHere(at)),
        "NotAllowedHere in a service" => {
            unserved(text, StoreError::Types(TypeError::NotAllowedHere(at)))
        }
        _ => told_of_batch(text, name, at),
    }
}

/// What is told of a text that isn't read.
fn told_of_reading(text: Text<'_>, name: &str, at: u32) -> Result<Word, Memory> {
    match name {
        "BadByte" => unread(text, ReadError::Lex(LexError::BadByte(at))),
        "BadByte in a service" => {
            unserved(
                text,
                StoreError::Read(ReadError::Lex(LexError::BadByte(at))),
            )
        }
        "OpenText" => unread(text, ReadError::Lex(LexError::OpenText(at))),
        "NumberTooLarge" => unread(text, ReadError::Lex(LexError::NumberTooLarge(at))),
        "TooLong" => unread(text, ReadError::Lex(LexError::TooLong(at))),
        "NotUtf8" => unread(text, ReadError::Lex(LexError::NotUtf8(at))),
        "Unexpected" => unread(text, ReadError::Unexpected(at)),
        "TooNested" => unread(text, ReadError::TooNested(at)),
        _ => told_of_types(text, name, at),
    }
}

/// What is told of a trouble at the place of a word.
fn told_at(text: Text<'_>, name: &str, word: &str) -> Result<Word, Memory> {
    let at = text.place(word);
    if let Some(code) = name.strip_prefix("Fault ") {
        return faulted(text, code.parse::<u8>().unwrap_or(0), at);
    }
    if let Some(found) = name.strip_prefix("WrongType ") {
        return mistyped(text, found, at);
    }
    if name == "Flow" {
        return flowing(text, word);
    }
    told_of_reading(text, name, at)
}

/// What is told of a trouble whose name may be followed by the word at whose place it is.
fn told_at_word(text: Text<'_>, asked: &str) -> Result<Word, Memory> {
    let (name, word) = asked.split_once(" at ").unwrap_or((asked, ""));
    told_at(text, name, word)
}

/// A server's third reply.
fn reply(flaw: ReplyFlaw) -> Option<Trouble<'static>> {
    Some(Trouble::BadReply(HERE, 2, flaw))
}

/// The reply that a row asks for; of one with another first byte it is the first.
fn reply_of(asked: &str) -> Option<Trouble<'static>> {
    match asked {
        "Cut(0)" => reply(ReplyFlaw::Cut(0)),
        "Cut(0) of a child" => Some(Trouble::BadReply(CHILD, 2, ReplyFlaw::Cut(0))),
        "Cut(5)" => reply(ReplyFlaw::Cut(5)),
        "Frame(0)" => Some(Trouble::BadReply(HERE, 0, ReplyFlaw::Frame(0))),
        "Frame(2)" => reply(ReplyFlaw::Frame(2)),
        "Refused(12, 3)" => reply(ReplyFlaw::Refused(12, 3)),
        "Garbled" => reply(ReplyFlaw::Garbled),
        "Forest(1, 7)" => reply(ReplyFlaw::Forest(1, 7)),
        "Forest(2, 7)" => reply(ReplyFlaw::Forest(2, 7)),
        "Forest(3, 7)" => reply(ReplyFlaw::Forest(3, 7)),
        "Forest(4, 7)" => reply(ReplyFlaw::Forest(4, 7)),
        "Forest(5, 7)" => reply(ReplyFlaw::Forest(5, 7)),
        "Forest(6, 7)" => reply(ReplyFlaw::Forest(6, 7)),
        "Forest(7, 7)" => reply(ReplyFlaw::Forest(7, 7)),
        "Misfit(4)" => reply(ReplyFlaw::Misfit(4)),
        "Extra" => reply(ReplyFlaw::Extra),
        _ => None,
    }
}

/// A journal that is refused.
fn journal(flaw: JournalFlaw) -> Option<Trouble<'static>> {
    Some(Trouble::Journal(b"a.journal", flaw))
}

/// The trouble around a program that a row asks for.
fn outside(asked: &str) -> Option<Trouble<'static>> {
    match asked {
        "FileFault" => Some(Trouble::FileFault(b"none.rbi")),
        "FileFault of a long name" => Some(Trouble::FileFault(&[b'a'; 61])),
        "FileTooLong" => Some(Trouble::FileTooLong(b"long.rbi")),
        "OutputFault" => Some(Trouble::OutputFault),
        "Memory" => Some(Trouble::Memory),
        "NoEvent" => Some(Trouble::NoEvent(b"hub.events", 12)),
        "NotJson" => Some(Trouble::NotJson(b"request.json")),
        "WrongForm" => Some(Trouble::WrongForm(b"request.json", 3)),
        "DiskFault" => Some(Trouble::DiskFault(b"a.journal")),
        "Journal(Full)" => journal(JournalFlaw::Full),
        "Journal(None)" => journal(JournalFlaw::None),
        "Journal(BadRecord)" => journal(JournalFlaw::BadRecord),
        "DialFault" => Some(Trouble::DialFault(THERE)),
        "DialFault of a child" => Some(Trouble::DialFault(CHILD)),
        "ListenFault" => Some(Trouble::ListenFault(b"127.0.0.1:99")),
        "LinkFault" => Some(Trouble::LinkFault(THERE, 2)),
        "LinkFault of a child" => Some(Trouble::LinkFault(CHILD, 0)),
        _ => reply_of(asked),
    }
}

/// What is told of the trouble that a row asks for.
pub fn told_of_trouble(text: Text<'_>, asked: &str) -> Result<Word, Memory> {
    match outside(asked) {
        Some(trouble) => text.tell(&trouble),
        None => told_at_word(text, asked),
    }
}
