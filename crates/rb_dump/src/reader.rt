// A message that is read field by field.

ghost use Rattle.std.specs.Prelude.{◌+◌, length};
ghost use Rattle.rb_dump.specs.Found.{Shortens};

use crate::fields::{Code, Count, Field, Message, Number, Tag, Todo, Truth};
use crate::leaves::byte;
use rb_pieces::Page;
use rb_trees::{Memory, Version, Word};
use std::alloc::Global;

pub(crate) const STEP: Field = Field::Tag(Tag::Step);

pub(crate) const EXPR: Field = Field::Tag(Tag::Expr);

pub(crate) const STEP_NUMBER: Field = Field::Number(Number::Step);

pub(crate) const AT: Field = Field::Number(Number::At);

pub(crate) const VARIABLE: Field = Field::Number(Number::Variable);

pub(crate) const STEPS: Field = Field::Number(Number::Steps);

pub(crate) const KEEP: Field = Field::Truth(Truth::Keep);

pub(crate) const ENTRIES: Field = Field::Count(Count::Entries);

/// What was read: what it is, and the bytes behind it.
#[derive(Drop)]
pub(crate) struct Found<'a> {
    pub what: Word,
    pub rest: &'a [u8],
}

/// A message that is read: its version, the texts of its pool so far, and the fields that are still to be read.
#[derive(Drop)]
pub(crate) struct Reader<'a> {
    alloc: Global,
    version: Version,
    texts: Vec<&'a [u8]>,
    todo: Vec<Todo>,
}

/// Words with a name in place of each `@` and a number in place of each `#`.
pub(crate) fn filled(
    alloc: Global,
    words: &[u8],
    name: &[u8],
    number: u64,
) -> Result<Word, Memory> {
    let mut page = Page::new(alloc);
    page.fill_of(words, name, number)?;
    Ok(page.into_word())
}

/// What a field is, by words with a name in place of each `@` and a number in place of each `#`.
pub(crate) fn told<'a>(
    alloc: Global,
    words: &[u8],
    name: &[u8],
    number: u64,
    rest: &'a [u8],
) -> Result<Option<Found<'a>>, Memory>
    ensures { Shortens (length rest.now + 1) result }
{
    let what = filled(alloc, words, name, number)?;
    Ok(Some(Found { what, rest }))
}

impl<'a> Reader<'a> {
    /// A message of which nothing is read yet, in so many others.
    pub(crate) fn new(alloc: Global, message: Message, depth: u32) -> Result<Reader<'a>, Memory> {
        let mut todo = Vec::new(alloc);
        todo.push(Todo {
            field: Field::Version(message),
            times: 1,
            depth,
        })?;
        Ok(Reader {
            alloc,
            version: Version::One,
            texts: Vec::new(alloc),
            todo,
        })
    }

    pub(crate) fn alloc(&self) -> Global {
        self.alloc
    }

    pub(crate) fn version(&self) -> Version {
        self.version
    }

    /// A text of the pool.
    pub(crate) fn text_at(&self, place: usize) -> Option<&'a [u8]> {
        self.texts.get(place).copied()
    }

    /// Adds a text of the pool.
    pub(crate) fn pool(&mut self, text: &'a [u8]) -> Result<(), Memory> {
        self.texts.push(text)?;
        Ok(())
    }

    /// The field that is to be read next.
    pub(crate) fn next(&mut self) -> Result<Option<Todo>, Memory> {
        let Some(todo) = self.todo.pop() else {
            return Ok(None);
        };
        if todo.times > 1 {
            let times = todo.times - 1;
            self.todo.push(Todo { times, ..todo })?;
        }
        Ok(Some(todo))
    }

    /// So many of a field are to be read next.
    pub(crate) fn many(&mut self, field: Field, times: u32, depth: u32) -> Result<(), Memory> {
        if times > 0 {
            let depth = depth.saturating_add(1);
            self.todo.push(Todo {
                field,
                times,
                depth,
            })?;
        }
        Ok(())
    }

    /// These fields are to be read next.
    pub(crate) fn then(&mut self, fields: &[Field], depth: u32) -> Result<(), Memory> {
        for field in fields.iter().rev() {
            self.many(*field, 1, depth)?;
        }
        Ok(())
    }

    /// Reads a field at the front of the bytes, or answers None where it isn't there.
    pub(crate) fn read(&mut self, todo: Todo, bytes: &'a [u8]) -> Result<Option<Found<'a>>, Memory>
        ensures { Shortens (length bytes.now) result }
    {
        let depth = todo.depth;
        match todo.field {
            Field::Version(message) => self.read_version(message, depth, bytes),
            Field::Tag(tag) => self.read_tag(tag, depth, bytes),
            Field::Code(code) => self.read_code(code, depth, bytes),
            Field::Truth(kind) => self.read_truth(kind, bytes),
            Field::Int => self.read_int(bytes),
            Field::Number(kind) => self.read_number(kind, depth, bytes),
            Field::Count(kind) => self.read_count(kind, depth, bytes),
            Field::Text(kind) => self.read_text(kind, bytes),
        }
    }

    fn read_version(
        &mut self,
        message: Message,
        depth: u32,
        bytes: &'a [u8],
    ) -> Result<Option<Found<'a>>, Memory>
        ensures { Shortens (length bytes.now) result }
    {
        let Some((number, rest)) = byte(bytes) else {
            return Ok(None);
        };
        self.version = match number {
            0x01 => Version::One,
            0x02 => Version::Two,
            _ => return Ok(None),
        };
        let name = self.begin(message, depth)?;
        told(self.alloc, b"@ of version #", name, u64::from(number), rest)
    }

    /// Begins a message behind its version, and names it.
    fn begin(&mut self, message: Message, depth: u32) -> Result<&'static [u8], Memory> {
        match message {
            Message::Script => {
                self.then(&[Field::Code(Code::Inputs), STEPS], depth)?;
                if self.version == Version::Two {
                    self.then(&[Field::Number(Number::Texts)], depth)?;
                }
                Ok(b"script")
            }
            Message::Forest => {
                self.then(&[ENTRIES], depth)?;
                Ok(b"forest")
            }
            Message::Refusal => {
                self.then(&[Field::Code(Code::Refusal)], depth)?;
                Ok(b"refusal")
            }
        }
    }
}
