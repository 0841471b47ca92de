// Fields that aren't tags, read one at a time.

ghost use Rattle.std.specs.Prelude.{◌<◌, length, IfSome};
ghost use Rattle.rb_dump.specs.Found.{Shortens};

use crate::fields::{Code, Count, Field, Number, Tag, Text, Truth};
use crate::leaves::{brief, byte, count, integer, lengthy, natural, truth, words};
use crate::names::{FIRST_OF_RULES, binary_name, fault_name, kind_name, refusal_name, unary_name};
use crate::reader::{AT, ENTRIES, EXPR, Found, Reader, STEP, STEP_NUMBER, told};
use rb_trees::{Memory, Version};

/// The code of the one fault that keeps a text.
const THROWN: u8 = 8;

/// The words for a code.
fn code_words(kind: Code) -> &'static [u8] {
    match kind {
        Code::Inputs => b"inputs: #",
        Code::Input => b"input #",
        Code::Unary | Code::Binary => b"operator @",
        Code::Kind => b"kind @",
        Code::Fault => b"code # @",
        Code::Refusal => b"refusal # @",
    }
}

/// What a code stands for; nothing for a number.
fn code_name(kind: Code, code: u8) -> Option<&'static [u8]> {
    match kind {
        Code::Inputs | Code::Input => Some(b""),
        Code::Unary => unary_name(code),
        Code::Binary => binary_name(code),
        Code::Kind => kind_name(code),
        Code::Fault => fault_name(code),
        Code::Refusal => refusal_name(code),
    }
}

/// The words for a truth value.
fn truth_words(kind: Truth, truth: bool) -> &'static [u8] {
    match kind {
        Truth::Value if truth => b"true",
        Truth::Value => b"false",
        Truth::Keep if truth => b"kept",
        Truth::Keep => b"not kept",
        Truth::Taken if truth => b"of the first block",
        Truth::Taken => b"of the second block",
    }
}

/// The words for a number.
fn number_words(kind: Number) -> &'static [u8] {
    match kind {
        Number::Step => b"step #",
        Number::At => b"at #",
        Number::Variable => b"variable #",
        Number::Texts => b"texts: #",
        Number::Items => b"items: #",
        Number::Steps => b"steps: #",
        Number::Arguments => b"arguments: #",
    }
}

/// What a number counts.
fn counted(kind: Number) -> Option<Field> {
    match kind {
        Number::Texts => Some(Field::Text(Text::Pooled)),
        Number::Items => Some(Field::Tag(Tag::Value)),
        Number::Steps => Some(STEP),
        Number::Arguments => Some(EXPR),
        Number::Step | Number::At | Number::Variable => None,
    }
}

/// The words for a text.
fn text_words(kind: Text) -> &'static [u8] {
    match kind {
        Text::Name => b"name @",
        Text::Pooled | Text::Value | Text::Words => b"text \"@\"",
    }
}

impl<'a> Reader<'a> {
    pub(crate) fn read_code(
        &mut self,
        kind: Code,
        depth: u32,
        bytes: &'a [u8],
    ) -> Result<Option<Found<'a>>, Memory>
        ensures { Shortens (length bytes.now) result }
    {
        let Some((code, rest)) = byte(bytes) else {
            return Ok(None);
        };
        let Some(name) = code_name(kind, code) else {
            return Ok(None);
        };
        match kind {
            Code::Inputs => self.many(Field::Tag(Tag::Input), u32::from(code), depth)?,
            Code::Fault if code == THROWN => self.then(&[Field::Text(Text::Words)], depth)?,
            Code::Refusal if code < FIRST_OF_RULES => self.then(&[AT], depth)?,
            Code::Refusal => self.then(&[STEP_NUMBER], depth)?,
            _ => {}
        }
        told(self.alloc(), code_words(kind), name, u64::from(code), rest)
    }

    pub(crate) fn read_truth(
        &mut self,
        kind: Truth,
        bytes: &'a [u8],
    ) -> Result<Option<Found<'a>>, Memory>
        ensures { Shortens (length bytes.now) result }
    {
        let Some((truth, rest)) = truth(bytes) else {
            return Ok(None);
        };
        told(self.alloc(), truth_words(kind, truth), b"", 0, rest)
    }

    pub(crate) fn read_int(&mut self, bytes: &'a [u8]) -> Result<Option<Found<'a>>, Memory>
        ensures { Shortens (length bytes.now) result }
    {
        let Some((number, rest)) = integer(self.version(), bytes) else {
            return Ok(None);
        };
        let digits = format!(in self.alloc(); "{number}")?;
        told(self.alloc(), b"@", digits.as_bytes(), 0, rest)
    }

    pub(crate) fn read_number(
        &mut self,
        kind: Number,
        depth: u32,
        bytes: &'a [u8],
    ) -> Result<Option<Found<'a>>, Memory>
        ensures { Shortens (length bytes.now) result }
    {
        let Some((number, rest)) = natural(self.version(), bytes) else {
            return Ok(None);
        };
        if let Some(field) = counted(kind) {
            self.many(field, number, depth)?;
        }
        told(
            self.alloc(),
            number_words(kind),
            b"",
            u64::from(number),
            rest,
        )
    }

    pub(crate) fn read_count(
        &mut self,
        kind: Count,
        depth: u32,
        bytes: &'a [u8],
    ) -> Result<Option<Found<'a>>, Memory>
        ensures { Shortens (length bytes.now) result }
    {
        let Some((number, rest)) = count(bytes) else {
            return Ok(None);
        };
        let words = self.count_on(kind, number, depth)?;
        told(self.alloc(), words, b"", u64::from(number), rest)
    }

    /// What follows a count of so many, and the words for it.
    fn count_on(&mut self, kind: Count, number: u32, depth: u32) -> Result<&'static [u8], Memory> {
        match kind {
            Count::Entries => {
                self.then(&[Field::Tag(Tag::End)], depth)?;
                self.many(Field::Tag(Tag::Entry), number, depth)?;
                Ok(b"entries: #")
            }
            Count::Rows => {
                self.many(ENTRIES, number, depth)?;
                Ok(b"turns: #")
            }
        }
    }

    pub(crate) fn read_text(
        &mut self,
        kind: Text,
        bytes: &'a [u8],
    ) -> Result<Option<Found<'a>>, Memory>
        ensures { Shortens (length bytes.now) result }
    {
        let Some((text, rest)) = self.text(kind, bytes) else {
            return Ok(None);
        };
        match kind {
            Text::Pooled => self.pool(text)?,
            _ => {}
        }
        told(self.alloc(), text_words(kind), text, 0, rest)
    }

    /// A text, and the bytes behind what spells it.
    fn text(&self, kind: Text, bytes: &'a [u8]) -> Option<(&'a [u8], &'a [u8])>
        ensures { IfSome result (λ x. length x.1.now < length bytes.now) }
    {
        match kind {
            Text::Pooled => brief(bytes),
            Text::Words => words(self.version(), bytes),
            Text::Value | Text::Name => match self.version() {
                Version::One => lengthy(bytes),
                Version::Two => self.pooled(bytes),
            },
        }
    }

    /// The text at whose place in the pool the bytes begin.
    fn pooled(&self, bytes: &'a [u8]) -> Option<(&'a [u8], &'a [u8])>
        ensures { IfSome result (λ x. length x.1.now < length bytes.now) }
    {
        let (place, rest) = natural(Version::Two, bytes)?;
        match self.text_at(place as usize) {
            Some(text) => Some((text, rest)),
            None => None,
        }
    }
}
