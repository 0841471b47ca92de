// Tags: what they say, and which fields follow.

ghost use Rattle.std.specs.Prelude.{length};
ghost use Rattle.rb_dump.specs.Found.{Shortens};

use crate::fields::{Code, Count, Field, Number, Tag, Text, Truth};
use crate::leaves::byte;
use crate::reader::{AT, ENTRIES, EXPR, Found, KEEP, Reader, STEP_NUMBER, STEPS, VARIABLE, told};
use rb_trees::{Memory, Version};

impl<'a> Reader<'a> {
    pub(crate) fn read_tag(
        &mut self,
        tag: Tag,
        depth: u32,
        bytes: &'a [u8],
    ) -> Result<Option<Found<'a>>, Memory>
        ensures { Shortens (length bytes.now) result }
    {
        let Some((number, rest)) = byte(bytes) else {
            return Ok(None);
        };
        let words = match tag {
            Tag::Input => self.input_tag(number, depth)?,
            Tag::Value => self.value_tag(number, Text::Value, depth)?,
            Tag::Kept => self.value_tag(number, Text::Words, depth)?,
            Tag::Step => self.step_tag(number, depth)?,
            Tag::Expr => self.expr_tag(number, depth)?,
            Tag::Entry => self.entry_tag(number, depth)?,
            Tag::End => self.end_tag(number, depth)?,
        };
        match words {
            Some(words) => told(self.alloc(), words, b"", 0, rest),
            None => Ok(None),
        }
    }

    /// The value of an input, which may be a list in version 2.
    fn input_tag(&mut self, number: u8, depth: u32) -> Result<Option<&'static [u8]>, Memory> {
        if number == 0x04 && self.version() == Version::Two {
            self.then(&[Field::Number(Number::Items)], depth)?;
            return Ok(Some(b"list"));
        }
        self.value_tag(number, Text::Value, depth)
    }

    /// A value, whose text is of this kind.
    fn value_tag(
        &mut self,
        number: u8,
        text: Text,
        depth: u32,
    ) -> Result<Option<&'static [u8]>, Memory> {
        match number {
            0x01 => {
                self.then(&[Field::Int], depth)?;
                Ok(Some(b"Int"))
            }
            0x02 => {
                self.then(&[Field::Truth(Truth::Value)], depth)?;
                Ok(Some(b"Bool"))
            }
            0x03 => {
                self.then(&[Field::Text(text)], depth)?;
                Ok(Some(b"Text"))
            }
            _ => Ok(None),
        }
    }

    fn step_tag(&mut self, number: u8, depth: u32) -> Result<Option<&'static [u8]>, Memory> {
        match number {
            0x10 => {
                self.then(&[STEP_NUMBER, AT, EXPR], depth)?;
                Ok(Some(b"do"))
            }
            0x11 => {
                self.then(&[STEP_NUMBER, AT, EXPR], depth)?;
                Ok(Some(b"keep"))
            }
            0x12 => {
                self.then(&[STEP_NUMBER, AT, VARIABLE, KEEP, EXPR], depth)?;
                Ok(Some(b"let"))
            }
            0x13 => {
                self.then(&[STEP_NUMBER, AT, EXPR, STEPS, STEPS], depth)?;
                Ok(Some(b"if"))
            }
            0x14 => {
                self.then(&[STEP_NUMBER, AT, VARIABLE, KEEP, EXPR, STEPS], depth)?;
                Ok(Some(b"each"))
            }
            0x15 if self.version() == Version::Two => {
                let input = Field::Code(Code::Input);
                self.then(&[STEP_NUMBER, AT, VARIABLE, input, STEPS], depth)?;
                Ok(Some(b"over"))
            }
            _ => Ok(None),
        }
    }

    fn expr_tag(&mut self, number: u8, depth: u32) -> Result<Option<&'static [u8]>, Memory> {
        match number {
            0x20 => {
                self.then(&[Field::Tag(Tag::Value)], depth)?;
                Ok(Some(b"literal"))
            }
            0x21 => {
                self.then(&[Field::Code(Code::Input)], depth)?;
                Ok(Some(b"an input"))
            }
            0x22 => {
                self.then(&[VARIABLE], depth)?;
                Ok(Some(b"a variable"))
            }
            0x23 => Ok(Some(b"the root")),
            0x24 => {
                self.then(&[Field::Code(Code::Unary), AT, EXPR], depth)?;
                Ok(Some(b"one operand"))
            }
            0x25 => {
                self.then(&[Field::Code(Code::Binary), AT, EXPR, EXPR], depth)?;
                Ok(Some(b"two operands"))
            }
            0x26 => {
                let kind = Field::Code(Code::Kind);
                let name = Field::Text(Text::Name);
                let arguments = Field::Number(Number::Arguments);
                self.then(&[AT, kind, name, EXPR, arguments], depth)?;
                Ok(Some(b"call"))
            }
            _ => Ok(None),
        }
    }

    fn entry_tag(&mut self, number: u8, depth: u32) -> Result<Option<&'static [u8]>, Memory> {
        match number {
            0x31 => {
                self.then(&[Field::Tag(Tag::Kept)], depth)?;
                Ok(Some(b"value"))
            }
            0x32 => {
                self.then(&[Field::Truth(Truth::Taken), ENTRIES], depth)?;
                Ok(Some(b"branch"))
            }
            0x33 => {
                self.then(&[Field::Count(Count::Rows)], depth)?;
                Ok(Some(b"rows"))
            }
            _ => Ok(None),
        }
    }

    fn end_tag(&mut self, number: u8, depth: u32) -> Result<Option<&'static [u8]>, Memory> {
        match number {
            0x00 => Ok(Some(b"no fault")),
            0x01 => {
                self.then(&[STEP_NUMBER, AT, Field::Code(Code::Fault)], depth)?;
                Ok(Some(b"fault"))
            }
            _ => Ok(None),
        }
    }
}
