// A text whose lines are quoted, and the columns of its places.

ghost use Rattle.std.specs.Prelude.{◌≡◌, ◌≤◌, ◌-◌, count_by, length, take, IfOk};
ghost use Rattle.rb_meaning.specs.Place.{line_of};
ghost use Rattle.rb_help.specs.Headings as words;
ghost use Rattle.rb_help.specs.Headings.{begins_character, named};
ghost use Rattle.rb_help.specs.Lines.{before_place};

use crate::lines::line_start;
use rb_places::Places;
use rb_trees::Memory;
use std::alloc::Global;
use std::marker::Model;

/// The characters before every so many bytes are counted beforehand.
const STRIDE: usize = 64;

/// A text whose lines are quoted, and the name of its file.
///
/// The line and the column of a place are found in a time that doesn't grow with the text. Contracts see the name and the
/// text.
#[derive(Drop)]
pub struct Sheet<'t> {
    name: &'t [u8],
    places: &'t Places<'t>,
    // how many characters begin before each multiple of the stride
    counted: Vec<usize>,
}

impl<'t> Model for Sheet<'t> {
    ghost use Rattle.rb_help.specs.Headings.{AreCounted, NamedText};

    ghost Value = { NamedText };

    ghost view = { λ s. record { name = s.name.now; text = s.places.now } };

    ghost invariant = { λ s. AreCounted s.places.now s.counted.items };
}

/// Whether a byte begins a character, and doesn't go on with one.
fn begins_character(byte: u8) -> bool
    ensures { result ≡ words.begins_character byte }
{
    !matches!(byte, 0x80..=0xBF)
}

/// How many characters begin in a text.
fn count_characters(bytes: &[u8]) -> usize
    ensures count { result ≡ count_by begins_character bytes.now }
    ensures few { result ≤ length bytes.now }
{
    bytes.iter().filter(|byte| begins_character(**byte)).count()
}

/// How many characters begin before a place, found from the count before an earlier one.
fn count_on(text: &[u8], from: usize, at: usize, count: usize) -> usize
    requires order { from ≤ at }
    requires within { at ≤ length text.now }
    requires counted { count ≡ count_by begins_character (take from text.now) }
    ensures { result ≡ count_by begins_character (take at text.now) }
{
    count + count_characters(&text[from..at])
}

impl<'t> Sheet<'t> {
    /// The sheet of a text, by its places.
    pub fn make(alloc: Global, name: &'t [u8], places: &'t Places<'t>) -> Result<Sheet<'t>, Memory>
        ensures { IfOk result (λ sheet. sheet ≡ named name.now places.now) }
    {
        let text = places.text();
        let mut count = 0;
        let mut counted = Vec::new(alloc);
        counted.push(count)?;
        for k in 0..text.len() / STRIDE {
            count = count_on(text, k * STRIDE, k * STRIDE + STRIDE, count);
            counted.push(count)?;
        }
        Ok(Sheet {
            name,
            places,
            counted,
        })
    }

    /// The name of the text's file.
    pub fn name(&self) -> &'t [u8]
        ensures { result.now ≡ self.now.name }
    {
        self.name
    }

    /// The text.
    pub fn text(&self) -> &'t [u8]
        ensures { result.now ≡ self.now.text }
    {
        self.places.text()
    }

    /// The number of the line of a place, from 1. A place behind the end is the end.
    pub fn line(&self, at: u32) -> usize
        ensures { result ≡ line_of self.now.text at }
    {
        self.places.line(at)
    }

    /// How many characters begin before a place.
    fn count_before(&self, place: usize) -> usize
        requires { place ≤ length self.now.text }
        ensures { result ≡ count_by begins_character (take place self.now.text) }
    {
        let index = place / STRIDE;
        match self.counted.get(index) {
            Some(count) => count_on(self.text(), index * STRIDE, place, *count),
            None => count_on(self.text(), 0, place, 0),
        }
    }

    /// Where the line of a place begins.
    fn start(&self, place: usize) -> usize
        requires { place ≤ length self.now.text }
        ensures { result ≡ place - length (before_place self.now.text place) }
    {
        if place < u32::MAX as usize {
            let (_, column) = self.places.place(place as u32);
            return place - (column as usize - 1);
        }
        line_start(self.text(), place)
    }

    /// The column of a place in characters, from 1. A place behind the end is the end.
    pub fn column(&self, at: u32) -> usize
        ensures { result ≡ words.column_in_characters self.now.text at }
    {
        let place = (at as usize).min(self.text().len());
        1 + self.count_before(place) - self.count_before(self.start(place))
    }
}
