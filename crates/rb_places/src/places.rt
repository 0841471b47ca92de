// A text with an index of its places.

ghost use Rattle.std.specs.Prelude.{◌≡◌, ◌<◌, ◌≤◌, ◌-◌, ◌*◌, ◌^◌, length, IfOk};
ghost use Rattle.rb_meaning.specs.Place.{column_of, line_of};
ghost use Rattle.rb_places.specs.Noted.{IsPlace};

use rb_trees::Memory;
use std::alloc::Global;
use std::marker::Model;

/// The place of every so many bytes is noted.
const STRIDE: usize = 64;

/// The line and the column of a place, both from 1.
#[derive(Clone, Copy)]
struct Place {
    line: usize,
    column: usize,
}

/// The place where a text begins.
const START: Place = Place { line: 1, column: 1 };

/// A text whose places are found in a time that doesn't grow with it. Contracts see the text.
#[derive(Drop)]
pub struct Places<'t> {
    text: &'t [u8],
    // the place of each multiple of the stride
    noted: Vec<Place>,
}

impl<'t> Model for Places<'t> {
    ghost use Rattle.std.specs.Prelude.{ℕ, List};
    ghost use Rattle.std.specs.Coded.{coded_list, coded_ℕ};
    ghost use Rattle.rb_places.specs.Noted.{AreNoted};

    ghost Value = { List ℕ };

    ghost coded = { coded_list coded_ℕ };

    ghost view = { λ p. p.text.now };

    ghost invariant = { λ p. AreNoted p.text.now p.noted.items };
}

/// The place of an offset, found from that of an earlier one.
fn advance(text: &[u8], from: usize, at: usize, place: Place) -> Place
    requires order { from ≤ at }
    requires within { at ≤ length text.now }
    requires begins { IsPlace text.now from place }
    ensures { IsPlace text.now at result }
{
    let mut line = place.line;
    let mut column = place.column;
    for i in from..at {
        if text[i] == b'\n' {
            line += 1;
            column = 1;
        } else {
            column += 1;
        }
    }
    Place { line, column }
}

impl<'t> Places<'t> {
    /// The places of a text.
    pub fn of(alloc: Global, text: &'t [u8]) -> Result<Places<'t>, Memory>
        ensures { IfOk result (λ places. places ≡ text.now) }
    {
        let mut place = START;
        let mut noted = Vec::new(alloc);
        noted.push(place)?;
        for k in 0..text.len() / STRIDE {
            place = advance(text, k * STRIDE, k * STRIDE + STRIDE, place);
            noted.push(place)?;
        }
        Ok(Places { text, noted })
    }

    /// The place of an offset: that of the last multiple of the stride, and on from there.
    fn find(&self, at: usize) -> Place
        requires { at ≤ length self.now }
        ensures { IsPlace self.now at result }
    {
        let index = at / STRIDE;
        match self.noted.get(index) {
            Some(place) => advance(self.text, index * STRIDE, at, *place),
            None => advance(self.text, 0, at, START),
        }
    }

    /// The text.
    pub fn text(&self) -> &'t [u8]
        ensures { result.now ≡ self.now }
    {
        self.text
    }

    /// The line and the column of an offset of the text, both from 1. Columns count bytes.
    ///
    /// The line feed itself stands on the line that it ends.
    pub fn place(&self, at: u32) -> (u32, u32)
        requires within { at ≤ length self.now }
        requires fits { at < 2 ^ 32 - 1 }
        ensures line { result.0 ≡ line_of self.now at }
        ensures column { result.1 ≡ column_of self.now at }
    {
        let Place { line, column } = self.find(at as usize);
        (line as u32, column as u32)
    }

    /// The number of the line of an offset, from 1. One behind the end is the end.
    pub fn line(&self, at: u32) -> usize
        ensures { result ≡ line_of self.now at }
    {
        self.find((at as usize).min(self.text.len())).line
    }
}
