// The words and signs of a text, found without judging them.

ghost use Rattle.std.specs.Prelude.{◌+◌, ◌^◌, ◌<◌};

use rb_places::Places;
use rb_trees::Memory;
use std::alloc::Global;

/// A word, a text literal or a sign of one byte, by byte offsets.
#[derive(Clone, Copy)]
struct Piece {
    start: usize,
    end: usize,
}

/// What is open before a byte.
#[derive(Clone, Copy)]
enum Open {
    Nothing,
    Word,
    Text,
    Escape,
    Slash,
    Comment,
}

/// Whether a byte stands in names, keywords and numbers.
fn is_of_word(byte: u8) -> bool {
    matches!(byte, b'a'..=b'z' | b'A'..=b'Z' | b'0'..=b'9' | b'_')
}

/// The pieces so far, and what is open since when.
#[derive(Drop)]
struct Scanner {
    pieces: Vec<Piece>,
    open: Open,
    start: usize,
}

impl Scanner {
    /// Ends what is open.
    fn close(&mut self, end: usize) -> Result<(), Memory> {
        let start = self.start;
        self.pieces.push(Piece { start, end })?;
        self.open = Open::Nothing;
        Ok(())
    }

    /// Takes a byte where nothing is open.
    fn begin(&mut self, at: usize, byte: u8) -> Result<(), Memory>
        requires { at + 1 < 2 ^ 64 }
    {
        self.start = at;
        match byte {
            b' ' | b'\t' | b'\r' | b'\n' => self.open = Open::Nothing,
            b'"' => self.open = Open::Text,
            b'/' => self.open = Open::Slash,
            _ if is_of_word(byte) => self.open = Open::Word,
            _ => return self.close(at + 1),
        }
        Ok(())
    }

    /// Ends what is open before a byte, and takes that byte.
    fn close_before(&mut self, at: usize, byte: u8) -> Result<(), Memory>
        requires { at + 1 < 2 ^ 64 }
    {
        self.close(at)?;
        self.begin(at, byte)
    }

    /// Takes a byte in a text literal.
    fn in_text(&mut self, at: usize, byte: u8) -> Result<(), Memory>
        requires { at + 1 < 2 ^ 64 }
    {
        match byte {
            b'"' => return self.close(at + 1),
            b'\n' => return self.close(at),
            b'\\' => self.open = Open::Escape,
            _ => self.open = Open::Text,
        }
        Ok(())
    }

    /// Takes a byte.
    fn step(&mut self, at: usize, byte: u8) -> Result<(), Memory>
        requires { at + 1 < 2 ^ 64 }
    {
        match self.open {
            Open::Nothing => return self.begin(at, byte),
            Open::Text => return self.in_text(at, byte),
            Open::Word if !is_of_word(byte) => return self.close_before(at, byte),
            Open::Slash if byte != b'/' => return self.close_before(at, byte),
            Open::Slash => self.open = Open::Comment,
            Open::Escape => self.open = Open::Text,
            Open::Comment if byte == b'\n' => self.open = Open::Nothing,
            Open::Word | Open::Comment => {}
        }
        Ok(())
    }

    /// Ends what is open at the end of the text.
    fn finish(&mut self, end: usize) -> Result<(), Memory> {
        match self.open {
            Open::Nothing | Open::Comment => Ok(()),
            Open::Word | Open::Text | Open::Escape | Open::Slash => self.close(end),
        }
    }
}

/// The words, text literals and signs of a text in order, without blanks and comments. A sign of two bytes is two pieces.
#[derive(Drop)]
pub struct Pieces<'a> {
    alloc: Global,
    source: &'a [u8],
    places: &'a Places<'a>,
    pieces: Vec<Piece>,
}

impl<'a> Pieces<'a> {
    /// The pieces of a text.
    pub fn make(alloc: Global, places: &'a Places<'a>) -> Result<Pieces<'a>, Memory> {
        let source = places.text();
        let mut scanner = Scanner {
            pieces: Vec::new(alloc),
            open: Open::Nothing,
            start: 0,
        };
        for (at, byte) in source.iter().enumerate() {
            scanner.step(at, *byte)?;
        }
        scanner.finish(source.len())?;
        let Scanner { pieces, .. } = scanner;
        Ok(Pieces {
            alloc,
            source,
            places,
            pieces,
        })
    }

    /// What memory comes from.
    pub fn alloc(&self) -> Global {
        self.alloc
    }

    /// The text.
    pub fn source(&self) -> &'a [u8] {
        self.source
    }

    /// The number of pieces.
    pub fn len(&self) -> usize {
        self.pieces.len()
    }

    /// The number of the first piece that begins at a place or behind it.
    pub fn index_of(&self, at: u32) -> usize {
        let place = at as usize;
        self.pieces
            .as_slice()
            .partition_point(|piece| piece.start < place)
    }

    /// Where a piece begins, or the text's end where there is no such piece.
    pub fn start(&self, index: usize) -> usize {
        match self.pieces.get(index) {
            Some(piece) => piece.start,
            None => self.source.len(),
        }
    }

    /// Where a piece ends, or the text's end where there is no such piece.
    pub fn end(&self, index: usize) -> usize {
        match self.pieces.get(index) {
            Some(piece) => piece.end,
            None => self.source.len(),
        }
    }

    /// Whether a piece begins where the one before it ends.
    pub fn is_joined(&self, index: usize) -> bool {
        index > 0 && self.start(index) == self.end(index - 1)
    }

    /// The bytes from the first byte of a piece to the last byte of another.
    pub fn between(&self, first: usize, last: usize) -> &'a [u8] {
        self.source
            .get(self.start(first)..self.end(last))
            .unwrap_or(b"")
    }

    /// The number of the line in which a piece begins.
    pub fn line(&self, index: usize) -> u64 {
        let start = self.start(index).min(u32::MAX as usize);
        self.places.line(start as u32) as u64
    }

    /// The bytes of a piece, or none where there is no such piece.
    pub fn text(&self, index: usize) -> &'a [u8] {
        match self.pieces.get(index) {
            Some(piece) => self.source.get(piece.start..piece.end).unwrap_or(b""),
            None => b"",
        }
    }

    /// The bytes of the piece so many pieces behind another.
    pub fn later(&self, index: usize, count: usize) -> &'a [u8] {
        self.text(index.saturating_add(count))
    }

    /// The bytes of the piece so many pieces before another.
    pub fn earlier(&self, index: usize, count: usize) -> &'a [u8] {
        match index.checked_sub(count) {
            Some(place) => self.text(place),
            None => b"",
        }
    }

    /// Whether the piece so many pieces behind another has these bytes.
    pub fn is_later(&self, index: usize, count: usize, bytes: &[u8]) -> bool {
        self.later(index, count) == bytes
    }

    /// Whether the piece so many pieces before another has these bytes.
    pub fn is_earlier(&self, index: usize, count: usize, bytes: &[u8]) -> bool {
        self.earlier(index, count) == bytes
    }
}
