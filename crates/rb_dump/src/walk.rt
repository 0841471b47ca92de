// The pieces so far of bytes that are shown.

ghost use Rattle.std.specs.Prelude.{◌≡◌, ◌+◌, ◌<◌, ◌≤◌, ◌-◌, [], length, drop, take, OnOk};
ghost use Rattle.rb_dump.specs.Pieces.{Tiles};

use crate::pieces::Piece;
use rb_trees::{Memory, Seq, Word};
use std::alloc::Global;
use std::marker::Model;

/// Bytes that are being shown, piece by piece from the first one on.
#[derive(Drop)]
pub(crate) struct Walk<'a> {
    bytes: &'a [u8],
    /// Where the last piece ended.
    at: usize,
    pieces: Seq<Piece>,
}

impl<'a> Model for Walk<'a> {
    ghost use Rattle.std.specs.Prelude.{◌≤◌, length};
    ghost use Rattle.rb_dump.specs.Pieces.{Shown, Tiles};

    ghost Value = { Shown };

    ghost view = { λ w. record { bytes = w.bytes.now; at = w.at; pieces = w.pieces } };

    ghost invariant = { λ w. Tiles 0 w.pieces w.at × (w.at ≤ length w.bytes.now) };
}

impl<'a> Walk<'a> {
    /// No piece yet.
    pub(crate) fn new(alloc: Global, bytes: &'a [u8]) -> Walk<'a>
        ensures { result ≡ record { bytes = bytes.now; at = 0; pieces = [] } }
    {
        Walk {
            bytes,
            at: 0,
            pieces: Seq::new(alloc),
        }
    }

    /// Where the last piece ended.
    pub(crate) fn at(&self) -> usize
        ensures at { result ≡ self.now.at }
        ensures within { result ≤ length self.now.bytes }
    {
        self.at
    }

    /// How many bytes there are in all.
    pub(crate) fn len(&self) -> usize
        ensures { result ≡ length self.now.bytes }
    {
        self.bytes.len()
    }

    /// The offset so many bytes behind the last piece.
    pub(crate) fn after(&self, count: usize) -> usize
        requires { self.now.at + count ≤ length self.now.bytes }
        ensures { result ≡ self.now.at + count }
    {
        self.at + count
    }

    /// How many pieces there are.
    pub(crate) fn count(&self) -> usize {
        self.pieces.len()
    }

    /// The bytes behind the last piece.
    pub(crate) fn rest(&self) -> &'a [u8]
        ensures { result.now ≡ drop self.now.at self.now.bytes }
    {
        let (_, rest) = self.bytes.split_at(self.at);
        rest
    }

    /// The bytes behind the last piece, up to an offset.
    pub(crate) fn up_to(&self, end: usize) -> &'a [u8]
        requires from { self.now.at ≤ end }
        requires within { end ≤ length self.now.bytes }
        ensures is { result.now ≡ take (end - self.now.at) (drop self.now.at self.now.bytes) }
        ensures length { length result.now ≡ end - self.now.at }
    {
        let (front, _) = self.rest().split_at(end - self.at);
        front
    }

    /// Adds a piece of so many bytes.
    pub(crate) fn add(&mut self, count: usize, depth: u32, what: Word) -> Result<(), Memory>
        requires some { 0 < count }
        requires within { self.old.at + count ≤ length self.old.bytes }
        ensures bytes { self.new.bytes ≡ self.old.bytes }
        ensures at { OnOk result (self.new.at ≡ self.old.at + count) }
    {
        let start = self.at;
        let end = start + count;
        self.pieces.push(Piece {
            depth,
            start,
            end,
            what,
        })?;
        self.at = end;
        Ok(())
    }

    /// The pieces, which are all.
    pub(crate) fn into_pieces(self) -> Seq<Piece>
        requires { self.at ≡ length self.bytes }
        ensures { Tiles 0 result (length self.entry.bytes) }
    {
        let Walk {
            bytes: _,
            at: _,
            pieces,
        } = self;
        pieces
    }
}
