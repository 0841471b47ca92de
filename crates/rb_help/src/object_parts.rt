// The objects of a service: their fields and values, and the types that their classes say.

use rb_pieces::Pieces;
use rb_pieces::around::{is_among, is_number};
use rb_pieces::declarations::{Declared, declared_once};
use rb_trees::Memory;
use std::alloc::Global;

/// The first piece that is a word, or the number of all pieces where none is.
pub fn place_of(pieces: &Pieces<'_>, word: &[u8]) -> usize {
    for place in 0..pieces.len() {
        if pieces.is_later(place, 0, word) {
            return place;
        }
    }
    pieces.len()
}

/// A number without zeros before it.
fn without_zeros(number: &[u8]) -> &[u8] {
    let last = number.len().saturating_sub(1);
    let first = number
        .iter()
        .position(|digit| *digit != b'0')
        .unwrap_or(last);
    number.get(first..).unwrap_or(number)
}

/// A natural in decimal, up to the greatest that there is.
fn value_of(number: &[u8]) -> usize {
    let mut value = 0usize;
    for digit in number {
        let unit = usize::from(digit.saturating_sub(b'0'));
        value = value.saturating_mul(10).saturating_add(unit);
    }
    value
}

/// The objects of a service, by the pieces with which they begin.
#[derive(Drop)]
pub struct Objects<'p, 'a> {
    pieces: &'p Pieces<'a>,
    places: Vec<usize>,
}

impl<'p, 'a> Objects<'p, 'a> {
    /// The objects of a service.
    pub fn make(alloc: Global, pieces: &'p Pieces<'a>) -> Result<Objects<'p, 'a>, Memory> {
        let mut places = Vec::new(alloc);
        for place in 0..pieces.len() {
            if pieces.is_later(place, 0, b"object") {
                places.push(place)?;
            }
        }
        Ok(Objects { pieces, places })
    }

    /// How many there are.
    pub fn count(&self) -> u64 {
        self.places.len() as u64
    }

    /// The piece with which an object begins, by its place from 0.
    pub fn begins(&self, object: u32) -> usize {
        match self.places.get(object as usize) {
            Some(place) => *place,
            None => self.pieces.len(),
        }
    }

    /// Whether an object is written with a number that has no zeros before it.
    fn is_written(&self, place: usize, number: &[u8]) -> bool {
        without_zeros(self.pieces.later(place, 1)) == number
    }

    /// The class of an object that is written with a number. Most often it is the one at that place.
    pub fn class_written(&self, number: &[u8]) -> Option<&'a [u8]> {
        let wanted = without_zeros(number);
        if let Some(place) = self.places.get(value_of(wanted)) {
            if self.is_written(*place, wanted) {
                return Some(self.pieces.later(*place, 3));
            }
        }
        for place in &self.places {
            if self.is_written(*place, wanted) {
                return Some(self.pieces.later(*place, 3));
            }
        }
        None
    }
}

/// The first piece of the fields that an object gives.
pub fn first_given(object: usize) -> usize {
    object.saturating_add(5)
}

/// The first piece of the fields of an object's class.
pub fn first_due(pieces: &Pieces<'_>, object: usize) -> usize {
    match declared_once(pieces, pieces.later(object, 3), Declared::Type) {
        Some(class) => class.saturating_add(2),
        None => pieces.len(),
    }
}

/// The piece behind the next semicolon.
pub fn next_field(pieces: &Pieces<'_>, field: usize) -> usize {
    for place in field..pieces.len() {
        if pieces.is_later(place, 0, b";") {
            return place.saturating_add(1);
        }
    }
    pieces.len()
}

/// The name of the field that an object gives at a piece, where it gives one.
pub fn given_at<'a>(pieces: &Pieces<'a>, place: usize) -> Option<&'a [u8]> {
    if pieces.is_later(place, 1, b"=") {
        Some(pieces.text(place))
    } else {
        None
    }
}

/// The name of the field that a class has at a piece, where it has one.
pub fn due_at<'a>(pieces: &Pieces<'a>, place: usize) -> Option<&'a [u8]> {
    if pieces.is_later(place, 1, b":") {
        Some(pieces.text(place))
    } else {
        None
    }
}

/// Whether an object gives a field of a name.
pub fn gives(pieces: &Pieces<'_>, object: usize, name: &[u8]) -> bool {
    for place in first_given(object)..pieces.len() {
        if pieces.is_later(place, 0, b"}") {
            return false;
        }
        if pieces.is_later(place, 0, name) && pieces.is_later(place, 1, b"=") {
            return true;
        }
    }
    false
}

/// How often `List` stands around the type from a piece on, and the piece of the type in it.
fn lists_around(pieces: &Pieces<'_>, first: usize) -> (usize, usize) {
    let mut count = 0usize;
    let mut place = first;
    for _ in 0..pieces.len() {
        if !pieces.is_later(place, 0, b"List") {
            return (count, place);
        }
        count = count.saturating_add(1);
        place = place.saturating_add(2);
    }
    (count, place)
}

/// Whether what a piece begins is of a type that is no list.
fn is_of_word(pieces: &Pieces<'_>, objects: &Objects<'_, '_>, index: usize, word: &[u8]) -> bool {
    let text = pieces.text(index);
    match word {
        b"Int" => is_number(text) || matches!(text, b"-"),
        b"Bool" => is_among(text, b"true false"),
        b"Text" => text.first() == Some(&b'"'),
        class => match objects.class_written(pieces.later(index, 1)) {
            Some(written) => matches!(text, b"#") && written == class,
            None => matches!(text, b"#"),
        },
    }
}

/// A piece of a value that isn't of the type of its field, and whether a list is wanted there, an item that is no list, or
/// another kind of item.
#[derive(Clone, Copy)]
pub enum Flaw {
    List(usize),
    NoList(usize),
    Item(usize),
}

/// The first piece of a value, from the piece behind its `=` on, that isn't of a type.
pub fn flaw_of(
    pieces: &Pieces<'_>,
    objects: &Objects<'_, '_>,
    value: usize,
    kind: usize,
) -> Option<Flaw> {
    let (lists, word) = lists_around(pieces, kind);
    let mut depth = 0usize;
    for place in value..pieces.len() {
        let is_item = !is_number(pieces.text(place)) || !pieces.is_earlier(place, 1, b"#");
        match pieces.text(place) {
            b";" => return None,
            b"[" if depth >= lists => return Some(Flaw::NoList(place)),
            b"[" => depth = depth.saturating_add(1),
            b"]" => depth = depth.saturating_sub(1),
            b"," => {}
            _ if is_item && depth < lists => return Some(Flaw::List(place)),
            _ if is_item && !is_of_word(pieces, objects, place, pieces.text(word)) => {
                return Some(Flaw::Item(place));
            }
            _ => {}
        }
    }
    None
}

/// The piece that names the type of the items in all lists of a type.
pub fn item_word(pieces: &Pieces<'_>, kind: usize) -> usize {
    lists_around(pieces, kind).1
}
