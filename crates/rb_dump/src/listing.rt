// Pieces of bytes as lines.

use crate::dumps::Dump;
use crate::names::{FIRST_OF_RULES, refusal_name};
use crate::pieces::Piece;
use crate::verdicts::Verdict;
use rb_pieces::Page;
use rb_trees::{Memory, Word};
use std::alloc::Global;

/// How many bytes a line has, at most.
const WIDTH: usize = 16;

/// The lines of bytes, with their offsets in so many columns.
#[derive(Drop)]
struct Listing {
    alloc: Global,
    page: Page,
    columns: usize,
}

impl Listing {
    /// The offset of a line, and its bytes.
    fn bytes(&mut self, offset: usize, bytes: &[u8]) -> Result<(), Memory> {
        let offset = format!(in self.alloc; "{offset}")?;
        self.page.spaces(self.columns.saturating_sub(offset.len()))?;
        self.page.add(offset.as_bytes())?;
        self.page.add(b" ")?;
        for byte in bytes {
            let byte = *byte;
            let text = format!(in self.alloc; " {byte:02x}")?;
            self.page.add(text.as_bytes())?;
        }
        Ok(())
    }

    /// What the bytes of a line are, of which there are so many.
    fn words(&mut self, count: usize, depth: u32, what: &[u8]) -> Result<(), Memory> {
        self.page.spaces(3 * WIDTH.saturating_sub(count))?;
        for _ in 0..depth {
            self.page.add(b"  ")?;
        }
        self.page.add(b"  ")?;
        self.page.add(what)
    }

    /// The lines of a piece with these bytes.
    fn piece(&mut self, piece: &Piece, bytes: &[u8]) -> Result<(), Memory> {
        let mut offset = piece.start;
        for line in bytes.chunks(WIDTH) {
            self.bytes(offset, line)?;
            if offset == piece.start {
                self.words(line.len(), piece.depth, piece.what.as_slice())?;
            }
            self.page.add(b"\n")?;
            offset = offset.saturating_add(line.len());
        }
        Ok(())
    }
}

/// Which payload is meant, unless it begins with the first byte.
fn add_payload(payload: usize, page: &mut Page) -> Result<(), Memory> {
    if payload == 0 {
        return Ok(());
    }
    page.fill_of(b" of the payload at #", b"", payload as u64)
}

/// A refusal: its number, its name and its place.
fn add_refusal(number: u8, at: u64, page: &mut Page) -> Result<(), Memory> {
    let name = refusal_name(number).unwrap_or(b"");
    page.fill_of(b"refused # @ ", name, u64::from(number))?;
    if number < FIRST_OF_RULES {
        page.fill_of(b"at #", b"", at)
    } else {
        page.fill_of(b"at step #", b"", at)
    }
}

/// The words of a verdict.
fn add_verdict(verdict: Verdict, page: &mut Page) -> Result<(), Memory> {
    match verdict {
        Verdict::Whole => page.add(b"whole"),
        Verdict::Refused {
            payload,
            number,
            at,
        } => {
            add_refusal(number, at, page)?;
            add_payload(payload, page)
        }
        Verdict::NoRefusal { payload } => {
            page.add(b"no refusal")?;
            add_payload(payload, page)
        }
        Verdict::TooLong { payload } => {
            page.add(b"too long")?;
            add_payload(payload, page)
        }
        Verdict::BadFrame { at } => page.fill_of(b"bad frame at #", b"", at as u64),
        Verdict::CutFrame { at } => page.fill_of(b"cut frame at #", b"", at as u64),
        Verdict::NoJournal => page.add(b"no journal"),
        Verdict::BadRecord { at } => page.fill_of(b"bad record at #", b"", at as u64),
    }
}

/// The lines of the pieces, and a last one with the verdict. A line has an offset, at most 16 bytes in hexadecimal, and what
/// they are; a longer piece goes on in further lines. A piece beyond the bytes has no line.
pub fn dump_text(alloc: Global, bytes: &[u8], dump: &Dump) -> Result<Word, Memory> {
    let last = bytes.len();
    let last = format!(in alloc; "{last}")?;
    let mut listing = Listing {
        alloc,
        page: Page::new(alloc),
        columns: last.len(),
    };
    for piece in dump.pieces.as_slice() {
        if let Some(part) = bytes.get(piece.start..piece.end) {
            listing.piece(piece, part)?;
        }
    }
    let mut page = listing.page;
    add_verdict(dump.verdict, &mut page)?;
    page.add(b"\n")?;
    Ok(page.into_word())
}
