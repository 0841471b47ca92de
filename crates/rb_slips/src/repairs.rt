// The one change after which a text is read furthest.

use crate::candidates::{Candidate, MISSING, MISSING_LAST, MISSING_OPERATOR, MISSING_PARTS};
use crate::tries::{Reach, Tries};
use rb_trees::Memory;

/// A change of a text at a place.
#[derive(Clone, Copy)]
pub enum Change {
    /// This sign or word is put before what stands there.
    Put(&'static [u8]),
    /// A part of this kind is put before what stands there.
    PutPart(&'static [u8]),
    /// What stands there is taken away.
    Take,
    /// This sign or word is put in place of what stands there.
    Swap(&'static [u8]),
}

/// The best change so far, and how far the text is read after it.
#[derive(Clone, Copy)]
struct Best {
    reach: Reach,
    change: Option<Change>,
}

impl Best {
    /// Whether the whole text is read after it, so that no other change is better.
    fn is_whole(self) -> bool {
        matches!(self.reach, Reach::Whole)
    }

    /// The better one of it and another change.
    fn or(self, reach: Reach, change: Change) -> Best {
        if reach.is_beyond(self.reach) {
            Best {
                reach,
                change: Some(change),
            }
        } else {
            self
        }
    }
}

/// The best after a sign or word that is put before what stands there.
fn with_sign(tries: &Tries<'_>, candidates: &[Candidate], before: Best) -> Result<Best, Memory> {
    let mut best = before;
    for (kind, text) in candidates {
        if best.is_whole() {
            return Ok(best);
        }
        best = best.or(tries.with(&[*kind], 0)?, Change::Put(text));
    }
    Ok(best)
}

/// The best after a sign or word that is put in place of what stands there.
fn with_other_sign(tries: &Tries<'_>, before: Best) -> Result<Best, Memory> {
    let mut best = before;
    for (kind, text) in &MISSING {
        if best.is_whole() {
            return Ok(best);
        }
        best = best.or(tries.with(&[*kind], 1)?, Change::Swap(text));
    }
    Ok(best)
}

/// The best after a part that is put before what stands there.
fn with_part(tries: &Tries<'_>, candidates: &[Candidate], before: Best) -> Result<Best, Memory> {
    let mut best = before;
    for (kind, text) in candidates {
        if best.is_whole() {
            return Ok(best);
        }
        best = best.or(tries.with(&[*kind], 0)?, Change::PutPart(text));
    }
    Ok(best)
}

/// The change at a place after which the text is read furthest, where one lets it be read beyond the token behind that
/// place.
pub fn repair(tries: &Tries<'_>) -> Result<Option<Change>, Memory> {
    let nothing = Best {
        reach: Reach::Place(tries.next_start()),
        change: None,
    };
    let best = with_sign(tries, &MISSING, nothing)?;
    let best = with_part(tries, &MISSING_OPERATOR, best)?;
    let best = best.or(tries.with(&[], 1)?, Change::Take);
    let best = with_part(tries, &MISSING_PARTS, best)?;
    let best = with_sign(tries, &MISSING_LAST, best)?;
    Ok(with_other_sign(tries, best)?.change)
}
