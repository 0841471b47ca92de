// Dials in memory.

ghost use Rattle.std.specs.Prelude.{◌≡◌, ◌<◌, IfOk, OnOk, OnErr, length, slice_index_or};
ghost use Rattle.rb_session.specs.MemoryDials.{new_dial, with_link, with_one_out, without_place, IsNext};

use crate::any_link::AnyLink;
use crate::dials::{Dial, DialStop};
use crate::memory_link::MemoryLink;
use crate::places::place_of;
use crate::targets::Target;
use rb_base::Link;
use rb_trees::{Memory, Seq};
use std::alloc::Global;
use std::marker::Model;

/// A Dial that hands out the links that were added to it, and of which chosen dials fail.
///
/// Whoever makes it adds links, each under its target, and then lends it to the code that dials. It tells all that it holds: the
/// links that wait, the number of dials so far and the numbers of those that fail, how many links are out, and the links that
/// came back. A dial takes the first link that waits under its target, and fails where none does or it is listed.
#[derive(Drop)]
pub struct MemoryDial<X: Link> {
    /// None of their exchanges failed.
    waiting: Vec<(Target, X)>,
    made: u64,
    failing: Seq<u64>,
    faults: u64,
    out: usize,
    /// There is room for each link that is out.
    back: Vec<AnyLink<X>>,
}

impl<X: Link> Model for MemoryDial<X> {
    ghost use Rattle.std.specs.Prelude.{◌≡◌, ◌≤◌, ◌+◌, vec_len, vec_capacity};
    ghost use Rattle.rb_session.specs.DialCodes.{dial_code};
    ghost use Rattle.rb_session.specs.MemoryDials.{AreWhole, DialInMemory};

    ghost Value = { DialInMemory X };

    ghost coded = { dial_code X.code };

    ghost view = { λ it. record {
      waiting = it.waiting.items;
      made = it.made;
      failing = it.failing;
      faults = it.faults;
      out = it.out;
      back = it.back.items;
    } };

    ghost invariant = { λ it. (vec_len it.back + it.out ≤ vec_capacity it.back) × AreWhole X.faults it.waiting.items };
}

impl<X: Link> MemoryDial<X> {
    /// No link yet. The dials whose numbers, counted from 1, are in `failing` will fail.
    pub fn make(alloc: Global, failing: Seq<u64>) -> MemoryDial<X>
        ensures { result ≡ new_dial failing }
    {
        MemoryDial {
            waiting: Vec::new(alloc),
            made: 0,
            failing,
            faults: 0,
            out: 0,
            back: Vec::new(alloc),
        }
    }

    /// The links that came back, in order.
    pub fn came_back(&self) -> &[AnyLink<X>]
        ensures { result.now ≡ self.now.back }
    {
        self.back.as_slice()
    }

    // The place of the link that the next dial takes, or None where it takes none.
    fn next_place(&self, target: &Target) -> Option<usize>
        ensures { IsNext self.now target.now result }
    {
        let number = self.made.saturating_add(1);
        if self.failing.as_slice().contains(&number) {
            return None;
        }
        place_of(self.waiting.as_slice(), target)
    }

    // Takes out the link that waits at a place.
    fn take(&mut self, place: usize) -> X
        requires { place < length self.old.waiting }
        ensures rest { self.new ≡ without_place self.old place }
        ensures link { (d : Target × X) → result ≡ (slice_index_or self.old.waiting place d).1 }
        ensures whole { X.faults result ≡ 0 }
    {
        let (_, link) = self.waiting.remove(place);
        link
    }

    // Counts a link that goes out, and makes room for it to come back.
    fn let_out(&mut self) -> Result<(), Memory>
        ensures ok { OnOk result (self.new ≡ with_one_out self.old) }
        ensures err { OnErr result (self.new ≡ self.old) }
    {
        let Some(out) = self.out.checked_add(1) else {
            return Err(Memory);
        };
        self.back.reserve(out)?;
        self.out = out;
        Ok(())
    }
}

impl<X: Link + Drop> MemoryDial<X> {
    /// Adds a link under a target, after the others. None of its exchanges may have failed. After an error nothing changed, but
    /// that the link is gone.
    pub fn add(&mut self, target: Target, link: X) -> Result<(), Memory>
        requires { X.faults link ≡ 0 }
        ensures ok { OnOk result (self.new ≡ with_link self.old target link) }
        ensures err { OnErr result (self.new ≡ self.old) }
    {
        self.waiting.push((target, link))?;
        Ok(())
    }
}

impl<X: Link> Dial for MemoryDial<X> {
    ghost use Rattle.std.specs.Prelude.{Some};
    ghost use Rattle.rb_session.specs.AnyLinks.{faults_of_any};
    ghost use Rattle.rb_session.specs.MemoryDials.{dialling_of, broken_among};

    type L = AnyLink<X>;

    ghost told = { λ it. Some (dialling_of it) };

    ghost faults = { λ it. it.faults };

    ghost broken = { λ it. broken_among (faults_of_any X.faults) it.back };

    /// Fails exactly where the dial's number is listed or no link waits under the target, unless memory is wanting.
    fn dial(&mut self, target: &Target) -> Result<AnyLink<X>, DialStop> {
        let next = self.next_place(target);
        self.made = self.made.saturating_add(1);
        let Some(place) = next else {
            self.faults = self.faults.saturating_add(1);
            return Err(DialStop::Failed);
        };
        self.let_out()?;
        Ok(AnyLink::Dialled(self.take(place)))
    }

    fn around(&mut self, link: MemoryLink) -> Result<AnyLink<X>, Memory> {
        self.let_out()?;
        Ok(AnyLink::Around(link))
    }

    fn back(&mut self, link: AnyLink<X>) {
        self.out -= 1;
        self.back.push_reserved(link);
    }
}
