// A Dial whose links are watched.

ghost use Rattle.std.specs.Prelude.{◌≡◌};

use crate::watched_link::WatchedLink;
use crate::watches::Watch;
use rb_session::{Dial, DialStop, MemoryLink, Target};
use rb_trees::Memory;
use std::marker::Model;

/// Another Dial, each of whose links is watched by the same watch.
///
/// Each call is one of the other Dial, with the same answer but that a link is given as a [`WatchedLink`] around it. Contracts
/// see the other Dial: this one tells what that one tells, and counts what that one counts.
#[derive(Drop)]
pub struct WatchedDial<'w, D, W> {
    dial: D,
    watch: &'w W,
}

impl<'w, D, W> Model for WatchedDial<'w, D, W> {
    ghost Value = { D };

    ghost view = { λ it. it.dial };
}

impl<'w, D, W> WatchedDial<'w, D, W> {
    /// This Dial, whose links are watched from now on.
    pub fn over(dial: D, watch: &'w W) -> WatchedDial<'w, D, W>
        ensures { result ≡ dial }
    {
        WatchedDial { dial, watch }
    }

    /// The other Dial.
    pub fn into_inner(self) -> D
        ensures { result ≡ self.entry }
    {
        self.dial
    }
}

impl<'w, D: Dial, W: Watch> Dial for WatchedDial<'w, D, W> {
    type L = WatchedLink<'w, D::L, W>;

    ghost told = { D.told };

    ghost faults = { D.faults };

    ghost broken = { D.broken };

    /// Dials by the other Dial.
    fn dial(&mut self, target: &Target) -> Result<WatchedLink<'w, D::L, W>, DialStop> {
        let link = self.dial.dial(target)?;
        Ok(WatchedLink::over(link, self.watch))
    }

    /// The link becomes one of the other Dial's.
    fn around(&mut self, link: MemoryLink) -> Result<WatchedLink<'w, D::L, W>, Memory> {
        let link = self.dial.around(link)?;
        Ok(WatchedLink::over(link, self.watch))
    }

    /// Gives the link back to the other Dial.
    fn back(&mut self, link: WatchedLink<'w, D::L, W>) {
        self.dial.back(link.into_inner());
    }
}
