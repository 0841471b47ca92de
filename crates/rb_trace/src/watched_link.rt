// A link whose exchanges are watched.

ghost use Rattle.std.specs.Prelude.{◌≡◌};

use crate::watches::Watch;
use rb_base::{Link, LinkStop, Reply};
use rb_heap::Heap;
use std::marker::Model;

/// Another link, whose exchanges are watched.
///
/// Each exchange is one of the other link, with the same request and the same answer. Contracts see the other link: this one
/// tells what that one tells, fails where that one fails, lends what that one lends, and is honest or quiet where that one is.
#[derive(Drop)]
pub struct WatchedLink<'w, L, W> {
    link: L,
    watch: &'w W,
    /// How many exchanges were begun. The count stands still at the end of a `u64`.
    begun: u64,
}

impl<'w, L, W> Model for WatchedLink<'w, L, W> {
    ghost Value = { L };

    ghost view = { λ it. it.link };
}

impl<'w, L, W> WatchedLink<'w, L, W> {
    /// This link, over which the watch saw no exchange so far.
    pub fn over(link: L, watch: &'w W) -> WatchedLink<'w, L, W>
        ensures { result ≡ link }
    {
        WatchedLink {
            link,
            watch,
            begun: 0,
        }
    }

    /// The other link.
    pub fn into_inner(self) -> L
        ensures { result ≡ self.entry }
    {
        self.link
    }
}

impl<L: Link, W: Watch> Link for WatchedLink<'_, L, W> {
    ghost told = { L.told };

    ghost faults = { L.faults };

    ghost lends = { L.lends };

    ghost honest = { L.honest };

    ghost quiet = { L.quiet };

    /// Exchanges over the other link. The watch sees the request before that, and the answer after it.
    fn exchange(&mut self, request: &[u8]) -> Result<Reply, LinkStop> {
        self.begun = self.begun.saturating_add(1);
        let began = self.watch.before(self.begun, request);
        let answer = self.link.exchange(request);
        self.watch.after(began, &answer);
        answer
    }

    fn table(&self) -> Option<&Heap> {
        self.link.table()
    }

    ghost honest_tells = { L.honest_tells };
}
