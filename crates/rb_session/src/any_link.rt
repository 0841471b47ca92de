// A dialled link, or a link to a server in the same process.

use crate::memory_link::MemoryLink;
use rb_base::{Link, LinkStop, Reply};
use rb_heap::Heap;

/// A link of one of two kinds, which passes each exchange on to the link that it holds.
///
/// It tells what that link tells, fails where that one fails, and is honest or quiet where that one is. It lends a table only where it
/// holds a link in memory: whoever dialled a server has no table of it.
#[derive(Drop)]
pub enum AnyLink<X> {
    /// A link that was dialled.
    Dialled(X),
    /// A link to a server in the same process.
    Around(MemoryLink),
}

impl<X: Link> Link for AnyLink<X> {
    ghost use Rattle.rb_session.specs.AnyLinks.{told_by_any, faults_of_any, lends_any, IsHonestAny, IsQuietAny};

    ghost told = { told_by_any X.told };

    ghost faults = { faults_of_any X.faults };

    ghost lends = { lends_any };

    ghost honest = { IsHonestAny X.honest };

    ghost quiet = { IsQuietAny X.quiet };

    fn exchange(&mut self, request: &[u8]) -> Result<Reply, LinkStop> {
        match self {
            AnyLink::Dialled(link) => link.exchange(request),
            AnyLink::Around(link) => link.exchange(request),
        }
    }

    fn table(&self) -> Option<&Heap> {
        match self {
            AnyLink::Dialled(_) => None,
            AnyLink::Around(link) => link.table(),
        }
    }

    ghost use Rattle.rb_session.specs.AnyLinks as any;

    ghost honest_tells = { any.honest_tells X.told X.honest X.honest_tells };
}
