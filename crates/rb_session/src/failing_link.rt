// A link to a server in the same process, of which chosen exchanges fail.

ghost use Rattle.std.specs.Prelude.{◌≡◌, ◌≤◌, length, IfOk};
ghost use Rattle.rb_meaning.specs.Answers.{longest_request};
ghost use Rattle.rb_session.specs.Answering.{IsTypedHost};
ghost use Rattle.rb_session.specs.Exchanges.{all_told};
ghost use Rattle.rb_session.specs.FailingLinks.{new_failing, ExchangesUnlessListed};

use crate::exchanges::Exchange;
use crate::memory_link::MemoryLink;
use rb_base::{Link, LinkStop, Reply};
use rb_exec::Host;
use rb_heap::Heap;
use rb_trees::{Memory, Seq};
use std::alloc::Global;
use std::marker::Model;

/// A link to a host of its own, of which chosen exchanges fail.
///
/// It is a [`MemoryLink`] with one difference: an exchange whose number is listed counts a fault, answers `Failed` and does
/// nothing else, so its request reaches no host. It tells all that it holds: the pairs so far, the host's service and table,
/// the number of exchanges, and the list. It is honest until an exchange was wanting memory. From then on each exchange
/// answers that, and changes nothing. It is always quiet.
#[derive(Drop)]
pub struct FailingLink {
    link: MemoryLink,
    made: u64,
    failing: Seq<u64>,
    faults: u64,
}

impl Model for FailingLink {
    ghost use Rattle.rb_session.specs.Codes.{failing_code};
    ghost use Rattle.rb_session.specs.FailingLinks.{FailingInMemory};

    ghost Value = { FailingInMemory };

    ghost coded = { failing_code };

    ghost view = { λ it. record {
      link = it.link;
      made = it.made;
      failing = it.failing;
      faults = it.faults;
    } };
}

impl FailingLink {
    /// A link to a host, over which nothing was exchanged yet. The exchanges whose numbers, counted from 1, are in `failing`
    /// will fail.
    pub fn make(alloc: Global, host: Host, failing: Seq<u64>) -> Result<FailingLink, Memory>
        requires { IsTypedHost host }
        ensures { IfOk result (λ link. link ≡ new_failing host failing) }
    {
        Ok(FailingLink {
            link: MemoryLink::make(alloc, host)?,
            made: 0,
            failing,
            faults: 0,
        })
    }

    /// The host.
    pub fn host(&self) -> &Host
        ensures { result.now ≡ self.now.link.host }
    {
        self.link.host()
    }

    /// The table that the link began with.
    pub fn first_table(&self) -> &Heap
        ensures { result.now ≡ self.now.link.first }
    {
        self.link.first_table()
    }

    /// The exchanges so far that were answered, in order.
    pub fn pairs(&self) -> &[Exchange]
        ensures { all_told result.now ≡ self.now.link.pairs }
    {
        self.link.pairs()
    }

    /// How many exchanges failed.
    pub fn faults(&self) -> u64
        ensures { result ≡ self.now.faults }
    {
        self.faults
    }
}

impl Link for FailingLink {
    ghost use Rattle.std.specs.Prelude.{Some, true};
    ghost use Rattle.rb_session.specs.MemoryLinks.{IsHonest};
    ghost use Rattle.rb_session.specs.FailingLinks.{told_of_failing};

    ghost told = { λ it. Some (told_of_failing it) };

    ghost faults = { λ it. it.faults };

    ghost lends = { λ it. true };

    ghost honest = { λ it. IsHonest it.link };

    ghost quiet = { λ it. Unit {0} };

    fn exchange(&mut self, request: &[u8]) -> Result<Reply, LinkStop>
        requires { length request.now ≤ longest_request }
        ensures { ExchangesUnlessListed request.now self.old result self.new }
    {
        if self.link.is_spent() {
            return Err(LinkStop::Memory);
        }
        self.made = self.made.saturating_add(1);
        if self.failing.as_slice().contains(&self.made) {
            self.faults = self.faults.saturating_add(1);
            return Err(LinkStop::Failed);
        }
        self.link.exchange(request)
    }

    fn table(&self) -> Option<&Heap> {
        self.link.table()
    }

    ghost honest_tells = { λ l h. h.typed };
}
