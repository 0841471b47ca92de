// A link to a server in the same process.

ghost use Rattle.std.specs.Prelude.{◌≡◌, ◌≤◌, length, IfOk, OnOk, OnErr};
ghost use Rattle.rb_meaning.specs.Answers.{longest_request};
ghost use Rattle.rb_session.specs.Answering.{IsTypedHost, AnswersOn};
ghost use Rattle.rb_session.specs.Exchanges.{all_told, OneMore};
ghost use Rattle.rb_session.specs.MemoryLinks.{new_link, Exchanges};

use crate::answers::answer;
use crate::exchanges::{Exchange, pair_of};
use bytes::BytesMut;
use rb_base::{Link, LinkStop, Reply};
use rb_exec::Host;
use rb_heap::Heap;
use rb_trees::Memory;
use std::alloc::Global;
use std::marker::Model;

/// A link to a host of its own, which answers each request at once.
///
/// It tells all that it holds: the pairs so far, the host's service and table, and that no exchange fails. It keeps the
/// table that it began with, and no other: which tables its requests found and left follows from that one and from the pairs.
/// No exchange answers a fault, and no reply breaks off; the link is honest until an exchange is wanting memory. From then on
/// each exchange answers that, and changes nothing. Nobody else reaches the host, so it is always quiet.
#[derive(Drop)]
pub struct MemoryLink {
    host: Host,
    first: Heap,
    pairs: Vec<Exchange>,
    made: u64,
    /// Whether an exchange was wanting memory.
    spent: bool,
}

impl Model for MemoryLink {
    ghost use Rattle.std.specs.Prelude.{◌≡◌, false};
    ghost use Rattle.rb_session.specs.Exchanges.{all_told};
    ghost use Rattle.rb_session.specs.Codes.{link_code};
    ghost use Rattle.rb_session.specs.MemoryLinks.{LinkInMemory, StandsBehind};

    ghost Value = { LinkInMemory };

    ghost coded = { link_code };

    ghost view = { λ it. record {
      host = it.host;
      first = it.first;
      pairs = all_told it.pairs.items;
      made = it.made;
      spent = it.spent;
    } };

    ghost invariant = { λ it. it.spent ≡ false → StandsBehind it.host it.first (all_told it.pairs.items) };
}

impl MemoryLink {
    /// A link to a host, over which nothing was exchanged yet.
    pub fn make(alloc: Global, host: Host) -> Result<MemoryLink, Memory>
        requires { IsTypedHost host }
        ensures { IfOk result (λ link. link ≡ new_link host) }
    {
        let first = host.table().copy(alloc)?;
        Ok(MemoryLink {
            host,
            first,
            pairs: Vec::new(alloc),
            made: 0,
            spent: false,
        })
    }

    /// The host.
    pub fn host(&self) -> &Host
        ensures { result.now ≡ self.now.host }
    {
        &self.host
    }

    /// The table that the link began with.
    pub fn first_table(&self) -> &Heap
        ensures { result.now ≡ self.now.first }
    {
        &self.first
    }

    /// Whether an exchange was wanting memory.
    pub(crate) fn is_spent(&self) -> bool
        ensures { result ≡ self.now.spent }
    {
        self.spent
    }

    /// The exchanges so far, in order.
    pub fn pairs(&self) -> &[Exchange]
        ensures { all_told result.now ≡ self.now.pairs }
    {
        self.pairs.as_slice()
    }
}

// Has the host answer a request, and keeps a copy of both.
fn carry(host: &mut Host, pairs: &mut Vec<Exchange>, request: &[u8]) -> Result<Reply, Memory>
    requires size { length request.now ≤ longest_request }
    requires typed { IsTypedHost host.old }
    ensures answers { IfOk result (λ reply. AnswersOn host.old request.now reply.kind reply.payload.items host.new) }
    ensures pair { IfOk result (OneMore request.now pairs.old.items pairs.new.items) }
    ensures typed { OnOk result (IsTypedHost host.new) }
    ensures service { host.new.service ≡ host.old.service }
    ensures unchanged { OnErr result (pairs.new.items ≡ pairs.old.items) }
{
    let alloc = *pairs.allocator();
    let mut payload = BytesMut::new(alloc);
    let kind = answer(alloc, host, request, &mut payload)?;
    pairs.push(pair_of(alloc, request, kind, payload.as_slice())?)?;
    Ok(Reply { kind, payload })
}

impl Link for MemoryLink {
    ghost use Rattle.std.specs.Prelude.{Some, true};
    ghost use Rattle.rb_session.specs.MemoryLinks.{told_of, IsHonest};

    ghost told = { λ it. Some (told_of it) };

    ghost faults = { λ it. 0 };

    ghost lends = { λ it. true };

    ghost honest = { IsHonest };

    ghost quiet = { λ it. Unit {0} };

    fn exchange(&mut self, request: &[u8]) -> Result<Reply, LinkStop>
        requires { length request.now ≤ longest_request }
        ensures { Exchanges request.now self.old result self.new }
    {
        if self.spent {
            return Err(LinkStop::Memory);
        }
        self.spent = true;
        self.made = self.made.saturating_add(1);
        let reply = carry(&mut self.host, &mut self.pairs, request)?;
        self.spent = false;
        Ok(reply)
    }

    fn table(&self) -> Option<&Heap> {
        Some(self.host.table())
    }

    ghost honest_tells = { λ l h. h.typed };
}
