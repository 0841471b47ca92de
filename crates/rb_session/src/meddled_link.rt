// A link to a server in the same process, whose table others change.

ghost use Rattle.std.specs.Prelude.{◌≡◌, ◌≤◌, ◌∷◌, [], ◌++◌, drop, length, IfOk, OnOk, OnErr};
ghost use Rattle.rb_meaning.specs.Answers.{longest_request};
ghost use Rattle.rb_meaning.specs.Changes.{AllBounded};
ghost use Rattle.rb_session.specs.Answering.{IsTypedHost};
ghost use Rattle.rb_session.specs.Exchanges.{all_told, OneMore};
ghost use Rattle.rb_session.specs.MeddledLinks.{new_meddled, host_changed, host_found, AnswersTyped, ExchangesMeddled};

use crate::answers::answer;
use crate::exchanges::{Exchange, pair_of};
use bytes::BytesMut;
use rb_base::{Link, LinkStop, Reply};
use rb_changes::changes_keep_tables_fitting;
use rb_exec::Host;
use rb_heap::Heap;
use rb_trees::{Change, Memory, Seq};
use std::alloc::Global;
use std::marker::Model;

/// What a link keeps of its exchanges: the pairs, and the tables that their requests found and left.
#[derive(Drop)]
struct Kept {
    pairs: Vec<Exchange>,
    found: Vec<Heap>,
    left: Vec<Heap>,
}

/// A link to a host of its own, whose table others change.
///
/// Whoever makes it says what the others do: before the first exchange they make the first list of changes, before the second
/// one the second, and so on. When no list is left they do nothing more. A change is `changed`, so one that doesn't suit the
/// table is skipped. The host answers each request on the table that the changes left.
///
/// The link tells all that it holds: the pairs so far, the tables that their requests found and left, of which it keeps copies,
/// the host's service and table, and that no exchange fails. No exchange answers a fault, and no reply breaks off; the link is
/// honest until an exchange is wanting memory. From then on each exchange answers that, and changes nothing. It is never quiet as
/// far as it tells.
#[derive(Drop)]
pub struct MeddledLink {
    host: Host,
    /// Those changes that were made are among them still.
    others: Seq<Seq<Change>>,
    kept: Kept,
    made: u64,
    /// Whether an exchange was wanting memory.
    spent: bool,
}

impl Model for MeddledLink {
    ghost use Rattle.std.specs.Prelude.{◌≡◌, drop, false, length};
    ghost use Rattle.rb_meaning.specs.Changes.{AllBounded};
    ghost use Rattle.rb_session.specs.Answering.{IsTypedHost};
    ghost use Rattle.rb_session.specs.Exchanges.{all_told};
    ghost use Rattle.rb_session.specs.Codes.{meddled_code};
    ghost use Rattle.rb_session.specs.MeddledLinks.{MeddledInMemory};

    ghost Value = { MeddledInMemory };

    ghost coded = { meddled_code };

    ghost view = { λ it. record {
      host = it.host;
      others = drop (length it.kept.pairs.items) it.others;
      pairs = all_told it.kept.pairs.items;
      found = it.kept.found.items;
      left = it.kept.left.items;
      made = it.made;
      spent = it.spent;
    } };

    ghost invariant = { λ it. AllBounded it.others × (it.spent ≡ false → IsTypedHost it.host) };
}

impl MeddledLink {
    /// A link to a host, over which nothing was exchanged yet, and to which others will do this before each exchange.
    pub fn make(alloc: Global, host: Host, others: Seq<Seq<Change>>) -> MeddledLink
        requires typed { IsTypedHost host }
        requires bounded { AllBounded others }
        ensures { result ≡ new_meddled host others }
    {
        MeddledLink {
            host,
            others,
            kept: Kept {
                pairs: Vec::new(alloc),
                found: Vec::new(alloc),
                left: Vec::new(alloc),
            },
            made: 0,
            spent: false,
        }
    }

    /// The host.
    pub fn host(&self) -> &Host
        ensures { result.now ≡ self.now.host }
    {
        &self.host
    }

    /// The exchanges so far, in order.
    pub fn pairs(&self) -> &[Exchange]
        ensures { all_told result.now ≡ self.now.pairs }
    {
        self.kept.pairs.as_slice()
    }

    /// The tables that their requests found.
    pub fn found_tables(&self) -> &[Heap]
        ensures { result.now ≡ self.now.found }
    {
        self.kept.found.as_slice()
    }

    /// The tables that their requests left.
    pub fn left_tables(&self) -> &[Heap]
        ensures { result.now ≡ self.now.left }
    {
        self.kept.left.as_slice()
    }
}

// Makes changes of a host's table, in order.
fn change_all(alloc: Global, host: &mut Host, changes: &[Change]) -> Result<(), Memory>
    ensures changed { OnOk result (host.new ≡ host_changed changes.now host.old) }
    ensures service { host.new.service ≡ host.old.service }
{
    'changes: for change in changes {
        host.change(alloc, change)?;
    }
    Ok(())
}

// Does to a host what others do after so many exchanges.
fn meddle(
    alloc: Global,
    host: &mut Host,
    others: &Seq<Seq<Change>>,
    exchanges: usize,
) -> Result<(), Memory>
    requires typed { IsTypedHost host.old }
    requires bounded { AllBounded others.now }
    ensures found { OnOk result (host.new ≡ host_found (drop exchanges others.now) host.old) }
    ensures typed { OnOk result (IsTypedHost host.new) }
    ensures service { host.new.service ≡ host.old.service }
{
    changes_keep_tables_fitting();
    match others.get(exchanges) {
        Some(changes) => change_all(alloc, host, changes.as_slice()),
        None => Ok(()),
    }
}

// Has the host answer a request, and keeps copies of the request, of the reply, and of the tables before and after. The pair is
// kept last, so that there is none after want of memory.
fn carry(host: &mut Host, kept: &mut Kept, request: &[u8]) -> Result<Reply, Memory>
    requires size { length request.now ≤ longest_request }
    requires typed { IsTypedHost host.old }
    ensures answers { IfOk result (λ reply. AnswersTyped request.now host.old reply host.new) }
    ensures pair { IfOk result (OneMore request.now kept.old.pairs.items kept.new.pairs.items) }
    ensures found { OnOk result (kept.new.found.items ≡ kept.old.found.items ++ host.old.table ∷ []) }
    ensures left { OnOk result (kept.new.left.items ≡ kept.old.left.items ++ host.new.table ∷ []) }
    ensures service { host.new.service ≡ host.old.service }
    ensures unchanged { OnErr result (kept.new.pairs.items ≡ kept.old.pairs.items) }
{
    let alloc = *kept.pairs.allocator();
    kept.found.push(host.table().copy(alloc)?)?;
    let mut payload = BytesMut::new(alloc);
    let kind = answer(alloc, host, request, &mut payload)?;
    kept.left.push(host.table().copy(alloc)?)?;
    kept.pairs
        .push(pair_of(alloc, request, kind, payload.as_slice())?)?;
    Ok(Reply { kind, payload })
}

impl Link for MeddledLink {
    ghost use Rattle.std.specs.Prelude.{Some, true};
    ghost use Rattle.rb_session.specs.MeddledLinks.{told_of_meddled, IsHonestMeddled};

    ghost told = { λ it. Some (told_of_meddled it) };

    ghost faults = { λ it. 0 };

    ghost lends = { λ it. true };

    ghost honest = { IsHonestMeddled };

    ghost quiet = { λ it. ⊥ };

    fn exchange(&mut self, request: &[u8]) -> Result<Reply, LinkStop>
        requires { length request.now ≤ longest_request }
        ensures { ExchangesMeddled request.now self.old result self.new }
    {
        if self.spent {
            return Err(LinkStop::Memory);
        }
        self.spent = true;
        self.made = self.made.saturating_add(1);
        let alloc = *self.kept.pairs.allocator();
        let exchanges = self.kept.pairs.len();
        meddle(alloc, &mut self.host, &self.others, exchanges)?;
        let reply = carry(&mut self.host, &mut self.kept, request)?;
        self.spent = false;
        Ok(reply)
    }

    fn table(&self) -> Option<&Heap> {
        Some(self.host.table())
    }

    ghost honest_tells = { λ l h. h.typed };
}
