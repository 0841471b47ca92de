// A link to a host through a session of a hub, which others use too.

ghost use Rattle.std.specs.Prelude.{◌≡◌, ◌<◌, ◌≤◌, ◌∷◌, [], ◌++◌, List, ℕ, length, IfOk, IfErr, OnOk, OnErr};
ghost use Rattle.rb_trees.specs.mirror.Services.{mirror_service};
ghost use Rattle.rb_meaning.specs.Answers.{longest_request};
ghost use Rattle.rb_meaning.specs.Links.{IsTyped};
ghost use Rattle.rb_meaning_frames.specs.Streams.{most_requests};
ghost use Rattle.rb_meaning_frames.specs.Histories.{Open, Track, after};
ghost use Rattle.rb_session.specs.Answering.{IsTypedHost};
ghost use Rattle.rb_session.specs.Exchanges.{all_told, pair_told, OneMore};
ghost use Rattle.rb_hub.specs.Hubs.{refusal_of};
ghost use Rattle.rb_hub.specs.Standing.{Stands};
ghost use Rattle.rb_hub.specs.HubLinks.{new_hub_link, own_piece, Owns, Replies, ExchangesInHub, IsHonestHub};
ghost use Rattle.rb_hub.specs.LinkStops.{refusal_said, GivesBack};

use crate::asking::{ask, events_after, play_others};
use crate::events::{Event, HubRefusal, HubStop};
use crate::hubs::Hub;
use crate::runs::each_step_goes_on;
use rb_base::{Link, LinkStop, Reply};
use rb_exec::Host;
use rb_heap::Heap;
use rb_meaning_frames::streams_are_read;
use rb_session::Exchange;
use rb_trees::{Memory, Seq};
use std::alloc::Global;
use std::marker::Model;

/// How many exchanges a link may have: as many as its session may have requests.
const MOST_EXCHANGES: u64 = 1 << 32;

/// What a link keeps of its exchanges: the pairs, and the tables that their requests found and left.
#[derive(Drop)]
struct Kept {
    pairs: Vec<Exchange>,
    found: Vec<Heap>,
    left: Vec<Heap>,
}

/// Why there is no link.
#[derive(Drop)]
pub enum HubLinkStop {
    /// The hub opens no session, and is given back as it was.
    Refused(HubRefusal, Hub<Host>),
    Memory,
}

/// A link to the host of a hub, through a session of its own there.
///
/// Whoever makes it says what others do with the hub: before the first exchange the events of the first list are played, before the
/// second one those of the second, and so on. An event that names the link's own session is skipped, and one that the hub refuses
/// does nothing. Then the frame of the request is played as a piece of the link's session, and the reply is what comes out.
///
/// The link tells all that it holds: the pairs so far, the tables that their requests found and left, of which it keeps copies, the
/// host's service and table, and that no exchange fails. No exchange answers a fault, and no reply breaks off; the link is honest
/// until an exchange is wanting memory. From then on, and after as many exchanges as a session may have requests, each exchange
/// answers that, and changes nothing. It is never quiet as far as it tells.
#[derive(Drop)]
pub struct HubLink {
    hub: Hub<Host>,
    number: u32,
    /// Those that were played are among them still.
    others: Seq<Seq<Event>>,
    kept: Kept,
    made: u64,
    /// Whether an exchange was wanting memory.
    spent: bool,
}

impl Model for HubLink {
    ghost use Rattle.std.specs.Prelude.{◌≡◌, drop, false, length};
    ghost use Rattle.rb_session.specs.Exchanges.{all_told};
    ghost use Rattle.rb_hub.specs.LinkCodes.{hub_link_code};
    ghost use Rattle.rb_hub.specs.HubLinks.{HubLinkSeen, Owns, requests_in};

    ghost Value = { HubLinkSeen };

    ghost coded = { hub_link_code };

    ghost view = { λ it. record {
      hub = it.hub;
      number = it.number;
      others = drop (length it.kept.pairs.items) it.others;
      pairs = all_told it.kept.pairs.items;
      found = it.kept.found.items;
      left = it.kept.left.items;
      made = it.made;
      spent = it.spent;
    } };

    ghost invariant = { λ it. it.spent ≡ false → Owns it.number (requests_in (all_told it.kept.pairs.items)) it.hub };
}

impl HubLink {
    /// Opens a session in a hub for a link, over which nothing was exchanged yet, and says what others will do before each exchange.
    pub fn make(
        alloc: Global,
        hub: Hub<Host>,
        others: Seq<Seq<Event>>,
    ) -> Result<HubLink, HubLinkStop>
        ensures made { IfOk result (λ link. link ≡ new_hub_link hub others) }
        ensures honest { IfOk result IsHonestHub }
        ensures refused { refusal_said result ≡ refusal_of hub Open }
        ensures back { IfErr result (GivesBack hub) }
    {
        hub.stands_somewhere();
        each_step_goes_on::<Host>();
        let opened = hub.opened();
        let mut hub = hub;
        let mut outs = Seq::new(alloc);
        match hub.step(alloc, Event::Open, &mut outs) {
            Ok(()) => {}
            Err(HubStop::Refused(refusal)) => return Err(HubLinkStop::Refused(refusal, hub)),
            Err(_) => return Err(HubLinkStop::Memory),
        }
        Ok(HubLink {
            hub,
            number: opened as u32,
            others,
            kept: Kept {
                pairs: Vec::new(alloc),
                found: Vec::new(alloc),
                left: Vec::new(alloc),
            },
            made: 0,
            spent: false,
        })
    }

    /// The hub.
    pub fn hub(&self) -> &Hub<Host>
        ensures { result.now ≡ self.now.hub }
    {
        &self.hub
    }

    /// The number of the link's session in the hub.
    pub fn number(&self) -> u32
        ensures { result ≡ self.now.number }
    {
        self.number
    }

    /// The exchanges so far, in order.
    pub fn pairs(&self) -> &[Exchange]
        ensures { all_told result.now ≡ self.now.pairs }
    {
        self.kept.pairs.as_slice()
    }

    /// The tables that their requests found.
    pub fn found_tables(&self) -> &[Heap]
        ensures { result.now ≡ self.now.found }
    {
        self.kept.found.as_slice()
    }

    /// The tables that their requests left.
    pub fn left_tables(&self) -> &[Heap]
        ensures { result.now ≡ self.now.left }
    {
        self.kept.left.as_slice()
    }
}

/// A request with its reply, as a link keeps them.
fn pair_of(alloc: Global, request: &[u8], kind: u8, reply: &[u8]) -> Result<Exchange, Memory>
    ensures { IfOk result (λ e. pair_told e ≡ record { request = request.now; kind = kind; reply = reply.now }) }
{
    Ok(Exchange {
        request: Seq::from_slice(alloc, request)?,
        kind,
        reply: Seq::from_slice(alloc, reply)?,
    })
}

/// Asks a request through the link's session, and keeps copies of it, of the reply, and of the tables before and after. The pair is
/// kept last, so that there is none after want of memory.
fn carry(hub: &mut Hub<Host>, number: u32, kept: &mut Kept, request: &[u8]) -> Result<Reply, Memory>
    requires size { length request.now ≤ longest_request }
    requires owns { (payloads : List (List ℕ)) × (length payloads < most_requests) × Owns number payloads hub.old }
    ensures answers { let service = mirror_service hub.old.answers.service in
        IfOk result (λ reply. Replies service hub.old.answers.table request.now reply hub.new.answers.table) }
    ensures finds { OnOk result (IsTypedHost hub.old.answers) }
    ensures typed { OnOk result (IsTypedHost hub.new.answers) }
    ensures service { mirror_service hub.new.answers.service ≡ mirror_service hub.old.answers.service }
    ensures stands { OnOk result ((past : List Track) → Stands past hub.old → Stands (after past (own_piece number request.now)) hub.new) }
    ensures pair { IfOk result (OneMore request.now kept.old.pairs.items kept.new.pairs.items) }
    ensures found { OnOk result (kept.new.found.items ≡ kept.old.found.items ++ hub.old.answers.table ∷ []) }
    ensures left { OnOk result (kept.new.left.items ≡ kept.old.left.items ++ hub.new.answers.table ∷ []) }
    ensures unchanged { OnErr result (kept.new.pairs.items ≡ kept.old.pairs.items) }
{
    let alloc = *kept.pairs.allocator();
    kept.found.push(hub.answers().table().copy(alloc)?)?;
    let reply = ask(alloc, hub, number, request)?;
    kept.left.push(hub.answers().table().copy(alloc)?)?;
    let pair = pair_of(alloc, request, reply.kind, reply.payload.as_slice())?;
    kept.pairs.push(pair)?;
    Ok(reply)
}

impl Link for HubLink {
    ghost use Rattle.std.specs.Prelude.{Some, true};
    ghost use Rattle.rb_hub.specs.HubLinks.{told_of_hub};

    ghost told = { λ it. Some (told_of_hub it) };

    ghost faults = { λ it. 0 };

    ghost lends = { λ it. true };

    ghost honest = { IsHonestHub };

    ghost quiet = { λ it. ⊥ };

    fn exchange(&mut self, request: &[u8]) -> Result<Reply, LinkStop>
        requires { length request.now ≤ longest_request }
        ensures { ExchangesInHub request.now self.old result self.new }
    {
        streams_are_read();
        let exchanges = self.kept.pairs.len();
        if self.spent || exchanges as u64 >= MOST_EXCHANGES {
            return Err(LinkStop::Memory);
        }
        self.spent = true;
        self.made = self.made.saturating_add(1);
        let alloc = *self.kept.pairs.allocator();
        let events = events_after(alloc, self.number, &self.others, exchanges)?;
        play_others(alloc, &mut self.hub, events)?;
        let reply = carry(&mut self.hub, self.number, &mut self.kept, request)?;
        self.spent = false;
        Ok(reply)
    }

    fn table(&self) -> Option<&Heap> {
        Some(self.hub.answers().table())
    }

    ghost honest_tells = { λ l h. h.typed };
}
