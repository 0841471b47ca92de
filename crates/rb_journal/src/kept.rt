// Requests that are kept before they are performed.

ghost use Rattle.std.specs.Prelude.{◌≡◌, ◌≤◌, ℕ, List, Option, length, Ok, IfOk, IfErr, OnOk, OnErr};
ghost use Rattle.rb_meaning.specs.Answers.{longest_request};
ghost use Rattle.rb_meaning_bytes.specs.formats.ScriptPayloads.{Means};
ghost use Rattle.rb_session.specs.Answering.{IsTypedHost, Performs, Replies};
ghost use Rattle.rb_session.specs.Readings.{sent_of};
ghost use Rattle.rb_journal.specs.Journals.{LeavesBeforeOrAfter};
ghost use Rattle.rb_journal.specs.Keeping.{AnswersKept, KeepsAndPerforms, StopsKept, IsRefused};

use crate::journal::Journal;
use crate::stops::JournalStop;
use bytes::BytesMut;
use rb_disk::Disk;
use rb_exec::Host;
use rb_session::{Answers, Ready, perform, read_request};
use std::alloc::Global;
use std::marker::Model;

/// The kind of a reply that is a forest.
const FOREST: u8 = 2;

/// The kind of a reply that is a refusal.
const REFUSAL: u8 = 3;

/// A host whose accepted requests are kept in a journal before they are performed.
///
/// A refused request isn't kept. After a stop the journal may keep a request that has no reply.
#[derive(Drop)]
pub struct Kept<D: Disk> {
    journal: Journal<D>,
    host: Host,
}

impl<D: Disk> Model for Kept<D> {
    ghost use Rattle.rb_journal.specs.Codes.{kept_code};
    ghost use Rattle.rb_journal.specs.Keeping.{SeenKept};

    ghost Value = { SeenKept D };

    ghost coded = { kept_code D.code };

    ghost view = { λ it. record { journal = it.journal; host = it.host } };
}

impl<D: Disk> Kept<D> {
    /// A host, and the journal that keeps its requests from now on. Takes no memory.
    pub fn make(journal: Journal<D>, host: Host) -> Kept<D>
        ensures { result ≡ record { journal = journal; host = host } }
    {
        Kept { journal, host }
    }

    /// The journal.
    pub fn journal(&self) -> &Journal<D>
        ensures { result.now ≡ self.now.journal }
    {
        &self.journal
    }

    /// The host.
    pub fn host(&self) -> &Host
        ensures { result.now ≡ self.now.host }
    {
        &self.host
    }

    /// The journal and the host.
    pub fn into_parts(self) -> (Journal<D>, Host)
        ensures journal { result.0 ≡ self.journal }
        ensures host { result.1 ≡ self.host }
    {
        let Kept { journal, host } = self;
        (journal, host)
    }

    // Keeps an accepted request, and then performs it.
    fn keep_and_perform(
        &mut self,
        alloc: Global,
        payload: &[u8],
        ready: Ready,
        reply: &mut BytesMut,
    ) -> Result<(), JournalStop>
        requires size { length payload.now ≤ longest_request }
        requires accepted { Means payload.now (Ok (sent_of ready)) }
        requires typed { IsTypedHost self.old.host }
        ensures performs { OnOk result (Performs self.old.host self.new.host (sent_of ready) reply.old.items reply.new.items) }
        ensures kept { OnOk result (KeepsAndPerforms D.told D.faults self.old payload.now self.new) }
        ensures any_moment { LeavesBeforeOrAfter D.told self.old.journal payload.now self.new.journal }
        ensures typed { OnOk result (IsTypedHost self.new.host) }
        ensures service { self.new.host.service ≡ self.old.host.service }
        ensures stop { IfErr result (λ stop. StopsKept D.told D.faults self.old payload.now stop self.new) }
        ensures unchanged { OnErr result (reply.new.items ≡ reply.old.items) }
    {
        self.journal.append(payload)?;
        perform(alloc, &mut self.host, ready, reply)?;
        Ok(())
    }
}

/// Whoever keeps requests stops as the journal does, with the host as it was, or for want of memory. Memory may be wanting
/// before anything changed, or after the request was kept, and then nothing is said of the table.
impl<D: Disk> Answers for Kept<D> {
    type Stop = JournalStop;

    ghost use Rattle.rb_trees.specs.mirror.Services.{mirror_service};
    ghost use Rattle.rb_session.specs.Answering.{IsTypedHost};
    ghost use Rattle.rb_journal.specs.Keeping.{AnswersKept, StopsKept};

    ghost service = { λ kept. mirror_service kept.host.service };

    ghost table = { λ kept. kept.host.table };

    ghost ready = { λ kept. IsTypedHost kept.host };

    ghost does = { AnswersKept D.told D.faults };

    ghost stops = { StopsKept D.told D.faults };

    fn answer_one(
        &mut self,
        alloc: Global,
        payload: &[u8],
        reply: &mut BytesMut,
    ) -> Result<u8, JournalStop>
        requires size { length payload.now ≤ longest_request }
        requires ready { IsTypedHost self.old.host }
        ensures replies { IfOk result (Replies self.old.host self.new.host payload.now reply.old.items reply.new.items) }
        ensures kept { OnOk result (AnswersKept D.told D.faults self.old payload.now self.new) }
        ensures any_moment { LeavesBeforeOrAfter D.told self.old.journal payload.now self.new.journal }
        ensures refused { IsRefused payload.now → self.new ≡ self.old }
        ensures ready { OnOk result (IsTypedHost self.new.host) }
        ensures service { self.new.host.service ≡ self.old.host.service }
        ensures stop { IfErr result (λ stop. StopsKept D.told D.faults self.old payload.now stop self.new) }
        ensures unchanged { OnErr result (reply.new.items ≡ reply.old.items) }
    {
        let request = read_request(alloc, payload, reply)?;
        match request {
            Some(ready) => {
                self.keep_and_perform(alloc, payload, ready, reply)?;
                Ok(FOREST)
            }
            None => Ok(REFUSAL),
        }
    }
}
