// Runs of requests.

ghost use Rattle.std.specs.Prelude.{◌≡◌, ◌≤◌, ℕ, List, All, length, IfErr, OnOk, MatchResult};
ghost use Rattle.rb_meaning.specs.Answers.{longest_request};
ghost use Rattle.rb_session.specs.Answering.{IsTypedHost};
ghost use Rattle.rb_journal.specs.Keeping.{SeenKept, AnswersAll, StopsAfter, KeepsAccepted, LeavesEach};

use crate::kept::Kept;
use crate::stops::JournalStop;
use bytes::BytesMut;
use rb_disk::Disk;
use rb_session::Answers;
use rb_trees::Word;
use std::alloc::Global;

/// Why a run of requests stopped.
#[derive(Debug, Drop)]
pub struct RunStop {
    /// How many requests were answered before.
    pub answered: usize,
    /// What the next one was met by.
    pub stop: JournalStop,
}

/// Answers requests in order, up to a stop, and appends the payloads of their replies.
///
/// A crash at any moment of the run leaves the payloads that were kept before it and the accepted ones of a front of the
/// requests. This front has each request whose reply was appended by then.
pub fn answer_all<D: Disk>(
    alloc: Global,
    kept: &mut Kept<D>,
    requests: &[Word],
    replies: &mut BytesMut,
) -> Result<(), RunStop>
    requires sizes { All (λ request. length request ≤ longest_request) requests.now }
    requires ready { IsTypedHost kept.old.host }
    ensures answers { OnOk result (AnswersAll D.told D.faults kept.old requests.now kept.new) }
    ensures keeps { OnOk result (KeepsAccepted D.told kept.old requests.now kept.new) }
    ensures stops { IfErr result (λ run. StopsAfter D.told D.faults kept.old requests.now run.answered run.stop kept.new) }
    ensures any_moment { MatchResult result
        (λ done. LeavesEach D.told D.faults kept.old requests.now (length requests.now) kept.new)
        (λ run. LeavesEach D.told D.faults kept.old requests.now run.answered kept.new) }
    ensures ready { OnOk result (IsTypedHost kept.new.host) }
    ensures service { kept.new.host.service ≡ kept.old.host.service }
{
    let mut answered = 0;
    for request in requests {
        match kept.answer_one(alloc, request.as_slice(), replies) {
            Ok(_) => answered += 1,
            Err(stop) => return Err(RunStop { answered, stop }),
        }
    }
    Ok(())
}
