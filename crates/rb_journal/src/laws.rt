// What holds of the bytes of each journal, and of each run of requests that are kept.

ghost use Rattle.std.specs.Prelude.{◌≡◌, ℕ, List, length};
ghost use Rattle.rb_journal.specs.Form.{StandsFor, IsNoJournal, HasBadRecord};
ghost use Rattle.rb_journal.specs.Readings.{IsOpened};
ghost use Rattle.rb_journal.specs.declared.stops.JournalStop.{JournalStop};
ghost use Rattle.rb_journal.specs.Keeping.{SeenKept, AnswersAll, StopsAfter, KeepsAccepted, LeavesEach};

use rb_disk::Disk;

/// Bytes are read in one way: they stand for one list of payloads, or are no journal, or have a bad record of one number.
/// So what a crash leaves of a journal is always opened, as what it stands for.
pub fn one_reading()
    ensures payloads { (bytes : List ℕ) (ps qs : List (List ℕ)) → StandsFor bytes ps → StandsFor bytes qs → ps ≡ qs }
    ensures is_journal { (bytes : List ℕ) (ps : List (List ℕ)) → StandsFor bytes ps → IsNoJournal bytes → ⊥ }
    ensures is_whole { (bytes : List ℕ) (ps : List (List ℕ)) (number : ℕ) → StandsFor bytes ps → HasBadRecord bytes number → ⊥ }
    ensures is_opened { (bytes : List ℕ) (ps : List (List ℕ)) → StandsFor bytes ps → IsOpened bytes }
    ensures has_head { (bytes : List ℕ) (number : ℕ) → HasBadRecord bytes number → IsNoJournal bytes → ⊥ }
    ensures number { (bytes : List ℕ) (m n : ℕ) → HasBadRecord bytes m → HasBadRecord bytes n → m ≡ n }
{}

/// Answered requests are kept: the accepted ones among them, in order, and each before its reply is handed out. A crash at any
/// moment leaves a front of them, which has each request whose reply was handed out by then.
pub fn answered_requests_are_kept<D: Disk>()
    ensures keeps { (before after : SeenKept D) (requests : List (List ℕ)) → AnswersAll D.told D.faults before requests after
        → KeepsAccepted D.told before requests after }
    ensures any_moment { (before after : SeenKept D) (requests : List (List ℕ)) → AnswersAll D.told D.faults before requests after
        → LeavesEach D.told D.faults before requests (length requests) after }
    ensures at_stop { (before after : SeenKept D) (requests : List (List ℕ)) (answered : ℕ) (stop : JournalStop)
        → StopsAfter D.told D.faults before requests answered stop after → LeavesEach D.told D.faults before requests answered after }
{}
