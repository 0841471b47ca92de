// Whole runs.

ghost use Rattle.std.specs.Prelude.{All, OnOk};
ghost use Rattle.rb_journal.specs.Form.{IsPayload};
ghost use Rattle.rb_journal.specs.Journals.{KeepsMore, LeavesFronts};

use crate::journal::Journal;
use crate::stops::JournalStop;
use rb_disk::Disk;
use rb_trees::Word;

/// Adds payloads in order, up to a stop. A crash at any moment of the run leaves the payloads before it and a front of these.
pub fn append_all<D: Disk>(journal: &mut Journal<D>, payloads: &[Word]) -> Result<(), JournalStop>
    requires { All IsPayload payloads.now }
    ensures kept { OnOk result (KeepsMore D.told journal.old payloads.now journal.new) }
    ensures any_moment { LeavesFronts D.told journal.old payloads.now journal.new }
{
    for payload in payloads {
        journal.append(payload.as_slice())?;
    }
    Ok(())
}
