// A journal on a disk.

ghost use Rattle.std.specs.Prelude.{◌≡◌, ◌+◌, ◌^◌, ◌<◌, ◌∷◌, [], ℕ, length, OnOk, IfOk, IfErr, IsSome, MatchResult, false};
ghost use Rattle.rb_base.specs.Counts.{risen};
ghost use Rattle.rb_base.specs.Devices.{device};
ghost use Rattle.rb_journal.specs.Form.{IsPayload};
ghost use Rattle.rb_journal.specs.Appends.{MakesBeginning, MakesAppend};
ghost use Rattle.rb_journal.specs.Journals.{Keeps, KeepsWhatStood, KeepsMore, LeavesBeforeOrAfter, CrashesAsBefore, IsEmpty};
ghost use Rattle.rb_session.specs.Answering.{IsTypedHost};
ghost use Rattle.rb_journal.specs.Readings.{WhereTold, StopsAs};
ghost use Rattle.rb_journal.specs.Replays.{Reopens};
ghost use Rattle.rb_journal.specs.Answers.{AnswersAppend, IsFresh, StopsOpening};

use crate::reading::read_journal;
use crate::stops::{JournalStop, Stopped};
use crate::texts::text_of;
use rb_base::Failed;
use rb_disk::{Disk, reading_is_an_image};
use rb_exec::Host;
use std::alloc::Global;
use std::marker::Model;

/// Where a record and its next gate may end.
const LIMIT: u64 = 1 << 40;

/// Records of payloads on a disk, each kept before it is answered for.
#[derive(Drop)]
pub struct Journal<D: Disk> {
    alloc: Global,
    disk: D,
    /// The offset of the last gate.
    gate: u64,
    /// Whether an append met a fault of the disk.
    closed: bool,
}

impl<D: Disk> Model for Journal<D> {
    ghost use Rattle.rb_journal.specs.Journals.{SeenJournal};

    ghost Value = { SeenJournal D };

    ghost view = { λ it. record { disk = it.disk; gate = it.gate; is_closed = it.closed } };
}

impl<D: Disk> Journal<D> {
    /// A journal of no payloads on an empty disk: the four bytes of its head and a closed gate are written and kept.
    pub fn create(alloc: Global, disk: D) -> Result<Journal<D>, Stopped<D>>
        requires { IsEmpty (D.told disk) }
        ensures kept { IfOk result (λ journal. IsSome (D.told disk) → Keeps D.told journal []) }
        ensures made { IfOk result (λ journal. IsFresh D.faults disk journal) }
        ensures stop { IfErr result (λ stopped. stopped.stop ≡ JournalStop.DiskFault) }
        ensures fault { IfErr result (λ stopped. D.faults stopped.disk ≡ risen (D.faults disk)) }
    {
        let mut disk = disk;
        match begin(&mut disk) {
            Ok(()) => Ok(Journal {
                alloc,
                disk,
                gate: 4,
                closed: false,
            }),
            Err(Failed) => Err(Stopped {
                stop: JournalStop::DiskFault,
                disk,
            }),
        }
    }

    /// Opens the journal on a disk. A sync comes before all else. The kept payloads are then performed on the host, in their
    /// order, and the disk isn't written.
    ///
    /// After a stop nothing is said of the host's table.
    pub fn open(alloc: Global, disk: D, host: &mut Host) -> Result<Journal<D>, Stopped<D>>
        requires { IsTypedHost host.old }
        ensures kept { IfOk result (KeepsWhatStood D.told disk) }
        ensures read { MatchResult result
            (λ journal. WhereTold (D.told disk) (λ bytes. Reopens bytes journal.gate host.old host.new))
            (λ stopped. WhereTold (D.told disk) (λ bytes. StopsAs bytes stopped.stop)) }
        ensures typed { OnOk result (IsTypedHost host.new) }
        ensures service { host.new.service ≡ host.old.service }
        ensures any_moment { MatchResult result
            (λ journal. CrashesAsBefore (D.told disk) (D.told journal.disk))
            (λ stopped. CrashesAsBefore (D.told disk) (D.told stopped.disk)) }
        ensures is_open { IfOk result (λ journal. journal.is_closed ≡ false) }
        ensures no_fault { IfOk result (λ journal. D.faults journal.disk ≡ D.faults disk) }
        ensures stop { IfErr result (λ stopped. StopsOpening (D.faults disk) stopped.stop (D.faults stopped.disk)) }
    {
        reading_is_an_image();
        let mut disk = disk;
        match read_journal(alloc, &mut disk, host) {
            Ok(gate) => Ok(Journal {
                alloc,
                disk,
                gate,
                closed: false,
            }),
            Err(stop) => Err(Stopped { stop, disk }),
        }
    }

    /// The disk.
    pub fn into_disk(self) -> D
        ensures { result ≡ self.disk }
    {
        let Journal {
            alloc: _,
            disk,
            gate: _,
            closed: _,
        } = self;
        disk
    }

    /// Adds a payload. At `Ok` it is kept: each crash from then on leaves it. After `DiskFault` nobody knows whether the disk
    /// stands for the old payloads alone or has this one too, and the journal is to be opened again.
    pub fn append(&mut self, payload: &[u8]) -> Result<(), JournalStop>
        requires { IsPayload payload.now }
        ensures kept { OnOk result (KeepsMore D.told self.old (payload.now ∷ []) self.new) }
        ensures any_moment { LeavesBeforeOrAfter D.told self.old payload.now self.new }
        ensures answer { AnswersAppend D.faults payload.now result self.old self.new }
    {
        if self.closed {
            return Err(JournalStop::Closed);
        }
        let size = payload.len() as u64;
        if size + 6 > LIMIT.saturating_sub(self.gate) {
            return Err(JournalStop::Full);
        }
        let text = text_of(self.alloc, payload)?;
        match write_text(&mut self.disk, self.gate, text.as_slice()) {
            Ok(()) => {
                self.gate += 5 + size;
                Ok(())
            }
            Err(Failed) => {
                self.closed = true;
                Err(JournalStop::DiskFault)
            }
        }
    }
}

/// Writes the head and a closed gate.
fn begin<D: Disk>(disk: &mut D) -> Result<(), Failed>
    ensures { MakesBeginning result (device D.told D.faults disk.old) (device D.told D.faults disk.new) }
{
    disk.write(0, &[0x52, 0x42, 0x4a, 1, 0])?;
    disk.sync()
}

/// Writes a record and a closed gate behind a gate, and opens it.
fn write_text<D: Disk>(disk: &mut D, gate: u64, text: &[u8]) -> Result<(), Failed>
    requires { gate < 2 ^ 40 }
    ensures { MakesAppend gate text.now result (device D.told D.faults disk.old) (device D.told D.faults disk.new) }
{
    disk.write(gate + 1, text)?;
    disk.sync()?;
    disk.write(gate, &[1])?;
    disk.sync()
}
