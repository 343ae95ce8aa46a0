//! One record in place of all.

ghost use Rattle.std.specs.Prelude.{◌≡◌, ◌⊎◌, ◌≤◌, ◌+◌, ◌-◌, ◌<◌, ◌^◌, ℕ, List, [], ◌∷◌, length, OnOk, IfOk, IsErrOf, MatchResult};
ghost use Rattle.disk_model.specs.Calls.{Told, Tells, LeavesOnly, IsSettled, reads};
ghost use Rattle.disk_model.specs.Went.{WentBy};
ghost use Rattle.disk_model.specs.declared.area.Area.{Area as SomeArea};
ghost use Rattle.gate_log.specs.Journal.{Holds, IsLogOf, compacted};
ghost use Rattle.gate_log.specs.Operations.{compact_ops, log_ending};
ghost use Rattle.gate_log.specs.Moments.{OldOrNew};
ghost use Rattle.gate_log.specs.declared.fault.LogFault.TheVariants.{Full as LogFull, Memory as LogMemory, Damaged as LogDamaged};
ghost use Rattle.vote_journal.specs.Journal.{Stands, BeforeOrAfter, compact_record, compacted_journal};
ghost use Rattle.vote_journal.specs.Operations.{compaction_ops, journal_ending};
ghost use Rattle.vote_journal.specs.declared.fault.JournalFault.TheVariants.{Full, Memory};

use crate::{JournalFault, VoteJournal, write_first};
use disk_model::Disk;
use gate_log::{Body, GateLog, LogFault};
use std::alloc::Global;

impl VoteJournal {
    /// Puts one record that makes the state in place of all, in the other area. It asks that nothing is pending,
    /// that the disk holds the journal, and that its generation is below 2^64 - 1. At each moment a crash leaves
    /// this state. `Full` says how long the area would be, and then no call was made.
    pub fn compact<D: Disk>(self, disk: &mut D) -> Result<VoteJournal, JournalFault>
        requires generation { self.log.generation < 2 ^ 64 - 1 }
        requires settled { (t : Told) → Tells (D.told disk.old) (D.honest disk.old) t → IsSettled t }
        requires stands { (t : Told) → Tells (D.told disk.old) (D.honest disk.old) t → Stands self (reads t) }
        ensures full { (len : ℕ) → IsErrOf result (Full len) → (len ≡ 22 + length (compact_record self)) × (self.log.limit < len) }
        ensures idle { self.log.limit < 22 + length (compact_record self) → disk.new ≡ disk.old }
        ensures longer { self.log.limit < 22 + length (compact_record self) →
            MatchResult result (λ _. ⊥) (λ fault. (fault ≡ Full (22 + length (compact_record self))) ⊎ (fault ≡ Memory)) }
        ensures journal { IfOk result (λ journal. journal ≡ compacted_journal self) }
        ensures moments { (t : Told) → Tells (D.told disk.old) (D.honest disk.old) t →
            LeavesOnly t (D.told disk.new) (BeforeOrAfter self.id self.state self.state (reads t)) }
        ensures stands { (u : Told) → Tells (D.told disk.new) (D.honest disk.new) u → IfOk result (λ journal. Stands journal (reads u)) }
        ensures done { (u : Told) → Tells (D.told disk.new) (D.honest disk.new) u → OnOk result (IsSettled u) }
        ensures went { WentBy D.Disk (compaction_ops self) disk.old disk.new (journal_ending result) }
    {
        let VoteJournal {
            alloc,
            id,
            log,
            durable,
        } = self;
        let changes = durable.changes()?;
        let bytes = write_first(alloc, id, &changes)?;
        let log = replace_records(alloc, log, disk, bytes.bytes())?;
        Ok(VoteJournal {
            alloc,
            id,
            log,
            durable,
        })
    }
}

/// Puts one record of these bytes in place of all records of a log.
fn replace_records<D: Disk>(
    alloc: Global,
    log: GateLog,
    disk: &mut D,
    bytes: &[u8],
) -> Result<GateLog, LogFault>
    requires generation { log.generation < 2 ^ 64 - 1 }
    requires settled { (t : Told) → Tells (D.told disk.old) (D.honest disk.old) t → IsSettled t }
    requires log { (t : Told) → Tells (D.told disk.old) (D.honest disk.old) t → IsLogOf log (reads t) }
    ensures full { (len : ℕ) → IsErrOf result (LogFull len) → (len ≡ 22 + length bytes.now) × (log.limit < len) }
    ensures longer { log.limit < 22 + length bytes.now → (disk.new ≡ disk.old) × MatchResult result (λ _. ⊥) (λ fault. (fault ≡ LogFull (22 + length bytes.now)) ⊎ (fault ≡ LogMemory)) }
    ensures undamaged { (area : SomeArea) (at : ℕ) → IsErrOf result (LogDamaged area at) → ⊥ }
    ensures log { IfOk result (λ next. next ≡ compacted log bytes.now) }
    ensures moments { (t : Told) (records : List (List ℕ)) → Tells (D.told disk.old) (D.honest disk.old) t → Holds log records (reads t) →
        LeavesOnly t (D.told disk.new) (OldOrNew records (bytes.now ∷ []) (reads t)) }
    ensures holds { (t u : Told) (records : List (List ℕ)) → Tells (D.told disk.old) (D.honest disk.old) t → Tells (D.told disk.new) (D.honest disk.new) u →
        Holds log records (reads t) → IfOk result (λ next. Holds next (bytes.now ∷ []) (reads u)) }
    ensures done { (u : Told) → Tells (D.told disk.new) (D.honest disk.new) u → OnOk result (IsSettled u) }
    ensures went { WentBy D.Disk (compact_ops log bytes.now) disk.old disk.new (log_ending result) }
{
    let mut body = Body::new(alloc);
    body.push(bytes)?;
    log.compact(alloc, disk, &body)
}
