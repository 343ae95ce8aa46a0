//! A node's durable state on a disk.

ghost use Rattle.std.specs.Prelude.{◌≡◌, ◌⊎◌, ◌≤◌, ◌<◌, ◌+◌, ◌-◌, ◌^◌, ◌++◌, ℕ, List, [], ◌∷◌, length, OnOk, IfOk, IsErrOf, IsTrue, MatchResult};
ghost use Rattle.std.specs.List.{AllByRecursion};
ghost use Rattle.disk_model.specs.Calls.{Told, Tells, LeavesOnly, IsSettled, reads};
ghost use Rattle.disk_model.specs.Causes.{Rose};
ghost use Rattle.disk_model.specs.Went.{WentBy};
ghost use Rattle.gate_log.specs.Operations.{append_ops, log_ending};
ghost use Rattle.gate_log.specs.Journal.{Holds, IsLogOf, appended};
ghost use Rattle.gate_log.specs.Moments.{OldOrNew};
ghost use Rattle.gate_log.specs.declared.fault.LogFault.TheVariants.{Full as LogFull, Memory as LogMemory, Damaged as LogDamaged};
ghost use Rattle.disk_model.specs.declared.area.Area.{Area as SomeArea};
ghost use Rattle.vote_state.specs.State.{taken};
ghost use Rattle.vote_state.specs.Valid.{IsChange};
ghost use Rattle.vote_journal.specs.Epochs.{epochs_rise};
ghost use Rattle.vote_journal.specs.Journal.{Stands, BeforeOrAfter, recorded, recorded_end};
ghost use Rattle.vote_journal.specs.Operations.{journal_ending, record_ops};
ghost use Rattle.vote_journal.specs.declared.fault.JournalFault.TheVariants.{Full, Memory};

use crate::{JournalFault, write_changes};
use disk_model::Disk;
use gate_log::{Body, GateLog, LogFault};
use mrp_types::NodeId;
use std::alloc::Global;
use std::marker::Model;
use vote_state::{Changes, Durable};

/// A node's durable state, as the records of its log make it. Each call consumes it, so that none follows a failed
/// device.
#[derive(Drop)]
pub struct VoteJournal {
    pub(crate) alloc: Global,
    pub(crate) id: NodeId,
    pub(crate) log: GateLog,
    pub(crate) durable: Durable,
}

impl Model for VoteJournal {
    ghost use Rattle.vote_journal.specs.Journal.{Journal};

    ghost Value = { Journal };

    ghost view = { λ j. record { id = j.id; log = j.log; state = j.durable } };
}

impl VoteJournal {
    /// The state that the records make.
    pub fn durable(&self) -> &Durable
        ensures { result.now ≡ self.now.state }
    {
        &self.durable
    }

    /// The generation of the area that stands.
    pub fn generation(&self) -> u64
        ensures { result ≡ self.now.log.generation }
    {
        self.log.generation()
    }

    /// The place just after the closed gate, in bytes from the area's start.
    pub fn end(&self) -> u64
        ensures { result ≡ self.now.log.end }
    {
        self.log.end()
    }

    /// That place after the first record.
    pub fn base_end(&self) -> u64
        ensures { result ≡ self.now.log.base_end }
    {
        self.log.base_end()
    }

    /// Adds a record of these changes; an empty list makes no call of the disk. It asks that nothing is pending, that
    /// the disk holds the journal, and changes that may stand as its next record. At each moment a crash leaves the
    /// state before or after. `Full` says how long the area would be, and then no call was made.
    pub fn record<D: Disk>(
        self,
        disk: &mut D,
        changes: &Changes,
    ) -> Result<VoteJournal, JournalFault>
        requires settled { (t : Told) → Tells (D.told disk.old) (D.honest disk.old) t → IsSettled t }
        requires stands { (t : Told) → Tells (D.told disk.old) (D.honest disk.old) t → Stands self (reads t) }
        requires changes { AllByRecursion IsChange changes.now }
        requires epochs { IsTrue (epochs_rise self.state.epoch changes.now) }
        ensures none { changes.now ≡ [] → (disk.new ≡ disk.old) × MatchResult result (λ journal. journal ≡ self) (λ _. ⊥) }
        ensures full { (len : ℕ) → IsErrOf result (Full len) → (len ≡ recorded_end self changes.now) × (self.log.limit < len) }
        ensures idle { self.log.limit < recorded_end self changes.now → disk.new ≡ disk.old }
        ensures longer { 0 < length changes.now → self.log.limit < recorded_end self changes.now →
            MatchResult result (λ _. ⊥) (λ fault. (fault ≡ Full (recorded_end self changes.now)) ⊎ (fault ≡ Memory)) }
        ensures journal { IfOk result (λ journal. journal ≡ recorded self changes.now) }
        ensures moments { (t : Told) → Tells (D.told disk.old) (D.honest disk.old) t →
            LeavesOnly t (D.told disk.new) (BeforeOrAfter self.id self.state (taken changes.now self.state) (reads t)) }
        ensures stands { (u : Told) → Tells (D.told disk.new) (D.honest disk.new) u → IfOk result (λ journal. Stands journal (reads u)) }
        ensures done { (u : Told) → Tells (D.told disk.new) (D.honest disk.new) u → OnOk result (IsSettled u) }
        ensures went { WentBy D.Disk (λ t. record_ops self changes.now) disk.old disk.new (journal_ending result) }
        // its own memory is taken before the first call
        ensures early { IsErrOf result Memory → (disk.new ≡ disk.old) ⊎ Rose (D.wants disk.old) (D.wants disk.new) }
    {
        if changes.items().is_empty() {
            return Ok(self);
        }
        let VoteJournal {
            alloc,
            id,
            log,
            durable,
        } = self;
        let bytes = write_changes(alloc, changes)?;
        let mut durable = durable;
        durable.take(changes)?;
        let log = write_record(alloc, log, disk, bytes.bytes())?;
        Ok(VoteJournal {
            alloc,
            id,
            log,
            durable,
        })
    }
}

/// Adds a record of these bytes to a log.
pub(crate) fn write_record<D: Disk>(
    alloc: Global,
    log: GateLog,
    disk: &mut D,
    bytes: &[u8],
) -> Result<GateLog, LogFault>
    requires settled { (t : Told) → Tells (D.told disk.old) (D.honest disk.old) t → IsSettled t }
    requires log { (t : Told) → Tells (D.told disk.old) (D.honest disk.old) t → IsLogOf log (reads t) }
    ensures full { (len : ℕ) → IsErrOf result (LogFull len) → (len ≡ log.end + (5 + length bytes.now)) × (log.limit < len) }
    ensures longer { log.limit < log.end + (5 + length bytes.now) → (disk.new ≡ disk.old) × MatchResult result (λ _. ⊥) (λ fault. (fault ≡ LogFull (log.end + (5 + length bytes.now))) ⊎ (fault ≡ LogMemory)) }
    ensures undamaged { (area : SomeArea) (at : ℕ) → IsErrOf result (LogDamaged area at) → ⊥ }
    ensures log { IfOk result (λ next. next ≡ appended log bytes.now) }
    ensures moments { (t : Told) (records : List (List ℕ)) → Tells (D.told disk.old) (D.honest disk.old) t → Holds log records (reads t) →
        LeavesOnly t (D.told disk.new) (OldOrNew records (records ++ bytes.now ∷ []) (reads t)) }
    ensures holds { (t u : Told) (records : List (List ℕ)) → Tells (D.told disk.old) (D.honest disk.old) t → Tells (D.told disk.new) (D.honest disk.new) u →
        Holds log records (reads t) → IfOk result (λ next. Holds next (records ++ bytes.now ∷ []) (reads u)) }
    ensures done { (u : Told) → Tells (D.told disk.new) (D.honest disk.new) u → OnOk result (IsSettled u) }
    ensures went { WentBy D.Disk (λ t. append_ops log bytes.now) disk.old disk.new (log_ending result) }
    ensures early { IsErrOf result LogMemory → (disk.new ≡ disk.old) ⊎ Rose (D.wants disk.old) (D.wants disk.new) }
{
    let mut body = Body::new(alloc);
    body.push(bytes)?;
    log.append(disk, &body)
}
