//! The opening of a journal.

ghost use Rattle.std.specs.Prelude.{◌≡◌, ◌⊎◌, ◌≤◌, ◌<◌, ◌+◌, ◌^◌, ◌==◌, ◌++◌, ℕ, List, [], ◌∷◌, length, OnOk, IfOk, IsErrOf, IsTrue, MatchResult, Ok, Err};
ghost use Rattle.disk_model.specs.Calls.{Told, Tells, LeavesOnly, IsSettled, reads};
ghost use Rattle.disk_model.specs.Went.{WentBy};
ghost use Rattle.gate_log.specs.Records.{room, end_of};
ghost use Rattle.gate_log.specs.Journal.{Log, Holds, records_in};
ghost use Rattle.gate_log.specs.Moments.{SinceSync};
ghost use Rattle.vote_state.specs.State.{State, taken};
ghost use Rattle.vote_journal.specs.Faults.{Says};
ghost use Rattle.vote_journal.specs.Journal.{Stands, OpensBy, OpenLeaves, IsOpened, opened_state, record_of, epoch_record};
ghost use Rattle.vote_journal.specs.Operations.{open_ending, opening_ops};
ghost use Rattle.vote_journal.specs.declared.fault.OpenFault.TheVariants.{Memory as NoMemory, Disk};
ghost use Rattle.vote_state.specs.Valid.{IsChange};
ghost use Rattle.std.specs.List.{AllByRecursion};

use crate::journal::write_record;
use crate::judging::judge;
use crate::{OpenFault, VoteJournal, write_changes, write_first};
use disk_model::Disk;
use gate_log::GateLog;
use mrp_types::{Memory, NodeId, Octets};
use std::alloc::Global;
use vote_state::{Change, Changes, Durable};

impl VoteJournal {
    /// Opens a node's journal, or begins one, and records that its epoch rose by one. `limit` is the greatest length of
    /// an area in bytes, and stays the journal's. `BadRecord` and `WrongNode` are judged record by record from the first
    /// on, then `EpochLimit`, then `Full` of the epoch's record. No call is made after those of the log's opening but
    /// those that write that record.
    pub fn open<D: Disk>(
        alloc: Global,
        disk: &mut D,
        id: NodeId,
        limit: u64,
    ) -> Result<VoteJournal, OpenFault>
        requires least { 17 ≤ limit }
        requires most { limit < 2 ^ 32 }
        ensures room { IfOk result (λ journal. (journal.log.limit ≡ limit) × (journal.log.end ≤ limit)) }
        ensures finds { (t : Told) → Tells (D.told disk.old) (D.honest disk.old) t → OpensBy id limit (records_in (reads t)) result }
        ensures log { (t : Told) → Tells (D.told disk.old) (D.honest disk.old) t → IfOk result (λ journal. IsOpened id limit (reads t) journal.log) }
        ensures moments { (t : Told) → Tells (D.told disk.old) (D.honest disk.old) t → SinceSync t (D.told disk.new) (OpenLeaves id (reads t)) }
        ensures stands { (u : Told) → Tells (D.told disk.new) (D.honest disk.new) u → IfOk result (λ journal. Stands journal (reads u)) }
        ensures done { (u : Told) → Tells (D.told disk.new) (D.honest disk.new) u → OnOk result (IsSettled u) }
        ensures went { WentBy D.Disk (opening_ops id limit) disk.old disk.new (open_ending result) }
    {
        let (log, records) = GateLog::open(alloc, disk, limit)?;
        let state = judge(alloc, id, &records)?;
        let (bytes, durable) = raise_epoch(alloc, id, &records, state)?;
        let log = write_record(alloc, log, disk, bytes.bytes())?;
        Ok(VoteJournal {
            alloc,
            id,
            log,
            durable,
        })
    }
}

/// The state with an epoch more, and the record of that.
fn raise_epoch(
    alloc: Global,
    id: NodeId,
    records: &[Octets],
    state: Durable,
) -> Result<(Octets, Durable), OpenFault>
    ensures state { MatchResult result (λ x. opened_state state ≡ Ok x.1) (λ fault. (fault ≡ NoMemory) ⊎ (opened_state state ≡ Err fault)) }
    ensures bytes { IfOk result (λ x. x.0 ≡ epoch_record id records.now state) }
    ensures fits { IfOk result (λ x. state.epoch + 1 < 2 ^ 32) }
    ensures memory { IsErrOf result Disk → ⊥ }
{
    if state.epoch() == u32::MAX {
        return Err(OpenFault::EpochLimit);
    }
    let mut changes = Changes::new(alloc);
    changes.push(Change::Epoch(state.epoch() + 1))?;
    let bytes = write_epoch(alloc, id, records, &changes)?;
    let mut next = state;
    next.take(&changes)?;
    Ok((bytes, next))
}

/// The first record, or a further one.
fn write_epoch(
    alloc: Global,
    id: NodeId,
    records: &[Octets],
    changes: &Changes,
) -> Result<Octets, Memory>
    requires { AllByRecursion IsChange changes.now }
    ensures { IfOk result (λ bytes. bytes ≡ record_of id records.now changes.now) }
{
    if records.is_empty() {
        write_first(alloc, id, changes)
    } else {
        write_changes(alloc, changes)
    }
}
