//! What the records of a journal stand for.

ghost use Rattle.std.specs.Prelude.{◌≡◌, ◌≤◌, ◌<◌, ◌+◌, ◌^◌, IfOk, IsErrOf, length, Ok};
ghost use Rattle.vote_journal.specs.declared.fault.OpenFault.TheVariants.{Disk};
ghost use Rattle.std.specs.List.{AllByRecursion};
ghost use Rattle.gate_log.specs.Records.{room};
ghost use Rattle.vote_state.specs.Valid.{IsChange};
ghost use Rattle.vote_journal.specs.Faults.{Says, refused_at};
ghost use Rattle.vote_journal.specs.Journal.{state_of, with_records, with_record, with_changes, first_state};
ghost use Rattle.vote_journal.specs.Grammar.{is_newer, first_of};

use crate::record_reading::is_second;
use crate::{OpenFault, do_epochs_rise, read_changes, read_first};
use command_codec::CodecFault;
use mrp_types::{NodeId, Octets};
use std::alloc::Global;
use vote_state::{Changes, Durable};

/// The state that the records of a node's journal stand for.
pub fn judge(alloc: Global, id: NodeId, records: &[Octets]) -> Result<Durable, OpenFault>
    requires { 16 + room records.now < 2 ^ 63 }
    ensures state { Says (state_of id records.now) result }
    ensures bytes { IsErrOf result Disk → ⊥ }
{
    let [first, rest @ ..] = records else {
        return Ok(Durable::new(alloc));
    };
    let state = take_first(alloc, id, first.bytes())?;
    let newer = is_second(first.bytes());
    take_rest(alloc, state, 16 + size(first), newer, rest)
}

/// How many bytes a record takes in its area.
fn size(bytes: &Octets) -> u64
    requires { length bytes.now < 2 ^ 63 }
    ensures { result ≡ 5 + length bytes.now }
{
    5 + bytes.len() as u64
}

fn take_first(alloc: Global, id: NodeId, bytes: &[u8]) -> Result<Durable, OpenFault>
    ensures state { Says (first_state id (first_of bytes.now)) result }
    ensures bytes { IsErrOf result Disk → ⊥ }
{
    let first = match read_first(alloc, bytes) {
        Ok(first) => first,
        Err(fault) => return Err(refusal(fault, 16)),
    };
    let state = with(Durable::new(alloc), 16, &first.changes)?;
    if first.node != id {
        return Err(OpenFault::WrongNode(first.node));
    }
    Ok(state)
}

/// The state once the records from a place on were taken, behind one of format 2 or of format 1.
fn take_rest(
    alloc: Global,
    state: Durable,
    at: u64,
    newer: bool,
    records: &[Octets],
) -> Result<Durable, OpenFault>
    requires { at + room records.now < 2 ^ 63 }
    ensures state { Says (with_records at newer state records.now) result }
    ensures bytes { IsErrOf result Disk → ⊥ }
{
    let mut state = state;
    let mut at = at;
    let mut newer = newer;
    for bytes in records {
        state = take_record(alloc, state, at, newer, bytes.bytes())?;
        at += size(bytes);
        newer = is_second(bytes.bytes());
    }
    Ok(state)
}

/// A record of format 1 doesn't stand behind one of format 2.
fn take_record(
    alloc: Global,
    state: Durable,
    at: u64,
    newer: bool,
    bytes: &[u8],
) -> Result<Durable, OpenFault>
    ensures state { Says (with_record at newer state bytes.now) result }
    ensures bytes { IsErrOf result Disk → ⊥ }
{
    if newer && !is_second(bytes) {
        return Err(OpenFault::BadRecord(at));
    }
    let changes = match read_changes(alloc, bytes) {
        Ok(changes) => changes,
        Err(fault) => return Err(refusal(fault, at)),
    };
    with(state, at, &changes)
}

/// The state once the changes of a record at a place were made.
fn with(state: Durable, at: u64, changes: &Changes) -> Result<Durable, OpenFault>
    requires { AllByRecursion IsChange changes.now }
    ensures state { Says (with_changes at state (Ok changes.now)) result }
    ensures bytes { IsErrOf result Disk → ⊥ }
{
    if !do_epochs_rise(state.epoch(), changes.items()) {
        return Err(OpenFault::BadRecord(at));
    }
    let mut next = state;
    next.take(changes)?;
    Ok(next)
}

/// Why the bytes at a place are no record, unless memory was wanting.
fn refusal(fault: CodecFault, at: u64) -> OpenFault
    ensures fault { result ≡ refused_at at fault }
    ensures bytes { result ≡ Disk → ⊥ }
{
    match fault {
        CodecFault::Memory => OpenFault::Memory,
        _ => OpenFault::BadRecord(at),
    }
}
