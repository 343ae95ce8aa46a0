//! Taking the entries of a batch.
ghost use Rattle.std.specs.Prelude.{◌≡◌, ◌∷◌, [], IfOk, OnOk};
ghost use Rattle.std.specs.Option.{option_copied};
ghost use Rattle.std.specs.List.{AllByRecursion};
ghost use Rattle.mrp_types.specs.Entries.{IsEntry};
ghost use Rattle.command_codec.specs.Replies.{IsReply, reply_bytes};
ghost use Rattle.command_codec.specs.declared.fault.CodecFault.TheVariants.{Memory as Wanted};
ghost use Rattle.plain_model.specs.Fold.{known_entries};
ghost use Rattle.plain_model.specs.Replicas.{apply, applies, noted};
ghost use Rattle.delivery.specs.Told.{Told};

use command_codec::{CodecFault, Entries, Reply, read_batch, write_reply};
use frames::{Body, Frame, Frames, Sent};
use mrp_types::{Entry, Memory, NodeId, Octets, PartitionId, Party, Place, Value};
use replica_state::ReplicaState;
use std::alloc::Global;
use transcript::{Line, Lines};

/// Who delivers a batch, for which partition, and at which place.
#[derive(Clone, Copy)]
pub struct Delivery {
    pub own: NodeId,
    pub partition: PartitionId,
    pub place: Place,
}

/// The entries of what was learned: those that a batch spells, and none of anything else.
pub fn entries_in(alloc: Global, value: Option<&Value>) -> Result<Entries, Memory>
    ensures entries { IfOk result (λ entries. entries ≡ known_entries (option_copied value.entry)) }
    ensures valid { IfOk result (λ entries. AllByRecursion IsEntry entries) }
{
    let Some(Value::Batch(batch)) = value else {
        return Ok(Entries::new(alloc));
    };
    match read_batch(alloc, batch.bytes()) {
        Ok(entries) => Ok(entries),
        Err(fault) => none_unless_memory(alloc, fault),
    }
}

fn none_unless_memory(alloc: Global, fault: CodecFault) -> Result<Entries, Memory>
    ensures { IfOk result (λ entries. (entries ≡ []) × (fault ≡ Wanted → ⊥)) }
{
    match fault {
        CodecFault::Memory => Err(Memory),
        _ => Ok(Entries::new(alloc)),
    }
}

/// Tells the reply to the entry at an index of the batch: its line, and its frame to the client that the entry names.
fn tell(
    alloc: Global,
    at: &Delivery,
    index: u64,
    entry: &Entry,
    reply: &Reply,
    lines: &mut Lines,
    replies: &mut Frames,
) -> Result<(), Memory>
    requires { IsReply reply.now }
    ensures { OnOk result (Told at.now ((index, entry.now, reply_bytes reply.now) ∷ []) lines.old lines.new replies.old replies.new) }
{
    let bytes = write_reply(alloc, reply)?;
    let body = Body::Reply {
        client: entry.client,
        seq: entry.seq,
        partition: at.partition,
        reply: Octets::from_slice(alloc, bytes.bytes())?,
    };
    lines.push(Line::Reply {
        node: at.own,
        ring: at.place.ring,
        inst: at.place.inst,
        index,
        client: entry.client,
        seq: entry.seq,
        reply: bytes,
    })?;
    replies.push(Sent {
        to: Party::Client(entry.client),
        frame: Frame {
            from: Party::Node(at.own),
            body,
        },
    })
}

/// Applies the entry at an index of the batch, and tells its reply where it has one.
fn take_entry(
    alloc: Global,
    at: &Delivery,
    index: u64,
    state: &mut ReplicaState,
    entry: &Entry,
    lines: &mut Lines,
    replies: &mut Frames,
) -> Result<(), Memory>
    requires { IsEntry entry.now }
    ensures state { OnOk result (state.new ≡ record { partition = state.old.partition; replica = (apply state.old.partition state.old.replica entry.now).replica }) }
    ensures told { OnOk result (Told at.now (noted index entry.now [] (apply state.old.partition state.old.replica entry.now).reply) lines.old lines.new replies.old replies.new) }
{
    let Some(reply) = state.apply(entry)? else {
        return Ok(());
    };
    tell(alloc, at, index, entry, &reply, lines, replies)
}

/// Applies the entries of a batch in order, and tells each reply.
pub fn take_entries(
    alloc: Global,
    at: &Delivery,
    state: &mut ReplicaState,
    entries: &[Entry],
    lines: &mut Lines,
    replies: &mut Frames,
) -> Result<(), Memory>
    requires { AllByRecursion IsEntry entries.now }
    ensures state { OnOk result (state.new ≡ record { partition = state.old.partition; replica = (applies state.old.partition state.old.replica entries.now).replica }) }
    ensures told { OnOk result (Told at.now (applies state.old.partition state.old.replica entries.now).replies lines.old lines.new replies.old replies.new) }
{
    for (index, entry) in entries.iter().enumerate() {
        take_entry(alloc, at, index as u64, state, entry, lines, replies)?;
    }
    Ok(())
}
