//! The state.

ghost use Rattle.std.specs.Prelude.{◌≡◌, ◌≤◌, ◌++◌, [], true, IfOk, OnOk, IsTrue, IfSome, IsSome, MatchOption, nat_lt, Result, Option, Some, None};
ghost use Rattle.command_codec.specs.Valid.{IsCommand, rises_from};
ghost use Rattle.command_codec.specs.Replies.{IsReply, reply_bytes};
ghost use Rattle.command_codec.specs.Grammar.{command_of};
ghost use Rattle.command_codec.specs.declared.fault.CodecFault.TheVariants.{Memory as Wanted};
ghost use Rattle.mrp_config.specs.Routing.{is_concerned as is_concerned_lem};
ghost use Rattle.plain_model.specs.Fold.{concerning};
ghost use Rattle.plain_model.specs.Replicas.{apply as apply_lem, taken, empty_replica, effect_of};
ghost use Rattle.plain_model.specs.StateBytes.{state_bytes, whole_state};
ghost use Rattle.services.specs.Reading.{SaysState};
ghost use Rattle.mrp_config.specs.declared.tables.PartitionTable.{PartitionTable};
ghost use Rattle.replica_state.specs.Held.{Held, is_look};
ghost use Rattle.replica_state.specs.Turns.{IsTurn, GivesReply};
ghost use Rattle.state_laws.specs.States.{IsGiven, HasFewLogs};
ghost use Rattle.mrp_config.specs.Config.{partition_at};
ghost use Rattle.hex.specs.Hex.{IsBytes};
ghost use Rattle.mrp_types.specs.Entries.{IsEntry};
ghost use Rattle.std.specs.Option.{option_map};

use crate::concern::concerns;
use crate::parts::{Turn, no_partition, reply_again, take_command, take_parts};
use crate::reading::read_parts;
use crate::sessions::{Sessions, find, write_sessions};
use crate::tables::{copied, table_of};
use command_codec::{CodecFault, Command, Reply, read_command};
use dlog_service::DLog;
use mrp_config::{Deployment, PartitionTable};
use mrp_types::{ClientId, Entry, Memory, Octets, PartitionId};
use range_store::RangeStore;
use services::{Service, StateFault};
use std::alloc::Global;
use std::marker::Model;

/// What a replica keeps. Contracts see its partition and what the fold has of it.
#[derive(Drop)]
pub struct ReplicaState {
    partition: PartitionTable,
    sessions: Sessions,
    logs: DLog,
    table: RangeStore,
    alloc: Global,
}

impl Model for ReplicaState {
    ghost use Rattle.replica_state.specs.Held.{Held, sessions_in, IsHeld};

    ghost Value = { Held };

    ghost view = { λ s. record { partition = s.partition; replica = record { sessions = sessions_in s.sessions.entries; logs = s.logs; table = s.table } } };

    ghost invariant = { λ s. IsHeld s.partition (record { sessions = sessions_in s.sessions.entries; logs = s.logs; table = s.table }) };
}

impl ReplicaState {
    /// What a replica of the partition keeps before its first entry.
    pub fn new(
        alloc: Global,
        deployment: &Deployment,
        p: PartitionId,
    ) -> Result<ReplicaState, Memory>
        requires { IsSome (partition_at deployment.now.partitions p.0) }
        ensures partition { IfOk result (λ s. partition_at deployment.now.partitions p.0 ≡ Some s.partition) }
        ensures empty { IfOk result (λ s. s.replica ≡ empty_replica s.partition) }
    {
        let table = table_of(deployment, p);
        ReplicaState::empty(alloc, table)
    }

    fn empty(alloc: Global, table: &PartitionTable) -> Result<ReplicaState, Memory>
        requires few { HasFewLogs table.now }
        requires rising { IsTrue (rises_from 0 table.now.logs) }
        ensures { IfOk result (λ s. s ≡ record { partition = table.now; replica = empty_replica table.now }) }
    {
        let partition = copied(alloc, table)?;
        let logs = DLog::new(alloc, table.logs.items())?;
        Ok(ReplicaState {
            partition,
            sessions: Sessions::new(alloc),
            logs,
            table: RangeStore::new(alloc),
            alloc,
        })
    }

    /// The state of the partition that the bytes are, all of the bytes.
    pub fn read(
        alloc: Global,
        deployment: &Deployment,
        p: PartitionId,
        bytes: &[u8],
    ) -> Result<ReplicaState, StateFault>
        requires { IsSome (partition_at deployment.now.partitions p.0) }
        ensures exact { (q : PartitionTable) → partition_at deployment.now.partitions p.0 ≡ Some q → SaysState (λ s. s.replica) (whole_state q bytes.now) result }
        ensures partition { IfOk result (λ s. partition_at deployment.now.partitions p.0 ≡ Some s.partition) }
    {
        let table = table_of(deployment, p);
        ReplicaState::read_of(alloc, table, bytes)
    }

    fn read_of(
        alloc: Global,
        table: &PartitionTable,
        bytes: &[u8],
    ) -> Result<ReplicaState, StateFault>
        requires few { HasFewLogs table.now }
        requires rising { IsTrue (rises_from 0 table.now.logs) }
        ensures exact { SaysState (λ s. s.replica) (whole_state table.now bytes.now) result }
        ensures partition { IfOk result (λ s. s.partition ≡ table.now) }
    {
        let partition = copied(alloc, table)?;
        let (sessions, logs, entries) = read_parts(alloc, table, bytes)?;
        Ok(ReplicaState {
            partition,
            sessions,
            logs,
            table: entries,
            alloc,
        })
    }

    /// The partition.
    pub fn partition(&self) -> PartitionId
        ensures { result ≡ self.now.partition.id }
    {
        self.partition.id
    }

    /// Whether the command concerns the partition.
    pub fn is_concerned(&self, command: &Command) -> bool
        ensures { result ≡ is_concerned_lem command.now self.now.partition }
    {
        concerns(command, &self.partition)
    }

    /// What is replied to a ReadLog, a Get or a Scan. The state stays as it is; after `Memory` it is spent.
    pub fn look(&mut self, command: &Command) -> Result<Reply, Memory>
        requires valid { IsCommand command.now }
        requires concerned { is_concerned_lem command.now self.old.partition ≡ true }
        requires looks { IsTrue (is_look command.now) }
        ensures state { OnOk result (self.new ≡ self.old) }
        ensures reply { IfOk result (λ reply. reply ≡ (effect_of command.now self.old.replica.logs self.old.replica.table).reply) }
        ensures spelled { IfOk result IsReply }
    {
        match take_command(&mut self.logs, &mut self.table, command) {
            Ok(reply) => Ok(reply),
            Err(memory) => {
                *self = ReplicaState::nothing(self.alloc);
                Err(memory)
            }
        }
    }

    /// The bytes of the state.
    pub fn write(&self) -> Result<Octets, Memory>
        ensures { IfOk result (λ bytes. bytes ≡ state_bytes self.now.replica) }
    {
        let mut out = Octets::new(self.alloc);
        write_sessions(&self.sessions, &mut out)?;
        self.logs.write_state(&mut out)?;
        self.table.write_state(&mut out)?;
        Ok(out)
    }

    /// Takes an entry, and says what is replied. `None`: its bytes are no command, the command doesn't concern the partition, or the
    /// client's kept number is greater. After `Memory` the state is spent.
    pub fn apply(&mut self, entry: &Entry) -> Result<Option<Reply>, Memory>
        requires { IsEntry entry.now }
        ensures state { OnOk result (self.new ≡ record { partition = self.old.partition; replica = (apply_lem self.old.partition self.old.replica entry.now).replica }) }
        ensures reply { IfOk result (λ reply. option_map reply_bytes reply ≡ (apply_lem self.old.partition self.old.replica entry.now).reply) }
        ensures spelled { IfOk result (λ reply. IfSome reply IsReply) }
    {
        let Some(command) = self.command_in(entry)? else {
            return Ok(None);
        };
        match self.turn(entry)? {
            Turn::Pass => Ok(None),
            Turn::Again(reply) => Ok(Some(reply)),
            Turn::Take => Ok(Some(self.take(entry, &command)?)),
        }
    }

    /// What becomes of a command of the entry, by what is kept of its client.
    fn turn(&self, entry: &Entry) -> Result<Turn, Memory>
        ensures turn { IfOk result (IsTurn self.now.replica entry.now) }
        ensures spelled { IfOk result GivesReply }
    {
        let Some(kept) = find(&self.sessions, entry.client) else {
            return Ok(Turn::Take);
        };
        if kept.seq < entry.seq {
            return Ok(Turn::Take);
        }
        if kept.seq != entry.seq {
            return Ok(Turn::Pass);
        }
        Ok(Turn::Again(reply_again(self.alloc, kept.reply.bytes())?))
    }

    /// Has the services take the command of an entry, and keeps the reply.
    fn take(&mut self, entry: &Entry, command: &Command) -> Result<Reply, Memory>
        requires given { IsGiven entry.now }
        requires valid { IsCommand command.now }
        requires concerned { is_concerned_lem command.now self.old.partition ≡ true }
        requires taken { apply_lem self.old.partition self.old.replica entry.now ≡ taken self.old.replica entry.now command.now }
        ensures state { OnOk result (self.new ≡ record { partition = self.old.partition; replica = (taken self.old.replica entry.now command.now).replica }) }
        ensures reply { IfOk result (λ reply. Some (reply_bytes reply) ≡ (taken self.old.replica entry.now command.now).reply) }
        ensures spelled { IfOk result IsReply }
    {
        match take_parts(
            self.alloc,
            &mut self.sessions,
            &mut self.logs,
            &mut self.table,
            entry,
            command,
        ) {
            Ok(reply) => Ok(reply),
            Err(memory) => {
                *self = ReplicaState::nothing(self.alloc);
                Err(memory)
            }
        }
    }

    /// A state of a partition that holds nothing.
    fn nothing(alloc: Global) -> ReplicaState {
        ReplicaState {
            partition: no_partition(alloc),
            sessions: Sessions::new(alloc),
            logs: DLog::none(alloc),
            table: RangeStore::new(alloc),
            alloc,
        }
    }

    /// The command that the bytes of an entry spell, where they spell one that concerns the partition.
    fn command_in(&self, entry: &Entry) -> Result<Option<Command>, Memory>
        requires { IsEntry entry.now }
        ensures found { IfOk result (λ command. command ≡ concerning self.now.partition (command_of entry.now.command)) }
        ensures valid { IfOk result (λ command. IfSome command IsCommand) }
        ensures given { IsGiven entry.now }
    {
        is_given(entry);
        let command = match read_command(self.alloc, entry.command.bytes()) {
            Ok(command) => command,
            Err(fault) => return none_unless_memory(fault),
        };
        if !concerns(&command, &self.partition) {
            return Ok(None);
        }
        Ok(Some(command))
    }
}

/// An entry of the code is one of bytes.
fn is_given(entry: &Entry)
    requires { IsEntry entry.now }
    ensures { IsGiven entry.now }
{
    are_bytes(entry.command.bytes());
    is_byte(entry.client);
}

fn are_bytes(bytes: &[u8])
    ensures { IsBytes bytes.now }
{
    let _ = bytes;
}

fn is_byte(client: ClientId)
    ensures { client.0 ≤ 255 }
{
    let _ = client;
}

fn none_unless_memory(fault: CodecFault) -> Result<Option<Command>, Memory>
    ensures { IfOk result (λ command. (command ≡ None) × (fault ≡ Wanted → ⊥)) }
{
    match fault {
        CodecFault::Memory => Err(Memory),
        _ => Ok(None),
    }
}
