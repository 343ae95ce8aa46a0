//! The service.

ghost use Rattle.std.specs.Prelude.{◌≡◌, ◌≤◌, ◌<◌, ◌^◌, ◌++◌, ◌∷◌, [], ℕ, ◌+◌, ◌*◌, if◌then◌else◌, count_by, false, map, length, IfOk, OnOk, IsTrue, List};
ghost use Rattle.command_codec.specs.declared.command.Command.TheVariants.{Multi, ReadLog, TrimLog};
ghost use Rattle.command_codec.specs.declared.reply.Reply.TheVariants.{Positions};
ghost use Rattle.command_codec.specs.Valid.{IsCommand, IsStored, rises_from};
ghost use Rattle.command_codec.specs.Replies.{IsReply};
ghost use Rattle.mrp_config.specs.Config.{has_log};
ghost use Rattle.plain_model.specs.Replicas.{LogState, empty_log, with_value, is_one_too_long, ends_of, read_at, log_at, trimming};
ghost use Rattle.command_codec.specs.Reader.{Reads, start};
ghost use Rattle.plain_model.specs.StateBytes.{logs_at};
ghost use Rattle.services.specs.Reading.{SaysState, with_count};
ghost use Rattle.services.specs.Parts.{Part, Logs, ids_of, is_for, effect_on, after, part_bytes, part_size, growth_of};
ghost use Rattle.dlog_service.specs.Logs.{AreLogs, logs_size, is_named};

use crate::log::Log;
use crate::logs::{append_each, count_named, is_one_full, new_logs, place_of, size_of, write_logs};
use crate::reading::read_logs;
use command_codec::reading::Cursor;
use command_codec::writing::put_u8;
use command_codec::{CodecFault, Command, Reply};
use mrp_types::{LogId, Memory, Octets};
use services::{ROOM, Service, StateFault};
use std::alloc::Global;
use std::marker::Model;

/// The logs of a partition. Contracts see them as the state has them, in order of their numbers.
#[derive(Drop)]
pub struct DLog {
    logs: Vec<Log>,
    /// How many bytes they have in the written state, their count included.
    size: u64,
    alloc: Global,
}

impl Model for DLog {
    ghost use Rattle.std.specs.Prelude.{◌≡◌, List};
    ghost use Rattle.plain_model.specs.Replicas.{LogState};
    ghost use Rattle.dlog_service.specs.Logs.{AreLogs, logs_size};

    ghost Value = { List LogState };

    ghost view = { λ d. d.logs.items };

    ghost invariant = { λ d. AreLogs d.logs.items × (d.size ≡ logs_size d.logs.items) };
}

impl DLog {
    /// Empty logs of these numbers, which increase and are below 64. They take memory from `alloc` as they grow.
    pub fn new(alloc: Global, logs: &[LogId]) -> Result<DLog, Memory>
        requires { IsTrue (rises_from 0 logs.now) }
        ensures { IfOk result (λ d. d ≡ map empty_log logs.now) }
    {
        let size = 1 + 17 * logs.len() as u64;
        let logs = new_logs(alloc, logs)?;
        Ok(DLog { logs, size, alloc })
    }

    /// No log at all. It takes no memory.
    pub fn none(alloc: Global) -> DLog
        ensures { result ≡ [] }
    {
        DLog {
            logs: Vec::new(alloc),
            size: 1,
            alloc,
        }
    }

    /// The logs that the section of a state at the front of the bytes has, where these are all the numbers that it may name,
    /// and how many bytes the section takes. What follows it stays unread.
    pub fn read_state(
        alloc: Global,
        bytes: &[u8],
        logs: &[LogId],
    ) -> Result<(DLog, usize), StateFault>
        requires { IsTrue (rises_from 0 logs.now) }
        ensures { SaysState (λ x. x) (with_count (logs_at logs.now (start bytes.now))) result }
    {
        let mut fields = Cursor::new(bytes);
        let read = DLog::read_from(alloc, &mut fields, logs)?;
        Ok((read, fields.at()))
    }

    /// The same among the fields of a state.
    pub fn read_from(
        alloc: Global,
        fields: &mut Cursor<'_>,
        logs: &[LogId],
    ) -> Result<DLog, CodecFault>
        requires { IsTrue (rises_from 0 logs.now) }
        ensures { Reads (λ d. d) (logs_at logs.now fields.old) result fields.new }
    {
        let count = logs.len() as u8;
        fields.byte_within(count, count)?;
        let logs = read_logs(alloc, fields, logs)?;
        let size = size_of(&logs)?;
        Ok(DLog { logs, size, alloc })
    }

    /// By how many bytes a value would raise the size where the named logs take it.
    fn added(&self, named: &[LogId], value: &[u8]) -> u64
        requires { IsStored value.now }
        ensures { result ≡ (if is_one_too_long (with_value value.now named.now self.now) then 67108865 else count_by (is_named named.now) self.now * (2 + length value.now)) }
    {
        if is_one_full(&self.logs, named) {
            return ROOM + 1;
        }
        count_named(&self.logs, named) as u64 * (2 + value.len() as u64)
    }

    /// Adds a value to each of the named logs.
    fn append(&mut self, named: &[LogId], value: &[u8]) -> Result<Reply, Memory>
        requires short { IsStored value.now }
        requires room { is_one_too_long (with_value value.now named.now self.old) ≡ false }
        ensures state { OnOk result (self.new ≡ with_value value.now named.now self.old) }
        ensures reply { IfOk result (λ reply. reply ≡ Positions (ends_of named.now self.old)) }
    {
        let added = self.added(named, value);
        let Some(size) = self.size.checked_add(added) else {
            return Err(Memory);
        };
        match append_each(self.alloc, &mut self.logs, named, value) {
            Ok(positions) => {
                self.size = size;
                Ok(Reply::Positions(positions))
            }
            Err(memory) => {
                self.logs.clear();
                self.size = 1;
                Err(memory)
            }
        }
    }

    /// What stands at a position of a log.
    fn read(&self, id: LogId, position: u64) -> Result<Reply, Memory>
        requires { IsTrue (has_log (ids_of self.now) id.0) }
        ensures { IfOk result (λ reply. reply ≡ read_at position (log_at id self.now)) }
    {
        let place = place_of(&self.logs, id);
        self.logs[place].read(self.alloc, position)
    }

    /// Drops the values of a log below a position.
    fn trim(&mut self, id: LogId, position: u64) -> Reply
        requires { IsTrue (has_log (ids_of self.old) id.0) }
        ensures state { self.new ≡ (trimming position (log_at id self.old) self.old []).logs }
        ensures reply { result ≡ (trimming position (log_at id self.old) self.old []).reply }
    {
        let place = place_of(&self.logs, id);
        let length = self.logs[place].length();
        if length < position {
            return Reply::Beyond(length);
        }
        self.size -= self.logs[place].trim_to(position);
        Reply::Done
    }
}

impl Service for DLog {
    ghost part = { λ d. Logs d };

    fn apply(&mut self, command: &Command) -> Result<Reply, Memory> {
        let _logs = &self.logs;
        match command {
            Command::Append { log, value } => self.append(&[*log], value.bytes()),
            Command::Multi { logs, value } => self.append(logs.items(), value.bytes()),
            Command::ReadLog { log, position } => self.read(*log, *position),
            Command::TrimLog { log, position } => Ok(self.trim(*log, *position)),
            _ => unreachable!(),
        }
    }

    fn growth(&self, command: &Command) -> u64 {
        let _logs = &self.logs;
        match command {
            Command::Append { log, value } => self.added(&[*log], value.bytes()),
            Command::Multi { logs, value } => self.added(logs.items(), value.bytes()),
            _ => 0,
        }
    }

    fn size(&self) -> u64 {
        self.size
    }

    fn write_state(&self, to: &mut Octets) -> Result<(), Memory> {
        put_u8(to, self.logs.len() as u8)?;
        write_logs(&self.logs, to)
    }
}
