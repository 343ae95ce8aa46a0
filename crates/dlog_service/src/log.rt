//! One log.

ghost use Rattle.std.specs.Prelude.{◌≡◌, ◌+◌, ◌<◌, ◌≤◌, ◌^◌, ◌++◌, ◌∷◌, [], IfOk, OnOk, length, drop};
ghost use Rattle.std.specs.List.{AllByRecursion, flat_map};
ghost use Rattle.command_codec.specs.Fields.{string16};
ghost use Rattle.command_codec.specs.Valid.{IsStored};
ghost use Rattle.plain_model.specs.Replicas.{LogState, empty_log, log_length, log_size, read_at, trimmed_to};
ghost use Rattle.plain_model.specs.StateBytes.{log_bytes};
ghost use Rattle.state_laws.specs.States.{IsLog, IsShort};
ghost use Rattle.dlog_service.specs.Logs.{values_size};

use command_codec::Reply;
use command_codec::writing::{put_string16, put_u8, put_u64};
use mrp_types::{LogId, Memory, Octets};
use std::alloc::Global;
use std::collections::VecDeque;
use std::marker::Model;

/// A log: how many of its values were trimmed away, and the others in order. Contracts see it as the state has it.
#[derive(Drop)]
pub struct Log {
    id: LogId,
    trim: u64,
    values: VecDeque<Octets>,
}

impl Model for Log {
    ghost use Rattle.plain_model.specs.Replicas.{LogState};
    ghost use Rattle.state_laws.specs.States.{IsLog};

    ghost Value = { LogState };

    ghost view = { λ l. record { id = l.id; trim = l.trim; values = l.values.items } };

    ghost invariant = { λ l. IsLog (record { id = l.id; trim = l.trim; values = l.values.items }) };
}

impl Log {
    /// The greatest length of a log.
    pub const LENGTH: u64 = 1 << 63;

    /// No value yet.
    pub fn new(alloc: Global, id: LogId) -> Self
        ensures { result ≡ empty_log id }
    {
        Log {
            id,
            trim: 0,
            values: VecDeque::new(alloc),
        }
    }

    /// A log of this number, of which so many values were trimmed away and these are kept.
    pub fn with(id: LogId, trim: u64, values: VecDeque<Octets>) -> Self
        requires few { trim + length values.items ≤ 2 ^ 63 }
        requires short { AllByRecursion IsShort values.items }
        ensures { result ≡ record { id = id; trim = trim; values = values.items } }
    {
        Log { id, trim, values }
    }

    /// The log's number.
    pub fn id(&self) -> LogId
        ensures { result ≡ self.now.id }
    {
        self.id
    }

    /// How many values were added so far.
    pub fn length(&self) -> u64
        ensures { result ≡ log_length self.now }
    {
        self.trim + self.values.len() as u64
    }

    /// Adds a value at the end.
    pub fn push(&mut self, value: Octets) -> Result<(), Memory>
        requires short { IsStored value }
        requires room { log_length self.old < Self.LENGTH }
        ensures { OnOk result (self.new ≡ record self.old { values = self.old.values ++ value ∷ [] }) }
    {
        self.values.push_back(value)?;
        Ok(())
    }

    /// What stands at a position.
    pub fn read(&self, alloc: Global, position: u64) -> Result<Reply, Memory>
        ensures { IfOk result (λ reply. reply ≡ read_at position self.now) }
    {
        if position < self.trim {
            return Ok(Reply::Trimmed(self.trim));
        }
        let length = self.length();
        if length <= position {
            return Ok(Reply::Beyond(length));
        }
        let Some(value) = self.values.get((position - self.trim) as usize) else {
            return Ok(Reply::Beyond(length));
        };
        Ok(Reply::Value(Octets::from_slice(alloc, value.bytes())?))
    }

    /// Drops the values below a position, and says how many bytes they had in the written state, each with its length. A trim never
    /// falls.
    pub fn trim_to(&mut self, position: u64) -> u64
        requires there { position ≤ log_length self.old }
        requires small { values_size self.old.values < 2 ^ 64 }
        ensures state { self.new ≡ trimmed_to position self.old }
        ensures freed { values_size self.old.values ≡ values_size self.new.values + result }
    {
        if position <= self.trim {
            return 0;
        }
        let freed = drop_front(&mut self.values, position - self.trim);
        self.trim = position;
        freed
    }

    /// How many bytes the log has in the written state. It walks over the kept values.
    pub fn size(&self) -> Result<u64, Memory>
        ensures { IfOk result (λ n. n ≡ log_size self.now) }
    {
        let (front, back) = self.values.as_slices();
        let some = add_sizes(17, front)?;
        add_sizes(some, back)
    }

    /// Writes the log: its number, its trim, and the kept values behind their number.
    pub fn write(&self, to: &mut Octets) -> Result<(), Memory>
        ensures { OnOk result (to.new ≡ to.old ++ log_bytes self.now) }
    {
        put_u8(to, self.id.0)?;
        put_u64(to, self.trim)?;
        put_u64(to, self.values.len() as u64)?;
        put_all(to, &self.values)
    }
}

/// Drops so many values from the front, and says how many bytes they had in the written state, each with its length.
fn drop_front(values: &mut VecDeque<Octets>, count: u64) -> u64
    requires some { count ≤ length values.old.items }
    requires small { values_size values.old.items < 2 ^ 64 }
    ensures left { values.new.items ≡ drop count values.old.items }
    ensures freed { values_size values.old.items ≡ values_size values.new.items + result }
{
    let mut freed = 0;
    for _turn in 0..count {
        let Some(value) = values.pop_front() else {
            unreachable!();
        };
        freed += 2 + value.len() as u64;
    }
    freed
}

/// Adds the values in order, each behind its length.
fn put_all(to: &mut Octets, values: &VecDeque<Octets>) -> Result<(), Memory>
    requires { AllByRecursion IsShort values.now.items }
    ensures { OnOk result (to.new ≡ to.old ++ flat_map string16 values.now.items) }
{
    let (front, back) = values.as_slices();
    put_values(to, front)?;
    put_values(to, back)
}

/// Adds each value behind its length.
fn put_values(to: &mut Octets, values: &[Octets]) -> Result<(), Memory>
    requires { AllByRecursion IsShort values.now }
    ensures { OnOk result (to.new ≡ to.old ++ flat_map string16 values.now) }
{
    for value in values {
        put_string16(to, value.bytes())?;
    }
    Ok(())
}

/// So much and the bytes of the values, each with its length.
fn add_sizes(so_far: u64, values: &[Octets]) -> Result<u64, Memory>
    ensures { IfOk result (λ n. n ≡ so_far + values_size values.now) }
{
    let mut sum = so_far;
    for value in values {
        sum = plus(plus(sum, 2)?, value.len() as u64)?;
    }
    Ok(sum)
}

/// The sum; one past all numbers is want of memory, since no memory holds so much.
pub fn plus(a: u64, b: u64) -> Result<u64, Memory>
    ensures { IfOk result (λ n. n ≡ a + b) }
{
    let Some(sum) = a.checked_add(b) else {
        return Err(Memory);
    };
    Ok(sum)
}
