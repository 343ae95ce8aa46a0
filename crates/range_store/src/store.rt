//! The service.

ghost use Rattle.std.specs.Prelude.{◌≡◌, ◌≤◌, ◌<◌, ◌^◌, [], ℕ, length, IfOk, OnOk, IsTrue, if◌then◌else◌, bytes_eq, is_some, Option, Some, None};
ghost use Rattle.command_codec.specs.declared.reply.Reply.TheVariants.{Absent, Exists, Done};
ghost use Rattle.command_codec.specs.Valid.{IsCommand, IsKey, IsStored, IsRange};
ghost use Rattle.plain_model.specs.Replicas.{value_of, with_entry, value_or_absent, page_of, scanned, updating, inserting, deleting, swapping};
ghost use Rattle.mrp_types.specs.Reading.{chain};
ghost use Rattle.command_codec.specs.Reader.{Reads, start};
ghost use Rattle.command_codec.specs.Grammar.{table_entry_at, key_of};
ghost use Rattle.plain_model.specs.StateBytes.{table_at};
ghost use Rattle.services.specs.Reading.{SaysState, with_count};
ghost use Rattle.services.specs.Parts.{Part, Table, is_for, effect_on, after, part_bytes, part_size, growth_of};
ghost use Rattle.range_store.specs.Table.{seen, table_size, held_size, IsTable, updated_by, inserted_by, swapped_by};

use crate::map::{Entries, find, put, take_out, write_entries};
use crate::page::scan;
use crate::reading::read_entry;
use command_codec::reading::Cursor;
use command_codec::writing::put_u64;
use command_codec::{CodecFault, Command, Reply};
use mrp_types::{Memory, Octets};
use services::{Service, StateFault};
use std::alloc::Global;
use std::marker::Model;

/// The table of a partition. Contracts see it as the state has it, in order of keys.
#[derive(Drop)]
pub struct RangeStore {
    entries: Entries,
    /// How many bytes it has in the written state, its count included.
    size: u64,
    alloc: Global,
}

impl Model for RangeStore {
    ghost use Rattle.std.specs.Prelude.{◌≡◌, List};
    ghost use Rattle.command_codec.specs.declared.reply.TableEntry.{TableEntry};
    ghost use Rattle.range_store.specs.Table.{seen, table_size, IsTable};

    ghost Value = { List TableEntry };

    ghost view = { λ s. seen s.entries.entries };

    ghost invariant = { λ s. IsTable (seen s.entries.entries) × (s.size ≡ table_size (seen s.entries.entries)) };
}

impl RangeStore {
    /// No key yet. It takes memory from `alloc` as it grows.
    pub fn new(alloc: Global) -> RangeStore
        ensures { result ≡ [] }
    {
        RangeStore {
            entries: Entries::new(alloc),
            size: 8,
            alloc,
        }
    }

    /// How many bytes an entry of the key with its value has in the written state; 0 where there is none.
    fn held(&self, key: &[u8]) -> u64
        requires { IsKey key.now }
        ensures size { result ≡ held_size key.now (value_of key.now self.now) }
        ensures small { result ≤ 2308 }
    {
        match find(&self.entries, key) {
            None => 0,
            Some(value) => 4 + (key.len() as u64 + value.len() as u64),
        }
    }

    /// Has a key hold a value, whatever it held.
    fn set(&mut self, key: &[u8], value: &[u8]) -> Result<(), Memory>
        requires key { IsKey key.now }
        requires value { IsStored value.now }
        ensures { OnOk result (self.new ≡ with_entry key.now value.now self.old) }
    {
        let held = self.held(key);
        let added = 4 + (key.len() as u64 + value.len() as u64);
        let Some(size) = (self.size - held).checked_add(added) else {
            return Err(Memory);
        };
        put(self.alloc, &mut self.entries, key, value)?;
        self.size = size;
        Ok(())
    }

    /// What a key has.
    fn get(&self, key: &[u8]) -> Result<Reply, Memory>
        ensures { IfOk result (λ reply. reply ≡ value_or_absent (value_of key.now self.now)) }
    {
        match find(&self.entries, key) {
            None => Ok(Reply::Absent),
            Some(value) => Ok(Reply::Value(Octets::from_slice(self.alloc, value.bytes())?)),
        }
    }

    /// Whether a key has a value.
    fn has(&self, key: &[u8]) -> bool
        ensures { result ≡ is_some (value_of key.now self.now) }
    {
        find(&self.entries, key).is_some()
    }

    /// The first page of the entries of a range.
    fn page(&self, from: &[u8], to: &[u8]) -> Result<Reply, Memory>
        requires { IsRange from.now to.now }
        ensures { IfOk result (λ reply. reply ≡ page_of (scanned from.now to.now self.now)) }
    {
        scan(self.alloc, &self.entries, from, to)
    }

    fn update(&mut self, key: &[u8], value: &[u8]) -> Result<Reply, Memory>
        requires key { IsKey key.now }
        requires value { IsStored value.now }
        ensures state { OnOk result (self.new ≡ (updating (value_of key.now self.old) key.now value.now [] self.old).table) }
        ensures reply { IfOk result (λ reply. reply ≡ (updating (value_of key.now self.old) key.now value.now [] self.old).reply) }
    {
        if !self.has(key) {
            return Ok(Reply::Absent);
        }
        self.set(key, value)?;
        Ok(Reply::Done)
    }

    fn insert(&mut self, key: &[u8], value: &[u8]) -> Result<Reply, Memory>
        requires key { IsKey key.now }
        requires value { IsStored value.now }
        ensures state { OnOk result (self.new ≡ (inserting (value_of key.now self.old) key.now value.now [] self.old).table) }
        ensures reply { IfOk result (λ reply. reply ≡ (inserting (value_of key.now self.old) key.now value.now [] self.old).reply) }
    {
        if self.has(key) {
            return Ok(Reply::Exists);
        }
        self.set(key, value)?;
        Ok(Reply::Done)
    }

    fn delete(&mut self, key: &[u8]) -> Reply
        requires { IsKey key.now }
        ensures state { self.new ≡ (deleting (value_of key.now self.old) key.now [] self.old).table }
        ensures reply { result ≡ (deleting (value_of key.now self.old) key.now [] self.old).reply }
    {
        let Some(value) = take_out(&mut self.entries, key) else {
            return Reply::Absent;
        };
        self.size -= 4 + (key.len() as u64 + value.len() as u64);
        Reply::Done
    }

    fn swap(&mut self, key: &[u8], old: &[u8], new: &[u8]) -> Result<Reply, Memory>
        requires key { IsKey key.now }
        requires value { IsStored new.now }
        ensures state { OnOk result (self.new ≡ (swapping (value_of key.now self.old) key.now old.now new.now [] self.old).table) }
        ensures reply { IfOk result (λ reply. reply ≡ (swapping (value_of key.now self.old) key.now old.now new.now [] self.old).reply) }
    {
        let Some(value) = find(&self.entries, key) else {
            return Ok(Reply::Absent);
        };
        if value.bytes() != old {
            return Ok(Reply::Differs(Octets::from_slice(self.alloc, value.bytes())?));
        }
        self.set(key, new)?;
        Ok(Reply::Done)
    }

    /// By how many bytes an update would raise the size.
    fn update_growth(&self, key: &[u8], value: &[u8]) -> u64
        ensures { result ≡ updated_by value.now (value_of key.now self.now) }
    {
        match find(&self.entries, key) {
            None => 0,
            Some(old) => (value.len() as u64).saturating_sub(old.len() as u64),
        }
    }

    /// By how many bytes an insert would raise the size.
    fn insert_growth(&self, key: &[u8], value: &[u8]) -> u64
        requires key { IsKey key.now }
        requires value { IsStored value.now }
        ensures { result ≡ inserted_by key.now value.now (value_of key.now self.now) }
    {
        match find(&self.entries, key) {
            None => 4 + (key.len() as u64 + value.len() as u64),
            Some(_) => 0,
        }
    }

    /// By how many bytes a swap would raise the size.
    fn swap_growth(&self, key: &[u8], old: &[u8], new: &[u8]) -> u64
        ensures { result ≡ swapped_by old.now new.now (value_of key.now self.now) }
    {
        let Some(value) = find(&self.entries, key) else {
            return 0;
        };
        if value.bytes() != old {
            return 0;
        }
        (new.len() as u64).saturating_sub(value.len() as u64)
    }

    /// The table that the section of a state at the front of the bytes has, and how many bytes the section takes. What follows it
    /// stays unread.
    pub fn read_state(alloc: Global, bytes: &[u8]) -> Result<(RangeStore, usize), StateFault>
        ensures { SaysState (λ x. x) (with_count (table_at (start bytes.now))) result }
    {
        let mut fields = Cursor::new(bytes);
        let read = RangeStore::read_from(alloc, &mut fields)?;
        Ok((read, fields.at()))
    }

    /// The same among the fields of a state.
    pub fn read_from(alloc: Global, fields: &mut Cursor<'_>) -> Result<RangeStore, CodecFault>
        ensures { Reads (λ s. s) (table_at fields.old) result fields.new }
    {
        let count = fields.u64()?;
        RangeStore::read_entries(alloc, fields, count)
    }

    /// So many entries, whose keys increase.
    fn read_entries(
        alloc: Global,
        fields: &mut Cursor<'_>,
        count: u64,
    ) -> Result<RangeStore, CodecFault>
        ensures { Reads (λ s. s) (chain table_entry_at key_of count [] fields.old) result fields.new }
    {
        let mut store = RangeStore::new(alloc);
        let mut before: &[u8] = &[];
        for _turn in 0..count {
            let (key, value) = read_entry(fields, before)?;
            before = key;
            store.set(key, value)?;
        }
        Ok(store)
    }
}

impl Service for RangeStore {
    ghost part = { λ s. Table s };

    fn apply(&mut self, command: &Command) -> Result<Reply, Memory> {
        let _entries = &self.entries;
        match command {
            Command::Get { key } => self.get(key.bytes()),
            Command::Scan { from, to } => self.page(from.bytes(), to.bytes()),
            Command::Update { key, value } => self.update(key.bytes(), value.bytes()),
            Command::Insert { key, value } => self.insert(key.bytes(), value.bytes()),
            Command::Delete { key } => Ok(self.delete(key.bytes())),
            Command::Swap { key, old, new } => self.swap(key.bytes(), old.bytes(), new.bytes()),
            _ => unreachable!(),
        }
    }

    fn growth(&self, command: &Command) -> u64 {
        let _entries = &self.entries;
        match command {
            Command::Update { key, value } => self.update_growth(key.bytes(), value.bytes()),
            Command::Insert { key, value } => self.insert_growth(key.bytes(), value.bytes()),
            Command::Swap { key, old, new } => {
                self.swap_growth(key.bytes(), old.bytes(), new.bytes())
            }
            _ => 0,
        }
    }

    fn size(&self) -> u64 {
        self.size
    }

    fn write_state(&self, to: &mut Octets) -> Result<(), Memory> {
        put_u64(to, self.entries.len() as u64)?;
        write_entries(&self.entries, to)
    }
}
