//! The commands that wait to be learned.
ghost use Rattle.std.specs.Prelude.{◌≡◌, ℕ, List, ◌+◌, ◌≤◌, ◌++◌, ◌∷◌, [], false, not, nat_le, length, filter, map, take, drop, IfOk, OnOk, OnErr};
ghost use Rattle.std.specs.List.{AllByRecursion};
ghost use Rattle.mrp_types.specs.Entries.{IsEntry};
ghost use Rattle.command_codec.specs.Spelling.{entry_bytes};
ghost use Rattle.indexmap.specs.IndexSet.{contains};
ghost use Rattle.protocol.specs.Learner.{still_pending};
ghost use Rattle.protocol.specs.Coordinator.{is_pending, most_pending};
ghost use Rattle.mrp_types.specs.declared.value.Entry.{Entry};
ghost use Rattle.plain_model.specs.Pages.{front_within};
ghost use Rattle.protocol.specs.Proposing.{entry_size, fresh_entries, with_proposed, unproposed};
ghost use Rattle.coordinator.specs.Waiting.{IsNamed, same_name, is_named};
ghost use Rattle.coordinator.specs.declared.queue.Name.{Name};

use command_codec::Entries;
use indexmap::{IndexMap, IndexSet};
use mrp_types::{ClientId, Entry, Memory};
use std::alloc::Global;
use std::marker::Model;

/// How many commands may wait.
const MOST: usize = 1_024;

/// How many bytes the entries of a batch may take; the kind and the count take the other 3 of 8,192.
const BATCH_ROOM: usize = 8_189;

/// A command by its client and the client's number for it.
#[derive(Clone, Copy, Debug, PartialEq, Eq, Hash)]
pub struct Name {
    pub client: ClientId,
    pub seq: u64,
}

impl Name {
    fn of(entry: &Entry) -> Name
        ensures { result ≡ record { client = entry.now.client; seq = entry.now.seq } }
    {
        Name {
            client: entry.client,
            seq: entry.seq,
        }
    }
}

/// Commands in the order in which they came, each once. The oldest of them are proposed.
#[derive(Drop)]
pub struct Queue {
    alloc: Global,
    waiting: IndexMap<Name, Entry>,
    proposed: usize,
}

impl Model for Queue {
    ghost use Rattle.std.specs.Prelude.{List, ◌≤◌, length};
    ghost use Rattle.std.specs.List.{AllByRecursion};
    ghost use Rattle.protocol.specs.Parts.{Pending};
    ghost use Rattle.coordinator.specs.Waiting.{marked, IsNamed};

    ghost Value = { List Pending };

    ghost view = { λ q. marked q.proposed q.waiting.entries };

    ghost invariant = { λ q. (q.proposed ≤ length q.waiting.entries) × AllByRecursion IsNamed q.waiting.entries };
}

impl Queue {
    /// Nothing waits.
    pub fn new(alloc: Global) -> Queue
        ensures { result ≡ [] }
    {
        Queue {
            alloc,
            waiting: IndexMap::new(alloc),
            proposed: 0,
        }
    }

    /// Whether as many wait as may.
    #[tactic(auto, using(crate::proofs::Waiting::marked_length))]
    pub fn is_full(&self) -> bool
        ensures { result ≡ nat_le most_pending (length self.now) }
    {
        MOST <= self.waiting.len()
    }

    /// Whether the command of this client and number waits.
    pub fn has(&self, client: ClientId, seq: u64) -> bool
        ensures { (command : List ℕ) → result ≡ is_pending (record { client = client; seq = seq; command = command }) self.now }
    {
        self.waiting.contains_key(&Name { client, seq })
    }

    /// Has a command wait that doesn't yet. Without memory nothing is changed.
    pub fn push(&mut self, entry: Entry) -> Result<(), Memory>
        requires entry { IsEntry entry }
        requires new { is_pending entry self.old ≡ false }
        ensures ok { OnOk result (self.new ≡ self.old ++ (record { entry = entry; proposed = false }) ∷ []) }
        ensures err { OnErr result (self.new ≡ self.old) }
    {
        self.waiting.insert(Name::of(&entry), entry)?;
        Ok(())
    }

    /// The longest prefix of the commands that aren't proposed whose batch has at most 8,192 bytes.
    #[tactic(auto, using(crate::proofs::Waiting::marked_unproposed))]
    pub fn fresh(&self) -> Result<Entries, Memory>
        ensures entries { IfOk result (λ entries. entries ≡ fresh_entries self.now) }
        ensures valid { IfOk result (λ entries. AllByRecursion IsEntry entries) }
    {
        fresh_of(self.alloc, &self.waiting, self.proposed)
    }

    /// The first `count` of the commands that aren't proposed are proposed now.
    #[tactic(auto, using(crate::proofs::Waiting::marked_further, crate::proofs::Waiting::unproposed_left))]
    pub fn propose(&mut self, count: usize)
        requires { count ≤ length (unproposed self.old) }
        ensures { self.new ≡ with_proposed count self.old }
    {
        let left = self.waiting.len() - self.proposed;
        self.proposed += count.min(left);
    }

    /// Drops the commands that are among these. Without memory nothing is changed.
    pub fn take_out(&mut self, entries: &[Entry]) -> Result<(), Memory>
        ensures ok { OnOk result (self.new ≡ still_pending entries.now self.old) }
        ensures err { OnErr result (self.new ≡ self.old) }
    {
        let names = names_of(self.alloc, entries)?;
        let proposed = still_proposed(&self.waiting, self.proposed, &names);
        keep_others(&mut self.waiting, &names);
        self.proposed = proposed;
        Ok(())
    }
}

/// How many bytes an entry takes in a batch.
fn entry_size(entry: &Entry) -> usize
    requires { IsEntry entry.now }
    ensures { result ≡ length (entry_bytes entry.now) }
{
    11 + entry.command.len()
}

/// The longest prefix of the commands from `begin` on that has room in a batch.
fn fresh_of(alloc: Global, waiting: &IndexMap<Name, Entry>, begin: usize) -> Result<Entries, Memory>
    requires { AllByRecursion IsNamed waiting.now.entries }
    ensures entries { IfOk result (λ entries. entries ≡ front_within entry_size 8189 (map (λ (e : Name × Entry). e.1) (drop begin waiting.now.entries))) }
    ensures valid { IfOk result (λ entries. AllByRecursion IsEntry entries) }
{
    let mut fresh = Vec::new(alloc);
    let mut room = BATCH_ROOM;
    for at in begin..waiting.len() {
        let Some((_, entry)) = waiting.get_index(at) else {
            return Ok(Entries::from_vec(fresh));
        };
        let size = entry_size(entry);
        if room < size {
            return Ok(Entries::from_vec(fresh));
        }
        room -= size;
        fresh.push(entry.copy(alloc)?)?;
    }
    Ok(Entries::from_vec(fresh))
}

/// The names of these commands.
fn names_of(alloc: Global, entries: &[Entry]) -> Result<IndexSet<Name>, Memory>
    ensures { IfOk result (λ names. (name : Name) → contains same_name names name ≡ is_named name entries.now) }
{
    let mut names = IndexSet::new(alloc);
    for entry in entries {
        names.insert(Name::of(entry))?;
    }
    Ok(names)
}

/// How many of the first `proposed` commands aren't among these.
fn still_proposed(waiting: &IndexMap<Name, Entry>, proposed: usize, names: &IndexSet<Name>) -> usize
    ensures { result ≡ length (filter (λ e. not (contains same_name names.now e.0)) (take proposed waiting.now.entries)) }
{
    let mut count = 0;
    for at in 0..proposed {
        count += count_at(waiting, at, names);
    }
    count
}

/// 1 where a command is at this place and isn't among these, else 0.
#[tactic(auto, using(crate::proofs::Waiting::kept_more, crate::proofs::Waiting::kept_all))]
fn count_at(waiting: &IndexMap<Name, Entry>, at: usize, names: &IndexSet<Name>) -> usize
    ensures counted { length (filter (λ e. not (contains same_name names.now e.0)) (take (at + 1) waiting.now.entries))
        ≡ length (filter (λ e. not (contains same_name names.now e.0)) (take at waiting.now.entries)) + result }
    ensures one { result ≤ 1 }
{
    let Some((name, _)) = waiting.get_index(at) else {
        return 0;
    };
    if names.contains(name) {
        return 0;
    }
    1
}

/// Drops the commands of these names; the others keep their order.
fn keep_others(waiting: &mut IndexMap<Name, Entry>, names: &IndexSet<Name>)
    ensures { waiting.new.entries ≡ filter (λ e. not (contains same_name names.now e.0)) waiting.old.entries }
{
    waiting.retain(
        |name: &Name, entry: &mut Entry| -> bool
            ensures { (result ≡ not (contains same_name names.entry.now name.now)) × (entry.new ≡ entry.old) }
        { !names.contains(name) },
    );
}
