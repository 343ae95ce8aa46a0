//! What an acceptor keeps for good.
ghost use Rattle.std.specs.Prelude.{◌≡◌, ◌↔◌, IfOk, OnOk, IsTrue, ℕ, ◌<◌, ◌≤◌, replicate, MatchOption, ◌++◌};
ghost use Rattle.std.specs.List.{AllByRecursion};
ghost use Rattle.range_map.specs.Entries.{entries_from, value_at};
ghost use Rattle.vote_state.specs.Ranges.{AreMaximalRanges, cast_of};
ghost use Rattle.vote_state.specs.State.{State, IsState, no_votes, nothing_kept, ring_at, promise_at, trim_at, votes_at, votes_from, promise_after, trim_after, has_vote, changed, taken, rings_changes, state_changes};
ghost use Rattle.vote_state.specs.Valid.{IsChange, IsVoted};

use crate::ring::{RingState, add_ring, holds, ranges_from};
use crate::{Change, Changes};
use mrp_types::limits::RINGS;
use mrp_types::{Ballot, Inst, Memory, RingId, Voted, Votes};
use std::alloc::Global;
use std::marker::Model;

/// The epoch of a node and, per ring, the promise, the trim and the votes of its acceptor. Runs of
/// equal votes are kept as one, so a vote costs the same for any number of instances.
#[derive(Drop)]
pub struct Durable {
    alloc: Global,
    epoch: u32,
    rings: [RingState; RINGS],
}

impl Model for Durable {
    ghost use Rattle.vote_state.specs.State.{State, AreRings};

    ghost Value = { State };

    ghost view = { λ d. record { epoch = d.epoch; rings = d.rings } };

    ghost invariant = { λ d. AreRings d.rings };
}

impl Durable {
    /// Epoch 0, and for each ring promise 0, trim 0 and no vote.
    pub fn new(alloc: Global) -> Self
        ensures { result ≡ nothing_kept }
    {
        Durable {
            alloc,
            epoch: 0,
            rings: no_rings(alloc),
        }
    }

    /// How often the node was opened.
    pub fn epoch(&self) -> u32
        ensures epoch { result ≡ self.now.epoch }
        ensures formed { IsState self.now }
    {
        self.epoch
    }

    /// What is kept of a ring; `None` of one that isn't below 16.
    fn state(&self, ring: RingId) -> Option<&RingState>
        ensures state { MatchOption result (ring_at self.now ring ≡ no_votes) (λ state. state.now ≡ ring_at self.now ring) }
        ensures formed { IsState self.now }
    {
        self.rings.get(usize::from(ring.0))
    }

    /// The ballot of the last promise that the ring's acceptor made; 0 for none. Of a ring that
    /// isn't below 16 nothing is kept.
    pub fn promise(&self, ring: RingId) -> Ballot
        ensures promise { result ≡ promise_at self.now ring }
        ensures formed { IsState self.now }
    {
        let Some(state) = self.state(ring) else {
            return 0;
        };
        state.promise
    }

    /// The trim of the ring's acceptor; the votes below it were dropped when it was set. 0 for none.
    pub fn trim(&self, ring: RingId) -> Inst
        ensures trim { result ≡ trim_at self.now ring }
        ensures formed { IsState self.now }
    {
        let Some(state) = self.state(ring) else {
            return 0;
        };
        state.trim
    }

    /// The promise of a ring as these changes would leave it.
    pub fn promise_after(&self, changes: &[Change], ring: RingId) -> Ballot
        ensures promise { result ≡ promise_after ring changes.now (promise_at self.now ring) }
        ensures taken { AllByRecursion IsChange changes.now → result ≡ promise_at (taken changes.now self.now) ring }
    {
        let mut promise = self.promise(ring);
        for change in changes {
            promise = change.promise(ring, promise);
        }
        promise
    }

    /// The trim of a ring as these changes would leave it.
    pub fn trim_after(&self, changes: &[Change], ring: RingId) -> Inst
        ensures trim { result ≡ trim_after ring changes.now (trim_at self.now ring) }
        ensures taken { AllByRecursion IsChange changes.now → result ≡ trim_at (taken changes.now self.now) ring }
    {
        let mut trim = self.trim(ring);
        for change in changes {
            trim = change.trim(ring, trim);
        }
        trim
    }

    /// The held votes of a ring from `from` on, as maximal ranges in order: neighbours of one
    /// ballot and Skip are one range, a batch has a range of its own.
    pub fn votes(&self, ring: RingId, from: Inst) -> Result<Votes, Memory>
        ensures votes { IfOk result (λ votes. votes ≡ votes_from self.now ring from) }
        ensures valid { IfOk result (λ votes. AllByRecursion IsVoted votes) }
        ensures maximal { IfOk result (λ votes. AreMaximalRanges (entries_from from (votes_at self.now ring)) votes) }
    {
        let Some(state) = self.state(ring) else {
            return Ok(Votes::new(self.alloc));
        };
        ranges_from(self.alloc, &state.votes, from)
    }

    /// Whether each instance of the range holds that ballot and value.
    pub fn has_vote(&self, ring: RingId, vote: &Voted) -> bool
        ensures held { result ≡ has_vote self.now ring vote.now }
        ensures each { IsTrue result ↔ ((i : ℕ) → vote.now.lo ≤ i → i < vote.now.hi → value_at i (votes_at self.now ring) ≡ Some (cast_of vote.now)) }
    {
        let Some(state) = self.state(ring) else {
            return vote.hi <= vote.lo;
        };
        holds(&state.votes, vote)
    }

    /// Makes one change.
    fn make(&mut self, change: &Change) -> Result<(), Memory>
        requires { IsChange change.now }
        ensures { OnOk result (self.new ≡ changed change.now self.old) }
    {
        match change {
            Change::Epoch(epoch) => self.epoch = *epoch,
            Change::Promise(ring, ballot) => {
                self.rings[usize::from(ring.0)].promise = *ballot;
            }
            Change::Vote(ring, vote) => self.rings[usize::from(ring.0)].vote(self.alloc, vote)?,
            Change::Trim(ring, trim) => self.rings[usize::from(ring.0)].cut(*trim),
        }
        Ok(())
    }

    /// Makes the changes in order. After `Memory` the state is spent.
    pub fn take(&mut self, changes: &Changes) -> Result<(), Memory>
        requires { AllByRecursion IsChange changes.now }
        ensures { OnOk result (self.new ≡ taken changes.now self.old) }
    {
        for change in changes.items() {
            self.make(change)?;
        }
        Ok(())
    }

    /// The changes that make this state of a new one: the epoch, then by ring the promise and the
    /// trim where they aren't 0, and the votes as maximal ranges in order.
    pub fn changes(&self) -> Result<Changes, Memory>
        ensures changes { IfOk result (λ changes. changes ≡ state_changes self.now) }
        ensures valid { IfOk result (λ changes. AllByRecursion IsChange changes) }
        ensures again { IfOk result (λ changes. taken changes nothing_kept ≡ self.now) }
    {
        let mut changes = Changes::new(self.alloc);
        changes.push(Change::Epoch(self.epoch()))?;
        self.add_rings(&mut changes)?;
        Ok(changes)
    }

    fn add_rings(&self, changes: &mut Changes) -> Result<(), Memory>
        ensures made { OnOk result (changes.new ≡ changes.old ++ rings_changes 0 self.now.rings) }
        ensures formed { IsState self.now }
    {
        for (number, ring) in self.rings.iter().enumerate() {
            add_ring(self.alloc, changes, RingId(number as u8), ring)?;
        }
        Ok(())
    }
}

/// Nothing kept of any ring.
fn no_rings(alloc: Global) -> [RingState; RINGS]
    ensures { result ≡ replicate 16 no_votes }
{
    [
        RingState::new(alloc),
        RingState::new(alloc),
        RingState::new(alloc),
        RingState::new(alloc),
        RingState::new(alloc),
        RingState::new(alloc),
        RingState::new(alloc),
        RingState::new(alloc),
        RingState::new(alloc),
        RingState::new(alloc),
        RingState::new(alloc),
        RingState::new(alloc),
        RingState::new(alloc),
        RingState::new(alloc),
        RingState::new(alloc),
        RingState::new(alloc),
    ]
}
