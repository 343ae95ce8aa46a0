//! What is kept of one ring.
ghost use Rattle.std.specs.Prelude.{◌≡◌, ◌<◌, ◌≤◌, ◌^◌, ◌∷◌, [], ◌++◌, map, IfOk, OnOk, MatchOption};
ghost use Rattle.range_map.specs.Entries.{entries_from};
ghost use Rattle.vote_state.specs.declared.change.Change.TheVariants.{Vote};
ghost use Rattle.vote_state.specs.Ranges.{cast_of, ranges_of, are_held};
ghost use Rattle.vote_state.specs.Valid.{IsVoted, IsInst};
ghost use Rattle.vote_state.specs.State.{IsKept, no_votes, with_vote, with_trim, promise_changes, trim_changes, ring_changes};

use crate::cast::Cast;
use crate::{Change, Changes};
use mrp_types::{Ballot, Inst, Memory, RingId, Value, Voted, Votes};
use range_map::RangeMap;
use std::alloc::Global;

/// What an acceptor keeps of a ring.
#[derive(Drop)]
pub struct RingState {
    /// The greatest ballot that was promised; 0 for none.
    pub promise: Ballot,
    /// The votes below this instance were dropped when it was set.
    pub trim: Inst,
    pub votes: RangeMap<Cast>,
}

impl RingState {
    /// No promise, no trim and no votes.
    pub fn new(alloc: Global) -> Self
        ensures { result ≡ no_votes }
    {
        RingState {
            promise: 0,
            trim: 0,
            votes: RangeMap::new(alloc),
        }
    }

    /// Has each instance of the range hold the vote. After `Memory` it isn't told which votes are held.
    pub fn vote(&mut self, alloc: Global, vote: &Voted) -> Result<(), Memory>
        requires vote { IsVoted vote.now }
        requires kept { IsKept self.old }
        ensures state { OnOk result (self.new ≡ with_vote vote.now self.old) }
        ensures kept { IsKept self.new }
    {
        let cast = Cast::of(vote)?;
        if let Err(memory) = self.votes.set_range(vote.lo, vote.hi, cast) {
            self.votes = RangeMap::new(alloc);
            return Err(memory);
        }
        Ok(())
    }

    /// Sets the trim, and drops the votes below it.
    pub fn cut(&mut self, trim: Inst)
        requires trim { IsInst trim }
        requires kept { IsKept self.old }
        ensures state { self.new ≡ with_trim trim self.old }
        ensures kept { IsKept self.new }
    {
        self.trim = trim;
        self.votes.cut_below(trim);
    }
}

/// The first of the maximal ranges of the votes from `from` on; `None` where there is no such vote.
fn next_range(votes: &RangeMap<Cast>, from: Inst) -> Result<Option<Voted>, Memory>
    ensures { IfOk result (λ next. MatchOption next
        (ranges_of (entries_from from votes.now) ≡ [])
        (λ range. (from < range.hi) × (ranges_of (entries_from from votes.now) ≡ range ∷ ranges_of (entries_from range.hi votes.now)))) }
{
    let Some(lo) = votes.next_after(from) else {
        return Ok(None);
    };
    let Some(cast) = votes.get(lo) else {
        return Ok(None);
    };
    let Some((_, end)) = votes.run_at(lo) else {
        return Ok(None);
    };
    let hi = match cast.value {
        Value::Skip => end,
        Value::Batch(_) => lo + 1,
    };
    Ok(Some(Voted {
        lo,
        hi,
        ballot: cast.ballot,
        value: cast.value.share()?,
    }))
}

/// The votes from `from` on as maximal ranges.
pub fn ranges_from(alloc: Global, votes: &RangeMap<Cast>, from: Inst) -> Result<Votes, Memory>
    ensures { IfOk result (λ ranges. ranges ≡ ranges_of (entries_from from votes.now)) }
{
    let mut ranges = Votes::new(alloc);
    let mut at = from;
    while let Some(range) = next_range(votes, at)? {
        at = range.hi;
        ranges.push(range)?;
    }
    Ok(ranges)
}

/// Whether each instance of the range holds that ballot and value.
pub fn holds(votes: &RangeMap<Cast>, vote: &Voted) -> bool
    ensures { result ≡ are_held vote.now votes.now }
{
    if vote.hi <= vote.lo {
        return true;
    }
    let Some(cast) = votes.get(vote.lo) else {
        return false;
    };
    let Some((_, end)) = votes.run_at(vote.lo) else {
        return false;
    };
    if end < vote.hi {
        return false;
    }
    cast.ballot == vote.ballot && cast.value.same(&vote.value)
}

/// Adds the changes that make the state of a ring.
pub fn add_ring(
    alloc: Global,
    changes: &mut Changes,
    ring: RingId,
    state: &RingState,
) -> Result<(), Memory>
    ensures { OnOk result (changes.new ≡ changes.old ++ ring_changes ring state.now) }
{
    add_promise(changes, ring, state.promise)?;
    add_trim(changes, ring, state.trim)?;
    let votes = ranges_from(alloc, &state.votes, 0)?;
    add_votes(changes, ring, votes.items())?;
    Ok(())
}

fn add_promise(changes: &mut Changes, ring: RingId, ballot: Ballot) -> Result<(), Memory>
    ensures { OnOk result (changes.new ≡ changes.old ++ promise_changes ring ballot) }
{
    if ballot == 0 {
        return Ok(());
    }
    changes.push(Change::Promise(ring, ballot))
}

fn add_trim(changes: &mut Changes, ring: RingId, inst: Inst) -> Result<(), Memory>
    ensures { OnOk result (changes.new ≡ changes.old ++ trim_changes ring inst) }
{
    if inst == 0 {
        return Ok(());
    }
    changes.push(Change::Trim(ring, inst))
}

fn add_votes(changes: &mut Changes, ring: RingId, votes: &[Voted]) -> Result<(), Memory>
    ensures { OnOk result (changes.new ≡ changes.old ++ map (Vote ring) votes.now) }
{
    for vote in votes {
        changes.push(Change::Vote(ring, vote.share()?))?;
    }
    Ok(())
}
