//! Passing what was learned.
ghost use Rattle.std.specs.Prelude.{◌≡◌, ◌+◌, ◌≤◌, ◌<◌, ◌^◌, ℕ, true, false, length, slice_index_or};
ghost use Rattle.mrp_types.specs.Rounds.{size_of};
ghost use Rattle.mrp_types.specs.Tuples.{IsTuple};
ghost use Rattle.mrp_types.specs.Places.{place_lt};
ghost use Rattle.mrp_types.specs.Moves.{place_of, next_place, rings_of, is_valid_tuple};
ghost use Rattle.plain_model.specs.Tuples.{count_before, tuple_at};
ghost use Rattle.merge.specs.Merged.{Stops, HasRoom};
ghost use Rattle.merge.specs.Looked.{found_at};
ghost use Rattle.merge.specs.Ahead.{AreSized, AreLate};

use crate::{Run, Runs};
use mrp_types::{Inst, Place, RingId, RoundSizes, place_before};

/// What a merge comes to.
#[derive(Clone, Copy, Debug, PartialEq, Eq)]
pub enum Next {
    /// A batch was learned at this place, and the merge stands behind it.
    Deliver(Place),
    /// Nothing was learned at the next place, which is of this ring.
    Wait(RingId),
}

fn as_place(pair: (RingId, Inst)) -> Place
    ensures { result ≡ place_of pair }
{
    Place {
        ring: pair.0,
        inst: pair.1,
    }
}

/// The position of the earliest of some places.
fn earliest(m: &RoundSizes, pairs: &[(RingId, Inst)]) -> usize
    requires { 1 ≤ length pairs.now }
    ensures within { result < length pairs.now }
    ensures first { slice_index_or pairs.now result ((record { 0 = 0 }), 0) ≡ next_place (size_of m.now) pairs.now }
{
    let last = pairs.len() - 1;
    let mut first = last;
    for i in (0..last).rev() {
        if !place_before(m, as_place(pairs[first]), as_place(pairs[i])) {
            first = i;
        }
    }
    first
}

/// How many places of a ring come before a place; no more than are known to be passed.
fn entry_before(m: &RoundSizes, pair: (RingId, Inst), place: Place) -> Inst
    requires late { place_lt (size_of m.now) (place_of pair) place ≡ false }
    requires room { pair.1 ≤ 2 ^ 40 }
    requires end { place.inst ≤ 2 ^ 40 }
    ensures count { result ≡ count_before (size_of m.now) pair.0 place }
    ensures sized { 1 ≤ size_of m.now pair.0.0 }
{
    let size = u64::from(m.of(pair.0));
    if pair.0.0 == place.ring.0 {
        return place.inst;
    }
    let round = place.inst / u64::from(m.of(place.ring));
    if pair.0.0 < place.ring.0 {
        return (round + 1) * size;
    }
    round * size
}

/// Has each of these rings go on where it does behind all places before this one.
fn settle(m: &RoundSizes, pairs: &mut [(RingId, Inst)], place: Place)
    requires late { AreLate (size_of m.now) place pairs.old }
    requires end { place.inst ≤ 2 ^ 40 }
    ensures settled { pairs.new ≡ tuple_at (size_of m.now) (rings_of pairs.old) place }
    ensures sized { AreSized (size_of m.now) pairs.old }
{
    for i in 0..pairs.len() {
        let pair = pairs[i];
        pairs[i] = (pair.0, entry_before(m, pair, place));
    }
}

/// Where a ring goes on behind the run of skips at the next place, or what the merge comes to there.
fn found(place: Place, run: Option<Run>) -> Result<(RingId, Inst), Next>
    ensures { result ≡ found_at place run }
{
    match run {
        None => Err(Next::Wait(place.ring)),
        Some(run) if run.skip => Ok((place.ring, run.end)),
        Some(_) => Err(Next::Deliver(place)),
    }
}

/// Passes the skips from a tuple on, up to the first place that isn't one. A turn looks at the earliest of the places at
/// which the rings go on, and passes the whole run that it finds there: none of its other places needs a look. Behind a
/// run of skips there is none, so each ring is passed once, and the looks are one more than the rings at most.
pub fn pass<R: Runs>(m: &RoundSizes, ahead: &mut [(RingId, Inst)], runs: &mut R) -> Next
    requires tuple { IsTuple ahead.old }
    requires valid { is_valid_tuple (size_of m.now) ahead.old ≡ true }
    requires maps { length (R.maps runs.old) ≡ length ahead.old }
    ensures tuple { IsTuple ahead.new }
    ensures valid { is_valid_tuple (size_of m.now) ahead.new ≡ true }
    ensures rings { rings_of ahead.new ≡ rings_of ahead.old }
    ensures stops { Stops (size_of m.now) (R.maps runs.old) ahead.old result ahead.new }
    ensures room { HasRoom (size_of m.now) result ahead.new }
    ensures maps { R.maps runs.new ≡ R.maps runs.old }
    ensures few { R.looks runs.new ≤ R.looks runs.old + length ahead.old + 1 }
{
    'turns: loop {
        let at = earliest(m, ahead);
        let place = as_place(ahead[at]);
        match found(place, runs.look(at as u8, place.inst)) {
            Ok(pair) => ahead[at] = pair,
            Err(next) => {
                settle(m, ahead, place);
                return next;
            }
        }
    }
}
