//! What an acceptor keeps of a ring, against its face in the ring's machine: each change that a rule records is what a deed
//! makes of the face, pages of votes tell what is held, and masks are groups of members.
//!
//! Definitions and laws alone: each function has an empty body, and its contract is the law.
#![tactic(auto)]

ghost use Rattle.std.specs.Prelude.{◌≡◌, ◌⊎◌, ℕ, ◌-◌, ◌^◌, ◌<◌, ◌≤◌, true, List, ◌++◌, length, None, bit_or, count_ones};
ghost use Rattle.mrp_types.specs.declared.id.RingId.{RingId};
ghost use Rattle.mrp_types.specs.declared.id.TheConstants.{END};
ghost use Rattle.mrp_types.specs.declared.value.Value.{Value};
ghost use Rattle.mrp_types.specs.declared.voted.Voted.{Voted};
ghost use Rattle.quorums.specs.Groups.{count};
ghost use Rattle.ring_kept.specs.Kept.{KeptTies, kept_after};
ghost use Rattle.ring_kept.specs.Masks.{in_mask};
ghost use Rattle.ring_kept.specs.Pages.{front_end};
ghost use Rattle.ring_reach.specs.Reach.{HasVoted};
ghost use Rattle.ring_safety.specs.Deeds.{Promises, Trims, done};
ghost use Rattle.ring_safety.specs.Faces.{Face};
ghost use Rattle.vote_state.specs.Ranges.{AreInOrderFrom, are_held, cast_at};
ghost use Rattle.vote_state.specs.State.{State, ring_at, taken, with_promise, with_trim, with_vote};
ghost use Rattle.vote_state.specs.declared.change.Change.{Change};
ghost use Rattle.vote_state.specs.declared.ring.RingState.{RingState};

/// The change Promise is the deed Promises; where that ballot is promised already, the deed needs no change.
pub fn a_promise_is_the_deed()
    ensures change { (f : Face Value) (kept : RingState) (ballot low high : ℕ) → KeptTies f kept
        → KeptTies (done (Promises ballot low high) f) (with_promise ballot kept) }
    ensures again { (f : Face Value) (kept : RingState) (ballot low high : ℕ) → kept.promise ≡ ballot → KeptTies f kept
        → KeptTies (done (Promises ballot low high) f) kept }
{}

/// The change Vote, of a range that isn't empty, is what votes at each of its instances make; where all of them are held
/// already, they need no change.
pub fn a_vote_is_votes_over_its_range()
    ensures change { (f g : Face Value) (kept : RingState) (v : Voted) → KeptTies f kept → HasVoted f g v.ballot v.lo (v.hi - v.lo) v.value
        → v.lo < v.hi → v.hi ≤ END → KeptTies g (with_vote v kept) }
    ensures again { (f g : Face Value) (kept : RingState) (v : Voted) → KeptTies f kept → HasVoted f g v.ballot v.lo (v.hi - v.lo) v.value
        → are_held v kept.votes ≡ true → KeptTies g kept }
{}

/// The change Trim is the deed Trims.
pub fn a_trim_is_the_deed()
    ensures { (f : Face Value) (kept : RingState) (to : ℕ) → KeptTies f kept → KeptTies (done (Trims to) f) (with_trim to kept) }
{}

/// What changes of all rings leave of one ring is what its own changes alone leave of it.
pub fn changes_of_one_ring_count()
    ensures { (ring : RingId) (cs : List Change) (s : State) → ring.0 < length s.rings → ring_at (taken cs s) ring ≡ kept_after ring cs (ring_at s ring) }
{}

/// The front of some ranges in order tells, below the first range that is left out, what all of them tell, and nothing from
/// there on.
pub fn a_page_tells_what_is_held()
    ensures { (front rest : List Voted) (i : ℕ) → AreInOrderFrom 0 (front ++ rest) → ((j : ℕ) → END ≤ j → cast_at j (front ++ rest) ≡ None)
        → ((i < front_end rest) × (cast_at i front ≡ cast_at i (front ++ rest))) ⊎ ((front_end rest ≤ i) × (cast_at i front ≡ None)) }
{}

/// A mask whose bits are of members below n has at least as many members as it has ones; a bit more is one member more.
pub fn masks_are_groups()
    ensures size { (n mask : ℕ) → ((k : ℕ) → in_mask mask k ≡ true → k < n) → count_ones mask ≤ count (in_mask mask) n }
    ensures more { (mask p k : ℕ) → in_mask (bit_or mask (2 ^ p)) k ≡ true → (k ≡ p) ⊎ (in_mask mask k ≡ true) }
    ensures alone { (p k : ℕ) → in_mask (2 ^ p) k ≡ true → k ≡ p }
{}
