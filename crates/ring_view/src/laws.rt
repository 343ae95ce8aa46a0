//! What a part keeps is what a durable state and a list of changes leave.
ghost use Rattle.std.specs.Prelude.{◌≡◌, ℕ, ◌≤◌, List};
ghost use Rattle.mrp_types.specs.declared.id.RingId.{RingId};
ghost use Rattle.range_map.specs.Entries.{entries_from};
ghost use Rattle.vote_state.specs.declared.change.Change.{Change};
ghost use Rattle.vote_state.specs.State.{State, ring_at, promise_at, trim_at, votes_at, promise_after, trim_after};
ghost use Rattle.ring_kept.specs.Kept.{kept_after};
ghost use Rattle.ring_view.specs.Kept.{OnlyRaises};

/// Of a ring the changes of a step leave the promise and the trim that the last of them tell. While no vote of the ring
/// is among them and its trim never falls, the votes from the trim on are those of the state.
pub fn what_changes_leave()
    ensures promise { (ring : RingId) (changes : List Change) (durable : State)
        → (kept_after ring changes (ring_at durable ring)).promise ≡ promise_after ring changes (promise_at durable ring) }
    ensures trim { (ring : RingId) (changes : List Change) (durable : State)
        → (kept_after ring changes (ring_at durable ring)).trim ≡ trim_after ring changes (trim_at durable ring) }
    ensures votes { (ring : RingId) (changes : List Change) (durable : State) (from : ℕ) → OnlyRaises ring (trim_at durable ring) changes
        → trim_after ring changes (trim_at durable ring) ≤ from
        → entries_from from (kept_after ring changes (ring_at durable ring)).votes ≡ entries_from from (votes_at durable ring) }
{}
