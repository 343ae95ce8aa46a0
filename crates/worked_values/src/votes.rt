//! What an acceptor keeps of worked changes.

ghost use Rattle.std.specs.Prelude.{◌≡◌, true, false, [], ◌∷◌, map};
ghost use Rattle.vote_state.specs.State.{has_vote, nothing_kept, promise_after, promise_at, taken, trim_after, trim_at};
ghost use Rattle.worked_values.specs.Ids.{ring};
ghost use Rattle.worked_values.specs.Votes.{batch, later_changes, made_again, neighbours, shape, skip, trimmed, two_ballots};

/// Neighbours of Skip and of one ballot are one range, batches are ranges of their own, and a trim cuts; the changes of a state make it
/// again.
#[tactic(auto, unfolding(range_map::specs::Entries::spread_over, vote_state::specs::Ranges::ranges_of))]
pub fn votes_as_ranges()
    ensures whole { shape neighbours (ring 0) 0 ≡ (0, (9, 3)) ∷ (9, (10, 3)) ∷ (10, (11, 3)) ∷ [] }
    ensures later { shape neighbours (ring 0) 4 ≡ (4, (9, 3)) ∷ (9, (10, 3)) ∷ (10, (11, 3)) ∷ [] }
    ensures other_ring { shape neighbours (ring 15) 0 ≡ [] }
    ensures trimmed { shape trimmed (ring 0) 0 ≡ (4, (9, 3)) ∷ (9, (10, 3)) ∷ (10, (11, 3)) ∷ [] }
    ensures again { made_again ≡ trimmed }
    ensures apart { shape two_ballots (ring 0) 0 ≡ (0, (3, 1)) ∷ (3, (5, 4)) ∷ (5, (10, 1)) ∷ [] }
{}

/// Which votes are held: each instance of the range, in that ballot, for that value.
#[tactic(auto, unfolding(range_map::specs::Entries::spread_over, vote_state::specs::Ranges::are_held))]
pub fn held_votes()
    ensures held { map (has_vote two_ballots (ring 0)) (skip 0 3 1 ∷ skip 3 5 4 ∷ skip 7 7 9 ∷ []) ≡ true ∷ true ∷ true ∷ [] }
    ensures others { map (has_vote two_ballots (ring 0)) (skip 0 4 1 ∷ skip 3 5 1 ∷ skip 9 11 1 ∷ batch 0 1 ∷ []) ≡ false ∷ false ∷ false ∷ false ∷ [] }
{}

/// The last change of a ring counts.
pub fn promises_and_trims()
    ensures promises { map (λ number. promise_after (ring number) later_changes 0) (0 ∷ 15 ∷ 1 ∷ []) ≡ 8 ∷ 6 ∷ 0 ∷ [] }
    ensures trims { map (λ number. trim_after (ring number) later_changes 0) (0 ∷ 15 ∷ []) ≡ 0 ∷ 2 ∷ [] }
    ensures kept { map (λ number. promise_at (taken later_changes nothing_kept) (ring number)) (0 ∷ 15 ∷ 16 ∷ []) ≡ 8 ∷ 6 ∷ 0 ∷ [] }
    ensures trimmed { trim_at (taken later_changes nothing_kept) (ring 15) ≡ 2 }
{}
