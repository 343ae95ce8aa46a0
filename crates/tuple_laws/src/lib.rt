//! Tuples of a partition by moves. A move takes a tuple past the next place of its rings in the one order. So the valid tuples
//! are the first one and what moves leave of it, and what stands below a tuple goes on with each move.
//!
//! The functions of this crate have empty bodies: their contracts are the laws.
#![tactic(auto)]

ghost use Rattle.std.specs.Prelude.{◌≡◌, ◌<◌, ◌-◌, ◌∷◌, [], ℕ, List, Some, true};
ghost use Rattle.mrp_types.specs.declared.id.RingId.{RingId};
ghost use Rattle.mrp_types.specs.declared.place.Place.{Place};
ghost use Rattle.mrp_types.specs.Book.{Learning};
ghost use Rattle.mrp_config.specs.Config.{has_ring};
ghost use Rattle.mrp_config.specs.Valid.{IncreasesFrom, numbers_of_rings};
ghost use Rattle.plain_model.specs.Tuples.{is_at_or_after, place_of, next_place, past, past_many, first_tuple, tuple_at, is_tuple_of};
ghost use Rattle.plain_model.specs.Fold.{entries_of_next, both_known, entries_known, count_below, entries_below};

/// No entry is below the first tuple. Below a valid tuple's next one are the entries that were below it, and then those at its
/// next place; none are known there where either isn't known.
pub fn entries_below_go_on()
    ensures first { (m : ℕ → ℕ) (known : List Learning) (rings : List RingId) → entries_below m known (first_tuple rings) ≡ Some [] }
    ensures next { (m : ℕ → ℕ) (known : List Learning) (ring : RingId) (rings : List RingId) (tuple : List (RingId × ℕ)) → IncreasesFrom 0 (numbers_of_rings (ring ∷ rings)) →
        is_tuple_of m (ring ∷ rings) tuple ≡ true → entries_below m known (past m tuple) ≡ both_known (entries_below m known tuple) (entries_known known (next_place m tuple)) }
{}

/// A valid tuple is that of its next place: below it is what comes before this place.
pub fn tuples_of_next_places()
    ensures { (m : ℕ → ℕ) (rings : List RingId) (tuple : List (RingId × ℕ)) → ((r : ℕ) → 0 < m r) → is_tuple_of m rings tuple ≡ true →
        tuple_at m rings (place_of (next_place m tuple)) ≡ tuple }
{}

/// A place of one of the rings is the next place of its tuple. So places of the rings and valid tuples are one to one.
pub fn next_places_of_tuples()
    ensures { (m : ℕ → ℕ) (rings : List RingId) (place : Place) → ((r : ℕ) → 0 < m r) → has_ring rings place.ring.0 ≡ true →
        place_of (next_place m (tuple_at m rings place)) ≡ place }
{}

/// Of two valid tuples the later one is reached from the other by as many moves as places are below it and not below that one,
/// and below it are the entries below that one, and then those at the places of these moves.
pub fn later_tuples_go_on()
    ensures reached { (m : ℕ → ℕ) (rings : List RingId) (a b : List (RingId × ℕ)) → IncreasesFrom 0 (numbers_of_rings rings) → is_tuple_of m rings a ≡ true →
        is_tuple_of m rings b ≡ true → is_at_or_after b a ≡ true → past_many m (count_below b - count_below a) a ≡ b }
    ensures below { (m : ℕ → ℕ) (known : List Learning) (rings : List RingId) (a b : List (RingId × ℕ)) → IncreasesFrom 0 (numbers_of_rings rings) → is_tuple_of m rings a ≡ true →
        is_tuple_of m rings b ≡ true → is_at_or_after b a ≡ true →
        entries_below m known b ≡ both_known (entries_below m known a) (entries_of_next m known (count_below b - count_below a) a) }
{}
