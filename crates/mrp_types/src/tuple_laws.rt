//! Laws of tuples: what they have to do with the one order of places. The functions have empty bodies: their contracts are
//! the laws.

ghost use Rattle.std.specs.Prelude.{◌≡◌, ◌⊎◌, ◌↔◌, ◌∷◌, ℕ, List, true, IsTrue};
ghost use Rattle.mrp_types.specs.declared.id.RingId.{RingId};
ghost use Rattle.mrp_types.specs.declared.place.Place.{Place};
ghost use Rattle.mrp_types.specs.Places.{place_lt};
ghost use Rattle.mrp_types.specs.Rings.{IncreasesFrom, numbers_of_rings};
ghost use Rattle.mrp_types.specs.Moves.{place_of, next_place, past, past_many, first_tuple, is_at_or_after, tuple_before, is_valid_tuple, has_rings, is_tuple_of, count_below, IsOneOf, IsBelow, IsNotBelow, IsFront};

/// The next place is where a ring of the tuple goes on.
pub fn the_next_place_is_an_entry()
    ensures { (m : ℕ → ℕ) (x : RingId × ℕ) (pairs : List (RingId × ℕ)) → IsOneOf (next_place m (x ∷ pairs)) (x ∷ pairs) }
{}

/// No place that isn't below the tuple comes before its next place.
pub fn the_next_place_is_first()
    ensures { (m : ℕ → ℕ) (tuple : List (RingId × ℕ)) (place : Place) → IsNotBelow place tuple →
        IsTrue (place_lt m place (place_of (next_place m tuple))) → ⊥ }
{}

/// A tuple is valid exactly where each place below it comes before each that isn't.
pub fn valid_tuples_are_fronts()
    ensures { (m : ℕ → ℕ) (tuple : List (RingId × ℕ)) → (is_valid_tuple m tuple ≡ true) ↔ IsFront m tuple }
{}

/// The next place comes below with a move past it, and nothing else does.
pub fn past_adds_the_next_place()
    ensures { (m : ℕ → ℕ) (x : RingId × ℕ) (pairs : List (RingId × ℕ)) (place : Place) → IsBelow place (past m (x ∷ pairs)) →
        IsBelow place (x ∷ pairs) ⊎ (place ≡ place_of (next_place m (x ∷ pairs))) }
{}

/// What a move past the next place leaves not below wasn't below before, and is another place.
pub fn past_leaves_the_others()
    ensures { (m : ℕ → ℕ) (x : RingId × ℕ) (pairs : List (RingId × ℕ)) (place : Place) → IsNotBelow place (past m (x ∷ pairs)) →
        IsNotBelow place (x ∷ pairs) × (place ≡ place_of (next_place m (x ∷ pairs)) → ⊥) }
{}

/// Whatever a number of moves leaves of the first tuple is valid.
pub fn moves_keep_tuples_valid()
    ensures { (m : ℕ → ℕ) (n : ℕ) (rings : List RingId) → is_valid_tuple m (past_many m n (first_tuple rings)) ≡ true }
{}

/// A valid tuple of increasing rings is what moves leave of the first one, as many of them as places are below the tuple.
pub fn valid_tuples_are_reached()
    ensures { (m : ℕ → ℕ) (rings : List RingId) (tuple : List (RingId × ℕ)) → IncreasesFrom 0 (numbers_of_rings rings) → is_tuple_of m rings tuple ≡ true →
        past_many m (count_below tuple) (first_tuple rings) ≡ tuple }
{}

/// Of two valid tuples of the same rings one is at or after the other. To be at or after goes on from one to the next, and two that
/// are each at or after the other are one: so one is before the other, or they are one.
pub fn valid_tuples_stand_in_one_order()
    ensures total { (m : ℕ → ℕ) (rings : List RingId) (a b : List (RingId × ℕ)) → is_tuple_of m rings a ≡ true → is_tuple_of m rings b ≡ true →
        (is_at_or_after a b ≡ true) ⊎ (is_at_or_after b a ≡ true) }
    ensures chain { (rings : List RingId) (a b c : List (RingId × ℕ)) → has_rings rings a ≡ true → has_rings rings b ≡ true → has_rings rings c ≡ true →
        is_at_or_after a b ≡ true → is_at_or_after b c ≡ true → is_at_or_after a c ≡ true }
    ensures same { (rings : List RingId) (a b : List (RingId × ℕ)) → has_rings rings a ≡ true → has_rings rings b ≡ true →
        is_at_or_after a b ≡ true → is_at_or_after b a ≡ true → a ≡ b }
    ensures before { (m : ℕ → ℕ) (rings : List RingId) (a b : List (RingId × ℕ)) → is_tuple_of m rings a ≡ true → is_tuple_of m rings b ≡ true →
        (tuple_before a b ≡ true) ⊎ ((a ≡ b) ⊎ (tuple_before b a ≡ true)) }
{}
