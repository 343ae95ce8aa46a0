//! What the tuple of a place has to do with the one order of places.

ghost use Rattle.std.specs.Prelude.{◌≡◌, ◌<◌, ℕ, List, true, IsTrue};
ghost use Rattle.mrp_types.specs.declared.id.RingId.{RingId};
ghost use Rattle.mrp_types.specs.declared.place.Place.{Place};
ghost use Rattle.mrp_types.specs.Places.{place_lt};
ghost use Rattle.mrp_config.specs.Config.{has_ring};
ghost use Rattle.plain_model.specs.Tuples.{tuple_at, is_valid_tuple, IsBelow};

/// What is below the tuple of a place comes before the place.
pub fn what_is_below_comes_before()
    ensures { (m : ℕ → ℕ) (rings : List RingId) (place below : Place) → ((r : ℕ) → 0 < m r) → IsBelow below (tuple_at m rings place) →
        IsTrue (place_lt m below place) }
{}

/// Each place of the rings that comes before a place is below its tuple.
pub fn what_comes_before_is_below()
    ensures { (m : ℕ → ℕ) (rings : List RingId) (place before : Place) → ((r : ℕ) → 0 < m r) → has_ring rings before.ring.0 ≡ true →
        IsTrue (place_lt m before place) → IsBelow before (tuple_at m rings place) }
{}

/// The tuple of a place is valid.
pub fn tuples_of_places_are_valid()
    ensures { (m : ℕ → ℕ) (rings : List RingId) (place : Place) → ((r : ℕ) → 0 < m r) → is_valid_tuple m (tuple_at m rings place) ≡ true }
{}
