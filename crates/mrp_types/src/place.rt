//! Places: an instance of a ring, and the one order of all of them.

ghost use Rattle.std.specs.Prelude.{◌≡◌, ◌<◌, ◌≤◌, ℕ};
ghost use Rattle.mrp_types.specs.Places.{place_lt, IsInOneOrder};
ghost use Rattle.mrp_types.specs.Rounds.{size_of};

use crate::{Inst, RingId, RoundSizes};

/// An instance of a ring.
#[derive(Clone, Copy, Debug, PartialEq, Eq)]
pub struct Place {
    pub ring: RingId,
    pub inst: Inst,
}

/// Whether `a` stands before `b`: by the round of its ring, then by its ring, then by its instance.
pub fn place_before(m: &RoundSizes, a: Place, b: Place) -> bool
    ensures { result ≡ place_lt (size_of m.now) a b }
{
    let round = a.inst / u64::from(m.of(a.ring));
    let other = b.inst / u64::from(m.of(b.ring));
    (round, a.ring, a.inst) < (other, b.ring, b.inst)
}

/// The law of places: whatever a round holds of each ring, no place stands before itself, of two
/// different places exactly one stands before the other, and the order passes on.
pub fn places_are_in_one_order()
    ensures { (m : ℕ → ℕ) → IsInOneOrder (place_lt m) }
{}
