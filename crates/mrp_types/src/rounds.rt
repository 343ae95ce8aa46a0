//! The sizes of rounds: how many consecutive instances of each ring a learner of several rings takes in turn.

ghost use Rattle.std.specs.Prelude.{◌≡◌, ◌≢◌, ◌≤◌, ◌<◌, ℕ};
ghost use Rattle.mrp_types.specs.Rounds.{size_of};

use crate::RingId;
use std::marker::Model;

/// As many as there are numbers of rings.
const RINGS: usize = 256;

/// The size of the round of each ring, 1 to 1,024. Contracts see the list of them by the rings' numbers.
#[derive(Clone, Copy, Debug)]
pub struct RoundSizes {
    sizes: [u16; RINGS],
}

impl Model for RoundSizes {
    ghost use Rattle.std.specs.Prelude.{List, ℕ, ◌≡◌, length};
    ghost use Rattle.mrp_types.specs.Rounds.{AreSizes};

    ghost Value = { List ℕ };

    ghost view = { λ r. r.sizes };

    ghost invariant = { λ r. (length r.sizes ≡ 256) × AreSizes r.sizes };

    ghost inverse = { λ sizes. record { sizes = sizes } };

    ghost inverse_ok = { λ r h i. record { sizes = r.sizes } };
}

impl RoundSizes {
    /// The same size for each ring.
    pub fn same(m: u16) -> Self
        requires least { 1 ≤ m }
        requires most { m ≤ 1024 }
        ensures { (ring : ℕ) → ring < 256 → size_of result ring ≡ m }
    {
        RoundSizes { sizes: [m; RINGS] }
    }

    /// Gives a ring this size.
    pub fn set(&mut self, ring: RingId, m: u16)
        requires least { 1 ≤ m }
        requires most { m ≤ 1024 }
        ensures own { size_of self.new ring.0 ≡ m }
        ensures others { (other : ℕ) → other ≢ ring.0 → size_of self.new other ≡ size_of self.old other }
    {
        self.sizes[usize::from(ring.0)] = m;
    }

    /// The size of a ring's round.
    pub fn of(&self, ring: RingId) -> u16
        ensures size { result ≡ size_of self.now ring.0 }
        ensures least { 1 ≤ result }
        ensures most { result ≤ 1024 }
    {
        self.sizes[usize::from(ring.0)]
    }
}
