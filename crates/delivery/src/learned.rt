//! What was learned of each of a replica's rings.
ghost use Rattle.std.specs.Prelude.{◌≡◌, ◌<◌, length};
ghost use Rattle.merge.specs.Looked.{map_at};

use merge::{Run, Runs, look_at};
use mrp_types::Inst;
use ring_learner::RingLearner;

/// A learner for each of some rings, in the order of the rings.
pub trait Learned {
    ghost use Rattle.std.specs.Prelude.{List, ℕ};
    ghost use Rattle.mrp_types.specs.declared.value.Value.{Value};

    /// What the learners hold.
    ghost maps: { Self → List (List (ℕ × Value)) };

    /// The learner at a position.
    fn learner(&self, position: u8) -> &RingLearner
        requires { position < length (maps self.now) }
        ensures { result.now.held ≡ map_at (maps self.now) position };
}

/// These learners as a merge sees them, and how many looks were taken.
#[derive(Drop)]
pub struct Looks<'a, L: Learned> {
    learned: &'a L,
    looks: u64,
}

impl<'a, L: Learned> Looks<'a, L> {
    /// No look was taken so far.
    pub fn new(learned: &'a L) -> Self
        ensures learned { result.learned.now ≡ learned.now }
        ensures looks { result.looks ≡ 0 }
    {
        Looks { learned, looks: 0 }
    }
}

impl<L: Learned> Runs for Looks<'_, L> {
    ghost maps = { λ l. L.maps l.learned.now };

    ghost looks = { λ l. l.looks };

    fn look(&mut self, position: u8, i: Inst) -> Option<Run> {
        self.looks = self.looks.saturating_add(1);
        look_at(self.learned.learner(position), i)
    }
}
