//! The learners of a replica's rings, as its merge sees them.
ghost use Rattle.std.specs.Prelude.{◌≡◌, ◌↔◌, IsTrue, Some, None, IsNone, IfSome};
ghost use Rattle.range_map.specs.Entries.{value_at};
ghost use Rattle.merge.specs.Looked.{IsRunOf};
ghost use Rattle.mrp_types.specs.declared.value.Value.TheVariants.{Skip};
ghost use Rattle.protocol.specs.Learner.{value_in};
ghost use Rattle.protocol.specs.Parts.{Learner};
ghost use Rattle.merge.specs.Learned.{maps_of};

use crate::{Run, Runs};
use mrp_types::{Inst, Value};
use ring_learner::RingLearner;

/// A learner for each ring, in the order of the rings, and how many looks were taken at them.
#[derive(Drop)]
pub struct Learners<'a> {
    learners: &'a [RingLearner],
    looks: u64,
}

impl<'a> Learners<'a> {
    /// These learners, with no looks so far.
    pub fn new(learners: &'a [RingLearner]) -> Learners<'a>
        ensures maps { maps_of result.learners.now ≡ maps_of learners.now }
        ensures looks { result.looks ≡ 0 }
    {
        Learners { learners, looks: 0 }
    }

    /// How many looks were taken; at the greatest number the count stays.
    pub fn looks(&self) -> u64
        ensures { result ≡ self.now.looks }
    {
        self.looks
    }
}

/// Whether Skip was learned at an instance.
fn is_skip(learner: &RingLearner, i: Inst) -> bool
    ensures { IsTrue result ↔ (value_in learner.now i ≡ Some Skip) }
{
    matches!(learner.at(i), Some(Value::Skip))
}

/// The run round an instance of what a learner holds; `None` where it doesn't hold the instance.
pub fn look_at(learner: &RingLearner, i: Inst) -> Option<Run>
    ensures none { IsNone result ↔ (value_at i learner.now.held ≡ None) }
    ensures run { IfSome result (λ run. IsRunOf learner.now.held i run) }
{
    let Some((_, end)) = learner.run_at(i) else {
        return None;
    };
    let skip = is_skip(learner, i);
    Some(Run { skip, end })
}

impl Runs for Learners<'_> {
    ghost maps = { λ l. maps_of l.learners.now };

    ghost looks = { λ l. l.looks };

    fn look(&mut self, position: u8, i: Inst) -> Option<Run> {
        self.looks = self.looks.saturating_add(1);
        look_at(&self.learners[usize::from(position)], i)
    }
}
