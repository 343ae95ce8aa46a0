//! Tuples on the heap.

ghost use Rattle.std.specs.Prelude.{◌≡◌, IfOk};

use mrp_types::{Memory, Tuple};
use std::alloc::Global;
use std::marker::Model;

/// A tuple on the heap, so that a body that has none stays small. Contracts see the list of its pairs, as of a tuple.
#[derive(Debug, Drop)]
pub struct BoxedTuple {
    tuple: Box<Tuple>,
}

impl Model for BoxedTuple {
    ghost use Rattle.std.specs.Prelude.{List, ℕ};
    ghost use Rattle.mrp_types.specs.declared.id.RingId.{RingId};

    ghost Value = { List (RingId × ℕ) };

    ghost view = { λ b. b.tuple.value };
}

impl BoxedTuple {
    /// Moves a tuple to the heap.
    pub fn new(alloc: Global, tuple: Tuple) -> Result<Self, Memory>
        ensures { IfOk result (λ boxed. boxed ≡ tuple) }
    {
        let tuple = Box::new(alloc, tuple)?;
        Ok(BoxedTuple { tuple })
    }

    /// The tuple.
    pub fn tuple(&self) -> &Tuple
        ensures { result.now ≡ self.now }
    {
        &self.tuple
    }
}
