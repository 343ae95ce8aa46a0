//! What the tests of two tuples mean.

ghost use Rattle.std.specs.Prelude.{◌≡◌, ◌↔◌, ℕ, List, true};
ghost use Rattle.mrp_types.specs.declared.id.RingId.{RingId};
ghost use Rattle.plain_model.specs.Tuples.{is_tuple_of, tuple_before};
ghost use Rattle.checkpoint.specs.Checkpoints.{is_same_tuple, is_after};

/// Of two valid tuples of the same rings the second is after the first exactly where the first is before it in the one order of
/// tuples; and two tuples that are told to be the same are one, whatever they are.
pub fn tuples_are_told_apart()
    ensures after { (m : ℕ → ℕ) (rings : List RingId) (a b : List (RingId × ℕ)) → is_tuple_of m rings a ≡ true → is_tuple_of m rings b ≡ true →
        is_after a b ≡ tuple_before a b }
    ensures same { (a b : List (RingId × ℕ)) → (is_same_tuple a b ≡ true) ↔ (a ≡ b) }
{}
