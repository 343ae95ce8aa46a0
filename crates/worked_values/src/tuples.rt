//! Places and tuples, by the moves of a learner.

ghost use Rattle.std.specs.Prelude.{◌≡◌, true, false, [], ◌∷◌, Some, None, map};
ghost use Rattle.mrp_types.specs.Moves.{entry_at, first_tuple, is_valid_tuple, order_of, past_many};
ghost use Rattle.mrp_types.specs.Seats.{seat_of};
ghost use Rattle.mrp_types.specs.declared.tuple.Order.TheVariants.{Before, Same, After};
ghost use Rattle.worked_values.specs.Ids.{node, ring};
ghost use Rattle.worked_values.specs.Tuples.{are_in_order, both_rings, first, next_places, nothing_yet, two_and_one, twos, zeroth};

/// Places stand by round, then by ring, then by instance.
pub fn places_by_round()
    ensures even { are_in_order twos (zeroth 0 ∷ zeroth 1 ∷ first 0 ∷ first 1 ∷ zeroth 2 ∷ zeroth 3 ∷ first 2 ∷ first 3 ∷ []) ≡ true }
    ensures odd { are_in_order two_and_one (zeroth 0 ∷ zeroth 1 ∷ first 0 ∷ zeroth 2 ∷ zeroth 3 ∷ first 1 ∷ []) ≡ true }
{}

/// Seven moves from the first tuple: the places that they pass, and the tuple that they leave, with its entries.
pub fn tuples_by_moves()
    ensures places { next_places two_and_one 7 nothing_yet ≡ zeroth 0 ∷ zeroth 1 ∷ first 0 ∷ zeroth 2 ∷ zeroth 3 ∷ first 1 ∷ zeroth 4 ∷ [] }
    ensures tuple { past_many two_and_one 7 nothing_yet ≡ both_rings 5 2 }
    ensures entries { map (λ number. entry_at (ring number) (both_rings 5 2)) (0 ∷ 1 ∷ 2 ∷ []) ≡ Some 5 ∷ Some 2 ∷ None ∷ [] }
{}

/// Tuples that some moves leave, and tuples that leave out a place.
pub fn which_tuples_are_valid()
    ensures valid { map (is_valid_tuple two_and_one) (both_rings 2 1 ∷ both_rings 3 1 ∷ both_rings 4 1 ∷ both_rings 4 2 ∷ both_rings 1000 500 ∷ []) ≡ true ∷ true ∷ true ∷ true ∷ true ∷ [] }
    ensures others { map (is_valid_tuple two_and_one) (both_rings 1 1 ∷ both_rings 2 2 ∷ []) ≡ false ∷ false ∷ [] }
{}

/// Which of two tuples has come further.
pub fn tuples_in_order()
    ensures before { order_of (both_rings 4 1) (both_rings 4 2) ≡ Before }
    ensures after { order_of (both_rings 4 2) (both_rings 4 1) ≡ After }
    ensures same { order_of (both_rings 4 2) (both_rings 4 2) ≡ Same }
{}

/// Positions of nodes.
pub fn seats()
    ensures { map (λ number. seat_of (node number) (node 4 ∷ node 0 ∷ node 31 ∷ [])) (4 ∷ 31 ∷ 1 ∷ []) ≡ Some 0 ∷ Some 2 ∷ None ∷ [] }
{}
