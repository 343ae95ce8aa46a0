//! Levelling, suspicion and maps of ranges.

ghost use Rattle.std.specs.Prelude.{◌≡◌, true, false, [], ◌∷◌, ◌++◌, Some, None, map, replicate};
ghost use Rattle.range_map.specs.Entries.{entries_from, spread, value_at};
ghost use Rattle.ring_link.specs.Silence.{Heard, longer};
ghost use Rattle.ring_link.specs.Silence.{Tick as Passed};
ghost use Rattle.skip_leveller.specs.Levelling.{Started, Tick};
ghost use Rattle.worked_values.specs.Ids.{node};
ghost use Rattle.worked_values.specs.Tables.{answers, below_a_cut, next_at_first, next_of_three, parted, suspected, swallowed, ticks};

/// A ring that starts 5 of 32 instances, then 32, and then none.
pub fn a_slow_ring()
    ensures { answers 8 4 (Started 5 ∷ ticks 4 ++ Started 32 ∷ ticks 8) ≡ None ∷ None ∷ None ∷ Some 27 ∷ replicate 7 None ++ Some 32 ∷ [] }
{}

/// Paces and periods at their ends, and a ring that starts more than a count holds.
pub fn levelling_at_the_ends()
    ensures each { answers 3 1 (ticks 1) ≡ Some 3 ∷ [] }
    ensures no_period { answers 3 0 (ticks 1) ≡ None ∷ [] }
    ensures no_pace { answers 0 3 (ticks 3) ≡ None ∷ None ∷ None ∷ [] }
    ensures greatest_pace { answers 65535 2 (ticks 2) ≡ None ∷ Some 131070 ∷ [] }
    ensures longest_period { answers 65535 65535 (ticks 2) ≡ None ∷ None ∷ [] }
    ensures busy { answers 65535 1 (Started 4294967295 ∷ Started 4294967295 ∷ ticks 1) ≡ None ∷ [] }
{}

/// Node 2 is heard after the first tick: node 1 is suspected with the second tick, node 2 with the third.
pub fn silent_nodes()
    ensures early { next_of_three (Passed ∷ Heard 2 ∷ []) ≡ Some (node 1) }
    ensures one { suspected (Passed ∷ Heard 2 ∷ Passed ∷ []) ≡ true ∷ true ∷ false ∷ [] }
    ensures next { next_of_three (Passed ∷ Heard 2 ∷ Passed ∷ []) ≡ Some (node 2) }
    ensures all { suspected (Passed ∷ Heard 2 ∷ Passed ∷ Passed ∷ []) ≡ true ∷ true ∷ true ∷ [] }
    ensures none { next_of_three (Passed ∷ Heard 2 ∷ Passed ∷ Passed ∷ []) ≡ None }
{}

/// The order of a ring is cyclic, and begins at its first node for one that isn't listed; where no tick is needed all are suspected.
pub fn successors()
    ensures listed { map (λ own. next_at_first 1 (node own)) (5 ∷ 3 ∷ 9 ∷ 4 ∷ []) ≡ map (λ own. Some (node own)) (3 ∷ 9 ∷ 5 ∷ 5 ∷ []) }
    ensures strict { next_at_first 0 (node 5) ≡ None }
{}

/// A silence stands still at 65,535 ticks.
pub fn a_count_stands_still()
    ensures { map longer (65533 ∷ 65534 ∷ 65535 ∷ []) ≡ 65534 ∷ 65535 ∷ 65535 ∷ [] }
{}

/// A range within another parts it; one that covers others takes their place; what stands below a cut stays apart.
#[tactic(auto, unfolding(range_map::specs::Entries::spread_over))]
pub fn maps_of_ranges()
    ensures parted { parted ≡ spread 0 3 7 ++ spread 3 5 8 ++ spread 5 10 7 }
    ensures cut { entries_from 4 parted ≡ (4, 8) ∷ spread 5 10 7 }
    ensures swallowed { swallowed ≡ spread 1 6 8 }
    ensures below { below_a_cut ≡ (1, 8) ∷ (4, 7) ∷ (5, 7) ∷ [] }
    ensures values { map (λ inst. value_at inst parted) (2 ∷ 3 ∷ 5 ∷ 10 ∷ []) ≡ Some 7 ∷ Some 8 ∷ Some 7 ∷ None ∷ [] }
{}
