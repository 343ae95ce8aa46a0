//! Worked rows, on the definitions alone: a fresh journal is begun on an empty disk, and stopped on the way; and what pairs of
//! areas stand for.
ghost use Rattle.std.specs.Prelude.{◌≡◌, [], ◌∷◌, take, Ok, Err, Some, None};
ghost use Rattle.disk_model.specs.Calls.{and_then, area_bytes, kept, reads};
ghost use Rattle.disk_model.specs.Crash.{left_of, left_by};
ghost use Rattle.disk_model.specs.declared.area.Area.TheVariants.{Journal0, Journal1, Check2, Check3};
ghost use Rattle.disk_model.specs.declared.area.Image.TheVariants.{Old, New, Fill};
ghost use Rattle.gate_area.specs.Gate.{retire_calls};
ghost use Rattle.gate_area.specs.Rows.{empty, stopped, begins, at_each, opens_at_the_sync, opens_at_the_gate, an_area};
ghost use Rattle.gate_area.specs.Standing.{stands, standing};
ghost use Rattle.gate_area.specs.declared.pair.Pair.TheVariants.{Journal, Check};

/// A fresh journal: an open gate, the magic, version 1, generation 1, a closed gate.
pub fn fresh_journal()
    ensures { area_bytes Journal0 (and_then empty (begins empty))
        ≡ 0x01 ∷ 0x4d ∷ 0x52 ∷ 0x4a ∷ 0 ∷ 0 ∷ 0 ∷ 1 ∷ 0 ∷ 0 ∷ 0 ∷ 0 ∷ 0 ∷ 0 ∷ 0 ∷ 1 ∷ 0 ∷ [] }
{}

/// It is stopped when its body is written and not synced, and the crash leaves a 1 in each byte that may have
/// changed: the closed gate stays.
pub fn stopped_at_the_body()
    ensures { left_of (Fill 0 1) (kept Journal0 (and_then empty (take 5 (begins empty))))
        ≡ 0 ∷ 1 ∷ 1 ∷ 1 ∷ 1 ∷ 1 ∷ 1 ∷ 1 ∷ 1 ∷ 1 ∷ 1 ∷ 1 ∷ 1 ∷ 1 ∷ 1 ∷ 1 ∷ 1 ∷ [] }
{}

/// An area as that row left it is retired, and stopped when its gate is written and not synced. The same crash
/// then leaves 16 bytes, too few to count, though the first is a 1.
pub fn stopped_at_the_gate()
    ensures { left_of (Fill 0 1) (kept Journal0 (and_then stopped (take 3 (retire_calls Journal0 stopped))))
        ≡ 1 ∷ 1 ∷ 1 ∷ 1 ∷ 1 ∷ 1 ∷ 1 ∷ 1 ∷ 1 ∷ 1 ∷ 1 ∷ 1 ∷ 1 ∷ 1 ∷ 1 ∷ 1 ∷ [] }
{}

/// What the pair stands for when a fresh journal is begun and all but the last sync are done: nothing before
/// the gate, or the first area, as the crash leaves the gate.
#[tactic(auto, unfolding(crate::specs::Standing::generation_of))]
pub fn stands_for_either()
    ensures done { stands Journal (reads (and_then empty (begins empty))) ≡ Ok (Some (Journal0, 1)) }
    ensures old { stands Journal (left_by Old (and_then empty (take 7 (begins empty)))) ≡ Ok None }
    ensures new { stands Journal (left_by New (and_then empty (take 7 (begins empty)))) ≡ Ok (Some (Journal0, 1)) }
    ensures neither { stands Journal (left_by (Fill 0 0x7f) (and_then empty (take 7 (begins empty)))) ≡ Ok None }
{}

/// The same for each number of calls that were made and for each of eleven images.
#[tactic(auto, unfolding(crate::specs::Standing::generation_of))]
pub fn a_stop_at_each_call()
    ensures old { at_each Old ≡ opens_at_the_sync }
    ensures new { at_each New ≡ opens_at_the_gate }
    ensures zeros { at_each (Fill 0 0) ≡ opens_at_the_sync }
    ensures ones { at_each (Fill 0 1) ≡ opens_at_the_gate }
    ensures others { at_each (Fill 0 0x7f) ≡ opens_at_the_sync }
    ensures one_and_zeros { at_each (Fill 1 0) ≡ opens_at_the_gate }
    ensures one_and_ones { at_each (Fill 1 1) ≡ opens_at_the_gate }
    ensures one_and_others { at_each (Fill 1 0x7f) ≡ opens_at_the_gate }
    ensures eight_and_zeros { at_each (Fill 8 0) ≡ opens_at_the_gate }
    ensures eight_and_ones { at_each (Fill 8 1) ≡ opens_at_the_gate }
    ensures eight_and_others { at_each (Fill 8 0x7f) ≡ opens_at_the_gate }
{}

/// Which damage is told where there are several: of the first area its magic, its version and its generation, then those of
/// the second, equal generations, and a second area that isn't empty where none counts.
#[tactic(auto, unfolding(crate::specs::Standing::generation_of))]
pub fn damages_in_order()
    ensures generation { standing Journal (an_area 0x4a 1 1 0) (an_area 0x43 1 1 1) ≡ Err (Journal0, 8) }
    ensures magic { standing Journal (an_area 0x43 1 2 0) (an_area 0x4a 1 1 1) ≡ Err (Journal0, 1) }
    ensures version { standing Journal (an_area 0x4a 1 2 0) (an_area 0x4a 1 1 1) ≡ Err (Journal0, 4) }
    ensures second { standing Journal (an_area 0x4a 1 1 3) (an_area 0x4a 1 2 0) ≡ Err (Journal1, 4) }
    ensures equal { standing Journal (an_area 0x4a 1 1 3) (an_area 0x4a 1 1 3) ≡ Err (Journal1, 8) }
    ensures closed { standing Journal (an_area 0x4a 0 1 3) (an_area 0x4a 7 1 3) ≡ Err (Journal0, 0) }
    ensures long { standing Journal (an_area 0x4a 0 1 3) [] ≡ Err (Journal0, 0) }
    ensures checks { standing Check (an_area 0x43 0 1 3) [] ≡ Ok None }
{}

/// The area of the greater generation stands.
#[tactic(auto, unfolding(crate::specs::Standing::generation_of))]
pub fn greater_generation()
    ensures second { standing Check (an_area 0x43 1 1 2) (an_area 0x43 1 1 3) ≡ Ok (Some (Check3, 3)) }
    ensures first { standing Check (an_area 0x43 1 1 3) (an_area 0x43 1 1 2) ≡ Ok (Some (Check2, 3)) }
{}
