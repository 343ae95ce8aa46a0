//! The definitions computed on small areas.

ghost use Rattle.std.specs.Prelude.{◌≡◌, [], ◌∷◌, Ok, Err, Some, None};
ghost use Rattle.disk_model.specs.Calls.{reads};
ghost use Rattle.disk_model.specs.declared.area.Area.TheVariants.{Check2, Check3};
ghost use Rattle.checkpoint.specs.Checkpoints.{checkpoints_in, no_checkpoints, saved, place, part_of, Part, Gone, Unknown};
ghost use Rattle.checkpoint.specs.Rows.{with_checks, early, later, of_other_rings, state, saved_once, once, twice, first_area, second_area, older_area, no_format, other_format, bad_ring, older_bad_ring, state_missing, one_over};

/// Two saves on a fresh pair: the first area first, then the second with the next generation.
pub fn saves()
    ensures first { reads once ≡ with_checks first_area [] }
    ensures both { reads twice ≡ with_checks first_area second_area }
{}

/// What the areas stand for after each of them, and before.
pub fn stand()
    ensures fresh { checkpoints_in (with_checks [] []) ≡ Ok no_checkpoints }
    ensures first { checkpoints_in (with_checks first_area []) ≡ Ok saved_once }
    ensures both { checkpoints_in (with_checks first_area second_area) ≡ Ok (saved saved_once later []) }
    ensures older { checkpoints_in (with_checks older_area []) ≡ Ok (record saved_once { from = 16 }) }
{}

/// Where the tuple and the state of the newest checkpoint begin.
pub fn places()
    ensures none { place no_checkpoints ≡ None }
    ensures newest { place saved_once ≡ Some (Check2, 18, 45) }
    ensures older { place (record saved_once { from = 16 }) ≡ Some (Check2, 16, 43) }
{}

/// A format that is cut, another one, a ring that can't be there, a state of which a byte is missing, and a byte left over.
pub fn damaged()
    ensures short { checkpoints_in (with_checks no_format []) ≡ Err (Check2, 17) }
    ensures format { checkpoints_in (with_checks other_format []) ≡ Err (Check2, 17) }
    ensures ring { checkpoints_in (with_checks bad_ring []) ≡ Err (Check2, 19) }
    ensures older { checkpoints_in (with_checks older_bad_ring []) ≡ Err (Check2, 17) }
    ensures missing { checkpoints_in (with_checks state_missing []) ≡ Err (Check2, 45) }
    ensures left { checkpoints_in (with_checks one_over []) ≡ Err (Check2, 47) }
{}

/// Parts of the newest checkpoint, of an older one, of an unknown one, and of a tuple of other rings.
pub fn parts()
    ensures all { part_of saved_once early 0 ≡ Part 2 state }
    ensures rest { part_of saved_once early 1 ≡ Part 2 (0xbb ∷ []) }
    ensures none { part_of saved_once early 2 ≡ Unknown }
    ensures gone { part_of (saved saved_once later []) early 0 ≡ Gone later }
    ensures later { part_of saved_once later 0 ≡ Unknown }
    ensures others { part_of saved_once of_other_rings 0 ≡ Unknown }
    ensures fresh { part_of no_checkpoints early 0 ≡ Unknown }
{}
