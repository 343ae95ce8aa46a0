//! What the walk over an area is good for, on the definitions alone.
ghost use Rattle.std.specs.Prelude.{◌≡◌, ◌<◌, ℕ, List, Ok, slice_index};
ghost use Rattle.gate_log.specs.Records.{StandsFor, walk_of};

/// The walk over the bytes of an area finds just the records that they stand for.
pub fn walk_finds_what_stands()
    ensures found { (records : List (List ℕ)) (file : List ℕ) → StandsFor records file → walk_of file ≡ Ok records }
    ensures stands { (records : List (List ℕ)) (file : List ℕ) → ((i : ℕ) → slice_index file i < 256) → walk_of file ≡ Ok records → StandsFor records file }
{}
