//! What was saved is opened again.

ghost use Rattle.std.specs.Prelude.{◌≡◌, ◌<◌, ◌^◌, ℕ, List, length, take, Ok};
ghost use Rattle.mrp_types.specs.declared.id.RingId.{RingId};
ghost use Rattle.mrp_types.specs.Tuples.{IsTuple};
ghost use Rattle.disk_model.specs.declared.areas.Areas.{Areas};
ghost use Rattle.disk_model.specs.Calls.{Told, and_then, IsImage};
ghost use Rattle.checkpoint.specs.Checkpoints.{Checkpoints, read_area, save_calls};
ghost use Rattle.checkpoint_disk.specs.Saved.{newer_area, older_area, MayBeSaved, FindsSaved, FindsEither};

/// An area of a checkpoint is read as its tuple and its state, in both formats. Once the calls of a save are made, each
/// image that a crash may leave has the saved checkpoint as its newest one. Wherever they are stopped, each image has
/// that one or the checkpoints before; and none is damaged.
pub fn what_was_saved_is_found()
    ensures newer { (generation : ℕ) (tuple : List (RingId × ℕ)) (state : List ℕ) → IsTuple tuple → length state < 2 ^ 64
        → read_area (newer_area generation tuple state) ≡ Ok (18, record { tuple = tuple; state = state }) }
    ensures older { (generation : ℕ) (tuple : List (RingId × ℕ)) (state : List ℕ) → IsTuple tuple → length state < 2 ^ 64
        → read_area (older_area generation tuple state) ≡ Ok (16, record { tuple = tuple; state = state }) }
    ensures done { (t : Told) (c : Checkpoints) (tuple : List (RingId × ℕ)) (state : List ℕ) → MayBeSaved t c tuple state
        → (image : Areas) → IsImage (and_then t (save_calls c tuple state t)) image → FindsSaved c tuple state image }
    ensures stopped { (t : Told) (c : Checkpoints) (tuple : List (RingId × ℕ)) (state : List ℕ) → MayBeSaved t c tuple state
        → (count : ℕ) (image : Areas) → IsImage (and_then t (take count (save_calls c tuple state t))) image → FindsEither c tuple state image }
{}
