//! Worked cases, on the definitions alone: what a crash leaves, and which calls a plan of faults stops.
ghost use Rattle.std.specs.Prelude.{◌≡◌, [], ◌∷◌, true, false};
ghost use Rattle.disk_model.specs.declared.area.Area.TheVariants.{Journal0};
ghost use Rattle.disk_model.specs.declared.area.Image.TheVariants.{Old, New, Fill};
ghost use Rattle.disk_model.specs.declared.call.Call.TheVariants.{Write, Cut, Sync};
ghost use Rattle.disk_model.specs.Calls.{and_then};
ghost use Rattle.disk_model.specs.Rows.{leaves, written_over, cut_short, settled, answers, empty, Fuse, Fail, FailRead, Calls};
ghost use Rattle.disk_model.specs.Running.{Asks, Reads, Does};

/// Four bytes, of which two are written over and one is put behind: the first two stay in each image.
pub fn images_of_a_write()
    ensures old { leaves Old written_over ≡ 1 ∷ 2 ∷ 3 ∷ 4 ∷ [] }
    ensures new { leaves New written_over ≡ 1 ∷ 2 ∷ 9 ∷ 8 ∷ 7 ∷ [] }
    ensures none { leaves (Fill 0 0xa5) written_over ≡ 1 ∷ 2 ∷ 0xa5 ∷ 0xa5 ∷ 0xa5 ∷ [] }
    ensures one { leaves (Fill 1 0xa5) written_over ≡ 1 ∷ 2 ∷ 9 ∷ 0xa5 ∷ 0xa5 ∷ [] }
    ensures two { leaves (Fill 2 0xa5) written_over ≡ 1 ∷ 2 ∷ 9 ∷ 8 ∷ 0xa5 ∷ [] }
    ensures all { leaves (Fill 8 0xa5) written_over ≡ 1 ∷ 2 ∷ 9 ∷ 8 ∷ 7 ∷ [] }
{}

/// Four bytes of which three are cut: the first stays in each image.
pub fn images_of_a_cut()
    ensures old { leaves Old cut_short ≡ 1 ∷ 2 ∷ 3 ∷ 4 ∷ [] }
    ensures new { leaves New cut_short ≡ 1 ∷ [] }
    ensures none { leaves (Fill 0 0x7f) cut_short ≡ 1 ∷ 0x7f ∷ 0x7f ∷ 0x7f ∷ [] }
    ensures one { leaves (Fill 1 0x7f) cut_short ≡ 1 ∷ 0x7f ∷ 0x7f ∷ 0x7f ∷ [] }
    ensures all { leaves (Fill 8 0x7f) cut_short ≡ 1 ∷ 0x7f ∷ 0x7f ∷ 0x7f ∷ [] }
{}

/// After a sync each image is what a read gives.
pub fn a_sync_keeps()
    ensures old { leaves Old (and_then written_over (Sync ∷ [])) ≡ 1 ∷ 2 ∷ 9 ∷ 8 ∷ 7 ∷ [] }
    ensures new { leaves New (and_then written_over (Sync ∷ [])) ≡ 1 ∷ 2 ∷ 9 ∷ 8 ∷ 7 ∷ [] }
    ensures fill { leaves (Fill 0 0) (and_then written_over (Sync ∷ [])) ≡ 1 ∷ 2 ∷ 9 ∷ 8 ∷ 7 ∷ [] }
{}

/// What was settled is what the disk falls back to.
pub fn what_was_settled_is_left()
    ensures old { leaves Old settled ≡ 1 ∷ 3 ∷ 4 ∷ [] }
    ensures new { leaves New settled ≡ 5 ∷ 9 ∷ [] }
    ensures fill { leaves (Fill 1 0) settled ≡ 5 ∷ 0 ∷ 0 ∷ 0 ∷ [] }
{}

/// A fuse lets so many changes pass, and then no call of any kind. It has stopped none before one is called.
pub fn a_fuse()
    ensures one { answers (Fuse 1 ∷ Calls Reads ∷ Calls (Does (Write Journal0 0 (5 ∷ []))) ∷ Calls Asks ∷ Calls Reads ∷ Calls (Does Sync) ∷ Calls (Does (Cut Journal0 1)) ∷ Calls (Does (Write Journal0 0 (5 ∷ []))) ∷ []) empty
        ≡ true ∷ true ∷ false ∷ false ∷ false ∷ false ∷ false ∷ true ∷ [] }
    ensures none { answers (Fuse 0 ∷ Calls Reads ∷ []) empty ≡ false ∷ true ∷ [] }
    ensures spare { answers (Fuse 1 ∷ Calls (Does Sync) ∷ []) empty ≡ true ∷ false ∷ [] }
{}

/// A single fault falls on one call of its kind, and the last plan counts. A fuse beside it has stopped the call on which
/// both fall.
pub fn single_faults()
    ensures each { answers (Fail 0 ∷ Fail 1 ∷ FailRead 1 ∷ Calls Reads ∷ Calls (Does (Write Journal0 0 (5 ∷ []))) ∷ Calls Asks ∷ Calls (Does (Cut Journal0 1)) ∷ Calls (Does (Cut Journal0 1)) ∷ Calls Reads ∷ Calls Reads ∷ Calls (Does Sync) ∷ []) empty
        ≡ true ∷ true ∷ true ∷ false ∷ true ∷ false ∷ true ∷ true ∷ false ∷ [] }
    ensures both { answers (Fail 0 ∷ Fuse 0 ∷ Calls (Does Sync) ∷ Fuse 1 ∷ Calls (Does Sync) ∷ Calls (Does Sync) ∷ []) empty ≡ false ∷ true ∷ false ∷ true ∷ [] }
{}
