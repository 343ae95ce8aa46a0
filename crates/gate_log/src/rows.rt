//! Worked rows, on the definitions alone: an append and a compaction that are stopped on the way.
ghost use Rattle.std.specs.Prelude.{◌≡◌, [], ◌∷◌, take, Ok};
ghost use Rattle.disk_model.specs.Calls.{and_then, area_bytes, kept};
ghost use Rattle.disk_model.specs.Crash.{left_of, left_by};
ghost use Rattle.disk_model.specs.declared.area.Area.TheVariants.{Journal0, Journal1};
ghost use Rattle.disk_model.specs.declared.area.Image.TheVariants.{Old, New, Fill};
ghost use Rattle.gate_log.specs.Journal.{records_in};
ghost use Rattle.gate_log.specs.Rows.{holding, abc, de, appends, compacts};

/// The record is written and not synced, and the crash leaves other bytes where it stands: the gate stays
/// closed.
#[tactic(auto, unfolding(crate::specs::Records::u32_bytes, crate::specs::Records::u32_of, crate::specs::Records::u64_bytes, gate_area::specs::Standing::generation_of))]
pub fn stopped_at_the_body()
    ensures bytes { left_of (Fill 0 0xa5) (kept Journal0 (and_then (holding []) (take 1 appends)))
        ≡ 1 ∷ 0x4d ∷ 0x52 ∷ 0x4a ∷ 0 ∷ 0 ∷ 0 ∷ 1 ∷ 0 ∷ 0 ∷ 0 ∷ 0 ∷ 0 ∷ 0 ∷ 0 ∷ 1 ∷ 0 ∷ 0xa5 ∷ 0xa5 ∷ 0xa5 ∷ 0xa5 ∷ 0xa5 ∷ 0xa5 ∷ 0xa5 ∷ 0xa5 ∷ [] }
    ensures none { records_in (left_by (Fill 0 0xa5) (and_then (holding []) (take 1 appends))) ≡ Ok [] }
{}

/// All but the last sync of an append is done: the records before, or after, as the crash leaves the gate.
#[tactic(auto, unfolding(crate::specs::Records::u32_bytes, crate::specs::Records::u32_of, crate::specs::Records::u64_bytes, gate_area::specs::Standing::generation_of))]
pub fn stopped_at_the_gate()
    ensures old { records_in (left_by Old (and_then (holding []) (take 3 appends))) ≡ Ok [] }
    ensures new { records_in (left_by New (and_then (holding []) (take 3 appends))) ≡ Ok (abc ∷ []) }
    ensures neither { records_in (left_by (Fill 0 0x7f) (and_then (holding []) (take 3 appends))) ≡ Ok [] }
{}

/// All but the last sync of a compaction is done, and all of it.
#[tactic(auto, unfolding(crate::specs::Records::u32_bytes, crate::specs::Records::u32_of, crate::specs::Records::u64_bytes, gate_area::specs::Standing::generation_of))]
pub fn stopped_compaction()
    ensures old { records_in (left_by Old (and_then (holding (abc ∷ [])) (take 7 compacts))) ≡ Ok (abc ∷ []) }
    ensures new { records_in (left_by New (and_then (holding (abc ∷ [])) (take 7 compacts))) ≡ Ok (de ∷ []) }
    ensures neither { records_in (left_by (Fill 0 0x7f) (and_then (holding (abc ∷ [])) (take 7 compacts))) ≡ Ok (abc ∷ []) }
    ensures area { area_bytes Journal1 (and_then (holding (abc ∷ [])) compacts)
        ≡ 1 ∷ 0x4d ∷ 0x52 ∷ 0x4a ∷ 0 ∷ 0 ∷ 0 ∷ 1 ∷ 0 ∷ 0 ∷ 0 ∷ 0 ∷ 0 ∷ 0 ∷ 0 ∷ 2 ∷ 1 ∷ 0 ∷ 0 ∷ 0 ∷ 2 ∷ 0x64 ∷ 0x65 ∷ 0 ∷ [] }
{}
