//! Laws of merges. The functions have empty bodies: their contracts are the laws.
ghost use Rattle.std.specs.Prelude.{◌≡◌, ◌+◌, ℕ, suc, List, Some, None, true};
ghost use Rattle.mrp_types.specs.declared.id.RingId.{RingId};
ghost use Rattle.mrp_types.specs.declared.place.Place.{Place};
ghost use Rattle.mrp_types.specs.declared.value.Value.{Value};
ghost use Rattle.mrp_types.specs.Moves.{next_place, rings_of};
ghost use Rattle.mrp_config.specs.Config.{Config, has_ring};
ghost use Rattle.plain_model.specs.Tuples.{round_sizes};
ghost use Rattle.protocol.specs.Node.{StepSoFar, Service, Ready, Standing};
ghost use Rattle.protocol.specs.Merging.{merges_up_to, delivers};
ghost use Rattle.merge.specs.declared.passing.Next.{Next};
ghost use Rattle.merge.specs.Merged.{PassesSkips, FindsBatch, Waits, Merges};
ghost use Rattle.merge.specs.Steps.{Agree, stands_at};

/// What a merge gives, and where it stands then, follow from the learned maps and from where it stood.
pub fn merges_are_one()
    ensures { (m : ℕ → ℕ) (maps : List (List (ℕ × Value))) (old a b : List (RingId × ℕ)) (x y : Next) → Merges m maps old x a → Merges m maps old y b → (x ≡ y) × (a ≡ b) }
{}

/// The step of a ready replica takes place after place: over the places that a merge passes it comes to where the merge stops.
pub fn the_step_passes_skips()
    ensures { (config : Config) (service : Service) (standing : Standing) (a : StepSoFar) (maps : List (List (ℕ × Value))) (from stop : List (RingId × ℕ)) → Agree a.view (rings_of from) maps →
        (passes : PassesSkips (round_sizes config) (rings_of from) maps from stop) → (most : ℕ) →
        merges_up_to (passes.count + most) config (stands_at service standing from a) ≡ merges_up_to most config (stands_at service standing stop a) }
{}

/// Where the merge finds a batch the step delivers it, and goes on behind it.
pub fn the_step_delivers()
    ensures { (config : Config) (service : Service) (standing : Standing) (a : StepSoFar) (maps : List (List (ℕ × Value))) (from stop : List (RingId × ℕ)) (place : Place) → Agree a.view (rings_of from) maps →
        (finds : FindsBatch (round_sizes config) maps from place stop) → (most : ℕ) → merges_up_to (suc most) config (stands_at service standing stop a) ≡
        merges_up_to most config (delivers config (record service { stage = Ready (record standing { tuple = stop }) }) (record standing { tuple = stop }) (next_place (round_sizes config) stop) finds.batch (stands_at service standing stop a)) }
{}

/// Where the merge waits the step ends.
pub fn the_step_waits()
    ensures { (config : Config) (service : Service) (standing : Standing) (a : StepSoFar) (maps : List (List (ℕ × Value))) (from stop : List (RingId × ℕ)) (ring : RingId) → Agree a.view (rings_of from) maps →
        has_ring (rings_of from) ring.0 ≡ true → Waits (round_sizes config) maps from ring stop → (most : ℕ) → merges_up_to most config (stands_at service standing stop a) ≡ stands_at service standing stop a }
{}
