//! Which partitions commands concern, the rings that order them, and the rounds of a deployment's rings.

ghost use Rattle.std.specs.Prelude.{◌≡◌, [], ◌∷◌, map};
ghost use Rattle.std.specs.List.{AllByRecursion};
ghost use Rattle.mrp_config.specs.Config.{round_of};
ghost use Rattle.worked_values.specs.Ids.{ring};
ghost use Rattle.worked_values.specs.Routes.{AreBits, IsRoute, commands, long_round};

/// Commands on logs, on keys and on ranges of keys.
#[tactic(auto, unfolding(mrp_config::specs::Routing::is_concerned))]
pub fn commands_and_partitions()
    ensures bits { AllByRecursion AreBits commands }
    ensures rings { AllByRecursion IsRoute commands }
{}

/// A ring that says its round, one that says the least, and one that isn't there.
pub fn rounds_of_rings()
    ensures { map (λ number. round_of long_round (ring number)) (0 ∷ 1 ∷ 2 ∷ []) ≡ 1024 ∷ 1 ∷ 3 ∷ [] }
{}
