//! A worked run, read off the rules: a round of trimming, a crash, a recovery from another node, and a delivery after it. So
//! the laws of lines of every run are about something. Nothing stands on it.
#![tactic(auto)]

ghost use Rattle.std.specs.Prelude.{◌≡◌, ◌++◌, ◌∷◌, []};
ghost use Rattle.mrp_config.specs.Valid.{IsValid};
ghost use Rattle.protocol.specs.Lines.{Restore};
ghost use Rattle.bare_world.specs.Worlds.{nothing};
ghost use Rattle.bare_world.specs.Runs.{MayRun};
ghost use Rattle.line_runs.specs.Invariant.{latest_first};
ghost use Rattle.line_runs.specs.Laws.{StartsPast};
ghost use Rattle.line_rows.specs.Row.{config, happened, lines, of_lives, wanted, before_restore, after_restore, node};

/// The deployment is valid.
pub fn the_deployment_is_valid()
    ensures { IsValid config }
{}

/// The run may happen, and these are its lines of nodes' lives and its trims.
pub fn a_replica_recovers_past_a_trim()
    ensures may { MayRun config nothing happened }
    ensures lines { of_lives lines ≡ wanted }
{}

/// The third node's restore after its crash is the fourth restore line. As the rules of every run say of it, it starts at or past
/// each trim whose line stands before its attempt's begin line: that at instance 2 is one.
pub fn the_recovery_is_past_the_trim()
    ensures there { lines ≡ before_restore 3 lines ++ Restore (node 2) (2 ∷ []) ∷ after_restore 3 lines }
    ensures past { StartsPast config (latest_first (before_restore 3 lines)) (node 2) (2 ∷ []) }
{}
