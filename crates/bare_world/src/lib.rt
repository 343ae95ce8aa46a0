//! The whole system without bytes: nodes that are up with a view, or down with the two states that their disks may stand
//! for; every frame ever sent, the clients, and what may happen.
//!
//! Definitions and laws alone: each function has an empty body, and its contract is the law. What is proved of every run of
//! such a world names no area, no gate and no device call.
#![tactic(auto)]

ghost use Rattle.std.specs.Prelude.{◌≡◌, ◌++◌, List};
ghost use Rattle.mrp_config.specs.Config.{Config};
ghost use Rattle.bare_world.specs.Worlds.{World, Happening};
ghost use Rattle.bare_world.specs.Runs.{run, MayRun};

/// A run goes on where another one ended.
pub fn runs_go_on()
    ensures world { (config : Config) (w : World) (first second : List Happening) → run config (first ++ second) w ≡ run config second (run config first w) }
    ensures may { (config : Config) (w : World) (first second : List Happening) → MayRun config w first → MayRun config (run config first w) second
        → MayRun config w (first ++ second) }
{}
