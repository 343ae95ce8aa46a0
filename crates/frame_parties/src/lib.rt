//! Who sends frames and to whom they go, in every run of a valid deployment: nodes and clients of the deployment alone, whatever is
//! lost, repeated, reordered or stopped in the middle.
//!
//! Definitions and laws alone: the function has an empty body, and its contract is the law. A run is a list of happenings from the
//! world in which no node has opened yet, as `IsRun` says.
#![tactic(auto)]

ghost use Rattle.std.specs.Prelude.{List};
ghost use Rattle.std.specs.List.{AllByRecursion};
ghost use Rattle.mrp_config.specs.Config.{Config};
ghost use Rattle.bare_world.specs.Worlds.{Happening, nothing};
ghost use Rattle.bare_world.specs.Runs.{run};
ghost use Rattle.line_runs.specs.Laws.{IsRun};
ghost use Rattle.frame_parties.specs.Parties.{IsOfParties};

/// Each frame that was ever sent comes from a node or a client of the deployment, and goes to one.
pub fn every_frame_is_of_the_deployment()
    ensures { (c : Config) (hs : List Happening) → IsRun c hs → AllByRecursion (IsOfParties c) (run c hs nothing).frames }
{}
