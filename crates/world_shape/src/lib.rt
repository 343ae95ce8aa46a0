//! Shape and widths of every run: one invariant of every world without bytes that a run of a valid deployment reaches, and so of
//! every run of nodes on disks.
//!
//! Definitions and laws alone: each function has an empty body, and its contract is the law. `specs/Shape` has the invariant.
#![tactic(auto)]

ghost use Rattle.std.specs.Prelude.{List};
ghost use Rattle.std.specs.List.{AllByRecursion};
ghost use Rattle.mrp_config.specs.Config.{Config};
ghost use Rattle.mrp_config.specs.Valid.{IsValid};
ghost use Rattle.bare_world.specs.Worlds.{Happening, nothing};
ghost use Rattle.bare_world.specs.Runs.{MayRun, run};
ghost use Rattle.world_model.specs.Runs.{Happening as DiskHappening, IsRun, run_of};
ghost use Rattle.disk_runs.specs.Runs.{Fits};
ghost use Rattle.world_shape.specs.Shape.{DiskShape, WorldShape};

/// Shape and widths. In every run of a valid deployment a node that is up has its number, a part for each of its rings, in their order
/// and as the deployment has them, and serves exactly the partition of which it is a replica; lists by instance increase, each acceptor
/// has a position in what a coordinator has covered, and a part of no acceptor keeps nothing, is Idle and has no round. What a part
/// keeps is what the journal's state has of its ring, and the changes of a step make of the old the new. Each change that a step
/// records, whether it ends well or is stopped, may stand in a record. Each frame has a spelling, with numbers that fit, but for that
/// of a round; and it names no epoch above those of all states that disks may stand for.
pub fn every_run_has_its_shape()
    ensures { (config : Config) → IsValid config → (hs : List Happening) → MayRun config nothing hs → WorldShape config (run config hs nothing) }
{}

/// So has every run of nodes on disks: its world is tied, node by node and frame by frame, to one without bytes that has its shape. Each
/// of its frames has a spelling, with numbers that fit, an epoch among them, but for that of a round.
pub fn every_run_on_disks_has_its_shape()
    ensures { (config : Config) → IsValid config → (xs : List DiskHappening) → IsRun config xs → AllByRecursion (Fits config) xs → DiskShape config (run_of config xs).world }
{}
