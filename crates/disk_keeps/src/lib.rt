//! Nothing recorded is lost: what each image that a crash may leave of a node's disk keeps, in every run of nodes on disks.
//!
//! Definitions and laws alone: the function has an empty body, and its contract is the law. `specs/Kept` says what a state keeps.
#![tactic(auto)]

ghost use Rattle.std.specs.List.{AllByRecursion};
ghost use Rattle.std.specs.Prelude.{List};
ghost use Rattle.mrp_config.specs.Config.{Config};
ghost use Rattle.mrp_config.specs.Valid.{IsValid};
ghost use Rattle.world_model.specs.Runs.{Happening, IsRun, MayRun, ran_from, run_of};
ghost use Rattle.disk_runs.specs.Runs.{Fits};
ghost use Rattle.disk_keeps.specs.Kept.{LosesNothing};

/// Wherever a run of a valid deployment has come, and however it goes on: each image of each node's disk stands for one state.
/// In it promise and trim of a ring haven't fallen below what was recorded or read before, each vote that was cast is held, outdone
/// or below the trim, and the newest checkpoint is one that the node has told or a newer one.
pub fn nothing_recorded_is_lost()
    ensures { (config : Config) → IsValid config → (xs ys : List Happening) → IsRun config xs → MayRun config ys (run_of config xs).world → AllByRecursion (Fits config) xs
        → AllByRecursion (Fits config) ys → LosesNothing config (run_of config xs).world (ran_from config ys (run_of config xs).world).world }
{}
