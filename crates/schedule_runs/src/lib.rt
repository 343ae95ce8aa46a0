//! What `schedule::read` gives is what the laws of runs ask of a schedule: its commands are commands that clients may be told to ask,
//! and it shows no node that the deployment doesn't have. So a law of every run is one of every schedule as it is read.
//!
//! Definitions and laws alone: each function has an empty body, and its contract is the law. `IsSchedule` is what the contract of
//! `read` says of its answer.
#![tactic(auto)]

ghost use Rattle.std.specs.Prelude.{◌≡◌, ◌++◌, ◌∷◌, [], List, length, ℕ};
ghost use Rattle.std.specs.List.{AllByRecursion};
ghost use Rattle.mrp_config.specs.Config.{Config};
ghost use Rattle.mrp_config.specs.Valid.{IsValid};
ghost use Rattle.protocol.specs.Lines.{End};
ghost use Rattle.schedule.specs.Spelling.{IsSchedule};
ghost use Rattle.bare_world.specs.Worlds.{Happening as BareHappening, nothing};
ghost use Rattle.bare_world.specs.Runs.{MayRun};
ghost use Rattle.world_model.specs.Events.{ScheduleEvent};
ghost use Rattle.world_model.specs.Runs.{MayBeScheduled};
ghost use Rattle.world_model.specs.Trace.{trace};
ghost use Rattle.disk_runs.specs.Runs.{IsShown, world_after};

/// The events of a schedule as it is read may be scheduled, and each order to show names a node of the deployment.
pub fn what_is_read_may_be_scheduled()
    ensures may { (config : Config) (bytes : List ℕ) (events : List ScheduleEvent) → IsSchedule config bytes events → AllByRecursion MayBeScheduled events }
    ensures shown { (config : Config) (bytes : List ℕ) (events : List ScheduleEvent) → IsSchedule config bytes events → AllByRecursion (IsShown config) events }
{}

/// So what a schedule prints, as it is read, are the lines of a run without bytes, and then its end.
pub fn every_schedule_as_read_is_a_run()
    ensures { (config : Config) → IsValid config → (bytes : List ℕ) (events : List ScheduleEvent) → IsSchedule config bytes events
        → (hs : List BareHappening) × MayRun config nothing hs × (trace config events ≡ (world_after config hs).lines ++ End (length events) ∷ []) }
{}
