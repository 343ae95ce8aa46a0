//! The lines of every run of nodes on disks are faithful, by all nine rules.
//!
//! Definitions and laws alone: each function has an empty body, and its contract is the law. A run on disks is a list of
//! happenings, as `IsRun` of `world_model` says; the rules are those of `line_rules`, and `IsFaithful` says that each line keeps
//! all of them with respect to the lines before it.
#![tactic(auto)]

ghost use Rattle.std.specs.List.{AllByRecursion};
ghost use Rattle.std.specs.Prelude.{List};
ghost use Rattle.mrp_config.specs.Config.{Config};
ghost use Rattle.mrp_config.specs.Valid.{IsValid};
ghost use Rattle.line_rules.specs.Rules.{IsFaithful};
ghost use Rattle.world_model.specs.Events.{ScheduleEvent};
ghost use Rattle.world_model.specs.Runs.{Happening, IsRun, MayBeScheduled, run_of};
ghost use Rattle.world_model.specs.Trace.{trace};
ghost use Rattle.disk_runs.specs.Runs.{Fits, IsShown};

/// Whatever happens to a valid deployment, and whatever images crashes leave: one value per ring and instance (F1), deliveries in the
/// one order of the rings (F2), replies, states and answers of the fold (F3, F4, F5), recoveries at or past all that was trimmed
/// when they began (F6), trims of what a quorum of each subscribed partition has saved (F7), and checkpoints that never go back
/// (F8); an attempt is refused for want of answers alone (F9). An order to show a node names one of the deployment.
pub fn every_run_on_disks_is_faithful()
    ensures { (config : Config) → IsValid config → (xs : List Happening) → IsRun config xs → AllByRecursion (Fits config) xs → IsFaithful config (run_of config xs).lines }
{}

/// So are the lines that a schedule prints, its last line among them.
pub fn every_trace_is_faithful()
    ensures { (config : Config) → IsValid config → (events : List ScheduleEvent) → AllByRecursion MayBeScheduled events → AllByRecursion (IsShown config) events → IsFaithful config (trace config events) }
{}
