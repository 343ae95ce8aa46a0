//! A node says that its disk failed only where a schedule set such a fault at that very node.
//!
//! Definitions and laws alone: each function has an empty body, and its contract is the law.
#![tactic(auto)]

ghost use Rattle.std.specs.Prelude.{◌≡◌, true, List, map};
ghost use Rattle.std.specs.List.{AllByRecursion, list_any};
ghost use Rattle.mrp_types.specs.declared.id.NodeId.{NodeId};
ghost use Rattle.mrp_config.specs.Config.{Config};
ghost use Rattle.mrp_config.specs.Valid.{IsValid};
ghost use Rattle.quorums.specs.Groups.{Has};
ghost use Rattle.protocol.specs.Lines.{Disk, Down};
ghost use Rattle.world_model.specs.Events.{ScheduleEvent};
ghost use Rattle.world_model.specs.Runs.{Happening, Scheduled, MayBeScheduled, IsRun, run_of};
ghost use Rattle.world_model.specs.Trace.{trace};
ghost use Rattle.disk_runs.specs.Runs.{Fits, IsShown};
ghost use Rattle.disk_faults.specs.Faults.{sets_fault};

/// Where a run prints that a node's disk failed, one of its events sets a fault of that node's disk: a call or a read that is to
/// fail. Each front of a run is one, so that this event stands before the line. It is asked of a run what every run is asked.
pub fn only_a_fault_is_told_as_one()
    ensures runs { (config : Config) → IsValid config → (xs : List Happening) → IsRun config xs → AllByRecursion (Fits config) xs → (id : NodeId)
        → Has (run_of config xs).lines (Down id Disk) → list_any (sets_fault id) xs ≡ true }
    ensures schedules { (config : Config) → IsValid config → (events : List ScheduleEvent) → AllByRecursion MayBeScheduled events → AllByRecursion (IsShown config) events → (id : NodeId)
        → Has (trace config events) (Down id Disk) → list_any (sets_fault id) (map Scheduled events) ≡ true }
{}
