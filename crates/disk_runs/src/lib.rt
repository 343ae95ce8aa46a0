//! Every run of nodes on disks is a run without bytes: with any images that crashes may leave, under any plans of faults, with the
//! same frames and the same lines. So what is proved of every run without bytes is proved of every run, and of every schedule.
//!
//! Definitions and laws alone: each function has an empty body, and its contract is the law. Above this crate nothing that is
//! proved of the whole system need name an area, a gate or a device call.
#![tactic(auto)]

ghost use Rattle.std.specs.Prelude.{◌≡◌, ◌++◌, List, [], ◌∷◌, length, Some, Err, false};
ghost use Rattle.std.specs.List.{AllByRecursion};
ghost use Rattle.mrp_types.specs.declared.id.NodeId.{NodeId};
ghost use Rattle.mrp_config.specs.Config.{Config};
ghost use Rattle.mrp_config.specs.Valid.{IsValid};
ghost use Rattle.disk_model.specs.declared.areas.Areas.{Areas};
ghost use Rattle.disk_model.specs.declared.plan.Plan.{Plan};
ghost use Rattle.disk_model.specs.Calls.{Told, IsImage};
ghost use Rattle.protocol.specs.Lines.{Cause, End};
ghost use Rattle.protocol.specs.Node.{Event, View, is_full};
ghost use Rattle.protocol.specs.Step.{step};
ghost use Rattle.bare_world.specs.Worlds.{nothing as bare_nothing, Happening as BareHappening, Up as BareUp};
ghost use Rattle.bare_world.specs.Runs.{run, MayCome, MayRun};
ghost use Rattle.world_model.specs.Events.{ScheduleEvent};
ghost use Rattle.world_model.specs.Opening.{opening};
ghost use Rattle.world_model.specs.Runs.{Happening, MayBeScheduled, MayHappen, IsRun, outcome_of, run_of};
ghost use Rattle.world_model.specs.Trace.{trace};
ghost use Rattle.world_model.specs.Worlds.{World, Down, node_at, started};
ghost use Rattle.disk_states.specs.Works.{MayWork};
ghost use Rattle.bare_ties.specs.Ties.{UpTies};
ghost use Rattle.disk_runs.specs.Runs.{WorldTies, world_after, GoesOn, Fits, IsShown, FailsFull};

/// The start of all nodes on empty disks is a run without bytes.
pub fn the_start_is_a_run()
    ensures { (config : Config) → IsValid config → GoesOn config [] (started config) }
{}

/// Wherever a run has come, what may happen next to the nodes on their disks is a run without bytes that goes on: a restart on
/// any image that a crash may leave, a step that a device stops anywhere, a step without room, a delivery of any frame at any
/// time. A flow and a tick of all are chains of happenings. It is asked that an order to show names a node of the deployment.
pub fn every_happening_is_a_run()
    ensures { (config : Config) → IsValid config → (past : List BareHappening) → MayRun config bare_nothing past → (w : World) → WorldTies config w (world_after config past)
        → (x : Happening) → MayHappen w x → Fits config x → GoesOn config past (outcome_of config x w) }
{}

/// So is every run, from the start on.
pub fn every_run_is_one_without_bytes()
    ensures { (config : Config) → IsValid config → (xs : List Happening) → IsRun config xs → AllByRecursion (Fits config) xs → GoesOn config [] (run_of config xs) }
{}

/// And what a schedule prints are the lines of a run without bytes, and then its end.
pub fn every_schedule_is_a_run()
    ensures { (config : Config) → IsValid config → (events : List ScheduleEvent) → AllByRecursion MayBeScheduled events → AllByRecursion (IsShown config) events
        → (hs : List BareHappening) × MayRun config bare_nothing hs × (trace config events ≡ (world_after config hs).lines ++ End (length events) ∷ []) }
{}

/// Wherever a run has come, the work of each step may be done where the journal has room for it: what it records may stand in a
/// record, in the epoch that it is; the tuple and the state of a checkpoint have a spelling; and a generation is left.
pub fn the_work_of_each_step_may_be_done()
    ensures { (config : Config) → IsValid config → (past : List BareHappening) → MayRun config bare_nothing past → (id : NodeId) (view : View) (t : Told) → (world_after config past).hosts id.0 ≡ BareUp view
        → UpTies config id view t → (event : Event) → MayCome (world_after config past) id event → is_full view (step config view event).work ≡ false → MayWork view (step config view event).work }
{}

/// No opening finds damage. Wherever a run has come, a node that is down opens on any image of its disk; where the calls of the
/// opening pass and it fails, its epoch is the last one or its journal is full.
pub fn no_opening_finds_damage()
    ensures { (config : Config) → IsValid config → (past : List BareHappening) → MayRun config bare_nothing past → (w : World) → WorldTies config w (world_after config past) → (id : NodeId) (told : Told) (plan : Plan)
        → node_at w id ≡ Some (Down told plan) → (image : Areas) → IsImage told image → (cause : Cause) → (opening config id image).result ≡ Err cause → FailsFull config id image cause }
{}
