//! A node on its disk and a node of the world without bytes: what ties the two, and that a step, a crash and an opening keep it,
//! whatever faults are planned.
//!
//! Definitions and laws alone: each function has an empty body, and its contract is the law.
#![tactic(auto)]

ghost use Rattle.std.specs.Prelude.{◌≡◌, ◌<◌, ◌^◌, Bool, false, Some};
ghost use Rattle.mrp_types.specs.declared.id.NodeId.{NodeId};
ghost use Rattle.mrp_config.specs.Config.{Config};
ghost use Rattle.disk_model.specs.declared.areas.Areas.{Areas};
ghost use Rattle.disk_model.specs.declared.plan.Plan.{Plan};
ghost use Rattle.disk_model.specs.Calls.{Told, IsImage};
ghost use Rattle.disk_model.specs.Sim.{Sim};
ghost use Rattle.protocol.specs.Node.{Event, View, is_full};
ghost use Rattle.protocol.specs.Step.{step};
ghost use Rattle.bare_world.specs.Worlds.{Possible, chosen, possible_of};
ghost use Rattle.bare_world.specs.Runs.{IsNode};
ghost use Rattle.world_model.specs.Worlds.{Down, World, comes_back, stepped_as};
ghost use Rattle.bare_ties.specs.Ties.{UpTies, DownTies, StepEnds, OpenEnds};
ghost use Rattle.disk_states.specs.Works.{MayWork, journal_after, checkpoints_after};

/// The journal and the checkpoints of a view change by the work of a step alone.
pub fn a_step_changes_by_its_work()
    ensures journal { (config : Config) (view : View) (event : Event) → (step config view event).view.journal ≡ journal_after view (step config view event).work }
    ensures checkpoints { (config : Config) (view : View) (event : Event) → (step config view event).view.checkpoints ≡ checkpoints_after view (step config view event).work }
{}

/// A step of a node that is up ends well, is stopped, or finds its journal full, as a step of a node without bytes is. It is asked
/// that its work may be done where there is room.
pub fn a_step_ends()
    ensures { (config : Config) (id : NodeId) (view : View) (disk : Sim) (event : Event) (w : World) → UpTies config id view disk.told
        → (is_full view (step config view event).work ≡ false → MayWork view (step config view event).work)
        → StepEnds config id view disk.told (step config view event) w (stepped_as id view disk (step config view event) w) }
{}

/// A node that goes down between two steps leaves images of its one state.
pub fn a_crash_leaves_one_state()
    ensures { (config : Config) (id : NodeId) (view : View) (t : Told) → UpTies config id view t → DownTies id t (possible_of view) (possible_of view) }
{}

/// A node that is down opens on any image of its disk as on one of its two states, which is chosen by the image alone: the opening
/// ends well on it, or fails and leaves it, or that in an epoch more.
pub fn an_opening_ends()
    ensures { (config : Config) (id : NodeId) (told : Told) (plan : Plan) (durable pending : Possible) (image : Areas) (w : World) → config.journal < 2 ^ 32 → IsNode config id
        → DownTies id told durable pending → IsImage told image
        → (after : Bool) × OpenEnds config id (chosen after durable pending) w (comes_back config id (λ t. image) (Some (Down told plan)) w) }
{}
