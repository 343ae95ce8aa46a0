//! What every image of a node's disk stands for: the state of its journal and its newest checkpoint, at each moment of the work
//! of a step and of an opening.
//!
//! Definitions and laws alone: each function has an empty body, and its contract is the law. No plan of faults is named: calls
//! may be stopped anywhere.
#![tactic(auto)]

ghost use Rattle.std.specs.Prelude.{◌≡◌, ◌<◌, ◌-◌, ◌^◌, ℕ, List, [], take, None, Ok, Err};
ghost use Rattle.mrp_types.specs.declared.id.NodeId.{NodeId};
ghost use Rattle.mrp_types.specs.declared.id.RingId.{RingId};
ghost use Rattle.mrp_config.specs.Config.{Config};
ghost use Rattle.disk_model.specs.declared.areas.Areas.{Areas};
ghost use Rattle.disk_model.specs.Calls.{Told, begun, and_then, reads};
ghost use Rattle.disk_model.specs.Running.{changes_in};
ghost use Rattle.vote_state.specs.declared.change.Change.{Change};
ghost use Rattle.vote_state.specs.State.{nothing_kept};
ghost use Rattle.vote_journal.specs.Journal.{Journal, recorded, compacted_journal};
ghost use Rattle.vote_journal.specs.Operations.{record_ops, compaction_ops};
ghost use Rattle.checkpoint.specs.Checkpoints.{Checkpoints, save_calls, saved};
ghost use Rattle.protocol.specs.Lines.{Cause};
ghost use Rattle.protocol.specs.Node.{View, Work, ops_of};
ghost use Rattle.bare_world.specs.Worlds.{Possible, possible_of};
ghost use Rattle.world_model.specs.Opening.{Kept, opening};
ghost use Rattle.disk_states.specs.States.{StandsFor, AllStandFor, IsHeld, BringsAbout, possible_at};
ghost use Rattle.disk_states.specs.Works.{MayRecord, MaySave, MayCompact, MayWork, journal_after, checkpoints_after};
ghost use Rattle.disk_states.specs.Openings.{raised, opening_calls, NewestIsReadable, HasOpened, IsFull};

/// Areas stand for one state at most, and those of a node that never ran for the one in which nothing is kept.
pub fn areas_stand_for_one_state()
    ensures one { (id : NodeId) (areas : Areas) (p q : Possible) → StandsFor id p areas → StandsFor id q areas → p ≡ q }
    ensures none { (id : NodeId) → StandsFor id (record { state = nothing_kept; newest = None }) (record { journal0 = []; journal1 = []; check2 = []; check3 = [] }) }
{}

/// The disk of a node that is up: each image of it stands for the state of its journal and checkpoints, and it may be told anew from
/// its areas.
pub fn a_held_disk_stands_for_its_state()
    ensures images { (j : Journal) (c : Checkpoints) (t : Told) → IsHeld j c t → AllStandFor j.id t (possible_at j c) (possible_at j c) }
    ensures anew { (j : Journal) (c : Checkpoints) (t : Told) → IsHeld j c t → IsHeld j c (begun (reads t)) }
{}

/// A record: wherever its calls are stopped each image stands for the state before or after it, with the checkpoint as before.
pub fn a_record_is_whole_or_not()
    ensures { (t : Told) (j : Journal) (c : Checkpoints) → IsHeld j c t → (changes : List Change) → MayRecord j changes
        → BringsAbout t (changes_in (record_ops j changes)) (possible_at j c) (recorded j changes) c }
{}

/// A save: each image stands for the old checkpoint or the new one, with the journal as before; once all is done the new one is
/// read back.
pub fn a_save_is_whole_or_not()
    ensures { (t : Told) (j : Journal) (c : Checkpoints) → IsHeld j c t → (tuple : List (RingId × ℕ)) (state : List ℕ) → MaySave c tuple state
        → BringsAbout t (save_calls c tuple state t) (possible_at j c) j (saved c tuple state) }
{}

/// A compaction: each image stands for the state as before.
pub fn a_compaction_keeps_the_state()
    ensures { (t : Told) (j : Journal) (c : Checkpoints) → IsHeld j c t → MayCompact j
        → BringsAbout t (changes_in (compaction_ops j t)) (possible_at j c) (compacted_journal j) c }
{}

/// The work of a step: wherever it is stopped, each image stands for the state before the step or for the one after it, and once
/// it is done the disk holds the journal and the checkpoints of the view after the step.
pub fn the_work_of_a_step_is_whole_or_not()
    ensures { (view : View) (work : Work) (t : Told) → IsHeld view.journal view.checkpoints t → MayWork view work
        → BringsAbout t (changes_in (ops_of view work t)) (possible_of view) (journal_after view work) (checkpoints_after view work) }
{}

/// An opening on areas that stand for a state. Wherever its calls are stopped each image stands for that state, or for that in an
/// epoch more; behind the last epoch for that state alone. Where it ends well it has read the state in an epoch more, and the
/// checkpoint. By itself it fails only behind the last epoch or where the journal is full: it finds no damage.
pub fn an_opening_keeps_the_state()
    ensures stopped { (config : Config) (id : NodeId) (areas : Areas) (p : Possible) → config.journal < 2 ^ 32 → p.state.epoch < 2 ^ 32 → StandsFor id p areas
        → (i : ℕ) → AllStandFor id (and_then (begun areas) (take i (opening_calls config id areas))) p (raised p) }
    ensures last { (config : Config) (id : NodeId) (areas : Areas) (p : Possible) → config.journal < 2 ^ 32 → p.state.epoch < 2 ^ 32 → StandsFor id p areas
        → p.state.epoch ≡ 2 ^ 32 - 1 → (i : ℕ) → AllStandFor id (and_then (begun areas) (take i (opening_calls config id areas))) p p }
    ensures opened { (config : Config) (id : NodeId) (areas : Areas) (p : Possible) → config.journal < 2 ^ 32 → p.state.epoch < 2 ^ 32 → StandsFor id p areas
        → (kept : Kept) → (opening config id areas).result ≡ Ok kept → HasOpened config id areas p kept }
    ensures full { (config : Config) (id : NodeId) (areas : Areas) (p : Possible) → config.journal < 2 ^ 32 → p.state.epoch < 2 ^ 32 → StandsFor id p areas
        → NewestIsReadable config id p → (cause : Cause) → (opening config id areas).result ≡ Err cause → IsFull config id areas p cause }
{}
