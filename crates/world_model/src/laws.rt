//! Why a disk may be told anew from its areas between steps.

ghost use Rattle.std.specs.Prelude.{◌≡◌, ℕ, true, List, [], ◌∷◌, ◌++◌, length, map, take, Ok, Some};
ghost use Rattle.std.specs.List.{AllByRecursion};
ghost use Rattle.disk_model.specs.declared.area.Area.{Area};
ghost use Rattle.disk_model.specs.declared.area.Image.{Image};
ghost use Rattle.disk_model.specs.declared.call.Call.{Call};
ghost use Rattle.disk_model.specs.declared.plan.Plan.{Plan};
ghost use Rattle.disk_model.specs.Calls.{Told, begun, and_then, reads, kept, IsSettled};
ghost use Rattle.disk_model.specs.Crash.{left_by};
ghost use Rattle.disk_model.specs.Sim.{Sim};
ghost use Rattle.disk_model.specs.declared.areas.Areas.{Areas};
ghost use Rattle.mrp_types.specs.declared.id.NodeId.{NodeId};
ghost use Rattle.mrp_config.specs.Config.{Config};
ghost use Rattle.protocol.specs.Node.{View, Work, ops_of};
ghost use Rattle.disk_model.specs.Running.{Op, ran, changes_in};
ghost use Rattle.world_model.specs.Opening.{Kept, opening};
ghost use Rattle.world_model.specs.Events.{ScheduleEvent};
ghost use Rattle.world_model.specs.Worlds.{World, Down, comes_back};
ghost use Rattle.world_model.specs.Runs.{Happening, Scheduled, MayBeScheduled, MayReturn, MayHappen, IsRun, run_of};
ghost use Rattle.world_model.specs.Trace.{trace};
ghost use Rattle.protocol.specs.Lines.{End};

/// A disk on which nothing is pending and one that begins with its areas leave the same images, whatever calls follow.
pub fn areas_tell_a_settled_disk()
    ensures kept { (t : Told) (calls : List Call) (area : Area) → IsSettled t → kept area (and_then t calls) ≡ kept area (and_then (begun (reads t)) calls) }
    ensures images { (t : Told) (calls : List Call) (image : Image) → IsSettled t → left_by image (and_then t calls) ≡ left_by image (and_then (begun (reads t)) calls) }
{}

/// The work of a step leaves nothing pending.
pub fn work_is_settled()
    ensures { (view : View) (work : Work) (t : Told) → IsSettled t → IsSettled (and_then t (changes_in (ops_of view work t))) }
{}

/// Operations that all passed have changed the disk in their order; where one failed, the first of them have.
pub fn what_passed_took_effect()
    ensures all { (ops : List Op) (disk : Sim) → (ran ops disk).done ≡ true → (ran ops disk).disk.told ≡ and_then disk.told (changes_in ops) }
    ensures some { (ops : List Op) (disk : Sim) → (j : ℕ) × ((ran ops disk).disk.told ≡ and_then disk.told (take j (changes_in ops))) }
{}

/// The calls of an opening that succeeds leave nothing pending, whatever the disk had told.
pub fn openings_are_settled()
    ensures { (config : Config) (id : NodeId) (areas : Areas) (kept : Kept) (t : Told) →
        (opening config id areas).result ≡ Ok kept → IsSettled (and_then t (changes_in (opening config id areas).work)) }
{}

/// The restarts of a schedule are restarts on images that a crash may leave.
pub fn scheduled_images_may_be_left()
    ensures may { (image : Image) (t : Told) (plan : Plan) → MayReturn (left_by image t) (Some (Down t plan)) }
    ensures same { (config : Config) (id : NodeId) (image : Image) (t : Told) (plan : Plan) (w : World) →
        comes_back config id (left_by image) (Some (Down t plan)) w ≡ comes_back config id (λ told. left_by image t) (Some (Down t plan)) w }
{}

/// What a schedule prints is what its run prints, and then its end; and where each command that it asks has a spelling, its run is
/// one: each of its events may happen when its turn comes.
pub fn a_trace_is_a_run()
    ensures run { (config : Config) (events : List ScheduleEvent) → AllByRecursion MayBeScheduled events → IsRun config (map Scheduled events) }
    ensures lines { (config : Config) (events : List ScheduleEvent) → trace config events ≡ (run_of config (map Scheduled events)).lines ++ End (length events) ∷ [] }
{}

/// Nothing has to happen; a run goes on with whatever may happen in the world that it left; and each front of a run is one.
pub fn runs_go_on()
    ensures none { (config : Config) → IsRun config [] }
    ensures more { (config : Config) (xs : List Happening) (x : Happening) → IsRun config xs → MayHappen (run_of config xs).world x → IsRun config (xs ++ x ∷ []) }
    ensures front { (config : Config) (xs ys : List Happening) → IsRun config (xs ++ ys) → IsRun config xs }
{}
