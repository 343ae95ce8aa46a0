//! What users see of nodes on disks is the fold, in every run of a valid deployment, and what they may count on.
//!
//! Definitions and laws alone: each function has an empty body, and its contract is the law. A run on disks is a list of
//! happenings, as `IsRun` of `world_model` says; one without bytes is as `IsRun` of `line_runs` says.
#![tactic(auto)]

ghost use Rattle.std.specs.Prelude.{◌≡◌, ◌++◌, ◌∷◌, ℕ, List, [], true};
ghost use Rattle.std.specs.List.{AllByRecursion};
ghost use Rattle.mrp_types.specs.declared.id.ClientId.{ClientId};
ghost use Rattle.mrp_types.specs.declared.id.NodeId.{NodeId};
ghost use Rattle.mrp_types.specs.declared.id.RingId.{RingId};
ghost use Rattle.mrp_types.specs.declared.value.Entry.{Entry};
ghost use Rattle.mrp_config.specs.Config.{Config, partition_of};
ghost use Rattle.mrp_config.specs.Valid.{IsValid};
ghost use Rattle.mrp_config.specs.declared.tables.PartitionTable.{PartitionTable};
ghost use Rattle.quorums.specs.Groups.{Has};
ghost use Rattle.plain_model.specs.Fold.{has_shown, replica_after};
ghost use Rattle.plain_model.specs.Replicas.{apply};
ghost use Rattle.protocol.specs.Lines.{Reply};
ghost use Rattle.bare_world.specs.Worlds as bare;
ghost use Rattle.world_model.specs.Runs.{Happening, IsRun, run_of};
ghost use Rattle.disk_runs.specs.Runs.{Fits};
ghost use Rattle.line_runs.specs.Laws as bare_runs;
ghost use Rattle.line_runs.specs.Laws.{lines_of};
ghost use Rattle.fold_runs.specs.Folds.{AreFolds, ImagesHaveStates};

/// On disks that lose and keep what a crash may: the reply lines of a run are those that its deliver lines owe (rule F3), its state
/// lines are the fold's (F4), and so are its answer lines (F5). At the end of a run the newest checkpoint of each image that a crash
/// may leave of a replica's disk is the state at its tuple.
pub fn runs_on_disks_are_folds()
    ensures lines { (config : Config) → IsValid config → (xs : List Happening) → IsRun config xs → AllByRecursion (Fits config) xs → AreFolds config (run_of config xs).lines }
    ensures images { (config : Config) → IsValid config → (xs : List Happening) → IsRun config xs → AllByRecursion (Fits config) xs
        → ImagesHaveStates config (run_of config xs).lines (run_of config xs).world }
{}

/// A reply depends on the place alone. Two reply lines of replicas of one partition with one ring, instance and index are of one
/// client and one number and have the same bytes, whichever node printed them and when.
pub fn a_reply_depends_on_the_place_alone()
    ensures { (c : Config) (hs : List bare.Happening) → bare_runs.IsRun c hs → (x y : NodeId) (ring : RingId) (inst index : ℕ) (client client' : ClientId) (seq seq' : ℕ) (reply reply' : List ℕ)
        → Has (lines_of c hs) (Reply x ring inst index client seq reply) → Has (lines_of c hs) (Reply y ring inst index client' seq' reply') → partition_of c.partitions x ≡ partition_of c.partitions y
        → (client ≡ client') × (seq ≡ seq') × (reply ≡ reply') }
{}

/// A repeated command changes nothing: an entry whose number, or a greater one, has come before from its client leaves the state
/// of the partition as it is, whatever command it carries.
pub fn a_repeated_command_changes_nothing()
    ensures fold { (p : PartitionTable) (es : List Entry) (e : Entry) → has_shown p e.client e.seq es ≡ true → replica_after p (es ++ e ∷ []) ≡ replica_after p es }
    ensures replica { (p : PartitionTable) (es : List Entry) (e : Entry) → has_shown p e.client e.seq es ≡ true → (apply p (replica_after p es) e).replica ≡ replica_after p es }
{}
