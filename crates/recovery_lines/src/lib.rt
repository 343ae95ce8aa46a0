//! The words of recovery and of the merge among the lines: what a replica begins, hears, chooses, restores, delivers and saves
//! meets the rules of its lines, and leaves it tied to them.
//!
//! Definitions and laws alone: each function has an empty body, and its contract is the law. `before` are the lines before the
//! step, `lines` those so far, the latest first. A word is right where a step on its way that is tied to the lines so far
//! (`ActLines`) is tied to some lines more after it (`AfterLines`).
#![tactic(auto)]

ghost use Rattle.std.specs.Prelude.{◌≡◌, ◌≤◌, ℕ, ◌+◌, Bool, List, ◌∷◌, Option, Some, length};
ghost use Rattle.std.specs.List.{AllByRecursion};
ghost use Rattle.mrp_types.specs.declared.id.NodeId.{NodeId};
ghost use Rattle.mrp_types.specs.declared.id.RingId.{RingId};
ghost use Rattle.mrp_config.specs.Config.{Config, partition_of};
ghost use Rattle.mrp_config.specs.declared.tables.PartitionTable.{PartitionTable};
ghost use Rattle.checkpoint.specs.Checkpoints.{Checkpoint};
ghost use Rattle.quorums.specs.Groups.{Has};
ghost use Rattle.plain_model.specs.Tuples.{instances};
ghost use Rattle.protocol.specs.Lines.{Cause, Down, Line, Up};
ghost use Rattle.protocol.specs.Merging.{merges};
ghost use Rattle.protocol.specs.Node.{StepSoFar, Attempt, Recovering, Service, Stepped, View};
ghost use Rattle.protocol.specs.Recovery.{answered_by, begins, epoch_of, recovery_ticks, takes_gone, takes_part, tells_checkpoint, tells_part};
ghost use Rattle.protocol.specs.Step.{recovers_if_trimmed};
ghost use Rattle.protocol.specs.Tick.{saves_first};
ghost use Rattle.faithful.specs.Scanners.{Reaches, before_attempt, told};
ghost use Rattle.faithful.specs.Rules.{IsReached};
ghost use Rattle.recovery_lines.specs.Ties.{ActLines, AfterLines, AttemptLines, IsAnswer, IsFit, KeptLines, OwnLines, ReachesCovered, ServiceLines, StageLines, StepLines, ViewLines, newest_of, TellsTuple};

/// A tuple at or past all answers of an attempt that a recovery quorum has answered reaches each trim whose line stands before
/// the attempt's begin line, and all that the lines before it cover: a trim quorum told an entry that reaches it by then, and one
/// of these replicas answered since.
pub fn choices_pass_trims()
    ensures lines { (c : Config) → IsFit c → (lines : List Line) (x : NodeId) (epoch : ℕ) (newest : Option Checkpoint) (p : PartitionTable) → Has c.partitions p
        → (number : ℕ) (answers : List (NodeId × List (RingId × ℕ))) (ties : AttemptLines c lines x epoch newest p number answers) → p.recovery_quorum ≤ length answers
        → (best : List ℕ) → AllByRecursion (λ (answer : NodeId × List (RingId × ℕ)). Reaches best (instances answer.1)) answers → AllByRecursion (IsReached p.rings best) ties.earlier }
    ensures covered { (c : Config) → IsFit c → (lines : List Line) (x : NodeId) (epoch : ℕ) (newest : Option Checkpoint) (p : PartitionTable) → Has c.partitions p
        → (number : ℕ) (answers : List (NodeId × List (RingId × ℕ))) (ties : AttemptLines c lines x epoch newest p number answers) → p.recovery_quorum ≤ length answers
        → (best : List ℕ) → AllByRecursion (λ (answer : NodeId × List (RingId × ℕ)). Reaches best (instances answer.1)) answers → ReachesCovered c ties.earlier p.rings best }
{}

/// The merge takes place after place; an attempt begins; one begins since the merge waits below a trim; an attempt has a tick.
pub fn words_of_recovery()
    ensures merges { (c : Config) → IsFit c → (before : List Line) (a : StepSoFar) (lines : List Line) → ActLines c before lines a → AfterLines c before (merges c a) }
    ensures begins { (c : Config) → IsFit c → (before : List Line) (a : StepSoFar) (lines : List Line) → ActLines c before lines a → (service : Service)
        → OwnLines c lines a.view.id (epoch_of a.view) a.view.checkpoints.newest service.partition service.attempts → AfterLines c before (begins c service a) }
    ensures recovers_if_trimmed { (c : Config) → IsFit c → (before : List Line) (a : StepSoFar) (lines : List Line) → ActLines c before lines a → (ring : RingId) (trim : ℕ) → AfterLines c before (recovers_if_trimmed c ring trim a) }
    ensures ticks { (c : Config) → IsFit c → (before : List Line) (a : StepSoFar) (lines : List Line) → ActLines c before lines a → (again : Bool) (service : Service)
        → ServiceLines c lines a.view.id (epoch_of a.view) a.view.checkpoints.newest service → AfterLines c before (recovery_ticks c again service service.stage a) }
{}

/// A frame of recovery at a replica: what it is asked, an answer to its attempt, a part of the chosen checkpoint, and word that
/// this one is gone. What such a frame says of its sender, or of this replica where it asks for a part of what that told, has to
/// be so of the lines.
pub fn frames_of_recovery()
    ensures asked { (c : Config) → IsFit c → (before : List Line) (a : StepSoFar) (lines : List Line) → ActLines c before lines a → (service : Service)
        → ServiceLines c lines a.view.id (epoch_of a.view) a.view.checkpoints.newest service → (from : NodeId) (epoch number : ℕ)
        → ((earlier : List Line) × (before_attempt from.0 epoch number lines ≡ Some earlier)) → AfterLines c before (tells_checkpoint service from epoch number a) }
    ensures asked_part { (c : Config) → IsFit c → (before : List Line) (a : StepSoFar) (lines : List Line) → ActLines c before lines a → (service : Service)
        → ServiceLines c lines a.view.id (epoch_of a.view) a.view.checkpoints.newest service → (from : NodeId) (epoch number : ℕ) (tuple : List (RingId × ℕ)) (offset : ℕ)
        → TellsTuple c lines a.view.id tuple → AfterLines c before (tells_part c service from epoch number tuple offset a) }
    ensures answered { (c : Config) → IsFit c → (before : List Line) (a : StepSoFar) (lines : List Line) → ActLines c before lines a → (service : Service) (attempt : Attempt)
        → ServiceLines c lines a.view.id (epoch_of a.view) a.view.checkpoints.newest service
        → StageLines c lines a.view.id (epoch_of a.view) a.view.checkpoints.newest service.partition (Recovering attempt) → (from : NodeId) (epoch number : ℕ) (tuple : List (RingId × ℕ))
        → IsAnswer lines a.view.id.0 epoch number from.0 (instances tuple) → AfterLines c before (answered_by c service attempt from epoch number tuple a) }
    ensures gone { (c : Config) → IsFit c → (before : List Line) (a : StepSoFar) (lines : List Line) → ActLines c before lines a → (service : Service) (attempt : Attempt)
        → ServiceLines c lines a.view.id (epoch_of a.view) a.view.checkpoints.newest service
        → StageLines c lines a.view.id (epoch_of a.view) a.view.checkpoints.newest service.partition (Recovering attempt) → (from : NodeId) (epoch number : ℕ) (asked newer : List (RingId × ℕ))
        → (from.0 ≡ a.view.id.0 → ⊥) → Has (told from.0 lines) (instances newer) → AfterLines c before (takes_gone c service attempt from epoch number asked newer a) }
    ensures part { (c : Config) → IsFit c → (before : List Line) (a : StepSoFar) (lines : List Line) → ActLines c before lines a → (service : Service) (attempt : Attempt)
        → ServiceLines c lines a.view.id (epoch_of a.view) a.view.checkpoints.newest service
        → StageLines c lines a.view.id (epoch_of a.view) a.view.checkpoints.newest service.partition (Recovering attempt) → (from : NodeId) (epoch number : ℕ) (tuple : List (RingId × ℕ))
        (offset total : ℕ) (bytes : List ℕ) → AfterLines c before (takes_part c service attempt from epoch number tuple offset total bytes a) }
{}

/// A tick that saves: its line meets its rule, and the node stays tied to the lines.
pub fn saves_are_right()
    ensures { (c : Config) → IsFit c → (lines : List Line) (view : View) → ViewLines c lines view → (effects : Stepped) → saves_first c view view.service ≡ Some effects
        → (new : List Line) × StepLines c lines new view.id effects }
{}

/// What a disk may stand for stays so once the node is down, and in an epoch more. Such a node may open in an epoch more.
pub fn disks_stay()
    ensures down { (c : Config) (lines : List Line) (x : NodeId) (cause : Cause) (epoch : ℕ) (p : PartitionTable) (newest : Option Checkpoint) → KeptLines c lines x epoch p newest
        → KeptLines c (Down x cause ∷ lines) x epoch p newest }
    ensures next { (c : Config) (lines : List Line) (x : NodeId) (epoch : ℕ) (p : PartitionTable) (newest : Option Checkpoint) → KeptLines c lines x epoch p newest
        → KeptLines c lines x (epoch + 1) p newest }
    ensures up { (c : Config) (lines : List Line) (x : NodeId) (epoch : ℕ) (p : PartitionTable) (newest : Option Checkpoint) → partition_of c.partitions x ≡ Some p
        → KeptLines c lines x epoch p newest → OwnLines c (Up x (epoch + 1) ∷ lines) x (epoch + 1) newest p 0 }
{}
