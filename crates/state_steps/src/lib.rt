//! States and replies through the steps of a node: what a replica keeps, saves, sends and replies is what the fold says of the
//! entries of the book, and each deliver line is followed by exactly the reply lines that it owes.
//!
//! Definitions and laws alone: each function has an empty body, and its contract is the law. `specs/Folded` says what bytes and
//! replies have to do with the lines so far, `specs/States` what a replica keeps of them. `before` are the lines before a step,
//! `lines` those so far, the latest first. A word keeps states where a step on its way that does (`ActAt`) does so after it, with
//! some lines more (`AfterAt`).
#![tactic(auto)]

ghost use Rattle.std.specs.Prelude.{◌≡◌, ◌∷◌, ℕ, Bool, List, Option, Some, true};
ghost use Rattle.std.specs.List.{AllByRecursion};
ghost use Rattle.mrp_types.specs.declared.id.NodeId.{NodeId};
ghost use Rattle.mrp_types.specs.declared.id.RingId.{RingId};
ghost use Rattle.mrp_config.specs.Config.{Config, partition_of};
ghost use Rattle.checkpoint.specs.Checkpoints.{Checkpoints};
ghost use Rattle.vote_journal.specs.Journal.{Journal};
ghost use Rattle.state_laws.specs.Books.{AreOfBytes};
ghost use Rattle.plain_model.specs.Replicas.{Replica};
ghost use Rattle.plain_model.specs.Tuples.{is_tuple_of, round_sizes};
ghost use Rattle.protocol.specs.Lines.{Line};
ghost use Rattle.protocol.specs.Effects.{no_effects};
ghost use Rattle.protocol.specs.Parts.{Effects, Ring};
ghost use Rattle.protocol.specs.Learning.{applies_effects};
ghost use Rattle.protocol.specs.Merging.{merges};
ghost use Rattle.protocol.specs.Node.{Attempt, Choice, Event, Recovering, RingPart, Service, Stage, StepSoFar, View, part_at};
ghost use Rattle.protocol.specs.Opening.{opened};
ghost use Rattle.protocol.specs.Recovery.{answered_by, begins, recovery_ticks, restores, takes_gone, takes_part, tells_part};
ghost use Rattle.protocol.specs.Step.{recovers_if_trimmed, step};
ghost use Rattle.line_rules.specs.Rules.{HasNode};
ghost use Rattle.line_rules.specs.Scanners.{learned, past};
ghost use Rattle.recovery_lines.specs.Ties.{IsFit, IsPlaced, ViewLines, rings_in};
ghost use Rattle.step_lines.specs.Effects.{AllAgree, EventSaid};
ghost use Rattle.quiet_rules.specs.Quiet.{AllPaid, Quiet};
ghost use Rattle.state_steps.specs.Folded.{IsPartAt, IsStateAt};
ghost use Rattle.state_steps.specs.States.{ActAt, AfterAt, ChoiceAt, EventFolded, IsLimited, NewestAt, ReplicaAt, StepAt, ViewAt};

/// The merge delivers as the fold does: a ready replica that keeps the state at its tuple keeps it place after place, each deliver
/// line is followed by the reply lines that it owes, and each reply frame has the fold's reply.
pub fn merges_fold()
    ensures { (c : Config) → IsLimited c → (before : List Line) (a : StepSoFar) (lines : List Line) → ActAt c before lines a → AfterAt c before (merges c a) }
{}

/// Recovery keeps states: what is restored is the state at its tuple; an attempt that begins, an answer, word that a checkpoint is
/// gone, a tick of an attempt, and a trim below which a replica waits. A part goes behind what came before only where it is one of
/// the state at the chosen tuple; and a part that is told is one of the own newest checkpoint, which is the state at its tuple.
pub fn recovery_keeps_states()
    ensures restore { (c : Config) → IsLimited c → (before : List Line) (service : Service) (tuple : List (RingId × ℕ)) (replica : Replica) (a : StepSoFar) (lines : List Line) → ActAt c before lines a
        → partition_of c.partitions a.view.id ≡ Some service.partition → is_tuple_of (round_sizes c) service.partition.rings tuple ≡ true → IsStateAt c lines service.partition tuple replica
        → AfterAt c before (restores c service tuple replica a) }
    ensures begin { (c : Config) → IsLimited c → (before : List Line) (service : Service) (a : StepSoFar) (lines : List Line) → ActAt c before lines a
        → partition_of c.partitions a.view.id ≡ Some service.partition → AfterAt c before (begins c service a) }
    ensures answer { (c : Config) → IsLimited c → (before : List Line) (a : StepSoFar) (lines : List Line) → ActAt c before lines a → (service : Service) → partition_of c.partitions a.view.id ≡ Some service.partition
        → (attempt : Attempt) (from : NodeId) (epoch number : ℕ) (tuple : List (RingId × ℕ)) → AfterAt c before (answered_by c service attempt from epoch number tuple a) }
    ensures gone { (c : Config) → IsLimited c → (before : List Line) (a : StepSoFar) (lines : List Line) → ActAt c before lines a → (service : Service) → partition_of c.partitions a.view.id ≡ Some service.partition
        → (attempt : Attempt) (from : NodeId) (epoch number : ℕ) (asked newer : List (RingId × ℕ)) → AfterAt c before (takes_gone c service attempt from epoch number asked newer a) }
    ensures part { (c : Config) → IsLimited c → (before : List Line) (a : StepSoFar) (lines : List Line) → ActAt c before lines a → (service : Service) → partition_of c.partitions a.view.id ≡ Some service.partition
        → (attempt : Attempt) (from : NodeId) (epoch number : ℕ) (tuple : List (RingId × ℕ)) (offset total : ℕ) (bytes : List ℕ) → AreOfBytes (learned lines)
        → ((choice : Choice) → attempt.choice ≡ Some choice → (is_tuple_of (round_sizes c) service.partition.rings choice.tuple ≡ true) × (partition_of c.partitions choice.from ≡ Some service.partition))
        → ChoiceAt c lines service.partition attempt.choice → IsPartAt c lines from tuple offset total bytes → AfterAt c before (takes_part c service attempt from epoch number tuple offset total bytes a) }
    ensures tell { (c : Config) → IsLimited c → (before : List Line) (a : StepSoFar) (lines : List Line) → ActAt c before lines a → (service : Service) → partition_of c.partitions a.view.id ≡ Some service.partition
        → (from : NodeId) (epoch number : ℕ) (tuple : List (RingId × ℕ)) (offset : ℕ) → AfterAt c before (tells_part c service from epoch number tuple offset a) }
    ensures tick { (c : Config) → IsLimited c → (before : List Line) (a : StepSoFar) (lines : List Line) → ActAt c before lines a → (service : Service) → partition_of c.partitions a.view.id ≡ Some service.partition
        → (again : Bool) (stage : Stage) → ReplicaAt c lines a.view.id (Some (record service { stage = stage })) → AfterAt c before (recovery_ticks c again service stage a) }
    ensures trim { (c : Config) → IsLimited c → (before : List Line) (a : StepSoFar) (lines : List Line) → ActAt c before lines a → (ring : RingId) (trim : ℕ) → AfterAt c before (recovers_if_trimmed c ring trim a) }
{}

/// A rule of a ring, which is quiet, and all that it decides: where each of its learn lines agrees with the book before it, what
/// learners hold is the book's, and states are kept through each merge.
pub fn rules_of_rings_keep_states()
    ensures { (c : Config) → IsLimited c → (before : List Line) (ring : Ring) (a : StepSoFar) (lines : List Line) → ActAt c before lines a → (p : RingPart) → part_at a.view ring.id ≡ Some p → p.ring.own ≡ ring.own
        → (effects : Effects) → Quiet ring (no_effects p.part) effects → AllAgree (past before (applies_effects c ring effects a).lines) → AfterAt c before (applies_effects c ring effects a) }
{}

/// A step as a whole, on an event that was sent so: where each of its learn lines agrees with the book before it, its lines are in
/// their turn and owe nothing at its end, its frames and its replica are the fold's. Whether its work is done or stopped, its newest
/// checkpoint is the state at its tuple, by the lines before it.
pub fn steps_keep_states()
    ensures kept { (c : Config) → IsFit c → IsLimited c → (lines : List Line) (view : View) → ViewLines c lines view → ViewAt c lines view → AllByRecursion (IsPlaced c view.id) (rings_in view.parts) → HasNode c view.id
        → AreOfBytes (learned lines) → (event : Event) → EventFolded c lines event → AllAgree (past lines (step c view event).lines) → StepAt c lines (step c view event) }
    ensures left { (c : Config) → IsFit c → IsLimited c → (lines : List Line) (view : View) → ViewLines c lines view → ViewAt c lines view → AllByRecursion (IsPlaced c view.id) (rings_in view.parts) → HasNode c view.id
        → AreOfBytes (learned lines) → (event : Event) → EventSaid c lines view.id event
        → NewestAt c lines (partition_of c.partitions (step c view event).view.id) (step c view event).view.checkpoints.newest }
{}

/// An opening over its up line, where the newest checkpoint is the state at its tuple.
pub fn openings_keep_states()
    ensures { (c : Config) → IsLimited c → (lines : List Line) (id : NodeId) (journal : Journal) (checkpoints : Checkpoints) → HasNode c id → AllPaid c lines
        → NewestAt c lines (partition_of c.partitions id) checkpoints.newest → StepAt c lines (opened c id journal checkpoints) }
{}
