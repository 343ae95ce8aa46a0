//! A step of a node and its lines: every rule of a ring, a tick, a frame, an order to lead, and an opening, as a whole.
//!
//! Definitions and laws alone: each function has an empty body, and its contract is the law. `lines` are those before the step,
//! the latest first. What a step leaves is said twice: of its work, done or stopped, with respect to the lines before it, and of
//! its own lines, where each learn line among them agrees with the book before it.
#![tactic(auto)]

ghost use Rattle.std.specs.Prelude.{◌≡◌, ◌+◌, ℕ, List, ◌∷◌};
ghost use Rattle.std.specs.List.{AllByRecursion};
ghost use Rattle.mrp_types.specs.declared.id.NodeId.{NodeId};
ghost use Rattle.mrp_config.specs.Config.{Config, partition_of};
ghost use Rattle.checkpoint.specs.Checkpoints.{Checkpoints};
ghost use Rattle.vote_journal.specs.Journal.{Journal};
ghost use Rattle.protocol.specs.Lines.{Line, Up};
ghost use Rattle.protocol.specs.Node.{Event, View};
ghost use Rattle.protocol.specs.Opening.{opened, parts_of};
ghost use Rattle.protocol.specs.Step.{step};
ghost use Rattle.faithful.specs.Scanners.{past};
ghost use Rattle.recovery_lines.specs.Ties.{AreCovered, AreRight, IsFit, IsPlaced, KnownLines, PartTold, StepLines, ViewLines, rings_in};
ghost use Rattle.step_lines.specs.Effects.{AllAgree, EventSaid, KeptFor, LeftTold};

/// A step on an event that was said. Whether its work is done or stopped, the node and its rings stay, each trim that it keeps
/// is covered by what was told before the step, and its newest checkpoint reaches all that it told. Where each of its learn lines
/// agrees with the book before it, all its lines meet their rules, each choice reaches all that was covered when its attempt began,
/// and all that it sends, learns and keeps is tied to them.
pub fn steps()
    ensures left { (c : Config) → IsFit c → (lines : List Line) (view : View) → ViewLines c lines view → AllByRecursion (IsPlaced c view.id) (rings_in view.parts)
        → AllByRecursion (PartTold c lines) view.parts → AreCovered c lines view.journal.state → (event : Event) → EventSaid c lines view.id event
        → LeftTold c lines view.id (rings_in view.parts) (step c view event) }
    ensures right { (c : Config) → IsFit c → (lines : List Line) (view : View) → ViewLines c lines view → AllByRecursion (IsPlaced c view.id) (rings_in view.parts)
        → AllByRecursion (PartTold c lines) view.parts → AreCovered c lines view.journal.state → (event : Event) → EventSaid c lines view.id event
        → AllAgree (past lines (step c view event).lines) → (new : List Line) × StepLines c lines new view.id (step c view event) }
{}

/// An opening, in an epoch more than that of the state that its disk stands for: a replica begins its first attempt over its
/// up line, and the same is so of what it leaves and prints.
pub fn openings()
    ensures left { (c : Config) → IsFit c → (lines : List Line) (id : NodeId) (journal : Journal) (checkpoints : Checkpoints) (epoch : ℕ) → journal.state.epoch ≡ epoch + 1
        → KeptFor c lines id epoch checkpoints.newest (partition_of c.partitions id) → AreCovered c (Up id (epoch + 1) ∷ lines) journal.state
        → LeftTold c (Up id (epoch + 1) ∷ lines) id (rings_in (parts_of c id journal.state c.rings)) (opened c id journal checkpoints) }
    ensures right { (c : Config) → IsFit c → (lines : List Line) (id : NodeId) (journal : Journal) (checkpoints : Checkpoints) (epoch : ℕ) → journal.state.epoch ≡ epoch + 1
        → KeptFor c lines id epoch checkpoints.newest (partition_of c.partitions id) → AreRight c lines → KnownLines c lines → AreCovered c (Up id (epoch + 1) ∷ lines) journal.state
        → (new : List Line) × StepLines c (Up id (epoch + 1) ∷ lines) new id (opened c id journal checkpoints) }
{}
