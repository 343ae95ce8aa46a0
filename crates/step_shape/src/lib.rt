//! Every step keeps the shape of a node, and each frame that it sends has what a spelling needs: what `step_valid` says of ballots,
//! instances and values, and here that no range is empty, pages are maximal and short, rings and attempts have numbers that fit,
//! a part of a checkpoint is as long as it has to be, and a reply is short. A part of no acceptor keeps nothing, is Idle and has no
//! round.
//!
//! Definitions and laws alone: each function has an empty body, and its contract is the law. `specs/Shaped` says what is kept.
#![tactic(auto)]

ghost use Rattle.std.specs.Prelude.{◌≤◌, Option, ℕ};
ghost use Rattle.mrp_types.specs.declared.id.NodeId.{NodeId};
ghost use Rattle.command_codec.specs.declared.command.Command.{Command};
ghost use Rattle.mrp_config.specs.Config.{Config};
ghost use Rattle.mrp_config.specs.Valid.{IsValid};
ghost use Rattle.vote_journal.specs.Journal.{Journal};
ghost use Rattle.checkpoint.specs.Checkpoints.{Checkpoints};
ghost use Rattle.protocol.specs.Node.{Event, View};
ghost use Rattle.protocol.specs.Opening.{opened};
ghost use Rattle.protocol.specs.Step.{step};
ghost use Rattle.step_valid.specs.Valid.{EventValid, ViewValid};
ghost use Rattle.ask_laws.specs.Asks.{IsAsked};
ghost use Rattle.ask_laws.specs.Carried.{EventCarries, NewestKeeps, StateCarries, ViewCarries};
ghost use Rattle.step_shape.specs.Shaped.{EventFits, KeepsNothing, NewestFits, StepFits, ViewFits};

/// Whatever happens to a node of a valid deployment whose view is valid, carries asked entries and fits: its view fits again, and so
/// does each frame that it sends, which comes of that node. Where the node's epoch and that of what comes are at most a limit, so is
/// that of each frame that it sends.
pub fn a_step_fits()
    ensures { (config : Config) → IsValid config → (asked : ℕ → ℕ → Option Command) → (view : View) → ViewValid config view → ViewCarries (IsAsked config asked) (IsValid config) view → ViewFits view
        → (limit : ℕ) → view.journal.state.epoch ≤ limit → (event : Event) → EventValid event → EventCarries (IsAsked config asked) (IsValid config) event → EventFits (λ epoch. epoch ≤ limit) event → StepFits (λ epoch. epoch ≤ limit) view.id (step config view event) }
{}

/// So does that of a node which opens on a state that keeps nothing of rings of which it is no acceptor.
pub fn an_opening_fits()
    ensures { (config : Config) → IsValid config → (asked : ℕ → ℕ → Option Command) → (id : NodeId) (journal : Journal) (checkpoints : Checkpoints) → StateCarries (IsAsked config asked) journal.state
        → NewestKeeps checkpoints.newest → NewestFits checkpoints.newest → KeepsNothing config id journal.state → (limit : ℕ) → journal.state.epoch ≤ limit → StepFits (λ epoch. epoch ≤ limit) id (opened config id journal checkpoints) }
{}
