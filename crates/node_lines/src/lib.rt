//! Which lines a node prints itself: neither a step nor an opening prints that a node is up or down, or a line of a client or of
//! what is shown.
//!
//! Definitions and laws alone: the function has an empty body, and its contract is the law.
#![tactic(auto)]

ghost use Rattle.std.specs.List.{AllByRecursion};
ghost use Rattle.mrp_types.specs.declared.id.NodeId.{NodeId};
ghost use Rattle.mrp_config.specs.Config.{Config};
ghost use Rattle.checkpoint.specs.Checkpoints.{Checkpoints};
ghost use Rattle.vote_journal.specs.Journal.{Journal};
ghost use Rattle.protocol.specs.Node.{View, Event};
ghost use Rattle.protocol.specs.Opening.{opened};
ghost use Rattle.protocol.specs.Step.{step};
ghost use Rattle.node_lines.specs.Printed.{IsNodeLine};

/// What a step prints, and what an opening does after its line `up`, are lines of a node.
pub fn nodes_print_their_own_lines()
    ensures steps { (config : Config) (view : View) (event : Event) → AllByRecursion IsNodeLine (step config view event).lines }
    ensures openings { (config : Config) (id : NodeId) (journal : Journal) (checkpoints : Checkpoints) → AllByRecursion IsNodeLine (opened config id journal checkpoints).lines }
{}
