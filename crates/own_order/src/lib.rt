//! One node's own order: what its replica does from a restore on, whatever frames come.
//!
//! Definitions and laws alone: each function has an empty body, and its contract is the law. They are of one node by itself, and ask
//! nothing of what others send, nor of the deployment: a node that opened, and to which any events have happened.
#![tactic(auto)]

ghost use Rattle.std.specs.List.{AllByRecursion};
ghost use Rattle.std.specs.Prelude.{◌≡◌, ◌++◌, ◌∷◌, List, ℕ, Some};
ghost use Rattle.mrp_types.specs.declared.id.NodeId.{NodeId};
ghost use Rattle.mrp_config.specs.Config.{Config, partition_of};
ghost use Rattle.mrp_config.specs.declared.tables.PartitionTable.{PartitionTable};
ghost use Rattle.checkpoint.specs.Checkpoints.{Checkpoints};
ghost use Rattle.vote_journal.specs.Journal.{Journal};
ghost use Rattle.protocol.specs.Lines.{Line, Restore};
ghost use Rattle.protocol.specs.Node.{Event};
ghost use Rattle.own_order.specs.Order.{FollowsOrder, IsBetween, IsEnd, KeepsOrder, life};

/// Whatever happens to a node after its opening, its begin, restore, deliver and reply lines are those of deeds, one after the
/// other: an attempt begins; the replica is restored, at the first tuple with the empty state, or with a state that is read of
/// bytes; or, once it is restored, it takes at its next place a value that the node has learned there. A batch prints its deliver
/// line and the fold's replies to its entries in their order; a skip prints nothing. Where the deeds leave the replica, there it
/// stands, with the state that they leave: so from a restore on, up to the next begin line or the end, its deliver lines are the
/// batch places from the restored tuple on in the one order, none left out, and its replies and states are the fold's from the
/// restored state over them.
pub fn a_node_keeps_its_own_order()
    ensures { (c : Config) (id : NodeId) (p : PartitionTable) → partition_of c.partitions id ≡ Some p → (journal : Journal) (checkpoints : Checkpoints) (events : List Event)
        → KeepsOrder c id p (life c id journal checkpoints events) }
{}

/// After a restore line with a tuple, up to the next begin or restore line or the end: there is a state that was read there, and
/// the deliver lines are the batch places from the tuple on in the one order, by what the node has learned; the replies, and the
/// state that is left, are the fold's from that state over them.
pub fn after_a_restore_it_follows_the_order()
    ensures { (c : Config) (id : NodeId) (p : PartitionTable) → partition_of c.partitions id ≡ Some p → (journal : Journal) (checkpoints : Checkpoints) (events : List Event)
        → (before since after : List Line) (printed : List ℕ) → (life c id journal checkpoints events).lines ≡ before ++ Restore id printed ∷ (since ++ after)
        → AllByRecursion IsBetween since → IsEnd after → FollowsOrder c id p (life c id journal checkpoints events) printed since after }
{}
