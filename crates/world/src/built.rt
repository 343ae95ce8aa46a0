//! Which deployments and which events the step is built for so far.

ghost use Rattle.std.specs.Prelude.{◌≡◌, ◌↔◌, ◌<◌, length, IsTrue, IfSome, IfNone, All, Contains};
ghost use Rattle.mrp_config.specs.Config.{Config};
ghost use Rattle.mrp_config.specs.Valid.{IsValid};
ghost use Rattle.mrp_config.specs.declared.tables.RingTable.{RingTable as SomeRing};
ghost use Rattle.world.specs.Built.{IsBuilt, IsBuiltRing, AreSame, is_built_event, unbuilt_at};
ghost use Rattle.world.specs.Ring.{IsRing};

use command_codec::Command;
use mrp_config::{Deployment, RingTable};
use mrp_types::NodeId;
use schedule::{Schedule, ScheduleEvent};

/// The one ring of a deployment that the step is built for: one ring, whose acceptors are the replicas of the one
/// partition in any order, and no levelling. `None` of any other deployment.
pub fn built_ring(deployment: &Deployment) -> Option<RingTable>
    ensures built { IfSome result (λ ring. IsBuiltRing deployment.now ring) }
    ensures other { IfNone result (IsBuilt deployment.now → ⊥) }
{
    let [ring] = deployment.rings() else {
        return None;
    };
    let [partition] = deployment.partitions() else {
        return None;
    };
    if deployment.lambda() != 0 {
        return None;
    }
    if !are_same(partition.replicas.items(), ring.acceptors.items()) {
        return None;
    }
    Some(*ring)
}

// Whether each node of one list is in the other.
fn are_same(nodes: &[NodeId], others: &[NodeId]) -> bool
    ensures { IsTrue result ↔ AreSame nodes.now others.now }
{
    are_among(nodes, others) && are_among(others, nodes)
}

// Whether each node is among the others.
fn are_among(nodes: &[NodeId], others: &[NodeId]) -> bool
    ensures { IsTrue result ↔ All (Contains others.now) nodes.now }
{
    for node in nodes {
        if !is_among(others, *node) {
            return false;
        }
    }
    true
}

fn is_among(nodes: &[NodeId], node: NodeId) -> bool
    ensures { IsTrue result ↔ Contains nodes.now node }
{
    nodes.contains(&node)
}

/// The index of the first event for which the step isn't built; it is built for asked appends, and for frames that are
/// delivered, lost and listed.
pub fn first_unbuilt(schedule: &Schedule) -> Option<usize>
    ensures first { result ≡ unbuilt_at schedule.now }
    ensures inside { IfSome result (λ index. index < length schedule.now) }
{
    schedule.items().iter().position(|event| !is_built(event))
}

fn is_built(event: &ScheduleEvent) -> bool
    ensures { result ≡ is_built_event event.now }
{
    match event {
        ScheduleEvent::Ask { client: _, command } => matches!(command, Command::Append { .. }),
        ScheduleEvent::Flow { .. } => true,
        ScheduleEvent::Lose { .. } => true,
        ScheduleEvent::Deliver { .. } => true,
        ScheduleEvent::List { .. } => true,
        _ => false,
    }
}

/// The ring of a valid deployment that is built is one of 1 to 7 different acceptors below 32, with an id below 16.
pub fn built_rings_are_rings()
    ensures { (config : Config) (ring : SomeRing) → IsValid config → IsBuiltRing config ring → IsRing ring }
{}
