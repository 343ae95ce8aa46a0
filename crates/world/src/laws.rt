//! Laws of the lines of every list of events, which name no code.

ghost use Rattle.std.specs.Prelude.{◌≡◌, List, length};
ghost use Rattle.mrp_types.specs.declared.id.NodeId.{NodeId};
ghost use Rattle.mrp_config.specs.Config.{Config};
ghost use Rattle.mrp_config.specs.Valid.{IsValid};
ghost use Rattle.mrp_config.specs.declared.tables.RingTable.{RingTable};
ghost use Rattle.schedule.specs.declared.event.ScheduleEvent.{ScheduleEvent};
ghost use Rattle.line_rules.specs.Rules.{IsFaithful};
ghost use Rattle.world.specs.Built.{IsBuiltRing};
ghost use Rattle.world.specs.Lines.{deliveries, counted};
ghost use Rattle.world.specs.Order.{KeepsRules, ready_lines};
ghost use Rattle.world.specs.System.{trace};

/// Over every deployment for which the step is built, the lines with which its nodes come up ready keep all nine rules of lines.
pub fn ready_lines_are_faithful()
    ensures { (c : Config) (ring : RingTable) → IsValid c → IsBuiltRing c ring → IsFaithful c (ready_lines c) }
{}

/// Whatever happens over such a deployment, each learn line and each deliver line keeps its rule after those lines and the ones
/// printed before it, and each node delivers in turn.
pub fn lines_are_faithful()
    ensures { (c : Config) (ring : RingTable) → IsValid c → IsBuiltRing c ring → (events : List ScheduleEvent) → KeepsRules c (trace ring events) }
{}

/// Whatever happens over any ring, each node delivers the instances 0, 1, 2 and so on, without a gap or a repeat.
pub fn deliveries_are_in_turn()
    ensures { (ring : RingTable) (events : List ScheduleEvent) (node : NodeId) →
        deliveries node (trace ring events) ≡ counted 0 (length (deliveries node (trace ring events))) }
{}
