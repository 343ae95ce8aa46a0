//! A ballot that starts on a tick, since the acceptors listed before the node are suspected, and what it decides.

ghost use Rattle.std.specs.Prelude.{◌≡◌};
ghost use Rattle.world_model.specs.Trace.{trace};
ghost use Rattle.protocol_rows.specs.Three_nodes.{config};
ghost use Rattle.protocol_rows.specs.Suspected_leader.{schedule, lines};

/// These are all lines.
pub fn prints()
    ensures { trace config schedule ≡ lines }
{}
