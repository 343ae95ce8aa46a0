//! A coordinator that learns of a newer leader levels past what that one decided, and what is finished takes no room of the window.

ghost use Rattle.std.specs.Prelude.{◌≡◌};
ghost use Rattle.world_model.specs.Trace.{trace};
ghost use Rattle.protocol_rows.specs.Levelling_nodes.{config};
ghost use Rattle.protocol_rows.specs.Newer_leader.{schedule, lines};

/// These are all lines.
pub fn prints()
    ensures { trace config schedule ≡ lines }
{}
