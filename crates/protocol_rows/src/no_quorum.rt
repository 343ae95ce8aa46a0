//! An attempt without enough answers ends at its last tick, and the next one begins.

ghost use Rattle.std.specs.Prelude.{◌≡◌};
ghost use Rattle.world_model.specs.Trace.{trace};
ghost use Rattle.protocol_rows.specs.Three_nodes.{config};
ghost use Rattle.protocol_rows.specs.No_quorum.{schedule, lines};

/// These are all lines.
pub fn prints()
    ensures { trace config schedule ≡ lines }
{}
