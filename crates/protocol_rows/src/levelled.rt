//! One node in two rings, which are levelled by Skips at each tick.

ghost use Rattle.std.specs.Prelude.{◌≡◌};
ghost use Rattle.world_model.specs.Trace.{trace};
ghost use Rattle.protocol_rows.specs.Two_rings.{config};
ghost use Rattle.protocol_rows.specs.Levelled.{schedule, lines};

/// These are all lines.
pub fn prints()
    ensures { trace config schedule ≡ lines }
{}
