//! An Accept that comes three times makes its Decide again each time, and is learned once.

ghost use Rattle.std.specs.Prelude.{◌≡◌};
ghost use Rattle.world_model.specs.Trace.{trace};
ghost use Rattle.protocol_rows.specs.Three_nodes.{config};
ghost use Rattle.protocol_rows.specs.Delivered_again.{schedule, lines};

/// These are all lines.
pub fn prints()
    ensures { trace config schedule ≡ lines }
{}
