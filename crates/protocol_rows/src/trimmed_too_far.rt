//! A ready replica is told a trim above the place for which it waits: it recovers anew, from the checkpoint of another.

ghost use Rattle.std.specs.Prelude.{◌≡◌};
ghost use Rattle.world_model.specs.Trace.{trace};
ghost use Rattle.protocol_rows.specs.Three_nodes.{config};
ghost use Rattle.protocol_rows.specs.Trimmed_too_far.{schedule, lines};

/// These are all lines.
pub fn prints()
    ensures { trace config schedule ≡ lines }
{}
