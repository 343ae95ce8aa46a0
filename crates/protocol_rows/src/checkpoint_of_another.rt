//! A replica whose disk has no checkpoint restores the one that another saved.

ghost use Rattle.std.specs.Prelude.{◌≡◌};
ghost use Rattle.world_model.specs.Trace.{trace};
ghost use Rattle.protocol_rows.specs.Three_nodes.{config};
ghost use Rattle.protocol_rows.specs.Checkpoint_of_another.{schedule, lines};

/// These are all lines.
pub fn prints()
    ensures { trace config schedule ≡ lines }
{}
