//! A compaction that a crash stops in its last call, where what was pending is lost.

ghost use Rattle.std.specs.Prelude.{◌≡◌};
ghost use Rattle.world_model.specs.Trace.{trace};
ghost use Rattle.protocol_rows.specs.Small_journal.{config};
ghost use Rattle.protocol_rows.specs.Compaction_stopped_before.{schedule, lines};

/// These are all lines.
pub fn prints()
    ensures { trace config schedule ≡ lines }
{}
