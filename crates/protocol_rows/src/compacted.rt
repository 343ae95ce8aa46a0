//! A compaction makes eight calls, and what it leaves stands for the same votes.

ghost use Rattle.std.specs.Prelude.{◌≡◌};
ghost use Rattle.world_model.specs.Trace.{trace};
ghost use Rattle.protocol_rows.specs.Small_journal.{config};
ghost use Rattle.protocol_rows.specs.Compacted.{schedule, lines};

/// These are all lines.
pub fn prints()
    ensures { trace config schedule ≡ lines }
{}
