//! The first part of an ordinary run on nine nodes: ten commands over two partitions, ticks in between, skips in each ring.

ghost use Rattle.std.specs.Prelude.{◌≡◌};
ghost use Rattle.world_model.specs.Trace.{trace};
ghost use Rattle.protocol_rows.specs.Nine_nodes.{config};
ghost use Rattle.protocol_rows.specs.Ordinary_run.{schedule, answers};
ghost use Rattle.protocol_rows.specs.Words.{told_to_clients};

/// These are all lines that tell the client of its commands: each is answered, one after another, with these bytes, and none is
/// refused as busy.
pub fn prints()
    ensures { told_to_clients (trace config schedule) ≡ answers }
{}
