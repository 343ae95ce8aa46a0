//! Worked rows: three openings and five records in a row on one disk, with a fault at each of their calls.

ghost use Rattle.std.specs.Prelude.{◌≡◌, ◌++◌, None, Some, replicate};
ghost use Rattle.protocol.specs.Lines.{Crash, Disk};
ghost use Rattle.world_model.specs.Disks.{with_fuse, with_fail, with_fail_read};
ghost use Rattle.world_model.specs.Rows.{fates};

/// How many of them pass, and why the next one stops the node: the first opening makes 13 changes, the two others 5 each, and
/// a record 4. The first opening reads twice, the two others three times.
pub fn fuses_over_openings_and_records()
    ensures fuse { fates with_fuse 44 ≡ replicate 13 (0, Some Crash) ++ replicate 4 (1, Some Crash) ++ replicate 4 (2, Some Crash) ++ replicate 5 (3, Some Crash)
        ++ replicate 4 (4, Some Crash) ++ replicate 4 (5, Some Crash) ++ replicate 5 (6, Some Crash) ++ replicate 4 (7, Some Crash) ++ replicate 1 (8, None) }
    ensures fail { fates with_fail 44 ≡ replicate 13 (0, Some Disk) ++ replicate 4 (1, Some Disk) ++ replicate 4 (2, Some Disk) ++ replicate 5 (3, Some Disk)
        ++ replicate 4 (4, Some Disk) ++ replicate 4 (5, Some Disk) ++ replicate 5 (6, Some Disk) ++ replicate 4 (7, Some Disk) ++ replicate 1 (8, None) }
    ensures fail_read { fates with_fail_read 9 ≡ replicate 2 (0, Some Disk) ++ replicate 3 (3, Some Disk) ++ replicate 3 (6, Some Disk) ++ replicate 1 (8, None) }
{}
