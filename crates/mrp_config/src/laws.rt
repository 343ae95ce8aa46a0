//! What is known of each deployment that is accepted, for the laws of the crates above.

ghost use Rattle.std.specs.Prelude.{◌≡◌, ℕ, List, Ok, length};
ghost use Rattle.mrp_types.specs.declared.id.RingId.{RingId};
ghost use Rattle.mrp_types.specs.Moves.{first_tuple};
ghost use Rattle.mrp_types.specs.Tuples.{IsTuple};
ghost use Rattle.mrp_config.specs.declared.tables.PartitionTable.{PartitionTable};
ghost use Rattle.mrp_config.specs.Config.{Config, round_of};
ghost use Rattle.mrp_config.specs.Walk.{read_of};
ghost use Rattle.mrp_config.specs.Valid.{IsBetween, IsPartition, IsValid, holders};

/// What is read from bytes without a fault is a valid deployment.
pub fn what_is_accepted_is_valid()
    ensures { (bytes : List ℕ) (config : Config) → read_of bytes ≡ Ok config → IsValid config }
{}

/// Each key is held by exactly one partition of a valid deployment.
pub fn keys_have_one_partition()
    ensures { (config : Config) → IsValid config → (key : List ℕ) → length (holders key config.partitions) ≡ 1 }
{}

/// The round of a ring of a valid deployment holds 1 to 1,024 of its instances.
pub fn rounds_are_in_range()
    ensures { (config : Config) → IsValid config → (ring : RingId) → IsBetween 1 1024 (round_of config ring) }
{}

/// Where each ring of a valid partition has nothing yet is a tuple.
pub fn first_tuples_are_tuples()
    ensures { (nodes rings : List ℕ) (partition : PartitionTable) → IsPartition nodes rings partition → IsTuple (first_tuple partition.rings) }
{}
