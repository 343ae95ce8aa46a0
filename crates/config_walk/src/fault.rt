//! Why a deployment was refused.

ghost use Rattle.std.specs.Prelude.{◌≡◌};
ghost use Rattle.std.specs.Option.{option_map};
ghost use Rattle.config_walk.specs.Faults.{fault_number, fault_name, fault_id};

use mrp_types::{LogId, Octets, PartitionId};
use std::alloc::{AllocError, AllocFailed};

/// The first fault of a deployment, in the order in which it is read. A name inside a table has the table's name
/// and a dot before it.
#[derive(Debug, Drop)]
pub enum ConfigFault {
    /// The bytes are no TOML text.
    NotToml,
    /// The key isn't there.
    Missing(Octets),
    /// The key has a value of another kind.
    WrongKind(Octets),
    /// The value is out of its range.
    OutOfRange(Octets),
    /// The id stands twice, or isn't greater than the one before it.
    Repeated(Octets, u8),
    /// There is nothing with this id.
    UnknownId(Octets, u8),
    /// A quorum isn't from 1 to the number of replicas, or the two don't add up to more than it.
    BadQuorums(PartitionId),
    /// The partition doesn't begin where the one before it ends, is empty, or ends though it is the last.
    BadRanges(PartitionId),
    /// The log is one of two partitions.
    LogTwice(LogId),
    /// No such key is known.
    UnknownName(Octets),
    /// There are more bytes than a deployment may have.
    TooLong,
    /// Want of memory.
    Memory,
    /// The deployment is one that the system can't run yet; reading a deployment never answers it.
    NotBuilt,
}

impl ConfigFault {
    /// The number of the fault, from 1 to 13 in the order in which they stand here.
    pub fn number(&self) -> u8
        ensures { result ≡ fault_number self.now }
    {
        match self {
            ConfigFault::NotToml => 1,
            ConfigFault::Missing(_) => 2,
            ConfigFault::WrongKind(_) => 3,
            ConfigFault::OutOfRange(_) => 4,
            ConfigFault::Repeated(_, _) => 5,
            ConfigFault::UnknownId(_, _) => 6,
            ConfigFault::BadQuorums(_) => 7,
            ConfigFault::BadRanges(_) => 8,
            ConfigFault::LogTwice(_) => 9,
            ConfigFault::UnknownName(_) => 10,
            ConfigFault::TooLong => 11,
            ConfigFault::Memory => 12,
            ConfigFault::NotBuilt => 13,
        }
    }

    /// The name that the fault is about, where it is about one.
    pub fn name(&self) -> Option<&Octets>
        ensures { option_map (λ name. name.now) result ≡ fault_name self.now }
    {
        match self {
            ConfigFault::Missing(name)
            | ConfigFault::WrongKind(name)
            | ConfigFault::OutOfRange(name)
            | ConfigFault::Repeated(name, _)
            | ConfigFault::UnknownId(name, _)
            | ConfigFault::UnknownName(name) => Some(name),
            _ => None,
        }
    }

    /// The number that the fault is about, where it is about one: of a node, ring, partition or log.
    pub fn id(&self) -> Option<u8>
        ensures { result ≡ fault_id self.now }
    {
        match self {
            ConfigFault::Repeated(_, id) | ConfigFault::UnknownId(_, id) => Some(*id),
            ConfigFault::BadQuorums(partition) | ConfigFault::BadRanges(partition) => Some(
                partition.0,
            ),
            ConfigFault::LogTwice(log) => Some(log.0),
            _ => None,
        }
    }
}

impl From<AllocError> for ConfigFault {
    ghost use Rattle.std.specs.Prelude.{◌≡◌};
    ghost use Rattle.config_walk.specs.declared.fault.ConfigFault.TheVariants.{Memory};

    ghost from_gives = { λ _ fault. fault ≡ Memory };

    fn from(_: AllocError) -> Self {
        ConfigFault::Memory
    }
}

impl<T: Drop> From<AllocFailed<T>> for ConfigFault {
    ghost use Rattle.std.specs.Prelude.{◌≡◌};
    ghost use Rattle.config_walk.specs.declared.fault.ConfigFault.TheVariants.{Memory};

    ghost from_gives = { λ _ fault. fault ≡ Memory };

    fn from(_: AllocFailed<T>) -> Self {
        ConfigFault::Memory
    }
}

impl From<mrp_types::Memory> for ConfigFault {
    ghost use Rattle.std.specs.Prelude.{◌≡◌};
    ghost use Rattle.config_walk.specs.declared.fault.ConfigFault.TheVariants.{Memory};

    ghost from_gives = { λ _ fault. fault ≡ Memory };

    fn from(_: mrp_types::Memory) -> Self {
        ConfigFault::Memory
    }
}
