//! The partitions whose replies are missing.

ghost use Rattle.std.specs.Prelude.{◌≡◌, ◌<◌, ◌^◌, ◌==◌, ℕ, Some};
ghost use Rattle.std.specs.Int.{bit_at};
ghost use Rattle.std.specs.List.{AllByRecursion};
ghost use Rattle.mrp_config.specs.Routing.{is_concerned, concerned_of, mask_of};
ghost use Rattle.mrp_config.specs.Config.{partition_at};
ghost use Rattle.mrp_config.specs.Valid.{IsValid};
ghost use Rattle.mrp_config.specs.declared.tables.PartitionTable.{PartitionTable};
ghost use Rattle.protocol.specs.Client.{missing_of};
ghost use Rattle.client_core.specs.Missing.{bits_of, missing_bit, missing_bits, HasBitOf};

use crate::parts::Parts;
use command_codec::Command;
use mrp_config::{Deployment, PartitionTable};
use mrp_types::PartitionId;

/// A bit for each partition that the command concerns and that hasn't replied, by its number.
pub fn bits_missing(deployment: &Deployment, command: &Command, parts: &Parts) -> u16
    ensures { result ≡ bits_of (missing_of (concerned_of command.now deployment.now.partitions) parts.now) }
{
    let concerned = deployment.concerned(command);
    sum_missing(deployment.partitions(), command, concerned, parts)
}

/// Whether the command concerns the partition of this number.
pub fn concerns(deployment: &Deployment, command: &Command, p: &PartitionTable) -> bool
    requires there { partition_at deployment.now.partitions p.now.id.0 ≡ Some p.now }
    requires config { IsValid deployment.now }
    ensures { result ≡ is_concerned command.now p.now }
{
    has_bit(deployment.concerned(command), p.id)
}

fn sum_missing(
    partitions: &[PartitionTable],
    command: &Command,
    concerned: u16,
    parts: &Parts,
) -> u16
    requires few { mask_of command.now partitions.now < 2 ^ 16 }
    requires low { AllByRecursion (λ (p : PartitionTable). p.id.0 < 16) partitions.now }
    requires concerned { AllByRecursion (HasBitOf command.now concerned) partitions.now }
    ensures { result ≡ missing_bits command.now parts.now partitions.now }
{
    let mut bits = 0;
    for p in partitions {
        bits += bit_missing(p, command, concerned, parts);
    }
    bits
}

fn bit_missing(p: &PartitionTable, command: &Command, concerned: u16, parts: &Parts) -> u16
    requires low { p.now.id.0 < 16 }
    requires concerned { HasBitOf command.now concerned p.now }
    ensures { result ≡ missing_bit command.now parts.now p.now }
{
    if has_bit(concerned, p.id) && !parts.has(p.id) {
        1 << p.id.0
    } else {
        0
    }
}

fn has_bit(bits: u16, id: PartitionId) -> bool
    requires { id.0 < 16 }
    ensures { result ≡ (bit_at bits id.0 == 1) }
{
    (bits >> id.0) & 1 == 1
}
