//! Lists of numbers: of different nodes, and of ids that increase.

ghost use Rattle.std.specs.Prelude.{◌≡◌, ◌++◌, ◌≤◌, ◌<◌, IfOk, OnOk, length, map, Ok};
ghost use Rattle.toml.specs.Data.{get_member};
ghost use Rattle.toml.specs.View.{view, table_view};
ghost use Rattle.mrp_types.specs.Seats.{is_among as is_among_lem, AreDifferent};
ghost use Rattle.config_walk.specs.Values.{Says, integers_in as integers_in_lem, integers_of, each_in, numbers_of, each_once, each_rises, each_known, as_nodes as as_nodes_lem, as_rings as as_rings_lem, as_logs as as_logs_lem, seats_of, subscribed_of, logs_of};

use crate::ConfigFault;
use crate::faults::{out_of_range, repeated, unknown_id};
use crate::numbers::in_range;
use crate::values::{integer_in, read_entries};
use mrp_types::{Items, LogId, Memory, NodeId, RingId, Seats};
use std::alloc::Global;
use toml::{Table, Value};

fn integers_in(alloc: Global, name: &str, values: &[Value]) -> Result<Vec<i64>, ConfigFault>
    ensures { Says (λ v. v.items) (integers_in_lem name.now (map view values.now)) result }
{
    let mut integers = Vec::new(alloc);
    for value in values {
        integers.push(integer_in(alloc, name, value)?)?;
    }
    Ok(integers)
}

fn read_integers(
    alloc: Global,
    table: &Table,
    key: &str,
    name: &str,
) -> Result<Vec<i64>, ConfigFault>
    ensures { Says (λ v. v.items) (integers_of name.now (get_member key.now (table_view table.now))) result }
{
    let values = read_entries(alloc, table, key, name)?;
    integers_in(alloc, name, values)
}

fn bytes_in(
    alloc: Global,
    name: &str,
    greatest: u8,
    integers: &[i64],
) -> Result<Vec<u8>, ConfigFault>
    ensures walk { Says (λ v. v.items) (each_in name.now greatest integers.now) result }
    ensures count { IfOk result (λ v. length v.items ≡ length integers.now) }
{
    let mut numbers = Vec::new(alloc);
    for integer in integers {
        let number = in_range(alloc, name, 0, u64::from(greatest), *integer)?;
        numbers.push(number as u8)?;
    }
    Ok(numbers)
}

// The numbers of a list of this key, which faults call `name`: how many there have to be at least and at most, and the greatest
// that an entry may be.
fn read_bytes(
    alloc: Global,
    table: &Table,
    key: &str,
    name: &str,
    fewest: usize,
    most: usize,
    greatest: u8,
) -> Result<Vec<u8>, ConfigFault>
    ensures walk { Says (λ v. v.items) (numbers_of name.now fewest most greatest (get_member key.now (table_view table.now))) result }
    ensures count { IfOk result (λ v. length v.items ≤ most) }
{
    let integers = read_integers(alloc, table, key, name)?;
    if integers.len() < fewest {
        return Err(out_of_range(alloc, name));
    }
    if integers.len() > most {
        return Err(out_of_range(alloc, name));
    }
    bytes_in(alloc, name, greatest, &integers)
}

fn is_among(number: u8, numbers: &[u8]) -> bool
    ensures { result ≡ is_among_lem number numbers.now }
{
    numbers.contains(&number)
}

fn is_in_either(number: u8, first: &[u8], second: &[u8]) -> bool
    ensures { result ≡ is_among_lem number (first.now ++ second.now) }
{
    if is_among(number, first) {
        return true;
    }
    is_among(number, second)
}

// Asks that no number is one of the taken ones, and none stands twice.
fn judge_once(alloc: Global, name: &str, taken: &[u8], numbers: &[u8]) -> Result<(), ConfigFault>
    ensures { Says (λ u. u) (each_once name.now taken.now numbers.now) result }
{
    for (index, number) in numbers.iter().enumerate() {
        if is_in_either(*number, taken, &numbers[..index]) {
            return Err(repeated(alloc, name, *number));
        }
    }
    Ok(())
}

// Asks that each number is greater than the one before it.
fn judge_rising(alloc: Global, name: &str, numbers: &[u8]) -> Result<(), ConfigFault>
    ensures { Says (λ u. u) (each_rises name.now 0 numbers.now) result }
{
    let mut least = 0u16;
    for number in numbers {
        if u16::from(*number) < least {
            return Err(repeated(alloc, name, *number));
        }
        least = u16::from(*number) + 1;
    }
    Ok(())
}

// Asks that each number is one of these ids.
fn judge_known(alloc: Global, name: &str, ids: &[u8], numbers: &[u8]) -> Result<(), ConfigFault>
    ensures { Says (λ u. u) (each_known name.now ids.now numbers.now) result }
{
    for number in numbers {
        if !is_among(*number, ids) {
            return Err(unknown_id(alloc, name, *number));
        }
    }
    Ok(())
}

fn as_nodes(alloc: Global, numbers: &[u8]) -> Result<Vec<NodeId>, Memory>
    ensures { IfOk result (λ nodes. nodes.items ≡ as_nodes_lem numbers.now) }
{
    Ok(numbers.iter().map(|n| NodeId(*n)).collect(alloc)?)
}

fn as_seats(alloc: Global, numbers: &[u8]) -> Result<Seats, Memory>
    requires few { length numbers.now ≤ 7 }
    requires different { AreDifferent numbers.now }
    ensures { IfOk result (λ seats. seats ≡ as_nodes_lem numbers.now) }
{
    let nodes = as_nodes(alloc, numbers)?;
    Ok(Seats::from_slice(&nodes))
}

fn as_rings(alloc: Global, numbers: &[u8]) -> Result<Vec<RingId>, Memory>
    ensures { IfOk result (λ rings. rings.items ≡ as_rings_lem numbers.now) }
{
    Ok(numbers.iter().map(|n| RingId(*n)).collect(alloc)?)
}

fn as_logs(alloc: Global, numbers: &[u8]) -> Result<Vec<LogId>, Memory>
    ensures { IfOk result (λ logs. logs.items ≡ as_logs_lem numbers.now) }
{
    Ok(numbers.iter().map(|n| LogId(*n)).collect(alloc)?)
}

/// The different nodes of this key, which faults call `name`: of these ids, and none that is taken.
#[tactic(auto, unfolding(crate::specs::Values::seats_of))]
pub fn read_seats(
    alloc: Global,
    table: &Table,
    key: &str,
    name: &str,
    taken: &[u8],
    ids: &[u8],
) -> Result<Seats, ConfigFault>
    ensures { Says (λ s. s) (seats_of name.now taken.now ids.now (get_member key.now (table_view table.now))) result }
{
    let numbers = read_bytes(alloc, table, key, name, 1, 7, 31)?;
    judge_once(alloc, name, taken, &numbers)?;
    judge_known(alloc, name, ids, &numbers)?;
    Ok(as_seats(alloc, &numbers)?)
}

/// The rings of this key, which faults call `name`, in increasing order and of these ids.
#[tactic(auto, unfolding(crate::specs::Values::subscribed_of))]
pub fn read_rings(
    alloc: Global,
    table: &Table,
    key: &str,
    name: &str,
    ids: &[u8],
) -> Result<Items<RingId>, ConfigFault>
    ensures { Says (λ s. s) (subscribed_of name.now ids.now (get_member key.now (table_view table.now))) result }
{
    let numbers = read_bytes(alloc, table, key, name, 1, 16, 15)?;
    judge_rising(alloc, name, &numbers)?;
    judge_known(alloc, name, ids, &numbers)?;
    Ok(Items::from_vec(as_rings(alloc, &numbers)?))
}

/// The logs of this key, which faults call `name`, in increasing order.
#[tactic(auto, unfolding(crate::specs::Values::logs_of))]
pub fn read_logs(
    alloc: Global,
    table: &Table,
    key: &str,
    name: &str,
) -> Result<Items<LogId>, ConfigFault>
    ensures { Says (λ s. s) (logs_of name.now (get_member key.now (table_view table.now))) result }
{
    let numbers = read_bytes(alloc, table, key, name, 0, 64, 63)?;
    judge_rising(alloc, name, &numbers)?;
    Ok(Items::from_vec(as_logs(alloc, &numbers)?))
}
