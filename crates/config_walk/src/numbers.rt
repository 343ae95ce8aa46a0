//! Numbers of a range.

ghost use Rattle.std.specs.Prelude.{◌≡◌, ◌≤◌, ◌<◌, IfOk};
ghost use Rattle.toml.specs.Data.{get_member};
ghost use Rattle.toml.specs.View.{table_view};
ghost use Rattle.config_walk.specs.Values.{Says, in_range as in_range_lem, number_of, id_of, quorum_of, clipped as clipped_lem};

use crate::ConfigFault;
use crate::faults::{out_of_range, repeated};
use crate::values::read_integer;
use std::alloc::Global;
use toml::Table;

/// The integer as a number of this range, both ends included.
pub fn in_range(
    alloc: Global,
    name: &str,
    least: u64,
    most: u64,
    integer: i64,
) -> Result<u64, ConfigFault>
    ensures walk { Says (λ n. n) (in_range_lem name.now least most integer) result }
    ensures bounds { IfOk result (λ n. (least ≤ n) × (n ≤ most)) }
{
    let Ok(number) = u64::try_from(integer) else {
        return Err(out_of_range(alloc, name));
    };
    if number < least {
        return Err(out_of_range(alloc, name));
    }
    if number > most {
        return Err(out_of_range(alloc, name));
    }
    Ok(number)
}

/// The number of this key, which faults call `name`, in this range.
#[tactic(auto, unfolding(crate::specs::Values::number_of))]
pub fn read_number(
    alloc: Global,
    table: &Table,
    key: &str,
    name: &str,
    least: u64,
    most: u64,
) -> Result<u64, ConfigFault>
    ensures walk { Says (λ n. n) (number_of name.now least most (get_member key.now (table_view table.now))) result }
    ensures bounds { IfOk result (λ n. (least ≤ n) × (n ≤ most)) }
{
    let integer = read_integer(alloc, table, key, name)?;
    in_range(alloc, name, least, most, integer)
}

/// An id of this key, which faults call `name`, not below `least`, which is past the ids before it.
#[tactic(auto, unfolding(crate::specs::Values::id_of))]
pub fn read_id(
    alloc: Global,
    table: &Table,
    key: &str,
    name: &str,
    most: u8,
    least: u64,
) -> Result<u8, ConfigFault>
    ensures walk { Says (λ n. n) (id_of name.now most least (get_member key.now (table_view table.now))) result }
    ensures bounds { IfOk result (λ n. (least ≤ n) × (n ≤ most)) }
{
    let id = read_number(alloc, table, key, name, 0, u64::from(most))? as u8;
    if u64::from(id) < least {
        return Err(repeated(alloc, name, id));
    }
    Ok(id)
}

/// A quorum of this key, which faults call `name`: any integer, which is judged later; below 0 it is kept as 0, past 255 as 255.
#[tactic(auto, unfolding(crate::specs::Values::quorum_of))]
pub fn read_quorum(alloc: Global, table: &Table, key: &str, name: &str) -> Result<u8, ConfigFault>
    ensures { Says (λ n. n) (quorum_of name.now (get_member key.now (table_view table.now))) result }
{
    let integer = read_integer(alloc, table, key, name)?;
    Ok(clipped(integer))
}

fn clipped(integer: i64) -> u8
    ensures { result ≡ clipped_lem integer }
{
    match u64::try_from(integer) {
        Ok(number) => number.min(255) as u8,
        Err(_) => 0,
    }
}
