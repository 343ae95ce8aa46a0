//! Lists of tables.

ghost use Rattle.std.specs.Prelude.{◌≡◌, ◌≤◌, ◌<◌, IfOk, map, None};
ghost use Rattle.toml.specs.Data.{get_member};
ghost use Rattle.toml.specs.View.{view, table_view};
ghost use Rattle.config_walk.specs.Values.{Says, tables_in as tables_in_lem, some_tables, tables_of};

use crate::ConfigFault;
use crate::faults::{missing, out_of_range};
use crate::values::{entries_in, table_in, value_at};
use std::alloc::Global;
use toml::{Table, Value};

fn tables_in<'a>(
    alloc: Global,
    name: &str,
    values: &'a [Value],
) -> Result<Vec<&'a Table>, ConfigFault>
    ensures { Says (λ v. map (λ t. table_view t.now) v.items) (tables_in_lem name.now (map view values.now)) result }
{
    let mut tables = Vec::new(alloc);
    for value in values {
        tables.push(table_in(alloc, name, value)?)?;
    }
    Ok(tables)
}

/// The tables of a list of this key, which faults call `name`: how many there have to be at least and at most. Where none is
/// asked for, the key may be missing.
#[tactic(auto, unfolding(crate::specs::Values::tables_of))]
pub fn read_tables<'a>(
    alloc: Global,
    table: &'a Table,
    key: &str,
    name: &str,
    fewest: usize,
    most: usize,
) -> Result<Vec<&'a Table>, ConfigFault>
    ensures { Says (λ v. map (λ t. table_view t.now) v.items) (tables_of name.now fewest most (get_member key.now (table_view table.now))) result }
{
    let Some(value) = value_at(table, key) else {
        return none_found(alloc, name, fewest);
    };
    let values = entries_in(alloc, name, value)?;
    let tables = tables_in(alloc, name, values)?;
    if tables.len() < fewest {
        return Err(out_of_range(alloc, name));
    }
    if tables.len() > most {
        return Err(out_of_range(alloc, name));
    }
    Ok(tables)
}

#[tactic(auto, unfolding(crate::specs::Values::tables_of))]
fn none_found<'a>(alloc: Global, name: &str, fewest: usize) -> Result<Vec<&'a Table>, ConfigFault>
    ensures { Says (λ v. map (λ t. table_view t.now) v.items) (tables_of name.now fewest 0 None) result }
{
    if fewest > 0 {
        return Err(missing(alloc, name));
    }
    Ok(Vec::new(alloc))
}
