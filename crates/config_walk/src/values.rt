//! The values of keys, with the fault where one isn't as it has to be.

ghost use Rattle.std.specs.Prelude.{◌≡◌, map};
ghost use Rattle.std.specs.Option.{option_map};
ghost use Rattle.toml.specs.Data.{get_member};
ghost use Rattle.toml.specs.View.{view, table_view};
ghost use Rattle.config_walk.specs.Values.{Says, integer_of, integer_in as integer_in_lem, text_of, entries_of, entries_in as entries_in_lem, table_in as table_in_lem};

use crate::ConfigFault;
use crate::faults::{missing, wrong_kind};
use std::alloc::Global;
use toml::{Table, Value};

/// The value of a key of the table.
pub fn value_at<'a>(table: &'a Table, key: &str) -> Option<&'a Value>
    ensures { option_map (λ v. view v.now) result ≡ get_member key.now (table_view table.now) }
{
    table.get(key)
}

/// The integer that a value of this name is.
pub fn integer_in(alloc: Global, name: &str, value: &Value) -> Result<i64, ConfigFault>
    ensures { Says (λ z. z) (integer_in_lem name.now (view value.now)) result }
{
    let Some(integer) = value.as_integer() else {
        return Err(wrong_kind(alloc, name));
    };
    Ok(integer)
}

/// The integer of this key, which faults call `name`.
pub fn read_integer(alloc: Global, table: &Table, key: &str, name: &str) -> Result<i64, ConfigFault>
    ensures { Says (λ z. z) (integer_of name.now (get_member key.now (table_view table.now))) result }
{
    let Some(value) = value_at(table, key) else {
        return Err(missing(alloc, name));
    };
    integer_in(alloc, name, value)
}

/// The text of this key, which faults call `name`.
pub fn read_text<'a>(
    alloc: Global,
    table: &'a Table,
    key: &str,
    name: &str,
) -> Result<&'a str, ConfigFault>
    ensures { Says (λ s. s.now) (text_of name.now (get_member key.now (table_view table.now))) result }
{
    let Some(value) = value_at(table, key) else {
        return Err(missing(alloc, name));
    };
    let Some(text) = value.as_str() else {
        return Err(wrong_kind(alloc, name));
    };
    Ok(text)
}

/// The entries of the list that a value of this name is.
pub fn entries_in<'a>(
    alloc: Global,
    name: &str,
    value: &'a Value,
) -> Result<&'a [Value], ConfigFault>
    ensures { Says (λ vs. map view vs.now) (entries_in_lem name.now (view value.now)) result }
{
    let Some(values) = value.as_array() else {
        return Err(wrong_kind(alloc, name));
    };
    Ok(values.as_slice())
}

/// The entries of the list of this key, which faults call `name`.
pub fn read_entries<'a>(
    alloc: Global,
    table: &'a Table,
    key: &str,
    name: &str,
) -> Result<&'a [Value], ConfigFault>
    ensures { Says (λ vs. map view vs.now) (entries_of name.now (get_member key.now (table_view table.now))) result }
{
    let Some(value) = value_at(table, key) else {
        return Err(missing(alloc, name));
    };
    entries_in(alloc, name, value)
}

/// The table that a value of this name is.
pub fn table_in<'a>(alloc: Global, name: &str, value: &'a Value) -> Result<&'a Table, ConfigFault>
    ensures { Says (λ t. table_view t.now) (table_in_lem name.now (view value.now)) result }
{
    let Some(table) = value.as_table() else {
        return Err(wrong_kind(alloc, name));
    };
    Ok(table)
}
