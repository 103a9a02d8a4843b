//! How deep a table nests.

ghost use Rattle.std.specs.Prelude.{◌≡◌, ◌≤◌, true};
ghost use Rattle.toml.specs.Data.{depth, items_depth, members_depth};
ghost use Rattle.toml.specs.View.{view, array_view, table_view};

use toml::value::Array;
use toml::{Table, Value};

#[cycle(levels)]
fn value_fits(value: &Value, levels: u32) -> bool
    ensures { result ≡ true → depth (view value.now) ≤ levels }
{
    match value {
        Value::Array(array) => levels > 0 && array_fits(array, levels - 1),
        Value::Table(table) => levels > 0 && table_fits(table, levels - 1),
        _ => true,
    }
}

#[cycle(levels)]
fn array_fits(array: &Array, levels: u32) -> bool
    ensures { result ≡ true → items_depth (array_view array.now) ≤ levels }
{
    'items: for item in array {
        if !value_fits(item, levels) {
            return false;
        }
    }
    true
}

/// Whether arrays and tables nest at most so deep in the table.
#[cycle(levels)]
pub(crate) fn table_fits(table: &Table, levels: u32) -> bool
    ensures { result ≡ true → members_depth (table_view table.now) ≤ levels }
{
    'members: for (_key, member) in table.iter() {
        if !value_fits(member, levels) {
            return false;
        }
    }
    true
}
