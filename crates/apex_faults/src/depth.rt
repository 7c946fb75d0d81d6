//! The trees whose text, as it is printed, is read back as the same tree.
ghost use Rattle.std.specs.Prelude.{◌≡◌, nat_le};
ghost use Rattle.toml.specs.Data.{depth, items_depth, members_depth};
ghost use Rattle.toml.specs.View.{view, array_view, table_view};

use toml::{Table, Value};

/// Arrays and tables nest at most this deep in the value.
#[cycle(fits)]
fn fits(value: &Value, limit: usize) -> bool
    ensures { result ≡ nat_le (depth (view value.now)) limit }
{
    match value {
        Value::Array(items) => limit > 0 && items_fit(items, limit - 1),
        Value::Table(members) => limit > 0 && members_fit(members, limit - 1),
        _ => true,
    }
}

#[cycle(fits)]
fn items_fit(items: &Vec<Value>, limit: usize) -> bool
    ensures { result ≡ nat_le (items_depth (array_view items.now)) limit }
{
    for item in items {
        if !fits(item, limit) {
            return false;
        }
    }
    true
}

/// Arrays and tables nest at most this deep in the table.
#[cycle(fits)]
pub fn members_fit(members: &Table, limit: usize) -> bool
    ensures { result ≡ nat_le (members_depth (table_view members.now)) limit }
{
    for (_key, member) in members.iter() {
        if !fits(member, limit) {
            return false;
        }
    }
    true
}
