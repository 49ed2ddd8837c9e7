//! The keys of a map's tables.
ghost use Rattle.std.specs.Prelude.{◌≡◌, map, string_bytes};
ghost use Rattle.std.specs.List.{list_all};
ghost use Rattle.std.specs.BTreeMap.{keys as table_keys};
ghost use Rattle.toml.specs.View.{view};
ghost use Rattle.ec_map.specs.Values.{keys};
ghost use Rattle.ec_map.specs.Rules.{is_key, has_needed, is_table_of, are_tables_of, is_array_of};

use crate::values::array_of;
use toml::{Table, Value};

/// A kind of table.
#[derive(Clone, Copy)]
pub(crate) enum Kind {
    /// The whole document.
    WholeMap,
    /// `region`, where it has no `far`
    RegionTable,
    /// `region`, where it may have `far`
    FarRegionTable,
    /// One of `port`
    PortTable,
    /// One of `group`
    GroupTable,
    /// One of `dynamic`
    DynamicTable,
}

/// Whether a table of a kind can have a key.
fn is_key(kind: Kind, key: &str) -> bool
    ensures { result ≡ is_key kind key.now }
{
    match kind {
        Kind::WholeMap => {
            let needed = key == "core" || key == "region";
            needed || key == "port" || key == "group" || key == "place" || key == "dynamic"
        }
        Kind::RegionTable => key == "code" || key == "tables" || key == "data" || key == "stack",
        Kind::FarRegionTable => {
            let flash = key == "code" || key == "tables" || key == "far";
            flash || key == "data" || key == "stack"
        }
        Kind::PortTable => {
            let needed = key == "name" || key == "address" || key == "width";
            needed || key == "count" || key == "group"
        }
        Kind::GroupTable => key == "name" || key == "acquire" || key == "release",
        Kind::DynamicTable => key == "name" || key == "choices",
    }
}

/// Whether a table has the keys that its kind needs.
fn has_needed(kind: Kind, table: &Value) -> bool
    ensures { result ≡ has_needed kind (view table.now) }
{
    match kind {
        Kind::WholeMap => table.get("core").is_some() && table.get("region").is_some(),
        Kind::RegionTable | Kind::FarRegionTable => {
            let flash = table.get("code").is_some() && table.get("tables").is_some();
            flash && table.get("data").is_some() && table.get("stack").is_some()
        }
        Kind::PortTable => {
            let named = table.get("name").is_some() && table.get("address").is_some();
            named && table.get("width").is_some()
        }
        Kind::GroupTable => {
            let named = table.get("name").is_some() && table.get("acquire").is_some();
            named && table.get("release").is_some()
        }
        Kind::DynamicTable => table.get("name").is_some() && table.get("choices").is_some(),
    }
}

fn are_keys(kind: Kind, table: &Table) -> bool
    ensures { result ≡ list_all (λ key. is_key kind (string_bytes key)) (table_keys table.now) }
{
    table.keys().all(|key| is_key(kind, key.as_str()))
}

/// Whether a table has no keys but those of its kind.
fn has_no_other(kind: Kind, value: &Value) -> bool
    ensures { result ≡ list_all (is_key kind) (keys (view value.now)) }
{
    match value.as_table() {
        Some(table) => are_keys(kind, table),
        None => true,
    }
}

/// Whether a value is a table with the keys of a kind.
pub(crate) fn is_table_of(kind: Kind, value: &Value) -> bool
    ensures { result ≡ is_table_of kind (view value.now) }
{
    has_needed(kind, value) && has_no_other(kind, value)
}

fn each_is_table_of(kind: Kind, values: &[Value]) -> bool
    ensures { result ≡ list_all (λ value. is_table_of kind (view value)) values.now }
{
    values.iter().all(|value| is_table_of(kind, value))
}

fn are_tables_of(kind: Kind, most: usize, values: &[Value]) -> bool
    ensures { result ≡ are_tables_of kind most (map view values.now) }
{
    values.len() <= most && each_is_table_of(kind, values)
}

/// Whether a value is an array of at most so many tables of a kind.
pub(crate) fn is_array_of(kind: Kind, most: usize, value: &Value) -> bool
    ensures { result ≡ is_array_of kind most (view value.now) }
{
    match array_of(value) {
        Some(values) => are_tables_of(kind, most, values),
        None => false,
    }
}
