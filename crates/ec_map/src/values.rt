//! What the values of a TOML document hold.
ghost use Rattle.std.specs.Prelude.{◌≡◌, ◌≤◌, IfSome, option_map, map, unwrap_or};
ghost use Rattle.toml.specs.View.{view, items_view};
ghost use Rattle.ec_map.specs.Values.{number_of, number_at, byte_in, array_of, array_at, values_at, text_at};

use toml::Value;

/// The text at a key of a table, where there is one.
pub(crate) fn text_at<'a>(table: &'a Value, key: &str) -> Option<&'a str>
    ensures { option_map (λ s. s.now) result ≡ text_at key.now (view table.now) }
{
    match table.get(key) {
        Some(value) => value.as_str(),
        None => None,
    }
}

/// An integer from 0 to a limit.
pub(crate) fn number_of(value: &Value, limit: u32) -> Option<u32>
    ensures value { result ≡ number_of limit (view value.now) }
    ensures within { IfSome result (λ n. n ≤ limit) }
{
    let number = u32::try_from(value.as_integer()?).ok()?;
    if number <= limit { Some(number) } else { None }
}

/// The same at a key of a table.
pub(crate) fn number_at(table: &Value, key: &str, limit: u32) -> Option<u32>
    ensures value { result ≡ number_at limit key.now (view table.now) }
    ensures within { IfSome result (λ n. n ≤ limit) }
{
    match table.get(key) {
        Some(value) => number_of(value, limit),
        None => None,
    }
}

/// A number of one byte.
pub(crate) fn byte_of(value: &Value) -> Option<u8>
    ensures { result ≡ number_of 255 (view value.now) }
{
    match number_of(value, 255) {
        Some(byte) => Some(byte as u8),
        None => None,
    }
}

/// The value at an index of an array, as a byte. 0 where there is none.
pub(crate) fn byte_in(index: usize, array: &Value) -> u8
    ensures { result ≡ byte_in index (view array.now) }
{
    match array.get(index) {
        Some(byte) => byte_of(byte).unwrap_or(0),
        None => 0,
    }
}

/// The values of the array at a key, where there is one.
pub(crate) fn array_at<'a>(table: &'a Value, key: &str) -> Option<&'a [Value]>
    ensures { option_map (λ vs. map view vs.now) result ≡ array_at key.now (view table.now) }
{
    match table.get(key) {
        Some(value) => array_of(value),
        None => None,
    }
}

/// The values of an array.
pub(crate) fn array_of(value: &Value) -> Option<&[Value]>
    ensures { option_map (λ vs. map view vs.now) result ≡ array_of (view value.now) }
{
    match value.as_array() {
        Some(values) => Some(values.as_slice()),
        None => None,
    }
}

/// The same, and no values where there is no array.
pub(crate) fn values_at<'a>(table: &'a Value, key: &str) -> &'a [Value]
    ensures { map view result.now ≡ values_at key.now (view table.now) }
{
    match array_at(table, key) {
        Some(values) => values,
        None => &[],
    }
}
