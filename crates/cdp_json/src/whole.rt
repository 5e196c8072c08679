// Whether a value keeps to whole numbers.
ghost use Rattle.std.specs.Prelude.{◌≡◌, not};
ghost use Rattle.serde_json.specs.View.{view, items_view, members_view};
ghost use Rattle.serde_json.specs.Written.{has_float, items_have_float, members_have_float};

use serde_json::{Map, Value};

/// Whether each number in the value is spelled without point and exponent, in -2^63 to 2^64-1, and
/// is not `-0`.
#[cycle(all_whole)]
pub fn all_whole(value: &Value) -> bool
    ensures { result ≡ not (has_float (view value.now)) }
{
    match value {
        Value::Null | Value::Bool(_) | Value::String(_) => true,
        Value::Number(number) => !number.is_f64(),
        Value::Array(list) => all_items_whole(list.as_slice()),
        Value::Object(map) => all_members_whole(map),
    }
}

#[cycle(all_whole)]
fn all_items_whole(items: &[Value]) -> bool
    ensures { result ≡ not (items_have_float (items_view items.now)) }
{
    for item in items {
        if !all_whole(item) {
            return false;
        }
    }
    true
}

#[cycle(all_whole)]
fn all_members_whole(map: &Map<String, Value>) -> bool
    ensures { result ≡ not (members_have_float (members_view map.now.entries)) }
{
    for (_, member) in map.iter() {
        if !all_whole(member) {
            return false;
        }
    }
    true
}
