// What a value is, if it is of a kind.
ghost use Rattle.std.specs.Prelude.{◌≡◌, option_map};
ghost use Rattle.serde_json.specs.Find.{as_bool, as_str, as_array, as_object};
ghost use Rattle.serde_json.specs.View.{view, items_view, members_view};
ghost use Rattle.cdp_json.specs.Kinds.{as_whole, as_depth, as_signed};

use serde_json::{Map, Value};

/// The numbers of a message are below this: those that a number of JavaScript holds exactly.
pub const COUNTED_LIMIT: u64 = 1 << 53;

/// The same limit, of numbers that may be negative.
const SIGNED_LIMIT: i64 = 1 << 53;

/// A whole number from 0 to 2^53-1, spelled without point and exponent.
pub fn whole_of(value: &Value) -> Option<u64>
    ensures { result ≡ as_whole (view value.now) }
{
    match value.as_u64() {
        Some(n) => if n < COUNTED_LIMIT { Some(n) } else { None },
        None => None,
    }
}

/// -1, or a whole number from 1 to 2^53-1.
pub fn depth_of(value: &Value) -> Option<i64>
    ensures { result ≡ as_depth (view value.now) }
{
    match value.as_i64() {
        Some(n) => if n == -1 || 0 < n && n < SIGNED_LIMIT {
            Some(n)
        } else {
            None
        },
        None => None,
    }
}

/// A whole number from -2^63 to 2^63-1.
pub fn signed_of(value: &Value) -> Option<i64>
    ensures { result ≡ as_signed (view value.now) }
{
    value.as_i64()
}

/// The string that the value is, if it is one.
pub fn text_of(value: &Value) -> Option<&str>
    ensures { option_map (λ s. s.now) result ≡ as_str (view value.now) }
{
    value.as_str()
}

/// The boolean that the value is, if it is one.
pub fn flag_of(value: &Value) -> Option<bool>
    ensures { result ≡ as_bool (view value.now) }
{
    value.as_bool()
}

/// The elements of the array that the value is, if it is one.
pub fn list_of(value: &Value) -> Option<&[Value]>
    ensures { option_map (λ xs. items_view xs.now) result ≡ as_array (view value.now) }
{
    match value.as_array() {
        Some(list) => Some(list.as_slice()),
        None => None,
    }
}

/// The object that the value is, if it is one.
pub fn object_of(value: &Value) -> Option<&Map<String, Value>>
    ensures { option_map (λ m. members_view m.now.entries) result ≡ as_object (view value.now) }
{
    value.as_object()
}
