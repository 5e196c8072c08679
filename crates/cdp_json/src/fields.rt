// An object's fields by name.
ghost use Rattle.std.specs.Prelude.{◌≡◌, option_map};
ghost use Rattle.serde_json.specs.Find.{get_member, as_bool, as_str, as_array, as_object};
ghost use Rattle.serde_json.specs.View.{view, items_view, members_view};
ghost use Rattle.cdp_json.specs.Kinds.{as_whole, as_depth};

use crate::values::{depth_of, flag_of, list_of, object_of, text_of, whole_of};
use serde_json::{Map, Value};
use std::alloc::{AllocError, Global};

/// What stands under a name.
#[derive(Clone, Copy, Drop)]
pub enum Field<T> {
    Is(T),
    Missing,
    WrongKind,
}

impl<T> Field<T> {
    ghost use Rattle.cdp_json.specs.Fields.{field_if};

    // A value that is there.
    fn there(found: Option<T>) -> Field<T>
        ensures { result ≡ field_if found }
    {
        match found {
            Some(value) => Field::Is(value),
            None => Field::WrongKind,
        }
    }
}

fn value_at<'a>(object: &'a Map<String, Value>, name: &str) -> Option<&'a Value>
    ensures { option_map (λ v. view v.now) result
        ≡ get_member name.now (members_view object.now.entries) }
{
    object.get(name)
}

ghost use Rattle.cdp_json.specs.Fields.{field_of, field_map};

/// A whole number from 0 to 2^53-1, spelled without point and exponent.
pub fn int_field(object: &Map<String, Value>, name: &str) -> Field<u64>
    ensures { result ≡ field_of as_whole name.now (members_view object.now.entries) }
{
    match value_at(object, name) {
        Some(value) => Field::there(whole_of(value)),
        None => Field::Missing,
    }
}

/// -1, or a whole number from 1 to 2^53-1.
pub fn depth_field(object: &Map<String, Value>, name: &str) -> Field<i64>
    ensures { result ≡ field_of as_depth name.now (members_view object.now.entries) }
{
    match value_at(object, name) {
        Some(value) => Field::there(depth_of(value)),
        None => Field::Missing,
    }
}

/// The field of this name as a string.
pub fn text_field<'a>(object: &'a Map<String, Value>, name: &str) -> Field<&'a str>
    ensures { field_map (λ s. s.now) result
        ≡ field_of as_str name.now (members_view object.now.entries) }
{
    match value_at(object, name) {
        Some(value) => Field::there(text_of(value)),
        None => Field::Missing,
    }
}

/// The field of this name as a boolean.
pub fn flag_field(object: &Map<String, Value>, name: &str) -> Field<bool>
    ensures { result ≡ field_of as_bool name.now (members_view object.now.entries) }
{
    match value_at(object, name) {
        Some(value) => Field::there(flag_of(value)),
        None => Field::Missing,
    }
}

/// The field of this name as an array.
pub fn list_field<'a>(object: &'a Map<String, Value>, name: &str) -> Field<&'a [Value]>
    ensures { field_map (λ xs. items_view xs.now) result
        ≡ field_of as_array name.now (members_view object.now.entries) }
{
    match value_at(object, name) {
        Some(value) => Field::there(list_of(value)),
        None => Field::Missing,
    }
}

/// The field of this name as an object.
pub fn object_field<'a>(object: &'a Map<String, Value>, name: &str) -> Field<&'a Map<String, Value>>
    ensures { field_map (λ m. members_view m.now.entries) result
        ≡ field_of as_object name.now (members_view object.now.entries) }
{
    match value_at(object, name) {
        Some(value) => Field::there(object_of(value)),
        None => Field::Missing,
    }
}
