// Making an object field by field.
ghost use Rattle.std.specs.Prelude.{◌≡◌, string_bytes, ◌++◌, ◌∷◌, [], true, Some, option_map, IfOk, OnOk, OnErr};
ghost use Rattle.serde_json.specs.Data.{object, string, put as put_member};
ghost use Rattle.serde_json.specs.View.{view, members_view};
ghost use Rattle.cdp_json.specs.Rows.{members_of};
ghost use Rattle.cdp_json.specs.Writes.{names_ascend, put_some as put_if_some};

use serde_json::{Map, Value};
use std::alloc::{AllocError, Global};

/// An object that is being written, field by field in the order of their names.
#[derive(Drop)]
pub struct ObjectBuilder {
    alloc: Global,
    list: Vec<(String, Option<Value>)>,
}

impl ObjectBuilder {
    ghost use Rattle.cdp_json.specs.Builders.{built_fields};

    /// An object with no field.
    pub fn new(alloc: Global) -> ObjectBuilder
        ensures { built_fields result ≡ [] }
    {
        ObjectBuilder {
            alloc,
            list: Vec::new(alloc),
        }
    }

    /// One field more, which has no part in the object where there is no value.
    pub fn with(mut self, name: &str, value: Option<Value>) -> Result<ObjectBuilder, AllocError>
        ensures { IfOk result (λ f. built_fields f ≡ built_fields self ++ (name.now, option_map view value) ∷ []) }
    {
        let name = String::from_str(self.alloc, name)?;
        self.list.push((name, value))?;
        Ok(self)
    }

    /// One field more, with this value.
    pub fn with_value(self, name: &str, value: Value) -> Result<ObjectBuilder, AllocError>
        ensures { IfOk result (λ f. built_fields f ≡ built_fields self ++ (name.now, Some (view value)) ∷ []) }
    {
        self.with(name, Some(value))
    }

    /// One field more, with this text.
    pub fn with_text(self, name: &str, text: &str) -> Result<ObjectBuilder, AllocError>
        ensures { IfOk result (λ f. built_fields f ≡ built_fields self ++ (name.now, Some (string text.now)) ∷ []) }
    {
        let text = Value::try_from_str(self.alloc, text)?;
        self.with(name, Some(text))
    }

    /// The object with the fields that have a value.
    pub fn build(self) -> Result<Value, AllocError>
        requires { names_ascend (built_fields self) ≡ true }
        ensures { IfOk result (λ v. view v ≡ object (members_of (built_fields self))) }
    {
        let mut members = Map::new(self.alloc);
        for (name, value) in self.list {
            put_some(&mut members, name, value)?;
        }
        Ok(Value::Object(members))
    }
}

/// Puts the value under the name, in the place of one that stands there; the other members stay. After want of memory the
/// object has the members that it had.
pub fn put(
    alloc: Global,
    object: &mut Map<String, Value>,
    name: &str,
    value: Value,
) -> Result<(), AllocError>
    ensures put { OnOk result (members_view object.new.entries
        ≡ put_member name.now (view value) (members_view object.old.entries)) }
    ensures kept { OnErr result (object.new.entries ≡ object.old.entries) }
{
    let name = String::from_str(alloc, name)?;
    put_named(object, name, value)
}

// The same with a name that is owned.
fn put_named(object: &mut Map<String, Value>, name: String, value: Value) -> Result<(), AllocError>
    ensures put { OnOk result (members_view object.new.entries
        ≡ put_member (string_bytes name) (view value) (members_view object.old.entries)) }
    ensures kept { OnErr result (object.new.entries ≡ object.old.entries) }
{
    drop(object.insert(name, value)?);
    Ok(())
}

// Puts the value, if there is one.
fn put_some(
    object: &mut Map<String, Value>,
    name: String,
    value: Option<Value>,
) -> Result<(), AllocError>
    ensures { OnOk result (members_view object.new.entries
        ≡ put_if_some (string_bytes name) (option_map view value) (members_view object.old.entries)) }
{
    match value {
        Some(value) => put_named(object, name, value),
        None => Ok(()),
    }
}
