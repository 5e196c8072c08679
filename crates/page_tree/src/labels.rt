ghost use Rattle.std.specs.Prelude.{◌≡◌, [], option_map, IfOk};
ghost use Rattle.serde_json.specs.View.{view};
ghost use Rattle.node_tree.specs.declared.Kind.TheVariants.{Element, Doctype};
ghost use Rattle.page_tree.specs.Loads.{property_count, times_of, text_at, text_alone, attributes_at, element_name, element_label};
ghost use Rattle.page_tree.specs.Loads.{labelled, label_spelled};

use crate::attributes::read_attributes;
use node_tree::{Attributes, Kind, Text};
use serde_json::Value;
use std::alloc::{AllocError, Global};
use std::marker::Model;

/// A node of a load but for its children.
#[derive(Drop)]
pub(crate) struct NodeLabel {
    pub(crate) kind: Kind,
    pub(crate) name: Text,
    pub(crate) value: Text,
    pub(crate) attributes: Attributes,
}

impl Model for NodeLabel {
    ghost use Rattle.node_tree.specs.Labels.{Label, coded_label};

    ghost Value = { Label };

    ghost coded = { coded_label };

    ghost view = { λ l. record { kind = l.kind; name = l.name; value = l.value; attributes = l.attributes } };
}

pub(crate) fn property_count(v: &Value) -> usize
    ensures { result ≡ property_count (view v.now) }
{
    match v.as_object() {
        Some(members) => members.len(),
        None => 0,
    }
}

pub(crate) fn times_of(v: &Value, key: &str) -> usize
    ensures { result ≡ times_of key.now (view v.now) }
{
    if v.get(key).is_some() { 1 } else { 0 }
}

pub(crate) fn text_at<'a>(v: &'a Value, key: &str) -> Option<&'a str>
    ensures { option_map (λ s. s.now) result ≡ text_at key.now (view v.now) }
{
    match v.get(key) {
        Some(value) => value.as_str(),
        None => None,
    }
}

fn text_alone<'a>(v: &'a Value, key: &str) -> Option<&'a str>
    ensures { option_map (λ s. s.now) result ≡ text_alone key.now (view v.now) }
{
    if property_count(v) != 1 {
        return None;
    }
    text_at(v, key)
}

fn element_name(v: &Value) -> Option<&str>
    ensures { option_map (λ s. s.now) result ≡ element_name (view v.now) }
{
    if property_count(v) != 1 + times_of(v, "a") + times_of(v, "c") {
        return None;
    }
    text_at(v, "e")
}

pub(crate) fn attributes_at(alloc: Global, v: &Value) -> Result<Option<Attributes>, AllocError>
    ensures { IfOk result (λ attributes. attributes ≡ attributes_at (view v.now)) }
{
    match v.get("a") {
        Some(list) => read_attributes(alloc, list),
        None => Ok(Some(Attributes::new(alloc))),
    }
}

/// The label of an element.
pub(crate) fn element_of(
    alloc: Global,
    name: &str,
    attributes: Attributes,
) -> Result<NodeLabel, AllocError>
    ensures { IfOk result (λ label. label ≡ labelled Element name.now [] attributes) }
{
    Ok(NodeLabel {
        kind: Kind::Element,
        name: Text::copied(alloc, name)?,
        value: Text::empty(alloc),
        attributes,
    })
}

fn element_label(alloc: Global, v: &Value) -> Result<Option<NodeLabel>, AllocError>
    ensures { IfOk result (λ label. label ≡ element_label (view v.now)) }
{
    let Some(name) = element_name(v) else {
        return Ok(None);
    };
    let Some(attributes) = attributes_at(alloc, v)? else {
        return Ok(None);
    };
    Ok(Some(element_of(alloc, name, attributes)?))
}

/// The label of a text or a comment.
pub(crate) fn value_label(alloc: Global, kind: Kind, value: &str) -> Result<NodeLabel, AllocError>
    ensures { IfOk result (λ label. label ≡ labelled kind [] value.now []) }
{
    Ok(NodeLabel {
        kind,
        name: Text::empty(alloc),
        value: Text::copied(alloc, value)?,
        attributes: Attributes::new(alloc),
    })
}

/// The label of a doctype.
pub(crate) fn doctype_label(alloc: Global, name: &str) -> Result<NodeLabel, AllocError>
    ensures { IfOk result (λ label. label ≡ labelled Doctype name.now [] []) }
{
    Ok(NodeLabel {
        kind: Kind::Doctype,
        name: Text::copied(alloc, name)?,
        value: Text::empty(alloc),
        attributes: Attributes::new(alloc),
    })
}

/// The label of the node that a value spells, in any of the four forms; a doctype's only right below the document.
pub(crate) fn read_label(
    alloc: Global,
    top: bool,
    v: &Value,
) -> Result<Option<NodeLabel>, AllocError>
    ensures { IfOk result (λ label. label ≡ label_spelled top (view v.now)) }
{
    if let Some(label) = element_label(alloc, v)? {
        return Ok(Some(label));
    }
    if let Some(text) = text_alone(v, "t") {
        return Ok(Some(value_label(alloc, Kind::Text, text)?));
    }
    if let Some(text) = text_alone(v, "k") {
        return Ok(Some(value_label(alloc, Kind::Comment, text)?));
    }
    if !top {
        return Ok(None);
    }
    match text_alone(v, "d") {
        Some(name) => Ok(Some(doctype_label(alloc, name)?)),
        None => Ok(None),
    }
}
