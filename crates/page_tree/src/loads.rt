ghost use Rattle.std.specs.Prelude.{◌≡◌, option_map, IfOk};
ghost use Rattle.serde_json.specs.View.{view, items_view};
ghost use Rattle.node_tree.specs.Nodes.{nodes_of};
ghost use Rattle.page_tree.specs.Forms.{CanLoad};
ghost use Rattle.page_tree.specs.Loads.{values_below, node_spelled, forms_of, node_in, nodes_in, Reads, ReadsNode};
ghost use Rattle.page_tree.specs.EditFaults.{CanInsert};

use crate::faults::{LoadErr, LoadFault};
use crate::forms::NodeForm;
use crate::labels::read_label;
use crate::limits::limit_fault;
use serde_json::Value;
use std::alloc::{AllocError, Global};

/// The values that the property `c` lists; none where it is there and no list.
fn children_of(v: &Value) -> Option<&[Value]>
    ensures { option_map (λ list. items_view list.now) result ≡ values_below (view v.now) }
{
    if !v.is_object() {
        return None;
    }
    let Some(list) = v.get("c") else {
        return Some(&[]);
    };
    match list.as_array() {
        Some(values) => Some(values.as_slice()),
        None => None,
    }
}

#[cycle(forms)]
fn read_one(alloc: Global, top: bool, v: &Value) -> Result<Option<NodeForm>, AllocError>
    ensures { IfOk result (λ form. form ≡ node_spelled top (view v.now)) }
{
    let Some(label) = read_label(alloc, top, v)? else {
        return Ok(None);
    };
    let Some(values) = children_of(v) else {
        return Ok(None);
    };
    let Some(children) = read_all(alloc, false, values)? else {
        return Ok(None);
    };
    Ok(Some(NodeForm {
        kind: label.kind,
        name: label.name,
        value: label.value,
        attributes: label.attributes,
        children,
    }))
}

#[cycle(forms)]
fn read_all(alloc: Global, top: bool, values: &[Value]) -> Result<Option<Vec<NodeForm>>, AllocError>
    ensures { IfOk result (λ forms. option_map (λ v. nodes_of v.items) forms ≡ forms_of top (items_view values.now)) }
{
    let mut forms = Vec::new(alloc);
    for v in values {
        let Some(form) = read_one(alloc, top, v)? else {
            return Ok(None);
        };
        forms.push(form)?;
    }
    Ok(Some(forms))
}

/// The nodes that a load's list spells, or the first fault of the load.
pub fn read_nodes(alloc: Global, v: &Value) -> Result<Vec<NodeForm>, LoadErr>
    ensures reads { Reads result (nodes_in (view v.now)) }
    ensures fit { IfOk result (λ forms. CanLoad (nodes_of forms.items)) }
{
    let Some(values) = v.as_array() else {
        return Err(LoadErr::Fault(LoadFault::BadForm));
    };
    let Some(forms) = read_all(alloc, true, values)? else {
        return Err(LoadErr::Fault(LoadFault::BadForm));
    };
    if let Some(fault) = limit_fault(&forms) {
        return Err(LoadErr::Fault(fault));
    }
    Ok(forms)
}

/// The node that a value spells, with all below it; a doctype stands as the whole alone. Names, levels and the number of nodes are not
/// judged here: `BadForm` is the only fault.
pub fn read_node(alloc: Global, v: &Value) -> Result<NodeForm, LoadErr>
    ensures reads { ReadsNode result (node_in (view v.now)) }
    ensures fit { IfOk result (λ form. CanInsert form) }
{
    match read_one(alloc, true, v)? {
        Some(form) => Ok(form),
        None => Err(LoadErr::Fault(LoadFault::BadForm)),
    }
}
