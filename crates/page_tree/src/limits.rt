ghost use Rattle.std.specs.Prelude.{◌≡◌, nat_le, cond, true};
ghost use Rattle.std.specs.List.{list_all};
ghost use Rattle.node_tree.specs.Nodes.{nodes_of, node_count, height};
ghost use Rattle.node_tree.specs.Labels.{has_name, is_named_label};
ghost use Rattle.node_tree.specs.Names.{is_element_name, is_attribute_name};
ghost use Rattle.page_tree.specs.Forms.{are_named};
ghost use Rattle.page_tree.specs.NodesLeft.{nodes_left};
ghost use Rattle.page_tree.specs.Loads.{are_few, limit_faults};
ghost use Rattle.node_tree.specs.Keys.{first_true};

use crate::faults::LoadFault;
use crate::forms::NodeForm;
use node_tree::{Attributes, Kind, MAX_LEVEL, MAX_NODES, is_attribute_name, is_element_name};

/// The forms have no more than so many levels.
pub fn are_within(forms: &[NodeForm], levels: u64) -> bool
    ensures { result ≡ nat_le (height (nodes_of forms.now)) levels }
{
    for form in forms {
        if levels == 0 {
            return false;
        }
        if !are_within(&form.children, levels - 1) {
            return false;
        }
    }
    true
}

/// How much of the room for nodes is left beside the forms; none where they are more.
pub fn room_beside(forms: &[NodeForm], room: usize) -> Option<usize>
    ensures { result ≡ nodes_left (node_count (nodes_of forms.now)) room }
{
    let mut left = room;
    for form in forms {
        if left == 0 {
            return None;
        }
        let Some(rest) = room_beside(&form.children, left - 1) else {
            return None;
        };
        left = rest;
    }
    Some(left)
}

/// An element's or a doctype's name has its form.
pub fn has_good_name(kind: Kind, name: &str) -> bool
    ensures { result ≡ cond (has_name kind) (is_element_name name.now) true }
{
    match kind {
        Kind::Element | Kind::Doctype => is_element_name(name),
        Kind::Document | Kind::Text | Kind::Comment => true,
    }
}

/// The names of attributes have their forms.
pub fn have_good_names(pairs: &Attributes) -> bool
    ensures { result ≡ list_all (λ p. is_attribute_name p.0) pairs.now }
{
    pairs.iter().all(|pair| is_attribute_name(pair.0.as_str()))
}

fn is_named(form: &NodeForm) -> bool
    ensures { result ≡ is_named_label form.now.row }
{
    has_good_name(form.kind, form.name.as_str()) && have_good_names(&form.attributes)
}

/// All names have their forms.
pub fn are_named(forms: &[NodeForm]) -> bool
    ensures { result ≡ are_named (nodes_of forms.now) }
{
    for form in forms {
        if !is_named(form) {
            return false;
        }
        if !are_named(&form.children) {
            return false;
        }
    }
    true
}

fn are_few(forms: &[NodeForm]) -> bool
    ensures { result ≡ are_few (nodes_of forms.now) }
{
    room_beside(forms, MAX_NODES - 1).is_some()
}

/// The first of the faults that nodes in their form may have.
pub fn limit_fault(forms: &[NodeForm]) -> Option<LoadFault>
    ensures { result ≡ first_true (limit_faults (nodes_of forms.now)) }
{
    if !are_within(forms, MAX_LEVEL) {
        return Some(LoadFault::TooDeep);
    }
    if !are_few(forms) {
        return Some(LoadFault::TooMany);
    }
    if !are_named(forms) {
        return Some(LoadFault::BadName);
    }
    None
}
