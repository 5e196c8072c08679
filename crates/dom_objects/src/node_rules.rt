// What has to hold of a node that a message tells.
ghost use Rattle.std.specs.Prelude.{◌≡◌, [], if◌then◌else◌, is_some, unwrap_or};
ghost use Rattle.std.specs.List.{list_all};
ghost use Rattle.node_tree.specs.Labels.{is_element, has_name, is_empty, is_before, is_ascending, is_formed_label};
ghost use Rattle.node_tree.specs.Labels.{is_named_label};
ghost use Rattle.node_tree.specs.Names.{is_attribute_name};
ghost use Rattle.dom_objects.specs.Told.{hold_of};
ghost use Rattle.dom_objects.specs.NodeObject.{fits_hold};

use node_tree::{Kind, Pairs, is_attribute_name, is_element_name};
use std::cmp::Ordering;

/// How the nodes of a message are told.
#[derive(Clone, Copy)]
pub enum Manner {
    /// As nodes of a session, with ids and parents.
    Pushed,
    /// By themselves.
    Described,
}

fn has_name(kind: Kind) -> bool
    ensures { result ≡ has_name kind }
{
    match kind {
        Kind::Element | Kind::Doctype => true,
        Kind::Document | Kind::Text | Kind::Comment => false,
    }
}

fn is_blank(text: &str) -> bool
    ensures { result ≡ is_empty text.now }
{
    text.is_empty()
}

fn is_before(first: &str, second: &str) -> bool
    ensures { result ≡ is_before first.now second.now }
{
    match first.cmp(&second) {
        Ordering::Less => true,
        Ordering::Equal | Ordering::Greater => false,
    }
}

/// The names are distinct and ascend by bytes.
pub fn is_ascending(pairs: Pairs<'_>) -> bool
    ensures { result ≡ is_ascending pairs.entry }
{
    let mut last = None;
    for pair in pairs {
        let name = pair.0.as_str();
        if let Some(earlier) = last {
            if !is_before(earlier, name) {
                return false;
            }
        }
        last = Some(name);
    }
    true
}

/// Each name has the form of an attribute's.
pub fn are_attribute_names(pairs: Pairs<'_>) -> bool
    ensures { result ≡ list_all (λ p. is_attribute_name p.0) pairs.entry }
{
    for pair in pairs {
        if !is_attribute_name(pair.0.as_str()) {
            return false;
        }
    }
    true
}

fn are_formed(kind: Kind, pairs: Pairs<'_>) -> bool
    ensures { result ≡ (if is_element kind then is_ascending pairs.entry else is_empty pairs.entry) }
{
    if kind.is_element() {
        return is_ascending(pairs);
    }
    let mut pairs = pairs;
    match pairs.next() {
        None => true,
        Some(_) => false,
    }
}

// What stands in a label but for the forms of names.
pub(crate) fn is_formed_label(kind: Kind, name: &str, value: &str, pairs: Pairs<'_>) -> bool
    ensures { result ≡ is_formed_label
        (record { kind = kind; name = name.now; value = value.now; attributes = pairs.entry }) }
{
    are_formed(kind, pairs)
        && (has_name(kind) || is_blank(name))
        && (kind.has_value() || is_blank(value))
}

// The names of a label have their forms.
pub(crate) fn is_named_label(kind: Kind, name: &str, pairs: Pairs<'_>) -> bool
    ensures { result ≡ is_named_label
        (record { kind = kind; name = name.now; value = []; attributes = pairs.entry }) }
{
    (!has_name(kind) || is_element_name(name)) && are_attribute_names(pairs)
}

// What is shown below a node, so many children or none, is as its kind and its number of children say.
pub(crate) fn fits_hold(shown: Option<u64>, container: bool, count: u64) -> bool
    ensures { result ≡ fits_hold (hold_of (is_some shown) container count) container count
        (unwrap_or shown 0) }
{
    match shown {
        Some(width) => container && count == width,
        None => container || count == 0,
    }
}
