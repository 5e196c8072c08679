//! Elements of a page and the places that they have among their siblings.

ghost use Rattle.std.specs.Prelude.{◌≡◌, ◌<◌, ◌≤◌, ◌&&◌, ◌==◌, ℕ, false, if◌then◌else◌};
ghost use Rattle.page_tree.specs.Forms.{max_nodes};
ghost use Rattle.std.specs.List.{list_any};
ghost use Rattle.node_tree.specs.Numbers.{memory_limit};
ghost use Rattle.page_tree.specs.Zippers.{first_node, children_of, parent_of};
ghost use Rattle.select_match.specs.Elements.{is_element_node, fills, is_root_by, side, counts, index, is_nth};

use node_tree::MAX_NODES;
use page_tree::{Kind, NodeRef};
use selectors::NthKind;

/// Whether the node is an element.
pub fn is_element(node: &NodeRef<'_>) -> bool
    ensures { result ≡ is_element_node node.now }
{
    node.kind().is_element()
}

/// Whether the node is an element right below the document: `:root`.
pub fn is_root(node: &NodeRef<'_>) -> bool
    ensures { result ≡ is_root_by (parent_of node.now) }
{
    match node.parent() {
        Some(parent) => parent.kind() == Kind::Document,
        None => false,
    }
}

fn fills(node: &NodeRef<'_>) -> bool
    ensures { result ≡ fills node.now }
{
    match node.kind() {
        Kind::Element => true,
        Kind::Text => !node.value().is_empty(),
        Kind::Document | Kind::Comment | Kind::Doctype => false,
    }
}

/// Some child is an element, or a text with something in it.
pub fn is_filled(node: &NodeRef<'_>) -> bool
    ensures { result ≡ list_any fills (children_of node.now) }
{
    let mut at = node.first_child();
    while let Some(child) = at {
        if fills(&child) {
            return true;
        }
        at = child.next_sibling();
    }
    false
}

/// The sibling next to a node on the side from which the index is counted.
fn beside<'a>(kind: NthKind, node: &NodeRef<'a>) -> Option<NodeRef<'a>>
    ensures { result ≡ first_node (side kind node.now) }
{
    match kind {
        NthKind::Child | NthKind::OfType => node.previous_sibling(),
        NthKind::LastChild | NthKind::LastOfType => node.next_sibling(),
    }
}

fn counts(kind: NthKind, node: &NodeRef<'_>, other: &NodeRef<'_>) -> bool
    ensures { result ≡ counts kind node.now other.now }
{
    match kind {
        NthKind::Child | NthKind::LastChild => is_element(other),
        NthKind::OfType | NthKind::LastOfType => is_element(other) && other.name() == node.name(),
    }
}

fn one_if(test: bool) -> u64
    ensures { result ≡ (if test then 1 else 0) }
{
    if test { 1 } else { 0 }
}

/// The place of an element among its siblings, or a number beyond the limit if that is beyond it: siblings are counted no further.
fn index_within(kind: NthKind, node: &NodeRef<'_>, limit: u64) -> u64
    ensures within { result ≤ limit → result ≡ index kind node.now }
    ensures beyond { limit < result → limit < index kind node.now }
    ensures bound { result ≤ max_nodes }
    ensures few { index kind node.now ≤ max_nodes }
{
    node.are_few();
    let mut count = 1;
    let mut at = beside(kind, node);
    while let Some(other) = at {
        if count > limit {
            return count;
        }
        count += one_if(counts(kind, node, &other));
        at = beside(kind, &other);
    }
    count
}

/// The place of an element among its siblings, counted from 1 (Selectors 3, section 6.6.5).
pub fn index(kind: NthKind, node: &NodeRef<'_>) -> u64
    ensures value { result ≡ index kind node.now }
    ensures bound { result ≤ max_nodes }
{
    index_within(kind, node, MAX_NODES as u64)
}

fn is_first(kind: NthKind, node: &NodeRef<'_>) -> bool
    ensures { result ≡ (index kind node.now == 1) }
{
    index_within(kind, node, 1) == 1
}

/// The element is the first from both sides.
pub fn is_only(first: NthKind, last: NthKind, node: &NodeRef<'_>) -> bool
    ensures { result ≡ (index first node.now == 1 && index last node.now == 1) }
{
    is_first(first, node) && is_first(last, node)
}

/// No place beyond this one is reached: by steps that are not positive none beyond the offset is.
fn last_place(step: i64, offset: i64) -> u64
    ensures { (i : ℕ) → result < i → i ≤ max_nodes → is_nth step offset i ≡ false }
{
    if step > 0 {
        return MAX_NODES as u64;
    }
    if offset < 0 {
        return 0;
    }
    offset.unsigned_abs()
}

/// The place of an element among its siblings is `step * n + offset` for some whole n from 0 on. Siblings are counted no
/// further than that can be.
pub fn nth_holds(kind: NthKind, step: i64, offset: i64, node: &NodeRef<'_>) -> bool
    ensures { result ≡ is_nth step offset (index kind node.now) }
{
    let place = index_within(kind, node, last_place(step, offset));
    is_nth(step, offset, place)
}

/// The index is `step * n + offset` for some whole n from 0 on.
pub fn is_nth(step: i64, offset: i64, index: u64) -> bool
    requires { index < memory_limit }
    ensures { result ≡ is_nth step offset index }
{
    let distance = (index as i64).abs_diff(offset);
    let width = step.unsigned_abs();
    if width == 0 || distance == 0 {
        return distance == 0;
    }
    ((index as i64) > offset) == (step > 0) && distance % width == 0
}
