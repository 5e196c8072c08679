//! The elements below a node that a list of selectors matches, in document order.

ghost use Rattle.std.specs.Prelude.{◌≡◌, true, ◌++◌, ◌∷◌, [], if◌then◌else◌, map, option_map, IfOk, IsSome, find, OnOk};
ghost use Rattle.page_tree.specs.Pages.{find_in};
ghost use Rattle.page_tree.specs.Zippers.{zipper_at, below, serial_of};
ghost use Rattle.selectors.specs.Forms.{selector_seen};
ghost use Rattle.selectors.specs.Lists.{list_seen};
ghost use Rattle.select_match.specs.Matches.{selector_matches, list_matches, matching_below};
ghost use Rattle.select_match.specs.Steps.{all_stepped};

use crate::chains::matches_node;
use crate::stepped::{add_stepped, first_stepped, inside_node};
use crate::steps::{all_stepped, asks_siblings, count_for, counts_far, steps_of};
use page_tree::{NodeRef, Page};
use selectors::{Selector, SelectorList};
use std::alloc::{AllocError, Global};

/// Whether the selector matches the node with that serial (Selectors 3, sections 6 and 8). It matches elements alone.
pub fn matches(s: &Selector, page: &Page, serial: u64) -> bool
    requires { IsSome (find_in serial page.now.tree) }
    ensures { result ≡ selector_matches (selector_seen s.now) (zipper_at serial page.now.tree) }
{
    matches_node(s, &page.node_ref(serial))
}

/// Whether some selector of the list matches the node.
pub fn list_matches_node(l: &SelectorList, node: &NodeRef<'_>) -> bool
    ensures { result ≡ list_matches (list_seen l.now) node.now }
{
    for i in 0..l.len() {
        if matches_node(l.at(i), node) {
            return true;
        }
    }
    false
}

/// The serial of the first element below the node with the serial `root` that a selector of the list matches.
pub fn first_match(alloc: Global, l: &SelectorList, page: &Page, root: u64) -> Option<u64>
    requires { IsSome (find_in root page.now.tree) }
    ensures { result ≡ option_map serial_of (find (list_matches (list_seen l.now)) (below (zipper_at root page.now.tree))) }
{
    let node = page.node_ref(root);
    if is_quicker(l) {
        if let Ok(found) = first_by_steps(alloc, l, &node) {
            return found;
        }
    }
    first_below(l, &node)
}

/// The steps are quicker, and each selector has some.
fn is_quicker(l: &SelectorList) -> bool
    ensures { result ≡ true → all_stepped (list_seen l.now) ≡ true }
{
    let far = asks_siblings(l) || counts_far(l, false);
    far && all_stepped(l)
}

fn first_by_steps(
    alloc: Global,
    l: &SelectorList,
    node: &NodeRef<'_>,
) -> Result<Option<u64>, AllocError>
    requires { all_stepped (list_seen l.now) ≡ true }
    ensures { IfOk result (λ r. r ≡ option_map serial_of (find (list_matches (list_seen l.now)) (below node.now))) }
{
    let list = steps_of(alloc, l)?;
    let steps = list.as_slice();
    let around = inside_node(alloc, steps, node)?;
    first_stepped(alloc, steps, count_for(l), node, around)
}

fn add_by_steps(
    alloc: Global,
    l: &SelectorList,
    node: &NodeRef<'_>,
    found: &mut Vec<u64>,
) -> Result<(), AllocError>
    requires { all_stepped (list_seen l.now) ≡ true }
    ensures { OnOk result (found.new.items ≡ found.old.items ++ map serial_of (matching_below (list_seen l.now) node.now)) }
{
    let list = steps_of(alloc, l)?;
    let steps = list.as_slice();
    let around = inside_node(alloc, steps, node)?;
    add_stepped(alloc, steps, count_for(l), node, around, found)
}

fn first_below(l: &SelectorList, node: &NodeRef<'_>) -> Option<u64>
    ensures { result ≡ option_map serial_of (find (list_matches (list_seen l.now)) (below node.now)) }
{
    let mut at = node.first_child();
    while let Some(child) = at {
        if list_matches_node(l, &child) {
            return Some(child.serial());
        }
        if let Some(found) = first_below(l, &child) {
            return Some(found);
        }
        at = child.next_sibling();
    }
    None
}

/// The serials of all elements below the node with the serial `root` that a selector of the list matches, in document order.
pub fn all_matches(
    alloc: Global,
    l: &SelectorList,
    page: &Page,
    root: u64,
) -> Result<Vec<u64>, AllocError>
    requires { IsSome (find_in root page.now.tree) }
    ensures { IfOk result (λ v. v.items ≡ map serial_of (matching_below (list_seen l.now) (zipper_at root page.now.tree))) }
{
    let node = page.node_ref(root);
    let mut found = Vec::new(alloc);
    if is_quicker(l) {
        add_by_steps(alloc, l, &node, &mut found)?;
        return Ok(found);
    }
    add_below(l, &node, &mut found)?;
    Ok(found)
}

fn add_below(l: &SelectorList, node: &NodeRef<'_>, found: &mut Vec<u64>) -> Result<(), AllocError>
    ensures { OnOk result (found.new.items ≡ found.old.items ++ map serial_of (matching_below (list_seen l.now) node.now)) }
{
    let mut at = node.first_child();
    while let Some(child) = at {
        add_if(list_matches_node(l, &child), child.serial(), found)?;
        add_below(l, &child, found)?;
        at = child.next_sibling();
    }
    Ok(())
}

pub fn add_if(test: bool, serial: u64, found: &mut Vec<u64>) -> Result<(), AllocError>
    ensures { OnOk result (found.new.items ≡ found.old.items ++ (if test then serial ∷ [] else [])) }
{
    if test {
        found.push(serial)?;
    }
    Ok(())
}
