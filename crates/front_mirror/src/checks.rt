// What is asked of nodes that come.
ghost use Rattle.std.specs.Prelude.{◌≡◌, ◌++◌, true, nat_le, IfOk, OnOk};
ghost use Rattle.node_tree.specs.Nodes.{nodes_of, height};
ghost use Rattle.client_views.specs.Views.{keys, is_distinct};
ghost use Rattle.front_mirror.specs.Shown.{told_id, told_serial};
ghost use Rattle.front_mirror.specs.Front.{is_kin, is_unique};

use crate::told::children_of;
use dom_objects::NodeTree;
use std::alloc::{AllocError, Global};
use std::collections::BTreeSet;

/// How many levels a tree may have, the document's among them: as many as a page.
pub(crate) const MOST_LEVELS: usize = node_tree::MOST_LEVELS as usize;

/// Each of these nodes says that its parent is the one of this id, and so on below.
#[tactic(auto, using(crate::proofs::ToldLemmas::node_count_below))]
pub(crate) fn are_kin(nodes: &[NodeTree], parent: u64) -> bool
    ensures { result ≡ is_kin parent (nodes_of nodes.now) }
{
    for node in nodes {
        if node.parent != parent || !are_kin(children_of(node), node.id) {
            return false;
        }
    }
    true
}

/// The nodes have no more than so many levels.
#[tactic(auto, using(crate::proofs::ToldLemmas::node_count_below))]
pub(crate) fn are_within(nodes: &[NodeTree], levels: usize) -> bool
    ensures { result ≡ nat_le (height (nodes_of nodes.now)) levels }
{
    for node in nodes {
        if levels == 0 {
            return false;
        }
        if !are_within(children_of(node), levels - 1) {
            return false;
        }
    }
    true
}

/// Appends the nodes' ids and serials, in document order.
#[tactic(auto, using(crate::proofs::ToldLemmas::node_count_below))]
pub(crate) fn push_keys(
    nodes: &[NodeTree],
    ids: &mut Vec<u64>,
    serials: &mut Vec<u64>,
) -> Result<(), AllocError>
    ensures ids { OnOk result (ids.new.items ≡ ids.old.items ++ keys told_id (nodes_of nodes.now)) }
    ensures serials { OnOk result (serials.new.items ≡ serials.old.items ++ keys told_serial (nodes_of nodes.now)) }
{
    for node in nodes {
        ids.push(node.id)?;
        serials.push(node.serial)?;
        push_keys(children_of(node), ids, serials)?;
    }
    Ok(())
}

/// Whether each number is greater than the one before it, and the first greater than 0: then none comes twice.
fn ascend(numbers: &[u64]) -> bool
    ensures { result ≡ true → is_distinct numbers.now ≡ true }
{
    let mut last = 0;
    for number in numbers {
        if *number <= last {
            return false;
        }
        last = *number;
    }
    true
}

/// No number comes twice.
pub(crate) fn are_distinct(alloc: Global, numbers: &[u64]) -> Result<bool, AllocError>
    ensures { IfOk result (λ distinct. distinct ≡ is_distinct numbers.now) }
{
    if ascend(numbers) {
        return Ok(true);
    }
    let mut seen = BTreeSet::new(alloc);
    for number in numbers {
        if !seen.insert(*number)? {
            return Ok(false);
        }
    }
    Ok(true)
}

/// No id and no serial comes twice.
pub(crate) fn are_new(alloc: Global, nodes: &[NodeTree]) -> Result<bool, AllocError>
    ensures { IfOk result (λ new. new ≡ is_unique (nodes_of nodes.now)) }
{
    let mut ids = Vec::new(alloc);
    let mut serials = Vec::new(alloc);
    push_keys(nodes, &mut ids, &mut serials)?;
    if !are_distinct(alloc, &ids)? {
        return Ok(false);
    }
    are_distinct(alloc, &serials)
}
