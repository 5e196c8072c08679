//! Walks down a page.

ghost use Rattle.std.specs.Prelude.{◌≡◌, ◌+◌, ◌<◌, nat_le, IfOk};
ghost use Rattle.node_tree.specs.Numbers.{number_limit};
ghost use Rattle.node_tree.specs.Nodes.{nodes_of, node_count, branch_count, height, map_rows, map_branch};
ghost use Rattle.page_tree.specs.Pages.{row_label, numbered};
ghost use Rattle.page_tree.specs.Edits.{numbered_branch};
ghost use Rattle.page_tree.specs.NodesLeft.{nodes_left};

use crate::cursors::{Children, Node};
use crate::trees::Tree;
use node_tree::Text;
use std::alloc::{AllocError, Global};

/// The trees have no more than so many levels.
pub fn are_children_within(children: &Children, levels: u64) -> bool
    ensures { result ≡ nat_le (height children.now) levels }
{
    for i in 0..children.len() {
        let child = children.at(i);
        if levels == 0 {
            return false;
        }
        if !are_children_within(&child.children(), levels - 1) {
            return false;
        }
    }
    true
}

/// How much of the room for nodes is left beside the trees; none where they are more.
pub fn room_beside_children(children: &Children, room: usize) -> Option<usize>
    ensures { result ≡ nodes_left (node_count children.now) room }
{
    let mut left = room;
    for i in 0..children.len() {
        let child = children.at(i);
        if left == 0 {
            return None;
        }
        let Some(rest) = room_beside_children(&child.children(), left - 1) else {
            return None;
        };
        left = rest;
    }
    Some(left)
}

/// A node like that one, with that serial and those children.
fn copy_label(
    alloc: Global,
    serial: u64,
    node: &Node,
    children: Vec<Tree>,
) -> Result<Tree, AllocError>
    ensures { IfOk result (λ tree. tree
        ≡ record { row = record { serial = serial; label = node.now.row.label }; children = nodes_of children.items }) }
{
    Ok(Tree {
        serial,
        kind: node.kind(),
        name: Text::copied(alloc, node.name())?,
        value: Text::copied(alloc, node.value())?,
        attributes: node.attributes().try_clone(alloc)?,
        children,
    })
}

/// Copies of the trees, with serials in document order from `first` on, and the serial after the last.
fn copy_children(
    alloc: Global,
    first: u64,
    children: &Children,
) -> Result<(Vec<Tree>, u64), AllocError>
    requires { first + node_count children.now < number_limit }
    ensures { IfOk result (λ r. (nodes_of r.0.items ≡ numbered first (map_rows row_label children.now))
        × (r.1 ≡ first + node_count children.now)) }
{
    let mut trees = Vec::new(alloc);
    let mut next = first;
    for i in 0..children.len() {
        let child = children.at(i);
        let serial = next;
        let (below, after) = copy_children(alloc, serial + 1, &child.children())?;
        trees.push(copy_label(alloc, serial, &child, below)?)?;
        next = after;
    }
    Ok((trees, next))
}

/// A copy of the tree, with serials in document order from `first` on, and the serial after the last.
pub fn copy_tree(alloc: Global, first: u64, node: &Node) -> Result<(Tree, u64), AllocError>
    requires { first + branch_count node.now < number_limit }
    ensures { IfOk result (λ r. (r.0 ≡ numbered_branch first (map_branch row_label node.now))
        × (r.1 ≡ first + branch_count node.now)) }
{
    let (children, next) = copy_children(alloc, first + 1, &node.children())?;
    let tree = copy_label(alloc, first, node, children)?;
    Ok((tree, next))
}
