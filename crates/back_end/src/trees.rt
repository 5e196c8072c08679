// Nodes of the page, copied as they are.
ghost use Rattle.std.specs.Prelude.{◌≡◌, IfOk};
ghost use Rattle.node_tree.specs.Nodes.{nodes_of};

use node_tree::Text;
use page_tree::{Children, Node, Tree};
use std::alloc::{AllocError, Global};

/// A node like that one, with its serial and those children.
fn copied_label(alloc: Global, node: &Node, children: Vec<Tree>) -> Result<Tree, AllocError>
    ensures { IfOk result (λ tree. tree ≡ record { row = node.now.row; children = nodes_of children.items }) }
{
    Ok(Tree {
        serial: node.serial(),
        kind: node.kind(),
        name: Text::copied(alloc, node.name())?,
        value: Text::copied(alloc, node.value())?,
        attributes: node.attributes().try_clone(alloc)?,
        children,
    })
}

/// Copies of the trees, each node with its serial.
fn copied_children(alloc: Global, children: &Children) -> Result<Vec<Tree>, AllocError>
    ensures { IfOk result (λ trees. nodes_of trees.items ≡ children.now) }
{
    let mut trees = Vec::new(alloc);
    for i in 0..children.len() {
        let child = children.at(i);
        let below = copied_children(alloc, &child.children())?;
        trees.push(copied_label(alloc, &child, below)?)?;
    }
    Ok(trees)
}

/// A copy of the node with all below it, each node with its serial.
pub(crate) fn copied_tree(alloc: Global, node: &Node) -> Result<Tree, AllocError>
    ensures { IfOk result (λ tree. tree ≡ node.now) }
{
    let children = copied_children(alloc, &node.children())?;
    copied_label(alloc, node, children)
}
