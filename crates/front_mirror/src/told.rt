// The nodes of messages.
ghost use Rattle.std.specs.Prelude.{◌≡◌, length};
ghost use Rattle.node_tree.specs.Nodes.{nodes_of, width};
ghost use Rattle.node_tree.specs.Seen.{is_opened};

use dom_objects::NodeTree;

/// The children of a node that are shown.
#[tactic(auto, using(crate::proofs::ToldLemmas::list_width))]
pub(crate) fn children_of(node: &NodeTree) -> &[NodeTree]
    ensures children { nodes_of result.now ≡ node.now.children }
    ensures length { length result.now ≡ width node.now.children }
{
    match &node.children {
        Some(children) => children.as_slice(),
        None => &[],
    }
}

/// Whether the children of a node are shown.
pub(crate) fn is_opened(node: &NodeTree) -> bool
    ensures { result ≡ is_opened node.now.row.seen.hold }
{
    node.children.is_some()
}
