// Trees of nodes, written.
ghost use Rattle.std.specs.Prelude.{◌≡◌, ◌++◌, OnOk};
ghost use Rattle.node_tree.specs.Nodes.{nodes_of};
ghost use Rattle.dom_objects.specs.NodeData.{tree_data};
ghost use Rattle.dom_objects.specs.NodeKinds.{nodes_kind};
ghost use Rattle.dom_objects.specs.Tokens.{data_tokens};

use crate::node_writer::NodeWriter;
use crate::tree::NodeTree;
use std::alloc::AllocError;

/// A node with all that is shown below it.
#[cycle(write_node)]
pub fn write_node(out: &mut NodeWriter, tree: &NodeTree) -> Result<(), AllocError>
    ensures ok { OnOk result (out.new.tokens ≡ out.old.tokens ++ data_tokens (tree_data tree.now)) }
    ensures before { out.new.before ≡ out.old.before }
{
    let row = tree.row();
    match &tree.children {
        Some(trees) => {
            out.head(&row)?;
            out.children()?;
            write_nodes(out, trees)?;
            out.tail(&row)?;
            Ok(())
        }
        None => {
            out.head(&row)?;
            out.tail(&row)?;
            Ok(())
        }
    }
}

/// Nodes side by side, as an array.
#[cycle(write_node)]
pub fn write_nodes(out: &mut NodeWriter, trees: &Vec<NodeTree>) -> Result<(), AllocError>
    ensures ok { OnOk result (out.new.tokens ≡ out.old.tokens
        ++ data_tokens (nodes_kind.spell (nodes_of trees.now.items))) }
    ensures before { out.new.before ≡ out.old.before }
{
    out.begin_nodes()?;
    for tree in trees {
        write_node(out, tree)?;
    }
    out.end_nodes()?;
    Ok(())
}
