// Messages with trees of nodes.
ghost use Rattle.std.specs.Prelude.{◌≡◌, ◌++◌, OnOk, OnErr, IsUtf8};
ghost use Rattle.serde_json.specs.Written.{compact_text};
ghost use Rattle.node_tree.specs.Nodes.{nodes_of};
ghost use Rattle.dom_objects.specs.NodeData.{tree_data};
ghost use Rattle.dom_objects.specs.NodeKinds.{nodes_kind};
ghost use Rattle.pipe_frames.specs.Frames.{framed};
ghost use Rattle.dom_objects.specs.Tokens.{data_tokens};
ghost use Rattle.cdp_messages.specs.NodeWrites.{message_with};

use crate::node_message::NodeMessage;
use dom_objects::{NodeTree, NodeWriter, write_node, write_nodes};
use std::alloc::{AllocError, Global};

// The message with this tree as its node.
fn write_tree_message(
    out: &mut NodeWriter,
    message: NodeMessage,
    tree: &NodeTree,
) -> Result<(), AllocError>
    ensures ok { OnOk result (out.new.tokens ≡ out.old.tokens
        ++ data_tokens (message_with message (tree_data tree.now))) }
    ensures before { out.new.before ≡ out.old.before }
{
    message.open(out)?;
    write_node(out, tree)?;
    message.close(out)?;
    Ok(())
}

// The message with these trees as its nodes.
fn write_trees_message(
    out: &mut NodeWriter,
    message: NodeMessage,
    trees: &Vec<NodeTree>,
) -> Result<(), AllocError>
    ensures ok { OnOk result (out.new.tokens ≡ out.old.tokens
        ++ data_tokens (message_with message (nodes_kind.spell (nodes_of trees.now.items)))) }
    ensures before { out.new.before ≡ out.old.before }
{
    message.open(out)?;
    write_nodes(out, trees)?;
    message.close(out)?;
    Ok(())
}

/// Appends the message with this tree as its node.
pub(crate) fn append_tree(
    alloc: Global,
    message: NodeMessage,
    tree: &NodeTree,
    out: &mut Vec<u8>,
) -> Result<(), AllocError>
    ensures ok { OnOk result (out.new.items ≡ out.old.items
        ++ framed (compact_text (message_with message (tree_data tree.now)))) }
    ensures utf8 { OnOk result (IsUtf8 (compact_text (message_with message (tree_data tree.now)))) }
    ensures err { OnErr result (out.new.items ≡ out.old.items) }
{
    let mut writer = NodeWriter::new(alloc, out);
    let written = write_tree_message(&mut writer, message, tree);
    writer.finish(written, out)
}

/// Appends the message with these trees as its nodes.
pub(crate) fn append_trees(
    alloc: Global,
    message: NodeMessage,
    trees: &Vec<NodeTree>,
    out: &mut Vec<u8>,
) -> Result<(), AllocError>
    ensures ok { OnOk result (out.new.items ≡ out.old.items
        ++ framed (compact_text (message_with message (nodes_kind.spell (nodes_of trees.now.items))))) }
    ensures utf8 { OnOk result (IsUtf8 (compact_text
        (message_with message (nodes_kind.spell (nodes_of trees.now.items))))) }
    ensures err { OnErr result (out.new.items ≡ out.old.items) }
{
    let mut writer = NodeWriter::new(alloc, out);
    let written = write_trees_message(&mut writer, message, trees);
    writer.finish(written, out)
}
