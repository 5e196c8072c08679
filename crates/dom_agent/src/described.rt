//! Nodes that are described alone, in replies that are written straight from the page.

ghost use Rattle.std.specs.Prelude.{◌≡◌, ◌++◌, [], ◌∷◌, codes, OnOk};
ghost use Rattle.serde_json.specs.Data.{array};
ghost use Rattle.node_binding.specs.Openings.{less};
ghost use Rattle.dom_objects.specs.Told.{told_nodes};
ghost use Rattle.dom_objects.specs.NodeObject.{only_if};
ghost use Rattle.dom_objects.specs.NodeData.{tree_items, tree_data};
ghost use Rattle.dom_objects.specs.Tokens.{data_tokens, field_tokens};
ghost use Rattle.cdp_messages.specs.NodeWrites.{message_with};
ghost use Rattle.client_views.specs.Moves.{replied, frames_of_moves};
ghost use Rattle.cdp_messages.specs.declared.down.ReplyBody.TheVariants.{Node as node_body};
ghost use Rattle.cdp_messages.specs.declared.node_message.NodeMessage.TheVariants as message;
ghost use Rattle.dom_agent.specs.Described.{no_ids, shows_children, shown_to, described};

use crate::told::node_row;
use cdp_messages::NodeMessage;
use dom_objects::NodeWriter;
use node_binding::{is_reached, less};
use shown_pages::{ShownNode, Walk};
use std::alloc::{AllocError, Global};

/// A node as it is described alone, with what is below it to so many levels; `None` stands for all.
#[cycle(write_described)]
fn write_described(
    out: &mut NodeWriter,
    node: &ShownNode<'_>,
    levels: Option<u64>,
) -> Result<(), AllocError>
    ensures ok { OnOk result (out.new.tokens ≡ out.old.tokens
        ++ data_tokens (tree_data (described levels node.now))) }
    ensures before { out.new.before ≡ out.old.before }
{
    let row = node_row(node, 0, 0);
    out.head(&row)?;
    write_reached(out, node, levels)?;
    out.tail(&row)?;
    Ok(())
}

/// Its children, where a level is left for them.
#[cycle(write_described)]
fn write_reached(
    out: &mut NodeWriter,
    node: &ShownNode<'_>,
    levels: Option<u64>,
) -> Result<(), AllocError>
    ensures ok { OnOk result (out.new.tokens ≡ out.old.tokens
        ++ field_tokens (codes "children") (only_if (shows_children levels node.now.row)
        (array (tree_items (told_nodes 0 (shown_to no_ids (less levels) node.now.children)))))) }
    ensures before { out.new.before ≡ out.old.before }
{
    if !is_reached(node.kind(), levels) {
        return Ok(());
    }
    out.children()?;
    let left = less(levels);
    let mut walk = node.walk();
    write_below(out, &mut walk, left)?;
    Ok(())
}

/// Children, each as it is described to so many levels.
#[cycle(write_described)]
fn write_below(
    out: &mut NodeWriter,
    walk: &mut Walk<'_>,
    levels: Option<u64>,
) -> Result<(), AllocError>
    ensures ok { OnOk result (out.new.tokens ≡ out.old.tokens
        ++ data_tokens (array (tree_items (told_nodes 0 (shown_to no_ids levels walk.old))))) }
    ensures before { out.new.before ≡ out.old.before }
{
    out.begin_nodes()?;
    while let Some(child) = walk.next() {
        write_described(out, &child, levels)?;
    }
    out.end_nodes()?;
    Ok(())
}

/// The reply of that id, whose result is the described node.
fn write_reply(
    out: &mut NodeWriter,
    node: &ShownNode<'_>,
    levels: Option<u64>,
    id: u64,
) -> Result<(), AllocError>
    ensures ok { OnOk result (out.new.tokens ≡ out.old.tokens
        ++ data_tokens (message_with (message.Node id) (tree_data (described levels node.now)))) }
    ensures before { out.new.before ≡ out.old.before }
{
    NodeMessage::Node { id }.open(out)?;
    write_described(out, node, levels)?;
    NodeMessage::Node { id }.close(out)?;
    Ok(())
}

/// Appends the reply of that id, whose result is the node as it is described to so many levels.
pub(crate) fn tell_described(
    alloc: Global,
    node: &ShownNode<'_>,
    levels: Option<u64>,
    id: u64,
    out: &mut Vec<u8>,
) -> Result<(), AllocError>
    ensures { OnOk result (out.new.items ≡ out.old.items
        ++ frames_of_moves (replied id (node_body (described levels node.now)) ∷ [])) }
{
    let mut writer = NodeWriter::new(alloc, out);
    let written = write_reply(&mut writer, node, levels, id);
    writer.finish(written, out)
}
