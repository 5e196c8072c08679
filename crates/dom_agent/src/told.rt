//! Nodes of the page, as they are shown and cut to what is known of them, in messages that are written straight from the page.

ghost use Rattle.std.specs.Prelude.{◌≡◌, ◌++◌, [], ◌∷◌, codes, false, cond, OnOk};
ghost use Rattle.serde_json.specs.Data.{array};
ghost use Rattle.node_tree.specs.Nodes.{width};
ghost use Rattle.node_tree.specs.Labels.{holds};
ghost use Rattle.node_binding.specs.Cuts.{opens, cut};
ghost use Rattle.node_binding.specs.Bindings.{opened_in, id_in};
ghost use Rattle.dom_objects.specs.Told.{told_nodes, told_branch, hold_of};
ghost use Rattle.dom_objects.specs.NodeObject.{only_if};
ghost use Rattle.dom_objects.specs.NodeData.{tree_items, tree_data};
ghost use Rattle.dom_objects.specs.Tokens.{data_tokens, field_tokens};
ghost use Rattle.dom_objects.specs.NodeRows.{told_by};
ghost use Rattle.cdp_messages.specs.NodeWrites.{message_with};
ghost use Rattle.client_views.specs.Moves.{shows, inserts, change, root, frames_of_moves};
ghost use Rattle.cdp_messages.specs.declared.node_message.NodeMessage.TheVariants as message;
ghost use Rattle.dom_agent.specs.Requests.{shown};
ghost use Rattle.dom_agent.specs.Edits.{unopened};

use cdp_messages::NodeMessage;
use dom_objects::{NodeRow, NodeWriter};
use node_binding::Binding;
use shown_pages::{ShownNode, Walk};
use std::alloc::{AllocError, Global};

/// The number of its shown children, 0 for what can have none.
fn count_of(node: &ShownNode<'_>) -> u64
    ensures { result ≡ cond (holds node.now.row.label.kind) (width node.now.children) 0 }
{
    if !node.kind().is_container() {
        return 0;
    }
    node.len() as u64
}

/// Whether the children of the node are shown.
fn is_opened(binding: &Binding, node: &ShownNode<'_>) -> bool
    ensures { result ≡ opens (opened_in binding.now) node.now.row }
{
    node.kind().is_container() && binding.is_opened(node.serial())
}

// ---- a node

/// A node of that id with what is known of it alone, as a child of the node with the id `parent`.
pub(crate) fn node_row<'a>(node: &ShownNode<'a>, id: u64, parent: u64) -> NodeRow<'a>
    ensures { told_by result ≡ record {
      parent = parent;
      count = cond (holds node.now.row.label.kind) (width node.now.children) 0;
      seen = record {
        id = id;
        serial = node.now.row.serial;
        label = node.now.row.label;
        hold = hold_of false (holds node.now.row.label.kind) (cond (holds node.now.row.label.kind) (width node.now.children) 0);
      };
    } }
{
    NodeRow {
        id,
        serial: node.serial(),
        parent,
        kind: node.kind(),
        name: node.name(),
        value: node.value(),
        attributes: node.attributes(),
        count: count_of(node),
    }
}

/// A node as it is shown, as a child of the node with the id `parent`.
#[cycle(write_shown)]
fn write_shown(
    out: &mut NodeWriter,
    binding: &Binding,
    node: &ShownNode<'_>,
    parent: u64,
) -> Result<(), AllocError>
    ensures ok { OnOk result (out.new.tokens ≡ out.old.tokens
        ++ data_tokens (tree_data (told_branch parent (shown (opened_in binding.now) (id_in binding.now) node.now)))) }
    ensures before { out.new.before ≡ out.old.before }
{
    let id = binding.id_of(node.serial()).unwrap_or(0);
    let row = node_row(node, id, parent);
    out.head(&row)?;
    write_opened(out, binding, node, id)?;
    out.tail(&row)?;
    Ok(())
}

/// The children of a node of that id, where it is opened.
#[cycle(write_shown)]
fn write_opened(
    out: &mut NodeWriter,
    binding: &Binding,
    node: &ShownNode<'_>,
    id: u64,
) -> Result<(), AllocError>
    ensures ok { OnOk result (out.new.tokens ≡ out.old.tokens
        ++ field_tokens (codes "children") (only_if (opens (opened_in binding.now) node.now.row)
        (array (tree_items (told_nodes id (cut (opened_in binding.now) (id_in binding.now) node.now.children)))))) }
    ensures before { out.new.before ≡ out.old.before }
{
    if !is_opened(binding, node) {
        return Ok(());
    }
    out.children()?;
    let mut walk = node.walk();
    write_children(out, binding, &mut walk, id)?;
    Ok(())
}

/// The children of the node of the id `parent`.
#[cycle(write_shown)]
fn write_children(
    out: &mut NodeWriter,
    binding: &Binding,
    walk: &mut Walk<'_>,
    parent: u64,
) -> Result<(), AllocError>
    ensures ok { OnOk result (out.new.tokens ≡ out.old.tokens
        ++ data_tokens (array (tree_items (told_nodes parent (cut (opened_in binding.now) (id_in binding.now) walk.old))))) }
    ensures before { out.new.before ≡ out.old.before }
{
    out.begin_nodes()?;
    while let Some(child) = walk.next() {
        write_shown(out, binding, &child, parent)?;
    }
    out.end_nodes()?;
    Ok(())
}

/// A node of which nothing is shown below it.
fn write_unopened(
    out: &mut NodeWriter,
    node: &ShownNode<'_>,
    id: u64,
    parent: u64,
) -> Result<(), AllocError>
    ensures ok { OnOk result (out.new.tokens ≡ out.old.tokens
        ++ data_tokens (tree_data (told_branch parent (unopened id node.now)))) }
    ensures before { out.new.before ≡ out.old.before }
{
    let row = node_row(node, id, parent);
    out.head(&row)?;
    out.tail(&row)?;
    Ok(())
}

// ---- messages

/// The reply of that id, whose result is the document.
fn write_root(
    out: &mut NodeWriter,
    binding: &Binding,
    document: &ShownNode<'_>,
    id: u64,
) -> Result<(), AllocError>
    ensures ok { OnOk result (out.new.tokens ≡ out.old.tokens ++ data_tokens
        (message_with (message.Root id) (tree_data (told_branch 0 (shown (opened_in binding.now) (id_in binding.now) document.now))))) }
    ensures before { out.new.before ≡ out.old.before }
{
    NodeMessage::Root { id }.open(out)?;
    write_shown(out, binding, document, 0)?;
    NodeMessage::Root { id }.close(out)?;
    Ok(())
}

/// Appends the reply of that id, whose result is the document.
pub(crate) fn tell_root(
    alloc: Global,
    binding: &Binding,
    document: &ShownNode<'_>,
    id: u64,
    out: &mut Vec<u8>,
) -> Result<(), AllocError>
    ensures { OnOk result (out.new.items ≡ out.old.items
        ++ frames_of_moves (root id (shown (opened_in binding.now) (id_in binding.now) document.now) ∷ [])) }
{
    let mut writer = NodeWriter::new(alloc, out);
    let written = write_root(&mut writer, binding, document, id);
    writer.finish(written, out)
}

/// The event that tells the children of the node of the id `parent`.
fn write_shows(
    out: &mut NodeWriter,
    binding: &Binding,
    walk: &mut Walk<'_>,
    parent: u64,
) -> Result<(), AllocError>
    ensures ok { OnOk result (out.new.tokens ≡ out.old.tokens ++ data_tokens (message_with (message.Children parent)
        (array (tree_items (told_nodes parent (cut (opened_in binding.now) (id_in binding.now) walk.old)))))) }
    ensures before { out.new.before ≡ out.old.before }
{
    NodeMessage::Children { parent }.open(out)?;
    write_children(out, binding, walk, parent)?;
    NodeMessage::Children { parent }.close(out)?;
    Ok(())
}

/// Appends the event that tells the children of the node of the id `parent`.
pub(crate) fn tell_shows(
    alloc: Global,
    binding: &Binding,
    walk: &mut Walk<'_>,
    parent: u64,
    out: &mut Vec<u8>,
) -> Result<(), AllocError>
    ensures { OnOk result (out.new.items ≡ out.old.items
        ++ frames_of_moves (change parent (shows (cut (opened_in binding.now) (id_in binding.now) walk.old)) ∷ [])) }
{
    let mut writer = NodeWriter::new(alloc, out);
    let written = write_shows(&mut writer, binding, walk, parent);
    writer.finish(written, out)
}

/// The event that the node of the id `parent` has got this node as a child.
fn write_inserted(
    out: &mut NodeWriter,
    node: &ShownNode<'_>,
    id: u64,
    parent: u64,
    previous: u64,
) -> Result<(), AllocError>
    ensures ok { OnOk result (out.new.tokens ≡ out.old.tokens ++ data_tokens
        (message_with (message.Inserted parent previous) (tree_data (told_branch parent (unopened id node.now))))) }
    ensures before { out.new.before ≡ out.old.before }
{
    NodeMessage::Inserted { parent, previous }.open(out)?;
    write_unopened(out, node, id, parent)?;
    NodeMessage::Inserted { parent, previous }.close(out)?;
    Ok(())
}

/// Appends the event that the node of the id `parent` has got this node of the id `id` as a child, unopened, behind its child
/// of the id `previous`.
pub(crate) fn tell_inserted(
    alloc: Global,
    node: &ShownNode<'_>,
    id: u64,
    parent: u64,
    previous: u64,
    out: &mut Vec<u8>,
) -> Result<(), AllocError>
    ensures { OnOk result (out.new.items ≡ out.old.items
        ++ frames_of_moves (change parent (inserts previous (unopened id node.now)) ∷ [])) }
{
    let mut writer = NodeWriter::new(alloc, out);
    let written = write_inserted(&mut writer, node, id, parent, previous);
    writer.finish(written, out)
}
