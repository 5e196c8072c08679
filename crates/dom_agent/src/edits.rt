//! What an edit of the page is to a client, as events tell it.

ghost use Rattle.std.specs.Prelude.{◌≡◌, ◌<◌, ◌++◌, [], ◌∷◌, None, IsSome, IfOk, OnOk, option_map, unwrap_or};
ghost use Rattle.node_tree.specs.Numbers.{drawn_before_nodes};
ghost use Rattle.node_tree.specs.Nodes.{Nodes};
ghost use Rattle.page_tree.specs.Pages.{PageRow, find_in, parent_at};
ghost use Rattle.page_tree.specs.EditFaults.{first_fault};
ghost use Rattle.page_tree.specs.declared.edits.TreeEdit.TheVariants.{Detach};
ghost use Rattle.shown_pages.specs.ShownPages.{shown_page};
ghost use Rattle.shown_pages.specs.Walks.{serial_before};
ghost use Rattle.node_binding.specs.Bindings.{id_in};
ghost use Rattle.client_views.specs.Moves.{sets, drops, says, frames_of_moves};
ghost use Rattle.dom_agent.specs.Keepers.{binding_keeper};
ghost use Rattle.dom_agent.specs.Edits.{told_where_known, told_count, family, insertion, edited, event_frames};
ghost use Rattle.dom_agent.specs.Foresight.{came_below};

use crate::told::tell_inserted;
use cdp_messages::{Event, write_event};
use node_binding::Binding;
use page_tree::{Page, Text};
use shown_pages::{ShownNode, shown_before};
use std::alloc::{AllocError, Global};

/// Appends the event, if there is one.
pub(crate) fn tell(alloc: Global, event: Option<Event>, out: &mut Vec<u8>) -> Result<(), AllocError>
    ensures { OnOk result (out.new.items ≡ out.old.items ++ event_frames event) }
{
    let Some(event) = event else {
        return Ok(());
    };
    write_event(alloc, &event, out)?;
    Ok(())
}

// ---- the events of an edit that no node comes by

/// That the attribute of that name has that value, where the node is known.
pub(crate) fn attribute_set(
    alloc: Global,
    binding: &Binding,
    node: u64,
    name: &Text,
    value: &Text,
) -> Result<Option<Event>, AllocError>
    ensures { (n : Nodes PageRow) → IfOk result (λ event. event_frames event
        ≡ frames_of_moves (told_where_known (binding_keeper n) node (sets name.now value.now) binding.now)) }
{
    let Some(node) = binding.id_of(node) else {
        return Ok(None);
    };
    let name = Text::copied(alloc, name.as_str())?;
    let value = Text::copied(alloc, value.as_str())?;
    Ok(Some(Event::AttributeModified { node, name, value }))
}

/// That the attribute of that name is gone, where the node is known.
pub(crate) fn attribute_dropped(
    alloc: Global,
    binding: &Binding,
    node: u64,
    name: &Text,
) -> Result<Option<Event>, AllocError>
    ensures { (n : Nodes PageRow) → IfOk result (λ event. event_frames event
        ≡ frames_of_moves (told_where_known (binding_keeper n) node (drops name.now) binding.now)) }
{
    let Some(node) = binding.id_of(node) else {
        return Ok(None);
    };
    let name = Text::copied(alloc, name.as_str())?;
    Ok(Some(Event::AttributeRemoved { node, name }))
}

/// That the text or comment has that value, where it is known.
pub(crate) fn text_set(
    alloc: Global,
    binding: &Binding,
    node: u64,
    value: &Text,
) -> Result<Option<Event>, AllocError>
    ensures { (n : Nodes PageRow) → IfOk result (λ event. event_frames event
        ≡ frames_of_moves (told_where_known (binding_keeper n) node (says value.now) binding.now)) }
{
    let Some(node) = binding.id_of(node) else {
        return Ok(None);
    };
    let text = Text::copied(alloc, value.as_str())?;
    Ok(Some(Event::CharacterDataModified { node, text }))
}

// ---- a node that came

/// The number of the node's shown children, where it is known.
fn count_of_known(binding: &Binding, node: &ShownNode<'_>) -> Option<Event>
    ensures { (n : Nodes PageRow) → event_frames result
        ≡ frames_of_moves (told_count (binding_keeper n) node.now.row.serial node.now.children binding.now) }
{
    let id = binding.id_of(node.serial())?;
    let count = node.len() as u64;
    Some(Event::ChildNodeCountUpdated { node: id, count })
}

/// The id of the sibling before, of which its serial is given; 0 where there is none.
fn id_before(binding: &Binding, before: Option<u64>) -> u64
    ensures { result ≡ unwrap_or (option_map (id_in binding.now) before) 0 }
{
    let Some(serial) = before else {
        return 0;
    };
    binding.id_of(serial).unwrap_or(0)
}

/// Appends the event that tells the child of an opened parent, by the serial of the sibling before it.
fn tell_came(
    alloc: Global,
    binding: &Binding,
    parent: &ShownNode<'_>,
    before: Option<u64>,
    node: &ShownNode<'_>,
    out: &mut Vec<u8>,
) -> Result<(), AllocError>
    requires { before ≡ serial_before None node.now.row.serial parent.now.children }
    ensures { (n : Nodes PageRow) → OnOk result (out.new.items ≡ out.old.items ++ frames_of_moves
        (insertion (binding_keeper n) (family parent.now.row.serial node.now parent.now.children) binding.now ∷ [])) }
{
    let above = binding.id_of(parent.serial()).unwrap_or(0);
    let id = binding.id_of(node.serial()).unwrap_or(0);
    let previous = id_before(binding, before);
    tell_inserted(alloc, node, id, above, previous, out)
}

/// What the coming of a shown child of `parent` is to the client: below an opened parent it becomes known. Of its siblings only the
/// one before it is looked at, and the hidden texts between the two.
pub(crate) fn tell_child(
    alloc: Global,
    binding: &mut Binding,
    page: &Page,
    parent: u64,
    serial: u64,
    out: &mut Vec<u8>,
) -> Result<(), AllocError>
    requires parent { IsSome (find_in parent (shown_page binding.old.mode page.now).tree) }
    requires child { IsSome (find_in serial (shown_page binding.old.mode page.now).tree) }
    requires below { parent_at serial (shown_page binding.old.mode page.now).tree ≡ parent }
    requires room { binding.old.next < drawn_before_nodes }
    ensures known { (n : Nodes PageRow) → OnOk result (binding.new
        ≡ (came_below (binding_keeper n) parent serial (shown_page binding.old.mode page.now).tree binding.old).state) }
    ensures sent { (n : Nodes PageRow) → OnOk result (out.new.items ≡ out.old.items ++ frames_of_moves
        (came_below (binding_keeper n) parent serial (shown_page binding.old.mode page.now).tree binding.old).moves) }
{
    page.valid();
    let mode = binding.mode();
    let above = ShownNode::at(page, parent, mode);
    if !binding.is_opened(parent) {
        let event = count_of_known(binding, &above);
        tell(alloc, event, out)?;
        return Ok(());
    }
    let node = ShownNode::at(page, serial, mode);
    let before = shown_before(page, serial, mode);
    binding.bind_child(page, serial)?;
    tell_came(alloc, binding, &above, before, &node, out)?;
    Ok(())
}

// ---- a node that goes

/// What the going of a shown node that is no document is to the client, told by the page that still has it.
pub(crate) fn child_removed(binding: &Binding, page: &Page, serial: u64) -> Option<Event>
    requires { first_fault (Detach serial) (shown_page binding.now.mode page.now).tree ≡ None }
    ensures { (n : Nodes PageRow) → event_frames result ≡ frames_of_moves
        (edited (binding_keeper n) (Detach serial) (shown_page binding.now.mode page.now).tree binding.now).moves }
{
    page.valid();
    let parent = page.parent(serial);
    if binding.is_opened(parent) {
        let above = binding.id_of(parent).unwrap_or(0);
        let id = binding.id_of(serial).unwrap_or(0);
        return Some(Event::ChildNodeRemoved {
            parent: above,
            node: id,
        });
    }
    let Some(above) = binding.id_of(parent) else {
        return None;
    };
    let node = ShownNode::at(page, parent, binding.mode());
    let count = (node.len() - 1) as u64;
    Some(Event::ChildNodeCountUpdated { node: above, count })
}
