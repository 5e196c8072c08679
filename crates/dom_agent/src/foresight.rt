//! An edit of the page for one client, in two parts: what it will be, seen by the page before it, and what is told of it, by the page
//! after it. Between them the page makes the edit, once for all the clients that see it.

ghost use Rattle.std.specs.Prelude.{◌≡◌, ◌<◌, ◌++◌, Some, None, IfOk, OnOk};
ghost use Rattle.node_tree.specs.Numbers.{drawn_before_nodes};
ghost use Rattle.page_tree.specs.EditFaults.{first_fault, IsReady};
ghost use Rattle.page_tree.specs.declared.edits.TreeEdit.TheVariants.{SetText, Detach};
ghost use Rattle.shown_pages.specs.ShownPages.{shown_page};
ghost use Rattle.shown_pages.specs.ShownEdits.{shown_edit};
ghost use Rattle.dom_agent.specs.declared.foresight.Foreseen.TheVariants.{Tells};
ghost use Rattle.dom_agent.specs.Foresight.{IsForeseen, IsAttachForeseen, HasCome, kept_after, frames_after};

use crate::edits::{attribute_dropped, attribute_set, child_removed, tell, tell_child, text_set};
use cdp_messages::Event;
use node_binding::Binding;
use page_tree::{Page, Text, Tree, TreeEdit};
use shown_pages::{Mode, TextSight, is_hidden, text_sight};
use std::alloc::{AllocError, Global};

/// What an edit will be for a client.
#[derive(Drop)]
pub(crate) enum Foreseen {
    /// This event, if there is one. Where a node goes, its ids are forgotten already.
    Tells(Option<Event>),
    /// The coming of a shown node below the parent of that serial.
    Comes { parent: u64, serial: u64 },
}

/// What an edit that the page takes will be for the client of that binding, by the page before it.
pub(crate) fn foresee(
    alloc: Global,
    binding: &mut Binding,
    page: &Page,
    edit: &TreeEdit,
) -> Result<Foreseen, AllocError>
    requires fits { first_fault edit.now page.now.tree ≡ None }
    requires ready { IsReady page.now.next edit.now page.now.tree }
    ensures { IfOk result (λ f. IsForeseen f (shown_edit binding.old.mode edit.now page.now.tree)
        (shown_page binding.old.mode page.now) binding.old binding.new) }
{
    match edit {
        TreeEdit::SetAttr { node, name, value } => {
            let event = attribute_set(alloc, binding, *node, name, value)?;
            Ok(Foreseen::Tells(event))
        }
        TreeEdit::DropAttr { node, name } => {
            let event = attribute_dropped(alloc, binding, *node, name)?;
            Ok(Foreseen::Tells(event))
        }
        TreeEdit::SetText { node, value } => foresee_text(alloc, binding, page, *node, value),
        TreeEdit::Attach {
            parent,
            before: _,
            tree,
        } => Ok(foresee_attach(binding.mode(), *parent, tree)),
        TreeEdit::Detach { node } => Ok(foresee_detach(binding, page, *node)),
    }
}

/// A text is set: a node that shows itself comes, and one that hides itself goes.
fn foresee_text(
    alloc: Global,
    binding: &mut Binding,
    page: &Page,
    node: u64,
    value: &Text,
) -> Result<Foreseen, AllocError>
    requires { first_fault (SetText node value.now) page.now.tree ≡ None }
    ensures { IfOk result (λ f. IsForeseen f (shown_edit binding.old.mode (SetText node value.now) page.now.tree)
        (shown_page binding.old.mode page.now) binding.old binding.new) }
{
    page.valid();
    match text_sight(page, node, value.as_str(), binding.mode()) {
        TextSight::Unseen => Ok(Foreseen::Tells(None)),
        TextSight::Comes => {
            let parent = page.parent(node);
            Ok(Foreseen::Comes {
                parent,
                serial: node,
            })
        }
        TextSight::Goes => Ok(Foreseen::Tells(forget(binding, page, node))),
        TextSight::Stays => {
            let event = text_set(alloc, binding, node, value)?;
            Ok(Foreseen::Tells(event))
        }
    }
}

/// A tree is put below a parent: what is hidden does not come.
fn foresee_attach(mode: Mode, parent: u64, tree: &Tree) -> Foreseen
    ensures { IsAttachForeseen result mode parent tree.now }
{
    if mode.hides(tree.kind, tree.value.as_str()) {
        return Foreseen::Tells(None);
    }
    Foreseen::Comes {
        parent,
        serial: tree.serial,
    }
}

/// A node goes with all below it: what is hidden was never there.
fn foresee_detach(binding: &mut Binding, page: &Page, node: u64) -> Foreseen
    requires { first_fault (Detach node) page.now.tree ≡ None }
    ensures { IsForeseen result (shown_edit binding.old.mode (Detach node) page.now.tree)
        (shown_page binding.old.mode page.now) binding.old binding.new }
{
    page.valid();
    if is_hidden(&page.node(node), binding.mode()) {
        return Foreseen::Tells(None);
    }
    Foreseen::Tells(forget(binding, page, node))
}

/// Forgets a shown node that goes, and gives the event that will tell it.
fn forget(binding: &mut Binding, page: &Page, node: u64) -> Option<Event>
    requires { first_fault (Detach node) (shown_page binding.old.mode page.now).tree ≡ None }
    ensures { IsForeseen (Tells result) (Some (Detach node)) (shown_page binding.old.mode page.now) binding.old binding.new }
{
    page.valid();
    let event = child_removed(binding, page, node);
    binding.forget_subtree(page, node);
    event
}

/// Appends what tells the edit that was foreseen, by the page after it. A shown node that came below an opened parent becomes known.
pub(crate) fn tell_foreseen(
    alloc: Global,
    binding: &mut Binding,
    page: &Page,
    foreseen: Foreseen,
    out: &mut Vec<u8>,
) -> Result<(), AllocError>
    requires came { HasCome foreseen (shown_page binding.old.mode page.now).tree }
    requires room { binding.old.next < drawn_before_nodes }
    ensures known { OnOk result
        (binding.new ≡ kept_after foreseen (shown_page binding.old.mode page.now).tree binding.old) }
    ensures sent { OnOk result
        (out.new.items ≡ out.old.items ++ frames_after foreseen (shown_page binding.old.mode page.now).tree binding.old) }
{
    match foreseen {
        Foreseen::Tells(event) => tell(alloc, event, out),
        Foreseen::Comes { parent, serial } => {
            tell_child(alloc, binding, page, parent, serial, out)
        }
    }
}
