ghost use Rattle.std.specs.Prelude.{◌≡◌, ◌+◌, ◌<◌, ◌≤◌, ◌++◌, [], ◌∷◌, false, All, map, sum_by, OnOk};
ghost use Rattle.node_tree.specs.Numbers.{drawn_before_call, drawn_before_nodes, drawn_limit};
ghost use Rattle.node_tree.specs.Nodes.{Nodes, Branch, alone, node_count};
ghost use Rattle.page_tree.specs.Pages.{PageRow};
ghost use Rattle.shown_pages.specs.ShownPages.{shown_page};
ghost use Rattle.node_binding.specs.Openings.{is_spent};
ghost use Rattle.dom_agent.specs.Keepers.{binding_keeper};
ghost use Rattle.dom_agent.specs.Requests.{told_of, all_opened, frames_told, state_after, answer};
ghost use Rattle.dom_agent.specs.InCode.{further_pieces, document_asked};
ghost use Rattle.dom_agent.specs.Openings.{opening_of, IsOfContainer};

use crate::told::{tell_root, tell_shows};
use node_binding::{Binding, Opening, capped, deal_node};
use node_tree::MOST_TOLD;
use page_tree::Page;
use shown_pages::{Mode, ShownNode};
use std::alloc::{AllocError, Global};

/// Appends the event that tells the children of an opened node.
fn tell_children(
    alloc: Global,
    binding: &Binding,
    node: &ShownNode<'_>,
    out: &mut Vec<u8>,
) -> Result<(), AllocError>
    ensures { (n : Nodes PageRow) (document : Branch PageRow) → OnOk result (out.new.items
        ≡ out.old.items ++ frames_told (told_of (binding_keeper n) document node.now binding.now ∷ [])) }
{
    let parent = binding.id_of(node.serial()).unwrap_or(0);
    let mut walk = node.walk();
    tell_shows(alloc, binding, &mut walk, parent, out)
}

/// Opens one after the other, and appends for each the event that tells it.
pub(crate) fn open_all(
    alloc: Global,
    binding: &mut Binding,
    openings: &[Opening],
    out: &mut Vec<u8>,
) -> Result<(), AllocError>
    requires containers { All IsOfContainer (map opening_of openings.now) }
    requires room { binding.old.next + sum_by (λ x. node_count x.node.children) (map opening_of openings.now) < drawn_limit }
    ensures few { OnOk result
        (binding.new.next ≤ binding.old.next + sum_by (λ x. node_count x.node.children) (map opening_of openings.now)) }
    ensures known { (n : Nodes PageRow) (document : Branch PageRow) → OnOk result (binding.new
        ≡ (all_opened (binding_keeper n) document (map opening_of openings.now) binding.old).state) }
    ensures sent { (n : Nodes PageRow) (document : Branch PageRow) → OnOk result (out.new.items
        ≡ out.old.items ++ frames_told (all_opened (binding_keeper n) document (map opening_of openings.now) binding.old).shown) }
{
    for opening in openings {
        binding.open_tree(&opening.node, opening.levels)?;
        tell_children(alloc, binding, &opening.node, out)?;
    }
    Ok(())
}

/// Opens what is left of the document's levels behind its first piece, and appends for each piece the event that tells it.
fn open_pieces(
    alloc: Global,
    binding: &mut Binding,
    page: &Page,
    mode: Mode,
    levels: Option<u64>,
    out: &mut Vec<u8>,
) -> Result<(), AllocError>
    requires { binding.old.next < drawn_before_nodes }
    ensures known { OnOk result (binding.new ≡ (further_pieces (shown_page mode page.now).tree levels binding.old).state) }
    ensures sent { OnOk result
        (out.new.items ≡ out.old.items ++ frames_told (further_pieces (shown_page mode page.now).tree levels binding.old).shown) }
{
    page.valid();
    let document = ShownNode::document(page, mode);
    let mut openings = Vec::new(alloc);
    deal_node(&document, MOST_TOLD, levels, &mut openings)?;
    open_all(alloc, binding, &openings, out)?;
    Ok(())
}

/// Opens the document, as the binding's mode shows it, to these levels after a reset. Appends the reply that tells it to as many as
/// a message tells, and then for each further piece the event that tells it.
pub(crate) fn open_document(
    alloc: Global,
    binding: &mut Binding,
    page: &Page,
    levels: Option<u64>,
    id: u64,
    out: &mut Vec<u8>,
) -> Result<(), AllocError>
    requires left { is_spent levels ≡ false }
    requires room { binding.old.next < drawn_before_call }
    ensures known { OnOk result (binding.new ≡ state_after binding.old
        (document_asked (shown_page binding.old.mode page.now).tree levels binding.old)) }
    ensures sent { OnOk result (out.new.items ≡ out.old.items ++ answer id
        (document_asked (shown_page binding.old.mode page.now).tree levels binding.old)) }
{
    page.valid();
    let mode = binding.mode();
    let root = ShownNode::document(page, mode);
    binding.begin(page, capped(levels))?;
    tell_root(alloc, binding, &root, id, out)?;
    open_pieces(alloc, binding, page, mode, levels, out)?;
    Ok(())
}
