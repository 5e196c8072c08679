ghost use Rattle.std.specs.Prelude.{◌≤◌, ◌+◌, ◌≡◌, ◌<◌, ◌++◌, cond, IfOk, OnOk};
ghost use Rattle.node_tree.specs.Numbers.{drawn_before_nodes, drawn_by_push};
ghost use Rattle.node_tree.specs.Nodes.{alone};
ghost use Rattle.node_tree.specs.Keys.{has};
ghost use Rattle.page_tree.specs.Pages.{row_serial};
ghost use Rattle.shown_pages.specs.ShownPages.{shown_page};
ghost use Rattle.node_binding.specs.Bindings.{id_in};
ghost use Rattle.dom_agent.specs.Requests.{frames_told};
ghost use Rattle.dom_agent.specs.InCode.{node_pushed, nodes_pushed};

use crate::openings::openings_above;
use crate::serving::open_all;
use node_binding::Binding;
use page_tree::Page;
use shown_pages::Mode;
use std::alloc::{AllocError, Global};

/// Opens each ancestor of the node that is not opened yet, from the top down, and appends an event for each. Says whether
/// the node is shown; where it is not, nothing is opened.
pub(crate) fn open_above(
    alloc: Global,
    binding: &mut Binding,
    page: &Page,
    mode: Mode,
    serial: u64,
    out: &mut Vec<u8>,
) -> Result<bool, AllocError>
    requires { binding.old.next < drawn_before_nodes }
    ensures few { OnOk result (binding.new.next ≤ binding.old.next + drawn_by_push) }
    ensures there { IfOk result (λ there. there ≡ has row_serial serial (alone (shown_page mode page.now).tree)) }
    ensures known { OnOk result (binding.new
        ≡ (node_pushed (shown_page mode page.now).tree serial binding.old).state) }
    ensures sent { OnOk result (out.new.items
        ≡ out.old.items ++ frames_told (node_pushed (shown_page mode page.now).tree serial binding.old).shown) }
{
    page.valid();
    let Some(openings) = openings_above(alloc, binding, page, mode, serial)? else {
        return Ok(false);
    };
    open_all(alloc, binding, &openings, out)?;
    Ok(true)
}

/// Gives the id of the node, and 0 where it is not shown.
fn push_if_there(
    alloc: Global,
    binding: &mut Binding,
    page: &Page,
    mode: Mode,
    serial: u64,
    out: &mut Vec<u8>,
) -> Result<u64, AllocError>
    requires { binding.old.next < drawn_before_nodes }
    ensures id { IfOk result
        (λ id. id ≡ cond (has row_serial serial (alone (shown_page mode page.now).tree)) (id_in binding.new serial) 0) }
    ensures known { OnOk result (binding.new
        ≡ (node_pushed (shown_page mode page.now).tree serial binding.old).state) }
    ensures sent { OnOk result (out.new.items
        ≡ out.old.items ++ frames_told (node_pushed (shown_page mode page.now).tree serial binding.old).shown) }
{
    if !open_above(alloc, binding, page, mode, serial, out)? {
        return Ok(0);
    }
    Ok(binding.id_of(serial).unwrap_or(0))
}

/// Pushes the nodes in turn, and gives their ids.
pub(crate) fn push_all(
    alloc: Global,
    binding: &mut Binding,
    page: &Page,
    mode: Mode,
    serials: &[u64],
    out: &mut Vec<u8>,
) -> Result<Vec<u64>, AllocError>
    requires few { (nodes_pushed (shown_page mode page.now).tree serials.now binding.old).progress.state.next < drawn_before_nodes }
    ensures ids { IfOk result (λ ids. ids.items
        ≡ (nodes_pushed (shown_page mode page.now).tree serials.now binding.old).ids) }
    ensures known { OnOk result (binding.new
        ≡ (nodes_pushed (shown_page mode page.now).tree serials.now binding.old).progress.state) }
    ensures sent { OnOk result (out.new.items ≡ out.old.items
        ++ frames_told (nodes_pushed (shown_page mode page.now).tree serials.now binding.old).progress.shown) }
{
    let mut ids = Vec::new(alloc);
    for serial in serials {
        let id = push_if_there(alloc, binding, page, mode, *serial, out)?;
        ids.push(id)?;
    }
    Ok(ids)
}
