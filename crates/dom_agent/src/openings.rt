ghost use Rattle.std.specs.Prelude.{◌≡◌, ◌++◌, map, option_map, is_some, cond, Option, Some, None, IsSome, IfOk, OnOk};
ghost use Rattle.node_tree.specs.Nodes.{alone};
ghost use Rattle.node_tree.specs.Keys.{has};
ghost use Rattle.page_tree.specs.Pages.{row_serial, find_in, node_at};
ghost use Rattle.shown_pages.specs.ShownPages.{shown_page};
ghost use Rattle.page_tree.specs.Zippers.{ancestors, zipper_at};
ghost use Rattle.dom_agent.specs.Climbs.{unopened_at, up_openings};
ghost use Rattle.node_binding.specs.Bindings.{opened_in};
ghost use Rattle.dom_agent.specs.Requests.{requested, pushing};
ghost use Rattle.dom_agent.specs.Openings.{opening_of};

use node_binding::{Binding, Opening, deal_node, is_reached, less};
use page_tree::Page;
use shown_pages::{Mode, ShownNode, Walk};
use std::alloc::{AllocError, Global};

/// Appends what a request for this node opens, in document order: the containers at and below it that are not opened
/// themselves and stand below opened ones alone, by the levels that are left there, in pieces of as many as a message tells.
#[cycle(request)]
pub(crate) fn request_node<'a>(
    binding: &Binding,
    node: &ShownNode<'a>,
    levels: Option<u64>,
    openings: &mut Vec<Opening<'a>>,
) -> Result<(), AllocError>
    ensures { OnOk result (map opening_of openings.new.items
        ≡ map opening_of openings.old.items ++ requested (opened_in binding.now) levels (alone node.now)) }
{
    if !is_reached(node.kind(), levels) {
        return Ok(());
    }
    if !binding.is_opened(node.serial()) {
        deal_node(node, 0, levels, openings)?;
        return Ok(());
    }
    let left = less(levels);
    let mut walk = node.walk();
    request_children(binding, &mut walk, left, openings)?;
    Ok(())
}

#[cycle(request)]
fn request_children<'a>(
    binding: &Binding,
    walk: &mut Walk<'a>,
    levels: Option<u64>,
    openings: &mut Vec<Opening<'a>>,
) -> Result<(), AllocError>
    ensures { OnOk result (map opening_of openings.new.items
        ≡ map opening_of openings.old.items ++ requested (opened_in binding.now) levels walk.old) }
{
    while let Some(node) = walk.next() {
        request_node(binding, &node, levels, openings)?;
    }
    Ok(())
}

/// Appends the opening of a node by one level, if it is not opened.
fn add_unopened<'a>(
    binding: &Binding,
    page: &'a Page,
    mode: Mode,
    serial: u64,
    openings: &mut Vec<Opening<'a>>,
) -> Result<(), AllocError>
    requires { IsSome (find_in serial (shown_page mode page.now).tree) }
    ensures { OnOk result (map opening_of openings.new.items ≡ map opening_of openings.old.items
        ++ unopened_at (opened_in binding.now) serial (node_at serial (shown_page mode page.now).tree)) }
{
    if binding.is_opened(serial) {
        return Ok(());
    }
    openings.push(Opening {
        levels: Some(1),
        node: ShownNode::at(page, serial, mode),
    })?;
    Ok(())
}

/// Appends the ancestors of the shown node with that serial that are not opened, from the bottom up, each with one level. What
/// stands above a shown node is shown.
fn climb<'a>(
    binding: &Binding,
    page: &'a Page,
    mode: Mode,
    serial: u64,
    openings: &mut Vec<Opening<'a>>,
) -> Result<(), AllocError>
    requires { IsSome (find_in serial (shown_page mode page.now).tree) }
    ensures { OnOk result (map opening_of openings.new.items ≡ map opening_of openings.old.items
        ++ up_openings (opened_in binding.now) (ancestors (zipper_at serial (shown_page mode page.now).tree))) }
{
    page.valid();
    let mut at = page.parent(serial);
    while at != 0 {
        add_unopened(binding, page, mode, at, openings)?;
        let above = page.parent(at);
        at = above;
    }
    Ok(())
}

/// The mode shows a node with that serial.
fn has_shown(page: &Page, serial: u64, mode: Mode) -> bool
    ensures { result ≡ is_some (find_in serial (shown_page mode page.now).tree) }
{
    ShownNode::find(page, serial, mode).is_some()
}

/// What a push of the node with that serial opens, from the top down; `None` where no shown node has it.
pub(crate) fn openings_above<'a>(
    alloc: Global,
    binding: &Binding,
    page: &'a Page,
    mode: Mode,
    serial: u64,
) -> Result<Option<Vec<Opening<'a>>>, AllocError>
    ensures { IfOk result (λ openings. option_map (λ v. map opening_of v.items) openings
        ≡ cond (has row_serial serial (alone (shown_page mode page.now).tree))
        (Some (pushing (opened_in binding.now) serial (alone (shown_page mode page.now).tree))) None) }
{
    page.valid();
    if !has_shown(page, serial, mode) {
        return Ok(None);
    }
    let mut openings = Vec::new(alloc);
    climb(binding, page, mode, serial, &mut openings)?;
    openings.reverse();
    Ok(Some(openings))
}
