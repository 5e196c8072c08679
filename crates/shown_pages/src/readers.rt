//! What is shown of a page, by serial. No call takes memory.

ghost use Rattle.std.specs.Prelude.{◌≡◌, ◌<◌, is_some, option_map, None, Some, IsSome};
ghost use Rattle.node_tree.specs.Nodes.{width, tree_at};
ghost use Rattle.page_tree.specs.Pages.{find_in, node_at, parent_at};
ghost use Rattle.page_tree.specs.Edits.{children_at};
ghost use Rattle.shown_pages.specs.ShownPages.{shown_nodes, shown_page};
ghost use Rattle.shown_pages.specs.Walks.{serial_before, first_shown};

use crate::cursors::ShownNode;
use crate::laws::shown_law;
use crate::modes::{Mode, is_hidden};
use page_tree::{NodeRef, Page};

/// The mode shows the node.
pub fn is_shown(page: &Page, serial: u64, mode: Mode) -> bool
    requires { IsSome (find_in serial page.now.tree) }
    ensures { result ≡ is_some (find_in serial (shown_page mode page.now).tree) }
{
    ShownNode::find(page, serial, mode).is_some()
}

/// How many of the node's children the mode shows.
pub fn shown_len(page: &Page, serial: u64, mode: Mode) -> usize
    requires { IsSome (find_in serial page.now.tree) }
    ensures { result ≡ width (shown_nodes mode (node_at serial page.now.tree).children) }
{
    ShownNode::of(page.node(serial), mode).len()
}

/// The serial of the node's shown child at place `i` among the shown ones, counted from 0.
pub fn shown_at(page: &Page, serial: u64, i: usize, mode: Mode) -> u64
    requires live { IsSome (find_in serial page.now.tree) }
    requires in_range { i < width (shown_nodes mode (node_at serial page.now.tree).children) }
    ensures { option_map (λ b. b.row.serial) (tree_at i (shown_nodes mode (node_at serial page.now.tree).children))
        ≡ Some result }
{
    match ShownNode::of(page.node(serial), mode).child_at(i) {
        Some(child) => child.serial(),
        None => unreachable!(),
    }
}

/// The serial of the nearest sibling before the node that is shown.
fn nearest_shown(node: &NodeRef<'_>, mode: Mode) -> Option<u64>
    ensures { result ≡ first_shown mode node.now.before }
{
    let mut at = node.previous_sibling();
    while let Some(other) = at {
        if !mode.hides(other.kind(), other.value()) {
            return Some(other.serial());
        }
        at = other.previous_sibling();
    }
    None
}

/// The serial of the shown sibling right before a shown node that is no document; `None` where the node is the first shown child of
/// its parent. No other sibling is looked at but the hidden texts between the two.
pub fn shown_before(page: &Page, serial: u64, mode: Mode) -> Option<u64>
    requires child { IsSome (find_in serial (shown_page mode page.now).tree) }
    requires parent { IsSome (find_in (parent_at serial (shown_page mode page.now).tree) (shown_page mode page.now).tree) }
    ensures { result ≡ serial_before None serial
        (children_at (parent_at serial (shown_page mode page.now).tree) (shown_page mode page.now).tree) }
{
    page.valid();
    shown_law();
    nearest_shown(&page.node_ref(serial), mode)
}
