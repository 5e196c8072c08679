ghost use Rattle.std.specs.Prelude.{◌≡◌, nat_le};
ghost use Rattle.node_tree.specs.Nodes.{nodes_of, node_count, height, map_rows};
ghost use Rattle.node_tree.specs.Labels.{is_named_label};
ghost use Rattle.page_tree.specs.Forms.{are_named};
ghost use Rattle.page_tree.specs.Pages.{row_label};
ghost use Rattle.page_tree.specs.NodesLeft.{nodes_left};

use crate::limits::{has_good_name, have_good_names};
use crate::trees::Tree;

/// The trees have no more than so many levels.
pub fn are_trees_within(trees: &[Tree], levels: u64) -> bool
    ensures { result ≡ nat_le (height (nodes_of trees.now)) levels }
{
    for tree in trees {
        if levels == 0 {
            return false;
        }
        if !are_trees_within(&tree.children, levels - 1) {
            return false;
        }
    }
    true
}

/// How much of the room for nodes is left beside the trees; none where they are more.
pub fn room_beside_trees(trees: &[Tree], room: usize) -> Option<usize>
    ensures { result ≡ nodes_left (node_count (nodes_of trees.now)) room }
{
    let mut left = room;
    for tree in trees {
        if left == 0 {
            return None;
        }
        let Some(rest) = room_beside_trees(&tree.children, left - 1) else {
            return None;
        };
        left = rest;
    }
    Some(left)
}

fn is_tree_named(tree: &Tree) -> bool
    ensures { result ≡ is_named_label tree.now.row.label }
{
    has_good_name(tree.kind, tree.name.as_str()) && have_good_names(&tree.attributes)
}

/// All names have their forms.
pub fn are_trees_named(trees: &[Tree]) -> bool
    ensures { result ≡ are_named (map_rows row_label (nodes_of trees.now)) }
{
    for tree in trees {
        if !is_tree_named(tree) {
            return false;
        }
        if !are_trees_named(&tree.children) {
            return false;
        }
    }
    true
}
