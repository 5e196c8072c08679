// How many known nodes stand at and below each, kept in a map by their ids.
ghost use Rattle.std.specs.Prelude.{◌≡◌, ◌==◌, ◌+◌, ◌<◌, ℕ, Some, None, IsSome, IfSome, IfOk, OnOk, true, false};
ghost use Rattle.std.specs.FinMap as map;
ghost use Rattle.node_tree.specs.Nodes.{Nodes, Branch, nodes_of, node_count};
ghost use Rattle.node_tree.specs.Numbers.{number_limit};
ghost use Rattle.node_tree.specs.Keys.{At, find, parent_of, spot};
ghost use Rattle.node_tree.specs.Seen.{Seen, seen_id};
ghost use Rattle.client_views.specs.Views.{is_in, keys};
ghost use Rattle.front_mirror.specs.Shown.{shown_of};
ghost use Rattle.front_mirror.specs.Edits.{edit_change, edit_told, fits_edit, spot_fault, with_changed};
ghost use Rattle.front_mirror.specs.Tables.{KeepsMirror, tree_in};
ghost use Rattle.front_mirror.specs.Sizes.{BecomesOn, HasLowIds, HasRoomUpTo, IsCounted, noted, on_path, shifted, leaving_trees};

use crate::checks::MOST_LEVELS;
use crate::child_ids::ChildIds;
use crate::edits::NodeChange;
use crate::table::Table;
use crate::told::children_of;
use dom_objects::NodeTree;
use number_map::NumberMap;
use std::alloc::{AllocError, Global};

/// Notes how many nodes stand at and below each of these, and tells how many they are.
#[tactic(auto, using(crate::proofs::ToldLemmas::node_count_below))]
pub(crate) fn note_all(counts: &mut NumberMap, nodes: &[NodeTree]) -> Result<u64, AllocError>
    requires few { node_count (nodes_of nodes.now) < number_limit }
    ensures count { IfOk result (λ count. count ≡ node_count (nodes_of nodes.now)) }
    ensures notes { OnOk result (map.get counts.new ≡ noted seen_id (shown_of nodes.now) (map.get counts.old)) }
{
    let mut count: u64 = 0;
    for node in nodes {
        let own = note_all(counts, children_of(node))? + 1;
        counts.insert(node.id, own)?;
        count += own;
    }
    Ok(count)
}

/// The number of one node grows by so many, and then falls by so many.
fn shift_one(counts: &mut NumberMap, id: u64, more: u64, fewer: u64) -> Result<(), AllocError>
    requires few { IfSome (map.get counts.old id) (λ count. count + more < number_limit) }
    ensures { OnOk result (BecomesOn (λ k. id == k) (shifted more fewer) (map.get counts.old) (map.get counts.new)) }
{
    let Some(count) = counts.get(id) else {
        return Ok(());
    };
    counts.insert(id, (count + more).saturating_sub(fewer))?;
    Ok(())
}

/// The id of the parent of a known node, 0 for the document.
fn parent_in(table: &Table, roots: &ChildIds, id: u64) -> u64
    requires kept { KeepsMirror table.now roots.now }
    requires known { IsSome (find seen_id id (tree_in table.now roots.now)) }
    ensures { Some result ≡ parent_of seen_id id 0 (tree_in table.now roots.now) }
{
    let _ = roots;
    let Some(slot) = table.get(id) else {
        unreachable!()
    };
    slot.parent.unwrap_or(0)
}

/// The numbers of a node and of all above it grow by so many, and then fall by so many.
fn shift_up(
    counts: &mut NumberMap,
    table: &Table,
    roots: &ChildIds,
    id: u64,
    more: u64,
    fewer: u64,
) -> Result<(), AllocError>
    requires kept { KeepsMirror table.now roots.now }
    requires known { IsSome (find seen_id id (tree_in table.now roots.now)) }
    requires few { HasRoomUpTo id more (map.get counts.old) (tree_in table.now roots.now) }
    ensures { (b : Branch Seen) (depth : ℕ) (m : Nodes Seen) (e : At b b depth (tree_in table.now roots.now) m) → b.row.id ≡ id
        → OnOk result (BecomesOn (λ k. on_path seen_id k e) (shifted more fewer) (map.get counts.old) (map.get counts.new)) }
{
    shift_one(counts, id, more, fewer)?;
    let parent = parent_in(table, roots, id);
    if parent == 0 {
        return Ok(());
    }
    match shift_up(counts, table, roots, parent, more, fewer) {
        Ok(()) => Ok(()),
        Err(e) => Err(e),
    }
}

/// The ids of the nodes that leave with an edit.
fn leaving(alloc: Global, table: &Table, edit: &NodeChange) -> Result<Vec<u64>, AllocError>
    ensures { IfOk result (λ ids. ids.items ≡ keys seen_id (leaving_trees table.now edit.now)) }
{
    let mut ids = Vec::new(alloc);
    if let NodeChange::Remove(child) = edit {
        table.list_one(*child, MOST_LEVELS - 1, &mut ids)?;
    }
    Ok(ids)
}

/// Takes the numbers of these ids out.
pub(crate) fn forget(counts: &mut NumberMap, ids: &[u64])
    ensures { (k : ℕ) → is_in k ids.now ≡ false → map.get counts.new k ≡ map.get counts.old k }
{
    for id in ids {
        counts.remove(*id);
    }
}

/// The numbers after an edit that nothing is wrong with, while the table is as before.
pub(crate) fn recount(
    alloc: Global,
    counts: &mut NumberMap,
    table: &Table,
    roots: &ChildIds,
    id: u64,
    edit: &NodeChange,
) -> Result<(), AllocError>
    requires kept { KeepsMirror table.now roots.now }
    requires fits { fits_edit edit.now ≡ true }
    requires clear { spot_fault (tree_in table.now roots.now) (edit_told id edit.now) (spot seen_id id 0 (tree_in table.now roots.now))
        ≡ None }
    requires counted { IsCounted seen_id (map.get counts.old) (tree_in table.now roots.now) }
    requires low { HasLowIds (tree_in table.now roots.now) }
    ensures { OnOk result (IsCounted seen_id (map.get counts.new) (with_changed id (edit_change edit.now) (tree_in table.now roots.now))) }
{
    let ids = leaving(alloc, table, edit)?;
    let more = note_all(counts, edit.nodes())?;
    shift_up(counts, table, roots, id, more, ids.len() as u64)?;
    forget(counts, &ids);
    Ok(())
}
