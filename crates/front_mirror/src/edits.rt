// Changes of one node of the mirror: whether they fit it.
ghost use Rattle.std.specs.Prelude.{◌≡◌, ◌&&◌, ◌==◌, ◌<◌, IfOk, IsSome, true};
ghost use Rattle.node_tree.specs.Nodes.{nodes_of, Branch};
ghost use Rattle.node_tree.specs.Keys.{spot, find};
ghost use Rattle.client_views.specs.Moves.{suits_change};
ghost use Rattle.front_mirror.specs.Shown.{known_at};
ghost use Rattle.front_mirror.specs.PanelTold.{panel_change};
ghost use Rattle.node_tree.specs.Seen.{Seen, seen_id};
ghost use Rattle.node_tree.specs.Levels.{most_levels};
ghost use Rattle.front_mirror.specs.Tables.{mirror_row, IsFace};
ghost use Rattle.front_mirror.specs.TableEdits.{suits_slot};
ghost use Rattle.front_mirror.specs.Front.{any_node, clashes, is_unique, is_fresh, stands_low, takes_change, knows_named, change_fault};
ghost use Rattle.front_mirror.specs.Edits.{edit_nodes, edit_change, edit_told, spot_fault};

use crate::checks::{MOST_LEVELS, are_kin, are_new, are_within};
use crate::faults::FrontKind;
use crate::mirror::Mirror;
use crate::panels::Change;
use crate::slots::Slot;
use crate::told::{children_of, is_opened};
use dom_objects::NodeTree;
use node_tree::Text;
use std::alloc::{AllocError, Global};
use std::slice;

/// What becomes of one node.
#[derive(Drop)]
pub(crate) enum NodeChange {
    /// Its children are shown from now on.
    Show(Vec<NodeTree>),
    /// It has one more child, behind that of the id, or first where that is 0.
    Insert { previous: u64, node: NodeTree },
    /// Its child of that id is gone.
    Remove(u64),
    /// It has so many children, which are not shown.
    Count(u64),
    SetAttribute { name: Text, value: Text },
    DropAttribute(Text),
    SetValue(Text),
}

impl NodeChange {
    /// The nodes that come with it.
    pub(crate) fn nodes(&self) -> &[NodeTree]
        ensures { nodes_of result.now ≡ edit_nodes self.now }
    {
        match self {
            NodeChange::Show(nodes) => nodes.as_slice(),
            NodeChange::Insert { node, .. } => slice::from_ref(node),
            NodeChange::Remove(_)
            | NodeChange::Count(_)
            | NodeChange::SetAttribute { .. }
            | NodeChange::DropAttribute(_)
            | NodeChange::SetValue(_) => &[],
        }
    }

    /// Whether the node is of a kind and in a state that it fits.
    fn is_for(&self, slot: &Slot) -> bool
        ensures { result ≡ takes_change (edit_change self.now) (mirror_row slot.now) }
    {
        match self {
            NodeChange::Show(_) | NodeChange::Count(_) => slot.is_unopened(),
            NodeChange::Insert { .. } | NodeChange::Remove(_) => slot.is_opened(),
            NodeChange::SetAttribute { .. } | NodeChange::DropAttribute(_) => slot.is_element(),
            NodeChange::SetValue(_) => slot.has_value(),
        }
    }

    /// Whether the child that it names is known.
    fn is_named(&self, mirror: &Mirror) -> bool
        ensures { result ≡ knows_named mirror.now (edit_change self.now) }
    {
        match self {
            NodeChange::Insert { previous, .. } => *previous == 0 || mirror.has_id(*previous),
            NodeChange::Remove(id) => mirror.has_id(*id),
            NodeChange::Show(_)
            | NodeChange::Count(_)
            | NodeChange::SetAttribute { .. }
            | NodeChange::DropAttribute(_)
            | NodeChange::SetValue(_) => true,
        }
    }

    /// What panels are told of it, at the node of that id.
    pub(crate) fn told(&self, id: u64, mirror: &Mirror) -> Change
        requires known { IsSome (find seen_id id mirror.now) }
        requires suits { suits_change (edit_change self.now) (known_at id mirror.now) ≡ true }
        ensures { result ≡ panel_change id (edit_change self.now) (known_at id mirror.now) }
    {
        match self {
            NodeChange::Show(_) => Change::Opened { node: id },
            NodeChange::Insert { node, .. } => Change::Inserted {
                parent: id,
                node: node.id,
            },
            NodeChange::Remove(child) => mirror.removal(id, *child),
            NodeChange::Count(_)
            | NodeChange::SetAttribute { .. }
            | NodeChange::DropAttribute(_)
            | NodeChange::SetValue(_) => Change::Changed { node: id },
        }
    }

    /// Whether it may be told of the node.
    fn suits(&self, slot: &Slot) -> bool
        ensures { result ≡ suits_slot (edit_change self.now) slot.now }
    {
        match self {
            NodeChange::Show(_) | NodeChange::Count(_) => slot.is_unopened(),
            NodeChange::Insert { previous, node } => {
                slot.is_opened()
                    && (*previous == 0 || slot.children.has(*previous))
                    && !is_opened(node)
            }
            NodeChange::Remove(id) => slot.is_opened() && slot.children.has(*id),
            NodeChange::SetAttribute { .. } | NodeChange::DropAttribute(_) => slot.is_element(),
            NodeChange::SetValue(_) => slot.has_value(),
        }
    }
}

/// Whether the mirror has the node's id or its serial.
fn clashes(mirror: &Mirror, node: &NodeTree) -> bool
    ensures { result ≡ clashes mirror.now node.now.row }
{
    mirror.has_id(node.id) || mirror.has_serial(node.serial)
}

/// Whether the mirror has an id or a serial of the nodes.
#[tactic(auto, using(crate::proofs::ToldLemmas::node_count_below))]
fn clash(mirror: &Mirror, nodes: &[NodeTree]) -> bool
    ensures { result ≡ any_node (clashes mirror.now) (nodes_of nodes.now) }
{
    for node in nodes {
        if clashes(mirror, node) {
            return true;
        }
        if clash(mirror, children_of(node)) {
            return true;
        }
    }
    false
}

/// No id and no serial of the nodes comes twice among them, or is one of the mirror's.
fn are_fresh(alloc: Global, mirror: &Mirror, nodes: &[NodeTree]) -> Result<bool, AllocError>
    ensures { IfOk result (λ fresh. fresh ≡ (is_unique (nodes_of nodes.now) && is_fresh mirror.now (nodes_of nodes.now))) }
{
    if !are_new(alloc, nodes)? {
        return Ok(false);
    }
    Ok(!clash(mirror, nodes))
}

/// None of the nodes stands above the level limit, where they stand below a node of this level.
fn stand_low(nodes: &[NodeTree], level: usize) -> bool
    requires { level < most_levels }
    ensures { result ≡ stands_low level (nodes_of nodes.now) }
{
    are_within(nodes, MOST_LEVELS - 1 - level)
}

/// What is wrong with a change of the node in that slot, on that level, the first by number.
#[tactic(auto, using(crate::proofs::ReadLemmas::suits_face))]
fn slot_fault(
    alloc: Global,
    mirror: &Mirror,
    slot: &Slot,
    level: usize,
    edit: &NodeChange,
) -> Result<Option<FrontKind>, AllocError>
    requires { level < most_levels }
    ensures { (b : Branch Seen) → IsFace slot.now b
        → IfOk result (λ wrong. wrong ≡ change_fault mirror.now (edit_told slot.now.id edit.now)
        (record { branch = b; level = level })) }
{
    if !edit.is_for(slot) || !edit.is_named(mirror) {
        return Ok(Some(FrontKind::UnknownNode));
    }
    let nodes = edit.nodes();
    if !edit.suits(slot) || !are_kin(nodes, slot.id) {
        return Ok(Some(FrontKind::NotChild));
    }
    if !are_fresh(alloc, mirror, nodes)? {
        return Ok(Some(FrontKind::IdTaken));
    }
    if !stand_low(nodes, level) {
        return Ok(Some(FrontKind::TooDeep));
    }
    Ok(None)
}

/// What is wrong with a change of the node of that id, the first by number.
pub(crate) fn edit_fault(
    alloc: Global,
    mirror: &Mirror,
    id: u64,
    edit: &NodeChange,
) -> Result<Option<FrontKind>, AllocError>
    ensures { IfOk result (λ wrong. wrong ≡ spot_fault mirror.now (edit_told id edit.now) (spot seen_id id 0 mirror.now)) }
{
    let Some(slot) = mirror.find(id) else {
        return Ok(Some(FrontKind::UnknownNode));
    };
    slot_fault(alloc, mirror, slot, mirror.level(id), edit)
}
