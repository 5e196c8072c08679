// Nodes of messages that come into the table.
ghost use Rattle.std.specs.Prelude.{◌≡◌, IfOk, OnOk};
ghost use Rattle.node_tree.specs.Nodes.{nodes_of, alone};
ghost use Rattle.dom_objects.specs.Told.{seen_nodes};
ghost use Rattle.front_mirror.specs.Shown.{shown_of};
ghost use Rattle.front_mirror.specs.Tables.{table_slots, table_ids, hold_below, root_ids, new_slot, planted, serials_listed};

use crate::child_ids::ChildIds;
use crate::slots::{Below, Slot};
use crate::table::Table;
use crate::told::children_of;
use cdp_messages::Kind;
use dom_objects::NodeTree;
use std::alloc::{AllocError, Global};

fn below_of(node: &NodeTree) -> Below
    ensures { result ≡ hold_below node.now.row.seen.hold }
{
    if node.children.is_some() {
        return Below::Opened;
    }
    match node.kind {
        Kind::Document | Kind::Element => Below::Counted(node.count),
        Kind::Text | Kind::Comment | Kind::Doctype => Below::Leaf,
    }
}

/// The ids of the trees, in their order.
pub(crate) fn ids_of(alloc: Global, trees: &[NodeTree]) -> Result<ChildIds, AllocError>
    ensures { IfOk result (λ ids. ids ≡ root_ids (shown_of trees.now)) }
{
    let mut ids = ChildIds::with_room(alloc, trees.len())?;
    for tree in trees {
        ids.push(tree.id)?;
    }
    Ok(ids)
}

/// The slot of a node below the one of that id, and the trees below it.
fn slot_of(
    alloc: Global,
    tree: NodeTree,
    above: Option<u64>,
) -> Result<(Slot, Vec<NodeTree>), AllocError>
    ensures slot { IfOk result (λ p. p.0 ≡ new_slot above tree.row.seen (root_ids (seen_nodes tree.children))) }
    ensures trees { IfOk result (λ p. nodes_of p.1.items ≡ tree.children) }
{
    let below = below_of(&tree);
    let children = ids_of(alloc, children_of(&tree))?;
    let slot = Slot {
        id: tree.id,
        serial: tree.serial,
        kind: tree.kind,
        name: tree.name,
        value: tree.value,
        attributes: tree.attributes,
        below,
        parent: above,
        children,
    };
    let trees = match tree.children {
        Some(trees) => trees,
        None => Vec::new(alloc),
    };
    Ok((slot, trees))
}

impl Table {
    /// Puts a tree into slots of its own, below the node of that id. After want of memory some of them may stand.
    #[cycle(planting)]
    pub(crate) fn plant(
        &mut self,
        alloc: Global,
        tree: NodeTree,
        above: Option<u64>,
    ) -> Result<(), AllocError>
        ensures slots { OnOk result (table_slots self.new ≡ planted above (seen_nodes (alone tree)) (table_slots self.old)) }
        ensures ids { OnOk result (table_ids self.new ≡ serials_listed (seen_nodes (alone tree)) (table_ids self.old)) }
    {
        let id = tree.id;
        let (slot, trees) = slot_of(alloc, tree, above)?;
        self.put(alloc, slot)?;
        self.plant_all(alloc, trees, Some(id))
    }

    /// Puts trees that stand side by side into slots of their own.
    #[cycle(planting)]
    pub(crate) fn plant_all(
        &mut self,
        alloc: Global,
        trees: Vec<NodeTree>,
        above: Option<u64>,
    ) -> Result<(), AllocError>
        ensures slots { OnOk result (table_slots self.new ≡ planted above (shown_of trees.items) (table_slots self.old)) }
        ensures ids { OnOk result (table_ids self.new ≡ serials_listed (shown_of trees.items) (table_ids self.old)) }
    {
        for tree in trees {
            self.plant(alloc, tree, above)?;
        }
        Ok(())
    }
}
