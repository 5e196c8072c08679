// Changes of one node of the table, with what comes and goes below it.
ghost use Rattle.std.specs.Prelude.{◌≡◌, ◌==◌, ◌||◌, true, Some, IsSome, OnOk};
ghost use Rattle.client_views.specs.Views.{is_in};
ghost use Rattle.front_mirror.specs.declared.slots.Slot.{Slot};
ghost use Rattle.front_mirror.specs.declared.edits.NodeChange.TheVariants as edit;
ghost use Rattle.front_mirror.specs.Tables.{table_slots, IsListed, TableCut};
ghost use Rattle.front_mirror.specs.TableEdits.{IsEdited};

use crate::checks::MOST_LEVELS;
use crate::plants::ids_of;
use crate::table::Table;
use dom_objects::NodeTree;
use std::alloc::{AllocError, Global};

impl Table {
    /// Shows the children of a node. After want of memory some of them may stand.
    pub(crate) fn show(
        &mut self,
        alloc: Global,
        id: u64,
        nodes: Vec<NodeTree>,
    ) -> Result<(), AllocError>
        ensures { OnOk result (IsEdited (edit.Show nodes) self.old self.new id) }
    {
        let ids = ids_of(alloc, &nodes)?;
        self.open(id, ids);
        self.plant_all(alloc, nodes, Some(id))?;
        Ok(())
    }

    /// Puts a child behind that of the id, or first where that is 0.
    pub(crate) fn insert(
        &mut self,
        alloc: Global,
        id: u64,
        previous: u64,
        node: NodeTree,
    ) -> Result<(), AllocError>
        requires { (slot : Slot) → table_slots self.old id ≡ Some slot → (previous == 0 || is_in previous slot.children) ≡ true }
        ensures { OnOk result (IsEdited (edit.Insert previous node) self.old self.new id) }
    {
        self.insert_child(id, previous, node.id)?;
        self.plant(alloc, node, Some(id))?;
        Ok(())
    }

    /// Takes a child out, with all below it.
    pub(crate) fn cut(&mut self, alloc: Global, id: u64, child: u64) -> Result<(), AllocError>
        requires listed { IsListed self.old }
        requires there { IsSome (table_slots self.old id) }
        ensures { OnOk result (TableCut self.old self.new id child) }
    {
        let mut ids = Vec::new(alloc);
        self.list_one(child, MOST_LEVELS - 1, &mut ids)?;
        self.remove_child(id, child);
        self.remove_all(&ids);
        Ok(())
    }
}
