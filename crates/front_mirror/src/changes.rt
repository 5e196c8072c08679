// Changes of one node, carried out in the table.
ghost use Rattle.std.specs.Prelude.{◌≡◌, Some, IsSome, OnOk};
ghost use Rattle.front_mirror.specs.declared.slots.Slot.{Slot};
ghost use Rattle.front_mirror.specs.Tables.{table_slots, IsListed};
ghost use Rattle.front_mirror.specs.TableEdits.{Suits, IsEdited};

use crate::edits::NodeChange;
use crate::slots::Below;
use crate::table::Table;
use std::alloc::{AllocError, Global};

impl Table {
    /// Carries the edit out at the node of that id. After want of memory nothing is said of the table.
    pub(crate) fn change(
        &mut self,
        alloc: Global,
        id: u64,
        edit: NodeChange,
    ) -> Result<(), AllocError>
        requires listed { IsListed self.old }
        requires there { IsSome (table_slots self.old id) }
        requires suits { (slot : Slot) → table_slots self.old id ≡ Some slot → Suits edit slot }
        ensures { OnOk result (IsEdited edit self.old self.new id) }
    {
        match edit {
            NodeChange::Show(nodes) => self.show(alloc, id, nodes),
            NodeChange::Insert { previous, node } => self.insert(alloc, id, previous, node),
            NodeChange::Remove(child) => self.cut(alloc, id, child),
            NodeChange::Count(count) => {
                self.set_below(id, Below::Counted(count));
                Ok(())
            }
            NodeChange::SetAttribute { name, value } => self.set_attr(id, name, value),
            NodeChange::DropAttribute(name) => {
                self.drop_attr(id, name.as_str());
                Ok(())
            }
            NodeChange::SetValue(value) => {
                self.set_value(id, value);
                Ok(())
            }
        }
    }
}
