// Walks over what stands below nodes of the table.
ghost use Rattle.std.specs.Prelude.{◌≡◌, ◌+◌, ◌++◌, ◌<◌, ◌∷◌, [], suc, OnOk};
ghost use Rattle.node_tree.specs.Numbers.{walk_limit};
ghost use Rattle.node_tree.specs.Seen.{seen_id};
ghost use Rattle.client_views.specs.Views.{keys};
ghost use Rattle.front_mirror.specs.Outline.{lines_at, seen_line, unshown_of};
ghost use Rattle.front_mirror.specs.Tables.{table_trees, mirror_row, below_hold};

use crate::child_ids::ChildIds;
use crate::lines::{write_indent, write_node_line};
use crate::slots::{Below, Slot};
use crate::table::Table;
use std::alloc::{AllocError, Global};

/// How many children of a node are not shown.
pub(crate) fn unshown_of(slot: &Slot) -> u64
    ensures { result ≡ unshown_of (below_hold slot.now.below) }
{
    match &slot.below {
        Below::Counted(count) => *count,
        Below::Leaf | Below::Opened => 0,
    }
}

fn write_slot(alloc: Global, slot: &Slot, out: &mut Vec<u8>) -> Result<(), AllocError>
    ensures { OnOk result (out.new.items ≡ out.old.items ++ seen_line (mirror_row slot.now)) }
{
    write_node_line(
        alloc,
        slot.id,
        slot.kind,
        slot.name.as_str(),
        slot.value.as_str(),
        &slot.attributes,
        unshown_of(slot),
        out,
    )
}

impl Table {
    /// Appends the id of a node and those of all below it, so many levels down, in document order.
    #[cycle(listing)]
    pub(crate) fn list_one(
        &self,
        id: u64,
        levels: usize,
        ids: &mut Vec<u64>,
    ) -> Result<(), AllocError>
        ensures { OnOk result (ids.new.items ≡ ids.old.items ++ keys seen_id (table_trees self.now (suc levels) (id ∷ []))) }
    {
        let Some(slot) = self.get(id) else {
            return Ok(());
        };
        ids.push(slot.id)?;
        self.list_all(&slot.children, levels, ids)
    }

    /// The same of several nodes.
    #[cycle(listing)]
    fn list_all(
        &self,
        roots: &ChildIds,
        levels: usize,
        ids: &mut Vec<u64>,
    ) -> Result<(), AllocError>
        ensures { OnOk result (ids.new.items ≡ ids.old.items ++ keys seen_id (table_trees self.now levels roots.now)) }
    {
        if levels == 0 {
            return Ok(());
        }
        for i in 0..roots.len() {
            self.list_one(roots.at(i), levels - 1, ids)?;
        }
        Ok(())
    }

    /// Appends one line for a node, at the given level, and one for each below it, so many levels down.
    #[cycle(writing)]
    fn write_one(
        &self,
        alloc: Global,
        id: u64,
        levels: usize,
        level: usize,
        out: &mut Vec<u8>,
    ) -> Result<(), AllocError>
        requires { level + levels < walk_limit }
        ensures { OnOk result (out.new.items ≡ out.old.items ++ lines_at seen_line level (table_trees self.now (suc levels) (id ∷ []))) }
    {
        let Some(slot) = self.get(id) else {
            return Ok(());
        };
        write_indent(level, out)?;
        write_slot(alloc, slot, out)?;
        out.push(b'\n')?;
        self.write_all(alloc, &slot.children, levels, level + 1, out)
    }

    /// The same of several nodes.
    #[cycle(writing)]
    pub(crate) fn write_all(
        &self,
        alloc: Global,
        roots: &ChildIds,
        levels: usize,
        level: usize,
        out: &mut Vec<u8>,
    ) -> Result<(), AllocError>
        requires { level + levels < walk_limit + 1 }
        ensures { OnOk result (out.new.items ≡ out.old.items ++ lines_at seen_line level (table_trees self.now levels roots.now)) }
    {
        if levels == 0 {
            return Ok(());
        }
        for i in 0..roots.len() {
            self.write_one(alloc, roots.at(i), levels - 1, level, out)?;
        }
        Ok(())
    }
}
