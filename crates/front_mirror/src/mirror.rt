ghost use Rattle.std.specs.Prelude.{◌≡◌, ◌≢◌, ◌↔◌, ◌<◌, ◌++◌, length, IsTrue, IsSome, is_some, Some, option_map, unwrap_or, slice_get};
ghost use Rattle.std.specs.Prelude.{None, true, IfOk, IfSome, OnOk};
ghost use Rattle.node_tree.specs.Nodes.{none, alone, width, tree_at, branch_count, node_count};
ghost use Rattle.std.specs.Option.{option_copied};
ghost use Rattle.node_tree.specs.Keys.{has, find, parent_of, level_of, spot};
ghost use Rattle.node_tree.specs.Seen.{is_opened, shows_count, seen_id, seen_serial};
ghost use Rattle.dom_objects.specs.Told.{count_in, seen_nodes};
ghost use Rattle.dom_objects.specs.NodeData.{fits_tree};
ghost use Rattle.front_mirror.specs.Shown.{known_at, root_id};
ghost use Rattle.front_mirror.specs.Walks.{rank_of};
ghost use Rattle.client_views.specs.Moves.{has_tree, removes};
ghost use Rattle.front_mirror.specs.PanelTold.{panel_change};
ghost use Rattle.front_mirror.specs.Outline.{lines_at, seen_line};
ghost use Rattle.front_mirror.specs.Tables.{mirror_row, root_ids, TableLooks};

use crate::checks::MOST_LEVELS;
use crate::child_ids::ChildIds;
use crate::edits::NodeChange;
use crate::order_changes::{OrderChange, push_ids};
use crate::orders::Order;
use crate::panels::Change;
use crate::sizes::{note_all, recount};
use crate::slots::Slot;
use crate::table::Table;
use cdp_messages::Kind;
use dom_objects::NodeTree;
use number_map::NumberMap;
use std::alloc::{AllocError, Global};
use std::marker::Model;
use std::{mem, slice};

/// The page as the messages that came show it: its known nodes, each with an id of the session and its serial in the
/// page, or nothing. The readers take no memory. A node is known by its id.
#[derive(Drop)]
pub struct Mirror {
    table: Table,
    roots: ChildIds,
    counts: NumberMap,
    order: Order,
}

impl Model for Mirror {
    ghost use Rattle.node_tree.specs.Nodes.{Nodes, coded_nodes};
    ghost use Rattle.node_tree.specs.Seen.{Seen, coded_seen};
    ghost use Rattle.front_mirror.specs.Tables.{tree_in};
    ghost use Rattle.front_mirror.specs.Sizes.{KeepsCounted};

    ghost Value = { Nodes Seen };

    ghost coded = { coded_nodes coded_seen };

    ghost view = { λ m. tree_in m.table m.roots };

    ghost invariant = { λ m. KeepsCounted m.table m.roots m.counts m.order };
}

impl Mirror {
    ghost use Rattle.client_views.specs.Views.{IsMirror};
    ghost use Rattle.node_tree.specs.Levels.{most_levels};
    ghost use Rattle.front_mirror.specs.Front.{root_fault};
    ghost use Rattle.front_mirror.specs.Orders.{ChangesOrder};
    ghost use Rattle.front_mirror.specs.Edits.{fits_edit, edit_change, edit_told, spot_fault, with_changed};

    pub(crate) fn new(alloc: Global) -> Mirror
        ensures { result ≡ none }
    {
        Mirror {
            table: Table::new(alloc),
            roots: ChildIds::new(alloc),
            counts: NumberMap::new(alloc),
            order: Order::new(alloc),
        }
    }

    /// The mirror of a document that nothing is wrong with.
    pub(crate) fn of_root(alloc: Global, root: NodeTree) -> Result<Mirror, AllocError>
        requires fits { fits_tree true root ≡ true }
        requires clear { root_fault root ≡ None }
        ensures { IfOk result (λ mirror. mirror ≡ seen_nodes (alone root)) }
    {
        let mut table = Table::new(alloc);
        let mut roots = ChildIds::new(alloc);
        let mut counts = NumberMap::new(alloc);
        roots.push(root.id)?;
        let mut ids = Vec::new(alloc);
        note_all(&mut counts, slice::from_ref(&root))?;
        push_ids(slice::from_ref(&root), &mut ids)?;
        let order = Order::of(alloc, &ids)?;
        table.plant(alloc, root, None)?;
        Ok(Mirror {
            table,
            roots,
            counts,
            order,
        })
    }

    /// Changes a known node, where nothing is wrong with the edit. After want of memory the mirror is empty, or as before.
    pub(crate) fn change(
        &mut self,
        alloc: Global,
        id: u64,
        edit: NodeChange,
    ) -> Result<(), AllocError>
        requires fits { fits_edit edit ≡ true }
        requires clear { spot_fault self.old (edit_told id edit) (spot seen_id id 0 self.old) ≡ None }
        ensures { OnOk result (self.new ≡ with_changed id (edit_change edit) self.old) }
    {
        let turn = self.order_change(alloc, id, &edit)?;
        self.change_in(alloc, id, edit, &turn)
    }

    /// The same, where it is known what the edit makes of the ids in document order.
    fn change_in(
        &mut self,
        alloc: Global,
        id: u64,
        edit: NodeChange,
        turn: &OrderChange,
    ) -> Result<(), AllocError>
        requires fits { fits_edit edit ≡ true }
        requires clear { spot_fault self.old (edit_told id edit) (spot seen_id id 0 self.old) ≡ None }
        requires turn { ChangesOrder turn.now self.old (with_changed id (edit_change edit) self.old) }
        ensures { OnOk result (self.new ≡ with_changed id (edit_change edit) self.old) }
    {
        let mut table = mem::replace(&mut self.table, Table::new(alloc));
        let roots = mem::replace(&mut self.roots, ChildIds::new(alloc));
        let mut counts = mem::replace(&mut self.counts, NumberMap::new(alloc));
        let mut order = mem::replace(&mut self.order, Order::new(alloc));
        recount(alloc, &mut counts, &table, &roots, id, &edit)?;
        order.splice(alloc, turn.place, turn.gone, &turn.ids)?;
        table.change(alloc, id, edit)?;
        self.table = table;
        self.roots = roots;
        self.counts = counts;
        self.order = order;
        Ok(())
    }

    /// What each mirror is: ids and serials are distinct, no node stands at a level above 500, names have their forms, and
    /// the one root is a document. Called for the proof alone.
    pub fn valid(&self)
        ensures { IsMirror self.now }
    {
        let _ = &self.roots;
    }

    /// Appends one line for each node.
    pub(crate) fn write_lines(&self, alloc: Global, out: &mut Vec<u8>) -> Result<(), AllocError>
        ensures { OnOk result (out.new.items ≡ out.old.items ++ lines_at seen_line 0 self.now) }
    {
        self.table
            .write_all(alloc, &self.roots, MOST_LEVELS, 0, out)
    }

    /// Whether nothing is shown.
    pub fn is_empty(&self) -> bool
        ensures { IsTrue result ↔ (self.now ≡ none) }
    {
        self.roots.len() == 0
    }

    /// The id of the document.
    pub fn document(&self) -> u64
        requires { self.now ≢ none }
        ensures { result ≡ root_id self.now }
    {
        self.roots.at(0)
    }

    /// The slot of that id.
    pub(crate) fn find(&self, id: u64) -> Option<&Slot>
        ensures looks { TableLooks (option_copied result) (find seen_id id self.now) }
        ensures parent { IfSome result (λ slot. Some (unwrap_or slot.now.parent 0) ≡ parent_of seen_id id 0 self.now) }
    {
        self.table.get(id)
    }

    pub(crate) fn at(&self, id: u64) -> &Slot
        requires known { IsSome (find seen_id id self.now) }
        ensures row { mirror_row result.now ≡ (known_at id self.now).row }
        ensures children { result.now.children ≡ root_ids (known_at id self.now).children }
        ensures parent { Some (unwrap_or result.now.parent 0) ≡ parent_of seen_id id 0 self.now }
    {
        let Some(slot) = self.find(id) else {
            unreachable!()
        };
        slot
    }

    /// Whether a node of that id is shown.
    pub(crate) fn has_id(&self, id: u64) -> bool
        ensures { result ≡ has seen_id id self.now }
    {
        self.known(id)
    }

    /// Whether a node of that serial is shown.
    pub(crate) fn has_serial(&self, serial: u64) -> bool
        ensures { result ≡ has seen_serial serial self.now }
    {
        self.table.id_of(serial).is_some()
    }

    /// The level of a known node.
    pub fn level(&self, id: u64) -> usize
        requires known { IsSome (find seen_id id self.now) }
        ensures level { level_of seen_id id 0 self.now ≡ Some result }
        ensures low { result < most_levels }
    {
        let Some(slot) = self.table.get(id) else {
            unreachable!()
        };
        self.table.climb(slot.parent, MOST_LEVELS)
    }

    /// Whether a node of that id is shown.
    pub fn known(&self, id: u64) -> bool
        ensures { result ≡ is_some (find seen_id id self.now) }
    {
        self.find(id).is_some()
    }

    /// The id of the known node with this serial.
    pub fn id_of(&self, serial: u64) -> Option<u64>
        ensures { result ≡ option_map (λ b. b.row.id) (find seen_serial serial self.now) }
    {
        self.table.id_of(serial)
    }

    /// The kind of the node of that id.
    pub fn kind(&self, id: u64) -> Kind
        requires known { IsSome (find seen_id id self.now) }
        ensures { result ≡ (known_at id self.now).row.label.kind }
    {
        self.at(id).kind
    }

    /// The name of an element or a doctype, else the empty text.
    pub fn name(&self, id: u64) -> &str
        requires known { IsSome (find seen_id id self.now) }
        ensures { result.now ≡ (known_at id self.now).row.label.name }
    {
        self.at(id).name.as_str()
    }

    /// The value of a text or a comment, else the empty text.
    pub fn value(&self, id: u64) -> &str
        requires known { IsSome (find seen_id id self.now) }
        ensures { result.now ≡ (known_at id self.now).row.label.value }
    {
        self.at(id).value.as_str()
    }

    /// The serial of the node of that id, the protocol's `backendNodeId`.
    pub fn serial(&self, id: u64) -> u64
        requires known { IsSome (find seen_id id self.now) }
        ensures { result ≡ (known_at id self.now).row.serial }
    {
        self.at(id).serial
    }

    /// The id of the parent, 0 for the document.
    pub fn parent(&self, id: u64) -> u64
        requires known { IsSome (find seen_id id self.now) }
        ensures { Some result ≡ parent_of seen_id id 0 self.now }
    {
        self.at(id).parent.unwrap_or(0)
    }

    /// Whether its children are known.
    pub fn is_opened(&self, id: u64) -> bool
        requires known { IsSome (find seen_id id self.now) }
        ensures { result ≡ is_opened (known_at id self.now).row.hold }
    {
        self.at(id).is_opened()
    }

    /// Whether it can have children, and they are only counted.
    pub fn is_unopened(&self, id: u64) -> bool
        requires known { IsSome (find seen_id id self.now) }
        ensures { result ≡ shows_count (known_at id self.now).row.hold }
    {
        self.at(id).is_unopened()
    }

    /// How many children it has, known or only counted.
    pub fn count(&self, id: u64) -> u64
        requires known { IsSome (find seen_id id self.now) }
        ensures { result ≡ count_in (known_at id self.now).row.hold (known_at id self.now).children }
    {
        self.at(id).count()
    }

    /// How many of its children are known.
    pub fn children_len(&self, id: u64) -> usize
        requires known { IsSome (find seen_id id self.now) }
        ensures { result ≡ width (known_at id self.now).children }
    {
        self.at(id).children.len()
    }

    /// The id of its known child at place `i`, counted from 0.
    pub fn child_at(&self, id: u64, i: usize) -> u64
        requires known { IsSome (find seen_id id self.now) }
        requires place { i < width (known_at id self.now).children }
        ensures { Some result ≡ option_map (λ b. b.row.id) (tree_at i (known_at id self.now).children) }
    {
        self.at(id).children.at(i)
    }

    /// How many known nodes stand at and below the node of that id.
    pub fn size(&self, id: u64) -> usize
        requires known { IsSome (find seen_id id self.now) }
        ensures { result ≡ branch_count (known_at id self.now) }
    {
        let Some(count) = self.counts.get(id) else {
            unreachable!()
        };
        count as usize
    }

    /// How many known nodes there are.
    pub(crate) fn known_count(&self) -> usize
        ensures { result ≡ node_count self.now }
    {
        self.order.len()
    }

    /// How many known nodes stand before the node of that id in document order.
    pub fn rank(&self, id: u64) -> usize
        requires known { IsSome (find seen_id id self.now) }
        ensures { result ≡ rank_of seen_id id self.now }
    {
        self.valid();
        self.order.place_of(id)
    }

    /// What panels are told where the child of that id leaves.
    pub(crate) fn removal(&self, id: u64, child: u64) -> Change
        requires known { IsSome (find seen_id id self.now) }
        requires child { has_tree child (known_at id self.now).children ≡ true }
        ensures { result ≡ panel_change id (removes child) (known_at id self.now) }
    {
        self.valid();
        let place = self.at(id).children.place(child);
        let known = self.size(child);
        Change::Removed {
            parent: id,
            place,
            node: child,
            known,
        }
    }

    /// How many attributes the node of that id has.
    pub fn attr_len(&self, id: u64) -> usize
        requires known { IsSome (find seen_id id self.now) }
        ensures { result ≡ length (known_at id self.now).row.label.attributes }
    {
        self.at(id).attributes.len()
    }

    /// The name and the value of its attribute at place `i`, counted from 0.
    pub fn attr_at(&self, id: u64, i: usize) -> (&str, &str)
        requires known { IsSome (find seen_id id self.now) }
        requires place { i < length (known_at id self.now).row.label.attributes }
        ensures { slice_get (known_at id self.now).row.label.attributes i ≡ Some (result.0.now, result.1.now) }
    {
        self.at(id).attributes.at(i)
    }
}
