//! A cursor: a node of a page, with the way to the nodes around it.

ghost use Rattle.std.specs.Prelude.{◌≡◌, ◌<◌, length, option_map, Some, IsSome, slice_get};
ghost use Rattle.node_tree.specs.Labels.{value_of};
ghost use Rattle.page_tree.specs.Forms.{max_nodes};
ghost use Rattle.page_tree.specs.Pages.{find_in};
ghost use Rattle.page_tree.specs.Zippers.{zipper_at, earlier, later, parent_of, previous_of, next_of, first_child_of};
ghost use Rattle.page_tree.specs.Arenas.{slot_row};

use crate::arenas::Arena;
use crate::pages::Page;
use crate::slots::Slot;
use node_tree::{Kind, Pairs};
use std::marker::Model;

/// A node of a page. Contracts see it as a zipper: the node with all below it, beside it and above it, so that the calls
/// below lead from node to node and never search for a serial.
#[derive(Drop)]
pub struct NodeRef<'a> {
    arena: &'a Arena,
    root: usize,
    slot: &'a Slot,
    /// Its place among its siblings, once it has been asked for.
    place: Option<usize>,
}

impl<'a> Model for NodeRef<'a> {
    ghost use Rattle.page_tree.specs.Zippers.{Zipper, coded_zipper, zipper_at};
    ghost use Rattle.page_tree.specs.Arenas.{tree_of, IsSlotAt};

    ghost Value = { Zipper };

    ghost coded = { coded_zipper };

    ghost view = { λ n. zipper_at n.slot.now.serial (tree_of n.arena.now n.root) };

    ghost invariant = { λ n. IsSlotAt n.arena.now n.root n.slot.now n.place };
}

impl Page {
    /// The node with that serial.
    pub fn node_ref(&self, serial: u64) -> NodeRef<'_>
        requires { IsSome (find_in serial self.now.tree) }
        ensures { result ≡ zipper_at serial self.now.tree }
    {
        match self.arena.find(serial) {
            Some(slot) => NodeRef {
                arena: &self.arena,
                root: self.root,
                slot,
                place: None,
            },
            None => unreachable!(),
        }
    }
}

impl<'a> NodeRef<'a> {
    fn slot(&self) -> &'a Slot
        ensures { slot_row result.now ≡ self.now.branch.row }
    {
        self.slot
    }

    /// Its place among its siblings, counted from 0.
    fn place(&self) -> usize
        ensures place { result ≡ length self.now.before }
        ensures few { result < max_nodes }
    {
        match self.place {
            Some(i) => i,
            None => {
                let arena = self.arena;
                arena.seat(self.slot)
            }
        }
    }

    /// The node's serial.
    pub fn serial(&self) -> u64
        ensures { result ≡ self.now.branch.row.serial }
    {
        let slot = self.slot();
        slot.serial
    }

    /// The node's kind.
    pub fn kind(&self) -> Kind
        ensures { result ≡ self.now.branch.row.label.kind }
    {
        let slot = self.slot();
        slot.kind
    }

    /// An element's or a doctype's name, and else the empty text.
    pub fn name(&self) -> &'a str
        ensures { result.now ≡ self.now.branch.row.label.name }
    {
        let slot = self.slot();
        slot.name.as_str()
    }

    /// A text's or a comment's value, and else the empty text.
    pub fn value(&self) -> &'a str
        ensures { result.now ≡ self.now.branch.row.label.value }
    {
        let slot = self.slot();
        slot.value.as_str()
    }

    /// The value of the attribute of that name.
    pub fn attr(&self, name: &str) -> Option<&'a str>
        ensures { option_map (λ v. v.now) result ≡ value_of name.now self.now.branch.row.label.attributes }
    {
        let slot = self.slot();
        slot.attributes.get(name)
    }

    /// How many attributes the node has.
    pub fn attr_len(&self) -> usize
        ensures { result ≡ length self.now.branch.row.label.attributes }
    {
        let slot = self.slot();
        slot.attributes.len()
    }

    /// The name and the value of the attribute at place `i`, counted from 0 in ascending order of the names' bytes.
    pub fn attr_at(&self, i: usize) -> (&'a str, &'a str)
        requires { i < length self.now.branch.row.label.attributes }
        ensures { slice_get self.now.branch.row.label.attributes i ≡ Some (result.0.now, result.1.now) }
    {
        let slot = self.slot();
        slot.attributes.at(i)
    }

    /// The names and values of the attributes, in ascending order of the names' bytes.
    pub fn attrs(&self) -> Pairs<'a>
        ensures { result ≡ self.now.branch.row.label.attributes }
    {
        let slot = self.slot();
        slot.attributes.iter()
    }

    /// A node has few siblings: this call only says so to a proof.
    pub fn are_few(&self)
        ensures earlier { length (earlier self.now) < max_nodes }
        ensures later { length (later self.now) < max_nodes }
    {
        let _ = &self.slot;
    }

    /// Its parent; the document has none.
    pub fn parent(&self) -> Option<NodeRef<'a>>
        ensures { result ≡ parent_of self.now }
    {
        let arena = self.arena;
        let slot = self.slot;
        let Some(key) = slot.parent else {
            return None;
        };
        match arena.slots.get(key) {
            Some(over) => Some(NodeRef {
                arena,
                root: self.root,
                slot: over,
                place: None,
            }),
            None => unreachable!(),
        }
    }

    /// The sibling just before it.
    pub fn previous_sibling(&self) -> Option<NodeRef<'a>>
        ensures { result ≡ previous_of self.now }
    {
        let arena = self.arena;
        let place = self.place();
        if place == 0 {
            return None;
        }
        match arena.sibling(self.slot, place - 1) {
            Some(slot) => Some(NodeRef {
                arena,
                root: self.root,
                slot,
                place: Some(place - 1),
            }),
            None => unreachable!(),
        }
    }

    /// The sibling just after it.
    pub fn next_sibling(&self) -> Option<NodeRef<'a>>
        ensures { result ≡ next_of self.now }
    {
        let arena = self.arena;
        let place = self.place() + 1;
        match arena.sibling(self.slot, place) {
            Some(slot) => Some(NodeRef {
                arena,
                root: self.root,
                slot,
                place: Some(place),
            }),
            None => None,
        }
    }

    /// The first of its children.
    pub fn first_child(&self) -> Option<NodeRef<'a>>
        ensures { result ≡ first_child_of self.now }
    {
        let arena = self.arena;
        match arena.first_child(self.slot) {
            Some(slot) => Some(NodeRef {
                arena,
                root: self.root,
                slot,
                place: Some(0),
            }),
            None => None,
        }
    }
}
