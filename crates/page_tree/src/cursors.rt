ghost use Rattle.std.specs.Prelude.{◌≡◌, ◌<◌, Some, IsSome};
ghost use Rattle.node_tree.specs.Nodes.{width, tree_at};
ghost use Rattle.page_tree.specs.Pages.{find_in, node_at};

use crate::arenas::Arena;
use crate::pages::Page;
use crate::slots::{Keys, Slot};
use node_tree::{Attributes, Kind};
use std::marker::Model;

/// A node of a page, for a walk of the page. It sees what is below it, and not what is above.
#[derive(Drop)]
pub struct Node<'a> {
    arena: &'a Arena,
    slot: &'a Slot,
}

impl<'a> Model for Node<'a> {
    ghost use Rattle.node_tree.specs.Nodes.{Branch, coded_branch};
    ghost use Rattle.page_tree.specs.Pages.{PageRow, coded_row};
    ghost use Rattle.page_tree.specs.Arenas.{branch_in, Hangs};

    ghost Value = { Branch PageRow };

    ghost coded = { coded_branch coded_row };

    ghost view = { λ n. branch_in n.arena.now n.slot.now };

    ghost invariant = { λ n. Hangs n.arena.now n.slot.now.children };
}

/// The children of a node, in their order.
#[derive(Drop)]
pub struct Children<'a> {
    arena: &'a Arena,
    keys: &'a Keys,
}

impl<'a> Model for Children<'a> {
    ghost use Rattle.node_tree.specs.Nodes.{Nodes, coded_nodes};
    ghost use Rattle.page_tree.specs.Pages.{PageRow, coded_row};
    ghost use Rattle.page_tree.specs.Arenas.{trees_in, Hangs};

    ghost Value = { Nodes PageRow };

    ghost coded = { coded_nodes coded_row };

    ghost view = { λ c. trees_in c.arena.now c.keys.now };

    ghost invariant = { λ c. Hangs c.arena.now c.keys.now };
}

impl Page {
    /// The document.
    pub fn root(&self) -> Node<'_>
        ensures { result ≡ self.now.tree }
    {
        match self.arena.slots.get(self.root) {
            Some(slot) => Node {
                arena: &self.arena,
                slot,
            },
            None => unreachable!(),
        }
    }

    /// The node with that serial.
    pub fn node(&self, serial: u64) -> Node<'_>
        requires { IsSome (find_in serial self.now.tree) }
        ensures { result ≡ node_at serial self.now.tree }
    {
        match self.arena.find(serial) {
            Some(slot) => Node {
                arena: &self.arena,
                slot,
            },
            None => unreachable!(),
        }
    }
}

impl<'a> Node<'a> {
    /// The node's serial.
    pub fn serial(&self) -> u64
        ensures { result ≡ self.now.row.serial }
    {
        let slot = self.slot;
        slot.serial
    }

    /// The node's kind.
    pub fn kind(&self) -> Kind
        ensures { result ≡ self.now.row.label.kind }
    {
        let slot = self.slot;
        slot.kind
    }

    /// An element's or a doctype's name, and else the empty text.
    pub fn name(&self) -> &'a str
        ensures { result.now ≡ self.now.row.label.name }
    {
        let slot = self.slot;
        slot.name.as_str()
    }

    /// A text's or a comment's value, and else the empty text.
    pub fn value(&self) -> &'a str
        ensures { result.now ≡ self.now.row.label.value }
    {
        let slot = self.slot;
        slot.value.as_str()
    }

    /// All attributes, in ascending order of their names' bytes.
    pub fn attributes(&self) -> &'a Attributes
        ensures { result.now ≡ self.now.row.label.attributes }
    {
        let slot = self.slot;
        &slot.attributes
    }

    /// The number of its children.
    pub fn len(&self) -> usize
        ensures { result ≡ width self.now.children }
    {
        let slot = self.slot;
        slot.children.len()
    }

    /// Its children.
    pub fn children(&self) -> Children<'a>
        ensures { result ≡ self.now.children }
    {
        let slot = self.slot;
        Children {
            arena: self.arena,
            keys: &slot.children,
        }
    }

    /// The same node once more, since a node is not `Copy`.
    pub fn again(&self) -> Node<'a>
        ensures { result ≡ self.now }
    {
        Node {
            arena: self.arena,
            slot: self.slot,
        }
    }
}

impl<'a> Children<'a> {
    /// How many they are.
    pub fn len(&self) -> usize
        ensures { result ≡ width self.now }
    {
        let keys = self.keys;
        keys.len()
    }

    /// The child at place `i`, counted from 0.
    pub fn at(&self, i: usize) -> Node<'a>
        requires { i < width self.now }
        ensures { tree_at i self.now ≡ Some result }
    {
        let arena = self.arena;
        let keys = self.keys;
        match arena.slots.get(keys.at(i)) {
            Some(slot) => Node { arena, slot },
            None => unreachable!(),
        }
    }
}
