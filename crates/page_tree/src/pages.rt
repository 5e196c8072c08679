ghost use Rattle.std.specs.Prelude.{◌≡◌, ◌<◌, ◌≤◌, length, is_some, option_map, Some, IsSome, IfOk, slice_get};
ghost use Rattle.std.specs.Option.{option_copied};
ghost use Rattle.node_tree.specs.Numbers.{drawn_before_nodes};
ghost use Rattle.node_tree.specs.Nodes.{nodes_of, width, tree_at};
ghost use Rattle.node_tree.specs.Labels.{value_of};
ghost use Rattle.page_tree.specs.Forms.{CanLoad};
ghost use Rattle.page_tree.specs.Pages.{loaded, find_in, node_at, parent_at, level_at};
ghost use Rattle.page_tree.specs.Arenas.{slot_row, Looks};

use crate::arenas::Arena;
use crate::forms::NodeForm;
use crate::numbering::number_all;
use crate::slots::Slot;
use crate::trees::Tree;
use node_tree::{Attributes, Kind, MAX_LEVEL, Text};
use std::alloc::{AllocError, Global};
use std::marker::Model;

/// A page: the document with all below it, and the serial that the next new node gets.
#[derive(Drop)]
pub struct Page {
    pub(crate) arena: Arena,
    pub(crate) root: usize,
    pub(crate) next: u64,
    pub(crate) alloc: Global,
}

impl Model for Page {
    ghost use Rattle.page_tree.specs.Pages.{PageValue, coded_state};
    ghost use Rattle.page_tree.specs.Arenas.{tree_of, IsPage};

    ghost Value = { PageValue };

    ghost coded = { coded_state };

    ghost view = { λ p. record { tree = tree_of p.arena p.root; next = p.next } };

    ghost invariant = { λ p. IsPage p.arena p.root p.next };
}

impl Page {
    ghost use Rattle.page_tree.specs.Pages.{IsValid};

    /// The page of these nodes. The document has the serial `first`, and the others follow in document order.
    pub fn load(alloc: Global, first: u64, nodes: Vec<NodeForm>) -> Result<Page, AllocError>
        requires nodes { CanLoad (nodes_of nodes.items) }
        requires least { 1 ≤ first }
        requires room { first < drawn_before_nodes }
        ensures { IfOk result (λ page. page ≡ loaded first (nodes_of nodes.items)) }
    {
        let (children, next) = number_all(alloc, first + 1, nodes)?;
        let tree = Tree {
            serial: first,
            kind: Kind::Document,
            name: Text::empty(alloc),
            value: Text::empty(alloc),
            attributes: Attributes::new(alloc),
            children,
        };
        let mut arena = Arena::new(alloc);
        let root = arena.plant(alloc, tree, None)?;
        Ok(Page {
            arena,
            root,
            next,
            alloc,
        })
    }

    /// Every page is valid: this call only says so to a proof.
    pub fn valid(&self)
        ensures { IsValid self.now }
    {
        let _ = &self.arena;
    }

    /// The document's serial.
    pub fn document(&self) -> u64
        ensures { result ≡ self.now.tree.row.serial }
    {
        match self.arena.slots.get(self.root) {
            Some(slot) => slot.serial,
            None => unreachable!(),
        }
    }

    /// The serial that the next new node gets.
    pub fn next_serial(&self) -> u64
        ensures { result ≡ self.now.next }
    {
        self.next
    }

    fn find(&self, serial: u64) -> Option<&Slot>
        ensures { Looks (option_copied result) (find_in serial self.now.tree) }
    {
        self.arena.find(serial)
    }

    fn at(&self, serial: u64) -> &Slot
        requires { IsSome (find_in serial self.now.tree) }
        ensures row { slot_row result.now ≡ (node_at serial self.now.tree).row }
        ensures children { length result.now.children ≡ width (node_at serial self.now.tree).children }
    {
        match self.arena.find(serial) {
            Some(slot) => slot,
            None => unreachable!(),
        }
    }

    /// A node has that serial.
    pub fn live(&self, serial: u64) -> bool
        ensures { result ≡ is_some (find_in serial self.now.tree) }
    {
        self.find(serial).is_some()
    }

    /// The kind of the node.
    pub fn kind(&self, serial: u64) -> Kind
        requires { IsSome (find_in serial self.now.tree) }
        ensures { result ≡ (node_at serial self.now.tree).row.label.kind }
    {
        self.at(serial).kind
    }

    /// An element's or a doctype's name, and else the empty text.
    pub fn name(&self, serial: u64) -> &str
        requires { IsSome (find_in serial self.now.tree) }
        ensures { result.now ≡ (node_at serial self.now.tree).row.label.name }
    {
        self.at(serial).name.as_str()
    }

    /// A text's or a comment's value, and else the empty text.
    pub fn value(&self, serial: u64) -> &str
        requires { IsSome (find_in serial self.now.tree) }
        ensures { result.now ≡ (node_at serial self.now.tree).row.label.value }
    {
        self.at(serial).value.as_str()
    }

    /// The value of the attribute of that name.
    pub fn attr(&self, serial: u64, name: &str) -> Option<&str>
        requires { IsSome (find_in serial self.now.tree) }
        ensures { option_map (λ v. v.now) result
            ≡ value_of name.now (node_at serial self.now.tree).row.label.attributes }
    {
        self.at(serial).attributes.get(name)
    }

    /// How many attributes the node has.
    pub fn attr_len(&self, serial: u64) -> usize
        requires { IsSome (find_in serial self.now.tree) }
        ensures { result ≡ length (node_at serial self.now.tree).row.label.attributes }
    {
        self.at(serial).attributes.len()
    }

    /// The name and the value of the attribute at place `i`, counted from 0 in ascending order of the names' bytes.
    pub fn attr_at(&self, serial: u64, i: usize) -> (&str, &str)
        requires live { IsSome (find_in serial self.now.tree) }
        requires in_range { i < length (node_at serial self.now.tree).row.label.attributes }
        ensures { slice_get (node_at serial self.now.tree).row.label.attributes i
            ≡ Some (result.0.now, result.1.now) }
    {
        self.at(serial).attributes.at(i)
    }

    /// The serial of the node's parent, and 0 for the document.
    pub fn parent(&self, serial: u64) -> u64
        requires { IsSome (find_in serial self.now.tree) }
        ensures { result ≡ parent_at serial self.now.tree }
    {
        let Some(slot) = self.arena.find(serial) else {
            unreachable!()
        };
        let Some(key) = slot.parent else {
            return 0;
        };
        match self.arena.slots.get(key) {
            Some(over) => over.serial,
            None => unreachable!(),
        }
    }

    /// How many nodes are above the node: 0 for the document.
    pub fn level(&self, serial: u64) -> u64
        requires { IsSome (find_in serial self.now.tree) }
        ensures { result ≡ level_at serial self.now.tree }
    {
        match self.arena.find(serial) {
            Some(slot) => self.arena.climb(slot.parent, MAX_LEVEL),
            None => unreachable!(),
        }
    }

    /// How many children the node has.
    pub fn children_len(&self, serial: u64) -> usize
        requires { IsSome (find_in serial self.now.tree) }
        ensures { result ≡ width (node_at serial self.now.tree).children }
    {
        self.at(serial).children.len()
    }

    /// The serial of the child at place `i`, counted from 0.
    pub fn child_at(&self, serial: u64, i: usize) -> u64
        requires live { IsSome (find_in serial self.now.tree) }
        requires in_range { i < width (node_at serial self.now.tree).children }
        ensures { option_map (λ b. b.row.serial) (tree_at i (node_at serial self.now.tree).children)
            ≡ Some result }
    {
        let Some(slot) = self.arena.find(serial) else {
            unreachable!()
        };
        match self.arena.slots.get(slot.children.at(i)) {
            Some(child) => child.serial,
            None => unreachable!(),
        }
    }
}
