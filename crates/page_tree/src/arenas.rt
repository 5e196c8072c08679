ghost use Rattle.std.specs.Prelude.{◌≡◌, ◌+◌, ◌≤◌, ℕ, [], ◌∷◌, Some, None, IfOk, OnOk, OnErr, vec_len, slice_get, option_and_then};
ghost use Rattle.std.specs.Option.{option_copied, option_map_or};
ghost use Rattle.node_tree.specs.Nodes.{alone, nodes_of, node_count};
ghost use Rattle.node_tree.specs.Keys.{tally};
ghost use Rattle.page_tree.specs.Pages.{row_serial};
ghost use Rattle.page_tree.specs.Arenas.{slots_in, keys_in, Filed, Stored, stored_trees, Fresh, Grown, Shrunk, Came, Turned, SameSlots};
ghost use Rattle.page_tree.specs.Arenas.{listed, slot_row, slot_of, climbed, place_in, sibling_keys, sibling_slot};

use crate::slots::{Keys, Slot};
use crate::trees::Tree;
use slab::Slab;
use std::alloc::{AllocError, Global};
use std::collections::BTreeMap;

/// The nodes of a page in slots, and the key of each serial's slot.
#[derive(Drop)]
pub struct Arena {
    pub slots: Slab<Slot>,
    pub keys: BTreeMap<u64, usize>,
}

impl Arena {
    /// No slots.
    pub fn new(alloc: Global) -> Arena
        ensures slots { (k : ℕ) → slots_in result k ≡ None }
        ensures keys { (x : ℕ) → keys_in result x ≡ None }
    {
        Arena {
            slots: Slab::new(alloc),
            keys: BTreeMap::new(alloc),
        }
    }

    /// The slot of a serial.
    pub fn find(&self, serial: u64) -> Option<&Slot>
        ensures { option_copied result ≡ slot_of self.now serial }
    {
        let Some(key) = self.keys.get(&serial) else {
            return None;
        };
        self.slots.get(*key)
    }

    /// The key of a serial's slot.
    pub fn key(&self, serial: u64) -> Option<usize>
        ensures { result ≡ keys_in self.now serial }
    {
        self.keys.get(&serial).copied()
    }

    /// The slot of the first child.
    pub fn first_child(&self, slot: &Slot) -> Option<&Slot>
        ensures { option_copied result ≡ option_and_then (slots_in self.now) (slice_get slot.now.children 0) }
    {
        if slot.children.len() == 0 {
            return None;
        }
        self.slots.get(slot.children.at(0))
    }

    /// The keys of a slot and its siblings, in their order; the root's slot has none.
    fn siblings(&self, slot: &Slot) -> Option<&Keys>
        ensures { option_map_or (λ keys. keys.now) result [] ≡ sibling_keys self.now slot.now }
    {
        let Some(key) = slot.parent else {
            return None;
        };
        match self.slots.get(key) {
            Some(over) => Some(&over.children),
            None => None,
        }
    }

    /// The slot at that place among a slot and its siblings.
    pub fn sibling(&self, slot: &Slot, i: usize) -> Option<&Slot>
        ensures { option_copied result ≡ sibling_slot self.now slot.now i }
    {
        let Some(keys) = self.siblings(slot) else {
            return None;
        };
        if i >= keys.len() {
            return None;
        }
        self.slots.get(keys.at(i))
    }

    /// The place of a slot among it and its siblings.
    pub fn seat(&self, slot: &Slot) -> usize
        requires { Filed self.now }
        ensures { result ≡ place_in self.now slot.now.serial (sibling_keys self.now slot.now) }
    {
        match self.siblings(slot) {
            Some(keys) => self.place(keys, slot.serial),
            None => 0,
        }
    }

    /// How many slots there are from the one under that key up, at most so many.
    pub fn climb(&self, above: Option<usize>, levels: u64) -> u64
        ensures rise { result ≡ climbed self.now levels above }
        ensures few { result ≤ levels }
    {
        if levels == 0 {
            return 0;
        }
        let Some(key) = above else {
            return 0;
        };
        let Some(slot) = self.slots.get(key) else {
            return 1;
        };
        self.climb(slot.parent, levels - 1) + 1
    }

    /// Puts a node into a slot of its own.
    fn put(&mut self, slot: Slot) -> Result<usize, AllocError>
        requires filed { Filed self.old }
        requires absent { keys_in self.old slot.serial ≡ None }
        ensures filed { Filed self.new }
        ensures ok { IfOk result (λ key. Came self.old self.new key slot) }
        ensures err { OnErr result (SameSlots self.old self.new) }
    {
        self.slots.reserve(1)?;
        let key = self.slots.vacant_key();
        self.keys.insert(slot.serial, key)?;
        Ok(self.slots.insert_reserved(slot))
    }

    /// Tells a slot of its children.
    fn set_children(&mut self, key: usize, children: Keys)
        ensures keys { self.new.keys ≡ self.old.keys }
        ensures slots { Turned self.old self.new key (λ slot. record slot { children = children }) }
    {
        if let Some(slot) = self.slots.get_mut(key) {
            slot.children = children;
        }
    }

    /// Takes the slot of a serial out, where it has one.
    fn remove(&mut self, serial: u64)
        requires { Filed self.old }
        ensures filed { Filed self.new }
        ensures shrunk { Shrunk self.old self.new (serial ∷ []) }
    {
        if let Some(key) = self.keys.remove(&serial) {
            self.slots.try_remove(key);
        }
    }

    /// Takes the slots of these serials out.
    pub fn remove_all(&mut self, serials: &[u64])
        requires { Filed self.old }
        ensures filed { Filed self.new }
        ensures shrunk { Shrunk self.old self.new serials.now }
    {
        for serial in serials {
            self.remove(*serial);
        }
    }

    /// Puts a tree into slots of their own, below the slot `above`. After want of memory some of them may stand.
    #[cycle(planting)]
    pub fn plant(
        &mut self,
        alloc: Global,
        tree: Tree,
        above: Option<usize>,
    ) -> Result<usize, AllocError>
        requires filed { Filed self.old }
        requires fresh { Fresh self.old (alone tree) }
        ensures filed { Filed self.new }
        ensures grown { Grown self.old self.new (alone tree) }
        ensures ok { IfOk result (λ key. Stored self.new (alone tree) above (key ∷ [])) }
    {
        let slot = Slot {
            serial: tree.serial,
            kind: tree.kind,
            name: tree.name,
            value: tree.value,
            attributes: tree.attributes,
            parent: above,
            children: Keys::new(alloc),
        };
        let key = self.put(slot)?;
        let children = self.plant_all(alloc, tree.children, key)?;
        self.set_children(key, children);
        Ok(key)
    }

    /// Puts trees that stand side by side into slots of their own, below the slot `parent`.
    #[cycle(planting)]
    fn plant_all(
        &mut self,
        alloc: Global,
        trees: Vec<Tree>,
        parent: usize,
    ) -> Result<Keys, AllocError>
        requires filed { Filed self.old }
        requires fresh { Fresh self.old (nodes_of trees.items) }
        ensures filed { Filed self.new }
        ensures grown { Grown self.old self.new (nodes_of trees.items) }
        ensures ok { IfOk result (λ keys. Stored self.new (nodes_of trees.items) (Some parent) keys) }
    {
        let mut keys = Keys::new(alloc);
        for tree in trees {
            let key = self.plant(alloc, tree, Some(parent))?;
            keys.push(key)?;
        }
        Ok(keys)
    }

    /// The tree of a slot, so many levels below it, copied.
    #[cycle(nesting)]
    pub fn nested(&self, alloc: Global, slot: &Slot, levels: u64) -> Result<Tree, AllocError>
        ensures { IfOk result (λ tree. tree
            ≡ record { row = slot_row slot.now; children = stored_trees self.now levels slot.now.children }) }
    {
        let children = self.nested_all(alloc, &slot.children, levels)?;
        Ok(Tree {
            serial: slot.serial,
            kind: slot.kind,
            name: slot.name.try_clone()?,
            value: slot.value.try_clone()?,
            attributes: slot.attributes.try_clone(alloc)?,
            children,
        })
    }

    /// The trees in the slots under these keys, so many levels down, copied.
    #[cycle(nesting)]
    fn nested_all(&self, alloc: Global, keys: &Keys, levels: u64) -> Result<Vec<Tree>, AllocError>
        ensures { IfOk result (λ trees. nodes_of trees.items ≡ stored_trees self.now levels keys.now) }
    {
        let mut trees = Vec::new(alloc);
        if levels == 0 {
            return Ok(trees);
        }
        for i in 0..keys.len() {
            if let Some(slot) = self.slots.get(keys.at(i)) {
                trees.push(self.nested(alloc, slot, levels - 1)?)?;
            }
        }
        Ok(trees)
    }
}

/// The serials of the trees, put last in the list.
pub fn list_serials(trees: &[Tree], serials: &mut Vec<u64>) -> Result<(), AllocError>
    ensures listed { OnOk result ((x : ℕ) → listed x serials.new.items
        ≡ listed x serials.old.items + tally row_serial x (nodes_of trees.now)) }
    ensures count { OnOk result (vec_len serials.new ≡ vec_len serials.old + node_count (nodes_of trees.now)) }
{
    for tree in trees {
        serials.push(tree.serial)?;
        list_serials(&tree.children, serials)?;
    }
    Ok(())
}
