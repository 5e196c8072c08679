ghost use Rattle.std.specs.Prelude.{◌≡◌, ◌≤◌, true, length, drop, Option, Some, None, IfOk, OnOk, OnErr, IsSome};
ghost use Rattle.node_tree.specs.Levels.{most_levels};
ghost use Rattle.std.specs.List.{insert, remove};
ghost use Rattle.node_tree.specs.Nodes.{alone};
ghost use Rattle.node_tree.specs.Labels.{is_ascending, value_of};
ghost use Rattle.page_tree.specs.Loads.{placed};
ghost use Rattle.page_tree.specs.Edits.{pairs_without};
ghost use Rattle.page_tree.specs.Arenas.{slots_in, Filed, Fresh, Grown, Turned, SameSlots, slot_of, slot_row, stored_trees};
ghost use Rattle.page_tree.specs.Arenas.{place_in, first_in, next_in, without_child_key, graft_point, Grafted, Cut};
ghost use Rattle.page_tree.specs.declared.slots.Slot.{Slot};

use crate::arenas::{Arena, list_serials};
use crate::slots::Keys;
use crate::trees::Tree;
use node_tree::{MOST_LEVELS, Text, drop_attribute, set_attribute};
use std::alloc::{AllocError, Global};
use std::{mem, slice};

impl Arena {
    /// The place of the first key whose slot has the serial, and else the number of the keys. No slot of these keys is looked at.
    pub fn place(&self, keys: &Keys, serial: u64) -> usize
        requires { Filed self.now }
        ensures { result ≡ place_in self.now serial keys.now }
    {
        match self.key(serial) {
            Some(key) => keys.place(key),
            None => keys.len(),
        }
    }

    /// The serial of the slot under the key at place `i`, and 0 where there is none.
    fn serial_at(&self, keys: &Keys, i: usize) -> u64
        ensures { result ≡ first_in self.now (drop i keys.now) }
    {
        if i >= keys.len() {
            return 0;
        }
        match self.slots.get(keys.at(i)) {
            Some(slot) => slot.serial,
            None => 0,
        }
    }

    /// The serial of the slot right after the one of that serial, and 0 where there is none.
    pub fn next_sibling(&self, keys: &Keys, serial: u64) -> u64
        requires { Filed self.now }
        ensures { result ≡ next_in self.now serial keys.now }
    {
        let i = self.place(keys, serial);
        if i >= keys.len() {
            return 0;
        }
        self.serial_at(keys, i + 1)
    }

    /// Puts another value into a slot, and gives the old one.
    pub fn set_value(&mut self, key: usize, value: Text) -> Option<Text>
        ensures keys { self.new.keys ≡ self.old.keys }
        ensures slots { Turned self.old self.new key (λ slot. record slot { value = value }) }
        ensures was { (slot : Slot) → slots_in self.old key ≡ Some slot → result ≡ Some slot.value }
    {
        match self.slots.get_mut(key) {
            Some(slot) => Some(mem::replace(&mut slot.value, value)),
            None => None,
        }
    }

    /// Sets an attribute of a slot, and gives its old value.
    pub fn set_attr(
        &mut self,
        key: usize,
        name: Text,
        value: Text,
    ) -> Result<Option<Text>, AllocError>
        requires { (slot : Slot) → slots_in self.old key ≡ Some slot → is_ascending slot.attributes ≡ true }
        ensures keys { self.new.keys ≡ self.old.keys }
        ensures ok { OnOk result (Turned self.old self.new key
            (λ slot. record slot { attributes = placed (name, value) slot.attributes })) }
        ensures was { IfOk result (λ was. (slot : Slot) → slots_in self.old key ≡ Some slot → was ≡ value_of name slot.attributes) }
        ensures err { OnErr result (SameSlots self.old self.new) }
    {
        match self.slots.get_mut(key) {
            Some(slot) => set_attribute(&mut slot.attributes, name, value),
            None => Ok(None),
        }
    }

    /// Takes an attribute of a slot away, and gives its value.
    pub fn drop_attr(&mut self, key: usize, name: &str) -> Option<Text>
        requires { (slot : Slot) → slots_in self.old key ≡ Some slot → is_ascending slot.attributes ≡ true }
        ensures keys { self.new.keys ≡ self.old.keys }
        ensures slots { Turned self.old self.new key (λ slot. record slot { attributes = pairs_without name.now slot.attributes }) }
        ensures was { (slot : Slot) → slots_in self.old key ≡ Some slot → result ≡ value_of name.now slot.attributes }
    {
        match self.slots.get_mut(key) {
            Some(slot) => drop_attribute(&mut slot.attributes, name),
            None => None,
        }
    }

    fn insert_child(&mut self, key: usize, i: usize, child: usize) -> Result<(), AllocError>
        requires { (slot : Slot) → slots_in self.old key ≡ Some slot → i ≤ length slot.children }
        ensures keys { self.new.keys ≡ self.old.keys }
        ensures ok { OnOk result (Turned self.old self.new key (λ slot. record slot { children = insert slot.children i child })) }
        ensures err { OnErr result (SameSlots self.old self.new) }
    {
        match self.slots.get_mut(key) {
            Some(slot) => slot.children.insert(i, child),
            None => Ok(()),
        }
    }

    fn remove_child(&mut self, key: usize, i: usize)
        ensures keys { self.new.keys ≡ self.old.keys }
        ensures slots { Turned self.old self.new key (λ slot. record slot { children = remove slot.children i }) }
    {
        if let Some(slot) = self.slots.get_mut(key) {
            slot.children.remove(i);
        }
    }

    /// Takes the key of a serial out from among the children of a slot.
    fn cut_child(&mut self, key: usize, serial: u64)
        requires { Filed self.old }
        ensures keys { self.new.keys ≡ self.old.keys }
        ensures slots { Turned self.old self.new key (without_child_key self.old serial) }
    {
        let i = match self.slots.get(key) {
            Some(slot) => self.place(&slot.children, serial),
            None => 0,
        };
        self.remove_child(key, i);
    }

    /// Plants a tree among the children of a slot. After want of memory some slots of the tree may stand.
    fn graft(
        &mut self,
        alloc: Global,
        key: usize,
        before: u64,
        tree: Tree,
    ) -> Result<(), AllocError>
        requires filed { Filed self.old }
        requires fresh { Fresh self.old (alone tree) }
        requires there { IsSome (slots_in self.old key) }
        ensures filed { Filed self.new }
        ensures ok { OnOk result (Grafted self.old self.new (graft_point key before) tree) }
        ensures err { OnErr result (Grown self.old self.new (alone tree)) }
    {
        let i = match self.slots.get(key) {
            Some(slot) => self.place(&slot.children, before),
            None => unreachable!(),
        };
        let child = self.plant(alloc, tree, Some(key))?;
        self.insert_child(key, i, child)
    }

    /// Puts a tree among the children of a slot, before the one of that serial, or last where there is none.
    pub fn attach(
        &mut self,
        alloc: Global,
        key: usize,
        before: u64,
        tree: Tree,
    ) -> Result<(), AllocError>
        requires filed { Filed self.old }
        requires fresh { Fresh self.old (alone tree) }
        requires there { IsSome (slots_in self.old key) }
        ensures filed { Filed self.new }
        ensures ok { OnOk result (Grafted self.old self.new (graft_point key before) tree) }
        ensures err { OnErr result (SameSlots self.old self.new) }
    {
        let mut serials = Vec::new(alloc);
        list_serials(slice::from_ref(&tree), &mut serials)?;
        match self.graft(alloc, key, before, tree) {
            Ok(()) => Ok(()),
            Err(stop) => {
                self.remove_all(&serials);
                Err(stop)
            }
        }
    }

    /// Takes the slot of a serial out, with all below it, from among the children of the slot `key`, and gives its tree.
    pub fn detach(&mut self, alloc: Global, key: usize, serial: u64) -> Result<Tree, AllocError>
        requires filed { Filed self.old }
        requires there { IsSome (slot_of self.old serial) }
        requires above { IsSome (slots_in self.old key) }
        ensures filed { Filed self.new }
        ensures tree { IfOk result (λ tree. (slot : Slot) → slot_of self.old serial ≡ Some slot
            → tree ≡ record { row = slot_row slot; children = stored_trees self.old most_levels slot.children }) }
        ensures ok { IfOk result (λ tree. Cut self.old self.new (graft_point key serial) tree) }
        ensures err { OnErr result (self.new ≡ self.old) }
    {
        let tree = match self.find(serial) {
            Some(slot) => self.nested(alloc, slot, MOST_LEVELS)?,
            None => unreachable!(),
        };
        let mut serials = Vec::new(alloc);
        list_serials(slice::from_ref(&tree), &mut serials)?;
        self.cut_child(key, serial);
        self.remove_all(&serials);
        Ok(tree)
    }
}
