// Changes of single slots of the table.
ghost use Rattle.std.specs.Prelude.{◌≡◌, ◌==◌, ◌||◌, true, Some, None, OnOk};
ghost use Rattle.node_tree.specs.Labels.{is_ascending};
ghost use Rattle.node_tree.specs.LabelChanges.{placed, pairs_without};
ghost use Rattle.client_views.specs.Views.{is_in};
ghost use Rattle.front_mirror.specs.declared.slots.Slot.{Slot};
ghost use Rattle.front_mirror.specs.declared.slots.Below.TheVariants.{Opened};
ghost use Rattle.front_mirror.specs.IdLists.{id_after, without_id};
ghost use Rattle.front_mirror.specs.Tables.{table_slots, table_ids, TableTurned, PutsAt, IsListed, without_slots};

use crate::child_ids::ChildIds;
use crate::slots::{Below, Slot};
use crate::table::Table;
use node_tree::{Text, drop_attribute, set_attribute};
use std::alloc::AllocError;

impl Table {
    /// What is shown below a node, but for its children.
    pub(crate) fn set_below(&mut self, id: u64, below: Below)
        ensures ids { self.new.ids ≡ self.old.ids }
        ensures slots { TableTurned self.old self.new id (λ slot. record slot { below = below }) }
    {
        if let Some(slot) = self.slots.get_mut(&id) {
            slot.below = below;
        }
    }

    /// Its children are shown from now on.
    pub(crate) fn open(&mut self, id: u64, children: ChildIds)
        ensures ids { self.new.ids ≡ self.old.ids }
        ensures slots { TableTurned self.old self.new id (λ slot. record slot { below = Opened; children = children }) }
    {
        if let Some(slot) = self.slots.get_mut(&id) {
            slot.below = Below::Opened;
            slot.children = children;
        }
    }

    /// Its value is this one.
    pub(crate) fn set_value(&mut self, id: u64, value: Text)
        ensures ids { self.new.ids ≡ self.old.ids }
        ensures slots { TableTurned self.old self.new id (λ slot. record slot { value = value }) }
    {
        if let Some(slot) = self.slots.get_mut(&id) {
            slot.value = value;
        }
    }

    /// Sets the attribute of that name, or adds it in its place.
    pub(crate) fn set_attr(&mut self, id: u64, name: Text, value: Text) -> Result<(), AllocError>
        requires { (slot : Slot) → table_slots self.old id ≡ Some slot → is_ascending slot.attributes ≡ true }
        ensures ids { self.new.ids ≡ self.old.ids }
        ensures slots { OnOk result (TableTurned self.old self.new id
            (λ slot. record slot { attributes = placed (name, value) slot.attributes })) }
    {
        if let Some(slot) = self.slots.get_mut(&id) {
            let _was = set_attribute(&mut slot.attributes, name, value)?;
        }
        Ok(())
    }

    /// Takes the attribute of that name away, where there is one.
    pub(crate) fn drop_attr(&mut self, id: u64, name: &str)
        requires { (slot : Slot) → table_slots self.old id ≡ Some slot → is_ascending slot.attributes ≡ true }
        ensures ids { self.new.ids ≡ self.old.ids }
        ensures slots { TableTurned self.old self.new id (λ slot. record slot { attributes = pairs_without name.now slot.attributes }) }
    {
        if let Some(slot) = self.slots.get_mut(&id) {
            let _was = drop_attribute(&mut slot.attributes, name);
        }
    }

    /// Puts an id behind another among those of the children, or first where that is 0.
    pub(crate) fn insert_child(
        &mut self,
        id: u64,
        previous: u64,
        child: u64,
    ) -> Result<(), AllocError>
        requires { (slot : Slot) → table_slots self.old id ≡ Some slot → (previous == 0 || is_in previous slot.children) ≡ true }
        ensures ids { self.new.ids ≡ self.old.ids }
        ensures slots { OnOk result (TableTurned self.old self.new id
            (λ slot. record slot { children = id_after previous child slot.children })) }
    {
        match self.slots.get_mut(&id) {
            Some(slot) => slot.children.insert_after(previous, child),
            None => Ok(()),
        }
    }

    /// Takes an id out from among those of the children.
    pub(crate) fn remove_child(&mut self, id: u64, child: u64)
        ensures ids { self.new.ids ≡ self.old.ids }
        ensures slots { TableTurned self.old self.new id (λ slot. record slot { children = without_id child slot.children }) }
    {
        if let Some(slot) = self.slots.get_mut(&id) {
            slot.children.remove(child);
        }
    }

    fn take_slot(&mut self, id: u64) -> Option<Slot>
        ensures ids { self.new.ids ≡ self.old.ids }
        ensures slots { PutsAt (table_slots self.old) (table_slots self.new) id None }
        ensures was { result ≡ table_slots self.old id }
    {
        match self.slots.remove(&id) {
            Some(slot) => Some(Box::into_inner(slot)),
            None => None,
        }
    }

    fn drop_serial(&mut self, serial: u64)
        ensures slots { self.new.slots ≡ self.old.slots }
        ensures ids { PutsAt (table_ids self.old) (table_ids self.new) serial None }
    {
        self.ids.remove(serial);
    }

    /// Takes the slot of an id out, where it has one.
    fn remove(&mut self, id: u64)
        requires { IsListed self.old }
        ensures listed { IsListed self.new }
        ensures slots { PutsAt (table_slots self.old) (table_slots self.new) id None }
    {
        if let Some(slot) = self.take_slot(id) {
            self.drop_serial(slot.serial);
        }
    }

    /// Takes the slots of these ids out.
    pub(crate) fn remove_all(&mut self, ids: &[u64])
        requires { IsListed self.old }
        ensures listed { IsListed self.new }
        ensures slots { table_slots self.new ≡ without_slots ids.now (table_slots self.old) }
    {
        for id in ids {
            self.remove(*id);
        }
    }
}
