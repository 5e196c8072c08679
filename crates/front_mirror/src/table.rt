ghost use Rattle.std.specs.Prelude.{◌≡◌, ◌≤◌, ℕ, None, Some, OnOk};
ghost use Rattle.std.specs.Option.{option_copied};
ghost use Rattle.front_mirror.specs.Tables.{table_slots, table_ids, table_climbed, PutsAt};

use crate::slots::Slot;
use number_map::NumberMap;
use std::alloc::{AllocError, Global};
use std::collections::BTreeMap;

/// The known nodes in slots, each under its id, and the id of each serial.
#[derive(Drop)]
pub(crate) struct Table {
    pub(crate) slots: BTreeMap<u64, Box<Slot>>,
    pub(crate) ids: NumberMap,
}

impl Table {
    /// No slots.
    pub(crate) fn new(alloc: Global) -> Table
        ensures slots { (k : ℕ) → table_slots result k ≡ None }
        ensures ids { (x : ℕ) → table_ids result x ≡ None }
    {
        Table {
            slots: BTreeMap::new(alloc),
            ids: NumberMap::new(alloc),
        }
    }

    /// The slot of an id.
    pub(crate) fn get(&self, id: u64) -> Option<&Slot>
        ensures { option_copied result ≡ table_slots self.now id }
    {
        let Some(slot) = self.slots.get(&id) else {
            return None;
        };
        Some(&**slot)
    }

    /// The id of a serial.
    pub(crate) fn id_of(&self, serial: u64) -> Option<u64>
        ensures { result ≡ table_ids self.now serial }
    {
        self.ids.get(serial)
    }

    /// How many slots there are from the one of that id up, at most so many.
    pub(crate) fn climb(&self, above: Option<u64>, levels: usize) -> usize
        ensures rise { result ≡ table_climbed self.now levels above }
        ensures few { result ≤ levels }
    {
        if levels == 0 {
            return 0;
        }
        let Some(id) = above else {
            return 0;
        };
        let Some(slot) = self.get(id) else {
            return 1;
        };
        self.climb(slot.parent, levels - 1) + 1
    }

    /// Puts a node into its slot.
    pub(crate) fn put(&mut self, alloc: Global, slot: Slot) -> Result<(), AllocError>
        ensures slots { OnOk result (PutsAt (table_slots self.old) (table_slots self.new) slot.id (Some slot)) }
        ensures ids { OnOk result (PutsAt (table_ids self.old) (table_ids self.new) slot.serial (Some slot.id)) }
    {
        let id = slot.id;
        self.ids.insert(slot.serial, id)?;
        self.slots.insert(id, Box::new(alloc, slot)?)?;
        Ok(())
    }
}
