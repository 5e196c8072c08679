ghost use Rattle.std.specs.Prelude.{◌≡◌, ◌++◌, ℕ, IfOk, OnOk, OnErr};
ghost use Rattle.std.specs.Ordering.{nat_cmp};
ghost use Rattle.std.specs.Coded.{coded_ℕ};
ghost use Rattle.std.specs.FinMap as map;
ghost use Rattle.std.specs.FinSet as set;
ghost use Rattle.number_map.specs.Rows.{row_pairs};

use crate::rows::Row;
use std::alloc::{AllocError, Global};
use std::collections::BTreeMap;
use std::marker::Model;

/// A set of numbers: the keys of a map.
#[derive(Drop)]
pub struct NumberSet {
    numbers: NumberMap,
}

impl Model for NumberSet {
    ghost Value = { set.FinSet nat_cmp };

    ghost coded = { set.code coded_ℕ };

    ghost view = { λ a. set.from_list (map.keys a.numbers) };
}

impl NumberSet {
    /// The empty set.
    pub fn new(alloc: Global) -> NumberSet
        ensures { result ≡ set.empty }
    {
        NumberSet {
            numbers: NumberMap::new(alloc),
        }
    }

    /// Whether the number is in the set.
    pub fn contains(&self, number: u64) -> bool
        ensures { result ≡ set.contains self.now number }
    {
        self.numbers.get(number).is_some()
    }

    /// Puts the number in; one that is there stays. After want of memory the set is as before.
    pub fn insert(&mut self, number: u64) -> Result<(), AllocError>
        ensures put { OnOk result (self.new ≡ set.insert self.old number) }
        ensures kept { OnErr result (self.new ≡ self.old) }
    {
        self.numbers.insert(number, 0)?;
        Ok(())
    }

    /// Takes the number out, if it is there.
    pub fn remove(&mut self, number: u64)
        ensures { self.new ≡ set.remove self.old number }
    {
        self.numbers.remove(number);
    }

    /// Takes all numbers out.
    pub fn clear(&mut self)
        ensures { self.new ≡ set.empty }
    {
        self.numbers.clear();
    }
}

/// A map from numbers to numbers: keys that follow one another, or nearly, in a row, and the others in a tree. Where a key
/// stands in both, the row counts.
#[derive(Drop)]
pub struct NumberMap {
    row: Row,
    others: BTreeMap<u64, u64>,
}

impl Model for NumberMap {
    ghost Value = { map.FinMap nat_cmp ℕ };

    ghost coded = { map.code coded_ℕ coded_ℕ };

    ghost view = { λ a. map.from_entries (row_pairs a.row.first a.row.numbers.items ++ a.others.entries) };
}

impl NumberMap {
    /// The map without keys.
    pub fn new(alloc: Global) -> NumberMap
        ensures { result ≡ map.empty }
    {
        NumberMap {
            row: Row::new(alloc),
            others: BTreeMap::new(alloc),
        }
    }

    /// The map without keys, with room in its row for so many from that one on.
    pub(crate) fn spanning(
        alloc: Global,
        first: u64,
        places: usize,
    ) -> Result<NumberMap, AllocError>
        ensures { IfOk result (λ spanned. spanned ≡ map.empty) }
    {
        Ok(NumberMap {
            row: Row::spanning(alloc, first, places)?,
            others: BTreeMap::new(alloc),
        })
    }

    /// The number under the key, if there is one.
    pub fn get(&self, key: u64) -> Option<u64>
        ensures { result ≡ map.get self.now key }
    {
        self.row.get(key).or(self.others.get(&key).copied())
    }

    /// Puts the number under the key, in the place of one that is there. After want of memory the map is as before.
    pub fn insert(&mut self, key: u64, number: u64) -> Result<(), AllocError>
        ensures put { OnOk result (self.new ≡ map.insert self.old key number) }
        ensures kept { OnErr result (self.new ≡ self.old) }
    {
        if self.row.put(key, number)? {
            return Ok(());
        }
        self.others.insert(key, number)?;
        Ok(())
    }

    /// Gives the number that was there.
    pub fn remove(&mut self, key: u64) -> Option<u64>
        ensures was { result ≡ map.get self.old key }
        ensures left { self.new ≡ map.remove self.old key }
    {
        let number = self.row.take(key);
        number.or(self.others.remove(&key))
    }

    /// Takes all keys out.
    pub fn clear(&mut self)
        ensures { self.new ≡ map.empty }
    {
        self.row.clear();
        self.others.clear();
    }
}
