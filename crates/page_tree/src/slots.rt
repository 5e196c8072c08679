ghost use Rattle.std.specs.Prelude.{◌≡◌, ◌<◌, ◌≤◌, ℕ, List, [], ◌∷◌, ◌++◌, length, Some, OnOk, OnErr, slice_get};
ghost use Rattle.std.specs.List.{insert, remove};
ghost use Rattle.number_map.specs.Places.{number_place};

use node_tree::{Attributes, Kind, Text};
use number_map::NumberList;
use std::alloc::{AllocError, Global};
use std::marker::Model;

/// A list of keys of slots, in which the place of a key is found without a look at the others.
#[derive(Drop)]
pub struct Keys {
    keys: NumberList,
}

impl Model for Keys {
    ghost use Rattle.std.specs.Prelude.{ℕ, List};

    ghost Value = { List ℕ };

    ghost view = { λ k. k.keys };
}

impl Keys {
    /// No keys; takes no memory.
    pub fn new(alloc: Global) -> Keys
        ensures { result ≡ [] }
    {
        Keys {
            keys: NumberList::new(alloc),
        }
    }

    /// How many keys there are.
    pub fn len(&self) -> usize
        ensures { result ≡ length self.now }
    {
        self.keys.len()
    }

    /// The key at place `i`, counted from 0.
    pub fn at(&self, i: usize) -> usize
        requires { i < length self.now }
        ensures { slice_get self.now i ≡ Some result }
    {
        self.keys.at(i) as usize
    }

    /// Puts a key last.
    pub fn push(&mut self, key: usize) -> Result<(), AllocError>
        ensures ok { OnOk result (self.new ≡ self.old ++ key ∷ []) }
        ensures err { OnErr result (self.new ≡ self.old) }
    {
        self.keys.push(key as u64)
    }

    /// Puts a key before the one at place `i`, or last.
    pub fn insert(&mut self, i: usize, key: usize) -> Result<(), AllocError>
        requires { i ≤ length self.old }
        ensures ok { OnOk result (self.new ≡ insert self.old i key) }
        ensures err { OnErr result (self.new ≡ self.old) }
    {
        self.keys.insert(i, key as u64)
    }

    /// Takes the key at place `i` out, where there is one.
    pub fn remove(&mut self, i: usize)
        ensures { self.new ≡ remove self.old i }
    {
        self.keys.remove(i);
    }

    /// The place of the first key that is this one, and else the number of the keys.
    pub fn place(&self, key: usize) -> usize
        ensures { result ≡ number_place key self.now }
    {
        self.keys.place(key as u64)
    }
}

/// A node of a page in its slot: all but its place, the key of its parent's slot, and the keys of its children's slots in
/// their order. The document has no parent.
#[derive(Drop)]
pub struct Slot {
    pub serial: u64,
    pub kind: Kind,
    pub name: Text,
    pub value: Text,
    pub attributes: Attributes,
    pub parent: Option<usize>,
    pub children: Keys,
}
