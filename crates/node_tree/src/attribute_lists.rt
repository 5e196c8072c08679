ghost use Rattle.std.specs.Prelude.{◌≡◌, ℕ, ◌<◌, ◌≤◌, List, [], ◌∷◌, ◌++◌, length, option_map, Some, true, IfOk, OnOk, OnErr, slice_get};
ghost use Rattle.std.specs.Prelude.{slice_set};
ghost use Rattle.std.specs.List.{insert, remove};
ghost use Rattle.node_tree.specs.Labels.{value_of, is_ascending};
ghost use Rattle.node_tree.specs.LabelChanges.{placed, pairs_without};

use crate::attribute_walks::Pairs;
use crate::shelves::Shelves;
use crate::texts::Text;
use std::alloc::{AllocError, Global};
use std::marker::Model;

/// A list of attributes, each a name and a value, which contracts see as the list of the pairs of their bytes.
///
/// Up to 128 stand in one block of memory. A longer list stands in shelves of up to as many, so that one more or less moves those of
/// one shelf alone. That is no clause.
#[derive(Drop)]
pub struct Attributes {
    shelves: Shelves,
}

impl Model for Attributes {
    ghost use Rattle.std.specs.Prelude.{ℕ, List};
    ghost use Rattle.node_tree.specs.Shelves.{pairs_in, Kept};

    ghost Value = { List (List ℕ × List ℕ) };

    ghost view = { λ a. pairs_in a.shelves };

    ghost invariant = { λ a. Kept a.shelves };
}

impl Attributes {
    /// No attributes; takes no memory.
    pub fn new(alloc: Global) -> Attributes
        ensures { result ≡ [] }
    {
        Attributes {
            shelves: Shelves::of(Vec::new(alloc)),
        }
    }

    /// Takes no memory.
    pub fn from_pairs(pairs: Vec<(Text, Text)>) -> Attributes
        ensures { result ≡ pairs.items }
    {
        Attributes {
            shelves: Shelves::of(pairs),
        }
    }

    /// The names and values, in their order.
    pub fn iter(&self) -> Pairs<'_>
        ensures { result ≡ self.now }
    {
        Pairs::of(self.shelves.first.as_slice(), self.shelves.later.as_slice())
    }

    /// How many attributes there are.
    pub fn len(&self) -> usize
        ensures { result ≡ length self.now }
    {
        self.shelves.len
    }

    /// The name and the value at place `i`, counted from 0.
    pub fn at(&self, i: usize) -> (&str, &str)
        requires { i < length self.now }
        ensures { slice_get self.now i ≡ Some (result.0.now, result.1.now) }
    {
        let pair = self.shelves.at(i);
        (pair.0.as_str(), pair.1.as_str())
    }

    /// The value of the first attribute of that name.
    pub fn get(&self, name: &str) -> Option<&str>
        ensures { option_map (λ v. v.now) result ≡ value_of name.now self.now }
    {
        for pair in self.iter() {
            if pair.0.as_str() == name {
                return Some(pair.1.as_str());
            }
        }
        None
    }

    /// Puts an attribute last, whatever its name.
    pub fn push(&mut self, name: Text, value: Text) -> Result<(), AllocError>
        ensures ok { OnOk result (self.new ≡ self.old ++ (name, value) ∷ []) }
        ensures err { OnErr result (self.new ≡ self.old) }
    {
        self.shelves.room()?;
        let (k, j) = self.shelves.end();
        let last = (name, value);
        self.shelves.insert(k, j, last)
    }

    /// Puts an attribute before the one at place `i`, or last.
    pub fn insert(&mut self, i: usize, name: Text, value: Text) -> Result<(), AllocError>
        requires { i ≤ length self.old }
        ensures ok { OnOk result (self.new ≡ insert self.old i (name, value)) }
        ensures err { OnErr result (self.new ≡ self.old) }
    {
        let (k, j) = self.shelves.spot(i);
        self.shelves.insert(k, j, (name, value))
    }

    /// Takes the attribute at place `i` out.
    pub fn remove(&mut self, i: usize) -> (Text, Text)
        requires { i < length self.old }
        ensures pair { slice_get self.old i ≡ Some result }
        ensures rest { self.new ≡ remove self.old i }
    {
        let (k, j) = self.shelves.within(i);
        self.shelves.take(k, j)
    }

    /// Gives the attribute at place `i` another value, and gives the old one.
    pub fn set_value(&mut self, i: usize, value: Text) -> Text
        requires { i < length self.old }
        ensures { (name : List ℕ) → (was : List ℕ) → slice_get self.old i ≡ Some (name, was)
            → (self.new ≡ slice_set self.old i (name, value)) × (result ≡ was) }
    {
        let (k, j) = self.shelves.within(i);
        self.shelves.set(k, j, value)
    }

    /// Sets the attribute of that name, or adds it in its place, and gives the old value.
    pub(crate) fn set_named(&mut self, name: Text, value: Text) -> Result<Option<Text>, AllocError>
        requires { is_ascending self.old ≡ true }
        ensures ok { OnOk result (self.new ≡ placed (name, value) self.old) }
        ensures was { IfOk result (λ was. was ≡ value_of name self.old) }
        ensures err { OnErr result (self.new ≡ self.old) }
    {
        let (k, found) = self.shelves.find(name.as_str());
        match found {
            Ok(j) => Ok(Some(self.shelves.set(k, j, value))),
            Err(j) => {
                self.shelves.insert(k, j, (name, value))?;
                Ok(None)
            }
        }
    }

    /// Takes the attribute of that name away, and gives its value.
    pub(crate) fn remove_named(&mut self, name: &str) -> Option<Text>
        requires { is_ascending self.old ≡ true }
        ensures rest { self.new ≡ pairs_without name.now self.old }
        ensures was { result ≡ value_of name.now self.old }
    {
        let (k, found) = self.shelves.find(name);
        match found {
            Ok(j) => {
                let (_name, value) = self.shelves.take(k, j);
                Some(value)
            }
            Err(_) => None,
        }
    }

    /// A copy of the list and of its texts.
    pub fn try_clone(&self, alloc: Global) -> Result<Attributes, AllocError>
        ensures { IfOk result (λ copy. copy ≡ self.now) }
    {
        Ok(Attributes {
            shelves: self.shelves.try_clone(alloc)?,
        })
    }
}
