// The ids of nodes that stand side by side.
ghost use Rattle.std.specs.Prelude.{◌≡◌, ◌<◌, ◌≤◌, ◌==◌, ◌||◌, true, ℕ, [], ◌∷◌, ◌++◌, length, Some, IfOk, OnOk, slice_get};
ghost use Rattle.std.specs.List.{insert};
ghost use Rattle.client_views.specs.Views.{is_in};
ghost use Rattle.number_map.specs.Places.{number_place};
ghost use Rattle.front_mirror.specs.IdLists.{id_after, without_id};

use number_map::NumberList;
use std::alloc::{AllocError, Global};
use std::marker::Model;

/// The ids of nodes that stand side by side, in their order: those of a node's children, or of the roots. One is found among
/// thousands in a few steps.
#[derive(Drop)]
pub(crate) struct ChildIds {
    ids: NumberList,
}

impl Model for ChildIds {
    ghost use Rattle.std.specs.Prelude.{ℕ, List};

    ghost Value = { List ℕ };

    ghost view = { λ l. l.ids };
}

impl ChildIds {
    /// No ids.
    pub(crate) fn new(alloc: Global) -> ChildIds
        ensures { result ≡ [] }
    {
        ChildIds {
            ids: NumberList::new(alloc),
        }
    }

    /// No ids, with room for so many.
    pub(crate) fn with_room(alloc: Global, count: usize) -> Result<ChildIds, AllocError>
        ensures { IfOk result (λ ids. ids ≡ []) }
    {
        Ok(ChildIds {
            ids: NumberList::with_room(alloc, count)?,
        })
    }

    /// How many ids they are.
    pub(crate) fn len(&self) -> usize
        ensures { result ≡ length self.now }
    {
        self.ids.len()
    }

    /// The id at place `i`, counted from 0.
    pub(crate) fn at(&self, i: usize) -> u64
        requires { i < length self.now }
        ensures { slice_get self.now i ≡ Some result }
    {
        self.ids.at(i)
    }

    /// Puts an id behind the others.
    pub(crate) fn push(&mut self, id: u64) -> Result<(), AllocError>
        ensures { OnOk result (self.new ≡ self.old ++ id ∷ []) }
    {
        self.ids.push(id)
    }

    /// The place of the first that is the id, and else the number of them.
    pub(crate) fn place(&self, id: u64) -> usize
        ensures { result ≡ number_place id self.now }
    {
        self.ids.place(id)
    }

    /// Whether the id is one of them.
    pub(crate) fn has(&self, id: u64) -> bool
        ensures { result ≡ is_in id self.now }
    {
        self.place(id) < self.len()
    }

    /// Puts an id behind another, or first where that is 0.
    pub(crate) fn insert_after(&mut self, previous: u64, id: u64) -> Result<(), AllocError>
        requires { (previous == 0 || is_in previous self.old) ≡ true }
        ensures { OnOk result (self.new ≡ id_after previous id self.old) }
    {
        let i = self.place_after(previous);
        self.ids.insert(i, id)?;
        Ok(())
    }

    /// The place behind an id, or the first where that is 0.
    fn place_after(&self, previous: u64) -> usize
        requires { (previous == 0 || is_in previous self.now) ≡ true }
        ensures within { result ≤ length self.now }
        ensures behind { (id : ℕ) → insert self.now result id ≡ id_after previous id self.now }
    {
        if previous == 0 {
            return 0;
        }
        let i = self.place(previous);
        let len = self.len();
        if i >= len {
            unreachable!()
        }
        i + 1
    }

    /// Takes an id out, where it is one of them.
    pub(crate) fn remove(&mut self, id: u64)
        ensures { self.new ≡ without_id id self.old }
    {
        let i = self.place(id);
        self.ids.remove(i);
    }
}
