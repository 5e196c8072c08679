ghost use Rattle.std.specs.Prelude.{◌≡◌, ◌<◌, [], ◌∷◌, option_map, OnOk, OnErr};
ghost use Rattle.undo_marks.specs.Marks.{entry_count, newest, older, onto_newest};
ghost use Rattle.undo_marks.specs.Groups.{entries_limit};

use crate::inverse_lists::Inverse;
use std::alloc::{AllocError, Global};
use std::marker::Model;

/// A stack of groups, which contracts see with the newest first. Their edits are counted in a type that no memory overflows: there are
/// fewer than 2^63 groups, of fewer than 2^63 edits each.
#[derive(Drop)]
pub struct Groups {
    alloc: Global,
    groups: Vec<Vec<Inverse>>,
    count: u128,
}

impl Model for Groups {
    ghost use Rattle.std.specs.Prelude.{◌≡◌, List};
    ghost use Rattle.undo_marks.specs.declared.inverse_lists.Inverse.{Inverse};
    ghost use Rattle.undo_marks.specs.Codes.{coded_inverses};
    ghost use Rattle.std.specs.Coded.{coded_list};
    ghost use Rattle.undo_marks.specs.Marks.{entry_count};
    ghost use Rattle.undo_marks.specs.Groups.{groups_in};

    ghost Value = { List (List Inverse) };

    ghost coded = { coded_list coded_inverses };

    ghost view = { λ g. groups_in g.groups.items };

    ghost invariant = { λ g. g.count ≡ entry_count (groups_in g.groups.items) };
}

impl Groups {
    /// No groups; takes no memory.
    pub fn new(alloc: Global) -> Groups
        ensures { result ≡ [] }
    {
        Groups {
            alloc,
            groups: Vec::new(alloc),
            count: 0,
        }
    }

    /// How many edits the groups have.
    pub fn count(&self) -> u128
        ensures value { result ≡ entry_count self.now }
        ensures fits { result < entries_limit }
    {
        self.count
    }

    /// Puts a group on top.
    pub fn push(&mut self, group: Vec<Inverse>) -> Result<(), AllocError>
        ensures ok { OnOk result (self.new ≡ group.items ∷ self.old) }
        ensures err { OnErr result (self.new ≡ self.old) }
    {
        let count = self.count + group.len() as u128;
        self.groups.push(group)?;
        self.count = count;
        Ok(())
    }

    /// Puts a group of one edit on top.
    pub fn start(&mut self, inverse: Inverse) -> Result<(), AllocError>
        ensures ok { OnOk result (self.new ≡ (inverse ∷ []) ∷ self.old) }
        ensures err { OnErr result (self.new ≡ self.old) }
    {
        let mut group = Vec::new(self.alloc);
        group.push(inverse)?;
        self.push(group)
    }

    /// Puts the edit last into the newest group, or into a first one.
    pub fn join(&mut self, inverse: Inverse) -> Result<(), AllocError>
        ensures ok { OnOk result (self.new ≡ onto_newest (inverse ∷ []) self.old) }
        ensures err { OnErr result (self.new ≡ self.old) }
    {
        let count = self.count + 1;
        let Some(group) = self.groups.last_mut() else {
            return self.start(inverse);
        };
        group.push(inverse)?;
        self.count = count;
        Ok(())
    }

    /// Takes the newest group off.
    pub fn pop(&mut self) -> Option<Vec<Inverse>>
        ensures group { option_map (λ v. v.items) result ≡ newest self.old }
        ensures rest { self.new ≡ older self.old }
    {
        let group = self.groups.pop()?;
        self.count -= group.len() as u128;
        Some(group)
    }

    /// Takes all groups off.
    pub fn clear(&mut self)
        ensures { self.new ≡ [] }
    {
        self.groups.clear();
        self.count = 0;
    }
}
