ghost use Rattle.std.specs.Prelude.{◌≡◌, ◌+◌, None, OnOk, OnErr};
ghost use Rattle.undo_marks.specs.Marks.{no_marks, entry_count, handed_out, noted, marked, crossed_over, past_popped, future_popped};
ghost use Rattle.undo_marks.specs.Marks.{past_pushed, future_pushed, groups_of, group_popped, group_pushed};

use crate::groups::Groups;
use crate::inverse_lists::{Inverse, Inverses, Popped};
use std::alloc::{AllocError, Global};
use std::marker::Model;

/// What is done with a group of edits: it is taken back, or done again.
#[derive(Clone, Copy)]
pub enum Direction {
    Undo,
    Redo,
}

/// A history of edits: groups that can be taken back, and groups that were taken back and can be done again.
#[derive(Drop)]
pub struct History {
    past: Groups,
    future: Groups,
    going: bool,
    crossed: bool,
}

impl Model for History {
    ghost use Rattle.undo_marks.specs.Marks.{Marks, coded_marks};
    ghost use Rattle.undo_marks.specs.declared.inverse_lists.Inverse.{Inverse};
    ghost use Rattle.undo_marks.specs.Codes.{coded_inverse};

    ghost Value = { Marks Inverse };

    ghost coded = { coded_marks coded_inverse };

    ghost view = { λ h. record { past = h.past; future = h.future; going = h.going; crossed = h.crossed } };
}

impl History {
    ghost use Rattle.undo_marks.specs.Pops.{IsPopped};

    /// A history without edits. Takes no memory.
    pub fn new(alloc: Global) -> History
        ensures { result ≡ no_marks }
    {
        History {
            past: Groups::new(alloc),
            future: Groups::new(alloc),
            going: false,
            crossed: false,
        }
    }

    /// Notes a client's edit by its inverse. A command of several edits notes each, in order. What was taken back can then
    /// no longer be done again.
    pub fn note(&mut self, inverse: Inverse) -> Result<(), AllocError>
        ensures ok { OnOk result (self.new ≡ noted inverse self.old) }
        ensures err { OnErr result (self.new ≡ self.old) }
    {
        if self.going {
            self.past.join(inverse)?;
        } else {
            self.past.start(inverse)?;
        }
        self.future.clear();
        self.going = true;
        self.crossed = false;
        Ok(())
    }

    /// Ends the group that is going on.
    pub fn mark(&mut self)
        ensures { self.new ≡ marked self.old }
    {
        self.going = false;
    }

    /// What is answered where there is no group.
    fn nothing(&self) -> Popped
        ensures { IsPopped result None self.now.crossed }
    {
        if self.crossed {
            Popped::Crossed
        } else {
            Popped::Nothing
        }
    }

    /// Hands out the group that is to be taken back. What applying it gives goes to `push_undone`. Takes no memory.
    pub fn pop_undo(&mut self) -> Popped
        ensures popped { IsPopped result (handed_out self.old.past) self.old.crossed }
        ensures after { self.new ≡ past_popped self.old }
    {
        let Some(group) = self.past.pop() else {
            return self.nothing();
        };
        self.going = false;
        Popped::Group(Inverses::reversed(group))
    }

    /// Hands out the group that is to be done again. What applying it gives goes to `push_redone`. Takes no memory.
    pub fn pop_redo(&mut self) -> Popped
        ensures popped { IsPopped result (handed_out self.old.future) self.old.crossed }
        ensures after { self.new ≡ future_popped self.old }
    {
        let Some(group) = self.future.pop() else {
            return self.nothing();
        };
        self.going = false;
        Popped::Group(Inverses::reversed(group))
    }

    /// Takes the inverses that applying a group of `pop_undo` gave, in the order in which they were made.
    pub fn push_undone(&mut self, group: Vec<Inverse>) -> Result<(), AllocError>
        ensures ok { OnOk result (self.new ≡ future_pushed group.items self.old) }
        ensures err { OnErr result (self.new ≡ self.old) }
    {
        self.future.push(group)?;
        self.going = false;
        Ok(())
    }

    /// Takes the inverses that applying a group of `pop_redo` gave, in the order in which they were made.
    pub fn push_redone(&mut self, group: Vec<Inverse>) -> Result<(), AllocError>
        ensures ok { OnOk result (self.new ≡ past_pushed group.items self.old) }
        ensures err { OnErr result (self.new ≡ self.old) }
    {
        self.past.push(group)?;
        self.going = false;
        Ok(())
    }

    /// `pop_undo` or `pop_redo`, by the direction. What applying the group gives goes to `push`. Takes no memory.
    pub fn pop(&mut self, direction: Direction) -> Popped
        ensures popped { IsPopped result (handed_out (groups_of direction self.old)) self.old.crossed }
        ensures after { self.new ≡ group_popped direction self.old }
    {
        match direction {
            Direction::Undo => self.pop_undo(),
            Direction::Redo => self.pop_redo(),
        }
    }

    /// `push_undone` or `push_redone`, by the direction.
    pub fn push(&mut self, direction: Direction, group: Vec<Inverse>) -> Result<(), AllocError>
        ensures ok { OnOk result (self.new ≡ group_pushed direction group.items self.old) }
        ensures err { OnErr result (self.new ≡ self.old) }
    {
        match direction {
            Direction::Undo => self.push_undone(group),
            Direction::Redo => self.push_redone(group),
        }
    }

    /// Forgets all edits at a change that is not the client's, and keeps that some were forgotten. Takes no memory.
    pub fn cross(&mut self)
        ensures { self.new ≡ crossed_over self.old }
    {
        if self.kept() > 0 {
            self.crossed = true;
        }
        self.past.clear();
        self.future.clear();
        self.going = false;
    }

    /// Forgets all edits, and that any were forgotten before, as at a load. Takes no memory.
    pub fn clear(&mut self)
        ensures { self.new ≡ no_marks }
    {
        self.past.clear();
        self.future.clear();
        self.going = false;
        self.crossed = false;
    }

    /// How many edits can be taken back or done again, in all groups. No memory holds so many that their number would not fit.
    pub fn kept(&self) -> u128
        ensures { result ≡ entry_count self.now.past + entry_count self.now.future }
    {
        self.past.count() + self.future.count()
    }
}
