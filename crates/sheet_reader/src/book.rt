//! A book of style sheets: texts with their readings, in order.

ghost use Rattle.std.specs.Prelude.{◌≡◌, All, ◌<◌, ◌++◌, ◌∷◌, [], length, None, Some, IsSome, IfSome, slice_get, option_copied, nat_eq};
ghost use Rattle.std.specs.Prelude.{OnOk, OnErr, IfOk};
ghost use Rattle.std.specs.Prelude.{IsSomeAnd};
ghost use Rattle.indexmap.specs.IndexMap.{get, insert_entry, shift_remove_entry};
ghost use Rattle.sheet_reader.specs.Books.{IsEntry, IsStored, AreApart, entry_of, entry_place, book_changed, removed};
ghost use Rattle.sheet_reader.specs.Rereads.{CanRetell, retold};

use crate::lists::{MediaRules, Places, StyleRules};
use crate::rereads::{Rereading, carry_out};
use crate::rules::read_sheet;
use crate::sheet::Sheet;
use crate::sheet_texts::SheetText;
use indexmap::IndexMap;
use node_tree::Origin;
use std::alloc::{AllocError, Global};
use std::marker::Model;

/// A sheet: its text, and what it says.
#[derive(Drop)]
pub struct SheetEntry {
    pub id: u64,
    pub origin: Origin,
    pub text: SheetText,
    pub reading: Sheet,
}

/// Style sheets in order, each with an id of its own from 1 to 2^53 - 1, a text of at most 2^24 bytes, and the reading of
/// that text.
#[derive(Drop)]
pub struct SheetBook {
    entries: IndexMap<u64, SheetEntry>,
    alloc: Global,
}

impl Model for SheetBook {
    ghost use Rattle.std.specs.Prelude.{List};
    ghost use Rattle.sheet_reader.specs.declared.book.SheetEntry.{SheetEntry};
    ghost use Rattle.sheet_reader.specs.Books.{AreEntries, entries_in};

    ghost Value = { List SheetEntry };

    ghost view = { λ b. entries_in b.entries.entries };

    ghost invariant = { λ b. AreEntries b.entries.entries };
}

impl SheetBook {
    /// An empty book; takes no memory.
    pub fn new(alloc: Global) -> SheetBook
        ensures { result ≡ [] }
    {
        SheetBook {
            entries: IndexMap::new(alloc),
            alloc,
        }
    }

    /// The allocator that the book was made with.
    pub fn allocator(&self) -> Global {
        self.alloc
    }

    /// How many sheets the book has.
    pub fn len(&self) -> usize
        ensures { result ≡ length self.now }
    {
        self.entries.len()
    }

    /// The entry at place `i`, counted from 0.
    pub fn at(&self, i: usize) -> &SheetEntry
        requires { i < length self.now }
        ensures at { slice_get self.now i ≡ Some result.now }
        ensures read { IsEntry result.now }
    {
        match self.entries.get_index(i) {
            Some((_id, entry)) => entry,
            None => unreachable!(),
        }
    }

    /// The sheet with this id, if there is one.
    pub fn get(&self, id: u64) -> Option<&SheetEntry>
        ensures found { option_copied result ≡ entry_of id self.now }
        ensures read { IfSome result (λ e. IsEntry e.now) }
    {
        self.entries.get(&id)
    }

    /// The place of the entry with this id, counted from 0.
    pub fn place_of(&self, id: u64) -> Option<usize>
        ensures place { result ≡ entry_place id self.now }
        ensures apart { AreApart self.now }
        ensures each { All IsStored self.now }
    {
        self.entries.get_index_of(&id)
    }

    /// An entry that equals the one at place `i`.
    pub fn copy_at(&self, i: usize) -> Result<SheetEntry, AllocError>
        requires { i < length self.now }
        ensures { IfOk result (λ e. slice_get self.now i ≡ Some e) }
    {
        let entry = self.at(i);
        let reading = read_sheet(self.alloc, entry.text.as_str())?;
        Ok(SheetEntry {
            id: entry.id,
            origin: entry.origin,
            text: entry.text.try_clone()?,
            reading,
        })
    }

    /// Puts an entry last. On an error the book is as it was.
    pub fn put(&mut self, entry: SheetEntry) -> Result<(), AllocError>
        requires entry { IsEntry entry }
        requires new { entry_of entry.id self.old ≡ None }
        ensures last { OnOk result (self.new ≡ self.old ++ entry ∷ []) }
        ensures unchanged { OnErr result (self.new ≡ self.old) }
    {
        // Read for the proof alone: a text is UTF-8.
        let _text = entry.text.as_str();
        match self.entries.insert(entry.id, entry) {
            Ok(_) => Ok(()),
            Err(_) => Err(AllocError),
        }
    }

    /// Puts an entry in the place of the one with its id, and answers that one. Takes no memory.
    pub fn change(&mut self, entry: SheetEntry) -> SheetEntry
        requires entry { IsEntry entry }
        requires there { IsSome (entry_of entry.id self.old) }
        ensures old { entry_of entry.id self.old ≡ Some result }
        ensures changed { self.new ≡ book_changed entry self.old }
    {
        // Read for the proof alone: a text is UTF-8.
        let _text = entry.text.as_str();
        match self.entries.insert(entry.id, entry) {
            Ok(Some(old)) => old,
            Ok(None) => unreachable!(),
            Err(_) => unreachable!(),
        }
    }

    /// Makes the text of the sheet with this id another one, of which the reading is planned. Takes no memory.
    pub fn retell(&mut self, id: u64, text: SheetText, plan: Rereading)
        requires there { IsSomeAnd (entry_of id self.old) (CanRetell text plan) }
        ensures changed { IfSome (entry_of id self.old) (λ e. self.new ≡ book_changed (retold text e) self.old) }
    {
        let old = put_in(&mut self.entries, id, no_entry(self.alloc, id));
        let _old = put_in(&mut self.entries, id, retold(old, text, plan));
    }

    /// Takes out the entry with this id; the others keep their order. Takes no memory.
    pub fn remove(&mut self, id: u64) -> Option<SheetEntry>
        ensures entry { result ≡ entry_of id self.old }
        ensures others { self.new ≡ removed id self.old }
    {
        take_out(&mut self.entries, id)
    }
}

fn take_out(entries: &mut IndexMap<u64, SheetEntry>, id: u64) -> Option<SheetEntry>
    ensures value { result ≡ get nat_eq entries.old id }
    ensures others { entries.new.entries ≡ shift_remove_entry (nat_eq id) entries.old.entries }
{
    entries.shift_remove(&id)
}

/// Puts an entry in the place of the one with this id, and answers that one.
fn put_in(entries: &mut IndexMap<u64, SheetEntry>, id: u64, entry: SheetEntry) -> SheetEntry
    requires there { IsSome (get nat_eq entries.old id) }
    ensures old { get nat_eq entries.old id ≡ Some result }
    ensures entries { entries.new.entries ≡ insert_entry nat_eq entries.old.entries id entry }
{
    match entries.insert(id, entry) {
        Ok(Some(old)) => old,
        Ok(None) => unreachable!(),
        Err(_) => unreachable!(),
    }
}

/// What stands for a sheet while it is changed. Takes no memory.
fn no_entry(alloc: Global, id: u64) -> SheetEntry {
    SheetEntry {
        id,
        origin: Origin::Regular,
        text: SheetText::new(alloc, String::new(alloc)),
        reading: Sheet {
            rules: StyleRules::new(Vec::new(alloc)),
            places: Places::new(Vec::new(alloc)),
            media: MediaRules::new(Vec::new(alloc)),
        },
    }
}

/// The sheet with this text, as its reading was planned. Takes no memory.
fn retold(entry: SheetEntry, text: SheetText, plan: Rereading) -> SheetEntry
    requires can { CanRetell text plan entry }
    requires old { IsEntry entry }
    ensures entry { result ≡ retold text entry }
    ensures stored { IsStored result }
{
    // Read for the proof alone: a text is UTF-8.
    let _text = text.as_str();
    let SheetEntry {
        id,
        origin,
        text: _old,
        reading,
    } = entry;
    let reading = carry_out(reading, plan);
    SheetEntry {
        id,
        origin,
        text,
        reading,
    }
}
