// The sheets that messages told of.
ghost use Rattle.std.specs.Prelude.{◌≡◌, ◌<◌, ◌++◌, ◌∷◌, [], length, slice_get, nat_eq, Some, false, IfOk, OnOk, OnErr};
ghost use Rattle.indexmap.specs.IndexMap.{shift_remove_entry};
ghost use Rattle.front_mirror.specs.Sheets.{told_sheet, stale_sheet, fresh_sheet, has_sheet, marked_old, with_fetched, without_sheet};
ghost use Rattle.front_mirror.specs.Sheets.{has_fresh_text, stale_of};

use cdp_messages::{Header, Origin};
use indexmap::IndexMap;
use node_tree::Text;
use std::alloc::{AllocError, Global};
use std::marker::Model;

/// A sheet, with its text where a reply gave one.
#[derive(Drop)]
pub(crate) struct KnownSheet {
    pub(crate) number: u64,
    pub(crate) origin: Origin,
    pub(crate) text: Option<Text>,
    /// Whether the text may be another by now.
    pub(crate) stale: bool,
}

/// A sheet that is told of: its text is not known yet.
pub(crate) fn new_sheet(header: Header) -> KnownSheet
    ensures { result ≡ told_sheet header }
{
    KnownSheet {
        number: header.sheet,
        origin: header.origin,
        text: None,
        stale: true,
    }
}

fn mark(sheet: &mut KnownSheet)
    ensures { sheet.new ≡ stale_sheet sheet.old }
{
    sheet.stale = true;
}

fn freshen(sheet: &mut KnownSheet, text: Text)
    ensures { sheet.new ≡ fresh_sheet text sheet.old }
{
    sheet.text = Some(text);
    sheet.stale = false;
}

fn has_fresh_text(sheet: &KnownSheet) -> bool
    ensures { result ≡ has_fresh_text sheet.now }
{
    sheet.text.is_some() && !sheet.stale
}

/// The sheets that are known, in the order in which they were told of, each with a number of its own.
#[derive(Drop)]
pub(crate) struct KnownSheets {
    sheets: IndexMap<u64, KnownSheet>,
}

impl Model for KnownSheets {
    ghost use Rattle.std.specs.Prelude.{List};
    ghost use Rattle.front_mirror.specs.declared.sheets.KnownSheet.{KnownSheet};
    ghost use Rattle.front_mirror.specs.Sheets.{AreNumbered, sheets_in};

    ghost Value = { List KnownSheet };

    ghost view = { λ k. sheets_in k.sheets.entries };

    ghost invariant = { λ k. AreNumbered k.sheets.entries };
}

impl KnownSheets {
    /// No sheets; takes no memory.
    pub(crate) fn new(alloc: Global) -> KnownSheets
        ensures { result ≡ [] }
    {
        KnownSheets {
            sheets: IndexMap::new(alloc),
        }
    }

    /// How many sheets are known.
    pub(crate) fn len(&self) -> usize
        ensures { result ≡ length self.now }
    {
        self.sheets.len()
    }

    /// The sheet at place `i`, counted from 0.
    pub(crate) fn at(&self, i: usize) -> &KnownSheet
        requires { i < length self.now }
        ensures { slice_get self.now i ≡ Some result.now }
    {
        match self.sheets.get_index(i) {
            Some((_number, sheet)) => sheet,
            None => unreachable!(),
        }
    }

    /// Whether some sheet has the number.
    pub(crate) fn has(&self, number: u64) -> bool
        ensures { result ≡ has_sheet number self.now }
    {
        self.sheets.contains_key(&number)
    }

    /// Puts a sheet last. On an error the sheets are as they were.
    pub(crate) fn put(&mut self, sheet: KnownSheet) -> Result<(), AllocError>
        requires new { has_sheet sheet.number self.old ≡ false }
        ensures last { OnOk result (self.new ≡ self.old ++ sheet ∷ []) }
        ensures unchanged { OnErr result (self.new ≡ self.old) }
    {
        match self.sheets.insert(sheet.number, sheet) {
            Ok(_) => Ok(()),
            Err(_) => Err(AllocError),
        }
    }

    /// Marks the text of the sheet of that number as old.
    pub(crate) fn mark_old(&mut self, number: u64)
        ensures { self.new ≡ marked_old number self.old }
    {
        if let Some(sheet) = self.sheets.get_mut(&number) {
            mark(sheet);
        }
    }

    /// Gives the sheet of that number its text, which is not old.
    pub(crate) fn keep_text(&mut self, number: u64, text: Text)
        ensures { self.new ≡ with_fetched number text self.old }
    {
        if let Some(sheet) = self.sheets.get_mut(&number) {
            freshen(sheet, text);
        }
    }

    /// The numbers of the sheets without a text that is not old, in their order.
    pub(crate) fn stale(&self, alloc: Global) -> Result<Vec<u64>, AllocError>
        ensures { IfOk result (λ numbers. numbers.items ≡ stale_of self.now) }
    {
        let mut numbers = Vec::new(alloc);
        for sheet in self.sheets.values() {
            if !has_fresh_text(sheet) {
                numbers.push(sheet.number)?;
            }
        }
        Ok(numbers)
    }

    /// Drops the sheet of that number; the others keep their order.
    pub(crate) fn remove(&mut self, number: u64)
        ensures { self.new ≡ without_sheet number self.old }
    {
        take_out(&mut self.sheets, number);
    }
}

fn take_out(sheets: &mut IndexMap<u64, KnownSheet>, number: u64)
    ensures { sheets.new.entries ≡ shift_remove_entry (nat_eq number) sheets.old.entries }
{
    let _ = sheets.shift_remove(&number);
}
