// The page's sheets, each under a number of its own.
ghost use Rattle.std.specs.Prelude.{◌≡◌, ◌<◌, ◌+◌, ◌++◌, ◌∷◌, [], None, Ok, Err, false, true, OnOk, OnErr, IfOk, IfErr, IsSome};
ghost use Rattle.std.specs.Prelude.{length, nat_lt};
ghost use Rattle.node_tree.specs.Numbers.{drawn_before_call, drawn_before_edit};
ghost use Rattle.client_views.specs.Moves.{frames_of_moves};
ghost use Rattle.css_agent.specs.Edits.{css_edited, edit_moves, edit_splices};
ghost use Rattle.sheet_reader.specs.Books.{entry_of, removed};
ghost use Rattle.style_edits.specs.declared.faults.SheetFault.TheVariants.{NoSheet, TooBig};
ghost use Rattle.style_edits.specs.Edits.{is_too_big, new_sheet, IfFault};
ghost use Rattle.style_edits.specs.Splices.{FitsSplice, after_splice, back_splice};
ghost use Rattle.back_end.specs.Sheets.{as_book, numbered_sheets};
ghost use Rattle.page_forms.specs.Sheets.{can_hold_sheets, max_sheet_bytes};

use cdp_json::COUNTED_LIMIT;
use cdp_messages::CssEdit;
use css_agent::CssAgent;
use media_rules::Medium;
use node_tree::{MAX_SHEET_BYTES, MAX_SHEETS};
use page_forms::SheetForm;
use sheet_reader::{Origin, SheetBook};
use std::alloc::{AllocError, Global};
use std::marker::Model;
use style_edits::{SheetErr, SheetFault, Splice, add_sheet, drop_sheet, put_back};

/// Whether a sheet may not have this text.
fn is_too_long(text: &str) -> bool
    ensures { result ≡ nat_lt max_sheet_bytes (length text.now) }
{
    text.len() > MAX_SHEET_BYTES
}

/// What a page is styled by: a book of sheets whose numbers are below that of the next one, and the medium that it is shown on.
#[derive(Drop)]
pub(crate) struct PageSheets {
    book: SheetBook,
    next: u64,
    medium: Medium,
}

impl Model for PageSheets {
    ghost use Rattle.std.specs.Prelude.{◌<◌};
    ghost use Rattle.back_end.specs.Sheets.{NumberedBook, coded_book, AreBelow};

    ghost Value = { NumberedBook };

    ghost coded = { coded_book };

    ghost view = { λ s. record { entries = s.book; next = s.next; medium = s.medium } };

    ghost invariant = { λ s. (0 < s.next) × AreBelow s.next s.book };
}

impl PageSheets {
    /// No sheets; the next one gets this number, and the page is shown on this medium.
    pub(crate) fn new(alloc: Global, next: u64, medium: Medium) -> PageSheets
        requires some { 0 < next }
        ensures { result ≡ record { entries = []; next = next; medium = medium } }
    {
        PageSheets {
            book: SheetBook::new(alloc),
            next,
            medium,
        }
    }

    /// The sheets in their order.
    pub(crate) fn book(&self) -> &SheetBook
        ensures { result.now ≡ self.now.entries }
    {
        &self.book
    }

    /// The number of the next sheet that comes.
    pub(crate) fn next_number(&self) -> u64
        ensures value { result ≡ self.now.next }
        ensures some { 0 < result }
    {
        self.next
    }

    /// The medium that the page is shown on.
    pub(crate) fn medium(&self) -> &Medium
        ensures { result.now ≡ self.now.medium }
    {
        &self.medium
    }

    /// Shows the page on another medium.
    pub(crate) fn show_on(&mut self, medium: Medium)
        ensures { self.new ≡ record self.old { medium = medium } }
    {
        self.medium = medium;
    }

    /// Whether a new sheet with this text does not fit.
    pub(crate) fn is_full_for(&self, text: &str) -> bool
        ensures { result ≡ is_too_big text.now self.now.entries }
    {
        is_too_long(text) || self.book.len() >= MAX_SHEETS
    }

    /// Whether a new sheet with this text does not fit in the place of one that is there.
    pub(crate) fn is_full_without(&self, number: u64, text: &str) -> bool
        requires there { IsSome (entry_of number self.now.entries) }
        ensures { result ≡ is_too_big text.now (removed number self.now.entries) }
    {
        // The clauses alone speak of the sheet.
        let _ = number;
        is_too_long(text) || self.book.len() > MAX_SHEETS
    }

    /// Puts a new sheet last, under the next number. On an error nothing has changed.
    pub(crate) fn add(&mut self, origin: Origin, text: &str) -> Result<(), SheetErr>
        requires room { self.old.next < drawn_before_call }
        ensures last { OnOk result (self.new
            ≡ record self.old { entries = self.old.entries ++ new_sheet self.old.next origin text.now ∷ []; next = self.old.next + 1 }) }
        ensures fits { OnOk result (is_too_big text.now self.old.entries ≡ false) }
        ensures fault { IfFault result (λ f. (f ≡ TooBig) × (is_too_big text.now self.old.entries ≡ true)) }
        ensures unchanged { OnErr result (self.new ≡ self.old) }
    {
        add_sheet(&mut self.book, self.next, origin, text)?;
        self.next += 1;
        Ok(())
    }

    /// Takes a sheet out; the others keep their order.
    pub(crate) fn remove(&mut self, number: u64) -> Result<(), SheetFault>
        ensures others { self.new ≡ record self.old { entries = removed number self.old.entries } }
        ensures there { OnOk result (IsSome (entry_of number self.old.entries)) }
        ensures fault { IfErr result (λ f. (f ≡ NoSheet) × (entry_of number self.old.entries ≡ None)) }
    {
        drop_sheet(&mut self.book, number)
    }

    /// Carries a client's edit out by its agent, which tells of it, and answers the splices that lead back. After a fault nothing
    /// has changed and nothing is told; after want of memory no number is left for a new sheet.
    pub(crate) fn edit(
        &mut self,
        css: &CssAgent,
        id: u64,
        edit: &CssEdit,
        out: &mut Vec<u8>,
    ) -> Result<Vec<Splice>, SheetErr>
        ensures done { IfOk result (λ backs. edit_splices (css_edited self.old.entries edit.now) ≡ Ok (self.new.entries, backs.items)) }
        ensures next { OnOk result (self.new.next ≡ self.old.next) }
        ensures medium { OnOk result (self.new.medium ≡ self.old.medium) }
        ensures sent { OnOk result (out.new.items ≡ out.old.items ++ frames_of_moves (edit_moves id self.old.entries edit.now)) }
        ensures fault { IfFault result (λ f. css_edited self.old.entries edit.now ≡ Err f) }
        ensures unchanged { IfFault result (λ f. self.new ≡ self.old) }
        ensures unsent { IfFault result (λ f. out.new.items ≡ out.old.items) }
    {
        let backs = match css.edit(&mut self.book, id, edit, out) {
            Ok(backs) => backs,
            Err(SheetErr::Fault(fault)) => return Err(SheetErr::Fault(fault)),
            Err(SheetErr::Memory) => {
                // Asked for the proof alone: each number of a book is below the last.
                let _ = self.book.place_of(0);
                self.next = COUNTED_LIMIT;
                return Err(SheetErr::Memory);
            }
        };
        Ok(backs)
    }

    /// Makes a splice, and answers the one that leads back. On an error nothing has changed.
    pub(crate) fn put_back(&mut self, splice: Splice) -> Result<Splice, AllocError>
        requires fits { FitsSplice splice self.old.entries }
        ensures done { OnOk result (self.new ≡ record self.old { entries = after_splice splice self.old.entries }) }
        ensures back { IfOk result (λ back. back ≡ back_splice splice self.old.entries) }
        ensures unchanged { OnErr result (self.new ≡ self.old) }
    {
        put_back(&mut self.book, splice)
    }

    /// The sheets of a page that is loaded and shown on this medium, with the numbers from this one on.
    pub(crate) fn loaded(
        alloc: Global,
        next: u64,
        medium: Medium,
        forms: &[SheetForm],
    ) -> Result<PageSheets, AllocError>
        requires some { 0 < next }
        requires room { next < drawn_before_edit }
        requires can { can_hold_sheets forms.now ≡ true }
        ensures { IfOk result (λ s. s
            ≡ record { entries = as_book (numbered_sheets next forms.now); next = next + length forms.now; medium = medium }) }
    {
        let mut sheets = PageSheets::new(alloc, next, medium);
        for i in 0..forms.len() {
            let form = &forms[i];
            match sheets.add(form.origin, form.text.as_str()) {
                Ok(()) => {}
                Err(SheetErr::Fault(_)) => unreachable!(),
                Err(SheetErr::Memory) => return Err(AllocError),
            }
        }
        Ok(sheets)
    }
}
