//! Sheets that come and go.

ghost use Rattle.std.specs.Prelude.{◌≡◌, ◌<◌, ◌++◌, ◌∷◌, [], None, true, false, OnOk, OnErr, IfErr, IsSome};
ghost use Rattle.node_tree.specs.Numbers.{counted_limit};
ghost use Rattle.sheet_reader.specs.Books.{entry_of, removed};
ghost use Rattle.style_edits.specs.declared.faults.SheetFault.TheVariants.{NoSheet, TooBig};
ghost use Rattle.style_edits.specs.Edits.{is_too_big, new_sheet, IfFault};

use crate::faults::{SheetErr, SheetFault};
use node_tree::{MAX_SHEET_BYTES, MAX_SHEETS};
use sheet_reader::{Origin, SheetBook, SheetEntry, SheetText, read_sheet};
use std::alloc::{AllocError, Global};

fn is_too_big(book: &SheetBook, text: &str) -> bool
    ensures { result ≡ is_too_big text.now book.now }
{
    text.len() > MAX_SHEET_BYTES || book.len() >= MAX_SHEETS
}

/// Puts a new sheet last. On an error the book is as it was.
pub fn add_sheet(book: &mut SheetBook, id: u64, origin: Origin, text: &str) -> Result<(), SheetErr>
    requires some { 0 < id }
    requires id { id < counted_limit }
    requires new { entry_of id book.old ≡ None }
    ensures last { OnOk result (book.new ≡ book.old ++ new_sheet id origin text.now ∷ []) }
    ensures fits { OnOk result (is_too_big text.now book.old ≡ false) }
    ensures fault { IfFault result (λ f. (f ≡ TooBig) × (is_too_big text.now book.old ≡ true)) }
    ensures unchanged { OnErr result (book.new ≡ book.old) }
{
    if is_too_big(book, text) {
        return Err(SheetErr::Fault(SheetFault::TooBig));
    }
    let alloc = book.allocator();
    let reading = read_sheet(alloc, text)?;
    let text = SheetText::copied(alloc, text)?;
    match book.put(SheetEntry {
        id,
        origin,
        text,
        reading,
    }) {
        Ok(()) => Ok(()),
        Err(_) => Err(SheetErr::Memory),
    }
}

/// Takes a sheet out; the others keep their order. Takes no memory.
pub fn drop_sheet(book: &mut SheetBook, id: u64) -> Result<(), SheetFault>
    ensures others { book.new ≡ removed id book.old }
    ensures there { OnOk result (IsSome (entry_of id book.old)) }
    ensures fault { IfErr result (λ f. (f ≡ NoSheet) × (entry_of id book.old ≡ None)) }
    ensures unchanged { OnErr result (book.new ≡ book.old) }
{
    match book.remove(id) {
        Some(_entry) => Ok(()),
        None => Err(SheetFault::NoSheet),
    }
}
