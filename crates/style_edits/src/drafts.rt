//! A sheet as an edit leaves it, before it is in the book. Making one may take memory; putting it into the book does not.

ghost use Rattle.std.specs.Prelude.{◌≡◌, ◌≤◌, nat_le, length, Ok, IfOk, IfSome, IsSomeAnd};
ghost use Rattle.node_tree.specs.Numbers.{max_sheet_bytes};
ghost use Rattle.selectors.specs.Ranges.{IsRangeOf};
ghost use Rattle.sheet_reader.specs.Books.{IsEntry, entry_of, book_changed};
ghost use Rattle.style_edits.specs.Splices.{spliced, with_text};
ghost use Rattle.style_edits.specs.Edits.{splice_at, placed_text};
ghost use Rattle.style_edits.specs.Drafts.{Drafts, IsDraft, IsToldBy};

use crate::faults::{SheetErr, SheetFault};
use crate::splice::Splice;
use css_tokens::Range;
use node_tree::{MAX_SHEET_BYTES, Text};
use sheet_reader::{Rereading, SheetBook, SheetEntry, SheetText, plan_reread};
use std::alloc::{AllocError, Global};

/// The new text of the sheet with this id, how its reading becomes that text's, and the splice that leads back.
#[derive(Drop)]
pub(crate) struct Draft {
    pub id: u64,
    pub text: SheetText,
    pub plan: Rereading,
    pub back: Splice,
}

/// A copy of the text, with a new part in the place of another.
fn spliced(text: &SheetText, part: Range, new: &str) -> Result<SheetText, AllocError>
    requires { IsRangeOf text.now part }
    ensures { IfOk result (λ s. s ≡ spliced text.now part.start part.end new.now) }
{
    let mut made = text.try_clone()?;
    made.replace(part, new)?;
    Ok(made)
}

/// Whether the text has at most 2^24 bytes with a new part in the place of another.
pub(crate) fn is_short(text: &str, part: Range, new: &str) -> bool
    requires { IsRangeOf text.now part }
    ensures { result ≡ nat_le (length (spliced text.now part.start part.end new.now)) max_sheet_bytes }
{
    let kept = text.len() - (part.end - part.start);
    new.len() <= MAX_SHEET_BYTES && kept + new.len() <= MAX_SHEET_BYTES
}

/// The sheet with a new part in the place of another, where its text stays short enough.
pub(crate) fn drafted(
    alloc: Global,
    entry: &SheetEntry,
    part: Range,
    new: &str,
) -> Result<Draft, AllocError>
    requires entry { IsEntry entry.now }
    requires part { IsRangeOf entry.now.text part }
    requires short { length (spliced entry.now.text part.start part.end new.now) ≤ max_sheet_bytes }
    ensures drafts { IfOk result (IsDraft entry.now (Ok (splice_at entry.now part new.now))) }
    ensures tells { IfOk result (IsToldBy entry.now) }
{
    let old = entry.text.as_str();
    let text = spliced(&entry.text, part, new)?;
    let taken = Text::copied(alloc, &old[part.start..part.end])?;
    let plan = plan_reread(alloc, &entry.reading, old, part, new, text.as_str())?;
    Ok(Draft {
        id: entry.id,
        text,
        plan,
        back: Splice {
            sheet: entry.id,
            start: part.start,
            end: part.start + new.len(),
            text: taken,
        },
    })
}

/// The sheet with a new part in the place of another.
pub(crate) fn placed(
    alloc: Global,
    entry: &SheetEntry,
    part: Range,
    new: &str,
) -> Result<Draft, SheetErr>
    requires entry { IsEntry entry.now }
    requires part { IsRangeOf entry.now.text part }
    ensures found { Drafts entry.now (placed_text entry.now part new.now) result }
    ensures tells { IfOk result (IsToldBy entry.now) }
{
    if !is_short(entry.text.as_str(), part, new) {
        return Err(SheetErr::Fault(SheetFault::TooBig));
    }
    match drafted(alloc, entry, part, new) {
        Ok(draft) => Ok(draft),
        Err(_) => Err(SheetErr::Memory),
    }
}

/// Makes the sheet's text the new one, and answers the splice that leads back. Takes no memory.
pub(crate) fn apply(book: &mut SheetBook, draft: Draft) -> Splice
    requires there { IsSomeAnd (entry_of draft.id book.old) (λ e. IsToldBy e draft) }
    ensures changed { IfSome (entry_of draft.id book.old) (λ e. book.new ≡ book_changed (with_text e draft.text) book.old) }
    ensures back { result ≡ draft.back }
{
    let Draft {
        id,
        text,
        plan,
        back,
    } = draft;
    book.retell(id, text, plan);
    back
}
