//! Edits of the bodies of one sheet, one after the other. The sheet is taken out of the book once, and its text is edited in place.

ghost use Rattle.std.specs.Prelude.{◌≡◌, ◌≤◌, ◌<◌, ◌++◌, ◌∷◌, [], All, Ok, Err, Some, length, take, IfOk, IfSome, IfNone, OnOk, OnErr};
ghost use Rattle.std.specs.Prelude.{IsSome, IsSomeAnd, None, slice_get, ◌==◌, false};
ghost use Rattle.std.specs.Str.{IsCharBoundary};
ghost use Rattle.css_tokens.specs.declared.token.Range.{Range};
ghost use Rattle.std.specs.List.{prefix_len};
ghost use Rattle.node_tree.specs.Numbers.{counted_limit};
ghost use Rattle.selectors.specs.Ranges.{IsRangeOf};
ghost use Rattle.sheet_reader.specs.Books.{IsEntry, IsStored, entry_of, book_changed};
ghost use Rattle.sheet_reader.specs.Rereads.{HasBody};
ghost use Rattle.style_edits.specs.Edits.{is_at, body_at, style_in, style_splice, styles_edited, IfFault, mutable};
ghost use Rattle.style_edits.specs.EditedRules.{edited_rules};
ghost use Rattle.style_edits.specs.Drafts.{IsAt, IsOld, olds_restored, with_backs};
ghost use Rattle.style_edits.specs.StyleRuns.{IsMade, IsRun, MayEdit, ChangesOnly};

use crate::drafts::is_short;
use crate::edits::{StyleEdit, client_sheet, keep};
use crate::faults::{SheetErr, SheetFault};
use crate::lines::LineRange;
use crate::rule_places::RulePlace;
use crate::splice::Splice;
use css_tokens::Range;
use node_tree::Text;
use sheet_reader::{
    OpenSheet, Origin, SheetBook, SheetEntry, SheetText, read_sheet, read_style, sealed,
};
use std::alloc::{AllocError, Global};

/// The body of a rule of a sheet.
#[derive(Clone, Copy)]
struct RuleBody {
    rule: usize,
    body: Range,
}

/// What an edit left: the splice that leads back, and the rule that has the new body.
#[derive(Drop)]
pub(crate) struct Made {
    pub back: Splice,
    pub rule: RulePlace,
}

/// The bytes with these lines and columns; none where a line has no such column, or the text no such line.
fn bytes_in(opened: &OpenSheet, lines: LineRange) -> Option<Range>
    ensures stored { IsStored opened.now }
    ensures there { IfSome result (IsAt opened.now.text lines) }
    ensures none { IfNone result ((r : Range) → IsCharBoundary opened.now.text r.start → IsCharBoundary opened.now.text r.end
        → is_at opened.now.text lines r ≡ false) }
{
    // Read for the proof alone: the sheet is as a book has it.
    let _text = opened.as_str();
    let start = opened.byte_at(lines.start_line, lines.start_column)?;
    let end = opened.byte_at(lines.end_line, lines.end_column)?;
    Some(Range { start, end })
}

/// The rule that has its body at these lines and columns.
fn body_of(opened: &OpenSheet, lines: LineRange) -> Option<RuleBody>
    ensures rule { IfSome result (λ f. IsSomeAnd (slice_get opened.now.reading.rules f.rule) (HasBody f.body)) }
    ensures found { IfSome result (λ f. body_at opened.now.text lines ≡ Some f.body) }
    ensures range { IfSome result (λ f. IsRangeOf opened.now.text f.body) }
    ensures none { IfNone result (body_at opened.now.text lines ≡ None) }
{
    let Some(body) = bytes_in(opened, lines) else {
        return None;
    };
    let Some(rule) = opened.rule_with_body(body) else {
        return None;
    };
    Some(RuleBody { rule, body })
}

/// Makes the body of a style rule of the sheet another text. On an error the sheet is as it was.
fn set_in(alloc: Global, opened: &mut OpenSheet, edit: &StyleEdit) -> Result<Made, SheetErr>
    ensures made { IfOk result (IsMade edit.now opened.old opened.new) }
    ensures fault { IfFault result (λ f. style_in edit.now opened.old ≡ Err f) }
    ensures unchanged { OnErr result (opened.new ≡ opened.old) }
{
    let Some(found) = body_of(opened, edit.range) else {
        return Err(SheetErr::Fault(SheetFault::BadRange));
    };
    let text = edit.text.as_str();
    if !sealed(alloc, text)? {
        return Err(SheetErr::Fault(SheetFault::BadText));
    }
    if !is_short(opened.as_str(), found.body, text) {
        return Err(SheetErr::Fault(SheetFault::TooBig));
    }
    let taken = Text::copied(alloc, &opened.as_str()[found.body.start..found.body.end])?;
    let properties = read_style(alloc, text)?;
    opened.set_body(found.rule, found.body, text, properties)?;
    // Read for the proof alone: the sheet is as a book has it.
    let _new = opened.as_str();
    let sheet = opened.id();
    Ok(Made {
        back: Splice {
            sheet,
            start: found.body.start,
            end: found.body.start + text.len(),
            text: taken,
        },
        rule: RulePlace {
            sheet,
            rule: found.rule,
        },
    })
}

fn push_made(
    backs: &mut Vec<Splice>,
    rules: &mut Vec<RulePlace>,
    made: Made,
) -> Result<(), AllocError>
    ensures backs { OnOk result (backs.new.items ≡ backs.old.items ++ made.back ∷ []) }
    ensures rules { OnOk result (rules.new.items ≡ rules.old.items ++ made.rule ∷ []) }
{
    let Made { back, rule } = made;
    rules.push(rule)?;
    backs.push(back)?;
    Ok(())
}

/// Makes edits of the open sheet, which is taken out of the book, and keeps the splices that lead back and the rules.
fn set_all(
    alloc: Global,
    book: &SheetBook,
    opened: &mut OpenSheet,
    edits: &[StyleEdit],
    backs: &mut Vec<Splice>,
    rules: &mut Vec<RulePlace>,
) -> Result<(), SheetErr>
    requires there { IsSome (entry_of opened.old.id book.now) }
    requires client { mutable opened.old opened.old.origin ≡ Ok opened.old }
    requires own { IsRun opened.old.id edits.now }
    ensures done { OnOk result (with_backs backs.old.items (styles_edited edits.now (book_changed opened.old book.now))
        ≡ Ok (book_changed opened.new book.now, backs.new.items)) }
    ensures rules { OnOk result (rules.new.items ≡ rules.old.items ++ edited_rules edits.now (book_changed opened.old book.now)) }
    ensures fault { IfFault result (λ f. styles_edited edits.now (book_changed opened.old book.now) ≡ Err f) }
    ensures id { opened.new.id ≡ opened.old.id }
{
    // Read for the proof alone.
    let _book = book;
    for edit in edits {
        let made = match set_in(alloc, opened, edit) {
            Ok(made) => made,
            Err(stop) => return Err(stop),
        };
        push_made(backs, rules, made)?;
    }
    Ok(())
}

/// A sheet with no text, which stands in a book for one that is taken out.
fn blank(alloc: Global, id: u64) -> Result<SheetEntry, AllocError>
    requires some { 0 < id }
    requires id { id < counted_limit }
    ensures id { IfOk result (λ e. e.id ≡ id) }
    ensures text { IfOk result (λ e. e.text ≡ []) }
    ensures entry { IfOk result IsEntry }
{
    let reading = read_sheet(alloc, "")?;
    Ok(SheetEntry {
        id,
        origin: Origin::Regular,
        text: SheetText::new(alloc, String::new(alloc)),
        reading,
    })
}

/// Takes a sheet out of the book. What stands for it then has its id. Takes no memory.
fn take_out(book: &mut SheetBook, blank: SheetEntry) -> OpenSheet
    requires blank { IsEntry blank }
    requires there { IsSomeAnd (entry_of blank.id book.old) IsEntry }
    ensures book { book.new ≡ book_changed blank book.old }
    ensures opened { entry_of blank.id book.old ≡ Some result }
{
    OpenSheet::new(book.change(blank))
}

/// Makes edits of a sheet, which is out of the book meanwhile. On an error another one may stand in its place.
fn set_apart(
    book: &mut SheetBook,
    sheet: u64,
    edits: &[StyleEdit],
    backs: &mut Vec<Splice>,
    rules: &mut Vec<RulePlace>,
) -> Result<(), SheetErr>
    requires own { IsRun sheet edits.now }
    requires client { MayEdit sheet book.old }
    ensures done { OnOk result (with_backs backs.old.items (styles_edited edits.now book.old) ≡ Ok (book.new, backs.new.items)) }
    ensures rules { OnOk result (rules.new.items ≡ rules.old.items ++ edited_rules edits.now book.old) }
    ensures fault { IfFault result (λ f. styles_edited edits.now book.old ≡ Err f) }
    ensures only { ChangesOnly sheet book.old book.new }
{
    let alloc = book.allocator();
    let empty = blank(alloc, sheet)?;
    let mut opened = take_out(book, empty);
    let result = set_all(alloc, book, &mut opened, edits, backs, rules);
    let _blank = book.change(opened.into_entry());
    result
}

/// Makes edits of one sheet, and keeps it as it was, unless it is kept already.
fn set_run(
    book: &mut SheetBook,
    sheet: u64,
    edits: &[StyleEdit],
    backs: &mut Vec<Splice>,
    rules: &mut Vec<RulePlace>,
    olds: &mut Vec<SheetEntry>,
) -> Result<(), SheetErr>
    requires own { IsRun sheet edits.now }
    requires some { 0 < length edits.now }
    requires olds { All (IsOld book.old) olds.old.items }
    ensures done { OnOk result (with_backs backs.old.items (styles_edited edits.now book.old) ≡ Ok (book.new, backs.new.items)) }
    ensures rules { OnOk result (rules.new.items ≡ rules.old.items ++ edited_rules edits.now book.old) }
    ensures fault { IfFault result (λ f. styles_edited edits.now book.old ≡ Err f) }
    ensures olds { All (IsOld book.new) olds.new.items }
    ensures same { olds_restored olds.new.items book.new ≡ olds_restored olds.old.items book.old }
{
    let entry = match client_sheet(book, sheet) {
        Ok(entry) => entry,
        Err(fault) => return Err(SheetErr::Fault(fault)),
    };
    match keep(book.allocator(), entry, olds) {
        Ok(()) => set_apart(book, sheet, edits, backs, rules),
        Err(_) => Err(SheetErr::Memory),
    }
}

/// How many of the first edits are of this sheet.
#[tactic(auto, using(crate::proofs::RunForms::run_within))]
fn run_len(edits: &[StyleEdit], sheet: u64) -> usize
    ensures count { result ≡ prefix_len (λ x. x.sheet == sheet) edits.now }
    ensures within { result ≤ length edits.now }
{
    edits.iter().take_while(|edit| edit.sheet == sheet).count()
}

/// Makes the edits, and keeps the splices that lead back, the rules and the old sheets.
pub(crate) fn set_each(
    book: &mut SheetBook,
    edits: &[StyleEdit],
    backs: &mut Vec<Splice>,
    rules: &mut Vec<RulePlace>,
    olds: &mut Vec<SheetEntry>,
) -> Result<(), SheetErr>
    requires olds { All (IsOld book.old) olds.old.items }
    ensures done { OnOk result (with_backs backs.old.items (styles_edited edits.now book.old) ≡ Ok (book.new, backs.new.items)) }
    ensures rules { OnOk result (rules.new.items ≡ rules.old.items ++ edited_rules edits.now book.old) }
    ensures fault { IfFault result (λ f. styles_edited edits.now book.old ≡ Err f) }
    ensures olds { All (IsOld book.new) olds.new.items }
    ensures same { olds_restored olds.new.items book.new ≡ olds_restored olds.old.items book.old }
{
    let mut at = 0;
    while at < edits.len() {
        let sheet = edits[at].sheet;
        let next = at + run_len(&edits[at..], sheet);
        match set_run(book, sheet, &edits[at..next], backs, rules, olds) {
            Ok(()) => {}
            Err(stop) => return Err(stop),
        }
        at = next;
    }
    Ok(())
}
