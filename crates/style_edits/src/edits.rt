//! A client's edits of sheets.

ghost use Rattle.std.specs.Prelude.{◌≡◌, ◌==◌, ◌<◌, true, vec_len, vec_capacity, All, ◌++◌, ◌∷◌, [], Ok, Err, Some, IfOk, OnOk, OnErr};
ghost use Rattle.std.specs.Prelude.{MatchResult};
ghost use Rattle.std.specs.List.{list_any};
ghost use Rattle.sheet_reader.specs.Books.{IsEntry, entry_of};
ghost use Rattle.style_edits.specs.Edits.{style_in, selector_in, text_in, rule_in, client_sheet, style_splice, selector_splice};
ghost use Rattle.style_edits.specs.Edits.{text_splice, rule_splice, edited, styles_edited, IfFault, whole_range};
ghost use Rattle.style_edits.specs.Drafts.{Drafts, IsToldBy, Keeps, IsOld, olds_restored};
ghost use Rattle.style_edits.specs.EditedRules.{edited_rules};

use crate::drafts::{Draft, apply, placed};
use crate::faults::{SheetErr, SheetFault};
use crate::lines::{LineRange, body_at, place_at, prelude_at};
use crate::rule_places::{RulePlace, edited_rule};
use crate::splice::Splice;
use crate::style_runs::set_each;
use css_tokens::Range;
use node_tree::Text;
use selectors::{SelErr, read_selectors};
use sheet_reader::{LoneRule, Origin, SheetBook, SheetEntry, lone_rule, read_sheet, sealed};
use std::alloc::{AllocError, Global};

/// A new text for the body of the style rule that has its body at these lines and columns.
#[derive(Drop)]
pub struct StyleEdit {
    pub sheet: u64,
    pub range: LineRange,
    pub text: Text,
}

/// The sheet that a client may edit.
pub(crate) fn client_sheet(book: &SheetBook, id: u64) -> Result<&SheetEntry, SheetFault>
    ensures found { MatchResult result (λ e. client_sheet id book.now ≡ Ok e.now) (λ f. client_sheet id book.now ≡ Err f) }
    ensures entry { IfOk result (λ e. IsEntry e.now) }
    ensures there { IfOk result (λ e. entry_of e.now.id book.now ≡ Some e.now) }
{
    let Some(entry) = book.get(id) else {
        return Err(SheetFault::NoSheet);
    };
    match entry.origin {
        Origin::UserAgent => Err(SheetFault::NotMutable),
        Origin::Regular => Ok(entry),
    }
}

fn style_in(alloc: Global, entry: &SheetEntry, edit: &StyleEdit) -> Result<Draft, SheetErr>
    requires { IsEntry entry.now }
    ensures found { Drafts entry.now (style_in edit.now entry.now) result }
    ensures tells { IfOk result (IsToldBy entry.now) }
{
    let text = edit.text.as_str();
    let Some(part) = body_at(entry, edit.range) else {
        return Err(SheetErr::Fault(SheetFault::BadRange));
    };
    if !sealed(alloc, text)? {
        return Err(SheetErr::Fault(SheetFault::BadText));
    }
    placed(alloc, entry, part, text)
}

fn selector_in(
    alloc: Global,
    entry: &SheetEntry,
    lines: LineRange,
    text: &str,
) -> Result<Draft, SheetErr>
    requires { IsEntry entry.now }
    ensures found { Drafts entry.now (selector_in lines text.now entry.now) result }
    ensures tells { IfOk result (IsToldBy entry.now) }
{
    let Some(part) = prelude_at(entry, lines) else {
        return Err(SheetErr::Fault(SheetFault::BadRange));
    };
    if !sealed(alloc, text)? {
        return Err(SheetErr::Fault(SheetFault::BadText));
    }
    match read_selectors(alloc, text) {
        Ok(_list) => placed(alloc, entry, part, text),
        Err(SelErr::Invalid) => Err(SheetErr::Fault(SheetFault::BadSelector)),
        Err(SelErr::Memory) => Err(SheetErr::Memory),
    }
}

fn whole(text: &str) -> Range
    ensures { result ≡ whole_range text.now }
{
    Range {
        start: 0,
        end: text.len(),
    }
}

fn text_in(alloc: Global, entry: &SheetEntry, text: &str) -> Result<Draft, SheetErr>
    requires { IsEntry entry.now }
    ensures found { Drafts entry.now (text_in text.now entry.now) result }
    ensures tells { IfOk result (IsToldBy entry.now) }
{
    placed(alloc, entry, whole(entry.text.as_str()), text)
}

fn rule_in(
    alloc: Global,
    entry: &SheetEntry,
    lines: LineRange,
    text: &str,
) -> Result<Draft, SheetErr>
    requires { IsEntry entry.now }
    ensures found { Drafts entry.now (rule_in lines text.now entry.now) result }
    ensures tells { IfOk result (IsToldBy entry.now) }
{
    if !sealed(alloc, text)? {
        return Err(SheetErr::Fault(SheetFault::BadText));
    }
    match lone_rule(alloc, text)? {
        LoneRule::Other => Err(SheetErr::Fault(SheetFault::BadText)),
        LoneRule::Dropped => Err(SheetErr::Fault(SheetFault::BadSelector)),
        LoneRule::Style => match place_at(entry, lines) {
            Some(part) => placed(alloc, entry, part, text),
            None => Err(SheetErr::Fault(SheetFault::BadPlace)),
        },
    }
}

/// Whether a sheet with this id is among those that are kept.
fn is_kept(olds: &[SheetEntry], id: u64) -> bool
    ensures { result ≡ list_any (λ old. old.id == id) olds.now }
{
    olds.iter().any(|old| old.id == id)
}

fn copied(alloc: Global, entry: &SheetEntry) -> Result<SheetEntry, AllocError>
    requires { IsEntry entry.now }
    ensures { IfOk result (λ e. e ≡ entry.now) }
{
    let text = entry.text.try_clone()?;
    let reading = read_sheet(alloc, text.as_str())?;
    Ok(SheetEntry {
        id: entry.id,
        origin: entry.origin,
        text,
        reading,
    })
}

fn push_old(olds: &mut Vec<SheetEntry>, old: SheetEntry) -> Result<(), AllocError>
    ensures pushed { OnOk result (olds.new.items ≡ olds.old.items ++ old ∷ []) }
    ensures unchanged { OnErr result (olds.new.items ≡ olds.old.items) }
{
    match olds.push(old) {
        Ok(()) => Ok(()),
        Err(_) => Err(AllocError),
    }
}

/// Keeps a sheet as it is, unless one with its id is kept already.
pub(crate) fn keep(
    alloc: Global,
    entry: &SheetEntry,
    olds: &mut Vec<SheetEntry>,
) -> Result<(), AllocError>
    requires { IsEntry entry.now }
    ensures kept { OnOk result (list_any (λ old. old.id == entry.now.id) olds.new.items ≡ true) }
    ensures olds { Keeps entry.now olds.old.items olds.new.items }
    ensures once { list_any (λ old. old.id == entry.now.id) olds.old.items ≡ true → olds.new.items ≡ olds.old.items }
{
    if is_kept(olds.as_slice(), entry.id) {
        return Ok(());
    }
    let old = copied(alloc, entry)?;
    push_old(olds, old)
}

/// Makes the prelude of a style rule, which runs from its first selector to its last one and has these lines and columns,
/// another text. Answers the splice that leads back.
pub fn set_selector(
    book: &mut SheetBook,
    sheet: u64,
    range: &LineRange,
    text: &str,
) -> Result<Splice, SheetErr>
    ensures done { IfOk result (λ back. edited book.old (selector_splice sheet range.now text.now book.old) ≡ Ok (book.new, back)) }
    ensures fault { IfFault result (λ f. selector_splice sheet range.now text.now book.old ≡ Err f) }
    ensures unchanged { OnErr result (book.new ≡ book.old) }
{
    let entry = match client_sheet(book, sheet) {
        Ok(entry) => entry,
        Err(fault) => return Err(SheetErr::Fault(fault)),
    };
    let draft = match selector_in(book.allocator(), entry, *range, text) {
        Ok(draft) => draft,
        Err(stop) => return Err(stop),
    };
    Ok(apply(book, draft))
}

/// Makes the whole text of a sheet another one. Answers the splice that leads back.
pub fn set_text(book: &mut SheetBook, sheet: u64, text: &str) -> Result<Splice, SheetErr>
    ensures done { IfOk result (λ back. edited book.old (text_splice sheet text.now book.old) ≡ Ok (book.new, back)) }
    ensures fault { IfFault result (λ f. text_splice sheet text.now book.old ≡ Err f) }
    ensures unchanged { OnErr result (book.new ≡ book.old) }
{
    let entry = match client_sheet(book, sheet) {
        Ok(entry) => entry,
        Err(fault) => return Err(SheetErr::Fault(fault)),
    };
    let draft = match text_in(book.allocator(), entry, text) {
        Ok(draft) => draft,
        Err(stop) => return Err(stop),
    };
    Ok(apply(book, draft))
}

/// Puts a rule at a place between the parts of a sheet. Answers the splice that leads back.
pub fn add_rule(
    book: &mut SheetBook,
    sheet: u64,
    text: &str,
    location: &LineRange,
) -> Result<Splice, SheetErr>
    ensures done { IfOk result (λ back. edited book.old (rule_splice sheet location.now text.now book.old) ≡ Ok (book.new, back)) }
    ensures fault { IfFault result (λ f. rule_splice sheet location.now text.now book.old ≡ Err f) }
    ensures unchanged { OnErr result (book.new ≡ book.old) }
{
    let entry = match client_sheet(book, sheet) {
        Ok(entry) => entry,
        Err(fault) => return Err(SheetErr::Fault(fault)),
    };
    let draft = match rule_in(book.allocator(), entry, *location, text) {
        Ok(draft) => draft,
        Err(stop) => return Err(stop),
    };
    Ok(apply(book, draft))
}

/// Puts the old sheets back, the last one first. Takes no memory.
fn restore(book: &mut SheetBook, mut olds: Vec<SheetEntry>)
    requires { All (IsOld book.old) olds.items }
    ensures { book.new ≡ olds_restored olds.items book.old }
{
    while let Some(old) = olds.pop() {
        book.change(old);
    }
}

/// Appends a rule where there is room for it.
fn add_rule_place(rules: &mut Vec<RulePlace>, rule: RulePlace)
    requires room { vec_len rules.old < vec_capacity rules.old }
    ensures { rules.new.items ≡ rules.old.items ++ rule ∷ [] }
{
    match rules.push(rule) {
        Ok(()) => {}
        Err(_) => unreachable!(),
    }
}

/// Appends a splice where there is room for it.
fn add_back(backs: &mut Vec<Splice>, back: Splice)
    requires room { vec_len backs.old < vec_capacity backs.old }
    ensures { backs.new.items ≡ backs.old.items ++ back ∷ [] }
{
    match backs.push(back) {
        Ok(()) => {}
        Err(_) => unreachable!(),
    }
}

/// Makes one edit, as `set_styles_noting` makes many. All memory is taken before the sheet is changed, so that no old sheet is kept.
fn set_only(
    book: &mut SheetBook,
    edit: &StyleEdit,
    rules: &mut Vec<RulePlace>,
) -> Result<Vec<Splice>, SheetErr>
    ensures done { IfOk result (λ backs. styles_edited (edit.now ∷ []) book.old ≡ Ok (book.new, backs.items)) }
    ensures rules { OnOk result (rules.new.items ≡ rules.old.items ++ edited_rules (edit.now ∷ []) book.old) }
    ensures fault { IfFault result (λ f. styles_edited (edit.now ∷ []) book.old ≡ Err f) }
    ensures unchanged { OnErr result (book.new ≡ book.old) }
{
    let entry = match client_sheet(book, edit.sheet) {
        Ok(entry) => entry,
        Err(fault) => return Err(SheetErr::Fault(fault)),
    };
    let alloc = book.allocator();
    let draft = match style_in(alloc, entry, edit) {
        Ok(draft) => draft,
        Err(stop) => return Err(stop),
    };
    let mut backs = Vec::with_capacity(alloc, 1)?;
    rules.reserve(1)?;
    let back = apply(book, draft);
    add_rule_place(rules, edited_rule(book, &back));
    add_back(&mut backs, back);
    Ok(backs)
}

/// Makes the body of each edit's style rule another text: all of them, each found in the text that the earlier ones left, or
/// none. Answers the splices that lead back, in the order of the edits, and appends to `rules` the rules that were edited; after an
/// error nothing is said of `rules`.
pub fn set_styles_noting(
    book: &mut SheetBook,
    edits: &[StyleEdit],
    rules: &mut Vec<RulePlace>,
) -> Result<Vec<Splice>, SheetErr>
    ensures done { IfOk result (λ backs. styles_edited edits.now book.old ≡ Ok (book.new, backs.items)) }
    ensures rules { OnOk result (rules.new.items ≡ rules.old.items ++ edited_rules edits.now book.old) }
    ensures fault { IfFault result (λ f. styles_edited edits.now book.old ≡ Err f) }
    ensures unchanged { OnErr result (book.new ≡ book.old) }
{
    if let [edit] = edits {
        return set_only(book, edit, rules);
    }
    let alloc = book.allocator();
    let mut backs = Vec::new(alloc);
    let mut olds = Vec::new(alloc);
    match set_each(book, edits, &mut backs, rules, &mut olds) {
        Ok(()) => Ok(backs),
        Err(stop) => {
            restore(book, olds);
            Err(stop)
        }
    }
}

/// Makes the body of each edit's style rule another text: all of them, each found in the text that the earlier ones left, or
/// none. Answers the splices that lead back, in the order of the edits.
pub fn set_styles(book: &mut SheetBook, edits: &[StyleEdit]) -> Result<Vec<Splice>, SheetErr>
    ensures done { IfOk result (λ backs. styles_edited edits.now book.old ≡ Ok (book.new, backs.items)) }
    ensures fault { IfFault result (λ f. styles_edited edits.now book.old ≡ Err f) }
    ensures unchanged { OnErr result (book.new ≡ book.old) }
{
    let mut rules = Vec::new(book.allocator());
    set_styles_noting(book, edits, &mut rules)
}
