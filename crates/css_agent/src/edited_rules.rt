// The rules that edits made, as they are told.
ghost use Rattle.std.specs.Prelude.{◌≡◌, map, option_map, slice_get, IfOk};
ghost use Rattle.sheet_reader.specs.Books.{IsEntry};
ghost use Rattle.sheet_reader.specs.Sheets.{sheet_of};
ghost use Rattle.css_agent.specs.RuleObjects.{told_rule};
ghost use Rattle.css_agent.specs.MediaAround.{told_media};
ghost use Rattle.css_agent.specs.Edits.{found_at, empty_rule, told_at, found_media, empty_media, media_told};

use crate::matched_styles::rule_at;
use crate::media_around::{media_at, told_media_of};
use crate::rulers::Ruler;
use crate::rules::told_rule;
use css_objects::{Listed, Media, Rule, RuleSelectors, SourceRange, Style};
use node_tree::{Origin, Text};
use sheet_reader::{SheetBook, SheetEntry};
use std::alloc::{AllocError, Global};
use style_edits::{RulePlace, Splice, edited_media};

fn found_in(
    alloc: Global,
    ruler: &mut Ruler<'_>,
    entry: &SheetEntry,
    place: usize,
) -> Result<Option<Rule>, AllocError>
    requires entry { IsEntry entry.now }
    requires text { ruler.old ≡ entry.now.text }
    ensures value { IfOk result (λ o. o ≡ option_map (told_rule entry.now) (slice_get (sheet_of entry.now.text).rules place)) }
    ensures same { ruler.new ≡ ruler.old }
{
    let Some(rule) = rule_at(entry, place) else {
        return Ok(None);
    };
    Ok(Some(told_rule(alloc, ruler, entry, rule)?))
}

/// The style rule at that place, if it is there.
fn found_at(alloc: Global, book: &SheetBook, place: RulePlace) -> Result<Option<Rule>, AllocError>
    ensures { IfOk result (λ o. o ≡ found_at book.now place) }
{
    let Some(entry) = book.get(place.sheet) else {
        return Ok(None);
    };
    let mut ruler = Ruler::new(&entry.text);
    found_in(alloc, &mut ruler, entry, place.rule)
}

/// The empty range at the start of a sheet.
fn start_of_sheet() -> SourceRange
    ensures { result ≡ (empty_media 0).range }
{
    SourceRange {
        start_line: 0,
        start_column: 0,
        end_line: 0,
        end_column: 0,
    }
}

/// A rule that has nothing.
fn empty_rule(alloc: Global, sheet: u64) -> Rule
    ensures { result ≡ empty_rule sheet }
{
    let selectors = RuleSelectors {
        selectors: Listed::new(Vec::new(alloc)),
        text: Text::new(String::new(alloc)),
    };
    let style = Style {
        properties: Listed::new(Vec::new(alloc)),
        text: Text::new(String::new(alloc)),
        range: Some(start_of_sheet()),
        sheet: Some(sheet),
    };
    Rule {
        origin: Origin::Regular,
        selectors,
        style,
        sheet,
        media: Listed::new(Vec::new(alloc)),
    }
}

/// The style rule that an edit made.
pub(crate) fn told_at(
    alloc: Global,
    book: &SheetBook,
    place: &RulePlace,
) -> Result<Rule, AllocError>
    ensures { IfOk result (λ r. r ≡ told_at book.now place.now) }
{
    match found_at(alloc, book, *place)? {
        Some(rule) => Ok(rule),
        None => Ok(empty_rule(alloc, place.sheet)),
    }
}

fn style_at(alloc: Global, book: &SheetBook, place: &RulePlace) -> Result<Style, AllocError>
    ensures { IfOk result (λ s. s ≡ (told_at book.now place.now).style) }
{
    let rule = told_at(alloc, book, place)?;
    Ok(rule.style)
}

/// The styles of the rules that edits made.
pub(crate) fn styles_at(
    alloc: Global,
    book: &SheetBook,
    places: &[RulePlace],
) -> Result<Vec<Style>, AllocError>
    ensures { IfOk result (λ v. v.items ≡ map (λ p. (told_at book.now p).style) places.now) }
{
    let mut styles = Vec::new(alloc);
    for place in places {
        styles.push(style_at(alloc, book, place)?)?;
    }
    Ok(styles)
}

fn media_in(alloc: Global, entry: &SheetEntry, place: usize) -> Result<Option<Media>, AllocError>
    requires { IsEntry entry.now }
    ensures { IfOk result (λ o. o
        ≡ option_map (told_media entry.now.id entry.now.text) (slice_get (sheet_of entry.now.text).media place)) }
{
    let Some(rule) = media_at(entry, place) else {
        return Ok(None);
    };
    Ok(Some(told_media_of(alloc, entry, rule)?))
}

/// The media rule at that place of the sheet, if it is there.
fn found_media(
    alloc: Global,
    book: &SheetBook,
    sheet: u64,
    place: usize,
) -> Result<Option<Media>, AllocError>
    ensures { IfOk result (λ o. o ≡ found_media book.now sheet place) }
{
    let Some(entry) = book.get(sheet) else {
        return Ok(None);
    };
    media_in(alloc, entry, place)
}

/// A media rule without a prelude.
fn empty_media(alloc: Global, sheet: u64) -> Media
    ensures { result ≡ empty_media sheet }
{
    Media {
        range: start_of_sheet(),
        sheet,
        text: Text::new(String::new(alloc)),
    }
}

/// The media rule whose prelude an edit made, by the splice that leads back.
pub(crate) fn media_told(
    alloc: Global,
    book: &SheetBook,
    back: &Splice,
) -> Result<Media, AllocError>
    ensures { IfOk result (λ m. m ≡ media_told book.now back.now) }
{
    let place = edited_media(book, back);
    match found_media(alloc, book, back.sheet, place)? {
        Some(media) => Ok(media),
        None => Ok(empty_media(alloc, back.sheet)),
    }
}
