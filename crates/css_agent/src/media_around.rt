// The media rules around a rule, as messages tell them.
ghost use Rattle.std.specs.Prelude.{◌≡◌, ◌<◌, All, length, map, slice_get, Some, IfOk, IfSome};
ghost use Rattle.selectors.specs.Ranges.{IsRangeOf};
ghost use Rattle.sheet_reader.specs.Around.{IsBelow, AreBelow};
ghost use Rattle.sheet_reader.specs.Books.{IsEntry};
ghost use Rattle.sheet_reader.specs.Sheets.{sheet_of};
ghost use Rattle.css_agent.specs.MediaAround.{media_around, told_media, told_around};

use crate::rulers::Ruler;
use crate::styles::told_part;
use css_objects::Media;
use sheet_reader::{MediaRule, SheetEntry};
use std::alloc::{AllocError, Global};

fn media_in(media: &[MediaRule], place: usize) -> MediaRule
    requires { place < length media.now }
    ensures { slice_get media.now place ≡ Some result }
{
    media[place]
}

/// Those around something, from the innermost outwards.
fn media_around(
    alloc: Global,
    media: &[MediaRule],
    around: Option<usize>,
) -> Result<Vec<MediaRule>, AllocError>
    requires media { AreBelow 0 media.now }
    requires around { IsBelow (length media.now) around }
    ensures { IfOk result (λ v. v.items ≡ media_around media.now around) }
{
    let mut found = Vec::new(alloc);
    let mut at = around;
    while let Some(place) = at {
        let rule = media_in(media, place);
        found.push(rule)?;
        at = rule.inside;
    }
    Ok(found)
}

fn told_media(
    alloc: Global,
    ruler: &mut Ruler<'_>,
    sheet: u64,
    rule: MediaRule,
) -> Result<Media, AllocError>
    requires { IsRangeOf ruler.old rule.prelude }
    ensures value { IfOk result (λ m. m ≡ told_media sheet ruler.old rule) }
    ensures same { ruler.new ≡ ruler.old }
{
    let range = ruler.range_of(rule.prelude);
    let text = told_part(alloc, ruler.text(), rule.prelude)?;
    Ok(Media { range, sheet, text })
}

fn told_each(
    alloc: Global,
    ruler: &mut Ruler<'_>,
    sheet: u64,
    rules: &[MediaRule],
) -> Result<Vec<Media>, AllocError>
    requires { All (λ r. IsRangeOf ruler.old r.prelude) rules.now }
    ensures value { IfOk result (λ v. v.items ≡ map (told_media sheet ruler.old) rules.now) }
    ensures same { ruler.new ≡ ruler.old }
{
    let mut told = Vec::new(alloc);
    for rule in rules {
        told.push(told_media(alloc, ruler, sheet, *rule)?)?;
    }
    Ok(told)
}

/// Those around something in a sheet, the innermost first.
pub(crate) fn told_around(
    alloc: Global,
    ruler: &mut Ruler<'_>,
    entry: &SheetEntry,
    around: Option<usize>,
) -> Result<Vec<Media>, AllocError>
    requires entry { IsEntry entry.now }
    requires text { ruler.old ≡ entry.now.text }
    requires around { IsBelow (length (sheet_of entry.now.text).media) around }
    ensures value { IfOk result (λ v. v.items ≡ told_around entry.now.id entry.now.text around) }
    ensures same { ruler.new ≡ ruler.old }
{
    // Read for the proof alone: a text is UTF-8.
    let _text = entry.text.as_str();
    let mut rules = media_around(alloc, entry.reading.media.as_slice(), around)?;
    // Told from the outermost on, so that the ruler goes forwards.
    rules.reverse();
    let mut told = told_each(alloc, ruler, entry.id, rules.as_slice())?;
    told.reverse();
    Ok(told)
}

fn media_among(media: &[MediaRule], place: usize) -> Option<MediaRule>
    ensures { result ≡ slice_get media.now place }
{
    match media.get(place) {
        Some(rule) => Some(*rule),
        None => None,
    }
}

/// The media rule at a place of a sheet.
pub(crate) fn media_at(entry: &SheetEntry, place: usize) -> Option<MediaRule>
    requires { IsEntry entry.now }
    ensures rule { result ≡ slice_get (sheet_of entry.now.text).media place }
    ensures usable { IfSome result (λ r. IsRangeOf entry.now.text r.prelude) }
{
    // Read for the proof alone: a text is UTF-8.
    let _text = entry.text.as_str();
    media_among(entry.reading.media.as_slice(), place)
}

/// A media rule of a sheet.
pub(crate) fn told_media_of(
    alloc: Global,
    entry: &SheetEntry,
    rule: MediaRule,
) -> Result<Media, AllocError>
    requires { IsRangeOf entry.now.text rule.prelude }
    ensures { IfOk result (λ m. m ≡ told_media entry.now.id entry.now.text rule) }
{
    let mut ruler = Ruler::new(&entry.text);
    told_media(alloc, &mut ruler, entry.id, rule)
}
