//! Which media rules of a sheet hold of a medium, each with every one around it.

ghost use Rattle.std.specs.Prelude.{◌≡◌, ◌&&◌, All, IfOk};
ghost use Rattle.selectors.specs.Ranges.{IsRangeOf};
ghost use Rattle.selectors.specs.Words.{between};
ghost use Rattle.sheet_reader.specs.Books.{IsEntry};
ghost use Rattle.sheet_reader.specs.Around.{held, held_at};
ghost use Rattle.cascade_match.specs.MediaHeld.{media_holds, media_held};

use css_tokens::Range;
use media_rules::{Medium, holds};
use sheet_reader::{MediaRule, SheetEntry};
use std::alloc::{AllocError, Global};

fn cut(text: &str, range: Range) -> &str
    requires { IsRangeOf text.now range }
    ensures { result.now ≡ between text.now range.start range.end }
{
    &text[range.start..range.end]
}

/// Whether the media rule at this place, where there is one, holds with every one around it.
pub(crate) fn held_at(held: &[bool], place: Option<usize>) -> bool
    ensures { result ≡ held_at held.now place }
{
    match place {
        Some(place) => match held.get(place) {
            Some(holds) => *holds,
            None => false,
        },
        None => true,
    }
}

fn both(own: bool, around: bool) -> bool
    ensures { result ≡ (own && around) }
{
    own && around
}

fn held_among(
    alloc: Global,
    text: &str,
    media: &[MediaRule],
    medium: &Medium,
) -> Result<Vec<bool>, AllocError>
    requires { All (λ r. IsRangeOf text.now r.prelude) media.now }
    ensures { IfOk result (λ v. v.items ≡ held (media_holds text.now medium.now) media.now) }
{
    let mut list = Vec::new(alloc);
    for rule in media {
        let own = holds(cut(text, rule.prelude), medium);
        let around = held_at(list.as_slice(), rule.inside);
        list.push(both(own, around))?;
    }
    Ok(list)
}

/// For each media rule of the sheet, whether it and every one around it holds. Each is judged once.
pub(crate) fn media_held(
    alloc: Global,
    entry: &SheetEntry,
    medium: &Medium,
) -> Result<Vec<bool>, AllocError>
    requires { IsEntry entry.now }
    ensures { IfOk result (λ v. v.items ≡ media_held medium.now entry.now.text) }
{
    held_among(
        alloc,
        entry.text.as_str(),
        entry.reading.media.as_slice(),
        medium,
    )
}
