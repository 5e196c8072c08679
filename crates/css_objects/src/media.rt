// Media rules.
ghost use Rattle.std.specs.Prelude.{◌≡◌, codes, option_map, IfOk, if◌then◌else◌, Some, None};
ghost use Rattle.serde_json.specs.View.{view, items_view};
ghost use Rattle.cdp_json.specs.Left.{left};
ghost use Rattle.cdp_json.specs.Kinds.{list_of, only_text, read_items};
ghost use Rattle.cdp_json.specs.Rows.{left_with, need};
ghost use Rattle.css_objects.specs.Media.{media_kind, some_media_kind};

use crate::listed::Listed;
use crate::ranges::{SourceRange, range_field, range_value};
use crate::sheets::{sheet_field, sheet_value};
use cdp_json::{Cursor, ObjectBuilder, list_of};
use node_tree::Text;
use serde_json::Value;
use std::alloc::{AllocError, Global};

/// A media rule of a sheet, told by its prelude (`CSS.CSSMedia`).
#[derive(Drop)]
pub struct Media {
    /// Where the prelude stands in its sheet.
    pub range: SourceRange,
    /// The sheet's number.
    pub sheet: u64,
    /// The text of the prelude.
    pub text: Text,
}

fn source_field(fields: &mut Cursor<'_>) -> bool
    ensures { option_map (left_with (left fields.new)) (if result then Some tt else None)
        ≡ need (only_text (codes "mediaRule")).reads (codes "source") (left fields.old) }
{
    match fields.need_text("source") {
        Some(source) => source == "mediaRule",
        None => false,
    }
}

/// `None` where the value is no media rule.
pub fn media_of(alloc: Global, value: &Value) -> Result<Option<Media>, AllocError>
    ensures { IfOk result (λ o. o ≡ media_kind.reads (view value.now)) }
{
    let Some(members) = value.as_object() else {
        return Ok(None);
    };
    let mut fields = Cursor::new(members);
    let Some(range) = range_field(&mut fields) else {
        return Ok(None);
    };
    if !source_field(&mut fields) {
        return Ok(None);
    }
    let Some(sheet) = sheet_field(&mut fields) else {
        return Ok(None);
    };
    let Some(text) = fields.need_text("text") else {
        return Ok(None);
    };
    if !fields.is_done() {
        return Ok(None);
    }
    let text = Text::copied(alloc, text)?;
    Ok(Some(Media { range, sheet, text }))
}

/// The media rule as JSON.
pub fn media_value(alloc: Global, media: &Media) -> Result<Value, AllocError>
    ensures { IfOk result (λ v. view v ≡ media_kind.spell media.now) }
{
    ObjectBuilder::new(alloc)
        .with_value("range", range_value(alloc, media.range)?)?
        .with_text("source", "mediaRule")?
        .with_value("styleSheetId", sheet_value(alloc, media.sheet)?)?
        .with_text("text", media.text.as_str())?
        .build()
}

fn media_items(alloc: Global, items: &[Value]) -> Result<Option<Vec<Media>>, AllocError>
    ensures { IfOk result (λ o. option_map (λ v. v.items) o
        ≡ read_items media_kind.reads (items_view items.now)) }
{
    let mut list = Vec::new(alloc);
    for item in items {
        let Some(media) = media_of(alloc, item)? else {
            return Ok(None);
        };
        list.push(media)?;
    }
    Ok(Some(list))
}

fn media_list_of(alloc: Global, value: &Value) -> Result<Option<Listed<Media>>, AllocError>
    ensures { IfOk result (λ o. o ≡ (list_of media_kind).reads (view value.now)) }
{
    let Some(items) = list_of(value) else {
        return Ok(None);
    };
    match media_items(alloc, items)? {
        Some(media) => Ok(Some(Listed::new(media))),
        None => Ok(None),
    }
}

/// `None` where the value is no list of media rules, or has none.
pub(crate) fn some_media_of(
    alloc: Global,
    value: &Value,
) -> Result<Option<Listed<Media>>, AllocError>
    ensures { IfOk result (λ o. o ≡ some_media_kind.reads (view value.now)) }
{
    match media_list_of(alloc, value)? {
        Some(media) => if media.len() == 0 {
            Ok(None)
        } else {
            Ok(Some(media))
        },
        None => Ok(None),
    }
}

/// The list as JSON.
pub(crate) fn some_media_value(alloc: Global, media: &[Media]) -> Result<Value, AllocError>
    ensures { IfOk result (λ v. view v ≡ some_media_kind.spell media.now) }
{
    let mut items = Vec::new(alloc);
    for rule in media {
        items.push(media_value(alloc, rule)?)?;
    }
    Ok(Value::Array(items))
}
