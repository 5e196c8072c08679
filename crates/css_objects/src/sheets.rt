// Sheets in messages: their ids, their origins and their headers.
ghost use Rattle.std.specs.Prelude.{◌≡◌, ◌∷◌, codes, option_map, string_bytes, IfOk};
ghost use Rattle.serde_json.specs.View.{view};
ghost use Rattle.cdp_json.specs.Left.{left};
ghost use Rattle.cdp_json.specs.Rows.{left_with, need, may};
ghost use Rattle.css_objects.specs.Sheets.{sheet_text, sheet_in, sheet_kind, origin_named, origin_kind, header_kind};

use cdp_json::{COUNTED_LIMIT, Cursor, ObjectBuilder, text_of};
use node_tree::Origin;
use serde_json::Value;
use std::alloc::{AllocError, Global};

/// What is told of a sheet as it comes (`CSS.CSSStyleSheetHeader`).
#[derive(Clone, Copy, Drop)]
pub struct Header {
    /// The length of the sheet's text, in UTF-16 units.
    pub length: u64,
    pub origin: Origin,
    /// The sheet's number.
    pub sheet: u64,
}

/// The number that stands in an id behind its letter, as in that of a sheet: from 1 to 2^53-1, in decimal digits without a leading
/// zero.
pub fn number_in(digits: &str) -> Option<u64>
    ensures { result ≡ sheet_in (115 ∷ digits.now) }
{
    if digits.starts_with('0') {
        return None;
    }
    if digits.starts_with('+') {
        return None;
    }
    match digits.parse::<u64>() {
        Ok(number) => if number < COUNTED_LIMIT {
            Some(number)
        } else {
            None
        },
        Err(_) => None,
    }
}

/// The sheet whose id has this text: `s`, and the sheet's number.
pub fn sheet_in(text: &str) -> Option<u64>
    ensures { result ≡ sheet_in text.now }
{
    let digits = text.strip_prefix('s')?;
    number_in(digits)
}

/// The text of a sheet's id.
pub fn sheet_text(alloc: Global, sheet: u64) -> Result<String, AllocError>
    ensures { IfOk result (λ text. string_bytes text ≡ sheet_text sheet) }
{
    format!(in alloc; "s{sheet}")
}

/// `None` where the value is no sheet's id.
pub fn sheet_of(value: &Value) -> Option<u64>
    ensures { result ≡ sheet_kind.reads (view value.now) }
{
    sheet_in(text_of(value)?)
}

pub(crate) fn sheet_field(fields: &mut Cursor<'_>) -> Option<u64>
    ensures { option_map (left_with (left fields.new)) result
        ≡ need sheet_kind.reads (codes "styleSheetId") (left fields.old) }
{
    let value = fields.need("styleSheetId")?;
    sheet_of(value)
}

// An outer `None` says that the field is there and no sheet's id.
pub(crate) fn sheet_if_any(fields: &mut Cursor<'_>) -> Option<Option<u64>>
    ensures { option_map (left_with (left fields.new)) result
        ≡ may sheet_kind.reads (codes "styleSheetId") (left fields.old) }
{
    match fields.may("styleSheetId") {
        Some(value) => match sheet_of(value) {
            Some(sheet) => Some(Some(sheet)),
            None => None,
        },
        None => Some(None),
    }
}

/// The id of a sheet as JSON.
pub fn sheet_value(alloc: Global, sheet: u64) -> Result<Value, AllocError>
    ensures { IfOk result (λ v. view v ≡ sheet_kind.spell sheet) }
{
    Ok(Value::String(sheet_text(alloc, sheet)?))
}

pub(crate) fn sheet_if_any_value(
    alloc: Global,
    sheet: Option<u64>,
) -> Result<Option<Value>, AllocError>
    ensures { IfOk result (λ o. option_map view o ≡ option_map sheet_kind.spell sheet) }
{
    match sheet {
        Some(sheet) => match sheet_value(alloc, sheet) {
            Ok(value) => Ok(Some(value)),
            Err(error) => Err(error),
        },
        None => Ok(None),
    }
}

pub(crate) fn origin_in(name: &str) -> Option<Origin>
    ensures { result ≡ origin_named name.now }
{
    match name {
        "user-agent" => Some(Origin::UserAgent),
        "regular" => Some(Origin::Regular),
        _ => None,
    }
}

fn origin_of(value: &Value) -> Option<Origin>
    ensures { result ≡ origin_kind.reads (view value.now) }
{
    origin_in(text_of(value)?)
}

pub(crate) fn origin_field(fields: &mut Cursor<'_>) -> Option<Origin>
    ensures { option_map (left_with (left fields.new)) result
        ≡ need origin_kind.reads (codes "origin") (left fields.old) }
{
    let value = fields.need("origin")?;
    origin_of(value)
}

pub(crate) fn origin_value(alloc: Global, origin: Origin) -> Result<Value, AllocError>
    ensures { IfOk result (λ v. view v ≡ origin_kind.spell origin) }
{
    Value::try_from_str(alloc, origin.as_str())
}

/// `None` where the value is no header, of exactly its three fields.
pub fn header_of(value: &Value) -> Option<Header>
    ensures { result ≡ header_kind.reads (view value.now) }
{
    let mut fields = Cursor::new(value.as_object()?);
    let length = fields.need_whole("length")?;
    let origin = origin_field(&mut fields)?;
    let sheet = sheet_field(&mut fields)?;
    if !fields.is_done() {
        return None;
    }
    Some(Header {
        length,
        origin,
        sheet,
    })
}

/// The header as JSON.
pub fn header_value(alloc: Global, header: Header) -> Result<Value, AllocError>
    ensures { IfOk result (λ v. view v ≡ header_kind.spell header) }
{
    ObjectBuilder::new(alloc)
        .with_value("length", Value::from(header.length))?
        .with_value("origin", origin_value(alloc, header.origin)?)?
        .with_value("styleSheetId", sheet_value(alloc, header.sheet)?)?
        .build()
}
