// The style sheets of a page that is loaded.
ghost use Rattle.node_tree.specs.Origins.{origin_name, all_origins};
ghost use Rattle.std.specs.Prelude.{◌≡◌, codes, option_map, IfOk};
ghost use Rattle.std.specs.List.{list_all};
ghost use Rattle.serde_json.specs.View.{view, items_view};
ghost use Rattle.cdp_json.specs.Kinds.{named, read_items};
ghost use Rattle.cdp_json.specs.Left.{left};
ghost use Rattle.cdp_json.specs.Rows.{left_with, need};
ghost use Rattle.page_forms.specs.Sheets.{origin_form, sheet_form, sheet_list, is_short, can_hold_sheets};

use cdp_json::{Cursor, text_of};
use node_tree::{MAX_SHEET_BYTES, MAX_SHEETS, Text};
use serde_json::Value;
use sheet_reader::Origin;
use std::alloc::{AllocError, Global};

/// A style sheet of a page that is loaded.
#[derive(Drop)]
pub struct SheetForm {
    pub origin: Origin,
    pub text: Text,
}

/// Whose sheets the word says.
pub(crate) fn origin_in(word: &str) -> Option<Origin>
    ensures { result ≡ named origin_name all_origins word.now }
{
    match word {
        "user-agent" => Some(Origin::UserAgent),
        "regular" => Some(Origin::Regular),
        _ => None,
    }
}

fn origin_of(value: &Value) -> Option<Origin>
    ensures { result ≡ origin_form.reads (view value.now) }
{
    origin_in(text_of(value)?)
}

// The field `origin`.
pub(crate) fn origin_field(fields: &mut Cursor<'_>) -> Option<Origin>
    ensures { option_map (left_with (left fields.new)) result
        ≡ need origin_form.reads (codes "origin") (left fields.old) }
{
    let value = fields.need("origin")?;
    origin_of(value)
}

fn sheet_of(alloc: Global, value: &Value) -> Result<Option<SheetForm>, AllocError>
    ensures { IfOk result (λ sheet. sheet ≡ sheet_form.reads (view value.now)) }
{
    let Some(members) = value.as_object() else {
        return Ok(None);
    };
    let mut fields = Cursor::new(members);
    let Some(origin) = origin_field(&mut fields) else {
        return Ok(None);
    };
    let Some(text) = fields.need_text("text") else {
        return Ok(None);
    };
    if !fields.is_done() {
        return Ok(None);
    }
    Ok(Some(SheetForm {
        origin,
        text: Text::copied(alloc, text)?,
    }))
}

fn sheets_of(alloc: Global, values: &[Value]) -> Result<Option<Vec<SheetForm>>, AllocError>
    ensures { IfOk result (λ o. option_map (λ v. v.items) o
        ≡ read_items sheet_form.reads (items_view values.now)) }
{
    let mut sheets = Vec::new(alloc);
    for value in values {
        let Some(sheet) = sheet_of(alloc, value)? else {
            return Ok(None);
        };
        sheets.push(sheet)?;
    }
    Ok(Some(sheets))
}

/// The sheets that a list spells; none where it is no list, or one of its sheets has not its form.
pub(crate) fn read_sheets(alloc: Global, list: &Value) -> Result<Option<Vec<SheetForm>>, AllocError>
    ensures { IfOk result (λ o. option_map (λ v. v.items) o ≡ sheet_list.reads (view list.now)) }
{
    match list.as_array() {
        Some(values) => sheets_of(alloc, values.as_slice()),
        None => Ok(None),
    }
}

fn is_short(sheet: &SheetForm) -> bool
    ensures { result ≡ is_short sheet.now }
{
    sheet.text.len() <= MAX_SHEET_BYTES
}

fn are_short(sheets: &[SheetForm]) -> bool
    ensures { result ≡ list_all is_short sheets.now }
{
    sheets.iter().all(|sheet| is_short(sheet))
}

/// Whether a page may hold these sheets: at most 1,000, each with a text of at most 2^24 bytes.
pub(crate) fn can_hold_sheets(sheets: &[SheetForm]) -> bool
    ensures { result ≡ can_hold_sheets sheets.now }
{
    if sheets.len() > MAX_SHEETS {
        return false;
    }
    are_short(sheets)
}
