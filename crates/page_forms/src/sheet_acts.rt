// The acts on style sheets.
ghost use Rattle.std.specs.Prelude.{◌≡◌, IfOk};
ghost use Rattle.serde_json.specs.View.{view};
ghost use Rattle.page_forms.specs.Acts.{add_sheet_in, drop_sheet_in, replace_sheet_in};

use crate::acts::{Act, does};
use crate::sheets::origin_field;
use cdp_json::Cursor;
use node_tree::Text;
use serde_json::Value;
use std::alloc::{AllocError, Global};

pub(crate) fn add_sheet_of(alloc: Global, value: &Value) -> Result<Option<Act>, AllocError>
    ensures { IfOk result (λ act. act ≡ add_sheet_in (view value.now)) }
{
    let Some(members) = value.as_object() else {
        return Ok(None);
    };
    let mut fields = Cursor::new(members);
    if !does(&mut fields, "addSheet") {
        return Ok(None);
    }
    let Some(origin) = origin_field(&mut fields) else {
        return Ok(None);
    };
    let Some(text) = fields.need_text("text") else {
        return Ok(None);
    };
    if !fields.is_done() {
        return Ok(None);
    }
    Ok(Some(Act::AddSheet {
        origin,
        text: Text::copied(alloc, text)?,
    }))
}

pub(crate) fn drop_sheet_of(alloc: Global, value: &Value) -> Result<Option<Act>, AllocError>
    ensures { IfOk result (λ act. act ≡ drop_sheet_in (view value.now)) }
{
    let Some(members) = value.as_object() else {
        return Ok(None);
    };
    let mut fields = Cursor::new(members);
    if !does(&mut fields, "dropSheet") {
        return Ok(None);
    }
    let Some(sheet) = fields.need_text("sheet") else {
        return Ok(None);
    };
    if !fields.is_done() {
        return Ok(None);
    }
    Ok(Some(Act::DropSheet {
        sheet: Text::copied(alloc, sheet)?,
    }))
}

pub(crate) fn replace_sheet_of(alloc: Global, value: &Value) -> Result<Option<Act>, AllocError>
    ensures { IfOk result (λ act. act ≡ replace_sheet_in (view value.now)) }
{
    let Some(members) = value.as_object() else {
        return Ok(None);
    };
    let mut fields = Cursor::new(members);
    if !does(&mut fields, "replaceSheet") {
        return Ok(None);
    }
    let Some(sheet) = fields.need_text("sheet") else {
        return Ok(None);
    };
    let Some(text) = fields.need_text("text") else {
        return Ok(None);
    };
    if !fields.is_done() {
        return Ok(None);
    }
    Ok(Some(Act::ReplaceSheet {
        sheet: Text::copied(alloc, sheet)?,
        text: Text::copied(alloc, text)?,
    }))
}
