// The medium of a page that is loaded, and the act that changes it.
ghost use Rattle.std.specs.Prelude.{◌≡◌, codes, option_map, Some};
ghost use Rattle.serde_json.specs.View.{view};
ghost use Rattle.cdp_json.specs.Kinds.{named};
ghost use Rattle.cdp_json.specs.Left.{left};
ghost use Rattle.cdp_json.specs.Rows.{left_with, need};
ghost use Rattle.page_forms.specs.Acts.{medium_act_in};
ghost use Rattle.media_rules.specs.Signs.{type_name};
ghost use Rattle.page_forms.specs.Mediums.{all_mediums, medium_type, width_form, usual_medium, medium_in, medium_at};

use crate::acts::{Act, does};
use cdp_json::{Cursor, text_of};
use media_rules::{Medium, MediumKind};
use serde_json::Value;

/// A width is less than this, in pixels.
const WIDTH_LIMIT: u64 = 1 << 31;

// What a page is shown on, by its word.
fn kind_in(word: &str) -> Option<MediumKind>
    ensures { result ≡ named type_name all_mediums word.now }
{
    match word {
        "screen" => Some(MediumKind::Screen),
        "print" => Some(MediumKind::Print),
        _ => None,
    }
}

fn kind_of(value: &Value) -> Option<MediumKind>
    ensures { result ≡ medium_type.reads (view value.now) }
{
    kind_in(text_of(value)?)
}

// The field `type`.
fn kind_field(fields: &mut Cursor<'_>) -> Option<MediumKind>
    ensures { option_map (left_with (left fields.new)) result
        ≡ need medium_type.reads (codes "type") (left fields.old) }
{
    let value = fields.need("type")?;
    kind_of(value)
}

// The field `width`.
fn width_field(fields: &mut Cursor<'_>) -> Option<u64>
    ensures { option_map (left_with (left fields.new)) result
        ≡ need width_form.reads (codes "width") (left fields.old) }
{
    let width = fields.need_whole("width")?;
    if width < WIDTH_LIMIT {
        Some(width)
    } else {
        None
    }
}

fn medium_of(value: &Value) -> Option<Medium>
    ensures { result ≡ medium_in (view value.now) }
{
    let mut fields = Cursor::new(value.as_object()?);
    let kind = kind_field(&mut fields)?;
    let width = width_field(&mut fields)?;
    if fields.is_done() {
        Some(Medium { kind, width })
    } else {
        None
    }
}

/// The medium of a page that says none: a screen, 1280 pixels wide.
pub fn usual_medium() -> Medium
    ensures { result ≡ usual_medium }
{
    Medium {
        kind: MediumKind::Screen,
        width: 1280,
    }
}

/// The medium of a page that has this field `medium`; none where the value has not the form.
pub(crate) fn medium_at(field: Option<&Value>) -> Option<Medium>
    ensures { result ≡ medium_at (option_map (λ v. view v.now) field.entry) }
{
    match field {
        Some(value) => medium_of(value),
        None => Some(usual_medium()),
    }
}

pub(crate) fn medium_act_of(value: &Value) -> Option<Act>
    ensures { result ≡ medium_act_in (view value.now) }
{
    let mut fields = Cursor::new(value.as_object()?);
    if !does(&mut fields, "medium") {
        return None;
    }
    let kind = kind_field(&mut fields)?;
    let width = width_field(&mut fields)?;
    if fields.is_done() {
        Some(Act::Medium {
            medium: Medium { kind, width },
        })
    } else {
        None
    }
}
