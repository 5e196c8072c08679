// Ranges of a sheet's text.
ghost use Rattle.std.specs.Prelude.{◌≡◌, codes, option_map, IfOk};
ghost use Rattle.serde_json.specs.View.{view};
ghost use Rattle.cdp_json.specs.Left.{left};
ghost use Rattle.cdp_json.specs.Rows.{left_with, need, may};
ghost use Rattle.css_objects.specs.Ranges.{range_kind};

use cdp_json::{Cursor, ObjectBuilder};
use serde_json::Value;
use std::alloc::{AllocError, Global};

/// A range of a sheet's text (`CSS.SourceRange`): lines and columns from 0, a column in UTF-16 units, the end left out.
#[derive(Clone, Copy, Drop)]
pub struct SourceRange {
    pub start_line: u64,
    pub start_column: u64,
    pub end_line: u64,
    pub end_column: u64,
}

/// `None` where the value is no range.
pub fn range_of(value: &Value) -> Option<SourceRange>
    ensures { result ≡ range_kind.reads (view value.now) }
{
    let mut fields = Cursor::new(value.as_object()?);
    let end_column = fields.need_whole("endColumn")?;
    let end_line = fields.need_whole("endLine")?;
    let start_column = fields.need_whole("startColumn")?;
    let start_line = fields.need_whole("startLine")?;
    if !fields.is_done() {
        return None;
    }
    Some(SourceRange {
        start_line,
        start_column,
        end_line,
        end_column,
    })
}

/// The range as JSON.
pub fn range_value(alloc: Global, range: SourceRange) -> Result<Value, AllocError>
    ensures { IfOk result (λ v. view v ≡ range_kind.spell range) }
{
    ObjectBuilder::new(alloc)
        .with_value("endColumn", Value::from(range.end_column))?
        .with_value("endLine", Value::from(range.end_line))?
        .with_value("startColumn", Value::from(range.start_column))?
        .with_value("startLine", Value::from(range.start_line))?
        .build()
}

pub(crate) fn range_field(fields: &mut Cursor<'_>) -> Option<SourceRange>
    ensures { option_map (left_with (left fields.new)) result
        ≡ need range_kind.reads (codes "range") (left fields.old) }
{
    let value = fields.need("range")?;
    range_of(value)
}

// An outer `None` says that the field is there and no range.
pub(crate) fn range_if_any(fields: &mut Cursor<'_>) -> Option<Option<SourceRange>>
    ensures { option_map (left_with (left fields.new)) result
        ≡ may range_kind.reads (codes "range") (left fields.old) }
{
    match fields.may("range") {
        Some(value) => match range_of(value) {
            Some(range) => Some(Some(range)),
            None => None,
        },
        None => Some(None),
    }
}

pub(crate) fn range_if_any_value(
    alloc: Global,
    range: Option<SourceRange>,
) -> Result<Option<Value>, AllocError>
    ensures { IfOk result (λ o. option_map view o ≡ option_map range_kind.spell range) }
{
    match range {
        Some(range) => match range_value(alloc, range) {
            Ok(value) => Ok(Some(value)),
            Err(error) => Err(error),
        },
        None => Ok(None),
    }
}
