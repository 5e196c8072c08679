// From a command's words to those of edits.
ghost use Rattle.std.specs.Prelude.{◌≡◌, map, IfOk};
ghost use Rattle.css_agent.specs.Edits.{number_named, line_range, style_edit};

use cdp_messages::TextEdit;
use css_objects::{SourceRange, sheet_in};
use std::alloc::{AllocError, Global};
use style_edits::{LineRange, StyleEdit};

/// The number of the sheet whose id has this text; 0, which is no sheet's, where none can have it.
pub(crate) fn sheet_number(text: &str) -> u64
    ensures { result ≡ number_named text.now }
{
    sheet_in(text).unwrap_or(0)
}

pub(crate) fn line_range(range: SourceRange) -> LineRange
    ensures { result ≡ line_range range }
{
    LineRange {
        start_line: range.start_line,
        start_column: range.start_column,
        end_line: range.end_line,
        end_column: range.end_column,
    }
}

fn style_edit(edit: &TextEdit) -> Result<StyleEdit, AllocError>
    ensures { IfOk result (λ e. e ≡ style_edit edit.now) }
{
    Ok(StyleEdit {
        sheet: sheet_number(edit.sheet.as_str()),
        range: line_range(edit.range),
        text: edit.text.try_clone()?,
    })
}

pub(crate) fn style_edits(alloc: Global, edits: &[TextEdit]) -> Result<Vec<StyleEdit>, AllocError>
    ensures { IfOk result (λ v. v.items ≡ map style_edit edits.now) }
{
    let mut made = Vec::new(alloc);
    for edit in edits {
        made.push(style_edit(edit)?)?;
    }
    Ok(made)
}
