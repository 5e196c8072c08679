//! Rows of edits of a sheet with the id 1. Behind the sheet's text stands, for `set`, a list of new bodies, each
//! `[LINE,COLUMN,LINE,COLUMN,TEXT]`; for `selector` such a new prelude; for `rule` the sheet's origin, the id that is asked for,
//! and such a new rule; for `text` a new text, after which the sheet is dropped twice; and for `open` nothing: the columns of
//! its first line are told at which a rule may be added. Of an edit the sheet's text after it and the splices that lead
//! back are told, or the fault and the text.

use crate::row_parts::{Answer, number_or_zero, text_or_empty, values_from};
use crate::sheet_rows::origin_of;
use node_tree::Text;
use serde_json::Value;
use sheet_reader::{Origin, SheetBook};
use std::alloc::{AllocError, Global};
use style_edits::{
    LineRange, SheetErr, Splice, StyleEdit, add_rule, add_sheet, drop_sheet, set_selector,
    set_styles, set_text,
};

/// What comes of a row.
pub(crate) fn told(
    alloc: Global,
    word: &str,
    args: &Value,
    answer: &mut Answer,
) -> Result<(), AllocError> {
    if word == "open" {
        return push_open_columns(alloc, text_or_empty(args, 0), answer);
    }
    let origin = match word {
        "rule" => origin_of(text_or_empty(args, 1)),
        _ => Origin::Regular,
    };
    let mut book = book_of(alloc, origin, text_or_empty(args, 0))?;
    edit(alloc, &mut book, word, args, answer)
}

/// Carries out an edit on a book.
fn edit(
    alloc: Global,
    book: &mut SheetBook,
    word: &str,
    args: &Value,
    answer: &mut Answer,
) -> Result<(), AllocError> {
    match word {
        "set" => set_all(alloc, book, values_from(args, 1), answer),
        "selector" => select(book, args, answer),
        "rule" => rule(book, args, answer),
        "text" => replace(book, text_or_empty(args, 1), answer),
        _ => {
            answer.push("no such call");
            Ok(())
        }
    }
}

/// A book with the sheet 1.
fn book_of(alloc: Global, origin: Origin, text: &str) -> Result<SheetBook, AllocError> {
    let mut book = SheetBook::new(alloc);
    match add_sheet(&mut book, 1, origin, text) {
        Ok(()) | Err(SheetErr::Fault(_)) => Ok(book),
        Err(SheetErr::Memory) => Err(AllocError),
    }
}

/// The text of the sheet 1.
fn text_of(book: &SheetBook) -> &str {
    match book.get(1) {
        Some(entry) => entry.text.as_str(),
        None => "gone",
    }
}

/// The lines and columns that an edit names.
fn range_of(edit: &Value) -> LineRange {
    LineRange {
        start_line: number_or_zero(edit, 0),
        start_column: number_or_zero(edit, 1),
        end_line: number_or_zero(edit, 2),
        end_column: number_or_zero(edit, 3),
    }
}

/// A column of the first line, as an empty range.
fn column(at: u64) -> LineRange {
    LineRange {
        start_line: 0,
        start_column: at,
        end_line: 0,
        end_column: at,
    }
}

/// The sheet's text.
fn push_text(book: &SheetBook, answer: &mut Answer) {
    answer.push_debug(&text_of(book));
}

/// The splice that leads back from an edit.
fn push_splice(back: &Splice, answer: &mut Answer) {
    answer.push(" ");
    answer.push_range(back.start, back.end);
    answer.push(" ");
    answer.push_debug(&back.text.as_str());
}

/// What stopped an edit, and the sheet's text.
fn push_stop(book: &SheetBook, stop: SheetErr, answer: &mut Answer) -> Result<(), AllocError> {
    match stop {
        SheetErr::Fault(fault) => {
            answer.push_debug(&fault);
            answer.push(" ");
            push_text(book, answer);
            Ok(())
        }
        SheetErr::Memory => Err(AllocError),
    }
}

/// What came of one edit.
fn push_outcome(
    book: &SheetBook,
    made: Result<Splice, SheetErr>,
    answer: &mut Answer,
) -> Result<(), AllocError> {
    match made {
        Ok(back) => {
            push_text(book, answer);
            push_splice(&back, answer);
            Ok(())
        }
        Err(stop) => push_stop(book, stop, answer),
    }
}

/// The new body that a list names.
fn edit_of(alloc: Global, edit: &Value) -> Result<StyleEdit, AllocError> {
    Ok(StyleEdit {
        sheet: 1,
        range: range_of(edit),
        text: Text::copied(alloc, text_or_empty(edit, 4))?,
    })
}

/// The new bodies of a call.
fn edits_of(alloc: Global, edits: &[Value]) -> Result<Vec<StyleEdit>, AllocError> {
    let mut out = Vec::new(alloc);
    for edit in edits {
        out.push(edit_of(alloc, edit)?)?;
    }
    Ok(out)
}

/// Sets bodies in one call.
fn set_all(
    alloc: Global,
    book: &mut SheetBook,
    edits: &[Value],
    answer: &mut Answer,
) -> Result<(), AllocError> {
    let edits = edits_of(alloc, edits)?;
    match set_styles(book, edits.as_slice()) {
        Ok(backs) => {
            push_text(book, answer);
            for back in &backs {
                push_splice(back, answer);
            }
            Ok(())
        }
        Err(stop) => push_stop(book, stop, answer),
    }
}

/// Sets a prelude.
fn select(book: &mut SheetBook, args: &Value, answer: &mut Answer) -> Result<(), AllocError> {
    let Some(edit) = args.get(1) else {
        return Ok(());
    };
    let made = set_selector(book, 1, &range_of(edit), text_or_empty(edit, 4));
    push_outcome(book, made, answer)
}

/// Adds a rule.
fn rule(book: &mut SheetBook, args: &Value, answer: &mut Answer) -> Result<(), AllocError> {
    let Some(edit) = args.get(3) else {
        return Ok(());
    };
    let (id, text) = (number_or_zero(args, 2), text_or_empty(edit, 4));
    let made = add_rule(book, id, text, &range_of(edit));
    push_outcome(book, made, answer)
}

/// Sets the whole text, and then drops the sheet twice.
fn replace(book: &mut SheetBook, new: &str, answer: &mut Answer) -> Result<(), AllocError> {
    let made = set_text(book, 1, new);
    push_outcome(book, made, answer)?;
    answer.push("; ");
    answer.push_debug(&drop_sheet(book, 1));
    answer.push(" ");
    answer.push_debug(&drop_sheet(book, 1));
    Ok(())
}

/// Whether a rule may be added at this column of the first line.
fn is_open(alloc: Global, text: &str, at: u64) -> Result<bool, AllocError> {
    let mut book = book_of(alloc, Origin::Regular, text)?;
    Ok(add_rule(&mut book, 1, "u{}", &column(at)).is_ok())
}

/// The columns of the first line at which a rule may be added.
fn push_open_columns(alloc: Global, text: &str, answer: &mut Answer) -> Result<(), AllocError> {
    for at in 0..text.len() as u64 {
        if is_open(alloc, text, at)? {
            answer.push(" ");
            answer.push_number(at);
        }
    }
    Ok(())
}
