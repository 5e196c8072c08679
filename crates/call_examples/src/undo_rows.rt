//! Rows of the history: `steps` and steps on an empty one. `note:NAME` notes an edit that drops the attribute of this name,
//! `sheet` one of a sheet, and `mark`, `undo`, `redo`, `cross`, `clear` and `kept` are as the calls. Of a group that is undone
//! or redone the names are told, as if each of its edits gave an edit of the same name.

use crate::row_parts::Answer;
use page_tree::{Text, TreeEdit};
use std::alloc::{AllocError, Global};
use style_edits::Splice;
use undo_marks::{History, Inverse, Popped};

/// What comes of a row.
pub(crate) fn told(alloc: Global, row: &str, answer: &mut Answer) -> Result<(), AllocError> {
    let mut history = History::new(alloc);
    for step in row.split_whitespace() {
        take_step(alloc, &mut history, step, answer)?;
    }
    Ok(())
}

/// A step on a history.
fn take_step(
    alloc: Global,
    history: &mut History,
    step: &str,
    answer: &mut Answer,
) -> Result<(), AllocError> {
    match step {
        "steps" => {}
        "mark" => history.mark(),
        "cross" => history.cross(),
        "clear" => history.clear(),
        "sheet" => note_sheet(alloc, history)?,
        "undo" => undo(history, answer)?,
        "redo" => redo(history, answer)?,
        "kept" => {
            answer.push_shown(&history.kept());
            answer.push(" ");
        }
        other => note_attribute(alloc, history, other)?,
    }
    Ok(())
}

/// Notes an edit of the tree.
fn note_attribute(alloc: Global, history: &mut History, step: &str) -> Result<(), AllocError> {
    let name = step.strip_prefix("note:").unwrap_or(step);
    let name = Text::copied(alloc, name)?;
    history.note(Inverse::Tree(TreeEdit::DropAttr { node: 2, name }))
}

/// Notes an edit of a sheet.
fn note_sheet(alloc: Global, history: &mut History) -> Result<(), AllocError> {
    history.note(Inverse::Sheet(Splice {
        sheet: 1,
        start: 0,
        end: 0,
        text: Text::empty(alloc),
    }))
}

/// What the edits change, in their order.
fn push_names(edits: &[Inverse], answer: &mut Answer) {
    for inverse in edits {
        match inverse {
            Inverse::Tree(TreeEdit::DropAttr { name, .. }) => answer.push(name.as_str()),
            Inverse::Tree(_) => answer.push("?"),
            Inverse::Sheet(_) => answer.push("sheet"),
        }
    }
    answer.push(" ");
}

/// Undoes, as if each edit of the group gave an edit of the same name.
fn undo(history: &mut History, answer: &mut Answer) -> Result<(), AllocError> {
    match history.pop_undo() {
        Popped::Group(edits) => {
            let edits = edits.into_vec();
            push_names(&edits, answer);
            history.push_undone(edits)
        }
        Popped::Nothing => {
            answer.push("nothing ");
            Ok(())
        }
        Popped::Crossed => {
            answer.push("crossed ");
            Ok(())
        }
    }
}

/// Redoes in the same way.
fn redo(history: &mut History, answer: &mut Answer) -> Result<(), AllocError> {
    match history.pop_redo() {
        Popped::Group(edits) => {
            let edits = edits.into_vec();
            push_names(&edits, answer);
            history.push_redone(edits)
        }
        Popped::Nothing => {
            answer.push("nothing ");
            Ok(())
        }
        Popped::Crossed => {
            answer.push("crossed ");
            Ok(())
        }
    }
}
