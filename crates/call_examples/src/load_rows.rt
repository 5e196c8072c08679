// Rows of the reading of pages and acts.
//
// `act` with a value tells the act that it spells. `page` with a value tells how many nodes stand right below the document, and the
// sheets. `sheets` with a count and a node tells so of a page with that node and that many empty sheets.
use crate::row_parts::{Answer, first_word, push_layers, value_of};
use media_rules::{Medium, MediumKind};
use page_forms::{Act, ActErr, read_act, read_page};
use serde_json::Value;
use sheet_reader::Origin;
use std::alloc::{AllocError, Global};

/// What a row comes to.
pub(crate) fn told(alloc: Global, row: &str, answer: &mut Answer) -> Result<(), AllocError> {
    let (word, rest) = first_word(row);
    if word == "sheets" {
        return push_with_sheets(alloc, rest, answer);
    }
    let value = value_of(alloc, rest)?;
    match word {
        "act" => push_act_of(alloc, &value, answer),
        _ => {
            push_page(alloc, &value, answer);
            Ok(())
        }
    }
}

/// The word for where a sheet comes from.
fn origin_word(origin: Origin) -> &'static str {
    match origin {
        Origin::UserAgent => "agent",
        Origin::Regular => "regular",
    }
}

/// What is read of a value as an act.
fn push_act_of(alloc: Global, value: &Value, answer: &mut Answer) -> Result<(), AllocError> {
    match read_act(alloc, value) {
        Ok(act) => push_act(&act, answer),
        Err(ActErr::BadForm) => answer.push_shown(&ActErr::BadForm),
        Err(ActErr::Memory) => return Err(AllocError),
    }
    Ok(())
}

/// An act in words.
fn push_act(act: &Act, answer: &mut Answer) {
    match act {
        Act::SetAttr { node, name, value } => {
            push_numbers("set", &[*node], answer);
            push_text(name.as_str(), answer);
            push_text(value.as_str(), answer);
        }
        Act::DropAttr { node, name } => {
            push_numbers("drop", &[*node], answer);
            push_text(name.as_str(), answer);
        }
        Act::SetText { node, value } => {
            push_numbers("text", &[*node], answer);
            push_text(value.as_str(), answer);
        }
        Act::Insert {
            parent,
            before,
            form,
        } => {
            push_numbers("insert", &[*parent, *before], answer);
            push_text(form.name.as_str(), answer);
            push_numbers("", &[form.children.len() as u64], answer);
        }
        Act::Remove { node } => push_numbers("remove", &[*node], answer),
        Act::Move {
            node,
            parent,
            before,
        } => push_numbers("move", &[*node, *parent, *before], answer),
        other => push_sheet_act(other, answer),
    }
}

/// An act on a sheet in words.
fn push_sheet_act(act: &Act, answer: &mut Answer) {
    match act {
        Act::AddSheet { origin, text } => {
            answer.push("add");
            push_text(origin_word(*origin), answer);
            push_text(text.as_str(), answer);
        }
        Act::DropSheet { sheet } => {
            answer.push("drop");
            push_text(sheet.as_str(), answer);
        }
        Act::ReplaceSheet { sheet, text } => {
            answer.push("replace");
            push_text(sheet.as_str(), answer);
            push_text(text.as_str(), answer);
        }
        Act::Medium { medium } => push_numbers(medium_word(medium), &[medium.width], answer),
        _ => answer.push("another act"),
    }
}

/// The words for a medium.
fn medium_word(medium: &Medium) -> &'static str {
    match medium.kind {
        MediumKind::Screen => "medium screen",
        MediumKind::Print => "medium print",
    }
}

/// A word, and numbers with a space before each.
fn push_numbers(word: &str, numbers: &[u64], answer: &mut Answer) {
    answer.push(word);
    for number in numbers {
        answer.push(" ");
        answer.push_number(*number);
    }
}

/// A text with a space before it.
fn push_text(text: &str, answer: &mut Answer) {
    answer.push(" ");
    answer.push(text);
}

/// The sheets of a page after the number of nodes right below its document, or why it is refused.
fn push_page(alloc: Global, value: &Value, answer: &mut Answer) {
    match read_page(alloc, value) {
        Ok(page) => {
            answer.push_number(page.nodes.len() as u64);
            for sheet in &page.sheets {
                answer.push(" ");
                answer.push(origin_word(sheet.origin));
                answer.push(sheet.text.as_str());
            }
        }
        Err(error) => answer.push_debug(&error),
    }
}

/// What is read of a page with one node, and so many sheets.
fn push_with_sheets(alloc: Global, row: &str, answer: &mut Answer) -> Result<(), AllocError> {
    let mut text = String::new(alloc);
    write_sheets(&mut text, row)?;
    let value = value_of(alloc, text.as_str())?;
    push_page(alloc, &value, answer);
    Ok(())
}

/// Writes a page with the node and as many sheets as the row says.
fn write_sheets(out: &mut String, row: &str) -> Result<(), AllocError> {
    let (count, node) = first_word(row);
    let count = count.parse::<u64>().unwrap_or(0);
    out.push_str(r#"{"document":["#)?;
    out.push_str(node)?;
    out.push_str(r#"],"sheets":["#)?;
    if count > 0 {
        let sheet = r#"{"origin":"regular","text":""}"#;
        push_layers(
            out,
            count.saturating_sub(1),
            r#"{"origin":"regular","text":""},"#,
            sheet,
            "",
        )?;
    }
    out.push_str("]}")
}
