//! Makes the calls that the lines of its standard input name, and prints each line with what came of it.
//!
//! The first word of a line names a module, and the rest is a row of that module, which says what its rows are. Most rows are a
//! word for a call and a list of what it takes.
#![tactic(auto)]

mod brief_panels;
mod cascade_rows;
mod frame_rows;
mod front_rows;
mod fronts_rows;
mod inspect_rows;
mod load_rows;
mod match_rows;
mod media_rows;
mod message_rows;
mod page_rows;
mod row_parts;
mod script_rows;
mod selector_rows;
mod session_rows;
mod sheet_rows;
mod style_rows;
mod styles_rows;
mod token_rows;
mod undo_rows;

use row_parts::{Answer, first_word, value_of};
use serde_json::Value;
use std::alloc::{AllocError, Global};
use std::io;
use std::io::Write;

/// Prints what came of the lines of the standard input.
fn main(rt: HostRuntime) -> io::Result<()> {
    let alloc = rt.alloc();
    let text = io::read_to_string(alloc, rt.reader())?;
    print_answers(alloc, text.as_str(), &mut io::writer(&rt))
}

/// Prints each line of a text with what came of it.
fn print_answers<W: Write>(alloc: Global, text: &str, out: &mut W) -> io::Result<()> {
    let mut answers = Answer::new(alloc);
    tell_lines(alloc, text, &mut answers)?;
    out.write_all(answers.as_slice()?)
}

/// Tells each line of a text, and what came of it.
fn tell_lines(alloc: Global, text: &str, answers: &mut Answer) -> Result<(), AllocError> {
    for line in text.lines() {
        tell_line(alloc, line, answers)?;
    }
    Ok(())
}

/// Tells a line, and what came of it.
fn tell_line(alloc: Global, line: &str, answers: &mut Answer) -> Result<(), AllocError> {
    let mut answer = Answer::new(alloc);
    tell_row(alloc, line, &mut answer)?;
    answers.push(line);
    answers.push_indented(answer.as_slice()?);
    Ok(())
}

/// Tells what came of the row in a line.
fn tell_row(alloc: Global, line: &str, answer: &mut Answer) -> Result<(), AllocError> {
    let (module, row) = first_word(line);
    match module {
        "load" => load_rows::told(alloc, row, answer),
        "message" => message_rows::told(alloc, row, answer),
        "page" => page_rows::told(alloc, row, answer),
        "script" => script_rows::told(alloc, row, answer),
        "session" => session_rows::told(alloc, row, answer),
        "undo" => undo_rows::told(alloc, row, answer),
        _ => tell_call(alloc, module, row, answer),
    }
}

/// Tells what came of a row that is a word for a call and a list of what it takes.
fn tell_call(
    alloc: Global,
    module: &str,
    row: &str,
    answer: &mut Answer,
) -> Result<(), AllocError> {
    let (word, json) = first_word(row);
    if module == "front" && word == "ask" {
        return front_rows::told_ask(alloc, json, answer);
    }
    let args = value_of(alloc, json)?;
    tell_value(alloc, module, word, &args, answer)
}

/// Tells what came of a call.
fn tell_value(
    alloc: Global,
    module: &str,
    word: &str,
    args: &Value,
    answer: &mut Answer,
) -> Result<(), AllocError> {
    match module {
        "cascade" => cascade_rows::told(alloc, word, args, answer),
        "frames" => frame_rows::told(alloc, word, args, answer),
        "front" => front_rows::told(alloc, args, answer),
        "fronts" => fronts_rows::told(alloc, args, answer),
        "inspect" => inspect_rows::told(alloc, word, args, answer),
        "match" => match_rows::told(alloc, word, args, answer),
        "media" => {
            media_rows::told(word, args, answer);
            Ok(())
        }
        "selector" => selector_rows::told(alloc, word, args, answer),
        "sheet" => sheet_rows::told(alloc, word, args, answer),
        "style" => style_rows::told(alloc, word, args, answer),
        "styles" => styles_rows::told(alloc, word, args, answer),
        "tokens" => token_rows::told(alloc, word, args, answer),
        _ => {
            answer.push("misspelt");
            Ok(())
        }
    }
}
