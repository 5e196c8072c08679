// Rows of the CSS agent over a book with one sheet, whose text comes first.
//
// `switch` tells what is sent as the agent comes on twice. `classes` tells the answer with the names of the sheet's classes, and
// `matched`, with a node's serial and the id that the ask names, the answer with its styles. The page has an element in another.

use crate::match_rows::page_of;
use crate::row_parts::{Answer, number_or_zero, text_or_empty, value_of};
use cdp_messages::{CssAsk, Text};
use css_agent::CssAgent;
use media_rules::{Medium, MediumKind};
use page_tree::Page;
use serde_json::Value;
use sheet_reader::{Origin, SheetBook};
use std::alloc::{AllocError, Global};
use style_edits::add_sheet;

/// The nodes of the page: the document is 1, html 2 and p 3.
const NODES: &str = r#"[{"e":"html","c":[{"e":"p","a":["class","c","style","color:blue"]}]}]"#;

/// The medium of all rows.
const MEDIUM: Medium = Medium {
    kind: MediumKind::Screen,
    width: 1280,
};

/// What a row comes to.
pub(crate) fn told(
    alloc: Global,
    word: &str,
    args: &Value,
    answer: &mut Answer,
) -> Result<(), AllocError> {
    let book = book_of(alloc, text_or_empty(args, 0))?;
    tell_call(alloc, word, args, &book, answer)?;
    answer.drop_zero();
    Ok(())
}

/// What a call comes to over the book.
fn tell_call(
    alloc: Global,
    word: &str,
    args: &Value,
    book: &SheetBook,
    answer: &mut Answer,
) -> Result<(), AllocError> {
    match word {
        "switch" => switch_twice(alloc, book, answer),
        "classes" => {
            let sheet = Text::copied(alloc, "s1")?;
            ask(alloc, book, 1, CssAsk::CollectClassNames { sheet }, answer)
        }
        _ => {
            let (serial, node) = (number_or_zero(args, 1), number_or_zero(args, 2));
            ask(
                alloc,
                book,
                serial,
                CssAsk::GetMatchedStyles { node },
                answer,
            )
        }
    }
}

/// A book with the sheet 1.
fn book_of(alloc: Global, text: &str) -> Result<SheetBook, AllocError> {
    let mut book = SheetBook::new(alloc);
    match add_sheet(&mut book, 1, Origin::Regular, text) {
        Ok(()) => Ok(book),
        Err(_) => Err(AllocError),
    }
}

/// Sends what is sent as an agent comes on, and is then asked to come on again.
fn switch_twice(alloc: Global, book: &SheetBook, answer: &mut Answer) -> Result<(), AllocError> {
    let mut agent = CssAgent::new(alloc);
    agent.switch(true, book, answer.bytes())?;
    agent.switch(true, book, answer.bytes())
}

/// Sends the answer to an ask with the id 6, about the node with that serial of the page of all rows.
fn ask(
    alloc: Global,
    book: &SheetBook,
    node: u64,
    ask: CssAsk,
    answer: &mut Answer,
) -> Result<(), AllocError> {
    let nodes = value_of(alloc, NODES)?;
    match page_of(alloc, &nodes)? {
        Some(page) => answer_ask(alloc, &page, book, node, &ask, answer),
        None => Ok(()),
    }
}

/// Sends the answer, if the page has the node.
fn answer_ask(
    alloc: Global,
    page: &Page,
    book: &SheetBook,
    node: u64,
    ask: &CssAsk,
    answer: &mut Answer,
) -> Result<(), AllocError> {
    if page.live(node) {
        return CssAgent::new(alloc).ask(page, book, node, 6, ask, answer.bytes(), &MEDIUM);
    }
    Ok(())
}
