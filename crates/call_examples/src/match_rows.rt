//! Rows of selectors on pages: `found [PAGE,SELECTORS]` tells the serials of what matches below the document and the first
//! of them, `nested [LEVELS,SELECTORS]` the same on a page of so many elements in one another, and
//! `subject [PAGE,SELECTORS,SERIAL]` whether the first selector matches that node, as a subject with its places.

use crate::row_parts::{Answer, number_or_zero, push_layers, text_or_empty, value_of};
use page_tree::{LoadErr, Page, read_nodes};
use select_match::{Subject, all_matches, first_match, matches_subject};
use selectors::{SelErr, SelectorList, read_selectors};
use serde_json::Value;
use std::alloc::{AllocError, Global};

/// What comes of a row.
pub(crate) fn told(
    alloc: Global,
    word: &str,
    args: &Value,
    answer: &mut Answer,
) -> Result<(), AllocError> {
    let page = match word {
        "nested" => nested_page(alloc, number_or_zero(args, 0))?,
        _ => page_at(alloc, args, 0)?,
    };
    match page {
        Some(page) => push_matches(alloc, word, &page, args, answer),
        None => {
            answer.push("bad load");
            Ok(())
        }
    }
}

/// What the selectors match on a page.
fn push_matches(
    alloc: Global,
    word: &str,
    page: &Page,
    args: &Value,
    answer: &mut Answer,
) -> Result<(), AllocError> {
    match read_selectors(alloc, text_or_empty(args, 1)) {
        Ok(list) => match word {
            "subject" => push_tried(alloc, page, &list, number_or_zero(args, 2), answer),
            _ => push_found(alloc, page, &list, answer),
        },
        Err(SelErr::Invalid) => {
            answer.push("bad selector");
            Ok(())
        }
        Err(SelErr::Memory) => Err(AllocError),
    }
}

/// The page at this place of an array, whose document has the serial 1; none where no page stands there.
pub(crate) fn page_at(
    alloc: Global,
    args: &Value,
    place: usize,
) -> Result<Option<Page>, AllocError> {
    match args.get(place) {
        Some(nodes) => page_of(alloc, nodes),
        None => Ok(None),
    }
}

/// The page that a value spells.
pub(crate) fn page_of(alloc: Global, nodes: &Value) -> Result<Option<Page>, AllocError> {
    match read_nodes(alloc, nodes) {
        Ok(forms) => Ok(Some(Page::load(alloc, 1, forms)?)),
        Err(LoadErr::Fault(_)) => Ok(None),
        Err(LoadErr::Memory) => Err(AllocError),
    }
}

/// A page of so many elements in one another, each behind an `i`.
fn nested_page(alloc: Global, levels: u64) -> Result<Option<Page>, AllocError> {
    let mut text = String::new(alloc);
    push_layers(
        &mut text,
        levels,
        r#"[{"e":"i"},{"e":"div","c":"#,
        "[]",
        "}]",
    )?;
    let nodes = value_of(alloc, text.as_str())?;
    page_of(alloc, &nodes)
}

/// The serials of what matches below the document, and the first of them.
fn push_found(
    alloc: Global,
    page: &Page,
    list: &SelectorList,
    answer: &mut Answer,
) -> Result<(), AllocError> {
    if !page.live(1) {
        answer.push("no document");
        return Ok(());
    }
    for serial in &all_matches(alloc, list, page, 1)? {
        answer.push_number(*serial);
        answer.push(" ");
    }
    match first_match(alloc, list, page, 1) {
        Some(first) => {
            answer.push("first ");
            answer.push_number(first);
        }
        None => answer.push("none"),
    }
    Ok(())
}

/// Whether the first selector matches the node with that serial, as a subject.
fn push_tried(
    alloc: Global,
    page: &Page,
    list: &SelectorList,
    serial: u64,
    answer: &mut Answer,
) -> Result<(), AllocError> {
    if !page.live(serial) || list.len() == 0 {
        answer.push("no node");
        return Ok(());
    }
    let node = page.node_ref(serial);
    let mut subject = Subject::new(alloc, node)?;
    answer.push_shown(&matches_subject(list.at(0), &mut subject));
    Ok(())
}
