//! Rows of the cascade: `node [SHEETS,PAGE,SERIAL,STYLE,TYPE,WIDTH]`, where a sheet is `[ID,ORIGIN,TEXT]`, tells the rules that
//! match the node in the medium of that type and width, as sheet, rule and the places of their selectors, and then of each
//! declaration of these rules and of the inline style whether it wins.

use crate::match_rows::page_at;
use crate::media_rows::medium_at;
use crate::row_parts::{Answer, list_at, number_or_zero, text_or_empty};
use crate::sheet_rows::{origin_of, put_sheet};
use cascade_match::{Block, Decl, Declarations, Hit, matched, winners};
use page_tree::Page;
use serde_json::Value;
use sheet_reader::{Origin, Property, SheetBook, read_style};
use std::alloc::{AllocError, Global};

/// What comes of a row.
pub(crate) fn told(
    alloc: Global,
    word: &str,
    args: &Value,
    answer: &mut Answer,
) -> Result<(), AllocError> {
    if word != "node" {
        answer.push("no such call");
        return Ok(());
    }
    match page_at(alloc, args, 1)? {
        Some(page) => push_cascade(alloc, &page, args, answer),
        None => {
            answer.push("bad load");
            Ok(())
        }
    }
}

/// The rules and the winners of the node that the row names.
fn push_cascade(
    alloc: Global,
    page: &Page,
    args: &Value,
    answer: &mut Answer,
) -> Result<(), AllocError> {
    let mut book = SheetBook::new(alloc);
    put_sheets(alloc, &mut book, list_at(args, 0))?;
    push_node(alloc, page, &book, args, answer)
}

/// The same over a book with the sheets of the row.
fn push_node(
    alloc: Global,
    page: &Page,
    book: &SheetBook,
    args: &Value,
    answer: &mut Answer,
) -> Result<(), AllocError> {
    let serial = number_or_zero(args, 2);
    if !page.live(serial) {
        answer.push("no node");
        return Ok(());
    }
    let hits = matched(alloc, page, book, serial, &medium_at(args, 4))?;
    push_rules(hits.as_slice(), answer);
    push_winners(alloc, book, hits.as_slice(), text_or_empty(args, 3), answer)
}

/// Puts the sheets into a book.
fn put_sheets(alloc: Global, book: &mut SheetBook, sheets: &[Value]) -> Result<(), AllocError> {
    for sheet in sheets {
        let (id, origin) = (number_or_zero(sheet, 0), origin_of(text_or_empty(sheet, 1)));
        let _ = put_sheet(alloc, book, id, origin, text_or_empty(sheet, 2))?;
    }
    Ok(())
}

/// The matched rules as sheet, rule and the places of their selectors.
fn push_rules(hits: &[Hit], answer: &mut Answer) {
    for hit in hits {
        answer.push("s");
        answer.push_number(hit.sheet);
        answer.push(".");
        answer.push_number(hit.rule as u64);
        answer.push(":");
        for place in hit.matching.as_slice() {
            answer.push_number(*place as u64);
            answer.push(" ");
        }
    }
}

/// A star for each declaration that wins, and a dash for each other.
fn push_winners(
    alloc: Global,
    book: &SheetBook,
    hits: &[Hit],
    inline: &str,
    answer: &mut Answer,
) -> Result<(), AllocError> {
    let mut blocks = Vec::new(alloc);
    add_rules(alloc, book, hits, &mut blocks)?;
    add_inline(alloc, inline, &mut blocks)?;
    for won in &winners(alloc, blocks.as_slice())? {
        answer.push(if *won { "*" } else { "-" });
    }
    Ok(())
}

/// Adds the blocks of the matched rules, in order.
fn add_rules(
    alloc: Global,
    book: &SheetBook,
    hits: &[Hit],
    blocks: &mut Vec<Block>,
) -> Result<(), AllocError> {
    for hit in hits {
        if let Some(entry) = book.get(hit.sheet)
            && let Some(rule) = entry.reading.rules.as_slice().get(hit.rule)
        {
            add_block(alloc, entry.origin, rule.properties.as_slice(), blocks)?;
        }
    }
    Ok(())
}

/// Adds the block of an inline style.
fn add_inline(alloc: Global, inline: &str, blocks: &mut Vec<Block>) -> Result<(), AllocError> {
    let style = read_style(alloc, inline)?;
    add_block(alloc, Origin::Regular, style.as_slice(), blocks)
}

/// Adds a block with the declarations of these properties.
fn add_block(
    alloc: Global,
    origin: Origin,
    properties: &[Property],
    blocks: &mut Vec<Block>,
) -> Result<(), AllocError> {
    let mut list = Vec::new(alloc);
    add_declarations(properties, &mut list)?;
    blocks.push(Block {
        origin,
        declarations: Declarations::new(list),
    })?;
    Ok(())
}

/// Adds the declarations of these properties.
fn add_declarations(properties: &[Property], list: &mut Vec<Decl>) -> Result<(), AllocError> {
    for property in properties {
        list.push(Decl {
            name: property.name.try_clone()?,
            important: property.important,
        })?;
    }
    Ok(())
}
