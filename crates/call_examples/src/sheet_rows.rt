//! Rows of the reader of sheets: `read [TEXT]` tells the rules of a sheet, its places and its media rules, `long [COUNT]` the
//! same of one with so many pieces of 16 bytes, `style [TEXT]` the properties of a body, `sealed [TEXT]` whether a text is sealed,
//! `at [TEXT,LINE,COLUMN]` the byte there with that byte's line and column, and `book [STEP,..]` what steps on a book come to:
//! `["put",ID,TEXT]`, `["copy",PLACE]`, `["change",ID,TEXT]`, `["place",ID]`, `["get",ID]`, `["remove",ID]` and `["len"]`.

ghost use Rattle.std.specs.Prelude.{IfSome};
ghost use Rattle.std.specs.Str.{IsCharBoundary};

use crate::row_parts::{Answer, number_or_zero, push_layers, text_or_empty, values_from};
use serde_json::Value;
use sheet_reader::{
    MediaRule, Origin, Property, Sheet, SheetBook, SheetEntry, SheetText, StyleRule, byte_at,
    position, read_sheet, read_style, sealed,
};
use std::alloc::{AllocError, Global};

/// The most bytes of a sheet's text.
const MOST_BYTES: usize = 1 << 24;

/// Ids are below this.
const MOST_IDS: u64 = 1 << 53;

/// What comes of a row.
pub(crate) fn told(
    alloc: Global,
    word: &str,
    args: &Value,
    answer: &mut Answer,
) -> Result<(), AllocError> {
    let text = text_or_empty(args, 0);
    match word {
        "read" => push_read(alloc, text, answer),
        "long" => push_long(alloc, number_or_zero(args, 0), answer),
        "style" => push_style(alloc, text, answer),
        "sealed" => push_sealed(alloc, text, answer),
        "at" => push_there_and_back(alloc, text, args, answer),
        "book" => take_steps(alloc, values_from(args, 0), answer),
        _ => {
            answer.push("no such call");
            Ok(())
        }
    }
}

/// Whether a text is sealed.
fn push_sealed(alloc: Global, text: &str, answer: &mut Answer) -> Result<(), AllocError> {
    answer.push_shown(&sealed(alloc, text)?);
    Ok(())
}

/// What a text says as a sheet.
fn push_read(alloc: Global, text: &str, answer: &mut Answer) -> Result<(), AllocError> {
    push_sheet(&read_sheet(alloc, text)?, answer);
    Ok(())
}

/// What a text says as a body.
fn push_style(alloc: Global, text: &str, answer: &mut Answer) -> Result<(), AllocError> {
    push_properties(read_style(alloc, text)?.as_slice(), answer);
    Ok(())
}

/// The properties, one behind the other: each its name, value and whole, with `!` where it is important.
pub(crate) fn push_properties(properties: &[Property], answer: &mut Answer) {
    for property in properties {
        let (value, whole) = (property.value, property.whole);
        answer.push(" ");
        answer.push(property.name.as_str());
        answer.push("=");
        answer.push_range(value.start, value.end);
        answer.push("/");
        answer.push_range(whole.start, whole.end);
        if property.important {
            answer.push("!");
        }
    }
}

/// The place of the media rule around something, where there is one.
fn push_around(around: Option<usize>, answer: &mut Answer) {
    if let Some(place) = around {
        answer.push("^");
        answer.push_number(place as u64);
    }
}

/// A rule as its prelude, body and properties, and the media rule around it.
fn push_rule(rule: &StyleRule, answer: &mut Answer) {
    let (prelude, body) = (rule.prelude, rule.body);
    answer.push_range(prelude.start, prelude.end);
    answer.push("{");
    answer.push_range(body.start, body.end);
    push_properties(rule.properties.as_slice(), answer);
    answer.push("}");
    push_around(rule.media, answer);
    answer.push(" ");
}

/// A media rule as its prelude and the media rule around it.
fn push_media(rule: &MediaRule, answer: &mut Answer) {
    answer.push(" media ");
    answer.push_range(rule.prelude.start, rule.prelude.end);
    push_around(rule.inside, answer);
}

/// Each rule, then the places where a rule may be added, and then the media rules.
fn push_sheet(sheet: &Sheet, answer: &mut Answer) {
    for rule in sheet.rules.as_slice() {
        push_rule(rule, answer);
    }
    answer.push("@");
    for place in sheet.places.as_slice() {
        answer.push(" ");
        answer.push_number(*place as u64);
    }
    for rule in sheet.media.as_slice() {
        push_media(rule, answer);
    }
}

/// What a text of so many pieces of 16 bytes says as a sheet.
fn push_long(alloc: Global, count: u64, answer: &mut Answer) -> Result<(), AllocError> {
    let mut text = String::new(alloc);
    text.push_str("a{b:longest-text")?;
    push_layers(
        &mut text,
        count.saturating_sub(1),
        "0123456789abcdef",
        "",
        "",
    )?;
    push_sheet(&read_sheet(alloc, text.as_str())?, answer);
    Ok(())
}

/// The byte at a line and a column, and that byte's line and column, as a search of the whole text finds them; and whether the text of
/// a sheet, which looks near its marks alone, finds the same.
fn push_there_and_back(
    alloc: Global,
    text: &str,
    args: &Value,
    answer: &mut Answer,
) -> Result<(), AllocError> {
    let kept = SheetText::copied(alloc, text)?;
    let line = number_or_zero(args, 1);
    let column = number_or_zero(args, 2);
    let found = byte_at(text, line, column);
    let near = kept.byte_at(line, column);
    push_byte(text, found, answer);
    match (found, near) {
        (Some(byte), Some(other)) => {
            let place = position(text, byte);
            let beside = kept.position(other);
            if byte != other || place.line != beside.line || place.column != beside.column {
                answer.push(" elsewhere");
            }
        }
        (None, None) => {}
        _ => answer.push(" elsewhere"),
    }
    Ok(())
}

/// A byte, and its line and column.
fn push_byte(text: &str, byte: Option<usize>, answer: &mut Answer)
    requires { IfSome byte (IsCharBoundary text.now) }
{
    let Some(byte) = byte else {
        answer.push("none");
        return;
    };
    let place = position(text, byte);
    answer.push_number(byte as u64);
    answer.push(" ");
    answer.push_number(place.line);
    answer.push(":");
    answer.push_number(place.column);
}

/// What each step on an empty book comes to.
fn take_steps(alloc: Global, steps: &[Value], answer: &mut Answer) -> Result<(), AllocError> {
    let mut book = SheetBook::new(alloc);
    for step in steps {
        take_step(alloc, &mut book, step, answer)?;
        answer.push("; ");
    }
    Ok(())
}

/// A step on a book.
fn take_step(
    alloc: Global,
    book: &mut SheetBook,
    step: &Value,
    answer: &mut Answer,
) -> Result<(), AllocError> {
    let (number, text) = (number_or_zero(step, 1), text_or_empty(step, 2));
    match text_or_empty(step, 0) {
        "put" => {
            let is_put = put_sheet(alloc, book, number, Origin::Regular, text)?;
            answer.push(if is_put { "put" } else { "not put" });
        }
        "change" => change_step(alloc, book, number, text, answer)?,
        "copy" => copy_step(book, number as usize, answer)?,
        "place" => answer.push_debug(&book.place_of(number)),
        "get" => push_entry(book.get(number), answer),
        "remove" => push_removed(book, number, answer),
        "len" => answer.push_number(book.len() as u64),
        _ => answer.push("no such step"),
    }
    Ok(())
}

/// Takes a sheet out of a book, and tells it.
fn push_removed(book: &mut SheetBook, id: u64, answer: &mut Answer) {
    push_entry(book.remove(id).as_ref(), answer);
}

/// A sheet as its id, origin and text.
fn push_entry(entry: Option<&SheetEntry>, answer: &mut Answer) {
    match entry {
        Some(entry) => {
            answer.push_number(entry.id);
            answer.push(" ");
            answer.push_debug(&entry.origin);
            answer.push(" ");
            answer.push_debug(&entry.text.as_str());
        }
        None => answer.push("none"),
    }
}

/// The origin of this name.
pub(crate) fn origin_of(name: &str) -> Origin {
    match name {
        "UserAgent" => Origin::UserAgent,
        _ => Origin::Regular,
    }
}

/// Puts a sheet last, if a book may have it and has none with its id.
pub(crate) fn put_sheet(
    alloc: Global,
    book: &mut SheetBook,
    id: u64,
    origin: Origin,
    text: &str,
) -> Result<bool, AllocError> {
    if id == 0 || id >= MOST_IDS || text.len() > MOST_BYTES {
        return Ok(false);
    }
    if let Some(_) = book.get(id) {
        return Ok(false);
    }
    book.put(SheetEntry {
        id,
        origin,
        text: SheetText::copied(alloc, text)?,
        reading: read_sheet(alloc, text)?,
    })?;
    Ok(true)
}

/// Puts a sheet in the place of the one with its id, which is told.
fn change_step(
    alloc: Global,
    book: &mut SheetBook,
    id: u64,
    text: &str,
    answer: &mut Answer,
) -> Result<(), AllocError> {
    if id == 0 || id >= MOST_IDS || text.len() > MOST_BYTES {
        answer.push("not changed");
        return Ok(());
    }
    let Some(_) = book.get(id) else {
        answer.push("not changed");
        return Ok(());
    };
    let old = book.change(SheetEntry {
        id,
        origin: Origin::Regular,
        text: SheetText::copied(alloc, text)?,
        reading: read_sheet(alloc, text)?,
    });
    push_entry(Some(&old), answer);
    Ok(())
}

/// A copy of the sheet at this place, with what it says.
fn copy_step(book: &SheetBook, place: usize, answer: &mut Answer) -> Result<(), AllocError> {
    if place >= book.len() {
        answer.push("none");
        return Ok(());
    }
    let copy = book.copy_at(place)?;
    push_entry(Some(&copy), answer);
    answer.push(" ");
    push_sheet(&copy.reading, answer);
    Ok(())
}
