// Rows of two front ends on one pipe.
//
// A row is a list of what is done, one after the other. `"attach"`, `"detach"`, `["ask",M]` and `["ask 2",M]` with a method,
// `["fetch",N]` and `["fetch 2",N]` with a sheet's number tell the frame that is made, or `no` where that may not be asked then; 2 is
// the second front. `"close"` drops the first front's one panel, or tells `no`; `"show"` tells the outlines of the fronts that stand. Any
// other value is a message that comes down: told is the place and the kind of the fault, if there is one by then.
ghost use Rattle.std.specs.Prelude.{◌≡◌, true, false};
ghost use Rattle.front_mirror.specs.Sheets.{has_sheet};
ghost use Rattle.multi_replay.specs.States.{is_there, front_meant, HaveRoom};

use crate::front_rows::{frame_of, kind_word};
use crate::row_parts::{Answer, number_or_zero, text_or_empty, values_from};
use front_mirror::{FrontErr, write_outline};
use multi_replay::{Fronts, fronts_law};
use panels::OutlinePanel;
use serde_json::Value;
use std::alloc::{AllocError, Global};

/// Two front ends, the first with outlines.
type Both = Fronts<OutlinePanel>;

/// What comes of a row.
pub(crate) fn told(alloc: Global, items: &Value, answer: &mut Answer) -> Result<(), AllocError> {
    fronts_law();
    let mut panels = Vec::new(alloc);
    match panels.push(OutlinePanel::new(alloc)) {
        Ok(()) => {}
        Err(_) => return Err(AllocError),
    }
    let mut fronts = Both::new(alloc, panels)?;
    for item in values_from(items, 0) {
        tell_item(alloc, &mut fronts, item, answer)?;
    }
    Ok(())
}

/// What comes of one item.
fn tell_item(
    alloc: Global,
    fronts: &mut Both,
    item: &Value,
    answer: &mut Answer,
) -> Result<(), AllocError> {
    match item.as_str() {
        Some("attach") => attach(fronts, answer),
        Some("detach") => detach(fronts, answer),
        Some("close") => {
            answer.push(if fronts.close(1) { "closed\n" } else { "no\n" });
            Ok(())
        }
        Some("show") => show(alloc, fronts, answer),
        _ => if item.is_array() {
            call(fronts, item, answer)
        } else {
            take(fronts, frame_of(alloc, item)?.as_slice(), answer)
        },
    }
}

/// A call of one of the fronts.
fn call(fronts: &mut Both, item: &Value, answer: &mut Answer) -> Result<(), AllocError> {
    match text_or_empty(item, 0) {
        "ask" => ask(fronts, false, text_or_empty(item, 1), answer),
        "ask 2" => ask(fronts, true, text_or_empty(item, 1), answer),
        "fetch" => fetch(fronts, false, number_or_zero(item, 1), answer),
        "fetch 2" => fetch(fronts, true, number_or_zero(item, 1), answer),
        _ => {
            answer.push("misspelt\n");
            Ok(())
        }
    }
}

/// A frame without its zero byte, on a line.
fn push_frame(frame: &[u8], answer: &mut Answer) {
    answer.push_bytes(frame);
    answer.drop_zero();
    answer.push("\n");
}

fn attach(fronts: &mut Both, answer: &mut Answer) -> Result<(), AllocError> {
    if !may_attach(fronts) {
        answer.push("no\n");
        return Ok(());
    }
    let frame = fronts.attach()?;
    push_frame(frame.as_slice(), answer);
    Ok(())
}

fn detach(fronts: &mut Both, answer: &mut Answer) -> Result<(), AllocError> {
    if !may_call(fronts, true) {
        answer.push("no\n");
        return Ok(());
    }
    let frame = fronts.detach()?;
    push_frame(frame.as_slice(), answer);
    Ok(())
}

/// Whether no second front stands, and there is room.
fn may_attach(fronts: &Both) -> bool
    ensures alone { result ≡ true → is_there true fronts.now.pair ≡ false }
    ensures room { result ≡ true → HaveRoom fronts.now }
{
    if fronts.second().is_some() {
        return false;
    }
    fronts.has_room()
}

/// Whether that front stands, and there is room.
fn may_call(fronts: &Both, second: bool) -> bool
    ensures stands { result ≡ true → is_there second fronts.now.pair ≡ true }
    ensures room { result ≡ true → HaveRoom fronts.now }
{
    if second {
        if fronts.second().is_none() {
            return false;
        }
    }
    fronts.has_room()
}

/// Whether that front knows the sheet; no sheet is known where the front does not stand.
fn knows_sheet(fronts: &Both, second: bool, sheet: u64) -> bool
    ensures { result ≡ true → has_sheet sheet (front_meant second fronts.now.pair).value.sheets ≡ true }
{
    if !second {
        return fronts.first().knows_sheet(sheet);
    }
    match fronts.second() {
        Some(front) => front.knows_sheet(sheet),
        None => false,
    }
}

fn ask(
    fronts: &mut Both,
    second: bool,
    method: &str,
    answer: &mut Answer,
) -> Result<(), AllocError> {
    if !may_call(fronts, second) {
        answer.push("no\n");
        return Ok(());
    }
    let frame = fronts.ask(second, method, None)?;
    push_frame(frame.as_slice(), answer);
    Ok(())
}

fn fetch(
    fronts: &mut Both,
    second: bool,
    sheet: u64,
    answer: &mut Answer,
) -> Result<(), AllocError> {
    if !may_call(fronts, second) {
        answer.push("no\n");
        return Ok(());
    }
    if !knows_sheet(fronts, second, sheet) {
        answer.push("no\n");
        return Ok(());
    }
    let frame = fronts.fetch(second, sheet)?;
    push_frame(frame.as_slice(), answer);
    Ok(())
}

/// The outlines of the fronts that stand.
fn show(alloc: Global, fronts: &Both, answer: &mut Answer) -> Result<(), AllocError> {
    write_outline(alloc, fronts.first().mirror(), answer.bytes())?;
    match fronts.second() {
        Some(front) => {
            answer.push("second\n");
            write_outline(alloc, front.mirror(), answer.bytes())
        }
        None => Ok(()),
    }
}

/// Takes a piece, and tells the fault, if there is one.
fn take(fronts: &mut Both, piece: &[u8], answer: &mut Answer) -> Result<(), AllocError> {
    match fronts.take(piece) {
        Ok(()) => Ok(()),
        Err(FrontErr::Fault(fault)) => {
            answer.push_number(fault.place);
            answer.push(" ");
            answer.push(kind_word(fault.kind));
            Ok(())
        }
        Err(FrontErr::Memory) => Err(AllocError),
    }
}
