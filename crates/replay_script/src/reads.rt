// Reading a line: its form, or the first fault that applies.
ghost use Rattle.std.specs.Prelude.{◌≡◌, ◌==◌, ◌&&◌, not, Some, IfOk};
ghost use Rattle.serde_json.specs.View.{view};
ghost use Rattle.replay_script.specs.declared.line_kinds.LineKind.TheVariants as kind;
ghost use Rattle.replay_script.specs.Faults.{fault_by, fault_of_data, line_fault};
ghost use Rattle.replay_script.specs.Forms.{form_by, form_of, line_form};
ghost use Rattle.replay_script.specs.Kinds.{is_load};
ghost use Rattle.replay_script.specs.Seen.{seen, RefusesLine};
ghost use Rattle.replay_script.specs.Sound.{IsSound, FitsPage, AreWhole};

use crate::faults::{LineErr, LineFault};
use crate::forms::{Line, ask_in};
use crate::line_kinds::{LineKind, said};
use crate::load_scan::scan_load;
use crate::raw_texts::is_no_frame;
use cdp_json::{all_whole, flag_of, whole_of};
use cdp_messages::json_of;
use node_tree::Text;
use page_forms::{ActErr, ScanErr, read_act, read_page};
use page_tree::LoadErr;
use serde_json::Value;
use std::alloc::Global;

fn read_load(alloc: Global, page: &Value) -> Result<Line, LineErr>
    ensures fault { RefusesLine result (fault_by kind.Load (view page.now)) }
    ensures form { IfOk result (λ line. form_by kind.Load (view page.now) ≡ Some (seen line)) }
{
    match read_page(alloc, page) {
        Ok(form) => Ok(Line::Load(form)),
        Err(LoadErr::Fault(fault)) => Err(LineErr::Fault(LineFault::BadLoad(fault))),
        Err(LoadErr::Memory) => Err(LineErr::Memory),
    }
}

fn read_change(alloc: Global, value: &Value) -> Result<Line, LineErr>
    ensures fault { RefusesLine result (fault_by kind.Act (view value.now)) }
    ensures form { IfOk result (λ line. form_by kind.Act (view value.now) ≡ Some (seen line)) }
{
    match read_act(alloc, value) {
        Ok(act) => Ok(Line::Act(act)),
        Err(ActErr::BadForm) => Err(LineErr::Fault(LineFault::BadForm)),
        Err(ActErr::Memory) => Err(LineErr::Memory),
    }
}

/// Reads what an ask says.
pub(crate) fn read_ask(alloc: Global, value: &Value) -> Result<Line, LineErr>
    ensures fault { RefusesLine result (fault_by kind.Ask (view value.now)) }
    ensures form { IfOk result (λ line. form_by kind.Ask (view value.now) ≡ Some (seen line)) }
{
    match ask_in(value) {
        Some(parts) => Ok(Line::Ask(parts.to_ask(alloc)?)),
        None => Err(LineErr::Fault(LineFault::BadForm)),
    }
}

fn read_raw(alloc: Global, value: &Value) -> Result<Line, LineErr>
    ensures fault { RefusesLine result (fault_by kind.Raw (view value.now)) }
    ensures form { IfOk result (λ line. form_by kind.Raw (view value.now) ≡ Some (seen line)) }
{
    let Some(text) = value.as_str() else {
        return Err(LineErr::Fault(LineFault::BadForm));
    };
    if is_no_frame(alloc, text.as_bytes())? {
        return Err(LineErr::Fault(LineFault::BadRaw));
    }
    Ok(Line::Raw(Text::copied(alloc, text)?))
}

fn read_up(value: &Value) -> Result<Line, LineErr>
    ensures fault { RefusesLine result (fault_by kind.Up (view value.now)) }
    ensures form { IfOk result (λ line. form_by kind.Up (view value.now) ≡ Some (seen line)) }
{
    match whole_of(value) {
        Some(count) => Ok(Line::Up(count)),
        None => Err(LineErr::Fault(LineFault::BadForm)),
    }
}

fn read_down(value: &Value) -> Result<Line, LineErr>
    ensures fault { RefusesLine result (fault_by kind.Down (view value.now)) }
    ensures form { IfOk result (λ line. form_by kind.Down (view value.now) ≡ Some (seen line)) }
{
    match whole_of(value) {
        Some(count) => Ok(Line::Down(count)),
        None => Err(LineErr::Fault(LineFault::BadForm)),
    }
}

fn read_settle(value: &Value) -> Result<Line, LineErr>
    ensures fault { RefusesLine result (fault_by kind.Settle (view value.now)) }
    ensures form { IfOk result (λ line. form_by kind.Settle (view value.now) ≡ Some (seen line)) }
{
    match flag_of(value) {
        Some(true) => Ok(Line::Settle),
        Some(false) | None => Err(LineErr::Fault(LineFault::BadForm)),
    }
}

/// Reads the word of a show.
pub(crate) fn read_show(value: &Value) -> Result<Line, LineErr>
    ensures fault { RefusesLine result (fault_by kind.Show (view value.now)) }
    ensures form { IfOk result (λ line. form_by kind.Show (view value.now) ≡ Some (seen line)) }
{
    let Some(word) = value.as_str() else {
        return Err(LineErr::Fault(LineFault::BadForm));
    };
    if word == "front" {
        return Ok(Line::ShowFront);
    }
    if word == "page" {
        return Ok(Line::ShowPage);
    }
    if word == "sheets" {
        return Ok(Line::ShowSheets);
    }
    if word == "replies" {
        return Ok(Line::ShowReplies);
    }
    if word == "pauses" {
        return Ok(Line::ShowPauses);
    }
    if word == "panels" {
        return Ok(Line::ShowPanels);
    }
    Err(LineErr::Fault(LineFault::BadForm))
}

/// Reads the ask of a show of matched styles.
pub(crate) fn read_styles(value: &Value) -> Result<Line, LineErr>
    ensures fault { RefusesLine result (fault_by kind.Styles (view value.now)) }
    ensures form { IfOk result (λ line. form_by kind.Styles (view value.now) ≡ Some (seen line)) }
{
    match whole_of(value) {
        Some(ask) => Ok(Line::ShowStyles(ask)),
        None => Err(LineErr::Fault(LineFault::BadForm)),
    }
}

fn read_close(value: &Value) -> Result<Line, LineErr>
    ensures fault { RefusesLine result (fault_by kind.Close (view value.now)) }
    ensures form { IfOk result (λ line. form_by kind.Close (view value.now) ≡ Some (seen line)) }
{
    match whole_of(value) {
        Some(place) => Ok(Line::Close(place)),
        None => Err(LineErr::Fault(LineFault::BadForm)),
    }
}

fn read_by(alloc: Global, kind: LineKind, value: &Value) -> Result<Line, LineErr>
    ensures fault { RefusesLine result (fault_by kind (view value.now)) }
    ensures form { IfOk result (λ line. form_by kind (view value.now) ≡ Some (seen line)) }
{
    match kind {
        LineKind::Load => read_load(alloc, value),
        LineKind::Act => read_change(alloc, value),
        LineKind::Ask => read_ask(alloc, value),
        LineKind::Raw => read_raw(alloc, value),
        LineKind::Up => read_up(value),
        LineKind::Down => read_down(value),
        LineKind::Settle => read_settle(value),
        LineKind::Show => read_show(value),
        LineKind::Close => read_close(value),
        LineKind::Styles => read_styles(value),
    }
}

// The first line is to load a page.
fn lacks_load(number: u64, kind: LineKind) -> bool
    ensures { result ≡ (number == 1 && not (is_load kind)) }
{
    number == 1 && !kind.is_load()
}

/// Reads the JSON of the line with this number.
pub(crate) fn read_value(alloc: Global, number: u64, line: &Value) -> Result<Line, LineErr>
    ensures fault { RefusesLine result (fault_of_data number (view line.now)) }
    ensures form { IfOk result (λ read. form_of (view line.now) ≡ Some (seen read)) }
{
    let Some((kind, value)) = said(line) else {
        let first = number == 1;
        return Err(LineErr::Fault(if first {
            LineFault::NotLoad
        } else {
            LineFault::BadForm
        }));
    };
    if lacks_load(number, kind) {
        return Err(LineErr::Fault(LineFault::NotLoad));
    }
    if !all_whole(line) {
        return Err(LineErr::Fault(LineFault::BadForm));
    }
    read_by(alloc, kind, value)
}

fn read_json(alloc: Global, number: u64, line: &[u8]) -> Result<Line, LineErr>
    ensures fault { RefusesLine result (line_fault number line.now) }
    ensures form { IfOk result (λ read. line_form line.now ≡ Some (seen read)) }
{
    match json_of(alloc, line)? {
        Some(value) => read_value(alloc, number, &value),
        None => Err(LineErr::Fault(LineFault::NotJson)),
    }
}

fn read_form(alloc: Global, number: u64, line: &[u8]) -> Result<Line, LineErr>
    ensures fault { RefusesLine result (line_fault number line.now) }
    ensures form { IfOk result (λ read. line_form line.now ≡ Some (seen read)) }
{
    match scan_load(alloc, line) {
        Ok(page) => Ok(Line::Load(page)),
        Err(ScanErr::OtherForm) => read_json(alloc, number, line),
        Err(ScanErr::Memory) => Err(LineErr::Memory),
    }
}

/// Reads the line with this number, counted from 1. A form that is read may be carried out: a page takes its nodes and its sheets,
/// and what it sends is a frame.
pub fn read_line(alloc: Global, number: u64, line: &[u8]) -> Result<Line, LineErr>
    ensures fault { RefusesLine result (line_fault number line.now) }
    ensures form { IfOk result (λ read. line_form line.now ≡ Some (seen read)) }
    ensures sound { IfOk result (λ read. IsSound (seen read)) }
    ensures fits { IfOk result FitsPage }
    ensures whole { IfOk result AreWhole }
{
    read_form(alloc, number, line)
}
