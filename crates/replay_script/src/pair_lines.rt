// The lines of a script with two front ends.
ghost use Rattle.std.specs.Prelude.{◌≡◌, Some, IfOk, option_map, codes};
ghost use Rattle.serde_json.specs.View.{view};
ghost use Rattle.cdp_json.specs.Kinds.{holds_of_some, if_holds};
ghost use Rattle.cdp_json.specs.Left.{left};
ghost use Rattle.cdp_json.specs.Rows.{left_with, need};
ghost use Rattle.cdp_messages.specs.Events.{is_object};
ghost use Rattle.replay_script.specs.declared.line_kinds.LineKind.TheVariants as kind;
ghost use Rattle.replay_script.specs.PairLines.{target_in, two, ask_on_two, show_on_two, styles_on_two, said_on_two};
ghost use Rattle.replay_script.specs.PairLines.{is_target_method, may_ask, may_ask_second, may_be_first, may_be_second};
ghost use Rattle.replay_script.specs.PairLines.{first_form, second_form, of_first, of_second, pair_form_of, pair_line_form};
ghost use Rattle.replay_script.specs.PairLines.{bad_form, target_fault, first_fault, second_fault, pair_fault_of_data, pair_line_fault};
ghost use Rattle.replay_script.specs.PairSeen.{pair_seen, on_two_seen, HoldsOfLine, IsPairSound, PairFormsAreSound, PairFirstIsLoad};
ghost use Rattle.replay_script.specs.Seen.{seen, seen_ask, RefusesLine};
ghost use Rattle.replay_script.specs.Sound.{FitsPage, AreWhole};

use crate::faults::{LineErr, LineFault};
use crate::forms::{Ask, Line};
use crate::line_kinds::{shows_styles, sole};
use crate::load_scan::scan_load;
use crate::reads::{read_ask, read_show, read_styles, read_value};
use cdp_json::{Cursor, all_whole, flag_of, whole_of};
use cdp_messages::json_of;
use page_forms::ScanErr;
use serde_json::Value;
use std::alloc::Global;

/// A line of a script with two front ends.
#[derive(Drop)]
pub enum PairLine {
    /// A session is attached, and so a second front made.
    Attach,
    /// The second front's session is detached.
    Detach,
    /// A line of any script; what it asks and shows is the first front's.
    First(Line),
    /// An ask or a show of the second front.
    Second(Line),
}

// What a line of the second front says, by its kind.
#[derive(Clone, Copy)]
pub(crate) enum OnTwo<'a> {
    Ask(&'a Value),
    Show(&'a Value),
    Styles(&'a Value),
}

// The attach or the detach that a value spells.
fn target_of(value: &Value) -> Option<PairLine>
    ensures { option_map pair_seen result ≡ target_in (view value.now) }
{
    let (name, said) = sole(value)?;
    let flag = flag_of(said);
    match name {
        "attach" => if flag == Some(true) {
            Some(PairLine::Attach)
        } else {
            None
        },
        "detach" => if flag == Some(true) {
            Some(PairLine::Detach)
        } else {
            None
        },
        _ => None,
    }
}

fn two_of(value: &Value) -> Option<u64>
    ensures { result ≡ two.reads (view value.now) }
{
    let number = whole_of(value)?;
    if number == 2 { Some(number) } else { None }
}

fn need_two(fields: &mut Cursor<'_>) -> Option<u64>
    ensures { option_map (left_with (left fields.new)) result ≡ need two.reads (codes "on") (left fields.old) }
{
    two_of(fields.need("on")?)
}

// What an ask of the second front asks.
fn ask_on_two(value: &Value) -> Option<&Value>
    ensures { option_map (λ v. view v.now) result ≡ option_map (λ f. f.0) (ask_on_two.reads (view value.now)) }
{
    let mut fields = Cursor::new(value.as_object()?);
    let ask = fields.need("ask")?;
    let _second = need_two(&mut fields)?;
    if fields.is_done() { Some(ask) } else { None }
}

// The word of a show of the second front.
fn show_on_two(value: &Value) -> Option<&Value>
    ensures { option_map (λ v. view v.now) result ≡ option_map (λ f. f.1.0) (show_on_two.reads (view value.now)) }
{
    let mut fields = Cursor::new(value.as_object()?);
    let _second = need_two(&mut fields)?;
    let word = fields.need("show")?;
    if fields.is_done() { Some(word) } else { None }
}

// The ask of a show of matched styles of the second front.
fn styles_on_two(value: &Value) -> Option<&Value>
    ensures { option_map (λ v. view v.now) result ≡ option_map (λ f. f.0) (styles_on_two.reads (view value.now)) }
{
    let mut fields = Cursor::new(value.as_object()?);
    let ask = fields.need("ask")?;
    let _second = need_two(&mut fields)?;
    if !shows_styles(&mut fields) {
        return None;
    }
    if fields.is_done() { Some(ask) } else { None }
}

// What a line of the second front says.
fn said_on_two(value: &Value) -> Option<OnTwo<'_>>
    ensures { option_map on_two_seen result ≡ said_on_two (view value.now) }
{
    if let Some(ask) = styles_on_two(value) {
        return Some(OnTwo::Styles(ask));
    }
    if let Some(ask) = ask_on_two(value) {
        return Some(OnTwo::Ask(ask));
    }
    let word = show_on_two(value)?;
    Some(OnTwo::Show(word))
}

fn is_target_method(method: &str) -> bool
    ensures { result ≡ is_target_method method.now }
{
    method.as_bytes().starts_with(b"Target.")
}

fn may_ask(ask: &Ask) -> bool
    ensures { result ≡ may_ask (seen_ask ask.now) }
{
    ask.session.is_none() && !is_target_method(ask.method.as_str())
}

fn has_object(params: &Option<Value>) -> bool
    ensures { result ≡ holds_of_some is_object (option_map view params.now) }
{
    match params {
        Some(params) => params.is_object(),
        None => true,
    }
}

fn may_ask_second(ask: &Ask) -> bool
    ensures { result ≡ may_ask_second (seen_ask ask.now) }
{
    let may = may_ask(ask);
    let object = has_object(&ask.params);
    may && object
}

fn may_be_first(line: &Line) -> bool
    ensures { result ≡ may_be_first (seen line.now) }
{
    match line {
        Line::Ask(ask) => may_ask(ask),
        Line::Load(_)
        | Line::Act(_)
        | Line::Raw(_)
        | Line::Up(_)
        | Line::Down(_)
        | Line::Settle
        | Line::ShowFront
        | Line::ShowPage
        | Line::ShowSheets
        | Line::ShowReplies
        | Line::ShowPauses
        | Line::ShowPanels
        | Line::ShowStyles(_)
        | Line::Close(_) => true,
    }
}

fn may_be_second(line: &Line) -> bool
    ensures { result ≡ may_be_second (seen line.now) }
{
    match line {
        Line::Ask(ask) => may_ask_second(ask),
        Line::ShowFront
        | Line::ShowSheets
        | Line::ShowReplies
        | Line::ShowPauses
        | Line::ShowStyles(_) => true,
        Line::Load(_)
        | Line::Act(_)
        | Line::Raw(_)
        | Line::Up(_)
        | Line::Down(_)
        | Line::Settle
        | Line::ShowPage
        | Line::ShowPanels
        | Line::Close(_) => false,
    }
}

// The line, where the first front may have it.
fn first_line(line: Line) -> Result<PairLine, LineErr>
    ensures fault { RefusesLine result (bad_form (if_holds may_be_first (seen line))) }
    ensures form { IfOk result (λ read. option_map of_first (if_holds may_be_first (seen line)) ≡ Some (pair_seen read)) }
{
    if may_be_first(&line) {
        Ok(PairLine::First(line))
    } else {
        Err(LineErr::Fault(LineFault::BadForm))
    }
}

// The line, where the second front may have it.
fn second_line(line: Line) -> Result<PairLine, LineErr>
    ensures fault { RefusesLine result (bad_form (if_holds may_be_second (seen line))) }
    ensures form { IfOk result (λ read. option_map of_second (if_holds may_be_second (seen line)) ≡ Some (pair_seen read)) }
{
    if may_be_second(&line) {
        Ok(PairLine::Second(line))
    } else {
        Err(LineErr::Fault(LineFault::BadForm))
    }
}

fn second_ask(alloc: Global, value: &Value) -> Result<PairLine, LineErr>
    ensures fault { RefusesLine result (bad_form (second_form (kind.Ask, view value.now))) }
    ensures form { IfOk result (λ read. option_map of_second (second_form (kind.Ask, view value.now)) ≡ Some (pair_seen read)) }
{
    match read_ask(alloc, value) {
        Ok(line) => second_line(line),
        Err(error) => Err(error),
    }
}

fn second_show(value: &Value) -> Result<PairLine, LineErr>
    ensures fault { RefusesLine result (bad_form (second_form (kind.Show, view value.now))) }
    ensures form { IfOk result (λ read. option_map of_second (second_form (kind.Show, view value.now)) ≡ Some (pair_seen read)) }
{
    match read_show(value) {
        Ok(line) => second_line(line),
        Err(error) => Err(error),
    }
}

fn second_styles(value: &Value) -> Result<PairLine, LineErr>
    ensures fault { RefusesLine result (bad_form (second_form (kind.Styles, view value.now))) }
    ensures form { IfOk result (λ read. option_map of_second (second_form (kind.Styles, view value.now)) ≡ Some (pair_seen read)) }
{
    match read_styles(value) {
        Ok(line) => second_line(line),
        Err(error) => Err(error),
    }
}

fn read_on_two(alloc: Global, said: OnTwo<'_>) -> Result<PairLine, LineErr>
    ensures fault { RefusesLine result (bad_form (second_form (on_two_seen said.entry))) }
    ensures form { IfOk result (λ read. option_map of_second (second_form (on_two_seen said.entry)) ≡ Some (pair_seen read)) }
{
    match said {
        OnTwo::Ask(value) => second_ask(alloc, value),
        OnTwo::Show(value) => second_show(value),
        OnTwo::Styles(value) => second_styles(value),
    }
}

fn read_target(number: u64, target: PairLine) -> Result<PairLine, LineErr>
    ensures fault { RefusesLine result (target_fault number) }
    ensures form { IfOk result (λ read. read ≡ target) }
{
    if number == 1 {
        Err(LineErr::Fault(LineFault::NotLoad))
    } else {
        Ok(target)
    }
}

fn read_second(
    alloc: Global,
    number: u64,
    line: &Value,
    said: OnTwo<'_>,
) -> Result<PairLine, LineErr>
    ensures fault { RefusesLine result (second_fault number (view line.now) (on_two_seen said.entry)) }
    ensures form { IfOk result (λ read. option_map of_second (second_form (on_two_seen said.entry)) ≡ Some (pair_seen read)) }
{
    if number == 1 {
        return Err(LineErr::Fault(LineFault::NotLoad));
    }
    if !all_whole(line) {
        return Err(LineErr::Fault(LineFault::BadForm));
    }
    read_on_two(alloc, said)
}

fn read_first(alloc: Global, number: u64, line: &Value) -> Result<PairLine, LineErr>
    ensures fault { RefusesLine result (first_fault number (view line.now)) }
    ensures form { IfOk result (λ read. option_map of_first (first_form (view line.now)) ≡ Some (pair_seen read)) }
{
    match read_value(alloc, number, line) {
        Ok(read) => first_line(read),
        Err(error) => Err(error),
    }
}

fn read_pair_value(alloc: Global, number: u64, line: &Value) -> Result<PairLine, LineErr>
    ensures fault { RefusesLine result (pair_fault_of_data number (view line.now)) }
    ensures form { IfOk result (λ read. pair_form_of (view line.now) ≡ Some (pair_seen read)) }
{
    if let Some(target) = target_of(line) {
        return read_target(number, target);
    }
    match said_on_two(line) {
        Some(said) => read_second(alloc, number, line, said),
        None => read_first(alloc, number, line),
    }
}

fn read_pair_json(alloc: Global, number: u64, line: &[u8]) -> Result<PairLine, LineErr>
    ensures fault { RefusesLine result (pair_line_fault number line.now) }
    ensures form { IfOk result (λ read. pair_line_form line.now ≡ Some (pair_seen read)) }
{
    match json_of(alloc, line)? {
        Some(value) => read_pair_value(alloc, number, &value),
        None => Err(LineErr::Fault(LineFault::NotJson)),
    }
}

fn read_pair_form(alloc: Global, number: u64, line: &[u8]) -> Result<PairLine, LineErr>
    ensures fault { RefusesLine result (pair_line_fault number line.now) }
    ensures form { IfOk result (λ read. pair_line_form line.now ≡ Some (pair_seen read)) }
{
    match scan_load(alloc, line) {
        Ok(page) => Ok(PairLine::First(Line::Load(page))),
        Err(ScanErr::OtherForm) => read_pair_json(alloc, number, line),
        Err(ScanErr::Memory) => Err(LineErr::Memory),
    }
}

/// Reads the line with this number, counted from 1, of a script with two front ends. A form that is read may be carried out, where
/// the front that it names stands.
pub fn read_pair_line(alloc: Global, number: u64, line: &[u8]) -> Result<PairLine, LineErr>
    ensures fault { RefusesLine result (pair_line_fault number line.now) }
    ensures form { IfOk result (λ read. pair_line_form line.now ≡ Some (pair_seen read)) }
    ensures sound { IfOk result (λ read. IsPairSound (pair_seen read)) }
    ensures fits { IfOk result (HoldsOfLine FitsPage) }
    ensures whole { IfOk result (HoldsOfLine AreWhole) }
{
    read_pair_form(alloc, number, line)
}

/// What is carried out of a script with two front ends may be: each line that is not refused keeps what a line of any script keeps,
/// and the front that it names may have it. A first line that is not refused loads a page.
pub fn pair_forms_law()
    ensures sound { PairFormsAreSound }
    ensures first { PairFirstIsLoad }
{}
