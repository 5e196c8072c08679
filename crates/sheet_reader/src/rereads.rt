//! Readings of texts of which a part was replaced: what can be kept of the old reading is moved.

ghost use Rattle.std.specs.Prelude.{◌≡◌, ◌+◌, ◌-◌, ◌<◌, length, map, slice_get, nat_lt, true, IfOk, IfSome, IsSomeAnd};
ghost use Rattle.node_tree.specs.Numbers.{number_limit};
ghost use Rattle.sheet_reader.specs.Forms.{range, rule_seen};
ghost use Rattle.sheet_reader.specs.Moves.{replaced};
ghost use Rattle.sheet_reader.specs.declared.rereads.Rereading.TheVariants.{Body, Part};
ghost use Rattle.sheet_reader.specs.Rereads.{HasBody, reread_by, CanReread, LeadsTo};
ghost use Rattle.sheet_reader.specs.Sheets.{sheet_of};

use crate::declarations::read_style;
use crate::moves::move_body;
use crate::repairs::{NewPart, is_all, new_part, repair, stands_alone, stretch_around};
use crate::rules::read_sheet;
use crate::sealing::sealed;
use crate::sheet::{Property, Sheet, StyleRule};
use css_tokens::Range;
use std::alloc::{AllocError, Global};

/// A new body for a rule.
#[derive(Drop)]
pub struct NewBody {
    /// The rule's place among the rules of the sheet, from 0.
    pub rule: usize,
    /// Its declarations. Their ranges are places in the new body.
    pub properties: Vec<Property>,
    /// How many bytes it has.
    pub size: usize,
}

/// How the reading of a text becomes that of another one. All memory that this wants is taken already.
#[derive(Drop)]
pub enum Rereading {
    /// A rule gets this body, and all else is moved.
    Body(NewBody),
    /// A part becomes another one, and all else is moved.
    Part(NewPart),
    /// All of the new text was read.
    Whole(Sheet),
}

/// The place of the rule that has its body there, from 0. Bodies stand one behind the other, so it is sought by halves.
fn rule_with_body(rules: &[StyleRule], body: Range) -> Option<usize>
    ensures { IfSome result (λ k. IsSomeAnd (slice_get (map rule_seen rules.now) k) (HasBody body)) }
{
    let i = rules.partition_point(|rule| rule.body.start < body.start);
    let rule = rules.get(i)?;
    if rule.body.start == body.start && rule.body.end == body.end {
        Some(i)
    } else {
        None
    }
}

/// Whether both texts together have fewer bytes than the greatest place.
fn are_short(text: &str, put: &str) -> bool
    ensures { result ≡ nat_lt (length text.now + length put.now) (number_limit - 1) }
{
    put.len() < usize::MAX - text.len()
}

fn whole_reading(alloc: Global, text: &str) -> Result<Rereading, AllocError>
    ensures { IfOk result (λ plan. (old : Sheet) → LeadsTo (sheet_of text.now) old plan) }
{
    Ok(Rereading::Whole(read_sheet(alloc, text)?))
}

/// The new body, where a rule has its body there and `put` is sealed.
fn plan_body(
    alloc: Global,
    old: &Sheet,
    old_text: &str,
    part: Range,
    put: &str,
    new_text: &str,
) -> Result<Option<NewBody>, AllocError>
    requires read { old.now ≡ sheet_of old_text.now }
    requires new { new_text.now ≡ replaced old_text.now part put.now }
    requires short { nat_lt (length old_text.now + length put.now) (number_limit - 1) ≡ true }
    ensures leads { IfOk result (λ plan. IfSome plan (λ new. LeadsTo (sheet_of new_text.now) old.now (Body new))) }
{
    let Some(rule) = rule_with_body(old.rules.as_slice(), part) else {
        return Ok(None);
    };
    let is_sealed = sealed(alloc, put)?;
    if !is_sealed {
        return Ok(None);
    }
    let properties = read_style(alloc, put)?;
    Ok(Some(NewBody {
        rule,
        properties,
        size: put.len(),
    }))
}

/// The new part, where `put` stands between two ends of rules with blocks at top level. Only what stands between them is read.
fn plan_part(
    alloc: Global,
    old: &Sheet,
    old_text: &str,
    part: Range,
    put: &str,
    new_text: &str,
) -> Result<Option<NewPart>, AllocError>
    requires read { old.now ≡ sheet_of old_text.now }
    requires new { new_text.now ≡ replaced old_text.now part put.now }
    requires short { nat_lt (length old_text.now + length put.now) (number_limit - 1) ≡ true }
    ensures leads { IfOk result (λ plan. IfSome plan (λ new. LeadsTo (sheet_of new_text.now) old.now (Part new))) }
{
    let Some(stretch) = stretch_around(old_text.as_bytes(), old.places.as_slice(), part) else {
        return Ok(None);
    };
    if is_all(stretch, old_text.len()) {
        return Ok(None);
    }
    let stop = stretch.end - (part.end - part.start) + put.len();
    let Some(text) = new_text.get(stretch.start..stop) else {
        return Ok(None);
    };
    let sheet = read_sheet(alloc, text)?;
    let is_last = stretch.end == old_text.len();
    if !stands_alone(text.as_bytes(), sheet.places.as_slice(), is_last) {
        return Ok(None);
    }
    Ok(Some(new_part(alloc, old, stretch, sheet, text.len())?))
}

/// How the reading of a text becomes that of another one, in which `put` stands in the place of a part. Where a rule has its body
/// there and `put` is sealed, only `put` is read. Else, where `put` stands between two ends of rules with blocks at top level, media
/// rules among them, only what stands between them is read; and otherwise the whole of the new text. How much of it is
/// read is in no clause.
pub fn plan_reread(
    alloc: Global,
    old: &Sheet,
    old_text: &str,
    part: Range,
    put: &str,
    new_text: &str,
) -> Result<Rereading, AllocError>
    requires read { old.now ≡ sheet_of old_text.now }
    requires new { new_text.now ≡ replaced old_text.now part put.now }
    ensures leads { IfOk result (LeadsTo (sheet_of new_text.now) old.now) }
{
    if !are_short(old_text, put) {
        return whole_reading(alloc, new_text);
    }
    if let Some(new) = plan_body(alloc, old, old_text, part, put, new_text)? {
        return Ok(Rereading::Body(new));
    }
    if let Some(new) = plan_part(alloc, old, old_text, part, put, new_text)? {
        return Ok(Rereading::Part(new));
    }
    whole_reading(alloc, new_text)
}

/// The new reading, as it was planned. Takes no memory.
pub fn carry_out(old: Sheet, plan: Rereading) -> Sheet
    requires can { CanReread old plan }
    ensures planned { result ≡ reread_by old plan }
{
    match plan {
        Rereading::Body(new) => move_body(old, new.rule, new.properties, new.size),
        Rereading::Part(new) => repair(old, new),
        Rereading::Whole(sheet) => sheet,
    }
}

/// The reading of a text that is another one, of which this is the reading, with `put` in the place of the bytes from `start` up to
/// `end`. Where a rule has its body there and `put` is sealed, only `put` is read, and where it stands between two ends of rules with
/// blocks at top level only what stands between them; the old reading is moved. Otherwise the whole of the new text is read. After an
/// error the old reading is gone.
pub fn reread(
    alloc: Global,
    old: Sheet,
    old_text: &str,
    start: usize,
    end: usize,
    put: &str,
    new_text: &str,
) -> Result<Sheet, AllocError>
    requires read { old ≡ sheet_of old_text.now }
    requires new { new_text.now ≡ replaced old_text.now (range start end) put.now }
    ensures read { IfOk result (λ s. s ≡ sheet_of new_text.now) }
{
    let part = Range { start, end };
    let plan = plan_reread(alloc, &old, old_text, part, put, new_text)?;
    Ok(carry_out(old, plan))
}
