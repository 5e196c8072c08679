//! Ranges of lines and columns, and what of a sheet stands there.

ghost use Rattle.std.specs.Prelude.{◌≡◌, ◌&&◌, ◌==◌, false, map, IfSome, IfNone};
ghost use Rattle.std.specs.List.{find};
ghost use Rattle.std.specs.Str.{IsCharBoundary, IsUtf8};
ghost use Rattle.css_tokens.specs.declared.token.Range.{Range};
ghost use Rattle.selectors.specs.Ranges.{IsRangeOf};
ghost use Rattle.sheet_reader.specs.Forms.{range};
ghost use Rattle.sheet_reader.specs.Books.{IsEntry};
ghost use Rattle.style_edits.specs.Drafts.{IsAt, is_same_range, is_before_range, if_same_range, AreInOrder};
ghost use Rattle.style_edits.specs.Edits.{is_at, body_at, prelude_at, place_at};
ghost use Rattle.style_edits.specs.MediaEdits.{media_at};

use css_tokens::Range;
use sheet_reader::{MediaRule, SheetEntry, SheetText, StyleRule};

/// A part of a text: from one line and column up to another, all from 0. A column counts UTF-16 units.
#[derive(Clone, Copy)]
pub struct LineRange {
    pub start_line: u64,
    pub start_column: u64,
    pub end_line: u64,
    pub end_column: u64,
}

/// The bytes with these lines and columns; none where a line has no such column, or the text no such line.
fn bytes_at(text: &SheetText, lines: LineRange) -> Option<Range>
    ensures text { IsUtf8 text.now }
    ensures there { IfSome result (IsAt text.now lines) }
    ensures none { IfNone result ((r : Range) → IsCharBoundary text.now r.start → IsCharBoundary text.now r.end
        → is_at text.now lines r ≡ false) }
{
    // Read for the proof alone: a text is UTF-8.
    let _text = text.as_str();
    let start = text.byte_at(lines.start_line, lines.start_column)?;
    let end = text.byte_at(lines.end_line, lines.end_column)?;
    Some(Range { start, end })
}

fn is_same(a: Range, b: Range) -> bool
    ensures { result ≡ is_same_range a b }
{
    a.start == b.start && a.end == b.end
}

/// Whether the range starts or ends before the wanted one.
fn is_before(range: Range, wanted: Range) -> bool
    ensures { result ≡ is_before_range range wanted }
{
    range.start < wanted.start || range.end < wanted.end
}

/// The range, if it is the wanted one.
fn if_same(wanted: Range, range: Range) -> Option<Range>
    ensures { result ≡ if_same_range wanted range }
{
    if is_same(wanted, range) {
        Some(range)
    } else {
        None
    }
}

/// The range, if a rule has its body there. Bodies stand one behind the other, so it is sought by halves, as the others below are.
fn body_among(rules: &[StyleRule], wanted: Range) -> Option<Range>
    requires { AreInOrder 0 (map (λ r. r.body) rules.now) }
    ensures { result ≡ find (is_same_range wanted) (map (λ r. r.body) rules.now) }
{
    let i = rules.partition_point(|rule| is_before(rule.body, wanted));
    let Some(rule) = rules.get(i) else {
        return None;
    };
    if_same(wanted, rule.body)
}

/// The range, if a rule has its prelude there.
fn prelude_among(rules: &[StyleRule], wanted: Range) -> Option<Range>
    requires { AreInOrder 0 (map (λ r. r.prelude) rules.now) }
    ensures { result ≡ find (is_same_range wanted) (map (λ r. r.prelude) rules.now) }
{
    let i = rules.partition_point(|rule| is_before(rule.prelude, wanted));
    let Some(rule) = rules.get(i) else {
        return None;
    };
    if_same(wanted, rule.prelude)
}

/// The range, if a media rule has its prelude there.
fn media_among(media: &[MediaRule], wanted: Range) -> Option<Range>
    requires { AreInOrder 0 (map (λ m. m.prelude) media.now) }
    ensures { result ≡ find (is_same_range wanted) (map (λ m. m.prelude) media.now) }
{
    let i = media.partition_point(|rule| is_before(rule.prelude, wanted));
    let Some(rule) = media.get(i) else {
        return None;
    };
    if_same(wanted, rule.prelude)
}

fn empty_at(place: usize) -> Range
    ensures { result ≡ range place place }
{
    Range {
        start: place,
        end: place,
    }
}

/// The range, if it is empty and at one of the places.
fn place_among(places: &[usize], wanted: Range) -> Option<Range>
    requires { AreInOrder 0 (map (λ p. range p p) places.now) }
    ensures { result ≡ find (is_same_range wanted) (map (λ p. range p p) places.now) }
{
    let i = places.partition_point(|place| is_before(empty_at(*place), wanted));
    let Some(place) = places.get(i) else {
        return None;
    };
    if_same(wanted, empty_at(*place))
}

/// The body of a style rule with these lines and columns.
pub(crate) fn body_at(entry: &SheetEntry, lines: LineRange) -> Option<Range>
    requires { IsEntry entry.now }
    ensures value { result ≡ body_at entry.now.text lines }
    ensures range { IfSome result (IsRangeOf entry.now.text) }
{
    let Some(wanted) = bytes_at(&entry.text, lines) else {
        return None;
    };
    body_among(entry.reading.rules.as_slice(), wanted)
}

/// The prelude of a style rule with these lines and columns.
pub(crate) fn prelude_at(entry: &SheetEntry, lines: LineRange) -> Option<Range>
    requires { IsEntry entry.now }
    ensures value { result ≡ prelude_at entry.now.text lines }
    ensures range { IfSome result (IsRangeOf entry.now.text) }
{
    let Some(wanted) = bytes_at(&entry.text, lines) else {
        return None;
    };
    prelude_among(entry.reading.rules.as_slice(), wanted)
}

/// A place where a rule may be added, as an empty range with these lines and columns.
pub(crate) fn place_at(entry: &SheetEntry, lines: LineRange) -> Option<Range>
    requires { IsEntry entry.now }
    ensures value { result ≡ place_at entry.now.text lines }
    ensures range { IfSome result (IsRangeOf entry.now.text) }
{
    let Some(wanted) = bytes_at(&entry.text, lines) else {
        return None;
    };
    place_among(entry.reading.places.as_slice(), wanted)
}

/// The prelude of a media rule with these lines and columns.
pub(crate) fn media_at(entry: &SheetEntry, lines: LineRange) -> Option<Range>
    requires { IsEntry entry.now }
    ensures value { result ≡ media_at entry.now.text lines }
    ensures range { IfSome result (IsRangeOf entry.now.text) }
{
    let Some(wanted) = bytes_at(&entry.text, lines) else {
        return None;
    };
    media_among(entry.reading.media.as_slice(), wanted)
}
