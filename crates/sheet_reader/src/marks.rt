//! Marks of a text, by which a position is found without a walk from the text's start.

ghost use Rattle.std.specs.Prelude.{◌≡◌, ℕ, ◌+◌, ◌-◌, ◌<◌, ◌≤◌, All, length, true, false, IfSome, IfNone};
ghost use Rattle.std.specs.Str.{IsCharBoundary};
ghost use Rattle.node_tree.specs.Numbers.{number_limit};
ghost use Rattle.sheet_reader.specs.Marks.{mark_step, IsMark, AreMarks, IsFront, is_before, moved_position, moved_mark, CanMoveMark};
ghost use Rattle.sheet_reader.specs.Positions.{position, position_of};

use crate::place::Position;
use crate::places::{behind_byte, position_from};
use std::alloc::{AllocError, Global};

/// A byte of a text, or its end, and the position there.
#[derive(Clone, Copy)]
pub(crate) struct Mark {
    pub byte: usize,
    pub place: Position,
}

/// How many bytes marks stand apart at least; no more than twice as many where memory was not refused.
const MARK_STEP: usize = 256;

/// The start of a text.
pub(crate) fn start_mark(text: &str) -> Mark
    ensures mark { IsMark text.now result }
    ensures start { result.byte ≡ 0 }
{
    // Read for the proof alone.
    let _text = text;
    Mark {
        byte: 0,
        place: Position { line: 0, column: 0 },
    }
}

/// A mark that is not behind the byte: the last one, or the text's start.
fn mark_up_to(text: &str, marks: &[Mark], byte: usize) -> Mark
    requires marks { AreMarks text.now marks.now }
    ensures mark { IsMark text.now result }
    ensures order { result.byte ≤ byte }
{
    let count = marks.partition_point(|mark| mark.byte <= byte);
    if count > 0 && marks[count - 1].byte <= byte {
        return marks[count - 1];
    }
    start_mark(text)
}

/// The byte, or the text's end, as a mark.
pub(crate) fn mark_at(text: &str, marks: &[Mark], byte: usize) -> Mark
    requires marks { AreMarks text.now marks.now }
    requires inside { byte ≤ length text.now }
    ensures mark { IsMark text.now result }
    ensures byte { result.byte ≡ byte }
{
    let near = mark_up_to(text, marks, byte);
    Mark {
        byte,
        place: position_from(text, near.byte, near.place, byte),
    }
}

/// Whether a position is before another one.
fn is_before(place: Position, other: Position) -> bool
    ensures { result ≡ is_before place other }
{
    place.line < other.line || place.line == other.line && place.column < other.column
}

/// A mark before the position: the last one, or the text's start.
pub(crate) fn mark_before(text: &str, marks: &[Mark], wanted: Position) -> Mark
    requires marks { AreMarks text.now marks.now }
    ensures mark { IsMark text.now result }
    ensures front { IsFront wanted result }
{
    let count = marks.partition_point(|mark| is_before(mark.place, wanted));
    if count > 0 && is_before(marks[count - 1].place, wanted) {
        return marks[count - 1];
    }
    start_mark(text)
}

/// Whether this is the wanted position, and the byte is a character's edge or the text's end.
fn is_there(text: &str, byte: usize, place: Position, wanted: Position) -> bool
    ensures yes { result ≡ true → (place ≡ wanted) × IsCharBoundary text.now byte }
    ensures no { result ≡ false → IsCharBoundary text.now byte → place ≡ wanted → ⊥ }
{
    if place.line != wanted.line || place.column != wanted.column {
        return false;
    }
    text.is_char_boundary(byte)
}

/// The byte at a character's edge, or the text's end, that has this position, looked for from a mark before it on.
pub(crate) fn byte_from(text: &str, from: Mark, wanted: Position) -> Option<usize>
    requires from { IsMark text.now from }
    requires front { IsFront wanted from }
    ensures edge { IfSome result (λ byte. IsCharBoundary text.now byte) }
    ensures there { IfSome result (λ byte. position_of text.now byte ≡ wanted) }
    ensures no_place { IfNone result ((byte : ℕ) → IsCharBoundary text.now byte → position_of text.now byte ≡ wanted → ⊥) }
{
    let bytes = text.as_bytes();
    let mut byte = from.byte;
    let mut place = from.place;
    while byte < bytes.len() && !is_before(wanted, place) {
        if is_there(text, byte, place, wanted) {
            return Some(byte);
        }
        place = behind_byte(place, bytes[byte]);
        byte += 1;
    }
    if is_there(text, byte, place, wanted) {
        Some(byte)
    } else {
        None
    }
}

/// The byte at a character's edge, or the text's end, that has this position. None where the line has no such column: past
/// its end, or inside a pair of units; or where the text has no such line. Looks at all bytes before it; a `SheetText` does not.
pub fn byte_at(text: &str, line: u64, column: u64) -> Option<usize>
    ensures edge { IfSome result (λ byte. IsCharBoundary text.now byte) }
    ensures there { IfSome result (λ byte. position_of text.now byte ≡ position line column) }
    ensures no_place { IfNone result ((byte : ℕ) → IsCharBoundary text.now byte → position_of text.now byte ≡ position line column → ⊥) }
{
    byte_from(text, start_mark(text), Position { line, column })
}

/// The last of the marks, or the text's start.
fn last_mark(text: &str, marks: &[Mark]) -> Mark
    requires { AreMarks text.now marks.now }
    ensures { IsMark text.now result }
{
    match marks.last() {
        Some(mark) => *mark,
        None => start_mark(text),
    }
}

/// The mark a step behind another one.
fn next_mark(text: &str, last: Mark) -> Mark
    requires last { IsMark text.now last }
    requires inside { last.byte + mark_step ≤ length text.now }
    ensures mark { IsMark text.now result }
    ensures byte { result.byte ≡ last.byte + mark_step }
{
    let byte = last.byte + MARK_STEP;
    Mark {
        byte,
        place: position_from(text, last.byte, last.place, byte),
    }
}

/// Sets marks behind the last one, up to a byte. Want of memory leaves those that are set.
fn fill(text: &str, marks: &mut Vec<Mark>, to: usize) -> Result<(), AllocError>
    requires inside { to ≤ length text.now }
    requires marks { AreMarks text.now marks.old.items }
    ensures { AreMarks text.now marks.new.items }
{
    let mut last = last_mark(text, marks.as_slice());
    while last.byte < to && to - last.byte >= 2 * MARK_STEP {
        last = next_mark(text, last);
        marks.push(last)?;
    }
    Ok(())
}

/// The marks of a text, as many as there is memory for.
pub(crate) fn marks_of(alloc: Global, text: &str) -> Vec<Mark>
    ensures { AreMarks text.now result.items }
{
    let mut marks = Vec::new(alloc);
    let _filled = fill(text, &mut marks, text.len());
    marks
}

/// Appends the old marks up to where an edit began.
fn push_front(
    text: &str,
    marks: &mut Vec<Mark>,
    old: &[Mark],
    start: usize,
) -> Result<(), AllocError>
    requires old { All (λ m. m.byte ≤ start → IsMark text.now m) old.now }
    requires marks { AreMarks text.now marks.old.items }
    ensures { AreMarks text.now marks.new.items }
{
    // Read for the proof alone.
    let _text = text;
    for mark in old {
        if mark.byte <= start {
            marks.push(*mark)?;
        }
    }
    Ok(())
}

fn moved_position(place: Position, before: Position, after: Position) -> Position
    requires line { before.line ≤ place.line }
    requires column { place.line ≡ before.line → before.column ≤ place.column }
    requires lines_fit { after.line + (place.line - before.line) < number_limit }
    requires columns_fit { place.line ≡ before.line → after.column + (place.column - before.column) < number_limit }
    ensures { result ≡ moved_position before after place }
{
    if place.line == before.line {
        Position {
            line: after.line,
            column: after.column + (place.column - before.column),
        }
    } else {
        Position {
            line: after.line + (place.line - before.line),
            column: place.column,
        }
    }
}

/// A mark behind one that an edit moved.
fn moved_mark(text: &str, mark: Mark, from: Mark, to: Mark) -> Mark
    requires behind { from.byte ≤ mark.byte }
    requires can { CanMoveMark text.now from to mark }
    ensures { result ≡ moved_mark from to mark }
{
    // Read for the proof alone.
    let _text = text;
    Mark {
        byte: to.byte + (mark.byte - from.byte),
        place: moved_position(mark.place, from.place, to.place),
    }
}

/// Where the first of the old marks behind an edit stands now, or the text's end.
fn first_behind(text: &str, old: &[Mark], from: Mark, to: Mark) -> usize
    requires { All (λ m. from.byte < m.byte → CanMoveMark text.now from to m) old.now }
    ensures { result ≤ length text.now }
{
    for mark in old {
        if from.byte < mark.byte {
            return moved_mark(text, *mark, from, to).byte;
        }
    }
    text.len()
}

/// Appends the old marks behind an edit, moved.
fn push_behind(
    text: &str,
    marks: &mut Vec<Mark>,
    old: &[Mark],
    from: Mark,
    to: Mark,
) -> Result<(), AllocError>
    requires old { All (λ m. from.byte < m.byte → CanMoveMark text.now from to m) old.now }
    requires marks { AreMarks text.now marks.old.items }
    ensures { AreMarks text.now marks.new.items }
{
    for mark in old {
        if from.byte < mark.byte {
            marks.push(moved_mark(text, *mark, from, to))?;
        }
    }
    Ok(())
}

/// Sets the marks of an edited text. Want of memory leaves those that are set.
fn lay(
    text: &str,
    marks: &mut Vec<Mark>,
    old: &[Mark],
    start: usize,
    from: Mark,
    to: Mark,
) -> Result<(), AllocError>
    requires front { All (λ m. m.byte ≤ start → IsMark text.now m) old.now }
    requires behind { All (λ m. from.byte < m.byte → CanMoveMark text.now from to m) old.now }
    requires marks { AreMarks text.now marks.old.items }
    ensures { AreMarks text.now marks.new.items }
{
    push_front(text, marks, old, start)?;
    fill(text, marks, first_behind(text, old, from, to))?;
    push_behind(text, marks, old, from, to)
}

/// The marks of a text, of which the bytes from `start` on were edited: what stood behind the mark `from` stands behind the mark `to`.
/// As many as there is memory for.
pub(crate) fn edited_marks(
    text: &str,
    old: &Vec<Mark>,
    start: usize,
    from: Mark,
    to: Mark,
) -> Vec<Mark>
    requires front { All (λ m. m.byte ≤ start → IsMark text.now m) old.now.items }
    requires behind { All (λ m. from.byte < m.byte → CanMoveMark text.now from to m) old.now.items }
    ensures { AreMarks text.now result.items }
{
    let mut marks = Vec::new(*old.allocator());
    let _laid = lay(text, &mut marks, old.as_slice(), start, from, to);
    marks
}
