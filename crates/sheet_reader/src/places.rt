//! Places in a text as lines and columns. A line ends at a line feed alone; a column counts UTF-16 units.

ghost use Rattle.std.specs.Prelude.{◌≡◌, ◌+◌, ◌<◌, ◌≤◌, length};
ghost use Rattle.std.specs.Str.{IsCharBoundary};
ghost use Rattle.node_tree.specs.Numbers.{number_limit};
ghost use Rattle.sheet_reader.specs.Positions.{units_at, position_of, behind_byte};

use crate::place::Position;

/// The UTF-16 units of a character, told by the first of its bytes; its other bytes count nothing.
pub fn units_at(byte: u8) -> u64
    ensures value { result ≡ units_at byte }
    ensures few { result ≤ 2 }
{
    match byte {
        0..=127 => 1,
        128..=191 => 0,
        192..=239 => 1,
        _ => 2,
    }
}

/// The position behind a byte, of which this is the position before it.
pub(crate) fn behind_byte(before: Position, byte: u8) -> Position
    requires line { before.line + 1 < number_limit }
    requires column { before.column + 2 < number_limit }
    ensures { result ≡ behind_byte before byte }
{
    if byte == b'\n' {
        Position {
            line: before.line + 1,
            column: 0,
        }
    } else {
        Position {
            line: before.line,
            column: before.column + units_at(byte),
        }
    }
}

/// The position of a byte, or of the text's end, from that of one before it.
pub fn position_from(text: &str, from: usize, start: Position, to: usize) -> Position
    requires order { from ≤ to }
    requires inside { to ≤ length text.now }
    requires start { start ≡ position_of text.now from }
    ensures { result ≡ position_of text.now to }
{
    let bytes = text.as_bytes();
    let mut place = start;
    for i in from..to {
        place = behind_byte(place, bytes[i]);
    }
    place
}

/// The position of a byte, which is a character's edge or the text's end.
pub fn position(text: &str, byte: usize) -> Position
    requires edge { IsCharBoundary text.now byte }
    ensures { result ≡ position_of text.now byte }
{
    position_from(text, 0, Position { line: 0, column: 0 }, byte)
}
