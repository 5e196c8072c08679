ghost use Rattle.std.specs.Prelude.{◌≡◌, ◌≤◌, length};
ghost use Rattle.selectors.specs.Ranges.{IsRangeOf};
ghost use Rattle.sheet_reader.specs.Positions.{position_of};
ghost use Rattle.css_agent.specs.Texts.{range_between, source_range};

use css_objects::SourceRange;
use css_tokens::Range;
use sheet_reader::{Position, SheetText, position_from};
use std::marker::Model;

/// How many bytes behind the last place one may be that is found from there.
const NEAR_BYTES: usize = 256;

/// The text of a sheet whose positions are asked for, which contracts see as the text alone. It knows the last place: what is near
/// behind that is found from there.
#[derive(Drop)]
pub(crate) struct Ruler<'a> {
    text: &'a SheetText,
    byte: usize,
    place: Position,
}

impl<'a> Model for Ruler<'a> {
    ghost use Rattle.std.specs.Prelude.{◌≡◌, ◌≤◌, ℕ, List, length};
    ghost use Rattle.sheet_reader.specs.Positions.{position_of};

    ghost Value = { List ℕ };

    ghost view = { λ r. r.text.now };

    ghost invariant = { λ r. (r.byte ≤ length r.text.now) × (r.place ≡ position_of r.text.now r.byte) };
}

pub(crate) fn range_between(start: Position, end: Position) -> SourceRange
    ensures { result ≡ range_between start end }
{
    SourceRange {
        start_line: start.line,
        start_column: start.column,
        end_line: end.line,
        end_column: end.column,
    }
}

impl<'a> Ruler<'a> {
    /// A ruler at the start of the text; takes no memory.
    pub(crate) fn new(text: &'a SheetText) -> Ruler<'a>
        ensures { result ≡ text.now }
    {
        Ruler {
            text,
            byte: 0,
            place: Position { line: 0, column: 0 },
        }
    }

    pub(crate) fn text(&self) -> &'a str
        ensures { result.now ≡ self.now }
    {
        let text = self.text;
        text.as_str()
    }

    /// From the last place, where the byte is near behind it, and else by the marks that the text keeps.
    fn place_of(&self, byte: usize) -> Position
        requires { byte ≤ length self.now }
        ensures { result ≡ position_of self.now byte }
    {
        let text = self.text;
        if self.byte <= byte && byte - self.byte <= NEAR_BYTES {
            return position_from(text.as_str(), self.byte, self.place, byte);
        }
        text.position(byte)
    }

    /// The position of a byte; takes no memory.
    pub(crate) fn at(&mut self, byte: usize) -> Position
        requires { byte ≤ length self.old }
        ensures value { result ≡ position_of self.old byte }
        ensures same { self.new ≡ self.old }
    {
        let place = self.place_of(byte);
        self.byte = byte;
        self.place = place;
        place
    }

    /// The lines and columns of a part of the text.
    pub(crate) fn range_of(&mut self, range: Range) -> SourceRange
        requires { IsRangeOf self.old range }
        ensures value { result ≡ source_range self.old range }
        ensures same { self.new ≡ self.old }
    {
        let start = self.at(range.start);
        let end = self.at(range.end);
        range_between(start, end)
    }
}
