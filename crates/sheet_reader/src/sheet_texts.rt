//! The text of a sheet, in which bytes and positions are found without a walk from its start.

ghost use Rattle.std.specs.Prelude.{◌≡◌, ℕ, ◌≤◌, length, IfOk, OnOk, OnErr, IfSome, IfNone, string_bytes};
ghost use Rattle.std.specs.Str.{IsCharBoundary};
ghost use Rattle.selectors.specs.Ranges.{IsRangeOf};
ghost use Rattle.sheet_reader.specs.Marks.{IsMark, AreMarks};
ghost use Rattle.sheet_reader.specs.Moves.{replaced};
ghost use Rattle.sheet_reader.specs.Positions.{position, position_of};

use crate::marks::{Mark, byte_from, edited_marks, mark_at, mark_before, marks_of};
use crate::place::Position;
use crate::places::position_from;
use css_tokens::Range;
use std::alloc::{AllocError, Global};
use std::marker::Model;

/// A text, which contracts see as the list of its bytes. It keeps the positions of some of them, a few hundred bytes apart, and moves
/// them with an edit, as many as there is memory for.
#[derive(Drop)]
pub struct SheetText {
    text: String,
    marks: Vec<Mark>,
}

impl Model for SheetText {
    ghost use Rattle.std.specs.Prelude.{ℕ, List, string_bytes};
    ghost use Rattle.sheet_reader.specs.Marks.{AreMarks};

    ghost Value = { List ℕ };

    ghost view = { λ t. string_bytes t.text };

    ghost invariant = { λ t. AreMarks (string_bytes t.text) t.marks.items };
}

impl SheetText {
    /// The text; takes memory for its marks alone, and does without where there is none.
    pub fn new(alloc: Global, text: String) -> SheetText
        ensures { result ≡ string_bytes text }
    {
        let marks = marks_of(alloc, text.as_str());
        SheetText { text, marks }
    }

    /// A copy of a text.
    pub fn copied(alloc: Global, text: &str) -> Result<SheetText, AllocError>
        ensures { IfOk result (λ copy. copy ≡ text.now) }
    {
        Ok(SheetText::new(alloc, String::from_str(alloc, text)?))
    }

    /// A copy of the text, with its marks.
    pub fn try_clone(&self) -> Result<SheetText, AllocError>
        ensures { IfOk result (λ copy. copy ≡ self.now) }
    {
        let alloc = *self.marks.allocator();
        let text = String::from_str(alloc, self.text.as_str())?;
        let mut marks = Vec::new(alloc);
        let _copied = marks.extend_from_slice(self.marks.as_slice());
        Ok(SheetText { text, marks })
    }

    /// The text.
    pub fn as_str(&self) -> &str
        ensures { result.now ≡ self.now }
    {
        self.text.as_str()
    }

    /// The position of a byte, or of the text's end.
    pub fn position(&self, byte: usize) -> Position
        requires { byte ≤ length self.now }
        ensures { result ≡ position_of self.now byte }
    {
        mark_at(self.text.as_str(), self.marks.as_slice(), byte).place
    }

    /// The byte at a character's edge, or the text's end, that has this position. None where the line has no such column: past
    /// its end, or inside a pair of units; or where the text has no such line.
    pub fn byte_at(&self, line: u64, column: u64) -> Option<usize>
        ensures edge { IfSome result (λ byte. IsCharBoundary self.now byte) }
        ensures there { IfSome result (λ byte. position_of self.now byte ≡ position line column) }
        ensures no_place { IfNone result ((byte : ℕ) → IsCharBoundary self.now byte
            → position_of self.now byte ≡ position line column → ⊥) }
    {
        let wanted = Position { line, column };
        let text = self.text.as_str();
        byte_from(
            text,
            mark_before(text, self.marks.as_slice(), wanted),
            wanted,
        )
    }

    /// Puts another text in the place of a part. On an error the text is as it was.
    pub fn replace(&mut self, part: Range, put: &str) -> Result<(), AllocError>
        requires { IsRangeOf self.old part }
        ensures ok { OnOk result (self.new ≡ replaced self.old part put.now) }
        ensures err { OnErr result (self.new ≡ self.old) }
    {
        let start = mark_at(self.text.as_str(), self.marks.as_slice(), part.start);
        let from = mark_at(self.text.as_str(), self.marks.as_slice(), part.end);
        self.text.replace_range(part.start..part.end, put)?;
        let text = self.text.as_str();
        let end = part.start + put.len();
        let to = Mark {
            byte: end,
            place: position_from(text, part.start, start.place, end),
        };
        self.marks = edited_marks(text, &self.marks, part.start, from, to);
        Ok(())
    }
}
