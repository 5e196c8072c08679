//! A sheet whose rules get new bodies, one after the other.

ghost use Rattle.std.specs.Prelude.{◌≡◌, ℕ, ◌≤◌, ◌+◌, length, All, true, IfSome, IfNone, OnOk, OnErr, IsSomeAnd, slice_get};
ghost use Rattle.node_tree.specs.Numbers.{max_sheet_bytes};
ghost use Rattle.std.specs.Str.{IsCharBoundary};
ghost use Rattle.selectors.specs.Ranges.{IsRangeOf};
ghost use Rattle.sheet_reader.specs.Books.{IsEntry, IsStored};
ghost use Rattle.sheet_reader.specs.Declarations.{style_of};
ghost use Rattle.sheet_reader.specs.Forms.{range};
ghost use Rattle.sheet_reader.specs.Late.{HasOther};
ghost use Rattle.sheet_reader.specs.Moves.{replaced};
ghost use Rattle.sheet_reader.specs.Positions.{position, position_of};
ghost use Rattle.sheet_reader.specs.Rereads.{HasBody, retold};
ghost use Rattle.sheet_reader.specs.Sealing.{is_sealed};

use crate::book::SheetEntry;
use crate::late::LateRules;
use crate::lists::{MediaRules, Places, Properties};
use crate::moves::Gap;
use crate::sheet::{Property, Sheet};
use crate::sheet_texts::SheetText;
use css_tokens::Range;
use node_tree::Origin;
use std::alloc::AllocError;
use std::marker::Model;

/// A sheet whose rules get new bodies one after the other, which contracts see as the sheet. Its text is edited in place,
/// and the rules behind the last new body are moved when they are asked for: bodies in the order of the text move each rule once.
#[derive(Drop)]
pub struct OpenSheet {
    id: u64,
    origin: Origin,
    text: SheetText,
    rules: LateRules,
    places: Places,
    media: MediaRules,
}

impl Model for OpenSheet {
    ghost use Rattle.sheet_reader.specs.declared.book.SheetEntry.{SheetEntry};
    ghost use Rattle.sheet_reader.specs.Books.{IsStored};
    ghost use Rattle.sheet_reader.specs.Opened.{reading_with, entry_with};

    ghost Value = { SheetEntry };

    ghost view = { λ o. entry_with o.id o.origin o.text (reading_with o.rules o.places o.media) };

    ghost invariant = { λ o. IsStored (entry_with o.id o.origin o.text (reading_with o.rules o.places o.media)) };
}

impl OpenSheet {
    /// The sheet, to be edited. Takes no memory.
    pub fn new(entry: SheetEntry) -> OpenSheet
        requires { IsEntry entry }
        ensures { result ≡ entry }
    {
        // Read for the proof alone: a text is UTF-8.
        let _text = entry.text.as_str();
        let SheetEntry {
            id,
            origin,
            text,
            reading,
        } = entry;
        let Sheet {
            rules,
            places,
            media,
        } = reading;
        OpenSheet {
            id,
            origin,
            text,
            rules: LateRules::new(rules),
            places,
            media,
        }
    }

    /// The sheet as it is now. Takes no memory.
    pub fn into_entry(self) -> SheetEntry
        ensures same { result ≡ self }
        ensures entry { IsEntry result }
    {
        let OpenSheet {
            id,
            origin,
            text,
            rules,
            places,
            media,
        } = self;
        SheetEntry {
            id,
            origin,
            text,
            reading: Sheet {
                rules: rules.into_rules(),
                places,
                media,
            },
        }
    }

    /// The sheet's id.
    pub fn id(&self) -> u64
        ensures { result ≡ self.now.id }
    {
        self.id
    }

    /// The text as it is now.
    pub fn as_str(&self) -> &str
        ensures text { result.now ≡ self.now.text }
        ensures stored { IsStored self.now }
    {
        self.text.as_str()
    }

    /// The byte of the text with this line and this column, as `SheetText::byte_at` finds it.
    pub fn byte_at(&self, line: u64, column: u64) -> Option<usize>
        ensures edge { IfSome result (λ byte. IsCharBoundary self.now.text byte) }
        ensures there { IfSome result (λ byte. position_of self.now.text byte ≡ position line column) }
        ensures no_place { IfNone result ((byte : ℕ) → IsCharBoundary self.now.text byte
            → position_of self.now.text byte ≡ position line column → ⊥) }
    {
        self.text.byte_at(line, column)
    }

    /// The number of the rule that has its body there, from 0.
    pub fn rule_with_body(&self, body: Range) -> Option<usize>
        ensures some { IfSome result (λ k. IsSomeAnd (slice_get self.now.reading.rules k) (HasBody body)) }
        ensures none { IfNone result (All (HasOther body) self.now.reading.rules) }
    {
        self.rules.number_of(body)
    }

    /// Makes the body of a rule a sealed text, which has these declarations. On an error the sheet is as it was.
    pub fn set_body(
        &mut self,
        rule: usize,
        body: Range,
        put: &str,
        properties: Vec<Property>,
    ) -> Result<(), AllocError>
        requires rule { IsSomeAnd (slice_get self.old.reading.rules rule) (HasBody body) }
        requires range { IsRangeOf self.old.text body }
        requires sealed { is_sealed put.now ≡ true }
        requires read { properties.items ≡ style_of put.now }
        requires short { length (replaced self.old.text body put.now) ≤ max_sheet_bytes }
        ensures set { OnOk result (self.new ≡ retold (replaced self.old.text body put.now) self.old) }
        ensures rule { OnOk result (IsSomeAnd (slice_get self.new.reading.rules rule)
            (HasBody (range body.start (body.start + length put.now)))) }
        ensures unchanged { OnErr result (self.new ≡ self.old) }
    {
        // Read for the proof alone: a text is UTF-8.
        let _old = self.text.as_str();
        self.text.replace(body, put)?;
        // Read for the proof alone: a text is UTF-8.
        let _new = self.text.as_str();
        let gap = Gap {
            start: body.start,
            end: body.end,
            size: put.len(),
        };
        self.rules.rebody(rule, gap, Properties::new(properties));
        self.places.move_behind(gap);
        self.media.move_behind(gap);
        Ok(())
    }
}
