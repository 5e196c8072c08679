//! The law of a rule that is put in between the parts of a sheet.

ghost use Rattle.std.specs.Prelude.{◌≡◌, ℕ, List, length, Contains};
ghost use Rattle.sheet_reader.specs.Forms.{range};
ghost use Rattle.sheet_reader.specs.Moves.{replaced};
ghost use Rattle.sheet_reader.specs.Sheets.{sheet_of};
ghost use Rattle.sheet_laws.specs.Inserted.{inserted, IsOneRule};

/// Where a rule is put in at a place of a sheet, the reading of the new text is the old reading with what the rule says by itself
/// at that place, and with all that starts behind it moved by the rule's length. So it is whatever stands before the place: the
/// beginning of the text, a `}`, a `;`, white space, a comment with its `*/`, `<!--` or `-->`; and whatever stands behind it.
pub fn inserted_law()
    ensures inserted { (text put : List ℕ) (x : ℕ) → Contains (sheet_of text).places x → IsOneRule put
        → sheet_of (replaced text (range x x) put) ≡ inserted (sheet_of text) x (sheet_of put) (length put) }
{}
