//! Which style rules edits made.

ghost use Rattle.std.specs.Prelude.{◌≡◌, nat_lt, map};
ghost use Rattle.std.specs.List.{prefix_len};
ghost use Rattle.sheet_reader.specs.Books.{IsEntry};
ghost use Rattle.sheet_reader.specs.Sheets.{sheet_of};
ghost use Rattle.style_edits.specs.Drafts.{AreInOrder};
ghost use Rattle.style_edits.specs.EditedRules.{rules_before, edited_rule};

use crate::splice::Splice;
use sheet_reader::{SheetBook, SheetEntry, StyleRule};

/// A style rule of a book.
#[derive(Clone, Copy)]
pub struct RulePlace {
    /// The sheet's id.
    pub sheet: u64,
    /// Its place among the style rules of the sheet, from 0.
    pub rule: usize,
}

/// How many of the rules have a body that starts before the byte. Bodies stand one behind the other, so it is sought by halves.
fn rules_among(rules: &[StyleRule], byte: usize) -> usize
    requires { AreInOrder 0 (map (λ r. r.body) rules.now) }
    ensures { result ≡ prefix_len (λ r. nat_lt r.body.start byte) rules.now }
{
    rules.partition_point(|rule| rule.body.start < byte)
}

/// How many style rules of the sheet have a body that starts before the byte.
fn rules_before(entry: &SheetEntry, byte: usize) -> usize
    requires { IsEntry entry.now }
    ensures { result ≡ rules_before (sheet_of entry.now.text).rules byte }
{
    // Read for the proof alone: a text is UTF-8.
    let _text = entry.text.as_str();
    rules_among(entry.reading.rules.as_slice(), byte)
}

/// The style rule that a client's edit made, by the splice that the edit answered, in the book that it left: for a new body or
/// prelude the rule that has it, and a rule that was added.
pub fn edited_rule(book: &SheetBook, back: &Splice) -> RulePlace
    ensures { result ≡ edited_rule book.now back.now }
{
    let rule = match book.get(back.sheet) {
        Some(entry) => rules_before(entry, back.start),
        None => 0,
    };
    RulePlace {
        sheet: back.sheet,
        rule,
    }
}
