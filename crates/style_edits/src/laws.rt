//! Laws of the definitions: edits, and the splices that lead back.

ghost use Rattle.std.specs.Prelude.{◌≡◌, ℕ, List, All};
ghost use Rattle.std.specs.Str.{IsUtf8};
ghost use Rattle.sheet_reader.specs.declared.book.SheetEntry.{SheetEntry};
ghost use Rattle.style_edits.specs.declared.edits.StyleEdit.{StyleEdit};
ghost use Rattle.style_edits.specs.declared.lines.LineRange.{LineRange};
ghost use Rattle.style_edits.specs.declared.splice.Splice.{Splice};
ghost use Rattle.style_edits.specs.Splices.{TakesSplice, FitsSplice, after_splice, back_splice};
ghost use Rattle.style_edits.specs.Edits.{HasText, FindsSplices, LeadBack, style_splice, selector_splice, text_splice, rule_splice};
ghost use Rattle.style_edits.specs.MediaEdits.{media_splice, MakesMedia};
ghost use Rattle.style_edits.specs.EditedRules.{EachMakes, MakesBody, MakesPrelude, MakesRule, AllStay};

/// A splice that can be made in a book can be taken back: the splice that leads back can be made in the book that it leaves,
/// leads to the book before it, and is itself taken back by the splice again.
pub fn splice_law()
    ensures fits { (s : Splice) (book : List SheetEntry) → TakesSplice s book → FitsSplice s book }
    ensures takes_back { (s : Splice) (book : List SheetEntry) → TakesSplice s book
        → TakesSplice (back_splice s book) (after_splice s book) }
    ensures leads_back { (s : Splice) (book : List SheetEntry) → TakesSplice s book
        → after_splice (back_splice s book) (after_splice s book) ≡ book }
    ensures back_back { (s : Splice) (book : List SheetEntry) → TakesSplice s book
        → back_splice (back_splice s book) (after_splice s book) ≡ s }
{}

/// The splice of an edit that has no fault can be made in the book. And where edits are made one after the other, the splices
/// that they answer lead back to the book before them, the last one first.
pub fn edits_law()
    ensures style { (x : StyleEdit) → IsUtf8 x.text → FindsSplices (style_splice x) }
    ensures selector { (id : ℕ) (lines : LineRange) (text : List ℕ) → IsUtf8 text → FindsSplices (selector_splice id lines text) }
    ensures text { (id : ℕ) (text : List ℕ) → IsUtf8 text → FindsSplices (text_splice id text) }
    ensures rule { (id : ℕ) (lines : LineRange) (text : List ℕ) → IsUtf8 text → FindsSplices (rule_splice id lines text) }
    ensures media { (id : ℕ) (lines : LineRange) (text : List ℕ) → IsUtf8 text → FindsSplices (media_splice id lines text) }
    ensures lead_back { (xs : List StyleEdit) → All HasText xs → LeadBack xs }
{}

/// The style rule that an edit made is there. `edited_rule` answers, for a new body, the place of the rule whose body is the edit's
/// text, no more and no less; for a new prelude, that of a rule whose prelude starts in the edit's text; and for a rule that was added,
/// that of one that stands in the edit's text. And where bodies are edited one after the other, each such rule is at its place after all
/// the edits. After an edit of a media rule's prelude `edited_media` answers the number that this media rule had, and there is a media
/// rule with that number.
pub fn rules_law()
    ensures style { (x : StyleEdit) → IsUtf8 x.text → EachMakes MakesBody (style_splice x) }
    ensures selector { (id : ℕ) (lines : LineRange) (text : List ℕ) → IsUtf8 text
        → EachMakes MakesPrelude (selector_splice id lines text) }
    ensures rule { (id : ℕ) (lines : LineRange) (text : List ℕ) → IsUtf8 text → EachMakes MakesRule (rule_splice id lines text) }
    ensures media { (id : ℕ) (lines : LineRange) (text : List ℕ) → IsUtf8 text → EachMakes MakesMedia (media_splice id lines text) }
    ensures styles { (xs : List StyleEdit) → All HasText xs → AllStay xs }
{}
