//! The laws, each the contract of a function that does nothing.

ghost use Rattle.std.specs.Prelude.{◌≡◌, ◌⊎◌, ℕ, ◌+◌, false, true, List, ◌∷◌, ◌++◌, length, slice_index, Contains, Option, Some, None};
ghost use Rattle.css_tokens.specs.declared.token.Token.{Token};
ghost use Rattle.css_tokens.specs.declared.token.TokenKind.TheVariants.{Ident};
ghost use Rattle.css_tokens.specs.Pieces.{pieces};
ghost use Rattle.css_tokens.specs.Rows.{mark_kind};
ghost use Rattle.css_tokens.specs.Table.{Cuts};
ghost use Rattle.selectors.specs.Forms.{SelectorForm};
ghost use Rattle.selectors.specs.Words.{word_reading, words_after};
ghost use Rattle.selectors.specs.Grammar.{IsSelectorList};
ghost use Rattle.selectors.specs.Reading.{selector_list_of};
ghost use Rattle.sheet_reader.specs.declared.sheet.Property.{Property};
ghost use Rattle.sheet_reader.specs.declared.sheet.Sheet.{Sheet};
ghost use Rattle.sheet_reader.specs.Forms.{range, RuleForm};
ghost use Rattle.sheet_reader.specs.Layout.{level_of};
ghost use Rattle.sheet_reader.specs.Parts.{EndingForm, block, PartForm, qualified, parts};
ghost use Rattle.sheet_reader.specs.Declarations.{declaration_of, declarations, is_custom, style_of};
ghost use Rattle.sheet_reader.specs.Sheets.{rule_of, sheet_of};
ghost use Rattle.sheet_reader.specs.Solids.{AreBlank, StandBetween, is_character_kind};
ghost use Rattle.sheet_reader.specs.SelectorLists.{AreSelectorList};
ghost use Rattle.sheet_laws.specs.Values.{AreDeclarations, EndsImportant, IsDeclaration};
ghost use Rattle.sheet_laws.specs.Places.{AscendFrom, IsBetweenParts};
ghost use Rattle.sheet_laws.specs.Readings.{HasPrelude, IsReading, IsStyle, IsStyleRule};

/// A text is cut by the table of pieces in one way, which is the one that is computed; the pieces stand one behind the other
/// from its start to its end. A piece that is one character has the kind that the character gives: `:` is a colon, `!` a delim.
pub fn cut_law()
    ensures only { (text : List ℕ) (ts : List Token) → Cuts text 0 ts → ts ≡ pieces text }
    ensures ascend { (text : List ℕ) → StandBetween 0 (length text) (pieces text) }
    ensures characters { (text : List ℕ) (t : Token) → Contains (pieces text) t → is_character_kind t.kind ≡ true
        → (t.end ≡ t.start + 1) × (t.kind ≡ mark_kind (slice_index text t.start)) }
{}

/// Pieces of a text, wherever they stand in it, are a selector list by the grammar exactly where that list is read from them. So
/// each style rule of a sheet has a prelude that is its selector list, and a qualified rule whose prelude is none is no style rule.
/// Of all pieces of a text this says what `selectors` says of the text.
pub fn prelude_law()
    ensures read { (text : List ℕ) (ts : List Token) (ss : List SelectorForm) → AreSelectorList text ts ss
        → selector_list_of (word_reading text (words_after text false ts)) ≡ Some ss }
    ensures spelled { (text : List ℕ) (ts : List Token) (ss : List SelectorForm)
        → selector_list_of (word_reading text (words_after text false ts)) ≡ Some ss → AreSelectorList text ts ss }
    ensures rules { (text : List ℕ) (r : RuleForm) → Contains (sheet_of text).rules r → HasPrelude text r }
    ensures dropped { (text : List ℕ) (around : Option ℕ) (prelude : List Token) (ending : EndingForm)
        → ((ss : List SelectorForm) → AreSelectorList text prelude ss → ⊥) → rule_of text around (qualified prelude ending) ≡ None }
    ensures whole { (text : List ℕ) (ss : List SelectorForm) → IsSelectorList text ss → AreSelectorList text (pieces text) ss }
    ensures whole_only { (text : List ℕ) (ss : List SelectorForm) → AreSelectorList text (pieces text) ss → IsSelectorList text ss }
{}

/// What begins with an ident in a body is a declaration by the grammar exactly where it is read as that one. The declarations that
/// are read from a body are those of its items, in their order, and no others are. `!important` counts whatever stands before it, an
/// open bracket too, and a value without anything else is empty, which only a name that begins with `--` may have.
pub fn declaration_law()
    ensures read { (text : List ℕ) (ts : List Token) (p : Property) → IsDeclaration text ts p → declaration_of text ts ≡ Some p }
    ensures declared { (text : List ℕ) (t : Token) (ts : List Token) (p : Property) → t.kind ≡ Ident
        → declaration_of text (t ∷ ts) ≡ Some p → IsDeclaration text (t ∷ ts) p }
    ensures body { (text : List ℕ) (body : List Token) → AreDeclarations text body (declarations text body) }
    ensures body_only { (text : List ℕ) (body : List Token) (ps : List Property) → AreDeclarations text body ps
        → ps ≡ declarations text body }
    ensures style { (text : List ℕ) → IsStyle text (style_of text) }
    ensures style_only { (text : List ℕ) (ps : List Property) → IsStyle text ps → ps ≡ style_of text }
    ensures important { (text : List ℕ) (front value plain : List Token) → EndsImportant text value plain
        → EndsImportant text (front ++ value) (front ++ plain) }
    ensures empty { (text : List ℕ) (ts : List Token) (p : Property) (d : IsDeclaration text ts p) → AreBlank d.plain
        → (is_custom p.name ≡ true) × (p.value ≡ range d.colon.end d.colon.end) }
{}

/// The places of a sheet for a rule are 0 and the ends of its whole parts, and they ascend. The end of a qualified rule with its `}`
/// is one, whether it is a style rule or is dropped.
pub fn place_law()
    ensures places { (text : List ℕ) (place : ℕ) → Contains (sheet_of text).places place
        → (place ≡ 0) ⊎ IsBetweenParts text (parts (level_of None) (pieces text)) place }
    ensures each { (text : List ℕ) (place : ℕ) → IsBetweenParts text (parts (level_of None) (pieces text)) place
        → Contains (sheet_of text).places place }
    ensures ascend { (text : List ℕ) → (places : List ℕ) × ((sheet_of text).places ≡ 0 ∷ places) × AscendFrom 0 places }
    ensures closed_rule { (text : List ℕ) (prelude inside : List Token) (brace close : Token)
        → Contains (parts (level_of None) (pieces text)) (qualified prelude (block brace inside (Some close)))
        → Contains (sheet_of text).places close.end }
{}

/// A qualified rule is read as a style rule exactly where it is one by the grammars of selectors and declarations. Each text says
/// one sheet, which is the one that is read.
pub fn reading_law()
    ensures rule { (text : List ℕ) (around : Option ℕ) (p : PartForm) (r : RuleForm) → rule_of text around p ≡ Some r
        → IsStyleRule text around p r }
    ensures rule_only { (text : List ℕ) (around : Option ℕ) (p : PartForm) (r : RuleForm) → IsStyleRule text around p r
        → rule_of text around p ≡ Some r }
    ensures sheet { (text : List ℕ) → IsReading text (sheet_of text) }
    ensures sheet_only { (text : List ℕ) (s : Sheet) → IsReading text s → s ≡ sheet_of text }
{}
