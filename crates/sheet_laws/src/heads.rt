//! The laws of new preludes: a selector list in the place of a rule's, and the prelude of a media rule in the place of its own.

ghost use Rattle.std.specs.Prelude.{◌≡◌, ℕ, ◌+◌, ◌++◌, false, true, List, length, slice_get, Some, None};
ghost use Rattle.css_tokens.specs.declared.token.Range.{Range};
ghost use Rattle.selectors.specs.Forms.{SelectorForm};
ghost use Rattle.selectors.specs.Moves.{placed_range};
ghost use Rattle.selectors.specs.Reading.{range_of, selectors_of};
ghost use Rattle.selectors.specs.Words.{words_of};
ghost use Rattle.sheet_reader.specs.declared.sheet.MediaRule.{MediaRule};
ghost use Rattle.sheet_reader.specs.Forms.{range, RuleForm};
ghost use Rattle.sheet_reader.specs.Moves.{replaced};
ghost use Rattle.sheet_reader.specs.Preludes.{spaces_at};
ghost use Rattle.sheet_reader.specs.Sealing.{is_sealed, is_sealed_prelude};
ghost use Rattle.sheet_reader.specs.Sheets.{sheet_of};
ghost use Rattle.sheet_laws.specs.Heads.{starts_solid, ends_in_return, moved_head, moved_media};
ghost use Rattle.sheet_laws.specs.Keywords.{new_keyword_end};

/// Where the selector list of a rule is replaced by a sealed text that is one, begins with neither white space nor a comment and does
/// not end in a CR, the reading of the new text is the old reading with its places moved, and with the selectors of the new text in
/// that rule. So it is for a last rule that has no `}` too, and inside media rules.
pub fn head_law()
    ensures moved { (text put : List ℕ) (k : ℕ) (r : RuleForm) (head : Range) (ss : List SelectorForm)
        → slice_get (sheet_of text).rules k ≡ Some r → is_sealed put ≡ true → starts_solid put ≡ true → ends_in_return put ≡ false
        → range_of (words_of put) ≡ Some head → selectors_of put ≡ Some ss
        → sheet_of (replaced text r.prelude put) ≡ moved_head (sheet_of text) k head ss (length put) }
{}

/// Where the prelude of a media rule is replaced by a sealed text with no `{` or `;` outside brackets that does not end in a CR, behind
/// the spaces that it needs behind a keyword, the reading of the new text is the old reading with its places moved, and with the new
/// prelude: the range of its words, or where it has none the empty one behind the keyword. So it is inside media rules too.
pub fn media_head_law()
    ensures words { (text put : List ℕ) (k : ℕ) (m : MediaRule) (head : Range) → slice_get (sheet_of text).media k ≡ Some m
        → is_sealed_prelude put ≡ true → ends_in_return put ≡ false → range_of (words_of put) ≡ Some head
        → sheet_of (replaced text m.prelude (spaces_at text m.prelude.start ++ put))
        ≡ moved_media (sheet_of text) k (placed_range (λ place. m.prelude.start + length (spaces_at text m.prelude.start) + place) head)
        (length (spaces_at text m.prelude.start ++ put)) }
    ensures no_words { (text put : List ℕ) (k : ℕ) (m : MediaRule) → slice_get (sheet_of text).media k ≡ Some m
        → is_sealed_prelude put ≡ true → ends_in_return put ≡ false → range_of (words_of put) ≡ None
        → sheet_of (replaced text m.prelude (spaces_at text m.prelude.start ++ put))
        ≡ moved_media (sheet_of text) k (range (new_keyword_end text m.prelude.start) (new_keyword_end text m.prelude.start))
        (length (spaces_at text m.prelude.start ++ put)) }
{}
