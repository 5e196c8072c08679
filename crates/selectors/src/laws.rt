//! Laws of the definitions: selector lists in the words of their grammar.

ghost use Rattle.std.specs.Prelude.{◌≡◌, ℕ, ℤ, List, Some, length};
ghost use Rattle.std.specs.Str.{IsUtf8};
ghost use Rattle.css_tokens.specs.Pieces.{pieces};
ghost use Rattle.selectors.specs.Forms.{SelectorForm};
ghost use Rattle.selectors.specs.Reading.{selectors_of};
ghost use Rattle.selectors.specs.Grammar.{IsSelectorList};
ghost use Rattle.selectors.specs.Nth.{nth_of};
ghost use Rattle.selectors.specs.NthGrammar.{IsNth};
ghost use Rattle.selectors.specs.Ranges.{AreTiles, AreBetween, ranges_of};

/// A text spells a selector list by the grammar exactly where that list is read from it. So it spells one at most, and
/// one from which none is read spells none.
pub fn grammar_law()
    ensures read { (text : List ℕ) (ss : List SelectorForm) → IsSelectorList text ss → selectors_of text ≡ Some ss }
    ensures spelled { (text : List ℕ) (ss : List SelectorForm) → selectors_of text ≡ Some ss → IsSelectorList text ss }
{}

/// A text says a step and an offset by the grammar of an+b exactly where these two are read from it. So it says one pair
/// at most, and one from which none is read says none.
pub fn nth_law()
    ensures read { (text : List ℕ) (a b : ℤ) → IsNth text a b → nth_of text ≡ Some (a, b) }
    ensures spelled { (text : List ℕ) (a b : ℤ) → nth_of text ≡ Some (a, b) → IsNth text a b }
{}

/// Ranges can be used: the pieces of a text leave nothing of it out, and the selectors of a list that it spells stand in it
/// one behind the other; and the text can be cut where each of them begins and ends.
pub fn usable_law()
    ensures pieces { (text : List ℕ) → IsUtf8 text → AreTiles text 0 (length text) (pieces text) }
    ensures selectors { (text : List ℕ) (ss : List SelectorForm) → IsUtf8 text → selectors_of text ≡ Some ss
        → AreBetween text 0 (length text) (ranges_of ss) }
{}
