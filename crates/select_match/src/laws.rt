//! Laws of the definitions.

ghost use Rattle.std.specs.Prelude.{◌≡◌, ℕ, ℤ, pos, ◌+ℤ◌, ◌*ℤ◌, true, false, not, List, []};
ghost use Rattle.std.specs.Char.{is_ascii_whitespace};
ghost use Rattle.std.specs.List.{list_any};
ghost use Rattle.page_tree.specs.Zippers.{Zipper};
ghost use Rattle.selectors.specs.declared.selector.AttrOp.TheVariants as operators;
ghost use Rattle.selectors.specs.Forms.{TestForm, is, is_not, never};
ghost use Rattle.select_match.specs.Texts.{compares};
ghost use Rattle.select_match.specs.Elements.{is_nth};
ghost use Rattle.select_match.specs.Matches.{simple_holds};

/// A place is reached exactly where it is `a * n + b` for some whole n from 0 on (Selectors 3, section 6.6.5.1).
pub fn nth_law()
    ensures reached { (a b : ℤ) (i : ℕ) → is_nth a b i ≡ true → (n : ℕ) × (pos i ≡ (a *ℤ pos n) +ℤ b) }
    ensures all { (a b : ℤ) (i n : ℕ) → pos i ≡ (a *ℤ pos n) +ℤ b → is_nth a b i ≡ true }
{}

/// `:not` holds exactly where its argument does not, so where that is a pseudo-class that no element meets it holds everywhere.
pub fn not_law()
    ensures not { (t : TestForm) (z : Zipper) → simple_holds (is_not t) z ≡ not (simple_holds (is t) z) }
    ensures never { (z : Zipper) → simple_holds (is_not never) z ≡ true }
{}

/// An empty operand is no word, prefix, suffix or part of any value, and one with white space is no word (Selectors 3, sections
/// 6.3.1 and 6.3.2).
pub fn operand_law()
    ensures word { (value : List ℕ) → compares operators.Word [] value ≡ false }
    ensures spaced { (operand value : List ℕ) → list_any is_ascii_whitespace operand ≡ true
        → compares operators.Word operand value ≡ false }
    ensures prefix { (value : List ℕ) → compares operators.Prefix [] value ≡ false }
    ensures suffix { (value : List ℕ) → compares operators.Suffix [] value ≡ false }
    ensures part { (value : List ℕ) → compares operators.Part [] value ≡ false }
{}
