//! Laws of the definitions.

ghost use Rattle.std.specs.Prelude.{◌≡◌, ◌↔◌, ℕ, true, false, List, map, length, Some, slice_get, flat_map};
ghost use Rattle.std.specs.List.Sorted.{IsStrictlySortedBy};
ghost use Rattle.page_tree.specs.Zippers.{Zipper};
ghost use Rattle.sheet_reader.specs.declared.book.SheetEntry.{SheetEntry};
ghost use Rattle.media_rules.specs.declared.medium.Medium.{Medium};
ghost use Rattle.page_tree.specs.Members.{IsIn};
ghost use Rattle.selectors.specs.Forms.{SelectorForm};
ghost use Rattle.sheet_reader.specs.Forms.{RuleForm};
ghost use Rattle.sheet_reader.specs.Filings.{Filing, filing, rule_digest};
ghost use Rattle.select_match.specs.Matches.{selector_matches, list_matches};
ghost use Rattle.cascade_match.specs.ElementNames.{has_filing, element_digests, may_match};
ghost use Rattle.cascade_match.specs.declared.keys.Key.{Key};
ghost use Rattle.cascade_match.specs.declared.hits.Hit.{Hit};
ghost use Rattle.cascade_match.specs.Precedence.{key_cmp};
ghost use Rattle.cascade_match.specs.Matched.{places_matching, matched_entries};
ghost use Rattle.cascade_match.specs.Standing.{PlacedRule, Applies, standing};
ghost use Rattle.cascade_match.specs.declared.blocks.Block.{Block};
ghost use Rattle.cascade_match.specs.Winning.{wins};
ghost use Rattle.cascade_match.specs.WinnerPlaces.{PlacedDecl, IsDeclared, IsGreatest, number_of, IsWinner};

/// The matched rules ascend strictly by their keys, so none stands twice.
pub fn order_law()
    ensures { (m : Medium) (book : List SheetEntry) (z : Zipper) → IsStrictlySortedBy key_cmp (map (λ e. e.0) (matched_entries m book z)) }
{}

/// What stands in the matched list is what stands for the rules that apply to the node in the medium, some selector matching and
/// every media rule around them holding: each of them, and nothing else.
pub fn standing_law()
    ensures each { (m : Medium) (book : List SheetEntry) (z : Zipper) (p : PlacedRule) → Applies m book z p
        → IsIn (standing p z) (matched_entries m book z) }
    ensures only { (m : Medium) (book : List SheetEntry) (z : Zipper) (e : Key × Hit) → IsIn e (matched_entries m book z)
        → (p : PlacedRule) × Applies m book z p × (e ≡ standing p z) }
{}

/// The places of the selectors that match are those of just these selectors.
pub fn places_law()
    ensures each { (ss : List SelectorForm) (z : Zipper) (i : ℕ) (s : SelectorForm) → slice_get ss i ≡ Some s → selector_matches s z ≡ true
        → IsIn i (places_matching ss z) }
    ensures only { (ss : List SelectorForm) (z : Zipper) (i : ℕ) → IsIn i (places_matching ss z)
        → (s : SelectorForm) × (slice_get ss i ≡ Some s) × (selector_matches s z ≡ true) }
{}

/// An element that a selector matches has what the selector is filed under; and where a rule has no number that is one of the
/// element's, no selector of it matches.
pub fn filing_law()
    ensures has { (s : SelectorForm) (f : Filing) (z : Zipper) → filing s ≡ Some f → selector_matches s z ≡ true → has_filing f z ≡ true }
    ensures only { (r : RuleForm) (z : Zipper) → may_match (rule_digest r) (element_digests z) ≡ false
        → list_matches r.selectors z ≡ false }
{}

/// A declaration wins exactly where it is the greatest of all declarations of its name in all blocks, by rank, then by block,
/// then by its place in the block. Each name that is declared has a winner, and no two.
pub fn winner_law()
    ensures greatest { (blocks : List Block) (d : PlacedDecl) → IsDeclared blocks d
        → (slice_get (wins blocks) (number_of blocks d) ≡ Some true) ↔ IsGreatest blocks d }
    ensures some { (blocks : List Block) (d : PlacedDecl) → IsDeclared blocks d → (w : PlacedDecl) × IsWinner blocks w × (w.name ≡ d.name) }
    ensures one { (blocks : List Block) (d e : PlacedDecl) → IsWinner blocks d → IsWinner blocks e → d.name ≡ e.name → d ≡ e }
    ensures all { (blocks : List Block) → length (wins blocks) ≡ length (flat_map (λ b. b.declarations) blocks) }
{}
