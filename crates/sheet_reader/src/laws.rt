//! Laws of the definitions: sheets and bodies in the words of their grammar.

ghost use Rattle.std.specs.Prelude.{◌≡◌, ◌<◌, ◌≤◌, ◌+◌, ◌++◌, ◌∷◌, [], ℕ, Bool, true, false, List, length, take, slice_get, Option, Some};
ghost use Rattle.std.specs.Prelude.{None};
ghost use Rattle.node_tree.specs.Numbers.{number_limit};
ghost use Rattle.css_tokens.specs.declared.token.Token.{Token};
ghost use Rattle.sheet_reader.specs.declared.parts.Level.{Level};
ghost use Rattle.sheet_reader.specs.declared.parts.Level.TheVariants.{Top, Inner};
ghost use Rattle.sheet_reader.specs.Parts.{PartForm, block, parts};
ghost use Rattle.sheet_reader.specs.Layout.{AreLaid, Laid, laid_out};
ghost use Rattle.css_tokens.specs.Pieces.{pieces};
ghost use Rattle.sheet_reader.specs.Declarations.{ItemForm, items_after, style_of};
ghost use Rattle.sheet_reader.specs.Grammar.{AreParts, IsEnding, AreShut, AreItems, AreNested};
ghost use Rattle.sheet_reader.specs.Brackets.{nesting, until};
ghost use Rattle.sheet_reader.specs.declared.brackets.Stop.{Stop};
ghost use Rattle.css_tokens.specs.declared.token.TokenKind.TheVariants.{OpenCurly};
ghost use Rattle.sheet_reader.specs.declared.brackets.Nesting.TheVariants.{Closed};
ghost use Rattle.sheet_reader.specs.Positions.{units_at, units_of, position_of};
ghost use Rattle.std.specs.Char.{encode_utf8};
ghost use Rattle.std.specs.List.{sum_by};
ghost use Rattle.std.specs.Str.{IsUtf8, IsCharBoundary};
ghost use Rattle.sheet_reader.specs.Sheets.{sheet_of};
ghost use Rattle.sheet_reader.specs.Forms.{range, RuleForm};
ghost use Rattle.sheet_reader.specs.Preludes.{HasPreludeIn, KeepsMedia, spaces_at};
ghost use Rattle.selectors.specs.Forms.{SelectorForm};
ghost use Rattle.selectors.specs.Reading.{selectors_of};
ghost use Rattle.sheet_reader.specs.Sealing.{is_sealed, is_sealed_prelude};
ghost use Rattle.sheet_reader.specs.Moves.{moved_sheet, replaced, CanMoveBody};
ghost use Rattle.sheet_reader.specs.Around.{AreThere, AreBelow, IsBelow, AllHold, held, held_at};
ghost use Rattle.sheet_reader.specs.declared.sheet.MediaRule.{MediaRule};
ghost use Rattle.sheet_reader.specs.Joins.{is_shut_text, joined};
ghost use Rattle.sheet_reader.specs.Repairs.{IsShutPlace};
ghost use Rattle.sheet_reader.specs.Usable.{IsSheetOf, AreDeclarationsOf};

/// Pieces are cut into the parts of a sheet, and into the items of a body, as the grammar of CSS Syntax 3, section 5, has it, and
/// in no other way: each part or item has its form, and the whole is one behind the other.
pub fn grammar_law()
    ensures parts { (level : Level) (ts : List Token) → AreParts level (parts level ts) ts }
    ensures parts_only { (level : Level) (ps : List PartForm) (ts : List Token) → AreParts level ps ts → ps ≡ parts level ts }
    ensures laid { (text : List ℕ) → AreLaid text None 0 (parts Top (pieces text)) (laid_out text None 0 (pieces text)) }
    ensures laid_only { (text : List ℕ) (ls : List Laid) → AreLaid text None 0 (parts Top (pieces text)) ls
        → ls ≡ laid_out text None 0 (pieces text) }
    ensures shut { (first close : Token) (inside rest : List Token) → IsEnding (block first inside (Some close)) rest
        → AreShut (parts Inner inside) }
    ensures items { (ts : List Token) → AreItems (items_after 0 ts) ts }
    ensures items_only { (xs : List ItemForm) (ts : List Token) → AreItems xs ts → xs ≡ items_after 0 ts }
{}

/// Brackets are counted as closed exactly where they nest properly, each with its own.
pub fn nesting_law()
    ensures closed { (ts : List Token) → nesting ts ≡ Closed → AreNested ts }
    ensures nested { (ts : List Token) → AreNested ts → nesting ts ≡ Closed }
    ensures exchanged { (stop : Stop) (xs old new ys : List Token) (first : Token) → first.kind ≡ OpenCurly → AreNested old → AreNested new
        → length (xs ++ first ∷ []) ≤ until stop ((xs ++ first ∷ []) ++ (old ++ ys))
        → until stop ((xs ++ first ∷ []) ++ (new ++ ys)) + length old ≡ until stop ((xs ++ first ∷ []) ++ (old ++ ys)) + length new }
{}

/// Each character counts the UTF-16 units that it has, whatever its bytes; and no two edges of characters in a text have one
/// position, so `byte_at` answers the byte whose `position` it is asked for.
pub fn position_law()
    ensures units { (c : ℕ) → sum_by units_at (encode_utf8 c) ≡ units_of c }
    ensures one_place { (text : List ℕ) (b k : ℕ) → IsCharBoundary text b → IsCharBoundary text k → position_of text b ≡ position_of text k
        → b ≡ k }
{}

/// Ranges can be used: in the reading of a text, as a sheet and as a body, each range begins and ends where the text can be cut
/// and stands in the one that it belongs to, behind the one before it; and the places of a sheet ascend. So it is for each entry
/// of a book, whose reading is that of its text.
pub fn usable_law()
    ensures sheet { (text : List ℕ) → IsUtf8 text → IsSheetOf text (sheet_of text) }
    ensures style { (text : List ℕ) → IsUtf8 text → AreDeclarationsOf text 0 (length text) (style_of text) }
{}

/// Media rules are judged one after the other, each with what was said of the one around it: what is said of a place is that every
/// media rule from there outwards holds.
pub fn around_law()
    ensures there { (text : List ℕ) → AreThere (sheet_of text) }
    ensures held { (holds : MediaRule → Bool) (ms : List MediaRule) (around : Option ℕ) → AreBelow 0 ms → IsBelow (length ms) around
        → (held_at (held holds ms) around ≡ true → AllHold holds ms around)
        × (AllHold holds ms around → held_at (held holds ms) around ≡ true) }
{}

/// Where the body of a rule is replaced by a sealed text, the reading of the new text is the old reading with its places moved, and
/// with the declarations of the sealed text in that rule. So it is for a last rule that has no `}` too, and inside media rules.
/// Every reading may be moved so: nothing but a rule's own declarations stands inside its body.
pub fn moved_law()
    ensures moved { (text put : List ℕ) (k : ℕ) (r : RuleForm) → slice_get (sheet_of text).rules k ≡ Some r → is_sealed put ≡ true
        → sheet_of (replaced text r.body put) ≡ moved_sheet (sheet_of text) k (style_of put) (length put) }
    ensures can_move { (text put : List ℕ) (k : ℕ) (r : RuleForm) → slice_get (sheet_of text).rules k ≡ Some r
        → length text + length put < number_limit → CanMoveBody (sheet_of text) k (style_of put) (length put) r }
{}

/// Where a text ends with a rule, and has its `}`, what stands behind it is read as it is alone: the reading of both is that of the
/// first, and behind it that of the second. So ends the text up to each of its places that has a `}` before it; and up to the `}` of
/// each of its style rules at top level, where it has the rules up to that one.
pub fn joined_law()
    ensures joined { (text other : List ℕ) → is_shut_text text ≡ true
        → sheet_of (text ++ other) ≡ joined (length text) (sheet_of text) (sheet_of other) }
    ensures closes { (text : List ℕ) (place : ℕ) → IsShutPlace text (sheet_of text).places place → is_shut_text (take place text) ≡ true }
    ensures ends { (text : List ℕ) (k : ℕ) (r : RuleForm) → slice_get (sheet_of text).rules k ≡ Some r → r.media ≡ None
        → r.body.end < length text → is_shut_text (take (r.body.end + 1) text) ≡ true }
    ensures rules { (text : List ℕ) (k : ℕ) (r : RuleForm) → slice_get (sheet_of text).rules k ≡ Some r → r.media ≡ None
        → r.body.end < length text → length (sheet_of (take (r.body.end + 1) text)).rules ≡ k + 1 }
{}

/// Where the prelude of a style rule is replaced by a sealed text that is a selector list, there is a rule with the new prelude: the
/// first one whose body does not start before the new text, and its prelude starts in that text. And where that of a media rule is
/// replaced by a sealed text with no `{` or `;` outside brackets, behind the spaces that it needs behind a keyword, the media rule with
/// its number is the last one whose prelude does not start behind the new text. So it is inside media rules too. (A text that ends in a
/// CR may stand before an LF: the two are one newline, and where they end an escape, the new prelude ends behind the new text.)
pub fn prelude_law()
    ensures rule { (text put : List ℕ) (k : ℕ) (r : RuleForm) (ss : List SelectorForm) → slice_get (sheet_of text).rules k ≡ Some r
        → is_sealed put ≡ true → selectors_of put ≡ Some ss → IsUtf8 (replaced text r.prelude put)
        → HasPreludeIn (range r.prelude.start (r.prelude.start + length put)) (sheet_of (replaced text r.prelude put)).rules }
    ensures media { (text put : List ℕ) (k : ℕ) (m : MediaRule) → slice_get (sheet_of text).media k ≡ Some m
        → is_sealed_prelude put ≡ true → IsUtf8 (replaced text m.prelude (spaces_at text m.prelude.start ++ put))
        → KeepsMedia k (m.prelude.start + length (spaces_at text m.prelude.start ++ put))
        (sheet_of (replaced text m.prelude (spaces_at text m.prelude.start ++ put))).media }
{}
