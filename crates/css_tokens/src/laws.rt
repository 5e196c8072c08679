//! Laws of the definitions: the table of pieces in its own words.

ghost use Rattle.std.specs.Prelude.{true, ◌∷◌, ◌++◌, length, ◌≡◌, ℕ, List, [], Some, None};
ghost use Rattle.css_tokens.specs.declared.token.Piece.{Piece};
ghost use Rattle.css_tokens.specs.Rows.{first_piece};
ghost use Rattle.css_tokens.specs.declared.token.Token.{Token};
ghost use Rattle.css_tokens.specs.Pieces.{pieces, pieces_after};
ghost use Rattle.css_tokens.specs.Seams.{is_stop, IsWholeBefore};
ghost use Rattle.css_tokens.specs.Table.{PieceRow, FormOf, row_of, GivesLongest, IsFirstPiece, Cuts};

/// Each row's function gives the longest piece of the row's form. The piece of a text is that of the first row that has
/// one, and each text but the empty one has one. So the pieces of a text are what the table says, place by place.
pub fn table_law()
    ensures rows { (row : PieceRow) → GivesLongest (FormOf row) (row_of row) }
    ensures first { (text : List ℕ) (p : Piece) → first_piece text ≡ Some p → IsFirstPiece text p }
    ensures always { (text : List ℕ) → first_piece text ≡ None → text ≡ [] }
    ensures cuts { (text : List ℕ) → Cuts text 0 (pieces text) }
{}

/// Cutting is local before `{`, `}` and `;`: where a text is a whole number of pieces before such a character, these stay
/// the same pieces whatever stands behind that character. And a text of whole pieces and what follows it are cut apart.
pub fn seam_law()
    ensures stays { (c : ℕ) → is_stop c ≡ true → (rest other front : List ℕ) (ts : List Token) → IsWholeBefore (c ∷ rest) 0 front ts
        → IsWholeBefore (c ∷ other) 0 front ts }
    ensures apart { (after front : List ℕ) (ts : List Token) → IsWholeBefore after 0 front ts
        → pieces (front ++ after) ≡ ts ++ pieces_after (length front) 0 after }
{}
