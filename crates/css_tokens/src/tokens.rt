//! A text cut into its pieces, one after the other.

ghost use Rattle.std.specs.Prelude.{◌≡◌, [], ◌∷◌, MatchOption, IfSome, IfOk, All};
ghost use Rattle.css_tokens.specs.Pieces.{pieces, IsCutAt};
ghost use Rattle.css_tokens.specs.Marks.{HasMarks, IsCutInside, IsPieceOf};

use crate::rows::first_piece;
use crate::token::Token;
use std::alloc::{AllocError, Global};
use std::marker::Model;

/// The pieces of a text, from the left. Takes no memory.
#[derive(Drop)]
pub struct Tokens<'a> {
    text: &'a str,
    place: usize,
}

impl<'a> Model for Tokens<'a> {
    ghost use Rattle.std.specs.Str.{IsCharBoundary};
    ghost use Rattle.css_tokens.specs.Pieces.{Reading, reading_at};

    ghost Value = { Reading };

    ghost view = { λ t. reading_at t.text.now t.place };

    ghost invariant = { λ t. IsCharBoundary t.text.now t.place };
}

impl<'a> Tokens<'a> {
    /// The pieces of the text, from its start.
    pub fn new(text: &'a str) -> Tokens<'a>
        ensures whole { result.text ≡ text.now }
        ensures left { result.left ≡ pieces text.now }
    {
        Tokens { text, place: 0 }
    }

    /// The next piece, and none once the text is cut up to its end.
    pub fn next(&mut self) -> Option<Token>
        ensures same_text { self.new.text ≡ self.old.text }
        ensures first { MatchOption result ((self.old.left ≡ []) × (self.new.left ≡ [])) (λ t. self.old.left ≡ t ∷ self.new.left) }
        ensures cut { IfSome result (IsCutAt self.old.text) }
        ensures marks { IfSome result (λ t. HasMarks t.kind self.old.text t.start t.end) }
        ensures inside { IfSome result (λ t. IsCutInside t.kind self.old.text t.start t.end) }
    {
        let rest = &self.text.as_bytes()[self.place..];
        let Some(piece) = first_piece(rest) else {
            return None;
        };
        let start = self.place;
        self.place = start + piece.len;
        Some(Token {
            kind: piece.kind,
            start,
            end: self.place,
        })
    }
}

/// All pieces of a text, in order.
pub fn all_tokens(alloc: Global, text: &str) -> Result<Vec<Token>, AllocError>
    ensures pieces { IfOk result (λ v. v.items ≡ pieces text.now) }
    ensures each { IfOk result (λ v. All (IsPieceOf text.now) v.items) }
{
    let mut all = Vec::new(alloc);
    let mut tokens = Tokens::new(text);
    while let Some(token) = tokens.next() {
        all.push(token)?;
    }
    Ok(all)
}
