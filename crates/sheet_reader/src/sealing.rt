//! Sealed texts: those that may be put into a body, or between rules, and change nothing of what follows.

ghost use Rattle.std.specs.Prelude.{◌≡◌, IfOk};
ghost use Rattle.sheet_reader.specs.Sealing.{is_white_kind, is_close_kind, is_closed_nesting, last_is, all_but_last, ends_sealed};
ghost use Rattle.sheet_reader.specs.Sealing.{is_sealed, is_sealed_prelude};

use crate::brackets::{Nesting, Stop, nesting_of, until};
use css_tokens::{Token, TokenKind, all_tokens};
use std::alloc::{AllocError, Global};

fn ends_white(pieces: &[Token]) -> bool
    ensures { result ≡ last_is is_white_kind pieces.now }
{
    match pieces.last() {
        Some(last) => matches!(last.kind, TokenKind::WhiteSpace),
        None => false,
    }
}

fn ends_closed(pieces: &[Token]) -> bool
    ensures { result ≡ last_is is_close_kind pieces.now }
{
    match pieces.last() {
        Some(last) => matches!(last.kind, TokenKind::CloseCurly),
        None => false,
    }
}

fn is_closed(nesting: Nesting) -> bool
    ensures { result ≡ is_closed_nesting nesting }
{
    matches!(nesting, Nesting::Closed)
}

fn ends_sealed(alloc: Global, pieces: &[Token]) -> Result<bool, AllocError>
    ensures { IfOk result (λ b. b ≡ ends_sealed pieces.now) }
{
    if !ends_closed(pieces) {
        return Ok(false);
    }
    let front = all_but_last(pieces);
    if !ends_white(front) {
        return Ok(false);
    }
    Ok(is_closed(nesting_of(alloc, front)?))
}

fn all_but_last(pieces: &[Token]) -> &[Token]
    ensures { result.now ≡ all_but_last pieces.now }
{
    match pieces {
        [front @ .., _] => front,
        [] => pieces,
    }
}

/// Whether a space and `}` behind the text are a white-space piece, or the end of one, and a piece of its own, and each bracket
/// before them has its own, properly nested.
pub fn sealed(alloc: Global, text: &str) -> Result<bool, AllocError>
    ensures { IfOk result (λ b. b ≡ is_sealed text.now) }
{
    let mut closed = String::from_str(alloc, text)?;
    closed.push_str(" }")?;
    let pieces = all_tokens(alloc, closed.as_str())?;
    ends_sealed(alloc, pieces.as_slice())
}

/// Whether the text is sealed and has no `{` and no `;` outside brackets, so that it can be the prelude of an at-rule with a block.
pub fn sealed_prelude(alloc: Global, text: &str) -> Result<bool, AllocError>
    ensures { IfOk result (λ b. b ≡ is_sealed_prelude text.now) }
{
    if !sealed(alloc, text)? {
        return Ok(false);
    }
    let pieces = all_tokens(alloc, text)?;
    let n = until(alloc, Stop::BlockOrSemicolon, pieces.as_slice())?;
    Ok(n == pieces.len())
}
