//! The top-level parts of a sheet (CSS Syntax 3, sections 5.4.1 to 5.4.3).

ghost use Rattle.std.specs.Prelude.{◌≡◌, ◌≤◌, ◌<◌, length, drop, slice_get, Some, IfOk};
ghost use Rattle.sheet_reader.specs.Ends.{AreEnds};
ghost use Rattle.sheet_reader.specs.Parts.{is_passed, ending_at, at_rule_at, qualified_at, part_at, ending_pieces, part_pieces};
ghost use Rattle.sheet_reader.specs.Seen.{ending_seen, part_seen};

use crate::brackets::{Stop, until};
use crate::ends::{Ends, block_len};
use css_tokens::{Token, TokenKind};
use std::alloc::{AllocError, Global};

/// Where parts stand: in the sheet itself, or in the block of a media rule.
#[derive(Clone, Copy)]
pub(crate) enum Level {
    Top,
    Inner,
}

/// Where a rule ends.
#[derive(Clone, Copy)]
pub(crate) enum Ending<'a> {
    TextEnd,
    Semicolon(Token),
    Block {
        first: Token,
        body: &'a [Token],
        /// None where the text ends before.
        close: Option<Token>,
    },
}

/// A part of a sheet.
#[derive(Clone, Copy)]
pub(crate) enum Part<'a> {
    /// White space or a comment, at top level also `<!--` or `-->`.
    Passed(Token),
    AtRule {
        keyword: Token,
        prelude: &'a [Token],
        ending: Ending<'a>,
    },
    /// It is a rule only where it ends in a block.
    Qualified {
        prelude: &'a [Token],
        ending: Ending<'a>,
    },
}

fn ending_at<'a>(alloc: Global, ends: Ends, pieces: &'a [Token]) -> Result<Ending<'a>, AllocError>
    requires { AreEnds ends pieces.now }
    ensures { IfOk result (λ e. ending_seen e ≡ ending_at pieces.now) }
{
    match pieces {
        [] => Ok(Ending::TextEnd),
        [first, ..] if matches!(first.kind, TokenKind::Semicolon) => Ok(Ending::Semicolon(*first)),
        [first, rest @ ..] => {
            let n = block_len(alloc, ends, rest)?;
            Ok(Ending::Block {
                first: *first,
                body: &rest[..n],
                close: rest.get(n).copied(),
            })
        }
    }
}

/// The at-rule of this keyword, which stands right before the pieces.
pub(crate) fn at_rule_at<'a>(
    alloc: Global,
    ends: Ends,
    keyword: Token,
    pieces: &'a [Token],
) -> Result<Part<'a>, AllocError>
    requires { AreEnds ends pieces.now }
    ensures { IfOk result (λ p. part_seen p ≡ at_rule_at keyword pieces.now) }
{
    let n = until(alloc, Stop::BlockOrSemicolon, pieces)?;
    let ending = ending_at(alloc, ends, &pieces[n..])?;
    Ok(Part::AtRule {
        keyword,
        prelude: &pieces[..n],
        ending,
    })
}

fn qualified_at<'a>(alloc: Global, ends: Ends, pieces: &'a [Token]) -> Result<Part<'a>, AllocError>
    requires { AreEnds ends pieces.now }
    ensures { IfOk result (λ p. part_seen p ≡ qualified_at pieces.now) }
{
    let n = until(alloc, Stop::Block, pieces)?;
    let ending = ending_at(alloc, ends, &pieces[n..])?;
    Ok(Part::Qualified {
        prelude: &pieces[..n],
        ending,
    })
}

fn is_passed(level: Level, kind: TokenKind) -> bool
    ensures { result ≡ is_passed level kind }
{
    match kind {
        TokenKind::Comment | TokenKind::WhiteSpace => true,
        TokenKind::Cdo | TokenKind::Cdc => matches!(level, Level::Top),
        _ => false,
    }
}

/// The part that begins with the first piece.
#[tactic(auto, unfolding(crate::specs::Parts::part_at))]
pub(crate) fn part_at<'a>(
    alloc: Global,
    level: Level,
    ends: Ends,
    first: Token,
    pieces: &'a [Token],
) -> Result<Part<'a>, AllocError>
    requires first { slice_get pieces.now 0 ≡ Some first }
    requires ends { AreEnds ends pieces.now }
    ensures { IfOk result (λ p. part_seen p ≡ part_at level first (drop 1 pieces.now)) }
{
    if matches!(first.kind, TokenKind::AtKeyword) {
        return at_rule_at(alloc, ends, first, &pieces[1..]);
    }
    if is_passed(level, first.kind) {
        return Ok(Part::Passed(first));
    }
    qualified_at(alloc, ends, pieces)
}

fn ending_len(ending: Ending) -> usize
    ensures { result ≡ length (ending_pieces (ending_seen ending.entry)) }
{
    match ending {
        Ending::TextEnd => 0,
        Ending::Semicolon(_) => 1,
        Ending::Block { body, close, .. } => match close {
            Some(_) => body.len() + 2,
            None => body.len() + 1,
        },
    }
}

/// How many pieces a part has.
pub(crate) fn part_len(part: Part) -> usize
    ensures { result ≡ length (part_pieces (part_seen part.entry)) }
{
    match part {
        Part::Passed(_) => 1,
        Part::AtRule {
            prelude,
            ending,
            ..
        } => 1 + (prelude.len() + ending_len(ending)),
        Part::Qualified { prelude, ending } => prelude.len() + ending_len(ending),
    }
}

/// The pieces behind the first `n`.
pub(crate) fn behind(pieces: &[Token], n: usize) -> &[Token]
    requires { n ≤ length pieces.now }
    ensures { result.now ≡ drop n pieces.now }
{
    &pieces[n..]
}
