//! Texts that are one rule, but for white space and comments.

ghost use Rattle.std.specs.Prelude.{◌≡◌, ◌≤◌, All, length, IfOk};
ghost use Rattle.std.specs.List.{prefix_len};
ghost use Rattle.css_tokens.specs.Marks.{IsPieceOf};
ghost use Rattle.sheet_reader.specs.Seen.{part_seen, ending_seen};
ghost use Rattle.sheet_reader.specs.Parts.{part_pieces};
ghost use Rattle.sheet_reader.specs.Lone.{is_blank_kind, is_blank_piece, skip_blank, is_closed_ending, is_closed_rule, lone_by, lone_rule};

use crate::ends::Ends;
use crate::parts::{Ending, Level, Part, behind, part_at, part_len};
use crate::rules::rule_of;
use css_tokens::{Token, TokenKind, all_tokens};
use std::alloc::{AllocError, Global};

/// What a text is, but for white space and comments around it.
#[derive(Clone, Copy)]
pub enum LoneRule {
    /// Not one closed qualified rule.
    Other,
    /// One whose prelude is no selector list, so that no sheet has it.
    Dropped,
    /// A style rule.
    Style,
}

fn is_blank_kind(kind: TokenKind) -> bool
    ensures { result ≡ is_blank_kind kind }
{
    matches!(kind, TokenKind::Comment | TokenKind::WhiteSpace)
}

/// How many pieces at the front are white space or comments.
fn blank_len(pieces: &[Token]) -> usize
    ensures value { result ≡ prefix_len is_blank_piece pieces.now }
    ensures fits { result ≤ length pieces.now }
{
    pieces
        .iter()
        .take_while(|piece| is_blank_kind(piece.kind))
        .count()
}

/// The pieces from the first one on that is neither white space nor a comment.
fn skip_blank(pieces: &[Token]) -> &[Token]
    ensures { result.now ≡ skip_blank pieces.now }
{
    behind(pieces, blank_len(pieces))
}

fn is_closed_ending(ending: Ending) -> bool
    ensures { result ≡ is_closed_ending (ending_seen ending.entry) }
{
    match ending {
        Ending::Block { close, .. } => close.is_some(),
        _ => false,
    }
}

fn is_closed_rule(part: Part) -> bool
    ensures { result ≡ is_closed_rule (part_seen part.entry) }
{
    match part {
        Part::Qualified { ending, .. } => is_closed_ending(ending),
        _ => false,
    }
}

/// What a part is that stands alone.
fn lone_by(alloc: Global, text: &str, part: Part) -> Result<LoneRule, AllocError>
    requires { All (IsPieceOf text.now) (part_pieces (part_seen part)) }
    ensures { IfOk result (λ r. r ≡ lone_by text.now (part_seen part.entry)) }
{
    if !is_closed_rule(part) {
        return Ok(LoneRule::Other);
    }
    match rule_of(alloc, text, None, part)? {
        Some(_rule) => Ok(LoneRule::Style),
        None => Ok(LoneRule::Dropped),
    }
}

/// Whether a text is one closed qualified rule, but for white space and comments, and whether that is a style rule.
pub fn lone_rule(alloc: Global, text: &str) -> Result<LoneRule, AllocError>
    ensures { IfOk result (λ r. r ≡ lone_rule text.now) }
{
    let pieces = all_tokens(alloc, text)?;
    let left = skip_blank(pieces.as_slice());
    let [first, ..] = left else {
        return Ok(LoneRule::Other);
    };
    let part = part_at(alloc, Level::Top, Ends::Sought, *first, left)?;
    let rest = skip_blank(behind(left, part_len(part)));
    if !rest.is_empty() {
        return Ok(LoneRule::Other);
    }
    lone_by(alloc, text, part)
}
