//! Where blocks end. The block of a media rule is read for its end, and again for its parts, which may be media rules: so that
//! no piece is passed once a level, the ends are told beforehand from a sheet's first media rule on, by one pass from the last
//! piece to the first.

ghost use Rattle.std.specs.Prelude.{◌≡◌, ◌<◌, ◌≤◌, ◌+◌, [], ◌∷◌, Some, length, take, slice_get, IfOk};
ghost use Rattle.sheet_reader.specs.declared.brackets.Stop.TheVariants.{BlockEnd};
ghost use Rattle.sheet_reader.specs.Brackets.{until};
ghost use Rattle.sheet_reader.specs.Ends.{behind_in, closing_of, none_closing, closing_past, closing_at, closing_with, AreClosings};
ghost use Rattle.sheet_reader.specs.Ends.{AreTold, AreEnds};

use crate::brackets::{Bracket, Stop, closed_by, opened_by, until};
use css_tokens::{Token, TokenKind};
use std::alloc::{AllocError, Global};

/// By bracket: how many pieces stand behind the one that closes it, where it is the innermost open one. None where the text
/// ends before.
#[derive(Clone, Copy)]
pub(crate) struct Closing {
    round: Option<usize>,
    square: Option<usize>,
    curly: Option<usize>,
}

/// How the end of a block is found.
#[derive(Clone, Copy)]
pub(crate) enum Ends<'a> {
    /// By passing over its pieces.
    Sought,
    /// In a table, by the number of pieces from a place on. `behind` pieces follow those at hand.
    Told { table: &'a [Closing], behind: usize },
}

impl Closing {
    fn at(self, bracket: Bracket) -> Option<usize>
        ensures { result ≡ closing_at self bracket }
    {
        match bracket {
            Bracket::Round => self.round,
            Bracket::Square => self.square,
            Bracket::Curly => self.curly,
        }
    }

    fn with(self, bracket: Bracket, left: usize) -> Closing
        ensures { result ≡ closing_with self bracket left }
    {
        match bracket {
            Bracket::Round => Closing {
                round: Some(left),
                ..self
            },
            Bracket::Square => Closing {
                square: Some(left),
                ..self
            },
            Bracket::Curly => Closing {
                curly: Some(left),
                ..self
            },
        }
    }
}

/// What closes before no piece.
fn no_closing() -> Closing
    ensures { result ≡ none_closing }
{
    Closing {
        round: None,
        square: None,
        curly: None,
    }
}

/// The sum of these, which is a place in the table. It is reckoned from the table's end, as a sum of any two numbers may be too
/// large.
fn place_in(table: &[Closing], left: usize, behind: usize) -> usize
    requires { left + behind < length table.now }
    ensures { result ≡ left + behind }
{
    let others = table.len() - behind - left;
    table.len() - others
}

/// What a table tells of its last `left` pieces.
fn told_at(table: &[Closing], left: usize) -> Closing
    requires { left < length table.now }
    ensures { slice_get table.now left ≡ Some result }
{
    table[left]
}

/// Behind a bracket that the piece before opens: what closes from its own closing piece on.
fn closing_past(table: &[Closing], rest: &[Token], bracket: Bracket) -> Closing
    requires { AreClosings table.now rest.now }
    ensures { result ≡ closing_past (behind_in bracket [] rest.now) }
{
    match told_at(table, rest.len()).at(bracket) {
        Some(left) => told_at(table, left),
        None => no_closing(),
    }
}

/// What closes from a piece on, by a table of the pieces behind it.
fn closing_before(piece: Token, table: &[Closing], rest: &[Token]) -> Closing
    requires { AreClosings table.now rest.now }
    ensures { result ≡ closing_of (piece ∷ rest.now) }
{
    if let Some(bracket) = opened_by(piece.kind) {
        return closing_past(table, rest, bracket);
    }
    let next = told_at(table, rest.len());
    match closed_by(piece.kind) {
        Some(bracket) => next.with(bracket, rest.len()),
        None => next,
    }
}

/// The table of these pieces.
pub(crate) fn closings(alloc: Global, pieces: &[Token]) -> Result<Vec<Closing>, AllocError>
    ensures { IfOk result (λ table. AreClosings table.items pieces.now) }
{
    let mut table = Vec::new(alloc);
    table.push(no_closing())?;
    table.reserve(pieces.len())?;
    for n in 0..pieces.len() {
        let place = pieces.len() - 1 - n;
        let closing = closing_before(pieces[place], table.as_slice(), &pieces[place + 1..]);
        table.push(closing)?;
    }
    Ok(table)
}

fn told_len(table: &[Closing], behind: usize, pieces: &[Token]) -> usize
    requires { AreTold table.now behind pieces.now }
    ensures value { result ≡ until BlockEnd pieces.now }
    ensures fits { result ≤ length pieces.now }
{
    let all = place_in(table, pieces.len(), behind);
    match told_at(table, all).curly {
        Some(left) => {
            if left < behind {
                pieces.len()
            } else {
                all - left - 1
            }
        }
        None => pieces.len(),
    }
}

/// How many pieces a block has, of those that stand behind its `{`.
pub(crate) fn block_len(alloc: Global, ends: Ends, pieces: &[Token]) -> Result<usize, AllocError>
    requires { AreEnds ends pieces.now }
    ensures value { IfOk result (λ n. n ≡ until BlockEnd pieces.now) }
    ensures fits { IfOk result (λ n. n ≤ length pieces.now) }
{
    match ends {
        Ends::Sought => until(alloc, Stop::BlockEnd, pieces),
        Ends::Told { table, behind } => Ok(told_len(table, behind, pieces)),
    }
}

/// The ends of the first `n` of these pieces.
pub(crate) fn front_ends<'a>(ends: Ends<'a>, pieces: &[Token], n: usize) -> Ends<'a>
    requires ends { AreEnds ends pieces.now }
    requires fits { n ≤ length pieces.now }
    ensures { AreEnds result (take n pieces.now) }
{
    match ends {
        Ends::Sought => Ends::Sought,
        Ends::Told { table, behind } => Ends::Told {
            table,
            behind: place_in(table, pieces.len() - n, behind),
        },
    }
}
