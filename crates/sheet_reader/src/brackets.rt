//! Brackets among the pieces of a text (CSS Syntax 3, section 5.4.7). They nest as deep as the text has room for, so the
//! open ones are kept in a list.

ghost use Rattle.std.specs.Prelude.{◌≡◌, ◌≤◌, ◌&&◌, [], length, OnOk, IfOk};
ghost use Rattle.sheet_reader.specs.Brackets.{opened_by, closed_by, is_same, open_after, is_none_open, is_innermost, is_stray, stops_at};
ghost use Rattle.sheet_reader.specs.Brackets.{is_no_bracket, until, nesting};

use css_tokens::{Token, TokenKind};
use std::alloc::{AllocError, Global};
use std::marker::Model;

#[derive(Clone, Copy)]
pub(crate) enum Bracket {
    Round,
    Square,
    Curly,
}

/// At which pieces outside brackets component values stop.
#[derive(Clone, Copy)]
pub(crate) enum Stop {
    /// `{`
    Block,
    /// `{` or `;`
    BlockOrSemicolon,
    /// `}`
    BlockEnd,
    /// `;`
    Semicolon,
}

/// How the brackets of some pieces nest.
#[derive(Clone, Copy)]
pub(crate) enum Nesting {
    /// A closing bracket lacks its opening one.
    Stray,
    /// An opening bracket lacks its closing one.
    Open,
    /// Each bracket has its own.
    Closed,
}

pub(crate) fn opened_by(kind: TokenKind) -> Option<Bracket>
    ensures { result ≡ opened_by kind }
{
    match kind {
        TokenKind::Function | TokenKind::OpenRound => Some(Bracket::Round),
        TokenKind::OpenSquare => Some(Bracket::Square),
        TokenKind::OpenCurly => Some(Bracket::Curly),
        _ => None,
    }
}

pub(crate) fn closed_by(kind: TokenKind) -> Option<Bracket>
    ensures { result ≡ closed_by kind }
{
    match kind {
        TokenKind::CloseRound => Some(Bracket::Round),
        TokenKind::CloseSquare => Some(Bracket::Square),
        TokenKind::CloseCurly => Some(Bracket::Curly),
        _ => None,
    }
}

/// Most pieces are none, and leave what is open as it is.
fn is_no_bracket(kind: TokenKind) -> bool
    ensures { result ≡ is_no_bracket kind }
{
    match kind {
        TokenKind::Function
        | TokenKind::OpenRound
        | TokenKind::OpenSquare
        | TokenKind::OpenCurly
        | TokenKind::CloseRound
        | TokenKind::CloseSquare
        | TokenKind::CloseCurly => false,
        _ => true,
    }
}

fn is_same(a: Bracket, b: Bracket) -> bool
    ensures { result ≡ is_same a b }
{
    matches!(
        (a, b),
        (Bracket::Round, Bracket::Round)
            | (Bracket::Square, Bracket::Square)
            | (Bracket::Curly, Bracket::Curly)
    )
}

fn stops_at(stop: Stop, kind: TokenKind) -> bool
    ensures { result ≡ stops_at stop kind }
{
    match stop {
        Stop::Block => matches!(kind, TokenKind::OpenCurly),
        Stop::BlockOrSemicolon => matches!(kind, TokenKind::OpenCurly | TokenKind::Semicolon),
        Stop::BlockEnd => matches!(kind, TokenKind::CloseCurly),
        Stop::Semicolon => matches!(kind, TokenKind::Semicolon),
    }
}

/// The brackets that are open, which contracts see with the innermost first.
#[derive(Drop)]
struct OpenBrackets {
    /// The innermost last.
    brackets: Vec<Bracket>,
}

impl Model for OpenBrackets {
    ghost use Rattle.std.specs.Prelude.{List, reverse};
    ghost use Rattle.sheet_reader.specs.declared.brackets.Bracket.{Bracket};

    ghost Value = { List Bracket };

    ghost view = { λ o. reverse o.brackets.items };
}

impl OpenBrackets {
    fn new(alloc: Global) -> OpenBrackets
        ensures { result ≡ [] }
    {
        OpenBrackets {
            brackets: Vec::new(alloc),
        }
    }

    fn is_empty(&self) -> bool
        ensures { result ≡ is_none_open self.now }
    {
        self.brackets.is_empty()
    }

    fn is_innermost(&self, bracket: Bracket) -> bool
        ensures { result ≡ is_innermost bracket self.now }
    {
        match self.brackets.last() {
            Some(inner) => is_same(bracket, *inner),
            None => false,
        }
    }

    fn is_stray(&self, kind: TokenKind) -> bool
        ensures { result ≡ is_stray self.now kind }
    {
        match closed_by(kind) {
            Some(bracket) => !self.is_innermost(bracket),
            None => false,
        }
    }

    /// Whether component values stop at this piece: outside brackets, at a kind that stops them.
    fn stops(&self, stop: Stop, kind: TokenKind) -> bool
        ensures { result ≡ (is_none_open self.now && stops_at stop kind) }
    {
        self.is_empty() && stops_at(stop, kind)
    }

    /// Passes a piece.
    fn pass(&mut self, kind: TokenKind) -> Result<(), AllocError>
        ensures { OnOk result (self.new ≡ open_after self.old kind) }
    {
        if let Some(bracket) = opened_by(kind) {
            self.brackets.push(bracket)?;
            return Ok(());
        }
        if let Some(bracket) = closed_by(kind) {
            if self.is_innermost(bracket) {
                self.brackets.pop();
            }
        }
        Ok(())
    }
}

/// How many pieces stand before the first one outside brackets at which component values stop; all where none does.
pub(crate) fn until(alloc: Global, stop: Stop, pieces: &[Token]) -> Result<usize, AllocError>
    ensures value { IfOk result (λ n. n ≡ until stop pieces.now) }
    ensures fits { IfOk result (λ n. n ≤ length pieces.now) }
{
    let mut brackets = OpenBrackets::new(alloc);
    for (n, piece) in pieces.iter().enumerate() {
        if brackets.stops(stop, piece.kind) {
            return Ok(n);
        }
        if is_no_bracket(piece.kind) {
            continue;
        }
        brackets.pass(piece.kind)?;
    }
    Ok(pieces.len())
}

pub(crate) fn nesting_of(alloc: Global, pieces: &[Token]) -> Result<Nesting, AllocError>
    ensures { IfOk result (λ n. n ≡ nesting pieces.now) }
{
    let mut brackets = OpenBrackets::new(alloc);
    for piece in pieces {
        if is_no_bracket(piece.kind) {
            continue;
        }
        if brackets.is_stray(piece.kind) {
            return Ok(Nesting::Stray);
        }
        brackets.pass(piece.kind)?;
    }
    if brackets.is_empty() {
        Ok(Nesting::Closed)
    } else {
        Ok(Nesting::Open)
    }
}
