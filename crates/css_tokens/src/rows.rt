//! The table of pieces (CSS Syntax 3, 4.3.1): the piece that a text begins with.

ghost use Rattle.std.specs.Prelude.{◌≡◌, ◌<◌, ◌==◌, IfSome};
ghost use Rattle.css_tokens.specs.Rows.{IsFront, ◌or◌, comment, white_space, string, bad_string, hash, numeric, cdc, url, bad_url, ident};
ghost use Rattle.css_tokens.specs.Rows.{cdo, at_keyword, mark_kind, mark, first_piece};
ghost use Rattle.css_tokens.specs.First.{TellsFirst};
ghost use Rattle.css_tokens.specs.Codes.{is_quote, begins};

use crate::codes::{is_ident_start, is_quote, is_white};
use crate::escapes::begins_newline;
use crate::names::named;
use crate::runs::{Run, name_len, number_len, run_len, starts_ident, white_run};
use crate::token::{Piece, TokenKind};

fn begins_byte(text: &[u8], byte: u8) -> bool
    ensures { result ≡ begins (λ c. c == byte) text.now }
{
    matches!(text, [b, ..] if *b == byte)
}

#[tactic(auto, unfolding(crate::specs::Rows::comment))]
fn comment(text: &[u8]) -> Option<Piece>
    ensures value { result ≡ comment text.now }
    ensures fits { IfSome result (IsFront text.now) }
{
    match text {
        [b'/', b'*', inside @ ..] => {
            let len = (2 + run_len(Run::Comment, inside) + 2).min(text.len());
            Some(Piece {
                kind: TokenKind::Comment,
                len,
            })
        }
        _ => None,
    }
}

#[tactic(auto, unfolding(crate::specs::Rows::white_space))]
fn white_space(text: &[u8]) -> Option<Piece>
    ensures value { result ≡ white_space text.now }
    ensures fits { IfSome result (IsFront text.now) }
{
    match text {
        [b, ..] if is_white(*b) => Some(Piece {
            kind: TokenKind::WhiteSpace,
            len: white_run(text),
        }),
        _ => None,
    }
}

/// The rows of strings and of bad strings.
#[tactic(auto, unfolding(crate::specs::Rows::string, crate::specs::Rows::bad_string))]
fn string(text: &[u8]) -> Option<Piece>
    ensures value { result ≡ (string text.now or bad_string text.now) }
    ensures fits { IfSome result (IsFront text.now) }
{
    match text {
        [quote, inside @ ..] if is_quote(*quote) => {
            let len = 1 + run_len(Run::Str(*quote), inside);
            if begins_newline(&text[len..]) {
                Some(Piece {
                    kind: TokenKind::BadString,
                    len,
                })
            } else {
                Some(Piece {
                    kind: TokenKind::Str,
                    len: (len + 1).min(text.len()),
                })
            }
        }
        _ => None,
    }
}

#[tactic(auto, unfolding(crate::specs::Rows::hash))]
fn hash(text: &[u8]) -> Option<Piece>
    ensures value { result ≡ hash text.now }
    ensures fits { IfSome result (IsFront text.now) }
{
    match text {
        [b'#', name @ ..] => {
            let len = name_len(name);
            if len > 0 {
                Some(Piece {
                    kind: TokenKind::Hash {
                        flag: starts_ident(name),
                    },
                    len: 1 + len,
                })
            } else {
                None
            }
        }
        _ => None,
    }
}

#[tactic(auto, unfolding(crate::specs::Rows::numeric))]
fn numeric(text: &[u8]) -> Option<Piece>
    ensures value { result ≡ numeric text.now }
    ensures fits { IfSome result (IsFront text.now) }
{
    let number = number_len(text);
    if number == 0 {
        return None;
    }
    let rest = &text[number..];
    if begins_byte(rest, b'%') {
        Some(Piece {
            kind: TokenKind::Percentage,
            len: number + 1,
        })
    } else if starts_ident(rest) {
        Some(Piece {
            kind: TokenKind::Dimension,
            len: number + name_len(rest),
        })
    } else {
        Some(Piece {
            kind: TokenKind::Number,
            len: number,
        })
    }
}

#[tactic(auto, unfolding(crate::specs::Rows::cdc))]
fn cdc(text: &[u8]) -> Option<Piece>
    ensures value { result ≡ cdc text.now }
    ensures fits { IfSome result (IsFront text.now) }
{
    match text {
        [b'-', b'-', b'>', ..] => Some(Piece {
            kind: TokenKind::Cdc,
            len: 3,
        }),
        _ => None,
    }
}

#[tactic(auto, unfolding(crate::specs::Rows::cdo))]
fn cdo(text: &[u8]) -> Option<Piece>
    ensures value { result ≡ cdo text.now }
    ensures fits { IfSome result (IsFront text.now) }
{
    match text {
        [b'<', b'!', b'-', b'-', ..] => Some(Piece {
            kind: TokenKind::Cdo,
            len: 4,
        }),
        _ => None,
    }
}

#[tactic(auto, unfolding(crate::specs::Rows::at_keyword))]
fn at_keyword(text: &[u8]) -> Option<Piece>
    ensures value { result ≡ at_keyword text.now }
    ensures fits { IfSome result (IsFront text.now) }
{
    match text {
        [b'@', name @ ..] if starts_ident(name) => Some(Piece {
            kind: TokenKind::AtKeyword,
            len: 1 + name_len(name),
        }),
        _ => None,
    }
}

fn mark_kind(b: u8) -> TokenKind
    ensures { result ≡ mark_kind b }
{
    match b {
        b':' => TokenKind::Colon,
        b';' => TokenKind::Semicolon,
        b',' => TokenKind::Comma,
        b'[' => TokenKind::OpenSquare,
        b']' => TokenKind::CloseSquare,
        b'(' => TokenKind::OpenRound,
        b')' => TokenKind::CloseRound,
        b'{' => TokenKind::OpenCurly,
        b'}' => TokenKind::CloseCurly,
        _ => TokenKind::Delim,
    }
}

#[tactic(auto, unfolding(crate::specs::Rows::mark))]
fn mark(text: &[u8]) -> Option<Piece>
    ensures value { result ≡ mark text.now }
    ensures fits { IfSome result (IsFront text.now) }
{
    match text {
        [b, ..] => Some(Piece {
            kind: mark_kind(*b),
            len: 1,
        }),
        [] => None,
    }
}

/// What the first byte of a text tells of the rows that may apply.
#[derive(Clone, Copy)]
enum First {
    Slash,
    White,
    Quote,
    /// A digit, `+` or `.`.
    Number,
    Dash,
    /// What starts an ident by itself.
    Name,
    /// `\`
    Back,
    /// `#`
    Pound,
    /// `<`
    Less,
    At,
    /// What is a piece of its own.
    Other,
}

fn first_of(b: u8) -> First
    ensures { TellsFirst result b }
{
    match b {
        b'A'..=b'Z' | b'a'..=b'z' | b'_' | 0 | 128..=255 => First::Name,
        b' ' | b'\t' | b'\n' | b'\r' | b'\x0c' => First::White,
        b'0'..=b'9' | b'+' | b'.' => First::Number,
        b'"' | b'\'' => First::Quote,
        b'-' => First::Dash,
        b'/' => First::Slash,
        b'#' => First::Pound,
        b'@' => First::At,
        b'\\' => First::Back,
        b'<' => First::Less,
        _ => First::Other,
    }
}

/// The piece of a row, or where there is none the first character.
fn or_mark(row: Option<Piece>, text: &[u8]) -> Option<Piece>
    requires { IfSome row (IsFront text.now) }
    ensures value { result ≡ (row or mark text.now) }
    ensures fits { IfSome result (IsFront text.now) }
{
    match row {
        Some(piece) => Some(piece),
        None => mark(text),
    }
}

/// The rows of what `-` may begin: numbers, CDC and what begins with a name.
fn dashed(text: &[u8]) -> Option<Piece>
    ensures value { result ≡ (numeric text.now or (cdc text.now or (url text.now or bad_url text.now or ident text.now))) }
    ensures fits { IfSome result (IsFront text.now) }
{
    numeric(text).or_else(|| cdc(text)).or_else(|| named(text))
}

/// The piece at the front of a text: of the first row of the table that applies. The first byte leaves few rows to try.
pub(crate) fn first_piece(text: &[u8]) -> Option<Piece>
    ensures value { result ≡ first_piece text.now }
    ensures fits { IfSome result (IsFront text.now) }
{
    let [b, ..] = text else {
        return None;
    };
    match first_of(*b) {
        First::Name => named(text),
        First::White => white_space(text),
        First::Quote => string(text),
        First::Number => or_mark(numeric(text), text),
        First::Dash => or_mark(dashed(text), text),
        First::Slash => or_mark(comment(text), text),
        First::Pound => or_mark(hash(text), text),
        First::At => or_mark(at_keyword(text), text),
        First::Back => or_mark(named(text), text),
        First::Less => or_mark(cdo(text), text),
        First::Other => mark(text),
    }
}
