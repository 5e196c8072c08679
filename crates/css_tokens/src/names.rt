//! Idents, functions and urls: the rows of what begins with a name.

ghost use Rattle.std.specs.Prelude.{◌≡◌, ◌≤◌, ◌<◌, ◌==◌, ◌+◌, true, drop, Some, length, IfSome};
ghost use Rattle.css_tokens.specs.Rows.{IsFront, ◌or◌, letter_len, is_url, opens_url, url_body_len, open_url_len, url, bad_url, ident};
ghost use Rattle.css_tokens.specs.Rows.{closes_url};
ghost use Rattle.css_tokens.specs.Escapes.{escape_value};
ghost use Rattle.css_tokens.specs.Codes.{is_quote, begins};
ghost use Rattle.css_tokens.specs.Runs.{name_len, white_run, starts_ident};
ghost use Rattle.std.specs.Char.{to_ascii_lowercase};

use crate::codes::is_quote;
use crate::escapes::{escape_tail, escape_value};
use crate::runs::{Run, name_len, run_len, starts_ident, white_run};
use crate::token::{Piece, TokenKind};

/// How long the ident character or escape at the front is, where its value is the letter; 0 where it is not.
pub(crate) fn letter_len(letter: u8, text: &[u8]) -> usize
    ensures value { result ≡ letter_len letter text.now }
    ensures fits { result ≤ length text.now }
{
    match text {
        [b'\\', rest @ ..] => {
            if escape_is(rest, letter) {
                1 + escape_tail(rest)
            } else {
                0
            }
        }
        [b, ..] if b.to_ascii_lowercase() == letter => 1,
        _ => 0,
    }
}

/// Whether the value of the escape with this behind its `\` is the letter, in any case.
fn escape_is(rest: &[u8], letter: u8) -> bool
    ensures { result ≡ (to_ascii_lowercase (escape_value rest.now) == letter) }
{
    match u8::try_from(escape_value(rest)) {
        Ok(value) => value.to_ascii_lowercase() == letter,
        Err(_) => false,
    }
}

#[tactic(auto, unfolding(crate::specs::Rows::is_url))]
fn is_url(name: &[u8]) -> bool
    ensures { result ≡ is_url name.now }
{
    let u = letter_len(b'u', name);
    let r = letter_len(b'r', &name[u..]);
    let l = letter_len(b'l', &name[u + r..]);
    (u > 0 && r > 0) && (l > 0 && u + r + l == name.len())
}

fn closes(text: &[u8]) -> bool
    ensures { result ≡ closes_url text.now }
{
    match text {
        [] => true,
        [b, ..] => *b == b')',
    }
}

#[tactic(auto, unfolding(crate::specs::Rows::url_body_len))]
fn url_body_len(inner: &[u8]) -> usize
    ensures value { result ≡ url_body_len inner.now }
    ensures fits { result ≤ length inner.now }
{
    let start = white_run(inner);
    let end = start + run_len(Run::Url, &inner[start..]);
    end + white_run(&inner[end..])
}

fn open_url_len(text: &[u8], opened: usize) -> usize
    requires fits { opened ≤ length text.now }
    requires opened { opened ≡ name_len text.now + 1 }
    ensures value { result ≡ open_url_len text.now }
    ensures within { (opened ≤ result) × (result ≤ length text.now) }
{
    opened + url_body_len(&text[opened..])
}

/// A url or a bad-url, of which the first `opened` bytes are the name and `(`.
#[tactic(auto, unfolding(crate::specs::Rows::url, crate::specs::Rows::bad_url))]
fn url(text: &[u8], opened: usize) -> Piece
    requires fits { opened ≤ length text.now }
    requires opened { opened ≡ name_len text.now + 1 }
    requires opens { opens_url text.now ≡ true }
    ensures value { (url text.now or bad_url text.now) ≡ Some result }
    ensures fits { IsFront text.now result }
{
    let len = open_url_len(text, opened);
    let rest = &text[len..];
    if closes(rest) {
        Piece {
            kind: TokenKind::Url,
            len: (len + 1).min(text.len()),
        }
    } else {
        Piece {
            kind: TokenKind::BadUrl,
            len: (len + run_len(Run::BadUrl, rest) + 1).min(text.len()),
        }
    }
}

fn begins_quote(text: &[u8]) -> bool
    ensures { result ≡ begins is_quote text.now }
{
    matches!(text, [b, ..] if is_quote(*b))
}

/// Whether a quote stands behind optional white space.
fn is_quoted(inner: &[u8]) -> bool
    ensures { result ≡ begins is_quote (drop (white_run inner.now) inner.now) }
{
    begins_quote(&inner[white_run(inner)..])
}

/// Whether `(` stands behind a name of this length.
fn is_called(text: &[u8], name: usize) -> bool
    requires { name ≤ length text.now }
    ensures { result ≡ begins (λ c. c == 40) (drop name text.now) }
{
    matches!(&text[name..], [b'(', ..])
}

/// Whether a url or a bad-url opens where a name of this length stands before `(`.
#[tactic(auto, unfolding(crate::specs::Rows::opens_url))]
fn opens_url(text: &[u8], name: usize) -> bool
    requires named { starts_ident text.now ≡ true }
    requires name { name ≡ name_len text.now }
    requires function { begins (λ c. c == 40) (drop name text.now) ≡ true }
    ensures { result ≡ opens_url text.now }
{
    is_url(&text[..name]) && !is_quoted(&text[name + 1..])
}

/// The rows of urls, bad urls, idents and functions.
#[tactic(auto, unfolding(crate::specs::Rows::ident))]
pub(crate) fn named(text: &[u8]) -> Option<Piece>
    ensures value { result ≡ (url text.now or bad_url text.now or ident text.now) }
    ensures fits { IfSome result (IsFront text.now) }
{
    if !starts_ident(text) {
        return None;
    }
    let name = name_len(text);
    if !is_called(text, name) {
        return Some(Piece {
            kind: TokenKind::Ident,
            len: name,
        });
    }
    if opens_url(text, name) {
        Some(url(text, name + 1))
    } else {
        Some(Piece {
            kind: TokenKind::Function,
            len: name + 1,
        })
    }
}
