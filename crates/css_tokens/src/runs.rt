//! Runs of units, and what is made of them: names and numbers.

ghost use Rattle.std.specs.Prelude.{◌≡◌, ◌≤◌, length};
ghost use Rattle.css_tokens.specs.Runs.{run, digits, white_run, comment_unit, string_unit, name_unit, url_unit, bad_url_unit, ends_url};
ghost use Rattle.css_tokens.specs.Runs.{name_len, starts_ident, fraction_len, decimal_len, sign_len, exponent_len, number_len};
ghost use Rattle.css_tokens.specs.Codes.{begins};
ghost use Rattle.std.specs.Char.{is_ascii_digit};
ghost use Rattle.css_tokens.specs.Units.{unit_of};

use crate::codes::{
    is_ident, is_ident_start, is_newline, is_non_printable, is_quote, is_sign, is_white,
};
use crate::escapes::{begins_escape, begins_newline, escape_len, newline_len};

/// What a run is made of.
#[derive(Clone, Copy)]
pub(crate) enum Run {
    /// The inside of a comment.
    Comment,
    /// The inside of a string with this quote.
    Str(u8),
    Name,
    /// The inside of a url without quotes.
    Url,
    /// What a bad-url runs over.
    BadUrl,
}

fn comment_unit(text: &[u8]) -> usize
    ensures value { result ≡ comment_unit text.now }
    ensures fits { result ≤ length text.now }
{
    match text {
        [] | [b'*', b'/', ..] => 0,
        _ => 1,
    }
}

fn string_unit(quote: u8, text: &[u8]) -> usize
    ensures value { result ≡ string_unit quote text.now }
    ensures fits { result ≤ length text.now }
{
    match text {
        [] => 0,
        [b, ..] if *b == quote || is_newline(*b) => 0,
        [b'\\', rest @ ..] => {
            if begins_newline(rest) {
                1 + newline_len(rest)
            } else {
                escape_len(text)
            }
        }
        _ => 1,
    }
}

fn name_unit(text: &[u8]) -> usize
    ensures value { result ≡ name_unit text.now }
    ensures fits { result ≤ length text.now }
{
    match text {
        [] => 0,
        [b, ..] if is_ident(*b) => 1,
        _ => escape_len(text),
    }
}

fn ends_url(b: u8) -> bool
    ensures { result ≡ ends_url b }
{
    (is_white(b) || is_non_printable(b) || is_quote(b)) || (b == b'(' || b == b')')
}

fn url_unit(text: &[u8]) -> usize
    ensures value { result ≡ url_unit text.now }
    ensures fits { result ≤ length text.now }
{
    match text {
        [] => 0,
        [b, ..] if ends_url(*b) => 0,
        [b'\\', ..] => escape_len(text),
        _ => 1,
    }
}

fn bad_url_unit(text: &[u8]) -> usize
    ensures value { result ≡ bad_url_unit text.now }
    ensures fits { result ≤ length text.now }
{
    match text {
        [] | [b')', ..] => 0,
        _ => {
            if begins_escape(text) {
                escape_len(text)
            } else {
                1
            }
        }
    }
}

fn unit(kind: Run, text: &[u8]) -> usize
    ensures value { result ≡ unit_of kind text.now }
    ensures fits { result ≤ length text.now }
{
    match kind {
        Run::Comment => comment_unit(text),
        Run::Str(quote) => string_unit(quote, text),
        Run::Name => name_unit(text),
        Run::Url => url_unit(text),
        Run::BadUrl => bad_url_unit(text),
    }
}

/// How many bytes the longest run at the front takes.
pub(crate) fn run_len(kind: Run, text: &[u8]) -> usize
    ensures value { result ≡ run (unit_of kind) text.now }
    ensures fits { result ≤ length text.now }
{
    let mut at = 0;
    loop {
        let n = unit(kind, &text[at..]);
        if n == 0 {
            return at;
        }
        at += n;
    }
}

pub(crate) fn name_len(text: &[u8]) -> usize
    ensures value { result ≡ name_len text.now }
    ensures fits { result ≤ length text.now }
{
    run_len(Run::Name, text)
}

pub(crate) fn white_run(text: &[u8]) -> usize
    ensures value { result ≡ white_run text.now }
    ensures fits { result ≤ length text.now }
{
    text.iter().take_while(|b| is_white(**b)).count()
}

fn digits(text: &[u8]) -> usize
    ensures value { result ≡ digits text.now }
    ensures fits { result ≤ length text.now }
{
    text.iter().take_while(|b| b.is_ascii_digit()).count()
}

pub(crate) fn starts_ident(text: &[u8]) -> bool
    ensures { result ≡ starts_ident text.now }
{
    match text {
        [b'-', rest @ ..] => {
            matches!(rest, [b, ..] if is_ident_start(*b) || *b == b'-') || begins_escape(rest)
        }
        [b, ..] => is_ident_start(*b) || begins_escape(text),
        [] => false,
    }
}

/// `.` and digits.
fn fraction_len(text: &[u8]) -> usize
    ensures value { result ≡ fraction_len text.now }
    ensures fits { result ≤ length text.now }
{
    match text {
        [b'.', rest @ ..] if begins_digit(rest) => 1 + digits(rest),
        _ => 0,
    }
}

fn begins_digit(text: &[u8]) -> bool
    ensures { result ≡ begins is_ascii_digit text.now }
{
    match text {
        [b, ..] => b.is_ascii_digit(),
        [] => false,
    }
}

fn decimal_len(text: &[u8]) -> usize
    ensures value { result ≡ decimal_len text.now }
    ensures fits { result ≤ length text.now }
{
    let whole = digits(text);
    whole + fraction_len(&text[whole..])
}

fn sign_len(text: &[u8]) -> usize
    ensures value { result ≡ sign_len text.now }
    ensures fits { result ≤ length text.now }
{
    match text {
        [b, ..] if is_sign(*b) => 1,
        _ => 0,
    }
}

fn exponent_len(text: &[u8]) -> usize
    ensures value { result ≡ exponent_len text.now }
    ensures fits { result ≤ length text.now }
{
    match text {
        [b'e' | b'E', rest @ ..] => {
            let mark = 1 + sign_len(rest);
            if begins_digit(&text[mark..]) {
                mark + digits(&text[mark..])
            } else {
                0
            }
        }
        _ => 0,
    }
}

#[tactic(auto, unfolding(crate::specs::Runs::number_len))]
pub(crate) fn number_len(text: &[u8]) -> usize
    ensures value { result ≡ number_len text.now }
    ensures fits { result ≤ length text.now }
{
    let sign = sign_len(text);
    let decimal = decimal_len(&text[sign..]);
    if decimal == 0 {
        0
    } else {
        sign + decimal + exponent_len(&text[sign + decimal..])
    }
}
