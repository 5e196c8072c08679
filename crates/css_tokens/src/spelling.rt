//! Names in any case.

ghost use Rattle.std.specs.Prelude.{◌≡◌, ◌<◌, ◌≤◌, ◌+◌, All, drop, length};
ghost use Rattle.css_tokens.specs.Escapes.{newline_len};
ghost use Rattle.css_tokens.specs.Spelling.{spells, begins_line};

use crate::escapes::{begins_newline, newline_len};
use crate::names::letter_len;

/// Whether a `\` with a newline stands in front.
fn begins_line(text: &[u8]) -> bool
    ensures { result ≡ begins_line text.now }
{
    match text {
        [first, tail @ ..] => *first == b'\\' && begins_newline(tail),
        [] => false,
    }
}

/// How long a `\` with a newline is.
fn line_len(text: &[u8]) -> usize
    requires { 0 < length text.now }
    ensures value { result ≡ 1 + newline_len (drop 1 text.now) }
    ensures fits { result ≤ length text.now }
{
    1 + newline_len(&text[1..])
}

fn behind(text: &[u8], n: usize) -> &[u8]
    requires { n ≤ length text.now }
    ensures { result.now ≡ drop n text.now }
{
    &text[n..]
}

/// Whether a name, its escapes read, is this word of lower-case letters, in any case. Takes no memory.
pub fn spells(name: &str, word: &str) -> bool
    requires { All (λ c. c < 123) word.now }
    ensures { result ≡ spells name.now word.now }
{
    let mut rest = name.as_bytes();
    let mut left = word.as_bytes();
    'name: while !rest.is_empty() {
        if begins_line(rest) {
            rest = behind(rest, line_len(rest));
            continue;
        }
        if left.is_empty() {
            return false;
        }
        let n = letter_len(left[0], rest);
        if n == 0 {
            return false;
        }
        rest = behind(rest, n);
        left = behind(left, 1);
    }
    left.is_empty()
}
