//! What a piece says once its escapes are read.

ghost use Rattle.std.specs.Prelude.{◌≡◌, ◌<◌, ◌≤◌, ◌+◌, ◌==◌, not, length, true, false, IfOk, MatchOption};
ghost use Rattle.std.specs.List.{prefix_len};
ghost use Rattle.std.specs.Char.{encode_utf8};
ghost use Rattle.std.specs.String.{string_bytes};
ghost use Rattle.css_tokens.specs.Escapes.{unescaped, Replaces, escape_bytes, is_coded, begins_escape};

use crate::escapes::{begins_newline, character_of, escape_tail, hex_len, hex_value, newline_len};
use std::alloc::{AllocError, Global};

/// The text of a piece with each escape replaced by its value, and each `\` with a newline dropped. A `\` at the
/// piece's end counts as the escape at a text's end, so it gives U+FFFD.
pub fn unescape(alloc: Global, piece: &str) -> Result<String, AllocError>
    ensures { IfOk result (λ text. string_bytes text ≡ unescaped piece.now) }
{
    let mut out = String::new(alloc);
    let mut rest = piece;
    while !rest.is_empty() {
        let n = unescape_front(&mut out, rest)?;
        rest = &rest[n..];
    }
    Ok(out)
}

/// Appends what the front of `rest` stands for, and answers how many bytes that front takes.
fn unescape_front(out: &mut String, rest: &str) -> Result<usize, AllocError>
    requires { 0 < length rest.now }
    ensures { IfOk result (Replaces (string_bytes out.old) (string_bytes out.new) rest.now) }
{
    let bytes = rest.as_bytes();
    if bytes[0] != b'\\' {
        let n = plain_len(bytes);
        out.push_str(&rest[..n])?;
        return Ok(n);
    }
    if begins_newline(&bytes[1..]) {
        Ok(1 + newline_len(&bytes[1..]))
    } else {
        push_escape(out, rest)
    }
}

/// Appends the value of the escape at the front of `rest`, and what stands behind it where the value stands there as it is.
fn push_escape(out: &mut String, rest: &str) -> Result<usize, AllocError>
    requires escape { begins_escape rest.now ≡ true }
    ensures { IfOk result (Replaces (string_bytes out.old) (string_bytes out.new) rest.now) }
{
    let bytes = rest.as_bytes();
    match coded(&bytes[1..]) {
        Some(character) => {
            out.push(character)?;
            Ok(1 + escape_tail(&bytes[1..]))
        }
        None => {
            let n = 2 + plain_len(&bytes[2..]);
            out.push_str(&rest[1..n])?;
            Ok(n)
        }
    }
}

/// The character that an escape with this behind its `\` gives by a number or at the text's end.
#[tactic(auto, unfolding(crate::specs::Escapes::escape_value, crate::specs::Escapes::escape_bytes))]
fn coded(tail: &[u8]) -> Option<char>
    ensures { MatchOption result (is_coded tail.now ≡ false) (λ c. (is_coded tail.now ≡ true) × (escape_bytes tail.now ≡ encode_utf8 c)) }
{
    match tail {
        [] => Some(char::REPLACEMENT_CHARACTER),
        [b, ..] if b.is_ascii_hexdigit() => Some(character_of(hex_value(&tail[..hex_len(tail)]))),
        _ => None,
    }
}

/// How many bytes stand before the first `\`.
fn plain_len(text: &[u8]) -> usize
    ensures value { result ≡ prefix_len (λ c. not (c == 92)) text.now }
    ensures fits { result ≤ length text.now }
{
    text.iter().take_while(|b| **b != b'\\').count()
}
