//! Newlines, white space and escapes at the front of a text.

ghost use Rattle.std.specs.Prelude.{◌≡◌, ◌≤◌, length};
ghost use Rattle.css_tokens.specs.Codes.{is_newline, begins};
ghost use Rattle.css_tokens.specs.Escapes.{newline_len, white_len, hex_len, escape_tail, escape_len, begins_escape, hex_value};
ghost use Rattle.css_tokens.specs.Escapes.{character_of, escape_value};
ghost use Rattle.std.specs.Char.{digit_value};

use crate::codes::{is_newline, is_white};

pub(crate) fn begins_newline(rest: &[u8]) -> bool
    ensures { result ≡ begins is_newline rest.now }
{
    match rest {
        [b, ..] => is_newline(*b),
        [] => false,
    }
}

pub(crate) fn newline_len(rest: &[u8]) -> usize
    ensures value { result ≡ newline_len rest.now }
    ensures fits { result ≤ length rest.now }
{
    match rest {
        [b'\r', b'\n', ..] => 2,
        [b, ..] if is_newline(*b) => 1,
        _ => 0,
    }
}

fn white_len(rest: &[u8]) -> usize
    ensures value { result ≡ white_len rest.now }
    ensures fits { result ≤ length rest.now }
{
    match rest {
        [b' ' | b'\t', ..] => 1,
        _ => newline_len(rest),
    }
}

pub(crate) fn hex_len(text: &[u8]) -> usize
    ensures value { result ≡ hex_len text.now }
    ensures fits { result ≤ length text.now }
    ensures few { result ≤ 6 }
{
    text.iter()
        .take(6)
        .take_while(|b| b.is_ascii_hexdigit())
        .count()
}

/// How many bytes of an escape stand behind its `\`.
#[tactic(auto, unfolding(crate::specs::Escapes::escape_tail))]
pub(crate) fn escape_tail(rest: &[u8]) -> usize
    ensures value { result ≡ escape_tail rest.now }
    ensures fits { result ≤ length rest.now }
{
    match rest {
        [] => 0,
        [b, ..] if b.is_ascii_hexdigit() => {
            let digits = hex_len(rest);
            digits + white_len(&rest[digits..])
        }
        _ => 1,
    }
}

#[tactic(auto, unfolding(crate::specs::Escapes::escape_len))]
pub(crate) fn escape_len(text: &[u8]) -> usize
    ensures value { result ≡ escape_len text.now }
    ensures fits { result ≤ length text.now }
{
    match text {
        [b'\\', rest @ ..] => {
            if begins_newline(rest) {
                0
            } else {
                1 + escape_tail(rest)
            }
        }
        _ => 0,
    }
}

pub(crate) fn begins_escape(text: &[u8]) -> bool
    ensures { result ≡ begins_escape text.now }
{
    match text {
        [b'\\', rest @ ..] => !begins_newline(rest),
        _ => false,
    }
}

fn digit_value(b: u8) -> u32
    ensures value { result ≡ digit_value b }
    ensures small { result ≤ 36 }
{
    match b {
        b'0'..=b'9' => u32::from(b - b'0'),
        b'A'..=b'Z' => u32::from(b - b'A') + 10,
        b'a'..=b'z' => u32::from(b - b'a') + 10,
        _ => 36,
    }
}

pub(crate) fn hex_value(digits: &[u8]) -> u32
    requires { length digits.now ≤ 6 }
    ensures { result ≡ hex_value digits.now }
{
    let mut value = 0;
    for digit in digits {
        value = value * 16 + digit_value(*digit);
    }
    value
}

pub(crate) fn character_of(number: u32) -> char
    ensures { result ≡ character_of number }
{
    match char::from_u32(number) {
        Some(character) if number != 0 => character,
        _ => char::REPLACEMENT_CHARACTER,
    }
}

/// The value of an escape, of which this is what stands behind its `\`.
#[tactic(auto, unfolding(crate::specs::Escapes::escape_value))]
pub(crate) fn escape_value(rest: &[u8]) -> u32
    ensures { result ≡ escape_value rest.now }
{
    match rest {
        [] => 0xFFFD,
        [b, ..] if b.is_ascii_hexdigit() => u32::from(character_of(hex_value(
            &rest[..hex_len(rest)],
        ))),
        [b, ..] => u32::from(*b),
    }
}
