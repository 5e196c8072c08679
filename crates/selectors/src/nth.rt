//! The text an+b.

ghost use Rattle.std.specs.Prelude.{◌≡◌, ◌≤◌, length, Option, option_map};
ghost use Rattle.std.specs.Char.{digit_value};
ghost use Rattle.css_tokens.specs.Runs.{white_run, digits};
ghost use Rattle.selectors.specs.Nth.{skip_white, is_blank, decimal, nth_signed, number_at, ends_number, digits_of, offset_of, after_n};
ghost use Rattle.selectors.specs.Nth.{nth_step, linear_by, linear_of, is_nth_letter, is_odd, is_even, nth_by, nth_of};

/// The places `step * n + offset` for n from 0.
#[derive(Clone, Copy)]
pub(crate) struct Linear {
    pub step: i64,
    pub offset: i64,
}

fn white_len(text: &[u8]) -> usize
    ensures value { result ≡ white_run text.now }
    ensures fits { result ≤ length text.now }
{
    text.iter().take_while(|b| b.is_ascii_whitespace()).count()
}

fn digits_len(text: &[u8]) -> usize
    ensures value { result ≡ digits text.now }
    ensures fits { result ≤ length text.now }
{
    text.iter().take_while(|b| b.is_ascii_digit()).count()
}

fn skip_white(text: &[u8]) -> &[u8]
    ensures { result.now ≡ skip_white text.now }
{
    &text[white_len(text)..]
}

fn is_blank(text: &[u8]) -> bool
    ensures { result ≡ is_blank text.now }
{
    white_len(text) == text.len()
}

fn digit_value(b: u8) -> u32
    ensures value { result ≡ digit_value b }
    ensures small { result ≤ 36 }
{
    match b {
        b'0'..=b'9' => u32::from(b - b'0'),
        b'A'..=b'Z' => u32::from(b - b'A') + 10,
        b'a'..=b'z' => u32::from(b - b'a') + 10,
        _ => 36,
    }
}

fn decimal(digits: &[u8]) -> u32
    requires { length digits.now ≤ 9 }
    ensures { result ≡ decimal digits.now }
{
    let mut value = 0;
    for digit in digits {
        value = value * 10 + digit_value(*digit);
    }
    value
}

fn signed(negative: bool, n: u32) -> i64
    ensures { result ≡ nth_signed negative n }
{
    if negative {
        -i64::from(n)
    } else {
        i64::from(n)
    }
}

fn number_at(text: &[u8]) -> Option<u32>
    ensures { result ≡ number_at text.now }
{
    let n = digits_len(text);
    if n <= 9 {
        Some(decimal(&text[..n]))
    } else {
        None
    }
}

fn ends_number(text: &[u8]) -> bool
    ensures { result ≡ ends_number text.now }
{
    let n = digits_len(text);
    0 < n && is_blank(&text[n..])
}

#[tactic(auto, unfolding(crate::specs::Nth::digits_of))]
fn digits_of(negative: bool, text: &[u8]) -> Option<i64>
    ensures { result ≡ digits_of negative text.now }
{
    let n = number_at(text)?;
    if ends_number(text) {
        Some(signed(negative, n))
    } else {
        None
    }
}

#[tactic(auto, unfolding(crate::specs::Nth::offset_of))]
fn offset_of(text: &[u8]) -> Option<i64>
    ensures { result ≡ offset_of text.now }
{
    match text {
        [b'+', rest @ ..] => digits_of(false, skip_white(rest)),
        [b'-', rest @ ..] => digits_of(true, skip_white(rest)),
        _ => None,
    }
}

#[tactic(auto, unfolding(crate::specs::Nth::after_n))]
fn after_n(text: &[u8]) -> Option<i64>
    ensures { result ≡ after_n text.now }
{
    if is_blank(text) {
        Some(0)
    } else {
        offset_of(skip_white(text))
    }
}

fn step_of(negative: bool, text: &[u8]) -> Option<i64>
    ensures { result ≡ nth_step negative text.now }
{
    let n = number_at(text)?;
    if digits_len(text) == 0 {
        return Some(signed(negative, 1));
    }
    Some(signed(negative, n))
}

fn linear_by(negative: bool, text: &[u8]) -> Option<Linear>
    ensures { option_map (λ v. (v.step, v.offset)) result ≡ linear_by negative text.now }
{
    match &text[digits_len(text)..] {
        [b'n' | b'N', rest @ ..] => {
            let step = step_of(negative, text)?;
            let offset = after_n(rest)?;
            Some(Linear { step, offset })
        }
        _ => {
            let offset = digits_of(negative, text)?;
            Some(Linear { step: 0, offset })
        }
    }
}

#[tactic(auto, unfolding(crate::specs::Nth::linear_of))]
fn linear_of(text: &[u8]) -> Option<Linear>
    ensures { option_map (λ v. (v.step, v.offset)) result ≡ linear_of text.now }
{
    match text {
        [b'+', rest @ ..] => linear_by(false, rest),
        [b'-', rest @ ..] => linear_by(true, rest),
        _ => linear_by(false, text),
    }
}

fn is_letter(letter: u8, b: u8) -> bool
    ensures { result ≡ is_nth_letter letter b }
{
    b.to_ascii_lowercase() == letter
}

fn is_odd(text: &[u8]) -> bool
    ensures { result ≡ is_odd text.now }
{
    match text {
        [a, b, c, rest @ ..] => {
            (is_letter(b'o', *a) && is_letter(b'd', *b)) && (is_letter(b'd', *c) && is_blank(rest))
        }
        _ => false,
    }
}

fn is_even(text: &[u8]) -> bool
    ensures { result ≡ is_even text.now }
{
    match text {
        [a, b, c, d, rest @ ..] => {
            (is_letter(b'e', *a) && is_letter(b'v', *b))
                && ((is_letter(b'e', *c) && is_letter(b'n', *d)) && is_blank(rest))
        }
        _ => false,
    }
}

fn nth_by(own: &[u8]) -> Option<Linear>
    ensures { option_map (λ v. (v.step, v.offset)) result ≡ nth_by own.now }
{
    if is_odd(own) {
        Some(Linear { step: 2, offset: 1 })
    } else if is_even(own) {
        Some(Linear { step: 2, offset: 0 })
    } else {
        linear_of(own)
    }
}

#[tactic(auto, unfolding(crate::specs::Nth::nth_of))]
pub(crate) fn nth_of(text: &[u8]) -> Option<Linear>
    ensures { option_map (λ v. (v.step, v.offset)) result ≡ nth_of text.now }
{
    nth_by(skip_white(text))
}
