//! How names and the values of attributes compare (Selectors 3, section 6.3).

ghost use Rattle.std.specs.Prelude.{◌≡◌, ◌++◌, ◌∷◌, [], nat_eq};
ghost use Rattle.std.specs.Str.{bytes_eq};
ghost use Rattle.std.specs.Char.{is_ascii_whitespace};
ghost use Rattle.std.specs.List.{list_any, slice_split, starts_with};
ghost use Rattle.select_match.specs.Texts.{same_name, has_word, has_part, compares};

use selectors::AttrOp;

/// Names are equal but for the case of ASCII letters.
pub fn same_name(a: &str, b: &str) -> bool
    ensures { result ≡ same_name a.now b.now }
{
    a.eq_ignore_ascii_case(b)
}

fn is_among(word: &[u8], text: &[u8]) -> bool
    ensures { result ≡ list_any (λ w. bytes_eq w word.now) (slice_split is_ascii_whitespace text.now) }
{
    text.split(|b| b.is_ascii_whitespace()).any(|w| w == word)
}

/// Whether the word is one of those of the text, which white space separates: `[a~=word]`.
pub fn has_word(word: &str, text: &str) -> bool
    ensures { result ≡ has_word word.now text.now }
{
    !word.is_empty() && is_among(word.as_bytes(), text.as_bytes())
}

fn has_part(part: &[u8], text: &[u8]) -> bool
    ensures { result ≡ has_part part.now text.now }
{
    for i in 0..text.len() {
        if text[i..].starts_with(part) {
            return true;
        }
    }
    part.is_empty()
}

/// The value begins with the operand and a `-`.
fn is_dashed(operand: &[u8], value: &[u8]) -> bool
    ensures { result ≡ starts_with nat_eq value.now (operand.now ++ 45 ∷ []) }
{
    if value.len() <= operand.len() {
        return false;
    }
    if value[operand.len()] != b'-' {
        return false;
    }
    value.starts_with(operand)
}

/// An attribute's value is as the operator and the operand ask.
pub fn compares(op: AttrOp, operand: &str, value: &str) -> bool
    ensures { result ≡ compares op operand.now value.now }
{
    match op {
        AttrOp::Exists => true,
        AttrOp::Equal => value == operand,
        AttrOp::Word => has_word(operand, value),
        AttrOp::Dash => value == operand || is_dashed(operand.as_bytes(), value.as_bytes()),
        AttrOp::Prefix => !operand.is_empty() && value.as_bytes().starts_with(operand.as_bytes()),
        AttrOp::Suffix => !operand.is_empty() && value.as_bytes().ends_with(operand.as_bytes()),
        AttrOp::Part => !operand.is_empty() && has_part(operand.as_bytes(), value.as_bytes()),
    }
}
