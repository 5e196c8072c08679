// Lexemes taken off the front of a text.
ghost use Rattle.std.specs.Prelude.{◌≡◌, ◌<◌, ◌≤◌, ◌^◌, ◌∷◌, ◌++◌, length, take, decimal, true, false, IfSome};
ghost use Rattle.std.specs.List.{prefix_len, list_all};
ghost use Rattle.std.specs.Char.{is_ascii_digit};
ghost use Rattle.json.specs.Token.{string, number};
ghost use Rattle.json.specs.Word.{ends_word};
ghost use Rattle.json.specs.Lex.{token, between, colon, lex, begins_colon};
ghost use Rattle.json.specs.Run.{is_plain};

// A number that is not below this takes no digit more: it might be 2^64 then.
const MOST_BEFORE_A_DIGIT: u64 = 1_000_000_000_000_000_000;

/// What is behind the first byte, where that is this one.
pub(crate) fn behind<'a>(text: &'a str, byte: u8) -> Option<&'a str>
    ensures { IfSome result (λ rest. text.now ≡ byte ∷ rest.now) }
{
    let bytes = text.as_bytes();
    if bytes.is_empty() || bytes[0] != byte {
        return None;
    }
    let (_, rest) = text.split_at_checked(1)?;
    Some(rest)
}

/// What is behind a space that the text may begin with.
pub(crate) fn behind_space<'a>(text: &'a str) -> &'a str
    ensures { lex between result.now ≡ lex between text.now }
{
    match behind(text, b' ') {
        Some(rest) => rest,
        None => text,
    }
}

/// The first byte that is a quote, a backslash or a control byte, or the length.
pub(crate) fn plain_end(bytes: &[u8]) -> usize
    ensures { result ≡ prefix_len is_plain bytes.now }
{
    let mut at = 0;
    while at < bytes.len() && bytes[at] != b'"' && bytes[at] != b'\\' && bytes[at] >= b' ' {
        at += 1;
    }
    at
}

/// The string that the text begins with, where it has no escapes, and what is behind it.
pub(crate) fn string_in<'a>(text: &'a str) -> Option<(&'a str, &'a str)>
    ensures { IfSome result (λ p. lex between text.now ≡ token (string p.0.now) ∷ lex between p.1.now) }
{
    let inner = behind(text, b'"')?;
    let end = plain_end(inner.as_bytes());
    let (content, closing) = inner.split_at_checked(end)?;
    let rest = behind(closing, b'"')?;
    Some((content, rest))
}

// What is behind that text, where the text begins with it.
fn behind_text<'a>(text: &'a str, front: &str) -> Option<&'a str>
    ensures { IfSome result (λ rest. text.now ≡ front.now ++ rest.now) }
{
    let (found, rest) = text.split_at_checked(front.len())?;
    if found == front { Some(rest) } else { None }
}

/// What is behind the name of a member and its colon, where the text begins with that name.
pub(crate) fn behind_name<'a>(text: &'a str, name: &str) -> Option<&'a str>
    requires { list_all is_plain name.now ≡ true }
    ensures { IfSome result (λ rest. lex between text.now ≡ token (string name.now) ∷ colon ∷ lex between rest.now) }
{
    let inner = behind(text, b'"')?;
    let closing = behind_text(inner, name)?;
    let mark = behind(closing, b'"')?;
    let rest = behind(mark, b':')?;
    Some(rest)
}

/// Whether a comma or a closing bracket is next.
pub(crate) fn value_ends(text: &str) -> bool
    ensures word { result ≡ true → ends_word text.now ≡ true }
    ensures value { result ≡ true → begins_colon (lex between text.now) ≡ false }
{
    let bytes = text.as_bytes();
    if bytes.is_empty() {
        return false;
    }
    if bytes[0] == b',' {
        return true;
    }
    if bytes[0] == b'}' {
        return true;
    }
    bytes[0] == b']'
}

// The number that the digits at the front of the text spell, as it is written, and how many they are.
fn digits_in(bytes: &[u8]) -> Option<(u64, usize)>
    ensures { IfSome result (λ p. (take p.1 bytes.now ≡ decimal p.0) × (p.1 ≤ length bytes.now) × (p.0 < 2 ^ 64)) }
{
    let mut whole: u64 = 0;
    let mut at = 0;
    while at < bytes.len() && bytes[at].is_ascii_digit() {
        if whole >= MOST_BEFORE_A_DIGIT || at > 0 && whole == 0 {
            return None;
        }
        whole = whole * 10 + (bytes[at] - b'0') as u64;
        at += 1;
    }
    if at == 0 { None } else { Some((whole, at)) }
}

/// The whole number that the text begins with, spelled as it is written and of at most nineteen digits, and what is behind it.
pub(crate) fn whole_in<'a>(text: &'a str) -> Option<(u64, &'a str)>
    ensures { IfSome result (λ p. lex between text.now ≡ token (number (decimal p.0)) ∷ lex between p.1.now) }
{
    let (whole, end) = digits_in(text.as_bytes())?;
    let (_, rest) = text.split_at_checked(end)?;
    if !value_ends(rest) {
        return None;
    }
    Some((whole, rest))
}
