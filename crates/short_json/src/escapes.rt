// Strings with escapes. What one spells is guessed, written again and compared with what stands there: so no more
// has to be known of escapes than how they are written.
ghost use Rattle.std.specs.Prelude.{◌≡◌, ◌<◌, ◌∷◌, string_bytes, IfOk, IfSome};
ghost use Rattle.json.specs.Token.{string};
ghost use Rattle.json.specs.Lex.{token, between, lex};
ghost use Rattle.json.specs.Print.{quoted};

use crate::lexemes::plain_end;
use json::Writer;
use std::alloc::{AllocError, Global};

// The control character that two digits behind `\\u00` spell.
fn control(bytes: &[u8]) -> Option<char> {
    if bytes.len() < 6 || bytes[2] != b'0' || bytes[3] != b'0' {
        return None;
    }
    let high = (bytes[4] as char).to_digit(16)?;
    let low = (bytes[5] as char).to_digit(16)?;
    char::from_u32(high * 16 + low)
}

// The character that an escape at the front spells, and how many bytes it takes.
fn escape_at(bytes: &[u8]) -> Option<(char, usize)>
    ensures { IfSome result (λ p. 0 < p.1) }
{
    if bytes.len() < 2 || bytes[0] != b'\\' {
        return None;
    }
    match bytes[1] {
        b'n' => Some(('\n', 2)),
        b'r' => Some(('\r', 2)),
        b't' => Some(('\t', 2)),
        b'b' => Some(('\u{8}', 2)),
        b'f' => Some(('\u{c}', 2)),
        b'"' => Some(('"', 2)),
        b'\\' => Some(('\\', 2)),
        b'u' => Some((control(bytes)?, 6)),
        _ => None,
    }
}

// What a string spells up to its closing quote, or up to what is no escape.
fn guessed(alloc: Global, inner: &str) -> Result<String, AllocError> {
    let mut text = String::new(alloc);
    let mut rest = inner;
    while let Some((plain, stop)) = rest.split_at_checked(plain_end(rest.as_bytes())) {
        text.push_str(plain)?;
        let Some((letter, size)) = escape_at(stop.as_bytes()) else {
            return Ok(text);
        };
        text.push(letter)?;
        let Some((_, behind)) = stop.split_at_checked(size) else {
            return Ok(text);
        };
        rest = behind;
    }
    Ok(text)
}

// The text as a string is written.
fn written(alloc: Global, text: &str) -> Result<Vec<u8>, AllocError>
    ensures { IfOk result (λ bytes. bytes.items ≡ quoted text.now) }
{
    let mut out = Writer::new(Vec::new(alloc));
    out.string(text)?;
    Ok(out.into_inner())
}

/// The string that the text begins with, with the escapes that are usual, and what is behind it.
pub(crate) fn escaped_in<'a>(
    alloc: Global,
    text: &'a str,
) -> Result<Option<(String, &'a str)>, AllocError>
    ensures { IfOk result (λ found. IfSome found (λ p. lex between text.now ≡ token (string (string_bytes p.0)) ∷ lex between p.1.now)) }
{
    let Some((_, inner)) = text.split_at_checked(1) else {
        return Ok(None);
    };
    let found = guessed(alloc, inner)?;
    let spelled = written(alloc, found.as_str())?;
    let Some((front, rest)) = text.split_at_checked(spelled.len()) else {
        return Ok(None);
    };
    if front.as_bytes() == spelled.as_slice() {
        Ok(Some((found, rest)))
    } else {
        Ok(None)
    }
}
