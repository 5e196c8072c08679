ghost use Rattle.std.specs.Prelude.{◌≡◌, map, string_bytes, true, false};
ghost use Rattle.inspect_replay.specs.Words.{is_replay, is_serve, is_pair, is_share, count_in, drill_in};

use drill_script::is_drill;

/// Whether the words are exactly `replay`.
pub(crate) fn is_replay(words: &[String]) -> bool
    ensures is { result ≡ is_replay (map string_bytes words.now) }
    // one word is not two
    ensures not_share { result ≡ true → is_share (map string_bytes words.now) ≡ false }
    ensures not_pair { result ≡ true → is_pair (map string_bytes words.now) ≡ false }
{
    match words {
        [word] => word.as_str() == "replay",
        _ => false,
    }
}

/// Whether the words are exactly `serve`.
pub(crate) fn is_serve(words: &[String]) -> bool
    ensures is { result ≡ is_serve (map string_bytes words.now) }
    // one word is not two
    ensures not_share { result ≡ true → is_share (map string_bytes words.now) ≡ false }
    ensures not_pair { result ≡ true → is_pair (map string_bytes words.now) ≡ false }
{
    match words {
        [word] => word.as_str() == "serve",
        _ => false,
    }
}

/// Whether the words are exactly `share`.
pub(crate) fn is_share(words: &[String]) -> bool
    ensures is { result ≡ is_share (map string_bytes words.now) }
    // one word is not two
    ensures not_pair { result ≡ true → is_pair (map string_bytes words.now) ≡ false }
{
    match words {
        [word] => word.as_str() == "share",
        _ => false,
    }
}

/// Whether the words are exactly `pair`.
pub(crate) fn is_pair(words: &[String]) -> bool
    ensures { result ≡ is_pair (map string_bytes words.now) }
{
    match words {
        [word] => word.as_str() == "pair",
        _ => false,
    }
}

// The number of divs that the text is.
fn count_in(text: &str) -> Option<u64>
    ensures { result ≡ count_in text.now }
{
    if text.starts_with('0') {
        return None;
    }
    if text.starts_with('+') {
        return None;
    }
    match text.parse::<u64>() {
        Ok(divs) => if is_drill(divs) { Some(divs) } else { None },
        Err(_) => None,
    }
}

/// The number of divs, where the words are `drill` and such a number.
pub(crate) fn drill_in(words: &[String]) -> Option<u64>
    ensures { result ≡ drill_in (map string_bytes words.now) }
{
    match words {
        [word, number] => if word.as_str() == "drill" {
            count_in(number.as_str())
        } else {
            None
        },
        _ => None,
    }
}
