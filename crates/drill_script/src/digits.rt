// Texts that end with a number.
ghost use Rattle.std.specs.Prelude.{◌≡◌, ◌++◌, IfOk, string_bytes, decimal};

use std::alloc::{AllocError, Global};

/// The word and the number.
pub(crate) fn numbered(alloc: Global, word: &str, number: u64) -> Result<String, AllocError>
    ensures { IfOk result (λ text. string_bytes text ≡ word.now ++ decimal number) }
{
    let mut text = String::from_str(alloc, word)?;
    text.push_str(number.to_string(alloc)?.as_str())?;
    Ok(text)
}
