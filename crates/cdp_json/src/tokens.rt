// Tokens taken one by one, each of the kind that is meant to come next.
ghost use Rattle.std.specs.Prelude.{◌≡◌, ℕ, ◌<◌, ◌∷◌, ◌++◌, decimal, true, false, Some, IfOk, IfErr, IfSome, IfNone, MatchResult};
ghost use Rattle.node_tree.specs.Numbers.{number_limit, counted_limit};
ghost use Rattle.json.specs.Token.{begin_object, end_object, begin_array, key, string, number as number_token};
ghost use Rattle.cdp_json.specs.declared.tokens.ScanErr.TheVariants.{OtherForm};
ghost use Rattle.cdp_json.specs.Kinds.{whole, text as text_kind, is_counted};
ghost use Rattle.cdp_json.specs.Tokens.{field_tokens, IsOther, IsOtherKind, IsNoWhole, IsNoWholeField, IsNoTextField};

use crate::values::COUNTED_LIMIT;
use json::{Reader, Token};
use std::alloc::{AllocError, AllocFailed};
use thiserror::Error;

/// Why a value is not read off its tokens.
#[derive(Clone, Copy, Debug, Error)]
pub enum ScanErr {
    /// They are not of the usual form. They may spell a value all the same, or one that is refused.
    #[error("the text is not in its usual form")]
    OtherForm,
    #[error("out of memory")]
    Memory,
}

impl From<AllocError> for ScanErr {
    ghost use Rattle.std.specs.Prelude.{◌≡◌};
    ghost use Rattle.cdp_json.specs.declared.tokens.ScanErr.TheVariants.{Memory};

    ghost from_gives = { λ _ e. e ≡ Memory };

    fn from(_: AllocError) -> ScanErr {
        ScanErr::Memory
    }
}

impl<T: Drop> From<AllocFailed<T>> for ScanErr {
    ghost use Rattle.std.specs.Prelude.{◌≡◌};
    ghost use Rattle.cdp_json.specs.declared.tokens.ScanErr.TheVariants.{Memory};

    ghost from_gives = { λ _ e. e ≡ Memory };

    fn from(_: AllocFailed<T>) -> ScanErr {
        ScanErr::Memory
    }
}

/// The beginning of an object. Each of these takes a token also where it answers an error.
pub fn take_begin_object(reader: &mut Reader<'_>) -> Result<(), ScanErr>
    ensures { MatchResult result (λ _. reader.old ≡ begin_object ∷ reader.new)
        (λ e. (e ≡ OtherForm) × IsOther begin_object reader.old) }
{
    match reader.next() {
        Some(Token::BeginObject) => Ok(()),
        _ => Err(ScanErr::OtherForm),
    }
}

/// The end of an object.
pub fn take_end_object(reader: &mut Reader<'_>) -> Result<(), ScanErr>
    ensures { MatchResult result (λ _. reader.old ≡ end_object ∷ reader.new)
        (λ e. (e ≡ OtherForm) × IsOther end_object reader.old) }
{
    match reader.next() {
        Some(Token::EndObject) => Ok(()),
        _ => Err(ScanErr::OtherForm),
    }
}

/// The beginning of an array.
pub fn take_begin_array(reader: &mut Reader<'_>) -> Result<(), ScanErr>
    ensures { MatchResult result (λ _. reader.old ≡ begin_array ∷ reader.new)
        (λ e. (e ≡ OtherForm) × IsOther begin_array reader.old) }
{
    match reader.next() {
        Some(Token::BeginArray) => Ok(()),
        _ => Err(ScanErr::OtherForm),
    }
}

/// The name of a member, whatever it is.
pub fn take_any_key<'a>(reader: &mut Reader<'a>) -> Result<&'a str, ScanErr>
    ensures { MatchResult result (λ name. reader.old ≡ key name.now ∷ reader.new)
        (λ e. (e ≡ OtherForm) × IsOtherKind key reader.old) }
{
    match reader.next() {
        Some(Token::Key(name)) => Ok(name),
        _ => Err(ScanErr::OtherForm),
    }
}

/// The name of a member, which has to be this one.
pub fn take_key(reader: &mut Reader<'_>, name: &str) -> Result<(), ScanErr>
    ensures { MatchResult result (λ _. reader.old ≡ key name.now ∷ reader.new)
        (λ e. (e ≡ OtherForm) × IsOther (key name.now) reader.old) }
{
    let found = take_any_key(reader)?;
    if found == name {
        Ok(())
    } else {
        Err(ScanErr::OtherForm)
    }
}

/// A text.
pub fn take_text<'a>(reader: &mut Reader<'a>) -> Result<&'a str, ScanErr>
    ensures { MatchResult result (λ text. reader.old ≡ string text.now ∷ reader.new)
        (λ e. (e ≡ OtherForm) × IsOtherKind string reader.old) }
{
    match reader.next() {
        Some(Token::String(text)) => Ok(text),
        _ => Err(ScanErr::OtherForm),
    }
}

/// The member of that name, which is a text.
pub fn take_text_field<'a>(reader: &mut Reader<'a>, name: &str) -> Result<&'a str, ScanErr>
    ensures { MatchResult result (λ t. reader.old ≡ field_tokens name.now (Some (text_kind.spell t.now)) ++ reader.new)
        (λ e. (e ≡ OtherForm) × IsNoTextField name.now reader.old) }
{
    take_key(reader, name)?;
    take_text(reader)
}

// Whether the text is how the number is written.
fn is_written(number: u64, text: &str) -> bool
    ensures yes { result ≡ true → text.now ≡ decimal number }
    ensures no { result ≡ false → text.now ≡ decimal number → ⊥ }
{
    let mut buffer = itoa::Buffer::new();
    buffer.format(number) == text
}

// A number that is spelled as it is written.
#[tactic(auto, using(crate::proofs::NumberTokens::none_written, crate::proofs::NumberTokens::other_written))]
fn spelled(text: &str) -> Option<u64>
    ensures some { IfSome result (λ n. text.now ≡ decimal n) }
    ensures none { IfNone result ((n : ℕ) → n < number_limit → text.now ≡ decimal n → ⊥) }
{
    let Ok(number) = text.parse::<u64>() else {
        return None;
    };
    if is_written(number, text) {
        Some(number)
    } else {
        None
    }
}

/// A number below 2^64, spelled as it is written.
pub fn take_whole(reader: &mut Reader<'_>) -> Result<u64, ScanErr>
    ensures { MatchResult result (λ n. reader.old ≡ number_token (decimal n) ∷ reader.new)
        (λ e. (e ≡ OtherForm) × IsNoWhole reader.old) }
{
    match reader.next() {
        Some(Token::Number(text)) => spelled(text).ok_or(ScanErr::OtherForm),
        _ => Err(ScanErr::OtherForm),
    }
}

/// The member of that name, which is a number below 2^64, spelled as it is written.
pub fn take_whole_field(reader: &mut Reader<'_>, name: &str) -> Result<u64, ScanErr>
    ensures { MatchResult result (λ n. reader.old ≡ field_tokens name.now (Some (whole.spell n)) ++ reader.new)
        (λ e. (e ≡ OtherForm) × IsNoWholeField number_limit name.now reader.old) }
{
    take_key(reader, name)?;
    take_whole(reader)
}

/// The number is below 2^53.
pub fn is_counted(number: u64) -> bool
    ensures { result ≡ is_counted number }
{
    number < COUNTED_LIMIT
}

/// The member of that name, which is a number from 0 to 2^53-1 spelled as it is written.
pub fn take_counted_field(reader: &mut Reader<'_>, name: &str) -> Result<u64, ScanErr>
    ensures read { IfOk result (λ n. reader.old ≡ field_tokens name.now (Some (whole.spell n)) ++ reader.new) }
    ensures fits { IfOk result (λ n. whole.fits n ≡ true) }
    ensures other { IfErr result (λ e. (e ≡ OtherForm) × IsNoWholeField counted_limit name.now reader.old) }
{
    let number = take_whole_field(reader, name)?;
    if is_counted(number) {
        Ok(number)
    } else {
        Err(ScanErr::OtherForm)
    }
}
