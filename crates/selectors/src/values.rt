//! What words say.

ghost use Rattle.std.specs.Prelude.{◌≡◌, ◌≤◌, ◌<◌, IfOk, string_bytes, length};
ghost use Rattle.std.specs.Str.{IsCharBoundary};
ghost use Rattle.selectors.specs.declared.words.WordKind.TheVariants as kinds;
ghost use Rattle.selectors.specs.Words.{IsWordOf, next_word, between};
ghost use Rattle.selectors.specs.Forms.{GivesRead};
ghost use Rattle.selectors.specs.Reading.{word_value, hash_value, string_of, lower_of, function_of, take_mark, ident_at, tight_ident_at};
ghost use Rattle.selectors.specs.Reading.{tight_mark_at, closing_at};

use crate::selector::SelErr;
use crate::words::{Word, WordKind, Words};
use css_tokens::unescape;
use std::alloc::{AllocError, Global};

/// A name's value, escapes read.
pub fn value_of(alloc: Global, text: &str, word: Word) -> Result<String, AllocError>
    requires { IsWordOf text.now word }
    ensures { IfOk result (λ v. string_bytes v ≡ word_value text.now word) }
{
    unescape(alloc, &text[word.start..word.end])
}

pub(crate) fn id_of(alloc: Global, text: &str, word: Word) -> Result<String, AllocError>
    requires cut { IsWordOf text.now word }
    requires id { word.kind ≡ kinds.Id }
    ensures { IfOk result (λ v. string_bytes v ≡ hash_value text.now word) }
{
    unescape(alloc, &text[word.start + 1..word.end])
}

/// The value of a string. One that the text's end cut short has no second quote.
pub(crate) fn string_of(alloc: Global, text: &str, word: Word) -> Result<String, AllocError>
    requires cut { IsWordOf text.now word }
    requires string { word.kind ≡ kinds.Str }
    ensures { IfOk result (λ v. string_bytes v ≡ string_of text.now word) }
{
    let bytes = text.as_bytes();
    if word.start + 1 < word.end && bytes[word.end - 1] == bytes[word.start] {
        return unescape(alloc, &text[word.start + 1..word.end - 1]);
    }
    unescape(alloc, &text[word.start + 1..word.end])
}

/// A name's value in ASCII lower case.
pub fn lower_of(alloc: Global, text: &str, word: Word) -> Result<String, AllocError>
    requires { IsWordOf text.now word }
    ensures { IfOk result (λ v. string_bytes v ≡ lower_of text.now word) }
{
    let mut name = value_of(alloc, text, word)?;
    name.make_ascii_lowercase();
    Ok(name)
}

/// A function's name, in lower case.
pub(crate) fn function_of(alloc: Global, text: &str, word: Word) -> Result<String, AllocError>
    requires cut { IsWordOf text.now word }
    requires function { word.kind ≡ kinds.Function }
    ensures { IfOk result (λ v. string_bytes v ≡ function_of text.now word) }
{
    let mut name = unescape(alloc, &text[word.start..word.end - 1])?;
    name.make_ascii_lowercase();
    Ok(name)
}

/// The text between two places, empty where the second stands before the first.
pub(crate) fn between(text: &str, start: usize, end: usize) -> &str
    requires start { IsCharBoundary text.now start }
    requires end { IsCharBoundary text.now end }
    ensures { result.now ≡ between text.now start end }
{
    if start <= end { &text[start..end] } else { "" }
}

pub(crate) fn next(words: &mut Words) -> Result<Word, SelErr>
    ensures reads { GivesRead (λ w. (w, words.new)) result (next_word words.old) }
    ensures cut { IfOk result (IsWordOf words.new.text) }
    ensures shorter { IfOk result (λ _. length words.new.words < length words.old.words) }
{
    words.next().ok_or(SelErr::Invalid)
}

pub(crate) fn take_mark(words: &mut Words, mark: u8) -> Result<(), SelErr>
    ensures reads { GivesRead (λ _. words.new) result (take_mark mark words.old) }
    ensures shorter { IfOk result (λ _. length words.new.words ≤ length words.old.words) }
{
    let word = next(words)?;
    if word.is_mark(mark) {
        Ok(())
    } else {
        Err(SelErr::Invalid)
    }
}

pub(crate) fn take_tight_mark(words: &mut Words, mark: u8) -> Result<(), SelErr>
    ensures reads { GivesRead (λ _. words.new) result (tight_mark_at mark words.old) }
    ensures shorter { IfOk result (λ _. length words.new.words ≤ length words.old.words) }
{
    if words.is_tight() {
        take_mark(words, mark)
    } else {
        Err(SelErr::Invalid)
    }
}

#[tactic(auto, unfolding(crate::specs::Reading::ident_at))]
pub(crate) fn ident_at(alloc: Global, words: &mut Words) -> Result<String, SelErr>
    ensures reads { GivesRead (λ s. (string_bytes s, words.new)) result (ident_at words.old) }
    ensures shorter { IfOk result (λ _. length words.new.words ≤ length words.old.words) }
{
    let word = next(words)?;
    match word.kind {
        WordKind::Ident => Ok(value_of(alloc, words.text(), word)?),
        _ => Err(SelErr::Invalid),
    }
}

pub(crate) fn tight_ident_at(alloc: Global, words: &mut Words) -> Result<String, SelErr>
    ensures reads { GivesRead (λ s. (string_bytes s, words.new)) result (tight_ident_at words.old) }
    ensures shorter { IfOk result (λ _. length words.new.words ≤ length words.old.words) }
{
    if words.is_tight() {
        ident_at(alloc, words)
    } else {
        Err(SelErr::Invalid)
    }
}

/// The first `)`.
pub(crate) fn closing_at(words: &mut Words) -> Result<Word, SelErr>
    ensures reads { GivesRead (λ w. (w, words.new)) result (closing_at words.old) }
    ensures cut { IfOk result (IsWordOf words.new.text) }
    ensures shorter { IfOk result (λ _. length words.new.words ≤ length words.old.words) }
{
    loop {
        let word = next(words)?;
        if word.is_mark(b')') {
            return Ok(word);
        }
    }
}
