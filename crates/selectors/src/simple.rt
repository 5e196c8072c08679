//! Simple selectors and pseudo-elements: the parts of a compound.
//!
//! A function that has taken the first word of what it reads gets that word as an argument.

ghost use Rattle.std.specs.Prelude.{◌≡◌, ◌≤◌, ◌<◌, IfOk, length};
ghost use Rattle.std.specs.Str.{IsCharBoundary};
ghost use Rattle.selectors.specs.declared.words.WordKind.TheVariants as kinds;
ghost use Rattle.selectors.specs.Words.{IsWordOf};
ghost use Rattle.selectors.specs.Forms.{GivesRead, test_seen};
ghost use Rattle.selectors.specs.Reading.{operator_of, equals_at, operator_at, operand_at, attribute_at, class_at};
ghost use Rattle.selectors.specs.Reading.{plain_from, nth_at, lang_at, function_at, named_at, called_at, pseudo_at, argument_from, not_at};
ghost use Rattle.selectors.specs.Reading.{compound_item_seen, element_at, colon_named, colon_called, colon_at, item_from, compound_item_at};
ghost use Rattle.selectors.specs.Reading.{first_part_at, first_from};

use crate::names::{is_pseudo_element, nth_kind, pseudo_class};
use crate::nth::nth_of;
use crate::selector::{AttrOp, NthKind, SelErr, Simple, Test};
use crate::values::{
    between, closing_at, function_of, id_of, ident_at, lower_of, next, string_of, take_mark,
    take_tight_mark, tight_ident_at, value_of,
};
use crate::words::{Word, WordKind, Words};
use node_tree::Text;
use std::alloc::Global;

fn operator_of(kind: WordKind) -> Option<AttrOp>
    ensures { result ≡ operator_of kind }
{
    match kind {
        WordKind::Mark(b'~') => Some(AttrOp::Word),
        WordKind::Mark(b'|') => Some(AttrOp::Dash),
        WordKind::Mark(b'^') => Some(AttrOp::Prefix),
        WordKind::Mark(b'$') => Some(AttrOp::Suffix),
        WordKind::Mark(b'*') => Some(AttrOp::Part),
        _ => None,
    }
}

fn equals_at(words: &mut Words, first: Word, op: AttrOp) -> Result<AttrOp, SelErr>
    ensures reads { GivesRead (λ o. (o, words.new)) result (equals_at first op words.old) }
    ensures shorter { IfOk result (λ _. length words.new.words ≤ length words.old.words) }
{
    let equals = next(words)?;
    if equals.is_mark(b'=') && equals.start == first.end {
        Ok(op)
    } else {
        Err(SelErr::Invalid)
    }
}

/// `=`, or one of five characters and `=` right behind it.
#[tactic(auto, unfolding(crate::specs::Reading::operator_at))]
fn operator_at(words: &mut Words) -> Result<AttrOp, SelErr>
    ensures reads { GivesRead (λ o. (o, words.new)) result (operator_at words.old) }
    ensures shorter { IfOk result (λ _. length words.new.words ≤ length words.old.words) }
{
    let first = next(words)?;
    if first.is_mark(b'=') {
        return Ok(AttrOp::Equal);
    }
    let Some(op) = operator_of(first.kind) else {
        return Err(SelErr::Invalid);
    };
    equals_at(words, first, op)
}

/// An ident or a string.
#[tactic(auto, unfolding(crate::specs::Reading::operand_at))]
fn operand_at(alloc: Global, words: &mut Words) -> Result<Text, SelErr>
    ensures reads { GivesRead (λ t. (t, words.new)) result (operand_at words.old) }
    ensures shorter { IfOk result (λ _. length words.new.words ≤ length words.old.words) }
{
    let word = next(words)?;
    match word.kind {
        WordKind::Ident => Ok(Text::new(value_of(alloc, words.text(), word)?)),
        WordKind::Str => Ok(Text::new(string_of(alloc, words.text(), word)?)),
        _ => Err(SelErr::Invalid),
    }
}

/// After `[`.
#[tactic(auto, unfolding(crate::specs::Reading::attribute_at))]
fn attribute_at(alloc: Global, words: &mut Words) -> Result<Test, SelErr>
    ensures reads { GivesRead (λ t. (test_seen t, words.new)) result (attribute_at words.old) }
    ensures shorter { IfOk result (λ _. length words.new.words ≤ length words.old.words) }
{
    let name = Text::new(ident_at(alloc, words)?);
    if words.is_mark_next(b']') {
        take_mark(words, b']')?;
        return Ok(Test::Attr {
            name,
            op: AttrOp::Exists,
            operand: Text::empty(alloc),
        });
    }
    let op = operator_at(words)?;
    let operand = operand_at(alloc, words)?;
    take_mark(words, b']')?;
    Ok(Test::Attr { name, op, operand })
}

/// After `.`.
fn class_at(alloc: Global, words: &mut Words) -> Result<Test, SelErr>
    ensures reads { GivesRead (λ t. (test_seen t, words.new)) result (class_at words.old) }
    ensures shorter { IfOk result (λ _. length words.new.words ≤ length words.old.words) }
{
    Ok(Test::Class(Text::new(tight_ident_at(alloc, words)?)))
}

/// An id, a class or an attribute selector.
#[tactic(auto, unfolding(crate::specs::Reading::plain_from))]
fn plain_from(alloc: Global, words: &mut Words, word: Word) -> Result<Test, SelErr>
    requires { IsWordOf words.old.text word }
    ensures reads { GivesRead (λ t. (test_seen t, words.new)) result (plain_from word words.old) }
    ensures shorter { IfOk result (λ _. length words.new.words ≤ length words.old.words) }
{
    match word.kind {
        WordKind::Id => Ok(Test::Id(Text::new(id_of(alloc, words.text(), word)?))),
        WordKind::Mark(b'.') => class_at(alloc, words),
        WordKind::Mark(b'[') => attribute_at(alloc, words),
        _ => Err(SelErr::Invalid),
    }
}

/// The text an+b from `start` up to the first `)`.
#[tactic(auto, unfolding(crate::specs::Reading::nth_at))]
fn nth_at(words: &mut Words, kind: NthKind, start: usize) -> Result<Test, SelErr>
    requires { IsCharBoundary words.old.text start }
    ensures reads { GivesRead (λ t. (test_seen t, words.new)) result (nth_at kind start words.old) }
    ensures shorter { IfOk result (λ _. length words.new.words ≤ length words.old.words) }
{
    let close = closing_at(words)?;
    let Some(places) = nth_of(between(words.text(), start, close.start).as_bytes()) else {
        return Err(SelErr::Invalid);
    };
    Ok(Test::Nth {
        kind,
        step: places.step,
        offset: places.offset,
    })
}

/// After `:lang(`: an ident and `)`, with no white space.
#[tactic(auto, unfolding(crate::specs::Reading::lang_at))]
fn lang_at(alloc: Global, words: &mut Words) -> Result<Test, SelErr>
    ensures reads { GivesRead (λ t. (test_seen t, words.new)) result (lang_at words.old) }
    ensures shorter { IfOk result (λ _. length words.new.words ≤ length words.old.words) }
{
    let _language = tight_ident_at(alloc, words)?;
    take_tight_mark(words, b')')?;
    Ok(Test::Never)
}

/// After a function of this name that ends at `start`, and is not `:not(`.
#[tactic(auto, unfolding(crate::specs::Reading::function_at))]
fn function_at(alloc: Global, words: &mut Words, name: &str, start: usize) -> Result<Test, SelErr>
    requires { IsCharBoundary words.old.text start }
    ensures reads { GivesRead (λ t. (test_seen t, words.new)) result (function_at name.now start words.old) }
    ensures shorter { IfOk result (λ _. length words.new.words ≤ length words.old.words) }
{
    if name == "lang" {
        return lang_at(alloc, words);
    }
    let Some(kind) = nth_kind(name) else {
        return Err(SelErr::Invalid);
    };
    nth_at(words, kind, start)
}

/// The pseudo-class that an ident names.
fn named_at(alloc: Global, words: &Words, word: Word) -> Result<Test, SelErr>
    requires { IsWordOf words.now.text word }
    ensures { GivesRead (λ t. (test_seen t, words.now)) result (named_at word words.now) }
{
    let name = lower_of(alloc, words.text(), word)?;
    pseudo_class(name.as_str()).ok_or(SelErr::Invalid)
}

/// The pseudo-class that a function but `not` opens.
fn called_at(alloc: Global, words: &mut Words, word: Word) -> Result<Test, SelErr>
    requires cut { IsWordOf words.old.text word }
    requires function { word.kind ≡ kinds.Function }
    ensures reads { GivesRead (λ t. (test_seen t, words.new)) result (called_at word words.old) }
    ensures shorter { IfOk result (λ _. length words.new.words ≤ length words.old.words) }
{
    let name = function_of(alloc, words.text(), word)?;
    function_at(alloc, words, name.as_str(), word.end)
}

/// After `:`, a pseudo-class but `:not`.
#[tactic(auto, unfolding(crate::specs::Reading::pseudo_at))]
fn pseudo_at(alloc: Global, words: &mut Words) -> Result<Test, SelErr>
    ensures reads { GivesRead (λ t. (test_seen t, words.new)) result (pseudo_at words.old) }
    ensures shorter { IfOk result (λ _. length words.new.words ≤ length words.old.words) }
{
    let word = next(words)?;
    if word.spaced {
        return Err(SelErr::Invalid);
    }
    match word.kind {
        WordKind::Ident => named_at(alloc, words, word),
        WordKind::Function => called_at(alloc, words, word),
        _ => Err(SelErr::Invalid),
    }
}

/// The argument of `:not`.
#[tactic(auto, unfolding(crate::specs::Reading::argument_from))]
fn argument_from(alloc: Global, words: &mut Words, word: Word) -> Result<Test, SelErr>
    requires { IsWordOf words.old.text word }
    ensures reads { GivesRead (λ t. (test_seen t, words.new)) result (argument_from word words.old) }
    ensures shorter { IfOk result (λ _. length words.new.words ≤ length words.old.words) }
{
    match word.kind {
        WordKind::Ident => Ok(Test::Tag(Text::new(value_of(alloc, words.text(), word)?))),
        WordKind::Mark(b'*') => Ok(Test::Any),
        WordKind::Mark(b':') => pseudo_at(alloc, words),
        _ => plain_from(alloc, words, word),
    }
}

/// After `:not(`.
#[tactic(auto, unfolding(crate::specs::Reading::not_at))]
fn not_at(alloc: Global, words: &mut Words) -> Result<Test, SelErr>
    ensures reads { GivesRead (λ t. (test_seen t, words.new)) result (not_at words.old) }
    ensures shorter { IfOk result (λ _. length words.new.words ≤ length words.old.words) }
{
    let first = next(words)?;
    let test = argument_from(alloc, words, first)?;
    take_mark(words, b')')?;
    Ok(test)
}

/// After `::`.
#[tactic(auto, unfolding(crate::specs::Reading::element_at))]
fn element_at(alloc: Global, words: &mut Words) -> Result<Option<Simple>, SelErr>
    ensures reads { GivesRead (λ s. (compound_item_seen s, words.new)) result (element_at words.old) }
    ensures shorter { IfOk result (λ _. length words.new.words ≤ length words.old.words) }
{
    let mut name = tight_ident_at(alloc, words)?;
    name.make_ascii_lowercase();
    if is_pseudo_element(name.as_str()) {
        Ok(None)
    } else {
        Err(SelErr::Invalid)
    }
}

/// A pseudo-class, or a pseudo-element with one colon.
fn colon_named(alloc: Global, words: &Words, word: Word) -> Result<Option<Simple>, SelErr>
    requires { IsWordOf words.now.text word }
    ensures { GivesRead (λ s. (compound_item_seen s, words.now)) result (colon_named word words.now) }
{
    let name = lower_of(alloc, words.text(), word)?;
    if is_pseudo_element(name.as_str()) {
        return Ok(None);
    }
    let Some(test) = pseudo_class(name.as_str()) else {
        return Err(SelErr::Invalid);
    };
    Ok(Some(Simple::Is(test)))
}

fn colon_called(alloc: Global, words: &mut Words, word: Word) -> Result<Option<Simple>, SelErr>
    requires cut { IsWordOf words.old.text word }
    requires function { word.kind ≡ kinds.Function }
    ensures reads { GivesRead (λ s. (compound_item_seen s, words.new)) result (colon_called word words.old) }
    ensures shorter { IfOk result (λ _. length words.new.words ≤ length words.old.words) }
{
    let name = function_of(alloc, words.text(), word)?;
    if name.as_str() == "not" {
        return Ok(Some(Simple::Not(not_at(alloc, words)?)));
    }
    let test = function_at(alloc, words, name.as_str(), word.end)?;
    Ok(Some(Simple::Is(test)))
}

/// After `:`. No simple selector stands for a pseudo-element.
#[tactic(auto, unfolding(crate::specs::Reading::colon_at))]
fn colon_at(alloc: Global, words: &mut Words) -> Result<Option<Simple>, SelErr>
    ensures reads { GivesRead (λ s. (compound_item_seen s, words.new)) result (colon_at words.old) }
    ensures shorter { IfOk result (λ _. length words.new.words ≤ length words.old.words) }
{
    let word = next(words)?;
    if word.spaced {
        return Err(SelErr::Invalid);
    }
    match word.kind {
        WordKind::Ident => colon_named(alloc, words, word),
        WordKind::Function => colon_called(alloc, words, word),
        WordKind::Mark(b':') => element_at(alloc, words),
        _ => Err(SelErr::Invalid),
    }
}

#[tactic(auto, unfolding(crate::specs::Reading::item_from))]
fn item_from(alloc: Global, words: &mut Words, word: Word) -> Result<Option<Simple>, SelErr>
    requires { IsWordOf words.old.text word }
    ensures reads { GivesRead (λ s. (compound_item_seen s, words.new)) result (item_from word words.old) }
    ensures shorter { IfOk result (λ _. length words.new.words ≤ length words.old.words) }
{
    if word.is_mark(b':') {
        return colon_at(alloc, words);
    }
    let test = plain_from(alloc, words, word)?;
    Ok(Some(Simple::Is(test)))
}

/// Part of a compound: a simple selector, or none where it is a pseudo-element.
pub(crate) fn item_at(alloc: Global, words: &mut Words) -> Result<Option<Simple>, SelErr>
    ensures reads { GivesRead (λ s. (compound_item_seen s, words.new)) result (compound_item_at words.old) }
    ensures shorter { IfOk result (λ _. length words.new.words < length words.old.words) }
{
    let word = next(words)?;
    item_from(alloc, words, word)
}

#[tactic(auto, unfolding(crate::specs::Reading::first_from))]
fn first_from(alloc: Global, words: &mut Words, word: Word) -> Result<Option<Simple>, SelErr>
    requires { IsWordOf words.old.text word }
    ensures reads { GivesRead (λ s. (compound_item_seen s, words.new)) result (first_from word words.old) }
    ensures shorter { IfOk result (λ _. length words.new.words ≤ length words.old.words) }
{
    match word.kind {
        WordKind::Ident => {
            let name = Text::new(value_of(alloc, words.text(), word)?);
            Ok(Some(Simple::Is(Test::Tag(name))))
        }
        WordKind::Mark(b'*') => Ok(Some(Simple::Is(Test::Any))),
        _ => item_from(alloc, words, word),
    }
}

/// The first part of a compound, which may also be a type or `*`.
pub(crate) fn first_at(alloc: Global, words: &mut Words) -> Result<Option<Simple>, SelErr>
    ensures reads { GivesRead (λ s. (compound_item_seen s, words.new)) result (first_part_at words.old) }
    ensures shorter { IfOk result (λ _. length words.new.words < length words.old.words) }
{
    let word = next(words)?;
    first_from(alloc, words, word)
}
