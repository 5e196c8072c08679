//! Declarations (CSS Syntax 3, sections 5.4.4 to 5.4.6).

ghost use Rattle.std.specs.Prelude.{◌≡◌, ◌<◌, ◌++◌, All, length, drop, slice_get, Some, IfOk, string_bytes, option_to_list};
ghost use Rattle.css_tokens.specs.Marks.{IsPieceOf};
ghost use Rattle.selectors.specs.Words.{IsWordOf};
ghost use Rattle.selectors.specs.Reading.{word_value};
ghost use Rattle.std.specs.List.{AllByRecursion, list_any};
ghost use Rattle.sheet_reader.specs.Seen.{item_seen};
ghost use Rattle.sheet_reader.specs.Declarations.{names_important, is_important, plain_value, is_bad_kind, holds_bad, is_custom, name_by};
ghost use Rattle.sheet_reader.specs.Declarations.{value_range, unless_empty, declared_by, declaration_of, item_property, item_at};
ghost use Rattle.sheet_reader.specs.Declarations.{item_pieces, declarations, style_of};

use crate::brackets::{Nesting, Stop, nesting_of, until};
use crate::ends::Ends;
use crate::parts::{Part, at_rule_at, behind, part_len};
use crate::sheet::Property;
use css_tokens::{Range, Token, TokenKind, all_tokens};
use node_tree::{Text, make_room};
use selectors::{Word, WordKind, lower_of, range_of, value_of, words_among};
use std::alloc::{AllocError, Global};

/// What a body has one behind the other.
#[derive(Clone, Copy)]
pub(crate) enum Item<'a> {
    /// White space, a comment or a semicolon.
    Passed(Token),
    AtRule(Part<'a>),
    /// It begins with an ident, and may be a declaration.
    Candidate(&'a [Token]),
    Other(&'a [Token]),
}

/// The item that begins with the first piece.
#[tactic(auto, unfolding(crate::specs::Declarations::item_at))]
fn item_at<'a>(alloc: Global, first: Token, pieces: &'a [Token]) -> Result<Item<'a>, AllocError>
    requires { slice_get pieces.now 0 ≡ Some first }
    ensures { IfOk result (λ i. item_seen i ≡ item_at first (drop 1 pieces.now)) }
{
    match first.kind {
        TokenKind::Comment | TokenKind::WhiteSpace | TokenKind::Semicolon => {
            Ok(Item::Passed(first))
        }
        TokenKind::AtKeyword => Ok(Item::AtRule(at_rule_at(
            alloc,
            Ends::Sought,
            first,
            &pieces[1..],
        )?)),
        TokenKind::Ident => {
            let n = until(alloc, Stop::Semicolon, pieces)?;
            Ok(Item::Candidate(&pieces[..n]))
        }
        _ => {
            let n = until(alloc, Stop::Semicolon, pieces)?;
            Ok(Item::Other(&pieces[..n]))
        }
    }
}

/// How many pieces an item has.
fn item_len(item: Item) -> usize
    ensures { result ≡ length (item_pieces (item_seen item.entry)) }
{
    match item {
        Item::Passed(_) => 1,
        Item::AtRule(part) => part_len(part),
        Item::Candidate(own) | Item::Other(own) => own.len(),
    }
}

fn names_important(alloc: Global, text: &str, word: Word) -> Result<bool, AllocError>
    requires { IsWordOf text.now word }
    ensures { IfOk result (λ b. b ≡ names_important text.now word word.kind) }
{
    match word.kind {
        WordKind::Ident => {
            let name = lower_of(alloc, text, word)?;
            Ok(name.as_str() == "important")
        }
        _ => Ok(false),
    }
}

/// Whether a value ends in `!important`.
fn is_important(alloc: Global, text: &str, value: &[Word]) -> Result<bool, AllocError>
    requires { AllByRecursion (IsWordOf text.now) value.now }
    ensures { IfOk result (λ b. b ≡ is_important text.now value.now) }
{
    match value {
        [.., mark, name] => {
            if mark.is_mark(b'!') {
                names_important(alloc, text, *name)
            } else {
                Ok(false)
            }
        }
        _ => Ok(false),
    }
}

fn plain_value(important: bool, value: &[Word]) -> &[Word]
    ensures { result.now ≡ plain_value important value.now }
{
    if important {
        &value[..value.len().saturating_sub(2)]
    } else {
        value
    }
}

fn is_bad_kind(kind: TokenKind) -> bool
    ensures { result ≡ is_bad_kind kind }
{
    matches!(kind, TokenKind::BadString | TokenKind::BadUrl)
}

fn has_bad_kind(pieces: &[Token]) -> bool
    ensures { result ≡ list_any (λ t. is_bad_kind t.kind) pieces.now }
{
    pieces.iter().any(|piece| is_bad_kind(piece.kind))
}

/// Whether a piece is one that no declaration may hold.
fn holds_bad(alloc: Global, pieces: &[Token]) -> Result<bool, AllocError>
    ensures { IfOk result (λ b. b ≡ holds_bad pieces.now) }
{
    if has_bad_kind(pieces) {
        return Ok(true);
    }
    let nesting = nesting_of(alloc, pieces)?;
    Ok(matches!(nesting, Nesting::Stray))
}

/// Whether the name is that of a custom property.
fn is_custom(name: &str) -> bool
    ensures { result ≡ is_custom name.now }
{
    matches!(name.as_bytes(), [b'-', b'-', ..])
}

fn name_of(alloc: Global, text: &str, word: Word) -> Result<String, AllocError>
    requires { IsWordOf text.now word }
    ensures { IfOk result (λ name. string_bytes name ≡ name_by (word_value text.now word)) }
{
    let mut name = value_of(alloc, text, word)?;
    if !is_custom(name.as_str()) {
        name.make_ascii_lowercase();
    }
    Ok(name)
}

fn value_range(colon: Word, range: Option<Range>) -> Range
    ensures { result ≡ value_range colon range }
{
    match range {
        Some(range) => range,
        None => Range {
            start: colon.end,
            end: colon.end,
        },
    }
}

/// A declaration with this value, unless the value is empty: only a name that begins with `--` may have such a one.
fn unless_empty(value: &[Word], property: Property) -> Option<Property>
    ensures { result ≡ unless_empty value.now property }
{
    if value.is_empty() && !is_custom(property.name.as_str()) {
        return None;
    }
    Some(property)
}

fn declared_by(
    alloc: Global,
    text: &str,
    words: &[Word],
    whole: Range,
) -> Result<Option<Property>, AllocError>
    requires { AllByRecursion (IsWordOf text.now) words.now }
    ensures { IfOk result (λ p. p ≡ declared_by text.now words.now whole) }
{
    match words {
        [name, colon, value @ ..] => {
            if !colon.is_mark(b':') {
                return Ok(None);
            }
            let important = is_important(alloc, text, value)?;
            let own = name_of(alloc, text, *name)?;
            let plain = plain_value(important, value);
            let property = Property {
                name: Text::new(own),
                value: value_range(*colon, range_of(plain)),
                important,
                whole,
            };
            Ok(unless_empty(plain, property))
        }
        _ => Ok(None),
    }
}

/// The declaration that these pieces are, if they are one.
#[tactic(auto, unfolding(crate::specs::Declarations::declaration_of))]
fn declaration_of(
    alloc: Global,
    text: &str,
    pieces: &[Token],
) -> Result<Option<Property>, AllocError>
    requires { All (IsPieceOf text.now) pieces.now }
    ensures { IfOk result (λ p. p ≡ declaration_of text.now pieces.now) }
{
    if holds_bad(alloc, pieces)? {
        return Ok(None);
    }
    let words = words_among(alloc, text, pieces)?;
    match range_of(words.as_slice()) {
        Some(whole) => declared_by(alloc, text, words.as_slice(), whole),
        None => Ok(None),
    }
}

fn item_property(alloc: Global, text: &str, item: Item) -> Result<Option<Property>, AllocError>
    requires { All (IsPieceOf text.now) (item_pieces (item_seen item)) }
    ensures { IfOk result (λ p. p ≡ item_property text.now (item_seen item.entry)) }
{
    match item {
        Item::Candidate(pieces) => declaration_of(alloc, text, pieces),
        _ => Ok(None),
    }
}

fn push_some(properties: &mut Vec<Property>, property: Option<Property>) -> Result<(), AllocError>
    ensures { IfOk result (λ _. properties.new.items ≡ properties.old.items ++ option_to_list property) }
{
    if let Some(property) = property {
        make_room(properties)?;
        properties.push(property)?;
    }
    Ok(())
}

/// The declarations of a body, which are these pieces of a text.
pub(crate) fn read_body(
    alloc: Global,
    text: &str,
    body: &[Token],
) -> Result<Vec<Property>, AllocError>
    requires { All (IsPieceOf text.now) body.now }
    ensures { IfOk result (λ v. v.items ≡ declarations text.now body.now) }
{
    let mut properties = Vec::new(alloc);
    let mut left = body;
    'items: while let [first, ..] = left {
        let item = item_at(alloc, *first, left)?;
        let property = item_property(alloc, text, item)?;
        push_some(&mut properties, property)?;
        left = behind(left, item_len(item));
    }
    properties.shrink_to_fit();
    Ok(properties)
}

/// The declarations of a text that is a body, as the value of a `style` attribute is.
pub fn read_style(alloc: Global, text: &str) -> Result<Vec<Property>, AllocError>
    ensures { IfOk result (λ v. v.items ≡ style_of text.now) }
{
    let pieces = all_tokens(alloc, text)?;
    read_body(alloc, text, pieces.as_slice())
}
