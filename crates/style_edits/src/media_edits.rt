//! A client's edits of media rules.

ghost use Rattle.std.specs.Prelude.{◌≡◌, ◌++◌, nat_le, All, map, Ok, Err, IfOk, IfSome, OnErr, string_bytes};
ghost use Rattle.std.specs.List.{find, prefix_len};
ghost use Rattle.css_tokens.specs.Marks.{IsPieceOf};
ghost use Rattle.sheet_reader.specs.Books.{IsEntry};
ghost use Rattle.sheet_reader.specs.Sheets.{sheet_of};
ghost use Rattle.style_edits.specs.Edits.{edited, IfFault};
ghost use Rattle.sheet_reader.specs.Preludes.{ends_keyword, takes_space, spaces_behind, spaces_at};
ghost use Rattle.style_edits.specs.MediaEdits.{media_in, media_splice};
ghost use Rattle.style_edits.specs.MediaEdits.{media_up_to, edited_media};
ghost use Rattle.style_edits.specs.Drafts.{AreInOrder, Drafts, IsToldBy};

use crate::drafts::{Draft, apply, placed};
use crate::edits::client_sheet;
use crate::faults::{SheetErr, SheetFault};
use crate::lines::{LineRange, media_at};
use crate::splice::Splice;
use css_tokens::{Token, TokenKind, all_tokens};
use sheet_reader::{MediaRule, SheetBook, SheetEntry, sealed_prelude};
use std::alloc::{AllocError, Global};

fn ends_keyword(piece: Token, place: usize) -> bool
    ensures { result ≡ ends_keyword place piece }
{
    matches!(piece.kind, TokenKind::AtKeyword) && piece.end == place
}

/// The at-keyword that ends at the place.
fn keyword_before(text: &str, pieces: &[Token], place: usize) -> Option<Token>
    requires { All (IsPieceOf text.now) pieces.now }
    ensures found { result ≡ find (ends_keyword place) pieces.now }
    ensures piece { IfSome result (IsPieceOf text.now) }
{
    for piece in pieces {
        if ends_keyword(*piece, place) {
            return Some(*piece);
        }
    }
    None
}

/// Whether a space behind the keyword is one piece with it.
fn takes_space(alloc: Global, keyword: &str) -> Result<bool, AllocError>
    ensures { IfOk result (λ b. b ≡ takes_space keyword.now) }
{
    let mut spaced = String::from_str(alloc, keyword)?;
    spaced.push_str(" ")?;
    let pieces = all_tokens(alloc, spaced.as_str())?;
    Ok(pieces.len() == 1)
}

fn spaces_behind(alloc: Global, keyword: &str) -> Result<&'static str, AllocError>
    ensures { IfOk result (λ s. s.now ≡ spaces_behind keyword.now) }
{
    if takes_space(alloc, keyword)? {
        Ok("  ")
    } else {
        Ok(" ")
    }
}

/// What goes between an at-keyword that ends at the place and what is put there.
fn spaces_at(alloc: Global, text: &str, place: usize) -> Result<&'static str, AllocError>
    ensures { IfOk result (λ s. s.now ≡ spaces_at text.now place) }
{
    let pieces = all_tokens(alloc, text)?;
    let Some(keyword) = keyword_before(text, pieces.as_slice(), place) else {
        return Ok("");
    };
    spaces_behind(alloc, &text[keyword.start..keyword.end])
}

/// The text, with what goes before it at the place.
fn spaced(alloc: Global, text: &str, place: usize, new: &str) -> Result<String, AllocError>
    ensures { IfOk result (λ s. string_bytes s ≡ spaces_at text.now place ++ new.now) }
{
    let mut made = String::from_str(alloc, spaces_at(alloc, text, place)?)?;
    made.push_str(new)?;
    Ok(made)
}

fn media_in(
    alloc: Global,
    entry: &SheetEntry,
    lines: LineRange,
    text: &str,
) -> Result<Draft, SheetErr>
    requires { IsEntry entry.now }
    ensures found { Drafts entry.now (media_in lines text.now entry.now) result }
    ensures tells { IfOk result (IsToldBy entry.now) }
{
    let Some(part) = media_at(entry, lines) else {
        return Err(SheetErr::Fault(SheetFault::BadRange));
    };
    if !sealed_prelude(alloc, text)? {
        return Err(SheetErr::Fault(SheetFault::BadText));
    }
    let new = spaced(alloc, entry.text.as_str(), part.start, text)?;
    placed(alloc, entry, part, new.as_str())
}

/// Makes the prelude of the media rule that has it at these lines and columns another text. Right behind the at-keyword a space
/// goes before it, and one more where the keyword takes the first, since it ends in the hex digits of an escape. Answers the splice
/// that leads back.
pub fn set_media(
    book: &mut SheetBook,
    sheet: u64,
    range: &LineRange,
    text: &str,
) -> Result<Splice, SheetErr>
    ensures done { IfOk result (λ back. edited book.old (media_splice sheet range.now text.now book.old) ≡ Ok (book.new, back)) }
    ensures fault { IfFault result (λ f. media_splice sheet range.now text.now book.old ≡ Err f) }
    ensures unchanged { OnErr result (book.new ≡ book.old) }
{
    let entry = match client_sheet(book, sheet) {
        Ok(entry) => entry,
        Err(fault) => return Err(SheetErr::Fault(fault)),
    };
    let draft = match media_in(book.allocator(), entry, *range, text) {
        Ok(draft) => draft,
        Err(stop) => return Err(stop),
    };
    Ok(apply(book, draft))
}

/// How many of the media rules have a prelude that does not start behind the byte. Preludes stand one behind the other, so it is sought
/// by halves.
fn media_among(rules: &[MediaRule], byte: usize) -> usize
    requires { AreInOrder 0 (map (λ m. m.prelude) rules.now) }
    ensures { result ≡ prefix_len (λ m. nat_le m.prelude.start byte) rules.now }
{
    rules.partition_point(|rule| rule.prelude.start <= byte)
}

/// How many media rules of the sheet have a prelude that does not start behind the byte.
fn media_up_to(entry: &SheetEntry, byte: usize) -> usize
    requires { IsEntry entry.now }
    ensures { result ≡ media_up_to (sheet_of entry.now.text).media byte }
{
    // Read for the proof alone: a text is UTF-8.
    let _text = entry.text.as_str();
    media_among(entry.reading.media.as_slice(), byte)
}

/// The media rule whose prelude an edit made, by the splice that the edit answered, in the book that it left: its place among the
/// media rules of its sheet, from 0.
pub fn edited_media(book: &SheetBook, back: &Splice) -> usize
    ensures { result ≡ edited_media book.now back.now }
{
    match book.get(back.sheet) {
        Some(entry) => media_up_to(entry, back.end).saturating_sub(1),
        None => 0,
    }
}
