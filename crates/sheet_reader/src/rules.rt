//! Style rules, and sheets.

ghost use Rattle.std.specs.Prelude.{◌≡◌, ◌<◌, ◌++◌, ◌∷◌, All, false, IfOk, OnOk, option_map, option_to_list};
ghost use Rattle.css_tokens.specs.Marks.{IsPieceOf};
ghost use Rattle.selectors.specs.Words.{words_after};
ghost use Rattle.sheet_reader.specs.Ends.{AreEnds};
ghost use Rattle.sheet_reader.specs.Seen.{part_seen, ending_seen, frame_seen};
ghost use Rattle.sheet_reader.specs.Parts.{part_pieces, ending_pieces};
ghost use Rattle.sheet_reader.specs.Forms.{rule_seen};
ghost use Rattle.sheet_reader.specs.Sheets.{body_end, style_rule, rule_by, rule_of, is_closed_comment, passed_place, ending_place};
ghost use Rattle.sheet_reader.specs.Sheets.{place_of, sheet_of};
ghost use Rattle.sheet_reader.specs.Frames.{left_at_top, top_place, with_part, read_on, left_size, AreLeftOf, empty_sheet};

use crate::declarations::read_body;
use crate::ends::{Ends, closings};
use crate::frames::{Frame, Frames};
use crate::lists::{MediaRules, Places, Properties, StyleRules};
use crate::media::{level_of, names_media, open_media};
use crate::parts::{Ending, Level, Part, behind, part_at, part_len};
use crate::sheet::{Sheet, StyleRule};
use css_tokens::{Range, Token, TokenKind, all_tokens};
use selectors::{SelErr, Words, range_of, read_list, words_among};
use std::alloc::{AllocError, Global};

/// Where a body ends that this piece closes: before it, or at the text's end.
fn body_end(text: &str, close: Option<Token>) -> usize
    ensures { result ≡ body_end text.now close }
{
    match close {
        Some(close) => close.start,
        None => text.len(),
    }
}

/// The style rule with this prelude, if that is a selector list.
fn style_rule(
    alloc: Global,
    text: &str,
    around: Option<usize>,
    prelude: &[Token],
    body: Range,
    inside: &[Token],
) -> Result<Option<StyleRule>, AllocError>
    requires prelude { All (IsPieceOf text.now) prelude.now }
    requires inside { All (IsPieceOf text.now) inside.now }
    ensures { IfOk result (λ r. option_map rule_seen r
        ≡ style_rule text.now around (words_after text.now false prelude.now) body inside.now) }
{
    let words = words_among(alloc, text, prelude)?;
    let Some(range) = range_of(words.as_slice()) else {
        return Ok(None);
    };
    match read_list(alloc, &mut Words::new(text, words.as_slice())) {
        Ok(selectors) => {
            let properties = read_body(alloc, text, inside)?;
            Ok(Some(StyleRule {
                prelude: range,
                selectors,
                body,
                properties: Properties::new(properties),
                media: around,
            }))
        }
        Err(SelErr::Invalid) => Ok(None),
        Err(SelErr::Memory) => Err(AllocError),
    }
}

fn rule_by(
    alloc: Global,
    text: &str,
    around: Option<usize>,
    prelude: &[Token],
    ending: Ending,
) -> Result<Option<StyleRule>, AllocError>
    requires prelude { All (IsPieceOf text.now) prelude.now }
    requires inside { All (IsPieceOf text.now) (ending_pieces (ending_seen ending)) }
    ensures { IfOk result (λ r. option_map rule_seen r ≡ rule_by text.now around prelude.now (ending_seen ending.entry)) }
{
    match ending {
        Ending::Block { first, body, close } => {
            let range = Range {
                start: first.end,
                end: body_end(text, close),
            };
            style_rule(alloc, text, around, prelude, range, body)
        }
        _ => Ok(None),
    }
}

/// The style rule that a part is, if it is one.
#[tactic(auto, unfolding(crate::specs::Sheets::rule_of))]
pub(crate) fn rule_of(
    alloc: Global,
    text: &str,
    around: Option<usize>,
    part: Part,
) -> Result<Option<StyleRule>, AllocError>
    requires { All (IsPieceOf text.now) (part_pieces (part_seen part)) }
    ensures { IfOk result (λ r. option_map rule_seen r ≡ rule_of text.now around (part_seen part.entry)) }
{
    match part {
        Part::Qualified { prelude, ending } => rule_by(alloc, text, around, prelude, ending),
        _ => Ok(None),
    }
}

fn is_closed_comment(text: &str, piece: Token) -> bool
    requires { IsPieceOf text.now piece }
    ensures { result ≡ is_closed_comment text.now piece }
{
    let bytes = text.as_bytes();
    piece.start + 4 <= piece.end && (bytes[piece.end - 2] == b'*' && bytes[piece.end - 1] == b'/')
}

fn passed_place(text: &str, piece: Token) -> Option<usize>
    requires { IsPieceOf text.now piece }
    ensures { result ≡ passed_place text.now piece piece.kind }
{
    match piece.kind {
        TokenKind::Comment => {
            if is_closed_comment(text, piece) {
                Some(piece.end)
            } else {
                None
            }
        }
        _ => Some(piece.end),
    }
}

fn ending_place(ending: Ending) -> Option<usize>
    ensures { result ≡ ending_place (ending_seen ending.entry) }
{
    match ending {
        Ending::TextEnd => None,
        Ending::Semicolon(semicolon) => Some(semicolon.end),
        Ending::Block { close, .. } => match close {
            Some(close) => Some(close.end),
            None => None,
        },
    }
}

/// The place behind a part, unless the text's end cut the part short.
#[tactic(auto, unfolding(crate::specs::Sheets::place_of))]
fn place_of(text: &str, part: Part) -> Option<usize>
    requires { All (IsPieceOf text.now) (part_pieces (part_seen part)) }
    ensures { result ≡ place_of text.now (part_seen part.entry) }
{
    match part {
        Part::Passed(piece) => passed_place(text, piece),
        Part::AtRule { ending, .. } | Part::Qualified { ending, .. } => ending_place(ending),
    }
}

fn add_rule(
    alloc: Global,
    text: &str,
    around: Option<usize>,
    part: Part,
    rules: &mut StyleRules,
) -> Result<(), AllocError>
    requires { All (IsPieceOf text.now) (part_pieces (part_seen part)) }
    ensures { OnOk result (rules.new ≡ rules.old ++ option_to_list (rule_of text.now around (part_seen part.entry))) }
{
    if let Some(rule) = rule_of(alloc, text, around, part)? {
        rules.push(rule)?;
    }
    Ok(())
}

/// The place behind a part, where it stands at top level.
fn top_place(text: &str, around: Option<usize>, part: Part) -> Option<usize>
    requires { All (IsPieceOf text.now) (part_pieces (part_seen part)) }
    ensures { result ≡ top_place text.now around (part_seen part.entry) }
{
    match around {
        Some(_) => None,
        None => place_of(text, part),
    }
}

fn add_place(places: &mut Places, place: Option<usize>) -> Result<(), AllocError>
    ensures { OnOk result (places.new ≡ places.old ++ option_to_list place) }
{
    if let Some(place) = place {
        places.push(place)?;
    }
    Ok(())
}

/// Adds what a part is, but for media rules.
fn add_part(
    alloc: Global,
    text: &str,
    around: Option<usize>,
    part: Part,
    sheet: &mut Sheet,
) -> Result<(), AllocError>
    requires { All (IsPieceOf text.now) (part_pieces (part_seen part)) }
    ensures { OnOk result (sheet.new ≡ with_part text.now around (part_seen part.entry) sheet.old) }
{
    add_rule(alloc, text, around, part, &mut sheet.rules)?;
    add_place(&mut sheet.places, top_place(text, around, part))
}

/// Reads the first part of what is left in a frame.
fn read_part<'a>(
    alloc: Global,
    text: &str,
    frame: Frame<'a>,
    frames: &mut Frames<'a>,
    sheet: &mut Sheet,
) -> Result<(), AllocError>
    requires each { AreLeftOf text.now (frame_seen frame ∷ frames.old) }
    requires ends { AreEnds frame.ends frame.left.now }
    ensures same { OnOk result (read_on text.now sheet.new frames.new ≡ read_on text.now sheet.old (frame_seen frame.entry ∷ frames.old)) }
    ensures smaller { OnOk result (left_size frames.new < left_size (frame_seen frame.entry ∷ frames.old)) }
    ensures each { OnOk result (AreLeftOf text.now frames.new) }
{
    let [first, ..] = frame.left else {
        return Ok(());
    };
    let part = part_at(
        alloc,
        level_of(frame.around),
        frame.ends,
        *first,
        frame.left,
    )?;
    frames.push(Frame {
        left: behind(frame.left, part_len(part)),
        ..frame
    })?;
    add_part(alloc, text, frame.around, part, sheet)?;
    open_media(alloc, text, frame, part, frames, sheet)?;
    Ok(())
}

fn empty_sheet(alloc: Global) -> Result<Sheet, AllocError>
    ensures { IfOk result (λ s. s ≡ empty_sheet) }
{
    let mut places = Places::new(Vec::new(alloc));
    places.push(0)?;
    Ok(Sheet {
        rules: StyleRules::new(Vec::new(alloc)),
        places,
        media: MediaRules::new(Vec::new(alloc)),
    })
}

/// Reads the parts in front of the first at-keyword `media` that begins one, and gives the pieces from there on. None of these
/// parts has others in its block, so where it ends need not be told beforehand.
fn read_front<'a>(
    alloc: Global,
    text: &str,
    pieces: &'a [Token],
    sheet: &mut Sheet,
) -> Result<&'a [Token], AllocError>
    requires { All (IsPieceOf text.now) pieces.now }
    ensures same { IfOk result (λ left. read_on text.now sheet.new (left_at_top left.now)
        ≡ read_on text.now sheet.old (left_at_top pieces.now)) }
    ensures each { IfOk result (λ left. All (IsPieceOf text.now) left.now) }
{
    let mut left = pieces;
    'parts: while let [first, ..] = left {
        if names_media(text, *first) {
            return Ok(left);
        }
        let part = part_at(alloc, Level::Top, Ends::Sought, *first, left)?;
        add_part(alloc, text, None, part, sheet)?;
        left = behind(left, part_len(part));
    }
    Ok(left)
}

/// Reads what is left at top level, of which parts may be media rules.
fn read_nested(
    alloc: Global,
    text: &str,
    left: &[Token],
    sheet: &mut Sheet,
) -> Result<(), AllocError>
    requires { All (IsPieceOf text.now) left.now }
    ensures { OnOk result (sheet.new ≡ read_on text.now sheet.old (left_at_top left.now)) }
{
    let table = closings(alloc, left)?;
    let ends = Ends::Told {
        table: table.as_slice(),
        behind: 0,
    };
    let mut frames = Frames::new(alloc);
    frames.push(Frame {
        left,
        ends,
        around: None,
    })?;
    'frames: while let Some(frame) = frames.pop() {
        read_part(alloc, text, frame, &mut frames, sheet)?;
    }
    Ok(())
}

/// What a text says as a style sheet.
pub fn read_sheet(alloc: Global, text: &str) -> Result<Sheet, AllocError>
    ensures { IfOk result (λ s. s ≡ sheet_of text.now) }
{
    let pieces = all_tokens(alloc, text)?;
    let mut sheet = empty_sheet(alloc)?;
    let left = read_front(alloc, text, pieces.as_slice(), &mut sheet)?;
    let [_, ..] = left else {
        return Ok(sheet);
    };
    read_nested(alloc, text, left, &mut sheet)?;
    Ok(sheet)
}
