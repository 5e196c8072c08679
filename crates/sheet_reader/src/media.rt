//! Media rules: at-rules named `media` that have a block.

ghost use Rattle.std.specs.Prelude.{◌≡◌, ◌++◌, ◌∷◌, [], All, IfOk, OnOk, option_map, length, take};
ghost use Rattle.css_tokens.specs.Marks.{IsPieceOf};
ghost use Rattle.sheet_reader.specs.Parts.{part_pieces};
ghost use Rattle.sheet_reader.specs.Seen.{part_seen, media_seen, frame_seen};
ghost use Rattle.sheet_reader.specs.Layout.{level_of, names_media, media_form, media_rule};
ghost use Rattle.sheet_reader.specs.Frames.{opened, with_media, BeginsWith};
ghost use Rattle.sheet_reader.specs.Ends.{AreEnds};

use crate::ends::{Ends, front_ends};
use crate::frames::{Frame, Frames};
use crate::parts::{Ending, Level, Part, behind};
use crate::sheet::{MediaRule, Sheet};
use css_tokens::{Range, Token, TokenKind, spells};
use selectors::{range_of, words_among};
use std::alloc::{AllocError, Global};

/// The pieces of a media rule around its prelude, up to its block.
const KEYWORD_AND_BRACKET: usize = 2;

/// A media rule.
#[derive(Clone, Copy)]
pub(crate) struct Media<'a> {
    pub keyword: Token,
    pub prelude: &'a [Token],
    pub inside: &'a [Token],
}

/// What stands around a part with no media rule around it is the sheet itself.
pub(crate) fn level_of(around: Option<usize>) -> Level
    ensures { result ≡ level_of around }
{
    match around {
        Some(_) => Level::Inner,
        None => Level::Top,
    }
}

/// Whether a piece is an at-keyword with the name `media`.
pub(crate) fn names_media(text: &str, piece: Token) -> bool
    requires { IsPieceOf text.now piece }
    ensures { result ≡ names_media text.now piece piece.kind }
{
    match piece.kind {
        TokenKind::AtKeyword => spells(&text[piece.start + 1..piece.end], "media"),
        _ => false,
    }
}

/// The media rule that a part is, if it is one.
#[tactic(auto, unfolding(crate::specs::Layout::media_form))]
fn media_form<'a>(text: &str, part: Part<'a>) -> Option<Media<'a>>
    requires { All (IsPieceOf text.now) (part_pieces (part_seen part)) }
    ensures { option_map media_seen result ≡ media_form text.now (part_seen part.entry) }
{
    match part {
        Part::AtRule {
            keyword,
            prelude,
            ending: Ending::Block { body, .. },
        } => {
            if names_media(text, keyword) {
                Some(Media {
                    keyword,
                    prelude,
                    inside: body,
                })
            } else {
                None
            }
        }
        _ => None,
    }
}

/// The media rule as a sheet has it.
fn media_rule(
    alloc: Global,
    text: &str,
    around: Option<usize>,
    media: Media,
) -> Result<MediaRule, AllocError>
    requires { All (IsPieceOf text.now) media.prelude.now }
    ensures { IfOk result (λ r. r ≡ media_rule text.now around (media_seen media.entry)) }
{
    let words = words_among(alloc, text, media.prelude)?;
    let prelude = match range_of(words.as_slice()) {
        Some(range) => range,
        None => Range {
            start: media.keyword.end,
            end: media.keyword.end,
        },
    };
    Ok(MediaRule {
        prelude,
        inside: around,
    })
}

/// The ends of what stands in the block of a media rule, which begins what is left in a frame.
fn inside_ends<'a>(frame: Frame<'a>, media: Media) -> Ends<'a>
    requires first { BeginsWith frame.left.now (media_seen media) }
    requires ends { AreEnds frame.ends frame.left.now }
    ensures { AreEnds result media.entry.inside.now }
{
    let left = behind(frame.left, media.prelude.len() + KEYWORD_AND_BRACKET);
    front_ends(frame.ends, left, media.inside.len())
}

/// Where a part is a media rule, adds it to the sheet, and what stands in its block to what is still to be read.
pub(crate) fn open_media<'a>(
    alloc: Global,
    text: &str,
    frame: Frame<'a>,
    part: Part<'a>,
    frames: &mut Frames<'a>,
    sheet: &mut Sheet,
) -> Result<(), AllocError>
    requires pieces { All (IsPieceOf text.now) (part_pieces (part_seen part)) }
    requires first { take (length (part_pieces (part_seen part))) frame.left.now ≡ part_pieces (part_seen part) }
    requires ends { AreEnds frame.ends frame.left.now }
    ensures frames { OnOk result (frames.new ≡ opened (length sheet.old.media) (media_form text.now (part_seen part.entry)) frames.old) }
    ensures sheet { OnOk result (sheet.new
        ≡ with_media text.now frame.entry.around (media_form text.now (part_seen part.entry)) sheet.old) }
{
    if let Some(media) = media_form(text, part) {
        let place = sheet.media.len();
        let rule = media_rule(alloc, text, frame.around, media)?;
        sheet.media.push(rule)?;
        let ends = inside_ends(frame, media);
        frames.push(Frame {
            left: media.inside,
            ends,
            around: Some(place),
        })?;
    }
    Ok(())
}
