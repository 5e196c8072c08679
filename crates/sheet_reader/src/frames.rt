//! What is still to be read of a sheet. Media rules nest as deep as the text has room for, so what stands behind each open one
//! is kept in a list.

ghost use Rattle.std.specs.Prelude.{◌≡◌, ◌∷◌, [], OnOk, IfSome, MatchOption};
ghost use Rattle.sheet_reader.specs.Ends.{AreEnds};
ghost use Rattle.sheet_reader.specs.Seen.{frame_seen};

use crate::ends::Ends;
use css_tokens::Token;
use std::alloc::{AllocError, Global};
use std::marker::Model;

/// The pieces that are left of the sheet, or of the block of a media rule.
#[derive(Clone, Copy)]
pub(crate) struct Frame<'a> {
    pub left: &'a [Token],
    pub ends: Ends<'a>,
    /// The place of that media rule, if there is one.
    pub around: Option<usize>,
}

/// What is still to be read, which contracts see with the innermost first.
#[derive(Drop)]
pub(crate) struct Frames<'a> {
    /// The innermost last.
    frames: Vec<Frame<'a>>,
}

impl<'a> Model for Frames<'a> {
    ghost use Rattle.std.specs.Prelude.{List, map, reverse, All};
    ghost use Rattle.sheet_reader.specs.Ends.{AreEnds};
    ghost use Rattle.sheet_reader.specs.Frames.{FrameForm};
    ghost use Rattle.sheet_reader.specs.Seen.{frame_seen};

    ghost Value = { List FrameForm };

    ghost view = { λ f. map frame_seen (reverse f.frames.items) };

    ghost invariant = { λ f. All (λ frame. AreEnds frame.ends frame.left.now) f.frames.items };
}

impl<'a> Frames<'a> {
    pub(crate) fn new(alloc: Global) -> Frames<'a>
        ensures { result ≡ [] }
    {
        Frames {
            frames: Vec::new(alloc),
        }
    }

    /// Puts a frame in front.
    pub(crate) fn push(&mut self, frame: Frame<'a>) -> Result<(), AllocError>
        requires { AreEnds frame.ends frame.left.now }
        ensures { OnOk result (self.new ≡ frame_seen frame.entry ∷ self.old) }
    {
        self.frames.push(frame)?;
        Ok(())
    }

    /// Takes the one in front.
    pub(crate) fn pop(&mut self) -> Option<Frame<'a>>
        ensures ends { IfSome result (λ f. AreEnds f.ends f.left.now) }
        ensures first { MatchOption result ((self.old ≡ []) × (self.new ≡ [])) (λ f. self.old ≡ frame_seen f ∷ self.new) }
    {
        self.frames.pop()
    }
}
