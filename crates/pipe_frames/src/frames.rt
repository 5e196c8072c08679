ghost use Rattle.std.specs.Prelude.{◌≡◌, ◌≢◌, ◌<◌, ◌^◌, ◌↔◌, ℕ, List, [], ◌∷◌, ◌++◌, length, take, true, IsNone, IfSome, IfNone};
ghost use Rattle.std.specs.Prelude.{OnOk, OnErr};
ghost use Rattle.node_tree.specs.Numbers.{number_limit};
ghost use Rattle.pipe_frames.specs.Frames.{Frames, IsText, IsFrame, Splits, frames_of, bytes_of, continued, framed, with_frame};

use memchr::memchr;
use std::alloc::{AllocError, Global};
use std::collections::VecDeque;
use std::marker::Model;
use std::mem;

/// Cuts the bytes of a pipe into frames, in whatever pieces they come. A frame ends with a zero byte, which it does not
/// have.
#[derive(Drop)]
pub struct Splitter {
    alloc: Global,
    whole: VecDeque<Vec<u8>>,
    rest: Vec<u8>,
}

impl Model for Splitter {
    ghost use Rattle.std.specs.Prelude.{map};
    ghost use Rattle.pipe_frames.specs.Frames.{Frames, IsCut};

    ghost Value = { Frames };

    ghost view = { λ s. record { whole = map (λ frame. frame.items) s.whole.items; rest = s.rest.items } };

    ghost invariant = { λ s. IsCut (map (λ frame. frame.items) s.whole.items) s.rest.items };
}

impl Splitter {
    /// A splitter that holds nothing.
    pub fn new(alloc: Global) -> Splitter
        ensures { result ≡ record { whole = []; rest = [] } }
    {
        Splitter {
            alloc,
            whole: VecDeque::new(alloc),
            rest: Vec::new(alloc),
        }
    }

    /// Takes the next bytes of the pipe. After an error a front part of the piece was taken, and the rest was not.
    pub fn take(&mut self, piece: &[u8]) -> Result<(), AllocError>
        ensures ok { OnOk result (self.new ≡ continued self.old piece.now) }
        ensures err { OnErr result ((n : ℕ) × (n < length piece.now) × (self.new ≡ continued self.old (take n piece.now))) }
    {
        // For the proof alone, which learns here what each splitter is.
        let _ = &self.rest;
        let mut start = 0;
        while let Some(len) = memchr(0, &piece[start..]) {
            self.add_text(&piece[start..start + len])?;
            self.end_frame()?;
            start += len + 1;
        }
        self.add_text(&piece[start..])
    }

    /// The same of a piece that is handed over: where it is one whole frame, and nothing is held before it, it is kept as it is
    /// and not copied.
    pub fn take_owned(&mut self, piece: Vec<u8>) -> Result<(), AllocError>
        ensures ok { OnOk result (self.new ≡ continued self.old piece.items) }
        ensures err { OnErr result ((n : ℕ) × (n < length piece.items) × (self.new ≡ continued self.old (take n piece.items))) }
    {
        if self.rest.is_empty() && is_frame(&piece) {
            self.keep_frame(piece)
        } else {
            self.take(&piece)
        }
    }

    // A piece that is one whole frame comes where nothing is held before it.
    fn keep_frame(&mut self, mut piece: Vec<u8>) -> Result<(), AllocError>
        requires alone { self.old.rest ≡ [] }
        requires frame { IsFrame piece.items }
        ensures ok { OnOk result (self.new ≡ continued self.old piece.items) }
        ensures err { OnErr result (self.new ≡ self.old) }
    {
        let _zero = piece.pop();
        if let Err(_) = self.whole.push_back(piece) {
            return Err(AllocError);
        }
        Ok(())
    }

    // A zero byte ends the frame that the rest has begun.
    fn end_frame(&mut self) -> Result<(), AllocError>
        ensures ok { OnOk result (self.new ≡ continued self.old (0 ∷ [])) }
        ensures err { OnErr result (self.new ≡ self.old) }
    {
        let frame = mem::replace(&mut self.rest, Vec::new(self.alloc));
        if let Err(refused) = self.whole.push_back(frame) {
            self.rest = refused.value;
            return Err(AllocError);
        }
        Ok(())
    }

    // Bytes that are not zero lengthen the rest; only where there are some is memory asked for.
    fn add_text(&mut self, text: &[u8]) -> Result<(), AllocError>
        requires { IsText text.now }
        ensures ok { OnOk result (self.new ≡ continued self.old text.now) }
        ensures err { OnErr result (self.new ≡ self.old) }
        ensures some { OnErr result (0 < length text.now) }
    {
        let rest = &mut self.rest;
        if text.is_empty() {
            return Ok(());
        }
        rest.extend_from_slice(text)?;
        Ok(())
    }

    /// Hands out the first whole frame, without its zero byte.
    pub fn next(&mut self) -> Option<Vec<u8>>
        ensures none { IsNone result ↔ (self.old.whole ≡ []) }
        ensures first { IfSome result (λ frame. self.old.whole ≡ frame.items ∷ self.new.whole) }
        ensures text { IfSome result (λ frame. IsText frame.items) }
        ensures rest { self.new.rest ≡ self.old.rest }
        ensures unchanged { IfNone result (self.new ≡ self.old) }
    {
        let frame = self.whole.pop_front()?;
        Some(frame)
    }

    /// How many bytes were taken and not handed out, zero bytes included. They are in memory, so there are fewer than 2^64.
    pub fn held(&self) -> usize
        ensures { length (bytes_of self.now) < number_limit → result ≡ length (bytes_of self.now) }
    {
        let mut held = self.rest.len();
        for frame in &self.whole {
            held = held.saturating_add(frame.len()).saturating_add(1);
        }
        held
    }
}

// Whether a piece is a text with one zero byte behind it, and nothing else.
fn is_frame(piece: &[u8]) -> bool
    ensures { result ≡ true → IsFrame piece.now }
{
    match piece.split_last() {
        Some((last, text)) => *last == 0 && !text.contains(&0),
        None => false,
    }
}

/// Appends the text and one zero byte.
pub fn put_frame(text: &[u8], out: &mut Vec<u8>) -> Result<(), AllocError>
    requires { IsText text.now }
    ensures ok { OnOk result (out.new.items ≡ out.old.items ++ framed text.now) }
    ensures err { OnErr result (out.new.items ≡ out.old.items) }

    // After whole frames the text is one frame more.
    ensures last { (frames_of out.old.items).rest ≡ []
        → OnOk result (frames_of out.new.items ≡ with_frame (frames_of out.old.items) text.now) }
{
    let start = out.len();
    out.extend_from_slice(text)?;
    match out.push(0) {
        Ok(()) => Ok(()),
        Err(_) => {
            out.truncate(start);
            Err(AllocError)
        }
    }
}

/// The law of frames: they are the one way to cut bytes into texts, each followed by a zero byte, and a rest, and they are
/// the same in whatever pieces the bytes come.
pub fn frames_law()
    ensures split { (bytes : List ℕ) → Splits bytes (frames_of bytes) }
    ensures only { (bytes : List ℕ) (frames : Frames) → Splits bytes frames → frames ≡ frames_of bytes }
    ensures joined { (first second : List ℕ) → frames_of (first ++ second) ≡ continued (frames_of first) second }
{}
