// The two ends of a link: what both kinds of runs do with its pipes, whoever sends and takes.
ghost use Rattle.std.specs.Prelude.{◌≡◌, ◌≤◌, ◌+◌, ◌++◌, length, take, min, IfOk, OnOk, OnErr};
ghost use Rattle.pipe_frames.specs.Pipe.{waiting};
ghost use Rattle.pipe_frames.specs.Frames.{IsText, framed};
ghost use Rattle.replay_parts.specs.Stops.{StopRose, two_counts, GoesWell};

use crate::moments::Watched;
use crate::stop::Stop;
use pipe_frames::{Link, OutErr, Splitter};
use std::alloc::{AllocError, Global};
use std::marker::Model;

/// The two ends of a link: what comes up is cut into frames, and of each pipe it is counted how many bytes were sent and not given.
#[derive(Drop)]
pub struct Ends {
    alloc: Global,
    splitter: Splitter,
    up_there: u64,
    down_there: u64,
}

impl Model for Ends {
    ghost use Rattle.replay_parts.specs.LinkEnds.{LinkEnds};

    ghost Value = { LinkEnds };

    ghost view = { λ e. record { splitter = e.splitter; up_there = e.up_there; down_there = e.down_there } };
}

// A text as it is sent.
fn framed(alloc: Global, text: &str) -> Result<Vec<u8>, AllocError>
    ensures { IfOk result (λ frame. frame.items ≡ framed text.now) }
{
    let mut frame = Vec::from_slice(alloc, text.as_bytes())?;
    frame.push(0)?;
    Ok(frame)
}

impl Ends {
    ghost use Rattle.std.specs.Prelude.{◌∷◌, [], ◌↔◌, IsNone, IfSome, IfNone};
    ghost use Rattle.replay_parts.specs.LinkEnds.{unused_ends, TookUp};
    ghost use Rattle.replay_parts.specs.Stops.{UnlessMemory};

    /// The ends of a link over which nothing went.
    pub fn new(alloc: Global) -> Ends
        ensures { result ≡ unused_ends }
    {
        Ends {
            alloc,
            splitter: Splitter::new(alloc),
            up_there: 0,
            down_there: 0,
        }
    }

    /// How many bytes are on their way up.
    pub fn up_there(&self) -> u64
        ensures { result ≡ self.now.up_there }
    {
        self.up_there
    }

    /// How many bytes are on their way down.
    pub fn down_there(&self) -> u64
        ensures { result ≡ self.now.down_there }
    {
        self.down_there
    }

    /// Sends bytes up: all of them, or none where it does not go well. What waits is in memory, so the count has room.
    pub fn send_up<L: Link>(&mut self, link: &mut L, bytes: &[u8]) -> Result<(), Stop>
        ensures up { OnOk result ((L.up link.new).sent ≡ (L.up link.old).sent ++ bytes.now) }
        ensures given { (L.up link.new).given ≡ (L.up link.old).given }
        ensures unsent { OnErr result (L.up link.new ≡ L.up link.old) }
        ensures down { L.down link.new ≡ L.down link.old }
        ensures count { self.old.up_there ≤ length (waiting (L.up link.old))
            → OnOk result (self.new.up_there ≡ self.old.up_there + length bytes.now) }
        ensures ends { self.new ≡ record self.old { up_there = self.new.up_there } }
        ensures kept { OnErr result (self.new ≡ self.old) }
        ensures honest { L.honest link.old → L.honest link.new }
        ensures never { GoesWell result }
        ensures cause { StopRose (two_counts 0 0 (L.faults link.old) (L.faults link.new)) result }
    {
        match link.put_up(bytes) {
            Ok(()) => {
                self.up_there = self.up_there.saturating_add(bytes.len() as u64);
                Ok(())
            }
            Err(OutErr::Failed) => Err(Stop::LinkFault),
            Err(OutErr::Memory) => Err(Stop::Memory),
        }
    }

    /// Sends a text up, with the zero byte that ends it.
    pub fn send_text<L: Link>(&mut self, link: &mut L, text: &str) -> Result<(), Stop>
        ensures up { OnOk result ((L.up link.new).sent ≡ (L.up link.old).sent ++ framed text.now) }
        ensures given { (L.up link.new).given ≡ (L.up link.old).given }
        ensures unsent { OnErr result (L.up link.new ≡ L.up link.old) }
        ensures down { L.down link.new ≡ L.down link.old }
        ensures count { self.old.up_there ≤ length (waiting (L.up link.old))
            → OnOk result (self.new.up_there ≡ self.old.up_there + length (framed text.now)) }
        ensures ends { self.new ≡ record self.old { up_there = self.new.up_there } }
        ensures kept { OnErr result (self.new ≡ self.old) }
        ensures honest { L.honest link.old → L.honest link.new }
        ensures never { GoesWell result }
        ensures cause { StopRose (two_counts 0 0 (L.faults link.old) (L.faults link.new)) result }
    {
        let frame = framed(self.alloc, text)?;
        self.send_up(link, &frame)
    }

    /// Sends bytes down: all of them, or none where it does not go well. What waits is in memory, so the count has room.
    pub fn send_down<L: Link>(&mut self, link: &mut L, bytes: &[u8]) -> Result<(), Stop>
        ensures down { OnOk result ((L.down link.new).sent ≡ (L.down link.old).sent ++ bytes.now) }
        ensures given { (L.down link.new).given ≡ (L.down link.old).given }
        ensures unsent { OnErr result (L.down link.new ≡ L.down link.old) }
        ensures up { L.up link.new ≡ L.up link.old }
        ensures count { self.old.down_there ≤ length (waiting (L.down link.old))
            → OnOk result (self.new.down_there ≡ self.old.down_there + length bytes.now) }
        ensures ends { self.new ≡ record self.old { down_there = self.new.down_there } }
        ensures kept { OnErr result (self.new ≡ self.old) }
        ensures honest { L.honest link.old → L.honest link.new }
        ensures never { GoesWell result }
        ensures cause { StopRose (two_counts 0 0 (L.faults link.old) (L.faults link.new)) result }
    {
        match link.put_down(bytes) {
            Ok(()) => {
                self.down_there = self.down_there.saturating_add(bytes.len() as u64);
                Ok(())
            }
            Err(OutErr::Failed) => Err(Stop::LinkFault),
            Err(OutErr::Memory) => Err(Stop::Memory),
        }
    }

    /// Takes up to `n` bytes that come up, no more than are on their way, and cuts them into frames. Bytes that were given and found no
    /// memory are lost.
    pub fn take_up<L: Link>(&mut self, link: &mut L, n: u64) -> Result<(), Stop>
        ensures took { OnOk result (TookUp n (⟦<L as Watched>⟧.at link.old self.old) (⟦<L as Watched>⟧.at link.new self.new)) }
        ensures failed { UnlessMemory result (L.up link.new ≡ L.up link.old) }
        ensures down { L.down link.new ≡ L.down link.old }
        ensures kept { UnlessMemory result (self.new ≡ self.old) }
        ensures honest { L.honest link.old → L.honest link.new }
        ensures never { GoesWell result }
        ensures cause { StopRose (two_counts 0 0 (L.faults link.old) (L.faults link.new)) result }
    {
        let mut piece = Vec::new(self.alloc);
        match link.get_up(n.min(self.up_there) as usize, &mut piece) {
            Ok(_) => {
                self.up_there = self.up_there.saturating_sub(piece.len() as u64);
                self.splitter.take(&piece)?;
                Ok(())
            }
            Err(OutErr::Failed) => Err(Stop::LinkFault),
            Err(OutErr::Memory) => Err(Stop::Memory),
        }
    }

    /// Hands out the first frame that came up whole, without its zero byte.
    pub fn next_frame(&mut self) -> Option<Vec<u8>>
        ensures none { IsNone result ↔ (self.old.splitter.whole ≡ []) }
        ensures first { IfSome result (λ frame. self.old.splitter.whole ≡ frame.items ∷ self.new.splitter.whole) }
        ensures text { IfSome result (λ frame. IsText frame.items) }
        ensures rest { self.new.splitter.rest ≡ self.old.splitter.rest }
        ensures ends { self.new ≡ record self.old { splitter = self.new.splitter } }
        ensures unchanged { IfNone result (self.new ≡ self.old) }
    {
        self.splitter.next()
    }

    /// Gives up to `n` bytes that come down, no more than are on their way.
    pub fn take_down<L: Link>(&mut self, link: &mut L, n: u64) -> Result<Vec<u8>, Stop>
        ensures sent { (L.down link.new).sent ≡ (L.down link.old).sent }
        ensures given { IfOk result (λ piece. (L.down link.new).given ≡ (L.down link.old).given ++ piece.items) }
        ensures few { IfOk result (λ piece. length piece.items ≤ n) }
        ensures count { IfOk result (λ piece. self.new.down_there + length piece.items ≡ self.old.down_there) }
        ensures all { L.honest link.old
            → IfOk result (λ piece. piece.items ≡ take (min n self.old.down_there) (waiting (L.down link.old))) }
        ensures failed { OnErr result (L.down link.new ≡ L.down link.old) }
        ensures up { L.up link.new ≡ L.up link.old }
        ensures ends { self.new ≡ record self.old { down_there = self.new.down_there } }
        ensures kept { OnErr result (self.new ≡ self.old) }
        ensures honest { L.honest link.old → L.honest link.new }
        ensures never { GoesWell result }
        ensures cause { StopRose (two_counts 0 0 (L.faults link.old) (L.faults link.new)) result }
    {
        let mut piece = Vec::new(self.alloc);
        match link.get_down(n.min(self.down_there) as usize, &mut piece) {
            Ok(_) => {
                self.down_there = self.down_there.saturating_sub(piece.len() as u64);
                Ok(piece)
            }
            Err(OutErr::Failed) => Err(Stop::LinkFault),
            Err(OutErr::Memory) => Err(Stop::Memory),
        }
    }
}
