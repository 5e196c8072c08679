ghost use Rattle.std.specs.Prelude.{◌≡◌, ◌≤◌, ◌<◌, ◌-◌, ◌+◌, ◌++◌, Err, IfOk, OnOk, OnErr, min, take, drop, length};
ghost use Rattle.node_tree.specs.Numbers.{memory_limit};
ghost use Rattle.pipe_frames.specs.Pipe.{Puts, Gets, GivesAll, filling, waiting};
ghost use Rattle.pipe_frames.specs.Calls.{no_flow, pipe_of, gives_few, lies_few, lying_pipe, replaced};

use crate::channel::Channel;
use crate::outside::{Link, OutErr};
use std::alloc::Global;
use std::marker::Model;

/// A link that never fails and is not honest: one byte that it gives down is not the byte that was sent.
#[derive(Drop)]
pub struct LyingLink {
    up: Channel,
    down: Channel,
    place: u64,
    to: u8,
    left: u64,
}

impl Model for LyingLink {
    ghost use Rattle.std.specs.Prelude.{◌≡◌, ◌-◌};
    ghost use Rattle.pipe_frames.specs.Calls.{LiarParts};

    ghost Value = { LiarParts };

    ghost view = { λ l. record { up = l.up; down = l.down; place = l.place; to = l.to } };

    // How many bytes are to come before the one that is replaced, and that one.
    ghost invariant = { λ l. l.left ≡ l.place - l.down.passed };
}

impl LyingLink {
    /// The `place`-th byte given down, counted from 1, is replaced by `to`.
    pub fn new(alloc: Global, place: u64, to: u8) -> LyingLink
        ensures { result ≡ record { up = no_flow; down = no_flow; place = place; to = to } }
    {
        LyingLink {
            up: Channel::new(alloc),
            down: Channel::new(alloc),
            place,
            to,
            left: place,
        }
    }
}

// From `start` on, replaces the byte at `place`, counted from 1, if there are so many.
fn replace_byte(bytes: &mut Vec<u8>, start: usize, place: u64, to: u8)
    requires { start ≤ length bytes.old.items }
    ensures { bytes.new.items ≡ take start bytes.old.items ++ replaced place to (drop start bytes.old.items) }
{
    if place == 0 || bytes.len() - start < place as usize {
        return;
    }
    bytes[start + place as usize - 1] = to;
}

impl Link for LyingLink {
    ghost up = { λ l. pipe_of l.up };

    ghost down = { λ l. lying_pipe l.place l.to l.down };

    ghost faults = { λ _. 0 };

    ghost honest = { λ _. ⊥ };

    ghost within_up = { λ l. gives_few l.up };

    ghost within_down = { λ l. lies_few l.place l.to l.down };

    ghost front_up = { λ _ never. absurd never };

    ghost front_down = { λ _ never. absurd never };

    fn put_up(&mut self, piece: &[u8]) -> Result<(), OutErr>
        ensures up { Puts (pipe_of self.old.up) (pipe_of self.new.up) piece.now result }
        ensures held { OnOk result (length (waiting (pipe_of self.new.up)) < memory_limit) }
        ensures same { self.new ≡ record self.old { up = self.new.up } }
        ensures memory { OnErr result (result ≡ Err OutErr.Memory) }
    {
        self.up.put(piece)
    }

    fn put_down(&mut self, piece: &[u8]) -> Result<(), OutErr>
        ensures down { Puts (pipe_of self.old.down) (pipe_of self.new.down) piece.now result }
        ensures held { OnOk result (length (waiting (lying_pipe self.new.place self.new.to self.new.down)) < memory_limit) }
        ensures same { self.new ≡ record self.old { down = self.new.down } }
        ensures memory { OnErr result (result ≡ Err OutErr.Memory) }
    {
        self.down.put(piece)
    }

    fn get_up(&mut self, max: usize, into: &mut Vec<u8>) -> Result<usize, OutErr>
        ensures up { Gets max (filling (pipe_of self.old.up) into.old.items) (filling (pipe_of self.new.up) into.new.items) result }
        ensures all { GivesAll max (filling (pipe_of self.old.up) into.old.items) into.new.items result }
        ensures same { self.new ≡ record self.old { up = self.new.up } }
        ensures memory { OnErr result (result ≡ Err OutErr.Memory) }
    {
        self.up.get(max, into)
    }

    fn get_down(&mut self, max: usize, into: &mut Vec<u8>) -> Result<usize, OutErr>
        ensures down { Gets max (filling (lying_pipe self.old.place self.old.to self.old.down) into.old.items)
            (filling (lying_pipe self.new.place self.new.to self.new.down) into.new.items) result }
        ensures count { IfOk result (λ n. n ≡ min max (length (waiting (pipe_of self.old.down)))) }
        ensures same { self.new ≡ record self.old { down = self.new.down } }
        ensures memory { OnErr result (result ≡ Err OutErr.Memory) }
    {
        let start = into.len();
        let count = self.down.get(max, into)?;
        replace_byte(into, start, self.left, self.to);
        self.left = self.left.saturating_sub(count as u64);
        Ok(count)
    }
}
