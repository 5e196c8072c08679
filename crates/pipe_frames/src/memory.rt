ghost use Rattle.std.specs.Prelude.{◌≡◌, ◌≤◌, ◌<◌, ◌↔◌, [], Some, take, min, length, IfOk, OnOk, IsErr, is_err};
ghost use Rattle.std.specs.Io.{ReadsAtMost, WritesAtMost};
ghost use Rattle.std.specs.Io.KnownBytes.{ReadConsumes, WriteAppends};
ghost use Rattle.node_tree.specs.Numbers.{memory_limit};
ghost use Rattle.pipe_frames.specs.Fault.{HasCause, HasReadCause};
ghost use Rattle.pipe_frames.specs.Pipe.{Puts, Gets, GivesAll, filling, waiting};
ghost use Rattle.pipe_frames.specs.Calls.{NextFails, no_calls, no_flow, counted, is_failed, pipe_of, gives_few, gives_prefix};

use crate::channel::Channel;
use crate::outside::{Failed, Link, OutErr, Sink, Source};
use crate::schedule::Schedule;
use std::alloc::Global;
use std::marker::Model;

/// A source over bytes in memory.
#[derive(Drop)]
pub struct MemSource {
    bytes: Vec<u8>,
    at: usize,
    step: usize,
    calls: Schedule,
}

impl Model for MemSource {
    ghost use Rattle.std.specs.Prelude.{◌≤◌, drop, length};
    ghost use Rattle.pipe_frames.specs.Calls.{SourceParts};

    ghost Value = { SourceParts };

    ghost view = { λ s. record { left = drop s.at s.bytes.items; step = s.step; calls = s.calls } };

    ghost invariant = { λ s. (s.at ≤ length s.bytes.items) × (1 ≤ s.step) };
}

impl MemSource {
    /// A call gives the smallest of `step`, the buffer's length and what is left. Call k, counted from 1, fails where k is
    /// in `fail`.
    pub fn new(bytes: Vec<u8>, step: usize, fail: Vec<u64>) -> MemSource
        requires { 1 ≤ step }
        ensures { result ≡ record { left = bytes.items; step = step; calls = no_calls fail.items } }
    {
        MemSource {
            bytes,
            at: 0,
            step,
            calls: Schedule::new(fail),
        }
    }
}

impl Source for MemSource {
    ghost left = { λ s. Some s.left };

    ghost faults = { λ s. s.calls.faults };

    ghost calls = { λ s. s.calls.made };

    fn read(&mut self, buf: &mut [u8]) -> Result<usize, Failed>
        ensures bound { ReadsAtMost result buf.new }
        ensures bytes { ReadConsumes (Some self.old.left) (Some self.new.left) result buf.new }
        ensures cause { HasReadCause self.old.calls.faults self.new.calls.faults result }

        ensures fails { IsErr result ↔ NextFails self.old.calls }
        ensures count { IfOk result (λ n. n ≡ min self.old.step (min (length buf.new) (length self.old.left))) }
        ensures calls { self.new.calls ≡ counted self.old.calls (is_err result) }
        ensures step { self.new.step ≡ self.old.step }
    {
        if self.calls.fails() {
            return Err(Failed);
        }
        let count = copy_front(&self.bytes[self.at..], buf, self.step);
        self.at += count;
        Ok(count)
    }
}

// Copies the front of `from` over the front of `into`: at most `max` bytes.
fn copy_front(from: &[u8], into: &mut [u8], max: usize) -> usize
    ensures count { result ≡ min max (min (length into.new) (length from.now)) }
    ensures front { take result into.new ≡ take result from.now }
{
    let count = max.min(into.len()).min(from.len());
    into[..count].copy_from_slice(&from[..count]);
    count
}

/// A sink that keeps what it takes.
#[derive(Drop)]
pub struct MemSink {
    taken: Vec<u8>,
    calls: Schedule,
}

impl Model for MemSink {
    ghost use Rattle.pipe_frames.specs.Calls.{SinkParts};

    ghost Value = { SinkParts };

    ghost view = { λ s. record { taken = s.taken.items; calls = s.calls } };
}

impl MemSink {
    /// A call takes the whole piece. Call k, counted from 1, fails where k is in `fail`.
    pub fn new(alloc: Global, fail: Vec<u64>) -> MemSink
        ensures { result ≡ record { taken = []; calls = no_calls fail.items } }
    {
        MemSink {
            taken: Vec::new(alloc),
            calls: Schedule::new(fail),
        }
    }

    /// What was taken.
    pub fn bytes(&self) -> &[u8]
        ensures { result.now ≡ self.now.taken }
    {
        self.taken.as_slice()
    }
}

impl Sink for MemSink {
    ghost taken = { λ s. Some s.taken };

    ghost faults = { λ s. s.calls.faults };

    fn write(&mut self, piece: &[u8]) -> Result<usize, OutErr>
        ensures bound { WritesAtMost result piece.now }
        ensures bytes { WriteAppends (Some self.old.taken) (Some self.new.taken) result piece.now }
        ensures some { IfOk result (λ n. 0 < length piece.now → 0 < n) }
        ensures cause { HasCause self.old.calls.faults self.new.calls.faults result }

        ensures fails { (result ≡ Err OutErr.Failed) ↔ NextFails self.old.calls }
        ensures whole { IfOk result (λ n. n ≡ length piece.now) }
        ensures calls { self.new.calls ≡ counted self.old.calls (is_failed result) }
    {
        if self.calls.fails() {
            return Err(OutErr::Failed);
        }
        match self.taken.extend_from_slice(piece) {
            Ok(()) => Ok(piece.len()),
            Err(_) => Err(OutErr::Memory),
        }
    }
}

/// An honest link: each pipe gives what was sent.
#[derive(Drop)]
pub struct MemLink {
    up: Channel,
    down: Channel,
    calls: Schedule,
}

impl Model for MemLink {
    ghost use Rattle.pipe_frames.specs.Calls.{LinkParts};

    ghost Value = { LinkParts };

    ghost view = { λ l. record { up = l.up; down = l.down; calls = l.calls } };
}

impl MemLink {
    /// Call k, counted from 1 over the four methods, fails where k is in `fail`.
    pub fn new(alloc: Global, fail: Vec<u64>) -> MemLink
        ensures { result ≡ record { up = no_flow; down = no_flow; calls = no_calls fail.items } }
    {
        MemLink {
            up: Channel::new(alloc),
            down: Channel::new(alloc),
            calls: Schedule::new(fail),
        }
    }
}

impl Link for MemLink {
    ghost up = { λ l. pipe_of l.up };

    ghost down = { λ l. pipe_of l.down };

    ghost faults = { λ l. l.calls.faults };

    ghost honest = { λ _. Unit {0} };

    ghost within_up = { λ l. gives_few l.up };

    ghost within_down = { λ l. gives_few l.down };

    ghost front_up = { λ l _. gives_prefix l.up };

    ghost front_down = { λ l _. gives_prefix l.down };

    fn put_up(&mut self, piece: &[u8]) -> Result<(), OutErr>
        ensures up { Puts (pipe_of self.old.up) (pipe_of self.new.up) piece.now result }
        ensures held { OnOk result (length (waiting (pipe_of self.new.up)) < memory_limit) }
        ensures down { self.new.down ≡ self.old.down }
        ensures cause { HasCause self.old.calls.faults self.new.calls.faults result }

        ensures fails { (result ≡ Err OutErr.Failed) ↔ NextFails self.old.calls }
        ensures calls { self.new.calls ≡ counted self.old.calls (is_failed result) }
    {
        if self.calls.fails() {
            return Err(OutErr::Failed);
        }
        self.up.put(piece)
    }

    fn put_down(&mut self, piece: &[u8]) -> Result<(), OutErr>
        ensures down { Puts (pipe_of self.old.down) (pipe_of self.new.down) piece.now result }
        ensures held { OnOk result (length (waiting (pipe_of self.new.down)) < memory_limit) }
        ensures up { self.new.up ≡ self.old.up }
        ensures cause { HasCause self.old.calls.faults self.new.calls.faults result }

        ensures fails { (result ≡ Err OutErr.Failed) ↔ NextFails self.old.calls }
        ensures calls { self.new.calls ≡ counted self.old.calls (is_failed result) }
    {
        if self.calls.fails() {
            return Err(OutErr::Failed);
        }
        self.down.put(piece)
    }

    fn get_up(&mut self, max: usize, into: &mut Vec<u8>) -> Result<usize, OutErr>
        ensures up { Gets max (filling (pipe_of self.old.up) into.old.items) (filling (pipe_of self.new.up) into.new.items) result }
        ensures down { self.new.down ≡ self.old.down }
        ensures all { GivesAll max (filling (pipe_of self.old.up) into.old.items) into.new.items result }
        ensures cause { HasCause self.old.calls.faults self.new.calls.faults result }

        ensures fails { (result ≡ Err OutErr.Failed) ↔ NextFails self.old.calls }
        ensures calls { self.new.calls ≡ counted self.old.calls (is_failed result) }
    {
        if self.calls.fails() {
            return Err(OutErr::Failed);
        }
        self.up.get(max, into)
    }

    fn get_down(&mut self, max: usize, into: &mut Vec<u8>) -> Result<usize, OutErr>
        ensures down { Gets max (filling (pipe_of self.old.down) into.old.items) (filling (pipe_of self.new.down) into.new.items) result }
        ensures up { self.new.up ≡ self.old.up }
        ensures all { GivesAll max (filling (pipe_of self.old.down) into.old.items) into.new.items result }
        ensures cause { HasCause self.old.calls.faults self.new.calls.faults result }

        ensures fails { (result ≡ Err OutErr.Failed) ↔ NextFails self.old.calls }
        ensures calls { self.new.calls ≡ counted self.old.calls (is_failed result) }
    {
        if self.calls.fails() {
            return Err(OutErr::Failed);
        }
        self.down.get(max, into)
    }
}
