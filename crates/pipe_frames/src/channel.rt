ghost use Rattle.std.specs.Prelude.{◌≡◌, ◌-◌, ◌+◌, ◌≤◌, ◌<◌, min, length, OnOk, OnErr, OnSome, IfOk, IfSome, IfNone, Err};
ghost use Rattle.node_tree.specs.Numbers.{memory_limit};
ghost use Rattle.pipe_frames.specs.Pipe.{Puts, Gets, GivesAll, filling, waiting};
ghost use Rattle.pipe_frames.specs.Calls.{no_flow, pipe_of};

use crate::given::Given;
use crate::outside::OutErr;
use std::alloc::Global;
use std::marker::Model;
use std::mem;

/// One direction of a link in memory: the bytes that were given and let go, and the bytes that are held, of which the first `at`
/// were given. How many were given in all is not counted.
#[derive(Drop)]
pub(crate) struct Channel {
    alloc: Global,
    given: Given,
    bytes: Vec<u8>,
    at: usize,
}

impl Model for Channel {
    ghost use Rattle.std.specs.Prelude.{◌+◌, ◌≤◌, ◌++◌, length};
    ghost use Rattle.pipe_frames.specs.Calls.{Flow};

    ghost Value = { Flow };

    ghost view = { λ c. record { sent = c.given.bytes ++ c.bytes.items; passed = length c.given.bytes + c.at } };

    ghost invariant = { λ c. c.at ≤ length c.bytes.items };
}

impl Channel {
    pub(crate) fn new(alloc: Global) -> Channel
        ensures { result ≡ no_flow }
    {
        Channel {
            alloc,
            given: Given::new(),
            bytes: Vec::new(alloc),
            at: 0,
        }
    }

    pub(crate) fn put(&mut self, piece: &[u8]) -> Result<(), OutErr>
        ensures puts { Puts (pipe_of self.old) (pipe_of self.new) piece.now result }
        ensures held { OnOk result (length (waiting (pipe_of self.new)) < memory_limit) }
        ensures passed { self.new.passed ≡ self.old.passed }
        ensures memory { OnErr result ((self.new ≡ self.old) × (result ≡ Err OutErr.Memory)) }
    {
        match self.bytes.extend_from_slice(piece) {
            Ok(()) => Ok(()),
            Err(_) => Err(OutErr::Memory),
        }
    }

    pub(crate) fn get(&mut self, max: usize, into: &mut Vec<u8>) -> Result<usize, OutErr>
        ensures gets { Gets max (filling (pipe_of self.old) into.old.items) (filling (pipe_of self.new) into.new.items) result }
        ensures all { GivesAll max (filling (pipe_of self.old) into.old.items) into.new.items result }
        ensures count { IfOk result (λ n. n ≡ min max (length (waiting (pipe_of self.old)))) }
        ensures passed { IfOk result (λ n. self.new.passed ≡ self.old.passed + n) }
        ensures within { self.old.passed ≤ length self.old.sent }
        ensures memory { OnErr result ((self.new ≡ self.old) × (result ≡ Err OutErr.Memory)) }
    {
        // For the proof alone, which learns here that no more was given than was sent.
        let _ = &self.at;
        if into.is_empty()
            && let Some(piece) = self.hand_over(max)
        {
            let count = piece.len();
            *into = piece;
            return Ok(count);
        }
        self.copy_out(max, into)
    }

    // Hands over all that waits as it is, so that a long message is not copied: where it is not too long, and no byte that was
    // given is held before it.
    fn hand_over(&mut self, max: usize) -> Option<Vec<u8>>
        ensures some { IfSome result (λ piece. (piece.items ≡ waiting (pipe_of self.old)) × (length piece.items ≤ max)) }
        ensures passed { OnSome result (self.new ≡ record { sent = self.old.sent; passed = length self.old.sent }) }
        ensures none { IfNone result (self.new ≡ self.old) }
    {
        if self.at > 0 || self.bytes.len() > max {
            return None;
        }
        self.given = Given::with(&self.given, &self.bytes);
        Some(mem::replace(&mut self.bytes, Vec::new(self.alloc)))
    }

    // Copies the next bytes that wait, behind those that the buffer has.
    fn copy_out(&mut self, max: usize, into: &mut Vec<u8>) -> Result<usize, OutErr>
        ensures gets { Gets max (filling (pipe_of self.old) into.old.items) (filling (pipe_of self.new) into.new.items) result }
        ensures all { GivesAll max (filling (pipe_of self.old) into.old.items) into.new.items result }
        ensures count { IfOk result (λ n. n ≡ min max (length (waiting (pipe_of self.old)))) }
        ensures passed { IfOk result (λ n. self.new.passed ≡ self.old.passed + n) }
        ensures within { self.old.passed ≤ length self.old.sent }
        ensures memory { OnErr result ((self.new ≡ self.old) × (result ≡ Err OutErr.Memory)) }
    {
        let count = max.min(self.bytes.len() - self.at);
        let end = self.at + count;
        match into.extend_from_slice(&self.bytes[self.at..end]) {
            Ok(()) => {
                self.at = end;
                self.let_go();
                Ok(count)
            }
            Err(_) => Err(OutErr::Memory),
        }
    }

    // Lets the given bytes go, once of those that are held no fewer were given than wait. So what is held stays below twice
    // what waits, and to move what waits costs no more than it cost to give. Where there is no memory to move it, all stays.
    fn let_go(&mut self)
        ensures { self.new ≡ self.old }
    {
        if self.at < self.bytes.len() - self.at {
            return;
        }
        if let Ok(waiting) = self.bytes.split_off(self.at) {
            self.given = Given::with(&self.given, &self.bytes);
            self.bytes = waiting;
            self.at = 0;
        }
    }
}
