ghost use Rattle.std.specs.Prelude.{◌≡◌, ◌<◌, ◌≤◌, ℕ, List, Option, IfOk, OnOk, length};
ghost use Rattle.std.specs.Io.{ReadsAtMost, WritesAtMost};
ghost use Rattle.std.specs.Io.KnownBytes.{ReadConsumes, WriteAppends};
ghost use Rattle.node_tree.specs.Numbers.{memory_limit};
ghost use Rattle.pipe_frames.specs.Pipe.{Pipe, Puts, Gets, GivesPrefix, GivesAll, filling, waiting};

use thiserror::Error;

/// A source could not be read.
#[derive(Debug, Drop, Error)]
#[error("the source failed")]
pub struct Failed;

/// Why a sink or a link did nothing.
#[derive(Debug, Drop, Error)]
pub enum OutErr {
    /// The outside failed.
    #[error("the outside failed")]
    Failed,
    /// There was no memory for the call.
    #[error("out of memory")]
    Memory,
}

/// What bytes are read from.
pub trait Source {
    ghost use Rattle.pipe_frames.specs.Fault.{HasReadCause, next_count};

    // The bytes that reads will give from here on, where the source can tell.
    ghost left: { Self → Option (List ℕ) };

    // How often the source failed.
    ghost faults: { Self → ℕ };

    // How often it was read.
    ghost calls: { Self → ℕ };

    /// Moves the next bytes into the front of `buf` and answers their number. 0 into a buffer that is not empty is the end.
    fn read(&mut self, buf: &mut [u8]) -> Result<usize, Failed>
        ensures bound { ReadsAtMost result buf.new }
        ensures bytes { ReadConsumes (left self.old) (left self.new) result buf.new }
        ensures cause { HasReadCause (faults self.old) (faults self.new) result }
        ensures counted { calls self.new ≡ next_count (calls self.old) };
}

/// What bytes are written to.
pub trait Sink {
    ghost use Rattle.pipe_frames.specs.Fault.{HasCause};

    // The bytes that the sink has taken, where it can tell.
    ghost taken: { Self → Option (List ℕ) };

    // How often the sink failed.
    ghost faults: { Self → ℕ };

    /// Takes bytes from the front of `piece` and answers their number.
    fn write(&mut self, piece: &[u8]) -> Result<usize, OutErr>
        ensures bound { WritesAtMost result piece.now }
        ensures bytes { WriteAppends (taken self.old) (taken self.new) result piece.now }
        ensures some { IfOk result (λ n. 0 < length piece.now → 0 < n) }
        ensures cause { HasCause (faults self.old) (faults self.new) result };
}

/// The pair of pipes between two ends: up from the front end to the back end, and down from the back end to the front end.
///
/// A link is honest where each pipe gives what was sent, in order, and each get gives as many bytes as were asked for and
/// are there. No link gives more bytes than were sent, and what waits in it is in memory.
pub trait Link {
    ghost use Rattle.pipe_frames.specs.Fault.{HasCause};

    // What was sent up and given up, and what was sent down and given down.
    ghost up: { Self → Pipe };

    ghost down: { Self → Pipe };

    // How often the link failed.
    ghost faults: { Self → ℕ };

    // What an honest link is, which every call keeps.
    ghost honest: { Self → Type 0 };

    /// Sends the whole piece up.
    fn put_up(&mut self, piece: &[u8]) -> Result<(), OutErr>
        ensures up { Puts (up self.old) (up self.new) piece.now result }
        ensures held { OnOk result (length (waiting (up self.new)) < memory_limit) }
        ensures down { down self.new ≡ down self.old }
        ensures honest { honest self.old → honest self.new }
        ensures cause { HasCause (faults self.old) (faults self.new) result };

    /// Sends the whole piece down.
    fn put_down(&mut self, piece: &[u8]) -> Result<(), OutErr>
        ensures down { Puts (down self.old) (down self.new) piece.now result }
        ensures held { OnOk result (length (waiting (down self.new)) < memory_limit) }
        ensures up { up self.new ≡ up self.old }
        ensures honest { honest self.old → honest self.new }
        ensures cause { HasCause (faults self.old) (faults self.new) result };

    /// Appends at most `max` bytes that come up to `into`, and answers their number.
    fn get_up(&mut self, max: usize, into: &mut Vec<u8>) -> Result<usize, OutErr>
        ensures up { Gets max (filling (up self.old) into.old.items) (filling (up self.new) into.new.items) result }
        ensures down { down self.new ≡ down self.old }
        ensures honest { honest self.old → honest self.new }
        ensures all { honest self.old → GivesAll max (filling (up self.old) into.old.items) into.new.items result }
        ensures cause { HasCause (faults self.old) (faults self.new) result };

    /// Appends at most `max` bytes that come down to `into`, and answers their number.
    fn get_down(&mut self, max: usize, into: &mut Vec<u8>) -> Result<usize, OutErr>
        ensures down { Gets max (filling (down self.old) into.old.items) (filling (down self.new) into.new.items) result }
        ensures up { up self.new ≡ up self.old }
        ensures honest { honest self.old → honest self.new }
        ensures all { honest self.old → GivesAll max (filling (down self.old) into.old.items) into.new.items result }
        ensures cause { HasCause (faults self.old) (faults self.new) result };

    // No more bytes were given than sent.
    ghost within_up: { (link : Self) → length (up link).given ≤ length (up link).sent };

    ghost within_down: { (link : Self) → length (down link).given ≤ length (down link).sent };

    // An honest link has given a prefix of what was sent.
    ghost front_up: { (link : Self) → honest link → GivesPrefix (up link) };

    ghost front_down: { (link : Self) → honest link → GivesPrefix (down link) };
}
