ghost use Rattle.std.specs.Prelude.{◌≡◌, ◌≤◌, ◌<◌, length, take, IfSome, IfNone, IsNone, IfOk, IsErr, OnOk};
ghost use Rattle.std.specs.Io.{WritesAtMost};
ghost use Rattle.std.specs.Io.KnownBytes.{Appends, Keeps, WriteAppends};
ghost use Rattle.pipe_frames.specs.Fault.{HasCause};
ghost use Rattle.pipe_frames.specs.Whole.{handed_on};

use crate::outside::{Failed, OutErr, Sink, Source};
use std::io::{Read, Write};

/// A source over a reader, as standard input: a read is one call of the reader.
#[derive(Drop)]
pub struct StdSource<R> {
    reader: R,
    faults: u64,
    calls: u64,
}

impl<R: Read> StdSource<R> {
    /// The reader as a source; it was not read yet.
    pub fn new(reader: R) -> StdSource<R>
        ensures faults { ⟦<StdSource<R> as Source>⟧.faults result ≡ 0 }
        ensures calls { ⟦<StdSource<R> as Source>⟧.calls result ≡ 0 }
        ensures left { ⟦<StdSource<R> as Source>⟧.left result ≡ R.remaining reader }
    {
        StdSource {
            reader,
            faults: 0,
            calls: 0,
        }
    }
}

impl<R: Read> Source for StdSource<R> {
    ghost left = { λ s. R.remaining s.reader };

    ghost faults = { λ s. s.faults };

    ghost calls = { λ s. s.calls };

    fn read(&mut self, buf: &mut [u8]) -> Result<usize, Failed> {
        self.calls = self.calls.saturating_add(1);
        match self.reader.read(buf) {
            Ok(count) => Ok(count),
            Err(_) => {
                self.faults = self.faults.saturating_add(1);
                Err(Failed)
            }
        }
    }
}

/// A sink over a writer, as standard output: what it took was handed on before it answers, so a write is followed by a flush.
///
/// Where the writer took bytes and could not hand them on, the write fails, and so do all later ones: the writer may hold these
/// bytes still, and nothing may come behind them. They count as not taken.
#[derive(Drop)]
pub struct StdSink<W> {
    writer: W,
    faults: u64,
    kept: usize,
}

impl<W: Write> StdSink<W> {
    /// The writer as a sink; no call has failed yet.
    pub fn new(writer: W) -> StdSink<W>
        ensures faults { ⟦<StdSink<W> as Sink>⟧.faults result ≡ 0 }
        ensures taken { ⟦<StdSink<W> as Sink>⟧.taken result ≡ W.contents writer }
    {
        StdSink {
            writer,
            faults: 0,
            kept: 0,
        }
    }

    // Has the writer take bytes from the front of the piece and hand them on: their number, if both went well.
    fn pass_on(&mut self, piece: &[u8]) -> Option<usize>
        ensures bound { IfSome result (λ n. n ≤ length piece.now) }
        ensures some { IfSome result (λ n. 0 < length piece.now → 0 < n) }
        ensures bytes { IfSome result (λ n. Appends (handed_on self.old.kept (W.contents self.old.writer))
            (handed_on self.new.kept (W.contents self.new.writer)) (take n piece.now)) }
        ensures kept { IfNone result (Keeps (handed_on self.old.kept (W.contents self.old.writer))
            (handed_on self.new.kept (W.contents self.new.writer))) }
        // nothing that the writer took stays with it
        ensures whole { IfSome result (λ n. self.new.kept ≡ 0) }
        // what stays with it stays
        ensures refuses { 0 < self.old.kept → IsNone result × (self.new.kept ≡ self.old.kept) }
        ensures faults { self.new.faults ≡ self.old.faults }
    {
        if self.kept > 0 {
            return None;
        }
        match self.writer.write(piece) {
            Ok(count) if count > 0 || piece.is_empty() => match self.writer.flush() {
                Ok(()) => Some(count),
                Err(_) => {
                    self.kept = count;
                    None
                }
            },
            _ => None,
        }
    }
}

impl<W: Write> Sink for StdSink<W> {
    ghost taken = { λ s. handed_on s.kept (W.contents s.writer) };

    ghost faults = { λ s. s.faults };

    fn write(&mut self, piece: &[u8]) -> Result<usize, OutErr>
        ensures bound { WritesAtMost result piece.now }
        ensures bytes { WriteAppends (handed_on self.old.kept (W.contents self.old.writer))
            (handed_on self.new.kept (W.contents self.new.writer)) result piece.now }
        ensures some { IfOk result (λ n. 0 < length piece.now → 0 < n) }
        ensures cause { HasCause self.old.faults self.new.faults result }
        // what it took, it let go: nothing is with the writer still
        ensures whole { OnOk result (self.new.kept ≡ 0) }
        // where bytes are with it from an earlier write, they stay, and this write fails
        ensures refuses { 0 < self.old.kept → IsErr result × (self.new.kept ≡ self.old.kept) }
    {
        match self.pass_on(piece) {
            Some(count) => Ok(count),
            None => {
                self.faults = self.faults.saturating_add(1);
                Err(OutErr::Failed)
            }
        }
    }
}
