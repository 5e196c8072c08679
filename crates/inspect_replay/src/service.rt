// A back end that serves its clients, frame by frame.
ghost use Rattle.std.specs.Prelude.{◌≡◌, ◌≤◌, ◌<◌, ◌∷◌, [], length, IfOk, OnOk};
ghost use Rattle.pipe_frames.specs.Fault.{next_count};
ghost use Rattle.inspect_replay.specs.Served.{Served, AreNew, AreSeated, first_of};

use crate::clients::Clients;
use crate::program::INPUT_LIMIT;
use crate::serve::{end_of_input, read_piece};
use back_end::PageSide;
use pipe_frames::{OutErr, Sink, Source, Splitter, write_all};
use replay_parts::Stop;
use std::alloc::{AllocError, Global};

/// A back end with its clients, and what came of a frame that is not whole. The seats stand for the page's side, as long as they are not
/// dead.
pub(crate) struct Service {
    pub(crate) alloc: Global,
    pub(crate) side: PageSide,
    pub(crate) clients: Clients,
    pub(crate) splitter: Splitter,
    ghost seated: { AreSeated clients side },
}

// By hand, so that who lets a service go need not know of its parts.
impl Drop for Service {
    fn drop(self) {
        let Service {
            alloc: _alloc,
            side,
            clients,
            splitter,
        } = self;
        drop(side);
        drop(clients);
        drop(splitter);
    }
}

impl Service {
    ghost use Rattle.inspect_replay.specs.Serving.{IsServing, SoFar, Serves, AnswersFrames, TakesPiece, HasServed, HasServeCause};
    ghost use Rattle.inspect_replay.specs.Serving.{HasWriteCause, PieceServed, serve_moment};
    ghost use Rattle.inspect_replay.specs.ServeReads.{AnswersInTurn};

    /// The back end of a page of one document without children, which has the serial 1.
    pub(crate) fn new(alloc: Global, clients: Clients) -> Result<Service, AllocError>
        requires { AreNew clients }
        ensures first { IfOk result (λ service. IsServing (first_of clients) service []) }
    {
        let side = PageSide::new(alloc, None)?;
        Ok(Service {
            alloc,
            side,
            clients,
            splitter: Splitter::new(alloc),
        })
    }

    /// Answers one frame, where there is room for it: the answer is written before the call ends.
    fn answer<K: Sink>(&mut self, frame: &[u8], out: &mut K) -> Result<(), Stop>
        ensures same { self.new.splitter ≡ self.old.splitter }
        ensures answers { AnswersFrames (serve_moment self.old (K.taken out.old)) (serve_moment self.new (K.taken out.new))
            (frame.now ∷ []) result }
        ensures cause { HasWriteCause (K.faults out.old) (K.faults out.new) result }
    {
        if !self.clients.has_room(&self.side) {
            return Err(Stop::NoRoom);
        }
        let mut message = Vec::new(self.alloc);
        self.clients
            .take_message(&mut self.side, frame, &mut message)?;
        match write_all(out, &message) {
            Ok(()) => Ok(()),
            Err(OutErr::Failed) => Err(Stop::WriteFault),
            Err(OutErr::Memory) => Err(Stop::Memory),
        }
    }

    /// Answers the frames that are whole, one after the other.
    fn answer_whole<K: Sink>(&mut self, out: &mut K) -> Result<(), Stop>
        ensures none { OnOk result (self.new.splitter ≡ record { whole = []; rest = self.old.splitter.rest }) }
        ensures answers { AnswersFrames (serve_moment self.old (K.taken out.old))
            (serve_moment self.new (K.taken out.new)) self.old.splitter.whole result }
        ensures cause { HasWriteCause (K.faults out.old) (K.faults out.new) result }
    {
        while let Some(frame) = self.splitter.next() {
            match self.answer(&frame, out) {
                Ok(()) => {}
                Err(stop) => return Err(stop),
            }
        }
        Ok(())
    }

    /// Takes the next bytes of the client.
    fn take<K: Sink>(&mut self, piece: &[u8], out: &mut K) -> Result<(), Stop>
        ensures takes { TakesPiece (serve_moment self.old (K.taken out.old)) (serve_moment self.new (K.taken out.new)) piece.now result }
        ensures cause { HasWriteCause (K.faults out.old) (K.faults out.new) result }
    {
        match self.splitter.take(piece) {
            Ok(()) => self.answer_whole(out),
            Err(_) => Err(Stop::Memory),
        }
    }

    /// Reads once, and answers what came. 0 is the end.
    fn serve_piece<S: Source, K: Sink>(
        &mut self,
        src: &mut S,
        buf: &mut [u8],
        out: &mut K,
    ) -> Result<usize, Stop>
        requires room { 0 < length buf.old }
        ensures bound { IfOk result (λ n. n ≤ length buf.new) }
        ensures served { (so_far : SoFar) → Serves so_far (serve_moment self.old (K.taken out.old))
            → PieceServed so_far (serve_moment self.new (K.taken out.new))
            (record { before = S.left src.old; after = S.left src.new; most = length buf.new }) result }
        ensures counted { S.calls src.new ≡ next_count (S.calls src.old) }
        ensures cause { HasServeCause (record {
          source_before = S.faults src.old;
          source_after = S.faults src.new;
          sink_before = K.faults out.old;
          sink_after = K.faults out.new;
          link_before = 0;
          link_after = 0;
        }) result }
    {
        match read_piece(src, buf) {
            Ok(count) => match self.take(&buf[..count], out) {
                Ok(()) => Ok(count),
                Err(stop) => Err(stop),
            },
            Err(stop) => Err(stop),
        }
    }

    /// Serves until the source ends, or has given as many bytes as an input may have. What came is answered before more is read.
    pub(crate) fn serve_within<S: Source, K: Sink>(
        &mut self,
        src: &mut S,
        buf: &mut [u8],
        out: &mut K,
    ) -> Result<(), Stop>
        requires room { 0 < length buf.old }
        ensures served { (first : Served) → IsServing first self.old [] → HasServed first (record {
          left_before = S.left src.old;
          left_after = S.left src.new;
          taken_before = K.taken out.old;
          taken_after = K.taken out.new;
        }) result }
        ensures in_turn { (first : Served) → IsServing first self.old [] → AnswersInTurn first (S.calls src.old) (S.calls src.new) (record {
          left_before = S.left src.old;
          left_after = S.left src.new;
          taken_before = K.taken out.old;
          taken_after = K.taken out.new;
        }) }
        ensures cause { HasServeCause (record {
          source_before = S.faults src.old;
          source_after = S.faults src.new;
          sink_before = K.faults out.old;
          sink_after = K.faults out.new;
          link_before = 0;
          link_after = 0;
        }) result }
    {
        let mut came = 0;
        while came < INPUT_LIMIT {
            let room = buf.len().min(INPUT_LIMIT - came);
            match self.serve_piece(src, &mut buf[..room], out) {
                Ok(0) => return Ok(()),
                Ok(count) => came += count,
                Err(stop) => return Err(stop),
            }
        }
        end_of_input(src, &mut buf[..1])
    }
}
