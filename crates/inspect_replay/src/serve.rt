// `serve` and `share`: clients speak to the back end over the source and the sink, with no front end of ours between them.
ghost use Rattle.std.specs.Prelude.{◌≡◌, ◌+◌, ◌≤◌, ◌<◌, ℕ, List, length, take, Ok, Err, IfOk, OnErr};
ghost use Rattle.std.specs.Io.KnownBytes.{Consumes, IsAtEnd, Keeps};
ghost use Rattle.node_tree.specs.Numbers.{max_input};
ghost use Rattle.pipe_frames.specs.Fault.{Rose, next_count};
ghost use Rattle.pipe_frames.specs.Whole.{ReadPart};
ghost use Rattle.replay_parts.specs.Answers.{StatusRose, AnswersFaults};
ghost use Rattle.inspect_replay.specs.Served.{AreNew, first_of};
ghost use Rattle.inspect_replay.specs.ServeReads.{AnswersInTurn, ReadsInTurn, SharesInTurn};
ghost use Rattle.inspect_replay.specs.Serving.{IsServeStatus, IsShareStatus, ServeTook, ShareTook};
ghost use Rattle.inspect_replay.specs.Serving.{HasServed, HasServeCause, EndIsMet};
ghost use Rattle.replay_parts.specs.declared.stop.Stop.TheVariants.{ReadFault};

use crate::clients::Clients;
use crate::program::status_of;
use crate::service::Service;
use back_end::{Mux, Seat};
use pipe_frames::{Sink, Source};
use replay_parts::{Status, Stop};
use std::alloc::{AllocError, Global};

/// How many bytes a read asks for at most.
const PIECE: usize = 65536;

/// Reads once, and no more: what came is to be answered before the next read. 0 is the end.
pub(crate) fn read_piece<S: Source>(src: &mut S, buf: &mut [u8]) -> Result<usize, Stop>
    requires { 0 < length buf.old }
    ensures bound { IfOk result (λ n. n ≤ length buf.new) }
    ensures bytes { IfOk result (λ n. Consumes (S.left src.old) (S.left src.new) (take n buf.new)) }
    ensures end { IfOk result (λ n. n ≡ 0 → IsAtEnd (S.left src.new)) }
    ensures fault { OnErr result (result ≡ Err ReadFault) }
    ensures kept { OnErr result (Keeps (S.left src.old) (S.left src.new)) }
    ensures later { S.faults src.old ≤ S.faults src.new }
    ensures rose { OnErr result (Rose (S.faults src.old) (S.faults src.new)) }
    ensures answered { S.faults src.old < S.faults src.new → result ≡ Err ReadFault }
    ensures counted { S.calls src.new ≡ next_count (S.calls src.old) }
{
    match src.read(buf) {
        Ok(count) => Ok(count),
        Err(_) => Err(Stop::ReadFault),
    }
}

/// Reads once more, where as much came as an input may have: one byte of more is too much.
pub(crate) fn end_of_input<S: Source>(src: &mut S, buf: &mut [u8]) -> Result<(), Stop>
    requires { length buf.old ≡ 1 }
    ensures met { EndIsMet (S.left src.old) (S.left src.new) result }
    ensures counted { S.calls src.new ≡ next_count (S.calls src.old) }
    ensures cause { HasServeCause (record {
      source_before = S.faults src.old;
      source_after = S.faults src.new;
      sink_before = 0;
      sink_after = 0;
      link_before = 0;
      link_after = 0;
    }) result }
{
    match read_piece(src, buf) {
        Ok(0) => Ok(()),
        Ok(_) => Err(Stop::TooLong),
        Err(stop) => Err(stop),
    }
}

/// What a read goes into.
fn buffer(alloc: Global) -> Result<Vec<u8>, AllocError>
    ensures { IfOk result (λ bytes. length bytes.items ≡ 65536) }
{
    vec![in alloc; 0; PIECE]
}

/// Serves new clients with a new back end.
fn serve_source<S: Source, K: Sink>(
    alloc: Global,
    clients: Clients,
    src: &mut S,
    out: &mut K,
) -> Result<(), Stop>
    requires { AreNew clients }
    ensures served { HasServed (first_of clients) (record {
      left_before = S.left src.old;
      left_after = S.left src.new;
      taken_before = K.taken out.old;
      taken_after = K.taken out.new;
    }) result }
    ensures in_turn { AnswersInTurn (first_of clients) (S.calls src.old) (S.calls src.new) (record {
      left_before = S.left src.old;
      left_after = S.left src.new;
      taken_before = K.taken out.old;
      taken_after = K.taken out.new;
    }) }
    ensures cause { HasServeCause (record {
      source_before = S.faults src.old;
      source_after = S.faults src.new;
      sink_before = K.faults out.old;
      sink_after = K.faults out.new;
      link_before = 0;
      link_after = 0;
    }) result }
{
    let mut service = Service::new(alloc, clients)?;
    let mut buf = buffer(alloc)?;
    service.serve_within(src, buf.as_mut_slice(), out)
}

/// Reads the frames of one client, and answers each as soon as it is whole. There is always room for its step.
pub(crate) fn serve<S: Source, K: Sink>(alloc: Global, src: &mut S, out: &mut K) -> Status
    ensures took { (input : List ℕ) → S.left src.old ≡ Some input → ServeTook result input (record {
      left_before = S.left src.old;
      left_after = S.left src.new;
      taken_before = K.taken out.old;
      taken_after = K.taken out.new;
    }) }
    // before each read what came was answered
    ensures in_turn { ReadsInTurn (S.calls src.old) (S.calls src.new) (record {
      left_before = S.left src.old;
      left_after = S.left src.new;
      taken_before = K.taken out.old;
      taken_after = K.taken out.new;
    }) }
    ensures only { IsServeStatus result }
    ensures reads { ReadPart (S.left src.old) (S.left src.new) (max_input + 1) }
    ensures cause { (link_before link_after : ℕ) → StatusRose (record {
      source_before = S.faults src.old;
      source_after = S.faults src.new;
      sink_before = K.faults out.old;
      sink_after = K.faults out.new;
      link_before = link_before;
      link_after = link_after;
    }) result }
    ensures answered { AnswersFaults (record {
      source_before = S.faults src.old;
      source_after = S.faults src.new;
      sink_before = K.faults out.old;
      sink_after = K.faults out.new;
      link_before = 0;
      link_after = 0;
    }) result }
{
    match serve_source(alloc, Clients::Alone(Seat::new(alloc)), src, out) {
        Ok(()) => Status::Done,
        Err(stop) => status_of(stop),
    }
}

/// Reads the frames of two clients on one pipe, and answers each as soon as it is whole.
pub(crate) fn share<S: Source, K: Sink>(alloc: Global, src: &mut S, out: &mut K) -> Status
    ensures took { (input : List ℕ) → S.left src.old ≡ Some input → ShareTook result input (record {
      left_before = S.left src.old;
      left_after = S.left src.new;
      taken_before = K.taken out.old;
      taken_after = K.taken out.new;
    }) }
    // before each read what came was answered
    ensures in_turn { SharesInTurn (S.calls src.old) (S.calls src.new) (record {
      left_before = S.left src.old;
      left_after = S.left src.new;
      taken_before = K.taken out.old;
      taken_after = K.taken out.new;
    }) }
    ensures only { IsShareStatus result }
    ensures reads { ReadPart (S.left src.old) (S.left src.new) (max_input + 1) }
    ensures cause { (link_before link_after : ℕ) → StatusRose (record {
      source_before = S.faults src.old;
      source_after = S.faults src.new;
      sink_before = K.faults out.old;
      sink_after = K.faults out.new;
      link_before = link_before;
      link_after = link_after;
    }) result }
    ensures answered { AnswersFaults (record {
      source_before = S.faults src.old;
      source_after = S.faults src.new;
      sink_before = K.faults out.old;
      sink_after = K.faults out.new;
      link_before = 0;
      link_after = 0;
    }) result }
{
    match serve_source(alloc, Clients::Paired(Mux::new(alloc)), src, out) {
        Ok(()) => Status::Done,
        Err(stop) => status_of(stop),
    }
}
