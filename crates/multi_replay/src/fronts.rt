ghost use Rattle.std.specs.Prelude.{◌≡◌, ◌↔◌, IsTrue, IsErr, Some, None, Ok, Err, true, false};
ghost use Rattle.std.specs.Prelude.{option_map, map, is_some, IfOk, IfSome, OnOk, OnErr};
ghost use Rattle.serde_json.specs.View.{view};
ghost use Rattle.pipe_frames.specs.Frames.{framed};
ghost use Rattle.cdp_messages.specs.Asked.{is_whole_where_there};
ghost use Rattle.front_mirror.specs.Places.{open_at};
ghost use Rattle.front_mirror.specs.Sheets.{has_sheet};
ghost use Rattle.session_runs.specs.Pairs.{attach, detach};
ghost use Rattle.multi_replay.specs.States.{first_fronts, at_rest, is_there, front_meant, HaveRoom, attach_text, detach_text, ask_text};
ghost use Rattle.multi_replay.specs.States.{fetch_text, after_target, after_asked, after_fetched, after_taken, after_close};

use crate::folding::fold_whole;
use crate::pair::Pair;
use cdp_json::COUNTED_LIMIT;
use front_mirror::{FETCH_LIMIT, Front, FrontErr, FrontFault, Panel};
use pipe_frames::Splitter;
use serde_json::Value;
use std::alloc::{AllocError, Global};
use std::marker::Model;

/// Two front ends on one pipe: the first for the root session, and a second, without panels, while a session is attached. Each
/// numbers its asks from 1 and its fetches from 2^30 on; commands that attach and detach have ids from 2^52 on. Messages are
/// counted over the whole stream from 1. The first that is refused is the fault, which every later `take` answers; both fronts then
/// stand as before that message. After want of memory they are dead: each later call that can answer want of memory does.
#[derive(Drop)]
pub struct Fronts<P: Panel> {
    alloc: Global,
    pair: Pair<P>,
    splitter: Splitter,
    fault: Option<FrontFault>,
    next: u64,
    is_dead: bool,
}

impl<P: Panel> Model for Fronts<P> {
    ghost use Rattle.std.specs.Prelude.{◌≡◌, [], None, false};
    ghost use Rattle.multi_replay.specs.Codes.{coded_fronts};
    ghost use Rattle.multi_replay.specs.Held.{pair_seen, AreReady, AreCounted};
    ghost use Rattle.multi_replay.specs.States.{FrontsState};

    ghost Value = { FrontsState };

    ghost coded = { coded_fronts };

    ghost view = { λ f. record {
      pair = pair_seen f.pair;
      taken = f.pair.taken;
      rest = f.splitter.rest;
      fault = f.fault;
      next = f.next;
      dead = f.is_dead;
    } };

    ghost invariant = { λ f. (f.is_dead ≡ false → f.fault ≡ None → (f.splitter.whole ≡ []) × AreReady f.pair)
        × (f.is_dead ≡ false → AreCounted f.pair.second) };
}

impl<P: Panel> Fronts<P> {
    /// The first front alone, which has sent nothing and shows nothing, and has told the panels so.
    pub fn new(alloc: Global, panels: Vec<P>) -> Result<Fronts<P>, AllocError>
        ensures { IfOk result (λ fronts. fronts ≡ first_fronts (map P.kind_of panels.items)) }
    {
        Ok(Fronts {
            alloc,
            pair: Pair::new(alloc, panels)?,
            splitter: Splitter::new(alloc),
            fault: None,
            next: FETCH_LIMIT,
            is_dead: false,
        })
    }

    /// Whether each front that stands has an id for one ask more and one for one fetch more, and there is one for one attach or
    /// detach more.
    pub fn has_room(&self) -> bool
        ensures { IsTrue result ↔ HaveRoom self.now }
    {
        self.pair.has_room() && self.next < COUNTED_LIMIT
    }

    /// Makes the frame that attaches a session (`Target.attachToTarget`), with its zero byte, and waits for the reply. An Ok reply
    /// makes the second front.
    pub fn attach(&mut self) -> Result<Vec<u8>, AllocError>
        requires alone { is_there true self.old.pair ≡ false }
        requires room { HaveRoom self.old }
        ensures frame { IfOk result (λ frame. frame.items ≡ framed (attach_text self.old.next)) }
        ensures asked { OnOk result (self.new ≡ after_target self.old attach) }
        ensures memory { OnErr result (self.new.dead ≡ true) }
        ensures dead { self.old.dead ≡ true → IsErr result }
    {
        if self.is_dead {
            return Err(AllocError);
        }
        self.is_dead = true;
        let frame = self.pair.attach(self.next)?;
        self.next += 1;
        self.is_dead = false;
        Ok(frame)
    }

    /// Makes the frame that detaches the session of the second front (`Target.detachFromTarget`), with its zero byte, and waits for
    /// the reply. An Ok reply drops the second front.
    pub fn detach(&mut self) -> Result<Vec<u8>, AllocError>
        requires stands { is_there true self.old.pair ≡ true }
        requires room { HaveRoom self.old }
        ensures frame { IfOk result (λ frame. IfSome self.old.pair.two (λ w. frame.items ≡ framed (detach_text self.old.next w.text))) }
        ensures asked { OnOk result (self.new ≡ after_target self.old detach) }
        ensures memory { OnErr result (self.new.dead ≡ true) }
        ensures dead { self.old.dead ≡ true → IsErr result }
    {
        if self.is_dead {
            return Err(AllocError);
        }
        self.is_dead = true;
        let frame = self.pair.detach(self.next)?;
        self.next += 1;
        self.is_dead = false;
        Ok(frame)
    }

    /// Makes the frame of a command of the first front, or of the second in its session, with its zero byte, and waits for the
    /// reply. No number in `params` has a point or an exponent.
    pub fn ask(
        &mut self,
        second: bool,
        method: &str,
        params: Option<&Value>,
    ) -> Result<Vec<u8>, AllocError>
        requires stands { is_there second self.old.pair ≡ true }
        requires room { HaveRoom self.old }
        requires params { IsTrue (is_whole_where_there (option_map (λ p. view p.now) params)) }
        ensures frame { IfOk result (λ frame. frame.items ≡ framed (ask_text second self.old.pair method.now
            (option_map (λ p. view p.now) params.entry))) }
        ensures asked { OnOk result (self.new ≡ after_asked self.old second method.now) }
        ensures memory { OnErr result (self.new.dead ≡ true) }
        ensures dead { self.old.dead ≡ true → IsErr result }
    {
        if self.is_dead {
            return Err(AllocError);
        }
        self.is_dead = true;
        let frame = self.pair.ask(second, method, params)?;
        self.is_dead = false;
        Ok(frame)
    }

    /// Makes the frame that fetches the text of a sheet (`CSS.getStyleSheetText`) that the first front knows, or the second in its
    /// session, with its zero byte, and waits for the reply.
    pub fn fetch(&mut self, second: bool, sheet: u64) -> Result<Vec<u8>, AllocError>
        requires stands { is_there second self.old.pair ≡ true }
        requires known { has_sheet sheet (front_meant second self.old.pair).value.sheets ≡ true }
        requires room { HaveRoom self.old }
        ensures frame { IfOk result (λ frame. frame.items ≡ framed (fetch_text second self.old.pair sheet)) }
        ensures asked { OnOk result (self.new ≡ after_fetched self.old second sheet) }
        ensures memory { OnErr result (self.new.dead ≡ true) }
        ensures dead { self.old.dead ≡ true → IsErr result }
    {
        if self.is_dead {
            return Err(AllocError);
        }
        self.is_dead = true;
        let frame = self.pair.fetch(second, sheet)?;
        self.is_dead = false;
        Ok(frame)
    }

    /// Takes the next bytes that came down, and folds each frame that is whole by then into the front whose it is.
    pub fn take(&mut self, piece: &[u8]) -> Result<(), FrontErr>
        ensures ok { OnOk result (self.new ≡ after_taken self.old piece.now) }
        ensures well { OnOk result (self.new.fault ≡ None) }
        ensures fault { (f : FrontFault) → result ≡ Err (FrontErr.Fault f) → self.new ≡ after_taken self.old piece.now }
        ensures kept { (f : FrontFault) → result ≡ Err (FrontErr.Fault f) → self.new.fault ≡ Some f }
        ensures memory { result ≡ Err FrontErr.Memory → self.new.dead ≡ true }
        ensures dead { self.old.dead ≡ true → result ≡ Err FrontErr.Memory }
    {
        if self.is_dead {
            return Err(FrontErr::Memory);
        }
        if let Some(fault) = self.fault {
            return Err(FrontErr::Fault(fault));
        }
        self.is_dead = true;
        self.splitter.take(piece)?;
        match fold_whole(&mut self.pair, &mut self.splitter) {
            Ok(()) => {
                self.is_dead = false;
                Ok(())
            }
            Err(FrontErr::Fault(fault)) => {
                self.fault = Some(fault);
                self.is_dead = false;
                Err(FrontErr::Fault(fault))
            }
            Err(FrontErr::Memory) => Err(FrontErr::Memory),
        }
    }

    /// The first front.
    pub fn first(&self) -> &Front<P>
        ensures { at_rest result.now ≡ self.now.pair.one }
    {
        &self.pair.first
    }

    /// The second front; `None` exactly where none stands.
    pub fn second(&self) -> Option<&Front<P>>
        ensures stands { is_some result ≡ is_there true self.now.pair }
        ensures front { option_map (λ front. at_rest front.now) result ≡ option_map (λ w. w.value) self.now.pair.two }
    {
        match &self.pair.second {
            Some(second) => Some(&second.front),
            None => None,
        }
    }

    /// Drops the open panel of the first front at a place of those handed in, counted from 1; false where none stands open there.
    pub fn close(&mut self, place: usize) -> bool
        ensures closed { result ≡ is_some (open_at place self.old.pair.one.panels) }
        ensures panels { self.new ≡ after_close self.old place }
    {
        self.pair.first.close(place)
    }
}
