// Both fronts, and the commands that wait.
ghost use Rattle.std.specs.Prelude.{◌≡◌, ◌+◌, ◌<◌, ◌↔◌, Some, None, IfOk, OnOk, option_map, IsTrue, IfSome, true, codes, map};
ghost use Rattle.node_tree.specs.Numbers.{first_fetch, fetch_limit};
ghost use Rattle.serde_json.specs.Data.{string};
ghost use Rattle.serde_json.specs.View.{view};
ghost use Rattle.pipe_frames.specs.Frames.{IsText, framed};
ghost use Rattle.cdp_messages.specs.Asked.{command_text, is_whole_where_there};
ghost use Rattle.front_mirror.specs.Front.{after_ask, after_fetch, fetch_params};
ghost use Rattle.front_mirror.specs.Sheets.{has_sheet};
ghost use Rattle.session_runs.specs.Pairs.{attach, detach, session_made, kind_waiting, target_done, take_two, take_target, take_pair};
ghost use Rattle.multi_replay.specs.Folds.{take_whole, state_reads};
ghost use Rattle.multi_replay.specs.Held.{Takes, IsReady, AreReady, AreCounted, UnlessMemory, outcome_seen, pair_seen};
ghost use Rattle.multi_replay.specs.States.{first_pair, at_rest, is_there, front_meant, with_meant, FrontHasRoom, SecondHasRoom, waits_for};
ghost use Rattle.multi_replay.specs.States.{attach_text, detach_text, ask_text, fetch_text};

use crate::commands::{attach_frame, detach_frame, fetch_frame, session_value};
use crate::incoming::{Incoming, read_incoming};
use crate::outcomes::{Outcome, read_outcome};
use crate::targets::{Waiting, command_under, is_target_id, take_waiting};
use front_mirror::{ASK_LIMIT, FrameErr, Front, FrontErr, FrontKind, Panel};
use node_tree::Text;
use serde_json::Value;
use session_mux::Target;
use std::alloc::{AllocError, Global};
use std::collections::VecDeque;

/// The front of the attached session, the text of that session, and how many fetches it has sent.
#[derive(Drop)]
pub(crate) struct SecondFront<P: Panel> {
    pub(crate) session: Text,
    pub(crate) front: Front<P>,
    pub(crate) fetches: u64,
}

/// The first front, the second where it stands, the commands that wait, the greatest number of a session so far, and how many
/// frames were taken.
#[derive(Drop)]
pub(crate) struct Pair<P: Panel> {
    pub(crate) alloc: Global,
    pub(crate) first: Front<P>,
    pub(crate) second: Option<SecondFront<P>>,
    pub(crate) waiting: VecDeque<Waiting>,
    pub(crate) top: u64,
    pub(crate) taken: u64,
}

// A front takes one whole frame, without its zero byte.
fn take_whole<P: Panel>(front: &mut Front<P>, mut frame: Vec<u8>) -> Result<(), FrameErr>
    requires text { IsText frame.items }
    requires ready { IsReady front.old }
    ensures takes { Takes (at_rest front.old) (at_rest front.new) result (take_whole (at_rest front.old) frame.items) }
    ensures ready { OnOk result (IsReady front.new) }
{
    frame.push(0)?;
    match front.take_owned(frame) {
        Ok(()) => Ok(()),
        Err(FrontErr::Fault(fault)) => Err(FrameErr::Refused(fault.kind)),
        Err(FrontErr::Memory) => Err(FrameErr::Memory),
    }
}

impl<P: Panel> SecondFront<P> {
    /// Makes the frame of a command in the session, with its zero byte, and waits for the reply.
    fn ask(
        &mut self,
        alloc: Global,
        method: &str,
        params: Option<&Value>,
    ) -> Result<Vec<u8>, AllocError>
        requires room { self.old.front.next < first_fetch }
        requires params { IsTrue (is_whole_where_there (option_map (λ p. view p.now) params)) }
        ensures frame { IfOk result (λ frame. frame.items ≡ framed (command_text self.old.front.next method.now
            (option_map (λ p. view p.now) params.entry) (Some (string self.old.session)))) }
        ensures front { OnOk result (self.new.front ≡ after_ask self.old.front method.now) }
        ensures session { self.new.session ≡ self.old.session }
        ensures fetches { self.new.fetches ≡ self.old.fetches }
    {
        let session = session_value(alloc, self.session.as_str())?;
        self.front.ask(method, params, Some(&session))
    }

    /// Makes the frame that fetches the text of a sheet in the session, with its zero byte, and waits for the reply.
    fn fetch(&mut self, alloc: Global, sheet: u64) -> Result<Vec<u8>, AllocError>
        requires known { has_sheet sheet self.old.front.value.sheets ≡ true }
        requires room { first_fetch + self.old.front.fetches < fetch_limit }
        requires counted { self.old.fetches ≡ self.old.front.fetches }
        ensures frame { IfOk result (λ frame. frame.items ≡ framed (command_text (first_fetch + self.old.front.fetches)
            (codes "CSS.getStyleSheetText") (Some (fetch_params sheet)) (Some (string self.old.session)))) }
        ensures front { OnOk result (self.new.front ≡ after_fetch self.old.front sheet) }
        ensures session { self.new.session ≡ self.old.session }
        ensures fetches { OnOk result (self.new.fetches ≡ self.old.fetches + 1) }
    {
        let id = ASK_LIMIT + self.fetches;
        let frame = fetch_frame(alloc, id, sheet, self.session.as_str())?;
        // The front's own frame names no session.
        let _frame = self.front.fetch(sheet)?;
        self.fetches += 1;
        Ok(frame)
    }
}

impl<P: Panel> Pair<P> {
    /// The first front alone.
    pub(crate) fn new(alloc: Global, panels: Vec<P>) -> Result<Pair<P>, AllocError>
        ensures pair { IfOk result (λ pair. pair_seen pair ≡ first_pair (map P.kind_of panels.items)) }
        ensures taken { IfOk result (λ pair. pair.taken ≡ 0) }
        ensures ready { IfOk result (λ pair. AreReady pair) }
        ensures counted { IfOk result (λ pair. AreCounted pair.second) }
    {
        Ok(Pair {
            alloc,
            first: Front::new(alloc, panels)?,
            second: None,
            waiting: VecDeque::new(alloc),
            top: 0,
            taken: 0,
        })
    }

    /// Takes one frame, without its zero byte.
    pub(crate) fn take_frame(&mut self, frame: Vec<u8>) -> Result<(), FrameErr>
        requires text { IsText frame.items }
        requires ready { AreReady self.old }
        requires counted { AreCounted self.old.second }
        ensures takes { Takes (pair_seen self.old) (pair_seen self.new) result (take_pair state_reads (pair_seen self.old) frame.items) }
        ensures ready { OnOk result (AreReady self.new) }
        ensures counted { UnlessMemory result (AreCounted self.new.second) }
        ensures taken { self.new.taken ≡ self.old.taken }
    {
        match read_incoming(self.alloc, &frame)? {
            Incoming::Bare(Some(id)) => if is_target_id(id) {
                self.take_target(id, &frame)
            } else {
                take_whole(&mut self.first, frame)
            },
            Incoming::Bare(None) => take_whole(&mut self.first, frame),
            Incoming::OfSession { session, text } => self.take_second(session.as_str(), text),
        }
    }

    // The second front takes what a frame of this session says.
    fn take_second(&mut self, session: &str, text: Vec<u8>) -> Result<(), FrameErr>
        requires text { IsText text.items }
        requires ready { AreReady self.old }
        requires counted { AreCounted self.old.second }
        ensures takes { Takes (pair_seen self.old) (pair_seen self.new) result
            (take_two state_reads session.now text.items (pair_seen self.old).two (pair_seen self.old)) }
        ensures ready { OnOk result (AreReady self.new) }
        ensures counted { UnlessMemory result (AreCounted self.new.second) }
        ensures taken { self.new.taken ≡ self.old.taken }
    {
        match &mut self.second {
            Some(second) => if second.session.as_str() == session {
                take_whole(&mut second.front, text)
            } else {
                Err(FrameErr::Refused(FrontKind::NotMessage))
            },
            None => Err(FrameErr::Refused(FrontKind::NotMessage)),
        }
    }

    // Takes the reply to a command with that id.
    fn take_target(&mut self, id: u64, frame: &[u8]) -> Result<(), FrameErr>
        requires ready { AreReady self.old }
        requires counted { AreCounted self.old.second }
        ensures takes { Takes (pair_seen self.old) (pair_seen self.new) result
            (take_target state_reads id frame.now (kind_waiting id (pair_seen self.old).waiting) (pair_seen self.old)) }
        ensures ready { OnOk result (AreReady self.new) }
        ensures counted { UnlessMemory result (AreCounted self.new.second) }
        ensures taken { self.new.taken ≡ self.old.taken }
    {
        let Some(command) = command_under(&self.waiting, id) else {
            return Err(FrameErr::Refused(FrontKind::NotMessage));
        };
        let outcome = match read_outcome(self.alloc, command, frame) {
            Ok(outcome) => outcome,
            Err(error) => return Err(error),
        };
        match self.carry_out(outcome) {
            Ok(()) => {}
            Err(error) => return Err(error),
        }
        let _answered = take_waiting(&mut self.waiting, id);
        Ok(())
    }

    // Does what a reply says was done.
    fn carry_out(&mut self, outcome: Outcome) -> Result<(), FrameErr>
        requires ready { AreReady self.old }
        requires counted { AreCounted self.old.second }
        ensures takes { Takes (pair_seen self.old) (pair_seen self.new) result
            (target_done state_reads (outcome_seen outcome) (pair_seen self.old)) }
        ensures ready { OnOk result (AreReady self.new) }
        ensures counted { UnlessMemory result (AreCounted self.new.second) }
        ensures waiting { self.new.waiting ≡ self.old.waiting }
        ensures taken { self.new.taken ≡ self.old.taken }
    {
        match outcome {
            Outcome::NothingDone => {}
            Outcome::Made { session, number } => self.make_second(session, number)?,
            Outcome::Dropped => {
                self.second = None;
            }
        }
        Ok(())
    }

    // Makes the second front, where none stands and the number is greater than all before.
    fn make_second(&mut self, session: Text, number: u64) -> Result<(), FrameErr>
        requires ready { AreReady self.old }
        requires counted { AreCounted self.old.second }
        ensures takes { Takes (pair_seen self.old) (pair_seen self.new) result
            (target_done state_reads (session_made session number) (pair_seen self.old)) }
        ensures ready { OnOk result (AreReady self.new) }
        ensures counted { UnlessMemory result (AreCounted self.new.second) }
        ensures waiting { self.new.waiting ≡ self.old.waiting }
        ensures taken { self.new.taken ≡ self.old.taken }
    {
        if self.second.is_some() || number <= self.top {
            return Err(FrameErr::Refused(FrontKind::NotMessage));
        }
        let front = Front::new(self.alloc, Vec::new(self.alloc))?;
        self.second = Some(SecondFront {
            session,
            front,
            fetches: 0,
        });
        self.top = number;
        Ok(())
    }

    /// Whether each front that stands has an id for one ask more and one for one fetch more.
    pub(crate) fn has_room(&self) -> bool
        ensures { IsTrue result ↔ (FrontHasRoom (pair_seen self.now).one × SecondHasRoom (pair_seen self.now).two) }
    {
        if !self.first.has_room() {
            return false;
        }
        match &self.second {
            Some(second) => second.front.has_room(),
            None => true,
        }
    }

    /// Makes the frame that attaches a session, under this id, and waits for the reply.
    pub(crate) fn attach(&mut self, id: u64) -> Result<Vec<u8>, AllocError>
        ensures frame { IfOk result (λ frame. frame.items ≡ framed (attach_text id)) }
        ensures asked { OnOk result (pair_seen self.new ≡ waits_for id attach (pair_seen self.old)) }
        ensures ready { AreReady self.old → AreReady self.new }
        ensures counted { AreCounted self.old.second → AreCounted self.new.second }
        ensures taken { self.new.taken ≡ self.old.taken }
    {
        let frame = attach_frame(self.alloc, id)?;
        self.waiting.push_back(Waiting {
            id,
            command: Target::Attach,
        })?;
        Ok(frame)
    }

    /// Makes the frame that detaches the session of the second front, under this id, and waits for the reply.
    pub(crate) fn detach(&mut self, id: u64) -> Result<Vec<u8>, AllocError>
        requires stands { is_there true (pair_seen self.old) ≡ true }
        ensures frame { IfOk result (λ frame. IfSome (pair_seen self.old).two (λ w. frame.items ≡ framed (detach_text id w.text))) }
        ensures asked { OnOk result (pair_seen self.new ≡ waits_for id detach (pair_seen self.old)) }
        ensures ready { AreReady self.old → AreReady self.new }
        ensures counted { AreCounted self.old.second → AreCounted self.new.second }
        ensures taken { self.new.taken ≡ self.old.taken }
    {
        let frame = match &self.second {
            Some(second) => detach_frame(self.alloc, id, second.session.as_str())?,
            None => unreachable!(),
        };
        self.waiting.push_back(Waiting {
            id,
            command: Target::Detach,
        })?;
        Ok(frame)
    }

    /// Makes the frame of a command of the front that is meant, with its zero byte, and waits for the reply.
    pub(crate) fn ask(
        &mut self,
        second: bool,
        method: &str,
        params: Option<&Value>,
    ) -> Result<Vec<u8>, AllocError>
        requires stands { is_there second (pair_seen self.old) ≡ true }
        requires counted { AreCounted self.old.second }
        requires room { (front_meant second (pair_seen self.old)).next < first_fetch }
        requires params { IsTrue (is_whole_where_there (option_map (λ p. view p.now) params)) }
        ensures frame { IfOk result (λ frame. frame.items ≡ framed (ask_text second (pair_seen self.old) method.now
            (option_map (λ p. view p.now) params.entry))) }
        ensures asked { OnOk result (pair_seen self.new ≡ with_meant second (λ f. after_ask f method.now) (pair_seen self.old)) }
        ensures ready { AreReady self.old → OnOk result (AreReady self.new) }
        ensures counted { OnOk result (AreCounted self.new.second) }
        ensures taken { self.new.taken ≡ self.old.taken }
    {
        if !second {
            return self.first.ask(method, params, None);
        }
        match &mut self.second {
            Some(front) => front.ask(self.alloc, method, params),
            None => unreachable!(),
        }
    }

    /// Makes the frame that fetches the text of a sheet for the front that is meant, with its zero byte, and waits for the reply.
    pub(crate) fn fetch(&mut self, second: bool, sheet: u64) -> Result<Vec<u8>, AllocError>
        requires stands { is_there second (pair_seen self.old) ≡ true }
        requires counted { AreCounted self.old.second }
        requires known { has_sheet sheet (front_meant second (pair_seen self.old)).value.sheets ≡ true }
        requires room { first_fetch + (front_meant second (pair_seen self.old)).fetches < fetch_limit }
        ensures frame { IfOk result (λ frame. frame.items ≡ framed (fetch_text second (pair_seen self.old) sheet)) }
        ensures asked { OnOk result (pair_seen self.new ≡ with_meant second (λ f. after_fetch f sheet) (pair_seen self.old)) }
        ensures ready { AreReady self.old → OnOk result (AreReady self.new) }
        ensures counted { OnOk result (AreCounted self.new.second) }
        ensures taken { self.new.taken ≡ self.old.taken }
    {
        if !second {
            return self.first.fetch(sheet);
        }
        match &mut self.second {
            Some(front) => front.fetch(self.alloc, sheet),
            None => unreachable!(),
        }
    }
}
