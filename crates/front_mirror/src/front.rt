ghost use Rattle.std.specs.Prelude.{◌≡◌, ◌<◌, ◌+◌, ◌↔◌, [], length, slice_get, codes, IsTrue, IsErr, Some, None, Ok, Err, true};
ghost use Rattle.std.specs.Prelude.{option_map, option_copied, map, is_some, false, IfOk, OnOk, OnErr};
ghost use Rattle.front_mirror.specs.Panels.{face};
ghost use Rattle.front_mirror.specs.Places.{open_at, closed_at};
ghost use Rattle.node_tree.specs.Numbers.{first_fetch, fetch_limit};
ghost use Rattle.serde_json.specs.View.{view};
ghost use Rattle.pipe_frames.specs.Frames.{framed};
ghost use Rattle.cdp_messages.specs.Asked.{command_text, is_whole_where_there};
ghost use Rattle.front_mirror.specs.Front.{FrontState, first_state, after_take, after_ask, after_fetch, fetch_params, matched_in};
ghost use Rattle.front_mirror.specs.declared.sheets.KnownSheet.{KnownSheet};
ghost use Rattle.front_mirror.specs.Sheets.{has_sheet, stale_of};

use crate::faults::{FrontErr, FrontFault};
use crate::folding::fold_whole;
use crate::known::Known;
use crate::mirror::Mirror;
use crate::panels::{Change, Panel, PanelKind};
use crate::pauses::SeenPause;
use crate::places::{close_at, open_all, open_at, tell_slots};
use crate::replies::{Ask, Kept, matched_in};
use cdp_json::ObjectBuilder;
use cdp_messages::write_command;
use css_objects::{Matched, Origin, sheet_value};
use node_tree::Text;
use pipe_frames::Splitter;
use serde_json::Value;
use std::alloc::{AllocError, Global};
use std::marker::Model;

/// The first id that no ask may have, which is that of the first fetch.
pub const ASK_LIMIT: u64 = 1 << 30;

/// The first id that no fetch may have, which is that of the first command that attaches or detaches a session.
pub const FETCH_LIMIT: u64 = 1 << 52;

/// The command that fetches the text of a sheet.
const FETCH: &str = "CSS.getStyleSheetText";

/// The front end of one session. It counts its asks from 1, its fetches of sheets' texts from 2^30, and the messages that
/// come from 1. The first message that it refuses is its fault, which every later `take` answers; the mirror then stands as
/// before that message. After want of memory it is dead: each later call that can answer want of memory does.
#[derive(Drop)]
pub struct Front<P: Panel> {
    alloc: Global,
    known: Known,
    splitter: Splitter,
    panels: Vec<Option<P>>,
    fault: Option<FrontFault>,
    next: u64,
    fetches: u64,
    is_dead: bool,
}

impl<P: Panel> Model for Front<P> {
    ghost use Rattle.std.specs.Prelude.{◌≡◌, [], None, false, All, map, option_map};
    ghost use Rattle.std.specs.Option.{ForSome};
    ghost use Rattle.front_mirror.specs.Panels.{face};
    ghost use Rattle.front_mirror.specs.Front.{FrontState};
    ghost use Rattle.front_mirror.specs.Codes.{coded_front};
    ghost use Rattle.front_mirror.specs.Known.{known_value};

    ghost Value = { FrontState };

    ghost coded = { coded_front };

    ghost view = { λ f. record {
      value = known_value f.known;
      rest = f.splitter.rest;
      fault = f.fault;
      next = f.next;
      fetches = f.fetches;
      dead = f.is_dead;
      panels = map (option_map P.kind_of) f.panels.items;
    } };

    ghost invariant = { λ f. (f.is_dead ≡ false → f.fault ≡ None → f.splitter.whole ≡ [])
        × (f.is_dead ≡ false → All (λ o. ForSome o (λ p. P.shown p ≡ face (P.kind_of p) (known_value f.known).tree)) f.panels.items) };
}

/// The frame that fetches the text of a sheet under that id, with its zero byte.
fn fetch_frame(alloc: Global, id: u64, sheet: u64) -> Result<Vec<u8>, AllocError>
    ensures { IfOk result (λ frame. frame.items ≡ framed (command_text id (codes "CSS.getStyleSheetText")
        (Some (fetch_params sheet)) None)) }
{
    let params = ObjectBuilder::new(alloc)
        .with_value("styleSheetId", sheet_value(alloc, sheet)?)?
        .build()?;
    let mut frame = Vec::new(alloc);
    write_command(alloc, id, FETCH, Some(&params), None, &mut frame)?;
    Ok(frame)
}

impl<P: Panel> Front<P> {
    /// A front end that has sent nothing and shows nothing, and has told the panels so.
    pub fn new(alloc: Global, panels: Vec<P>) -> Result<Front<P>, AllocError>
        ensures { IfOk result (λ front. front ≡ first_state (map P.kind_of panels.items)) }
    {
        let mut places = open_all(alloc, panels)?;
        let known = Known::new(alloc);
        known.mirror.valid();
        tell_slots(places.as_mut_slice(), &Change::Cleared, &known.mirror)?;
        Ok(Front {
            alloc,
            known,
            splitter: Splitter::new(alloc),
            panels: places,
            fault: None,
            next: 1,
            fetches: 0,
            is_dead: false,
        })
    }

    /// Whether there is an id for one ask more, and one for one fetch more; ids of asks are below 2^30, and those of fetches
    /// from there on.
    pub fn has_room(&self) -> bool
        ensures { IsTrue result ↔ ((self.now.next < first_fetch) × (first_fetch + self.now.fetches < fetch_limit)) }
    {
        self.next < ASK_LIMIT && self.fetches < FETCH_LIMIT - ASK_LIMIT
    }

    /// Makes the frame of a command, with its zero byte, and waits for the reply. No number in `params` and `session` has a
    /// point or an exponent.
    pub fn ask(
        &mut self,
        method: &str,
        params: Option<&Value>,
        session: Option<&Value>,
    ) -> Result<Vec<u8>, AllocError>
        requires room { self.old.next < first_fetch }
        requires params { IsTrue (is_whole_where_there (option_map (λ p. view p.now) params)) }
        requires session { IsTrue (is_whole_where_there (option_map (λ s. view s.now) session)) }
        ensures frame { IfOk result (λ frame. frame.items ≡ framed (command_text self.old.next method.now
            (option_map (λ p. view p.now) params.entry) (option_map (λ s. view s.now) session.entry))) }
        ensures asked { OnOk result (self.new ≡ after_ask self.old method.now) }
        ensures memory { OnErr result (self.new.dead ≡ true) }
        ensures dead { self.old.dead ≡ true → IsErr result }
    {
        if self.is_dead {
            return Err(AllocError);
        }
        self.is_dead = true;
        let mut frame = Vec::new(self.alloc);
        write_command(self.alloc, self.next, method, params, session, &mut frame)?;
        let method = Text::copied(self.alloc, method)?;
        let id = self.next;
        self.known.asks.push_back(Ask {
            id,
            method,
            sheet: None,
        })?;
        self.next = id + 1;
        self.is_dead = false;
        Ok(frame)
    }

    /// The numbers of the sheets without a text that is not old, in their order.
    pub fn stale(&self) -> Result<Vec<u64>, AllocError>
        ensures sheets { IfOk result (λ numbers. numbers.items ≡ stale_of self.now.value.sheets) }
        ensures dead { self.now.dead ≡ true → IsErr result }
    {
        if self.is_dead {
            return Err(AllocError);
        }
        self.known.sheets.stale(self.alloc)
    }

    /// Makes the frame that fetches the text of a sheet (`CSS.getStyleSheetText`), with its zero byte, and waits for the
    /// reply.
    pub fn fetch(&mut self, sheet: u64) -> Result<Vec<u8>, AllocError>
        requires known { has_sheet sheet self.old.value.sheets ≡ true }
        requires room { first_fetch + self.old.fetches < fetch_limit }
        ensures frame { IfOk result (λ frame. frame.items ≡ framed (command_text (first_fetch + self.old.fetches)
            (codes "CSS.getStyleSheetText") (Some (fetch_params sheet)) None)) }
        ensures asked { OnOk result (self.new ≡ after_fetch self.old sheet) }
        ensures memory { OnErr result (self.new.dead ≡ true) }
        ensures dead { self.old.dead ≡ true → IsErr result }
    {
        if self.is_dead {
            return Err(AllocError);
        }
        self.is_dead = true;
        let id = ASK_LIMIT + self.fetches;
        let frame = fetch_frame(self.alloc, id, sheet)?;
        let method = Text::copied(self.alloc, FETCH)?;
        self.known.asks.push_back(Ask {
            id,
            method,
            sheet: Some(sheet),
        })?;
        self.fetches = self.fetches + 1;
        self.is_dead = false;
        Ok(frame)
    }

    /// Takes the next bytes that came down, and folds each frame that is whole by then.
    pub fn take(&mut self, piece: &[u8]) -> Result<(), FrontErr>
        ensures ok { OnOk result (self.new ≡ after_take self.old piece.now) }
        ensures well { OnOk result (self.new.fault ≡ None) }
        ensures fault { (f : FrontFault) → result ≡ Err (FrontErr.Fault f) → self.new ≡ after_take self.old piece.now }
        ensures kept { (f : FrontFault) → result ≡ Err (FrontErr.Fault f) → self.new.fault ≡ Some f }
        ensures memory { result ≡ Err FrontErr.Memory → self.new.dead ≡ true }
        ensures dead { self.old.dead ≡ true → result ≡ Err FrontErr.Memory }
    {
        if self.is_dead {
            return Err(FrontErr::Memory);
        }
        if let Some(fault) = self.fault {
            return Err(FrontErr::Fault(fault));
        }
        self.is_dead = true;
        self.splitter.take(piece)?;
        match fold_whole(
            &mut self.known,
            &mut self.splitter,
            self.panels.as_mut_slice(),
        ) {
            Ok(()) => {
                self.is_dead = false;
                Ok(())
            }
            Err(FrontErr::Fault(fault)) => {
                self.fault = Some(fault);
                self.is_dead = false;
                Err(FrontErr::Fault(fault))
            }
            Err(FrontErr::Memory) => Err(FrontErr::Memory),
        }
    }

    /// The same of a piece that is handed over: one that is a whole frame is not copied.
    pub fn take_owned(&mut self, piece: Vec<u8>) -> Result<(), FrontErr>
        ensures ok { OnOk result (self.new ≡ after_take self.old piece.items) }
        ensures well { OnOk result (self.new.fault ≡ None) }
        ensures fault { (f : FrontFault) → result ≡ Err (FrontErr.Fault f) → self.new ≡ after_take self.old piece.items }
        ensures kept { (f : FrontFault) → result ≡ Err (FrontErr.Fault f) → self.new.fault ≡ Some f }
        ensures memory { result ≡ Err FrontErr.Memory → self.new.dead ≡ true }
        ensures dead { self.old.dead ≡ true → result ≡ Err FrontErr.Memory }
    {
        if self.is_dead {
            return Err(FrontErr::Memory);
        }
        if let Some(fault) = self.fault {
            return Err(FrontErr::Fault(fault));
        }
        self.is_dead = true;
        self.splitter.take_owned(piece)?;
        match fold_whole(
            &mut self.known,
            &mut self.splitter,
            self.panels.as_mut_slice(),
        ) {
            Ok(()) => {
                self.is_dead = false;
                Ok(())
            }
            Err(FrontErr::Fault(fault)) => {
                self.fault = Some(fault);
                self.is_dead = false;
                Err(FrontErr::Fault(fault))
            }
            Err(FrontErr::Memory) => Err(FrontErr::Memory),
        }
    }

    /// What the front end shows.
    pub fn mirror(&self) -> &Mirror
        ensures { result.now ≡ self.now.value.tree }
    {
        &self.known.mirror
    }

    /// How many sheets are known.
    pub fn sheet_len(&self) -> usize
        ensures { result ≡ length self.now.value.sheets }
    {
        self.known.sheets.len()
    }

    /// Whether a sheet of that number is known.
    pub fn knows_sheet(&self, number: u64) -> bool
        ensures { result ≡ has_sheet number self.now.value.sheets }
    {
        self.known.sheets.has(number)
    }

    /// The number of the sheet at place `i`, counted from 0, where it comes from, and its text where it has one, which may be
    /// old.
    pub fn sheet_at(&self, i: usize) -> (u64, Origin, Option<&str>)
        requires place { i < length self.now.value.sheets }
        ensures number { option_map (λ (s : KnownSheet). s.number) (slice_get self.now.value.sheets i) ≡ Some result.0 }
        ensures origin { option_map (λ (s : KnownSheet). s.origin) (slice_get self.now.value.sheets i) ≡ Some result.1 }
        ensures text { option_map (λ (s : KnownSheet). s.text) (slice_get self.now.value.sheets i)
            ≡ Some (option_map (λ t. t.now) result.2) }
    {
        let sheet = self.known.sheets.at(i);
        let text = match &sheet.text {
            Some(text) => Some(text.as_str()),
            None => None,
        };
        (sheet.number, sheet.origin, text)
    }

    /// The replies that came, in their order, but those to fetches.
    pub fn replies(&self) -> &[Kept]
        ensures { result.now ≡ self.now.value.replies }
    {
        self.known.replies.as_slice()
    }

    /// The pauses that came, in their order.
    pub fn pauses(&self) -> &[SeenPause]
        ensures { result.now ≡ self.now.value.pauses }
    {
        self.known.pauses.as_slice()
    }

    /// The matched styles that the Ok reply to that ask (`CSS.getMatchedStylesForNode`) told; `None` where no such reply came.
    pub fn matched_reply(&self, ask: u64) -> Option<&Matched>
        ensures { option_copied result ≡ matched_in ask self.now.value.matched }
    {
        matched_in(&self.known.matched, ask)
    }

    /// How many panels were handed in, those that were closed included.
    pub fn panel_places(&self) -> usize
        ensures { result ≡ length self.now.panels }
    {
        self.panels.len()
    }

    /// The kind of the open panel at a place of those handed in, counted from 1.
    pub fn panel_kind(&self, place: usize) -> Option<PanelKind>
        ensures { result ≡ open_at place self.now.panels }
    {
        match open_at(self.panels.as_slice(), place) {
            Some(panel) => Some(panel.kind()),
            None => None,
        }
    }

    /// What the open panel at a place of those handed in shows, counted from 1.
    pub fn panel_text(&self, place: usize) -> Option<&str>
        ensures text { self.now.dead ≡ false → option_map (λ t. t.now) result
            ≡ option_map (λ k. face k self.now.value.tree) (open_at place self.now.panels) }
        ensures open { is_some result ≡ is_some (open_at place self.now.panels) }
    {
        match open_at(self.panels.as_slice(), place) {
            Some(panel) => Some(panel.text()),
            None => None,
        }
    }

    /// Drops the open panel at a place of those handed in, counted from 1; false where none stands open there.
    pub fn close(&mut self, place: usize) -> bool
        ensures closed { result ≡ is_some (open_at place self.old.panels) }
        ensures panels { self.new ≡ record self.old { panels = closed_at place self.old.panels } }
    {
        close_at(self.panels.as_mut_slice(), place)
    }
}
