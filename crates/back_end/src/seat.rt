ghost use Rattle.std.specs.Prelude.{◌≡◌, ◌++◌, ◌↔◌, IsTrue, true, false, Result, IfOk, IfSome, OnOk, OnErr, IsErr};
ghost use Rattle.undo_marks.specs.Marks.{no_marks};
ghost use Rattle.node_binding.specs.Bindings.{empty_from};
ghost use Rattle.dom_breakpoints.specs.Watched.{unwatched};
ghost use Rattle.dom_search.specs.Searches.{no_searches};
ghost use Rattle.page_forms.specs.Acts.{IsInsertable};
ghost use Rattle.page_forms.specs.Pages.{loaded_page, CanLoadPage};
ghost use Rattle.client_views.specs.Moves.{frames_of_moves};
ghost use Rattle.back_end.specs.States.{State};
ghost use Rattle.back_end.specs.Plans.{act_fault};
ghost use Rattle.node_tree.specs.Numbers.{kept_before_step};
ghost use Rattle.cdp_messages.specs.Answers.{ReadsAsked};
ghost use Rattle.cdp_messages.specs.Asked.{fits_command};
ghost use Rattle.cdp_messages.specs.declared.command.Asked.{Asked as AskedValue};
ghost use Rattle.cdp_messages.specs.declared.command.Refused.{Refused as RefusedValue};
ghost use Rattle.back_end.specs.Steps.{act_step, asked_step, frame_step, load_step};
ghost use Rattle.back_end.specs.Outside.{asked_outward, frame_outward};
ghost use Rattle.back_end.specs.Texts.{HasServedTexts};
ghost use Rattle.back_end.specs.LoadFrames.{AsksLoad};
ghost use Rattle.back_end.specs.Seats.{StandsFor, IsSeated, HasRoomLeft};
ghost use Rattle.back_end.specs.Guests.{CanHear, GuestStands, Hears, heard_step};

use crate::desk::Desk;
use crate::faults::ActFault;
use crate::guest::Guest;
use crate::load_scan::{LoadFrame, load_in};
use crate::side::PageSide;
use cdp_messages::{Asked, ReadErr};
use page_forms::{Act, PageForm};
use std::alloc::{AllocError, Global};
use undo_marks::History;

/// The least number that is no id, no serial and no number of a sheet, a search or a session with room behind it for another step.
pub(crate) const END_OF_NUMBERS: u64 = 1 << 50;

/// The least number of edits of a history that has no place for another step.
const MOST_EDITS: u128 = 1 << 30;

/// A client's seat at the page's side. After want of memory it is dead: each later call that can answer want of memory does.
#[derive(Drop)]
pub struct Seat {
    pub(crate) desk: Desk,
    pub(crate) history: History,
    pub(crate) is_dead: bool,
}

impl Seat {
    /// The seat of a client that has asked for nothing yet.
    pub fn new(alloc: Global) -> Seat
        ensures off { result.desk.is_on ≡ false }
        ensures css { result.desk.css ≡ false }
        ensures agent { result.desk.agent ≡ empty_from 1 }
        ensures watches { result.desk.watches ≡ unwatched }
        ensures searches { result.desk.searches ≡ no_searches }
        ensures history { result.history ≡ no_marks }
        ensures alive { result.is_dead ≡ false }
    {
        Seat {
            desk: Desk::new(alloc),
            history: History::new(alloc),
            is_dead: false,
        }
    }

    /// Whether the next id, the next serial and the next numbers of a sheet and a search are below 2^50, so that a step can draw what
    /// it needs, and fewer than 2^30 edits are kept, each of which may draw an id when it is taken back or done again.
    pub fn has_room(&self, side: &PageSide) -> bool
        ensures { IsTrue result ↔ HasRoomLeft self.now side.now }
    {
        self.desk.agent.next_id() < END_OF_NUMBERS
            && side.page.next_serial() < END_OF_NUMBERS
            && side.sheets.next_number() < END_OF_NUMBERS
            && self.desk.searches.next() < END_OF_NUMBERS
            && self.history.kept() < MOST_EDITS
    }

    /// Whether an earlier call answered want of memory.
    pub fn is_dead(&self) -> bool
        ensures { result ≡ self.now.is_dead }
    {
        self.is_dead
    }

    /// Answers one frame: the messages of its step are appended to `out`. A frame that is refused gets one error reply, and
    /// changes nothing. `own` says whether `Replay.load` and `Replay.act` are known, by which a client does what a script may.
    pub fn take_message(
        &mut self,
        side: &mut PageSide,
        frame: &[u8],
        own: bool,
        out: &mut Vec<u8>,
    ) -> Result<(), AllocError>
        requires room { HasRoomLeft self.old side.old }
        requires seated { IsSeated self.old side.old }
        ensures seated { IsSeated self.new side.new }
        ensures stands { (state : State) → StandsFor self.old side.old state
            → OnOk result (StandsFor self.new side.new (frame_step own frame.now state).state) }
        ensures sent { (state : State) → StandsFor self.old side.old state
            → OnOk result (out.new.items ≡ out.old.items ++ frames_of_moves (frame_step own frame.now state).moves) }
        ensures alive { OnOk result (self.new.is_dead ≡ false) }
        ensures memory { OnErr result (self.new.is_dead ≡ true) }
        ensures dead { self.old.is_dead ≡ true → IsErr result }
    {
        let load = load_in(self.desk.alloc, frame, own);
        self.serve_frame(side, &mut None, frame, load, own, out)
    }

    /// Answers one frame, as `take_message` does; `load` is the page that it loads, if it was read off its tokens. The guest, if there is
    /// one, is told what becomes of the page by it.
    pub(crate) fn serve_frame(
        &mut self,
        side: &mut PageSide,
        guest: &mut Option<Guest>,
        frame: &[u8],
        load: Option<LoadFrame>,
        own: bool,
        out: &mut Vec<u8>,
    ) -> Result<(), AllocError>
        requires known { IfSome load (λ f. own ≡ true) }
        requires asks { IfSome load (λ f. AsksLoad frame.now f.id (loaded_page f.page)) }
        requires can { IfSome load (λ f. CanLoadPage (loaded_page f.page)) }
        requires room { HasRoomLeft self.old side.old }
        requires seated { IsSeated self.old side.old }
        requires can_hear { CanHear kept_before_step guest.old side.old }
        ensures seated { IsSeated self.new side.new }
        ensures stands { (state : State) → StandsFor self.old side.old state
            → OnOk result (StandsFor self.new side.new (frame_step own frame.now state).state) }
        ensures sent { (state : State) → StandsFor self.old side.old state
            → OnOk result (out.new.items ≡ out.old.items ++ frames_of_moves (frame_step own frame.now state).moves) }
        ensures told { (state other : State) → StandsFor self.old side.old state → GuestStands guest.old side.old other
            → OnOk result (Hears guest.old guest.new side.new (heard_step (frame_outward own frame.now state) other)) }
        ensures alive { OnOk result (self.new.is_dead ≡ false) }
        ensures memory { OnErr result (self.new.is_dead ≡ true) }
        ensures dead { self.old.is_dead ≡ true → IsErr result }
    {
        if self.is_dead {
            return Err(AllocError);
        }
        self.is_dead = true;
        self.desk
            .answer_frame(&mut self.history, side, guest, frame, load, own, out)?;
        self.is_dead = false;
        Ok(())
    }

    /// Answers a frame, which asks this or is refused, as `take_message` does. The guest, if there is one, is told what becomes of the
    /// page by it.
    pub(crate) fn serve_asked(
        &mut self,
        side: &mut PageSide,
        guest: &mut Option<Guest>,
        asked: Result<Asked, ReadErr>,
        out: &mut Vec<u8>,
    ) -> Result<(), AllocError>
        requires fits { IfOk asked (λ a. fits_command a.command ≡ true) }
        requires texts { IfOk asked (λ a. HasServedTexts a.command) }
        requires room { HasRoomLeft self.old side.old }
        requires seated { IsSeated self.old side.old }
        requires can_hear { CanHear kept_before_step guest.old side.old }
        ensures seated { (r : Result AskedValue RefusedValue) → ReadsAsked asked r → IsSeated self.new side.new }
        ensures stands { (r : Result AskedValue RefusedValue) (state : State) → ReadsAsked asked r → StandsFor self.old side.old state
            → OnOk result (StandsFor self.new side.new (asked_step r state).state) }
        ensures sent { (r : Result AskedValue RefusedValue) (state : State) → ReadsAsked asked r → StandsFor self.old side.old state
            → OnOk result (out.new.items ≡ out.old.items ++ frames_of_moves (asked_step r state).moves) }
        ensures told { (r : Result AskedValue RefusedValue) (state other : State) → ReadsAsked asked r
            → StandsFor self.old side.old state → GuestStands guest.old side.old other
            → OnOk result (Hears guest.old guest.new side.new (heard_step (asked_outward r state) other)) }
        ensures alive { OnOk result (self.new.is_dead ≡ false) }
        ensures memory { OnErr result (self.new.is_dead ≡ true) }
        ensures dead { self.old.is_dead ≡ true → IsErr result }
    {
        if self.is_dead {
            return Err(AllocError);
        }
        self.is_dead = true;
        self.desk
            .answer_asked(&mut self.history, side, guest, asked, out)?;
        self.is_dead = false;
        Ok(())
    }

    /// A script changes the page: the events of its edits, or of the changes of its sheets, are appended to `out`. It gives the
    /// fault of a change that is refused, which changes nothing and tells nothing.
    pub fn script(
        &mut self,
        side: &mut PageSide,
        act: Act,
        out: &mut Vec<u8>,
    ) -> Result<Option<ActFault>, AllocError>
        requires form { IsInsertable act }
        requires room { HasRoomLeft self.old side.old }
        ensures fault { IfOk result (λ fault. fault ≡ act_fault act side.old.page side.old.sheets.entries) }
        ensures seated { IsSeated self.old side.old → IsSeated self.new side.new }
        ensures stands { (state : State) → StandsFor self.old side.old state
            → OnOk result (StandsFor self.new side.new (act_step act state).state) }
        ensures sent { (state : State) → StandsFor self.old side.old state
            → OnOk result (out.new.items ≡ out.old.items ++ frames_of_moves (act_step act state).moves) }
        ensures alive { OnOk result (self.new.is_dead ≡ false) }
        ensures memory { OnErr result (self.new.is_dead ≡ true) }
        ensures dead { self.old.is_dead ≡ true → IsErr result }
    {
        self.serve_script(side, &mut None, act, out)
    }

    /// A script changes the page, as `script` does. The guest, if there is one, is told of it as this client is.
    pub(crate) fn serve_script(
        &mut self,
        side: &mut PageSide,
        guest: &mut Option<Guest>,
        act: Act,
        out: &mut Vec<u8>,
    ) -> Result<Option<ActFault>, AllocError>
        requires form { IsInsertable act }
        requires room { HasRoomLeft self.old side.old }
        requires can_hear { CanHear 2 guest.old side.old }
        ensures fault { IfOk result (λ fault. fault ≡ act_fault act side.old.page side.old.sheets.entries) }
        ensures seated { IsSeated self.old side.old → IsSeated self.new side.new }
        ensures stands { (state : State) → StandsFor self.old side.old state
            → OnOk result (StandsFor self.new side.new (act_step act state).state) }
        ensures sent { (state : State) → StandsFor self.old side.old state
            → OnOk result (out.new.items ≡ out.old.items ++ frames_of_moves (act_step act state).moves) }
        ensures told { (other : State) → GuestStands guest.old side.old other
            → OnOk result (Hears guest.old guest.new side.new (act_step act other)) }
        ensures alive { OnOk result (self.new.is_dead ≡ false) }
        ensures memory { OnErr result (self.new.is_dead ≡ true) }
        ensures dead { self.old.is_dead ≡ true → IsErr result }
    {
        if self.is_dead {
            return Err(AllocError);
        }
        self.is_dead = true;
        if let Some(fault) = self.desk.script(side, guest, act, out)? {
            self.is_dead = false;
            return Ok(Some(fault));
        }
        self.history.cross();
        self.is_dead = false;
        Ok(None)
    }

    /// A script loads another page: a client whose DOM is on is told, by what is appended to `out`, and where its CSS is on too
    /// that each old sheet went and each new one came.
    pub fn load(
        &mut self,
        side: &mut PageSide,
        form: PageForm,
        out: &mut Vec<u8>,
    ) -> Result<(), AllocError>
        requires can { CanLoadPage (loaded_page form) }
        requires room { HasRoomLeft self.old side.old }
        ensures seated { IsSeated self.old side.old → IsSeated self.new side.new }
        ensures stands { (state : State) → StandsFor self.old side.old state
            → OnOk result (StandsFor self.new side.new (load_step (loaded_page form) state).state) }
        ensures sent { (state : State) → StandsFor self.old side.old state
            → OnOk result (out.new.items ≡ out.old.items ++ frames_of_moves (load_step (loaded_page form) state).moves) }
        ensures alive { OnOk result (self.new.is_dead ≡ false) }
        ensures memory { OnErr result (self.new.is_dead ≡ true) }
        ensures dead { self.old.is_dead ≡ true → IsErr result }
    {
        self.serve_load(side, &mut None, form, out)
    }

    /// A script loads another page, as `load` does. The guest, if there is one, is told of it as this client is.
    pub(crate) fn serve_load(
        &mut self,
        side: &mut PageSide,
        guest: &mut Option<Guest>,
        form: PageForm,
        out: &mut Vec<u8>,
    ) -> Result<(), AllocError>
        requires can { CanLoadPage (loaded_page form) }
        requires room { HasRoomLeft self.old side.old }
        ensures seated { IsSeated self.old side.old → IsSeated self.new side.new }
        ensures stands { (state : State) → StandsFor self.old side.old state
            → OnOk result (StandsFor self.new side.new (load_step (loaded_page form) state).state) }
        ensures sent { (state : State) → StandsFor self.old side.old state
            → OnOk result (out.new.items ≡ out.old.items ++ frames_of_moves (load_step (loaded_page form) state).moves) }
        ensures told { (other : State) → GuestStands guest.old side.old other
            → OnOk result (Hears guest.old guest.new side.new (load_step (loaded_page form) other)) }
        ensures alive { OnOk result (self.new.is_dead ≡ false) }
        ensures memory { OnErr result (self.new.is_dead ≡ true) }
        ensures dead { self.old.is_dead ≡ true → IsErr result }
    {
        if self.is_dead {
            return Err(AllocError);
        }
        self.is_dead = true;
        self.desk.load(side, guest, form, out)?;
        self.history.clear();
        self.is_dead = false;
        Ok(())
    }
}
