// Two clients of one page on one pipe.
ghost use Rattle.std.specs.Prelude.{◌≡◌, ◌++◌, ◌↔◌, ℕ, List, IsTrue, true, false, Option, Some, Ok, IfOk, IfSome, OnOk, OnErr, IsErr};
ghost use Rattle.undo_marks.specs.Marks.{no_marks};
ghost use Rattle.node_binding.specs.Bindings.{empty_from};
ghost use Rattle.dom_breakpoints.specs.Watched.{unwatched};
ghost use Rattle.dom_search.specs.Searches.{no_searches};
ghost use Rattle.page_forms.specs.Acts.{IsInsertable};
ghost use Rattle.page_forms.specs.Pages.{loaded_page, CanLoadPage};
ghost use Rattle.cdp_messages.specs.Asked.{asked, fits_command};
ghost use Rattle.cdp_messages.specs.SessionFrames.{session_asked};
ghost use Rattle.cdp_messages.specs.Replies.{Message};
ghost use Rattle.session_mux.specs.Sessions.{no_sessions};
ghost use Rattle.session_mux.specs.Tags.{AreMessages};
ghost use Rattle.back_end.specs.declared.guest.Guest.{Guest};
ghost use Rattle.back_end.specs.Plans.{act_fault};
ghost use Rattle.back_end.specs.Steps.{acts, loads};
ghost use Rattle.back_end.specs.Texts.{HasServedTexts};
ghost use Rattle.back_end.specs.LoadFrames.{AsksLoad};
ghost use Rattle.back_end.specs.Pairs.{Pair, pair_step, pair_turn, root_step, attached_step, sent_to};
ghost use Rattle.back_end.specs.PairSeats.{PairStandsFor, IsPairSeated, PairHasRoomLeft, IsUnused, IsGuestAt, IsGuestOf, seat_again};
ghost use Rattle.back_end.specs.PairSeats.{WasToldOf, IsRenewed};

use crate::faults::ActFault;
use crate::guest::Guest;
use crate::load_scan::{LoadFrame, load_in};
use crate::seat::{END_OF_NUMBERS, Seat};
use crate::side::PageSide;
use cdp_messages::{Asked, ReadErr, read_command, read_session_command};
use page_forms::{Act, PageForm};
use session_mux::{Routed, Router, tag};
use std::alloc::{AllocError, Global};
use std::mem;

/// The seats of two clients at one page's side, whose frames come by one pipe: the root's, and that of the session that is attached, if
/// one is. After want of memory it is dead: each later call that can answer want of memory does.
#[derive(Drop)]
pub struct Mux {
    alloc: Global,
    pub(crate) root: Seat,
    pub(crate) second: Seat,
    pub(crate) router: Router,
    pub(crate) is_dead: bool,
}

impl Mux {
    /// Neither client has asked for anything, and no session is attached; the first gets the number 1.
    pub fn new(alloc: Global) -> Mux
        ensures off { (result.root.desk.is_on ≡ false) × (result.second.desk.is_on ≡ false) }
        ensures css { (result.root.desk.css ≡ false) × (result.second.desk.css ≡ false) }
        ensures agents { (result.root.desk.agent ≡ empty_from 1) × (result.second.desk.agent ≡ empty_from 1) }
        ensures watches { (result.root.desk.watches ≡ unwatched) × (result.second.desk.watches ≡ unwatched) }
        ensures searches { (result.root.desk.searches ≡ no_searches) × (result.second.desk.searches ≡ no_searches) }
        ensures histories { (result.root.history ≡ no_marks) × (result.second.history ≡ no_marks) }
        ensures sessions { result.router ≡ no_sessions }
        ensures seats { (result.root.is_dead ≡ false) × (result.second.is_dead ≡ false) }
        ensures alive { result.is_dead ≡ false }
    {
        Mux {
            alloc,
            root: Seat::new(alloc),
            second: Seat::new(alloc),
            router: Router::new(),
            is_dead: false,
        }
    }

    /// Whether both clients have room for a step, as a seat has it, and the number of the next session is below 2^50. A frame of one
    /// client may draw ids for the other.
    pub fn has_room(&self, side: &PageSide) -> bool
        ensures { IsTrue result ↔ PairHasRoomLeft self.now side.now }
    {
        let root = self.root.has_room(side);
        let second = self.second.has_room(side);
        root && second && self.router.next() < END_OF_NUMBERS
    }

    /// Whether an earlier call answered want of memory.
    pub fn is_dead(&self) -> bool
        ensures { result ≡ self.now.is_dead }
    {
        self.is_dead
    }

    /// The number of the session that is attached; `None` exactly where none is.
    pub fn attached(&self) -> Option<u64>
        ensures { result ≡ self.now.router.attached }
    {
        self.router.attached()
    }

    /// Answers one frame that came by the pipe: what the step of both clients sends is appended to `out`, that of the client whose
    /// frame it is behind that of the other. Messages of the attached session have it as their last property. `own` says whether
    /// `Replay.load` and `Replay.act` are known to the root; the attached session never knows them.
    pub fn take_message(
        &mut self,
        side: &mut PageSide,
        bytes: &[u8],
        own: bool,
        out: &mut Vec<u8>,
    ) -> Result<(), AllocError>
        requires room { PairHasRoomLeft self.old side.old }
        requires seated { IsPairSeated self.old side.old }
        ensures seated { IsPairSeated self.new side.new }
        ensures stands { (p : Pair) → PairStandsFor self.old side.old p
            → OnOk result (PairStandsFor self.new side.new (pair_step own bytes.now p).state) }
        ensures sent { (p : Pair) → PairStandsFor self.old side.old p
            → OnOk result (out.new.items ≡ out.old.items ++ (pair_step own bytes.now p).sent) }
        ensures alive { OnOk result (self.new.is_dead ≡ false) }
        ensures memory { OnErr result (self.new.is_dead ≡ true) }
        ensures dead { self.old.is_dead ≡ true → IsErr result }
    {
        if self.is_dead {
            return Err(AllocError);
        }
        self.is_dead = true;
        self.serve(side, bytes, own, out)?;
        self.is_dead = false;
        Ok(())
    }

    /// A script changes the page under both clients' eyes: what it tells the root is appended to `out`, and then what it tells the
    /// attached session. It gives the fault of a change that is refused, which changes nothing and tells nothing.
    pub fn script(
        &mut self,
        side: &mut PageSide,
        act: Act,
        out: &mut Vec<u8>,
    ) -> Result<Option<ActFault>, AllocError>
        requires form { IsInsertable act }
        requires room { PairHasRoomLeft self.old side.old }
        requires seated { IsPairSeated self.old side.old }
        ensures fault { IfOk result (λ fault. fault ≡ act_fault act side.old.page side.old.sheets.entries) }
        ensures seated { IsPairSeated self.new side.new }
        ensures stands { (p : Pair) → PairStandsFor self.old side.old p
            → OnOk result (PairStandsFor self.new side.new (pair_turn (acts act) p).state) }
        ensures sent { (p : Pair) → PairStandsFor self.old side.old p
            → OnOk result (out.new.items ≡ out.old.items ++ (pair_turn (acts act) p).sent) }
        ensures alive { OnOk result (self.new.is_dead ≡ false) }
        ensures memory { OnErr result (self.new.is_dead ≡ true) }
        ensures dead { self.old.is_dead ≡ true → IsErr result }
    {
        if self.is_dead {
            return Err(AllocError);
        }
        self.is_dead = true;
        act.valid();
        let mut guest = self.second_as_guest();
        let fault = self.root.serve_script(side, &mut guest, act, out)?;
        self.reseat_second(guest, out)?;
        self.is_dead = false;
        Ok(fault)
    }

    /// A script loads another page under both clients' eyes, and each is told as by `Seat::load`; the root first.
    pub fn load(
        &mut self,
        side: &mut PageSide,
        form: PageForm,
        out: &mut Vec<u8>,
    ) -> Result<(), AllocError>
        requires can { CanLoadPage (loaded_page form) }
        requires room { PairHasRoomLeft self.old side.old }
        requires seated { IsPairSeated self.old side.old }
        ensures seated { IsPairSeated self.new side.new }
        ensures stands { (p : Pair) → PairStandsFor self.old side.old p
            → OnOk result (PairStandsFor self.new side.new (pair_turn (loads (loaded_page form)) p).state) }
        ensures sent { (p : Pair) → PairStandsFor self.old side.old p
            → OnOk result (out.new.items ≡ out.old.items ++ (pair_turn (loads (loaded_page form)) p).sent) }
        ensures alive { OnOk result (self.new.is_dead ≡ false) }
        ensures memory { OnErr result (self.new.is_dead ≡ true) }
        ensures dead { self.old.is_dead ≡ true → IsErr result }
    {
        if self.is_dead {
            return Err(AllocError);
        }
        self.is_dead = true;
        form.valid();
        let mut guest = self.second_as_guest();
        self.root.serve_load(side, &mut guest, form, out)?;
        self.reseat_second(guest, out)?;
        self.is_dead = false;
        Ok(())
    }

    // Answers one frame. While no session is attached, one that asks anything is the root's, and is not routed; one that loads a page in
    // its usual form is known by its tokens.
    fn serve(
        &mut self,
        side: &mut PageSide,
        bytes: &[u8],
        own: bool,
        out: &mut Vec<u8>,
    ) -> Result<(), AllocError>
        requires room { PairHasRoomLeft self.old side.old }
        requires seated { ∥ ((p : Pair) × PairStandsFor self.old side.old p) ∥₁ }
        ensures stands { (p : Pair) → PairStandsFor self.old side.old p
            → OnOk result (PairStandsFor self.new side.new (pair_step own bytes.now p).state) }
        ensures sent { (p : Pair) → PairStandsFor self.old side.old p
            → OnOk result (out.new.items ≡ out.old.items ++ (pair_step own bytes.now p).sent) }
        ensures life { self.new.is_dead ≡ self.old.is_dead }
    {
        if self.router.attached().is_some() {
            return self.serve_routed(side, bytes, own, out);
        }
        if let Some(load) = load_in(self.alloc, bytes, own) {
            return self.serve_root(side, bytes, Some(load), own, out);
        }
        self.serve_read(side, bytes, own, out)
    }

    // Answers one frame, read as what it asks before anything else: one that is refused is routed.
    fn serve_read(
        &mut self,
        side: &mut PageSide,
        bytes: &[u8],
        own: bool,
        out: &mut Vec<u8>,
    ) -> Result<(), AllocError>
        requires room { PairHasRoomLeft self.old side.old }
        requires seated { ∥ ((p : Pair) × PairStandsFor self.old side.old p) ∥₁ }
        ensures stands { (p : Pair) → PairStandsFor self.old side.old p
            → OnOk result (PairStandsFor self.new side.new (pair_step own bytes.now p).state) }
        ensures sent { (p : Pair) → PairStandsFor self.old side.old p
            → OnOk result (out.new.items ≡ out.old.items ++ (pair_step own bytes.now p).sent) }
        ensures life { self.new.is_dead ≡ self.old.is_dead }
    {
        match read_command(self.alloc, bytes, own) {
            Ok(request) => self.serve_command(side, request, out),
            Err(ReadErr::Refused(_)) => self.serve_routed(side, bytes, own, out),
            Err(ReadErr::Memory) => Err(AllocError),
        }
    }

    // Answers one frame, by whose it is.
    fn serve_routed(
        &mut self,
        side: &mut PageSide,
        bytes: &[u8],
        own: bool,
        out: &mut Vec<u8>,
    ) -> Result<(), AllocError>
        requires room { PairHasRoomLeft self.old side.old }
        requires seated { ∥ ((p : Pair) × PairStandsFor self.old side.old p) ∥₁ }
        ensures stands { (p : Pair) → PairStandsFor self.old side.old p
            → OnOk result (PairStandsFor self.new side.new (pair_step own bytes.now p).state) }
        ensures sent { (p : Pair) → PairStandsFor self.old side.old p
            → OnOk result (out.new.items ≡ out.old.items ++ (pair_step own bytes.now p).sent) }
        ensures life { self.new.is_dead ≡ self.old.is_dead }
    {
        match self.router.route(self.alloc, bytes, out)? {
            Routed::Root => {
                let load = load_in(self.alloc, bytes, own);
                self.serve_root(side, bytes, load, own, out)
            }
            Routed::Attached => self.serve_attached(side, bytes, out),
            Routed::Answered => {
                self.renew();
                Ok(())
            }
        }
    }

    // Serves a frame of the root; the second client is its guest.
    fn serve_root(
        &mut self,
        side: &mut PageSide,
        bytes: &[u8],
        load: Option<LoadFrame>,
        own: bool,
        out: &mut Vec<u8>,
    ) -> Result<(), AllocError>
        requires known { IfSome load (λ f. own ≡ true) }
        requires asks { IfSome load (λ f. AsksLoad bytes.now f.id (loaded_page f.page)) }
        requires can { IfSome load (λ f. CanLoadPage (loaded_page f.page)) }
        requires room { PairHasRoomLeft self.old side.old }
        requires seated { ∥ ((p : Pair) × PairStandsFor self.old side.old p) ∥₁ }
        ensures stands { (p : Pair) → PairStandsFor self.old side.old p
            → OnOk result (PairStandsFor self.new side.new (root_step (asked bytes.now own) p).state) }
        ensures sent { (p : Pair) → PairStandsFor self.old side.old p
            → OnOk result (out.new.items ≡ out.old.items ++ (root_step (asked bytes.now own) p).sent) }
        ensures life { self.new.is_dead ≡ self.old.is_dead }
    {
        let mut guest = self.second_as_guest();
        let mut said = Vec::new(self.alloc);
        self.root
            .serve_frame(side, &mut guest, bytes, load, own, &mut said)?;
        self.reseat_second(guest, out)?;
        out.extend_from_slice(&said)?;
        Ok(())
    }

    // Serves what the root asks; the second client is its guest.
    fn serve_command(
        &mut self,
        side: &mut PageSide,
        request: Asked,
        out: &mut Vec<u8>,
    ) -> Result<(), AllocError>
        requires fits { fits_command request.command ≡ true }
        requires texts { HasServedTexts request.command }
        requires room { PairHasRoomLeft self.old side.old }
        requires seated { ∥ ((p : Pair) × PairStandsFor self.old side.old p) ∥₁ }
        ensures stands { (p : Pair) → PairStandsFor self.old side.old p
            → OnOk result (PairStandsFor self.new side.new (root_step (Ok request) p).state) }
        ensures sent { (p : Pair) → PairStandsFor self.old side.old p
            → OnOk result (out.new.items ≡ out.old.items ++ (root_step (Ok request) p).sent) }
        ensures life { self.new.is_dead ≡ self.old.is_dead }
    {
        let mut guest = self.second_as_guest();
        let mut said = Vec::new(self.alloc);
        self.root
            .serve_asked(side, &mut guest, Ok(request), &mut said)?;
        self.reseat_second(guest, out)?;
        out.extend_from_slice(&said)?;
        Ok(())
    }

    // Serves a frame of the session that is attached; the root is its guest. While none is attached, there is no such frame.
    fn serve_attached(
        &mut self,
        side: &mut PageSide,
        bytes: &[u8],
        out: &mut Vec<u8>,
    ) -> Result<(), AllocError>
        requires room { PairHasRoomLeft self.old side.old }
        requires seated { ∥ ((p : Pair) × PairStandsFor self.old side.old p) ∥₁ }
        ensures stands { (p : Pair) (session : ℕ) → p.sessions.attached ≡ Some session → PairStandsFor self.old side.old p
            → OnOk result (PairStandsFor self.new side.new (attached_step (session_asked bytes.now) p).state) }
        ensures sent { (p : Pair) (session : ℕ) → p.sessions.attached ≡ Some session → PairStandsFor self.old side.old p
            → OnOk result (out.new.items ≡ out.old.items ++ (attached_step (session_asked bytes.now) p).sent) }
        ensures life { self.new.is_dead ≡ self.old.is_dead }
    {
        let Some(session) = self.router.attached() else {
            return Ok(());
        };
        let asked = read_session_command(self.alloc, bytes);
        let mut guest = self.root_as_guest();
        let mut said = Vec::new(self.alloc);
        self.second.serve_asked(side, &mut guest, asked, &mut said)?;
        self.reseat_root(guest, out)?;
        tag(self.alloc, &said, session, out)?;
        Ok(())
    }

    // The second client as the guest of the root, while its session is attached; a new seat is in its place meanwhile.
    fn second_as_guest(&mut self) -> Option<Guest>
        ensures guest { IsGuestOf self.old.router.attached self.old.second result }
        ensures unused { IsUnused self.new.second }
        ensures root { self.new.root ≡ self.old.root }
        ensures router { self.new.router ≡ self.old.router }
        ensures life { self.new.is_dead ≡ self.old.is_dead }
    {
        let seat = mem::replace(&mut self.second, Seat::new(self.alloc));
        match self.router.attached() {
            Some(_) => Some(Guest {
                seat,
                out: Vec::new(self.alloc),
            }),
            None => None,
        }
    }

    // The second client, if it was a guest, takes its seat again, and what it was told is sent to its session.
    fn reseat_second(&mut self, guest: Option<Guest>, out: &mut Vec<u8>) -> Result<(), AllocError>
        requires messages { IfSome guest (λ g. ∥ AreMessages g.out.items ∥₁) }
        ensures second { self.new.second ≡ seat_again guest self.old.second }
        ensures root { self.new.root ≡ self.old.root }
        ensures router { self.new.router ≡ self.old.router }
        ensures sent { (messages : List Message) → WasToldOf self.old.router.attached guest messages
            → OnOk result (out.new.items ≡ out.old.items ++ sent_to self.old.router.attached messages) }
        ensures life { self.new.is_dead ≡ self.old.is_dead }
    {
        let Some(guest) = guest else {
            return Ok(());
        };
        self.second = guest.seat;
        match self.router.attached() {
            Some(session) => tag(self.alloc, &guest.out, session, out),
            None => Ok(()),
        }
    }

    // The root as the guest of the second client; a new seat is in its place meanwhile.
    fn root_as_guest(&mut self) -> Option<Guest>
        ensures guest { IsGuestAt self.old.root result }
        ensures second { self.new.second ≡ self.old.second }
        ensures router { self.new.router ≡ self.old.router }
        ensures life { self.new.is_dead ≡ self.old.is_dead }
    {
        let seat = mem::replace(&mut self.root, Seat::new(self.alloc));
        Some(Guest {
            seat,
            out: Vec::new(self.alloc),
        })
    }

    // The root takes its seat again, and is sent what it was told.
    fn reseat_root(&mut self, guest: Option<Guest>, out: &mut Vec<u8>) -> Result<(), AllocError>
        ensures root { self.new.root ≡ seat_again guest self.old.root }
        ensures second { self.new.second ≡ self.old.second }
        ensures router { self.new.router ≡ self.old.router }
        ensures sent { (g : Guest) → guest ≡ Some g → OnOk result (out.new.items ≡ out.old.items ++ g.out.items) }
        ensures life { self.new.is_dead ≡ self.old.is_dead }
    {
        let Some(guest) = guest else {
            return Ok(());
        };
        self.root = guest.seat;
        out.extend_from_slice(&guest.out)?;
        Ok(())
    }

    // Where no session is attached any more, the second client has asked for nothing.
    fn renew(&mut self)
        ensures second { IsRenewed self.old.router.attached self.old.second self.new.second }
        ensures root { self.new.root ≡ self.old.root }
        ensures router { self.new.router ≡ self.old.router }
        ensures life { self.new.is_dead ≡ self.old.is_dead }
    {
        if self.router.attached().is_none() {
            self.second = Seat::new(self.alloc);
        }
    }
}
