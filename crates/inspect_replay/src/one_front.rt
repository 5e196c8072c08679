ghost use Rattle.std.specs.Prelude.{◌≡◌, true, false, length, map, option_map, IsTrue, IfOk};
ghost use Rattle.serde_json.specs.View.{view};
ghost use Rattle.cdp_messages.specs.Asked.{is_whole_where_there};
ghost use Rattle.front_mirror.specs.Front.{matched_in};
ghost use Rattle.front_mirror.specs.Sheets.{has_sheet, stale_of};
ghost use Rattle.replay_script.specs.Seen.{seen_ask};
ghost use Rattle.session_runs.specs.World.{delivered_up, delivered_down, settled};
ghost use Rattle.pipe_frames.specs.Frames.{IsText};
ghost use Rattle.page_forms.specs.Pages.{CanLoadPage, loaded_page};
ghost use Rattle.back_end.specs.Steps.{acts, loads};
ghost use Rattle.inspect_world.specs.RunStates.{run_step};
ghost use Rattle.back_end.specs.Plans.{act_fault};
ghost use Rattle.back_end.specs.Laws.{IsTurn};
ghost use Rattle.replay_script.specs.Script.{stands_open, dropped};
ghost use Rattle.inspect_world.specs.Held.{with_panels};
ghost use Rattle.inspect_world.specs.World.{raw};
ghost use Rattle.inspect_world.specs.Fits.{IsBare};
ghost use Rattle.inspect_world.specs.Costs.{ask_cost, least_line};
ghost use Rattle.inspect_world.specs.Scripts.{sends};
ghost use Rattle.replay_script.specs.Sound.{CanSend};
ghost use Rattle.back_end.specs.Seats.{IsSeated};
ghost use Rattle.page_forms.specs.Texts.{PageHasTexts};

use back_end::{Act, ActFault, PageForm, PageSide, Seat};
use cdp_messages::Matched;
use front_mirror::{Front, FrontErr, Kept, Mirror, Panel, SeenPause};
use page_tree::Page;
use pipe_frames::Link;
use replay_parts::{Ends, Stop, Watched};
use replay_script::Ask;
use std::alloc::{AllocError, Global};

/// What stands at the ends of the link: the page's side with one client, and a front end; and how many of the replies and of the pauses
/// were told. The seat stands for the page's side, as long as it is not dead.
pub(crate) struct OneFront<P: Panel> {
    pub(crate) alloc: Global,
    pub(crate) side: PageSide,
    pub(crate) seat: Seat,
    pub(crate) ends: Ends,
    pub(crate) front: Front<P>,
    pub(crate) told: usize,
    pub(crate) told_pauses: usize,
    ghost seated: { IsSeated seat side },
}

// By hand, so that who lets both ends go need not know of their parts.
impl<P: Panel> Drop for OneFront<P> {
    fn drop(self) {
        let OneFront {
            alloc: _alloc,
            side,
            seat,
            ends,
            front,
            told: _told,
            told_pauses: _told_pauses,
        } = self;
        drop(side);
        drop(seat);
        drop(ends);
        drop(front);
    }
}

impl<P: Panel> OneFront<P> {
    ghost use Rattle.inspect_replay.specs.Goes.{Goes, stepping, spending, turning, answering_all, answering, sending_fetch};
    ghost use Rattle.inspect_replay.specs.Starts.{IsNew};
    ghost use Rattle.inspect_replay.specs.Goes.{fetching_text, fetching_one, fetching_all, settling};

    /// Both ends of a page that is loaded, with serials and numbers of sheets from 1 on. The front end tells the panels.
    pub(crate) fn new(
        alloc: Global,
        panels: Vec<P>,
        form: PageForm,
    ) -> Result<OneFront<P>, AllocError>
        requires can { CanLoadPage (loaded_page form) }
        ensures starts { IfOk result (λ ends. IsNew ends (map P.kind_of panels.items) (loaded_page form)) }
        ensures texts { PageHasTexts (loaded_page form) }
    {
        form.valid();
        Ok(OneFront {
            alloc,
            side: PageSide::new(alloc, Some(form))?,
            seat: Seat::new(alloc),
            ends: Ends::new(alloc),
            front: Front::new(alloc, panels)?,
            told: 0,
            told_pauses: 0,
        })
    }

    /// What the front end shows.
    pub(crate) fn mirror(&self) -> &Mirror
        ensures { result.now ≡ self.now.front.value.tree }
    {
        self.front.mirror()
    }

    /// The page.
    pub(crate) fn page(&self) -> &Page
        ensures { result.now ≡ self.now.side.page }
    {
        self.side.page()
    }

    /// The front end.
    pub(crate) fn front(&self) -> &Front<P>
        ensures { result.now ≡ self.now.front }
    {
        &self.front
    }

    /// The replies that came, in their order.
    pub(crate) fn replies(&self) -> &[Kept]
        ensures { result.now ≡ self.now.front.value.replies }
    {
        self.front.replies()
    }

    /// All replies that came are told.
    pub(crate) fn tell_replies(&mut self)
        ensures { self.new ≡ record self.old { told = length self.old.front.value.replies } }
    {
        self.told = self.front.replies().len();
    }

    /// The pauses that came, in their order.
    pub(crate) fn pauses(&self) -> &[SeenPause]
        ensures { result.now ≡ self.now.front.value.pauses }
    {
        self.front.pauses()
    }

    /// All pauses that came are told.
    pub(crate) fn tell_pauses(&mut self)
        ensures { self.new ≡ record self.old { told_pauses = length self.old.front.value.pauses } }
    {
        self.told_pauses = self.front.pauses().len();
    }

    /// The matched styles that the reply to the ask told, if it told some.
    pub(crate) fn matched_reply(&self, ask: u64) -> Option<&Matched>
        ensures { option_map (λ m. m.now) result ≡ matched_in ask self.now.front.value.matched }
    {
        self.front.matched_reply(ask)
    }

    /// Drops the panel at that place, counted from 1; false where none stands open there.
    pub(crate) fn close(&mut self, place: u64) -> bool
        ensures stood { result ≡ stands_open place self.old.front.panels }
        ensures dropped { self.new
            ≡ record self.old { front = with_panels (dropped place self.old.front.panels) self.old.front } }
    {
        self.front.close(place as usize)
    }

    /// The front end sends a command.
    pub(crate) fn ask<L: Link>(&mut self, link: &mut L, ask: &Ask) -> Result<(), Stop>
        requires can { CanSend (seen_ask ask.now) }
        requires params { IsTrue (is_whole_where_there (option_map view ask.now.params)) }
        requires session { IsTrue (is_whole_where_there (option_map view ask.now.session)) }
        ensures { Goes (spending (ask_cost (seen_ask ask.now)) (λ w. sends (seen_ask ask.now) w)) (⟦<L as Watched>⟧.at link.old self.old)
            (⟦<L as Watched>⟧.at link.new self.new) result }
    {
        if !self.front.has_room() {
            return Err(Stop::NoRoom);
        }
        let frame = self.front.ask(
            ask.method.as_str(),
            ask.params.as_ref(),
            ask.session.as_ref(),
        )?;
        self.ends.send_up(link, &frame)
    }

    /// The front end sends a text that names no ask.
    pub(crate) fn send_raw<L: Link>(&mut self, link: &mut L, text: &str) -> Result<(), Stop>
        requires text { IsText text.now }
        requires bare { IsBare text.now }
        ensures { Goes (spending least_line (λ w. raw text.now w)) (⟦<L as Watched>⟧.at link.old self.old)
            (⟦<L as Watched>⟧.at link.new self.new) result }
    {
        self.ends.send_text(link, text)
    }

    /// The script changes the page. Gives the fault of a change that is refused.
    pub(crate) fn change_page<L: Link>(
        &mut self,
        link: &mut L,
        act: Act,
    ) -> Result<Option<ActFault>, Stop>
        requires { IsTurn (acts act) }
        ensures fault { IfOk result (λ fault. fault ≡ act_fault act self.old.side.page self.old.side.sheets.entries) }
        ensures goes { Goes (turning (acts act)) (⟦<L as Watched>⟧.at link.old self.old)
            (⟦<L as Watched>⟧.at link.new self.new) result }
    {
        if !self.seat.has_room(&self.side) {
            return Err(Stop::NoRoom);
        }
        let mut out = Vec::new(self.alloc);
        let fault = self.seat.script(&mut self.side, act, &mut out)?;
        match self.ends.send_down(link, &out) {
            Ok(()) => Ok(fault),
            Err(stop) => Err(stop),
        }
    }

    /// The script loads another page.
    pub(crate) fn load_page<L: Link>(&mut self, link: &mut L, form: PageForm) -> Result<(), Stop>
        requires { IsTurn (loads (loaded_page form)) }
        ensures { Goes (turning (loads (loaded_page form))) (⟦<L as Watched>⟧.at link.old self.old)
            (⟦<L as Watched>⟧.at link.new self.new) result }
    {
        if !self.seat.has_room(&self.side) {
            return Err(Stop::NoRoom);
        }
        let mut out = Vec::new(self.alloc);
        self.seat.load(&mut self.side, form, &mut out)?;
        self.ends.send_down(link, &out)
    }

    /// Delivers `n` bytes up, or as many as are there. Each frame that becomes whole is answered at once.
    pub(crate) fn deliver_up<L: Link>(&mut self, link: &mut L, n: u64) -> Result<(), Stop>
        ensures { Goes (stepping (λ w. delivered_up run_step n w)) (⟦<L as Watched>⟧.at link.old self.old)
            (⟦<L as Watched>⟧.at link.new self.new) result }
    {
        match self.ends.take_up(link, n) {
            Ok(()) => self.answer_frames(link),
            Err(stop) => Err(stop),
        }
    }

    /// Answers the frames that came up whole.
    fn answer_frames<L: Link>(&mut self, link: &mut L) -> Result<(), Stop>
        ensures { Goes answering_all (⟦<L as Watched>⟧.at link.old self.old)
            (⟦<L as Watched>⟧.at link.new self.new) result }
    {
        while let Some(frame) = self.ends.next_frame() {
            match self.answer(link, &frame) {
                Ok(()) => {}
                Err(stop) => return Err(stop),
            }
        }
        Ok(())
    }

    /// Answers one frame of the front end; where the back end has no room for it, nothing is done.
    fn answer<L: Link>(&mut self, link: &mut L, frame: &[u8]) -> Result<(), Stop>
        ensures same { self.new.ends.splitter ≡ self.old.ends.splitter }
        ensures goes { Goes (answering frame.now) (⟦<L as Watched>⟧.at link.old self.old)
            (⟦<L as Watched>⟧.at link.new self.new) result }
    {
        if !self.seat.has_room(&self.side) {
            return Err(Stop::NoRoom);
        }
        let mut out = Vec::new(self.alloc);
        self.seat
            .take_message(&mut self.side, frame, false, &mut out)?;
        self.ends.send_down(link, &out)
    }

    /// Delivers `n` bytes down, or as many as are there.
    pub(crate) fn deliver_down<L: Link>(&mut self, link: &mut L, n: u64) -> Result<(), Stop>
        ensures { Goes (stepping (λ w. delivered_down n w)) (⟦<L as Watched>⟧.at link.old self.old)
            (⟦<L as Watched>⟧.at link.new self.new) result }
    {
        let piece = match self.ends.take_down(link, n) {
            Ok(piece) => piece,
            Err(stop) => return Err(stop),
        };
        match self.front.take_owned(piece) {
            Ok(()) => Ok(()),
            Err(FrontErr::Fault(refused)) => Err(Stop::FrontRefused {
                place: refused.place,
                fault: refused.kind,
            }),
            Err(FrontErr::Memory) => Err(Stop::Memory),
        }
    }

    /// Delivers all of the up pipe, and then all of the down pipe.
    fn deliver_all<L: Link>(&mut self, link: &mut L) -> Result<(), Stop>
        ensures { Goes (stepping (λ w. settled run_step w)) (⟦<L as Watched>⟧.at link.old self.old)
            (⟦<L as Watched>⟧.at link.new self.new) result }
    {
        let up = self.ends.up_there();
        match self.deliver_up(link, up) {
            Ok(()) => {
                let down = self.ends.down_there();
                self.deliver_down(link, down)
            }
            Err(stop) => Err(stop),
        }
    }

    /// The front end sends the fetch of a sheet's text.
    fn send_fetch<L: Link>(&mut self, link: &mut L, number: u64) -> Result<(), Stop>
        requires known { has_sheet number self.old.front.value.sheets ≡ true }
        ensures { Goes (sending_fetch number) (⟦<L as Watched>⟧.at link.old self.old)
            (⟦<L as Watched>⟧.at link.new self.new) result }
    {
        if !self.front.has_room() {
            return Err(Stop::NoRoom);
        }
        let frame = self.front.fetch(number)?;
        self.ends.send_up(link, &frame)
    }

    /// Fetches the text of a sheet that the front end knows.
    fn fetch_text<L: Link>(&mut self, link: &mut L, number: u64) -> Result<(), Stop>
        requires known { has_sheet number self.old.front.value.sheets ≡ true }
        ensures { Goes (fetching_text number) (⟦<L as Watched>⟧.at link.old self.old)
            (⟦<L as Watched>⟧.at link.new self.new) result }
    {
        match self.send_fetch(link, number) {
            Ok(()) => self.deliver_all(link),
            Err(stop) => Err(stop),
        }
    }

    /// The same; a sheet that the front end does not know any more is passed over.
    fn fetch_if_known<L: Link>(&mut self, link: &mut L, number: u64) -> Result<(), Stop>
        ensures { Goes (fetching_one number) (⟦<L as Watched>⟧.at link.old self.old)
            (⟦<L as Watched>⟧.at link.new self.new) result }
    {
        if self.front.knows_sheet(number) {
            return self.fetch_text(link, number);
        }
        Ok(())
    }

    /// Fetches the texts of these sheets, one after the other.
    fn fetch_all<L: Link>(&mut self, link: &mut L, numbers: &[u64]) -> Result<(), Stop>
        ensures { Goes (fetching_all numbers.now) (⟦<L as Watched>⟧.at link.old self.old)
            (⟦<L as Watched>⟧.at link.new self.new) result }
    {
        for number in numbers {
            match self.fetch_if_known(link, *number) {
                Ok(()) => {}
                Err(stop) => return Err(stop),
            }
        }
        Ok(())
    }

    /// Fetches each text that the front end lacks or knows to be old. Which these are is found before the first fetch.
    fn fetch_stale<L: Link>(&mut self, link: &mut L) -> Result<(), Stop>
        ensures { Goes (fetching_all (stale_of self.old.front.value.sheets)) (⟦<L as Watched>⟧.at link.old self.old)
            (⟦<L as Watched>⟧.at link.new self.new) result }
    {
        let numbers = self.front.stale()?;
        self.fetch_all(link, &numbers)
    }

    /// Delivers all that is on its way, and then fetches each text that the front end lacks or knows to be old.
    pub(crate) fn settle<L: Link>(&mut self, link: &mut L) -> Result<(), Stop>
        ensures { Goes settling (⟦<L as Watched>⟧.at link.old self.old)
            (⟦<L as Watched>⟧.at link.new self.new) result }
    {
        match self.deliver_all(link) {
            Ok(()) => self.fetch_stale(link),
            Err(stop) => Err(stop),
        }
    }
}
