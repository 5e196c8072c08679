// What stands at both ends of a link with two front ends: what each sends and takes.
ghost use Rattle.std.specs.Prelude.{◌≡◌, ◌++◌, OnOk, true, false, map, option_map, is_some, IsTrue, IfOk, IfSome};
ghost use Rattle.serde_json.specs.View.{view};
ghost use Rattle.pipe_frames.specs.Frames.{IsText, framed};
ghost use Rattle.cdp_messages.specs.Asked.{is_whole_where_there};
ghost use Rattle.page_forms.specs.Pages.{CanLoadPage, loaded_page};
ghost use Rattle.page_forms.specs.Texts.{PageHasTexts};
ghost use Rattle.front_mirror.specs.Sheets.{has_sheet};
ghost use Rattle.replay_script.specs.Seen.{seen_ask};
ghost use Rattle.replay_script.specs.Script.{stands_open};
ghost use Rattle.replay_script.specs.Sound.{CanSend};
ghost use Rattle.back_end.specs.Steps.{acts, loads};
ghost use Rattle.back_end.specs.Plans.{act_fault};
ghost use Rattle.back_end.specs.Laws.{IsTurn};
ghost use Rattle.back_end.specs.PairSeats.{IsPairSeated};
ghost use Rattle.multi_replay.specs.States.{at_rest, is_there, front_meant, after_close, attach_text, detach_text, fetch_text};
ghost use Rattle.inspect_world.specs.World.{nothing_told};
ghost use Rattle.inspect_world.specs.Fits.{IsBare};
ghost use Rattle.inspect_world.specs.Costs.{least_line};
ghost use Rattle.pair_world.specs.PairRuns.{none_more};
ghost use Rattle.pair_replay.specs.Tellings.{told_seen};

use back_end::{Act, ActFault, Mux, PageForm, PageSide};
use front_mirror::{Front, FrontErr, Panel};
use multi_replay::Fronts;
use page_tree::Page;
use pipe_frames::Link;
use replay_parts::{Ends, Stop, Watched};
use replay_script::Ask;
use std::alloc::{AllocError, Global};

/// How many of the replies and of the pauses of a front end were told.
#[derive(Clone, Copy)]
pub(crate) struct ToldCounts {
    pub(crate) replies: usize,
    pub(crate) pauses: usize,
}

/// What stands at the ends of the link: the page's side with two clients, and two front ends; and what was told of each front end. The
/// clients' seats stand for the page's side, as long as they are not dead.
pub(crate) struct TwoFronts<P: Panel> {
    pub(crate) alloc: Global,
    pub(crate) side: PageSide,
    pub(crate) mux: Mux,
    pub(crate) ends: Ends,
    pub(crate) fronts: Fronts<P>,
    pub(crate) first_told: ToldCounts,
    pub(crate) second_told: ToldCounts,
    ghost seated: { IsPairSeated mux side },
}

// By hand, so that who lets both ends go need not know of their parts.
impl<P: Panel> Drop for TwoFronts<P> {
    fn drop(self) {
        let TwoFronts {
            alloc: _alloc,
            side,
            mux,
            ends,
            fronts,
            first_told: _first_told,
            second_told: _second_told,
        } = self;
        drop(side);
        drop(mux);
        drop(ends);
        drop(fronts);
    }
}

// Nothing was told.
fn nothing_told() -> ToldCounts
    ensures { told_seen result ≡ nothing_told }
{
    ToldCounts {
        replies: 0,
        pauses: 0,
    }
}

impl<P: Panel> TwoFronts<P> {
    ghost use Rattle.pair_replay.specs.Running.{sends_up, delivers_up, delivers_down, sending_ask, sending_attach};
    ghost use Rattle.pair_replay.specs.Running.{sending_detach, sending_fetch};
    ghost use Rattle.pair_replay.specs.PairStarts.{AreNewEnds, told_held, with_told_held, may_ask_on};
    ghost use Rattle.pair_replay.specs.Playing.{Goes, aims, goes_to, pair_turning, pair_answering_all, pair_answering};
    ghost use Rattle.pair_replay.specs.Playing.{pair_fetching};

    /// Both ends of a page that is loaded, with serials and numbers of sheets from 1 on. The first front end tells the panels.
    pub(crate) fn new(
        alloc: Global,
        panels: Vec<P>,
        form: PageForm,
    ) -> Result<TwoFronts<P>, AllocError>
        requires can { CanLoadPage (loaded_page form) }
        ensures starts { IfOk result (λ ends. AreNewEnds ends (map P.kind_of panels.items) (loaded_page form)) }
        ensures texts { PageHasTexts (loaded_page form) }
    {
        form.valid();
        Ok(TwoFronts {
            alloc,
            side: PageSide::new(alloc, Some(form))?,
            mux: Mux::new(alloc),
            ends: Ends::new(alloc),
            fronts: Fronts::new(alloc, panels)?,
            first_told: nothing_told(),
            second_told: nothing_told(),
        })
    }

    /// The page.
    pub(crate) fn page(&self) -> &Page
        ensures { result.now ≡ self.now.side.page }
    {
        self.side.page()
    }

    /// The first front end, or the second where it stands.
    pub(crate) fn front(&self, second: bool) -> Option<&Front<P>>
        ensures stands { is_some result ≡ is_there second self.now.fronts.pair }
        ensures front { IfSome result (λ front. at_rest front.now ≡ front_meant second self.now.fronts.pair) }
    {
        if second {
            self.fronts.second()
        } else {
            Some(self.fronts.first())
        }
    }

    /// The first front end.
    pub(crate) fn first(&self) -> &Front<P>
        ensures { at_rest result.now ≡ self.now.fronts.pair.one }
    {
        self.fronts.first()
    }

    /// Whether the second front end stands.
    pub(crate) fn second_stands(&self) -> bool
        ensures { result ≡ is_there true self.now.fronts.pair }
    {
        self.fronts.second().is_some()
    }

    /// What was told of a front end.
    pub(crate) fn told(&self, second: bool) -> ToldCounts
        ensures { result ≡ told_held second self.now }
    {
        if second {
            self.second_told
        } else {
            self.first_told
        }
    }

    /// So much was told of it.
    pub(crate) fn tell(&mut self, second: bool, told: ToldCounts)
        ensures { self.new ≡ with_told_held second told self.old }
    {
        if second {
            self.second_told = told;
        } else {
            self.first_told = told;
        }
    }

    /// Nothing was told of a second front end that is still to come.
    pub(crate) fn forget_second(&mut self)
        ensures ends { self.new ≡ with_told_held true self.new.second_told self.old }
        ensures told { told_seen self.new.second_told ≡ nothing_told }
    {
        self.second_told = nothing_told();
    }

    /// Drops the panel of the first front end at that place, counted from 1; false where none stands open there.
    pub(crate) fn close(&mut self, place: u64) -> bool
        ensures stood { result ≡ stands_open place self.old.fronts.pair.one.panels }
        ensures dropped { self.new ≡ record self.old { fronts = after_close self.old.fronts place } }
    {
        self.fronts.close(place as usize)
    }

    /// The first front end sends a command, or the second, which stands then.
    pub(crate) fn ask<L: Link>(&mut self, link: &mut L, second: bool, ask: &Ask) -> Result<(), Stop>
        requires can { CanSend (seen_ask ask.now) }
        requires may { may_ask_on second (seen_ask ask.now) ≡ true }
        requires params { IsTrue (is_whole_where_there (option_map view ask.now.params)) }
        requires stands { is_there second self.old.fronts.pair ≡ true }
        ensures { Goes (aims least_line (sending_ask second (seen_ask ask.now))) (⟦<L as Watched>⟧.at link.old self.old)
            (⟦<L as Watched>⟧.at link.new self.new) result }
    {
        if !self.fronts.has_room() {
            return Err(Stop::NoRoom);
        }
        let frame = self
            .fronts
            .ask(second, ask.method.as_str(), ask.params.as_ref())?;
        self.ends.send_up(link, &frame)
    }

    /// Sends the command that attaches a session. No second front end stands.
    pub(crate) fn attach<L: Link>(&mut self, link: &mut L) -> Result<(), Stop>
        requires alone { is_there true self.old.fronts.pair ≡ false }
        ensures sent { OnOk result ((L.up link.new).sent ≡ (L.up link.old).sent ++ framed (attach_text self.old.fronts.next)) }
        ensures goes { Goes (aims 0 sending_attach) (⟦<L as Watched>⟧.at link.old self.old)
            (⟦<L as Watched>⟧.at link.new self.new) result }
    {
        if !self.fronts.has_room() {
            return Err(Stop::NoRoom);
        }
        let frame = self.fronts.attach()?;
        self.ends.send_up(link, &frame)
    }

    /// Sends the command that detaches the session of the second front end, which stands.
    pub(crate) fn detach<L: Link>(&mut self, link: &mut L) -> Result<(), Stop>
        requires stands { is_there true self.old.fronts.pair ≡ true }
        ensures sent { OnOk result (IfSome self.old.fronts.pair.two
            (λ w. (L.up link.new).sent ≡ (L.up link.old).sent ++ framed (detach_text self.old.fronts.next w.text))) }
        ensures goes { Goes (aims 0 sending_detach) (⟦<L as Watched>⟧.at link.old self.old)
            (⟦<L as Watched>⟧.at link.new self.new) result }
    {
        if !self.fronts.has_room() {
            return Err(Stop::NoRoom);
        }
        let frame = self.fronts.detach()?;
        self.ends.send_up(link, &frame)
    }

    /// The first front end sends a text that names no ask.
    pub(crate) fn send_raw<L: Link>(&mut self, link: &mut L, text: &str) -> Result<(), Stop>
        requires text { IsText text.now }
        requires bare { IsBare text.now }
        ensures { Goes (aims least_line (sends_up (λ w. text.now) none_more)) (⟦<L as Watched>⟧.at link.old self.old)
            (⟦<L as Watched>⟧.at link.new self.new) result }
    {
        self.ends.send_text(link, text)
    }

    /// A front end that stands sends the fetch of the text of a sheet that it knows.
    pub(crate) fn send_fetch<L: Link>(
        &mut self,
        link: &mut L,
        second: bool,
        number: u64,
    ) -> Result<(), Stop>
        requires stands { is_there second self.old.fronts.pair ≡ true }
        requires known { has_sheet number (front_meant second self.old.fronts.pair).value.sheets ≡ true }
        ensures sent { OnOk result
            ((L.up link.new).sent ≡ (L.up link.old).sent ++ framed (fetch_text second self.old.fronts.pair number)) }
        ensures goes { Goes (pair_fetching second 1 (sending_fetch second number)) (⟦<L as Watched>⟧.at link.old self.old)
            (⟦<L as Watched>⟧.at link.new self.new) result }
    {
        if !self.fronts.has_room() {
            return Err(Stop::NoRoom);
        }
        let frame = self.fronts.fetch(second, number)?;
        self.ends.send_up(link, &frame)
    }

    /// The script changes the page. Gives the fault of a change that is refused.
    pub(crate) fn change_page<L: Link>(
        &mut self,
        link: &mut L,
        act: Act,
    ) -> Result<Option<ActFault>, Stop>
        requires { IsTurn (acts act) }
        ensures fault { IfOk result (λ fault. fault ≡ act_fault act self.old.side.page self.old.side.sheets.entries) }
        ensures goes { Goes (pair_turning (acts act)) (⟦<L as Watched>⟧.at link.old self.old)
            (⟦<L as Watched>⟧.at link.new self.new) result }
    {
        if !self.mux.has_room(&self.side) {
            return Err(Stop::NoRoom);
        }
        let mut out = Vec::new(self.alloc);
        let fault = self.mux.script(&mut self.side, act, &mut out)?;
        match self.ends.send_down(link, &out) {
            Ok(()) => Ok(fault),
            Err(stop) => Err(stop),
        }
    }

    /// The script loads another page.
    pub(crate) fn load_page<L: Link>(&mut self, link: &mut L, form: PageForm) -> Result<(), Stop>
        requires { IsTurn (loads (loaded_page form)) }
        ensures { Goes (pair_turning (loads (loaded_page form))) (⟦<L as Watched>⟧.at link.old self.old)
            (⟦<L as Watched>⟧.at link.new self.new) result }
    {
        if !self.mux.has_room(&self.side) {
            return Err(Stop::NoRoom);
        }
        let mut out = Vec::new(self.alloc);
        self.mux.load(&mut self.side, form, &mut out)?;
        self.ends.send_down(link, &out)
    }

    /// Delivers `n` bytes up, or as many as are there. Each frame that becomes whole is answered at once.
    pub(crate) fn deliver_up<L: Link>(&mut self, link: &mut L, n: u64) -> Result<(), Stop>
        ensures { Goes (goes_to (delivers_up n)) (⟦<L as Watched>⟧.at link.old self.old)
            (⟦<L as Watched>⟧.at link.new self.new) result }
    {
        match self.ends.take_up(link, n) {
            Ok(()) => self.answer_frames(link),
            Err(stop) => Err(stop),
        }
    }

    /// Answers the frames that came up whole.
    fn answer_frames<L: Link>(&mut self, link: &mut L) -> Result<(), Stop>
        ensures { Goes (pair_answering_all) (⟦<L as Watched>⟧.at link.old self.old)
            (⟦<L as Watched>⟧.at link.new self.new) result }
    {
        while let Some(frame) = self.ends.next_frame() {
            match self.answer(link, &frame) {
                Ok(()) => {}
                Err(stop) => return Err(stop),
            }
        }
        Ok(())
    }

    /// Answers one frame of the front ends, whole; where the back end has no room for it, nothing is done.
    fn answer<L: Link>(&mut self, link: &mut L, frame: &[u8]) -> Result<(), Stop>
        ensures same { self.new.ends.splitter ≡ self.old.ends.splitter }
        ensures goes { Goes (pair_answering frame.now) (⟦<L as Watched>⟧.at link.old self.old)
            (⟦<L as Watched>⟧.at link.new self.new) result }
    {
        if !self.mux.has_room(&self.side) {
            return Err(Stop::NoRoom);
        }
        let mut out = Vec::new(self.alloc);
        self.mux
            .take_message(&mut self.side, frame, false, &mut out)?;
        self.ends.send_down(link, &out)
    }

    /// Delivers `n` bytes down, or as many as are there.
    pub(crate) fn deliver_down<L: Link>(&mut self, link: &mut L, n: u64) -> Result<(), Stop>
        ensures { Goes (goes_to (delivers_down n)) (⟦<L as Watched>⟧.at link.old self.old)
            (⟦<L as Watched>⟧.at link.new self.new) result }
    {
        let piece = match self.ends.take_down(link, n) {
            Ok(piece) => piece,
            Err(stop) => return Err(stop),
        };
        match self.fronts.take(&piece) {
            Ok(()) => Ok(()),
            Err(FrontErr::Fault(refused)) => Err(Stop::FrontRefused {
                place: refused.place,
                fault: refused.kind,
            }),
            Err(FrontErr::Memory) => Err(Stop::Memory),
        }
    }
}
