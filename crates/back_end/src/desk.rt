ghost use Rattle.std.specs.Prelude.{◌≡◌, ◌<◌, ◌++◌, ◌&&◌, ◌||◌, not, false, true, Some, None, Result, IfOk, IfSome, OnOk};
ghost use Rattle.node_tree.specs.Numbers.{kept_before_step};
ghost use Rattle.node_binding.specs.Bindings.{empty_from, KnowsNothing};
ghost use Rattle.dom_breakpoints.specs.Watched.{unwatched};
ghost use Rattle.dom_search.specs.Searches.{no_searches};
ghost use Rattle.cdp_messages.specs.DomAsks.{fits_ask};
ghost use Rattle.cdp_messages.specs.Asked.{fits_command};
ghost use Rattle.client_views.specs.Moves.{frames_of_moves};
ghost use Rattle.page_forms.specs.Pages.{loaded_page, CanLoadPage};
ghost use Rattle.back_end.specs.States.{State};
ghost use Rattle.back_end.specs.Texts.{HasServedTexts};
ghost use Rattle.back_end.specs.LoadFrames.{AsksLoad};
ghost use Rattle.cdp_messages.specs.declared.command.Command.TheVariants as commands;
ghost use Rattle.cdp_messages.specs.Answers.{ReadsAsked};
ghost use Rattle.cdp_messages.specs.declared.command.Asked.{Asked as AskedValue};
ghost use Rattle.cdp_messages.specs.declared.command.Refused.{Refused as RefusedValue};
ghost use Rattle.back_end.specs.Steps.{ask_needs_on, asked_step, command_step, frame_step, missing, mode_asked, refusing, served_step};
ghost use Rattle.back_end.specs.Steps as steps;
ghost use Rattle.back_end.specs.Seats.{BothStandFor, DeskStandsFor, HasNumbersLeft, edits_in, enabled_agent};
ghost use Rattle.back_end.specs.Outside.{command_outward, asked_outward, frame_outward};
ghost use Rattle.back_end.specs.Guests.{CanHear, GuestStands, Hears, heard_step};

use crate::guest::Guest;
use crate::load_scan::LoadFrame;
use crate::side::PageSide;
use cdp_messages::{
    Asked, Command, DomAsk, ReadErr, Refused, ReplyBody, WhitespaceWord, Why, read_command,
    write_refused, write_reply,
};
use css_agent::CssAgent;
use dom_agent::DomAgent;
use dom_breakpoints::Watches;
use dom_search::Searches;
use shown_pages::Mode;
use std::alloc::{AllocError, Global};
use undo_marks::{Direction, History};

/// What a seat works with: whether the domains DOM and CSS are on, and what the client knows of the page, which nodes it
/// watches, and what its searches found.
#[derive(Drop)]
pub(crate) struct Desk {
    pub(crate) alloc: Global,
    pub(crate) is_on: bool,
    pub(crate) css: CssAgent,
    pub(crate) agent: DomAgent,
    pub(crate) watches: Watches,
    pub(crate) searches: Searches,
}

/// The mode that a client asks for; an absent word counts as `all`.
fn mode_asked(word: Option<WhitespaceWord>) -> Mode
    ensures { result ≡ mode_asked word }
{
    match word {
        Some(WhitespaceWord::Hidden) => Mode::NoBlank,
        Some(WhitespaceWord::Shown) | None => Mode::All,
    }
}

/// The client is shown what it asks for, where its DOM was off.
fn show_as_asked(agent: &mut DomAgent, was_on: bool, word: Option<WhitespaceWord>)
    requires { was_on ≡ false → KnowsNothing agent.old }
    ensures { agent.new ≡ enabled_agent was_on word agent.old }
{
    if !was_on {
        agent.set_mode(mode_asked(word));
    }
}

impl Desk {
    /// The desk of a client that has asked for nothing yet.
    pub(crate) fn new(alloc: Global) -> Desk
        ensures off { result.is_on ≡ false }
        ensures css { result.css ≡ false }
        ensures agent { result.agent ≡ empty_from 1 }
        ensures watches { result.watches ≡ unwatched }
        ensures searches { result.searches ≡ no_searches }
    {
        Desk {
            alloc,
            is_on: false,
            css: CssAgent::new(alloc),
            agent: DomAgent::new(alloc),
            watches: Watches::new(alloc),
            searches: Searches::new(alloc),
        }
    }

    /// Answers one frame: one that loads a page in its usual form was read token by token. The guest is told what becomes of the page by
    /// it.
    pub(crate) fn answer_frame(
        &mut self,
        history: &mut History,
        side: &mut PageSide,
        guest: &mut Option<Guest>,
        frame: &[u8],
        load: Option<LoadFrame>,
        own: bool,
        out: &mut Vec<u8>,
    ) -> Result<(), AllocError>
        requires known { IfSome load (λ f. own ≡ true) }
        requires asks { IfSome load (λ f. AsksLoad frame.now f.id (loaded_page f.page)) }
        requires can { IfSome load (λ f. CanLoadPage (loaded_page f.page)) }
        requires room { HasNumbersLeft self.old side.old }
        requires few { edits_in history.old < kept_before_step }
        requires standing { ∥ ((state : State) × BothStandFor self.old history.old side.old state) ∥₁ }
        requires can_hear { CanHear kept_before_step guest.old side.old }
        ensures stands { (state : State) → BothStandFor self.old history.old side.old state
            → OnOk result (BothStandFor self.new history.new side.new (frame_step own frame.now state).state) }
        ensures sent { (state : State) → BothStandFor self.old history.old side.old state
            → OnOk result (out.new.items ≡ out.old.items ++ frames_of_moves (frame_step own frame.now state).moves) }
        ensures told { (state other : State) → BothStandFor self.old history.old side.old state → GuestStands guest.old side.old other
            → OnOk result (Hears guest.old guest.new side.new (heard_step (frame_outward own frame.now state) other)) }
    {
        if let Some(load) = load {
            let LoadFrame { id, page } = load;
            return self.answer_loaded(history, side, guest, id, page, out);
        }
        let asked = read_command(self.alloc, frame, own);
        self.answer_asked(history, side, guest, asked, out)
    }

    /// Answers a frame, which asks this or is refused. The guest is told what becomes of the page by it.
    pub(crate) fn answer_asked(
        &mut self,
        history: &mut History,
        side: &mut PageSide,
        guest: &mut Option<Guest>,
        asked: Result<Asked, ReadErr>,
        out: &mut Vec<u8>,
    ) -> Result<(), AllocError>
        requires fits { IfOk asked (λ a. fits_command a.command ≡ true) }
        requires texts { IfOk asked (λ a. HasServedTexts a.command) }
        requires room { HasNumbersLeft self.old side.old }
        requires few { edits_in history.old < kept_before_step }
        requires standing { ∥ ((state : State) × BothStandFor self.old history.old side.old state) ∥₁ }
        requires can_hear { CanHear kept_before_step guest.old side.old }
        ensures stands { (r : Result AskedValue RefusedValue) (state : State) → ReadsAsked asked r
            → BothStandFor self.old history.old side.old state
            → OnOk result (BothStandFor self.new history.new side.new (asked_step r state).state) }
        ensures sent { (r : Result AskedValue RefusedValue) (state : State) → ReadsAsked asked r
            → BothStandFor self.old history.old side.old state
            → OnOk result (out.new.items ≡ out.old.items ++ frames_of_moves (asked_step r state).moves) }
        ensures told { (r : Result AskedValue RefusedValue) (state other : State) → ReadsAsked asked r
            → BothStandFor self.old history.old side.old state → GuestStands guest.old side.old other
            → OnOk result (Hears guest.old guest.new side.new (heard_step (asked_outward r state) other)) }
    {
        match asked {
            Ok(asked) => self.answer(history, side, guest, asked.id, asked.command, out),
            Err(fault) => match fault {
                ReadErr::Refused(refused) => write_refused(self.alloc, &refused, out),
                ReadErr::Memory => Err(AllocError),
            },
        }
    }

    /// Why a command is refused whatever it says: a domain that it needs is off.
    fn missing(&self, command: &Command) -> Option<Why>
        ensures { result ≡ missing self.now.is_on self.now.css command.now }
    {
        let domains = command.method().domains();
        let needs_on = domains.needs_dom();
        if needs_on && !self.is_on {
            return Some(Why::DomOff);
        }
        let needs_css = domains.needs_css();
        let css_on = self.css.is_on();
        if needs_css && !css_on {
            return Some(Why::CssOff);
        }
        None
    }

    /// Answers a command.
    fn answer(
        &mut self,
        history: &mut History,
        side: &mut PageSide,
        guest: &mut Option<Guest>,
        id: u64,
        command: Command,
        out: &mut Vec<u8>,
    ) -> Result<(), AllocError>
        requires command { fits_command command ≡ true }
        requires texts { HasServedTexts command }
        requires room { HasNumbersLeft self.old side.old }
        requires few { edits_in history.old < kept_before_step }
        requires standing { ∥ ((state : State) × BothStandFor self.old history.old side.old state) ∥₁ }
        requires can_hear { CanHear kept_before_step guest.old side.old }
        ensures stands { (state : State) → BothStandFor self.old history.old side.old state
            → OnOk result (BothStandFor self.new history.new side.new (command_step id command state).state) }
        ensures sent { (state : State) → BothStandFor self.old history.old side.old state
            → OnOk result (out.new.items ≡ out.old.items ++ frames_of_moves (command_step id command state).moves) }
        ensures told { (state other : State) → BothStandFor self.old history.old side.old state → GuestStands guest.old side.old other
            → OnOk result (Hears guest.old guest.new side.new (heard_step (command_outward command state) other)) }
    {
        match self.missing(&command) {
            Some(why) => self.refuse(id, why, out),
            None => self.serve(history, side, guest, id, command, out),
        }
    }

    /// Serves a command, where the domains are on that it needs.
    fn serve(
        &mut self,
        history: &mut History,
        side: &mut PageSide,
        guest: &mut Option<Guest>,
        id: u64,
        command: Command,
        out: &mut Vec<u8>,
    ) -> Result<(), AllocError>
        requires command { fits_command command ≡ true }
        requires met { missing self.old.is_on self.old.css command ≡ None }
        requires texts { HasServedTexts command }
        requires room { HasNumbersLeft self.old side.old }
        requires few { edits_in history.old < kept_before_step }
        requires standing { ∥ ((state : State) × BothStandFor self.old history.old side.old state) ∥₁ }
        requires can_hear { CanHear kept_before_step guest.old side.old }
        ensures stands { (state : State) → BothStandFor self.old history.old side.old state
            → OnOk result (BothStandFor self.new history.new side.new (command_step id command state).state) }
        ensures sent { (state : State) → BothStandFor self.old history.old side.old state
            → OnOk result (out.new.items ≡ out.old.items ++ frames_of_moves (command_step id command state).moves) }
        ensures told { (state other : State) → BothStandFor self.old history.old side.old state → GuestStands guest.old side.old other
            → OnOk result (Hears guest.old guest.new side.new (heard_step (command_outward command state) other)) }
    {
        match command {
            Command::DomEnable { include_whitespace } => {
                self.enable(side, id, include_whitespace, out)
            }
            Command::DomDisable => self.disable(history, side, id, out),
            Command::AskDom(ask) => self.ask_agent(side, id, &ask, out),
            Command::EditDom(edit) => self.answer_tree_edit(history, side, guest, id, edit, out),
            Command::AskSearch(ask) => self.answer_search(side, id, &ask, out),
            Command::MarkUndoableState => self.end_group(history, side, id, out),
            Command::Undo => self.take_group(history, side, guest, id, Direction::Undo, out),
            Command::Redo => self.take_group(history, side, guest, id, Direction::Redo, out),
            Command::CssEnable => self.enable_css(side, id, out),
            Command::CssDisable => self.disable_css(side, id, out),
            Command::AskCss(ask) => self.answer_styles(side, id, &ask, out),
            Command::EditCss(edit) => self.answer_sheet_edit(history, side, guest, id, &edit, out),
            Command::SetBreakpoint { node, kind } => self.watch(side, id, node, kind, true, out),
            Command::RemoveBreakpoint { node, kind } => {
                self.watch(side, id, node, kind, false, out)
            }
            Command::ReplayLoad { params } => {
                self.answer_load(history, side, guest, id, params.as_value(), out)
            }
            Command::ReplayAct { params } => {
                self.answer_act(history, side, guest, id, params.as_value(), out)
            }
        }
    }

    pub(crate) fn refuse(&self, id: u64, why: Why, out: &mut Vec<u8>) -> Result<(), AllocError>
        ensures { (state : State) → OnOk result (out.new.items ≡ out.old.items ++ frames_of_moves (refusing (Some id) why state).moves) }
    {
        let refused = Refused { id: Some(id), why };
        write_refused(self.alloc, &refused, out)
    }

    /// `DOM.enable`: where DOM is off, the client is shown what it asks for from now on.
    fn enable(
        &mut self,
        side: &PageSide,
        id: u64,
        word: Option<WhitespaceWord>,
        out: &mut Vec<u8>,
    ) -> Result<(), AllocError>
        requires standing { ∥ ((state : State) × DeskStandsFor self.old side.now state) ∥₁ }
        ensures stands { (state : State) → DeskStandsFor self.old side.now state
            → OnOk result (DeskStandsFor self.new side.now (served_step id (commands.DomEnable word) state).state) }
        ensures sent { (state : State)
            → OnOk result (out.new.items ≡ out.old.items
            ++ frames_of_moves (served_step id (commands.DomEnable word) state).moves) }
    {
        // The clauses alone speak of the page.
        let _ = side;
        write_reply(self.alloc, id, &ReplyBody::Nothing, out)?;
        show_as_asked(&mut self.agent, self.is_on, word);
        self.is_on = true;
        Ok(())
    }

    /// `DOM.disable`: the client is shown all nodes from now on.
    fn disable(
        &mut self,
        history: &mut History,
        side: &PageSide,
        id: u64,
        out: &mut Vec<u8>,
    ) -> Result<(), AllocError>
        requires on { self.old.is_on ≡ true }
        ensures stands { (state : State) → BothStandFor self.old history.old side.now state
            → OnOk result (BothStandFor self.new history.new side.now (command_step id commands.DomDisable state).state) }
        ensures sent { (state : State) → DeskStandsFor self.old side.now state
            → OnOk result (out.new.items ≡ out.old.items ++ frames_of_moves (command_step id commands.DomDisable state).moves) }
    {
        write_reply(self.alloc, id, &ReplyBody::Nothing, out)?;
        self.css.switch(false, side.book(), out)?;
        self.is_on = false;
        self.agent.reset();
        self.agent.set_mode(Mode::All);
        self.watches.clear();
        self.searches.clear();
        history.clear();
        Ok(())
    }

    /// Whether DOM is on after an ask that was carried out.
    fn is_on_after(&self, ask: &DomAsk) -> bool
        ensures { result ≡ (self.now.is_on || steps.turns_on ask.now) }
    {
        let turns_on = ask.method().domains().turns_dom_on();
        self.is_on || turns_on
    }

    fn ask_agent(
        &mut self,
        side: &PageSide,
        id: u64,
        ask: &DomAsk,
        out: &mut Vec<u8>,
    ) -> Result<(), AllocError>
        requires ask { fits_ask ask.now ≡ true }
        requires on { (ask_needs_on ask.now && not self.old.is_on) ≡ false }
        requires room { HasNumbersLeft self.old side.now }
        requires standing { ∥ ((state : State) × DeskStandsFor self.old side.now state) ∥₁ }
        ensures stands { (state : State) → DeskStandsFor self.old side.now state
            → OnOk result (DeskStandsFor self.new side.now (command_step id (commands.AskDom ask.now) state).state) }
        ensures sent { (state : State) → DeskStandsFor self.old side.now state
            → OnOk result (out.new.items ≡ out.old.items ++ frames_of_moves (command_step id (commands.AskDom ask.now) state).moves) }
    {
        self.agent.ask(side.page(), id, ask, out)?;
        self.is_on = self.is_on_after(ask);
        Ok(())
    }
}
