// What a client asks of searches.
ghost use Rattle.std.specs.Prelude.{◌≡◌, [], ◌∷◌, ◌++◌, cond, filter, is_some, IfOk, OnOk, true};
ghost use Rattle.page_tree.specs.Pages.{find_in};
ghost use Rattle.shown_pages.specs.ShownPages.{shown_page};
ghost use Rattle.client_views.specs.Moves.{frames_of_moves};
ghost use Rattle.cdp_messages.specs.declared.command.Command.TheVariants as commands;
ghost use Rattle.cdp_messages.specs.SearchIds.{search_in};
ghost use Rattle.back_end.specs.States.{State};
ghost use Rattle.back_end.specs.Steps.{command_step, perform_step, results_step, results_asked, discard_step, search_step, search_why};
ghost use Rattle.back_end.specs.Seats.{DeskStandsFor, HasNumbersLeft};

use crate::desk::Desk;
use crate::side::PageSide;
use cdp_messages::{ReplyBody, SearchAsk, Why, search_in, write_reply};
use dom_search::{SearchFault, found};
use page_tree::Page;
use shown_pages::{Mode, ShownNode};
use std::alloc::{AllocError, Global};

/// Why nothing of a search is given, as a client is told it.
fn search_why(fault: SearchFault) -> Why
    ensures { result ≡ search_why fault }
{
    match fault {
        SearchFault::NoSearch => Why::NoSearch,
        SearchFault::SearchRange => Why::BadSearchRange,
    }
}

/// Adds the serial of a node that is shown.
fn push_if(is_shown: bool, serial: u64, shown: &mut Vec<u64>) -> Result<(), AllocError>
    ensures { OnOk result (shown.new.items ≡ shown.old.items ++ cond is_shown (serial ∷ []) []) }
{
    if is_shown {
        shown.push(serial)?;
    }
    Ok(())
}

/// The serials of those nodes that the mode shows, in their order.
fn shown_among(
    alloc: Global,
    page: &Page,
    serials: &[u64],
    mode: Mode,
) -> Result<Vec<u64>, AllocError>
    ensures { IfOk result (λ v. v.items
        ≡ filter (λ s. is_some (find_in s (shown_page mode page.now).tree)) serials.now) }
{
    let mut shown = Vec::new(alloc);
    for serial in serials {
        let is_shown = ShownNode::find(page, *serial, mode).is_some();
        push_if(is_shown, *serial, &mut shown)?;
    }
    Ok(shown)
}

impl Desk {
    /// `DOM.performSearch`
    fn perform_search(
        &mut self,
        side: &PageSide,
        id: u64,
        query: &str,
        out: &mut Vec<u8>,
    ) -> Result<(), AllocError>
        requires room { HasNumbersLeft self.old side.now }
        ensures stands { (state : State) → DeskStandsFor self.old side.now state
            → OnOk result (DeskStandsFor self.new side.now (perform_step id query.now state).state) }
        ensures sent { (state : State) → DeskStandsFor self.old side.now state
            → OnOk result (out.new.items ≡ out.old.items ++ frames_of_moves (perform_step id query.now state).moves) }
    {
        let page = side.page();
        let all = found(self.alloc, page, query)?;
        let serials = shown_among(self.alloc, page, all.as_slice(), self.agent.mode())?;
        let count = serials.len() as u64;
        let search = self.searches.keep(serials)?;
        write_reply(self.alloc, id, &ReplyBody::Search { search, count }, out)
    }

    /// `DOM.getSearchResults`: the nodes become known in turn, and the reply has their ids, 0 for one that is gone.
    fn get_search_results(
        &mut self,
        side: &PageSide,
        id: u64,
        search: &str,
        from: u64,
        to: u64,
        out: &mut Vec<u8>,
    ) -> Result<(), AllocError>
        requires on { self.old.is_on ≡ true }
        requires room { HasNumbersLeft self.old side.now }
        requires standing { ∥ ((state : State) × DeskStandsFor self.old side.now state) ∥₁ }
        ensures stands { (state : State) → DeskStandsFor self.old side.now state
            → OnOk result (DeskStandsFor self.new side.now (results_step id (results_asked search.now from to state) state).state) }
        ensures sent { (state : State) → DeskStandsFor self.old side.now state
            → OnOk result (out.new.items ≡ out.old.items
            ++ frames_of_moves (results_step id (results_asked search.now from to state) state).moves) }
    {
        let page = side.page();
        if !self.agent.has_document(page) {
            return self.refuse(id, Why::NotPushed, out);
        }
        let Some(search) = search_in(search) else {
            return self.refuse(id, Why::NoSearch, out);
        };
        match self.searches.slice(search, from, to) {
            Ok(serials) => self.agent.push_by_serials(page, id, serials, out),
            Err(fault) => self.refuse(id, search_why(fault), out),
        }
    }

    /// `DOM.discardSearchResults`
    fn discard_search_results(
        &mut self,
        side: &PageSide,
        id: u64,
        search: &str,
        out: &mut Vec<u8>,
    ) -> Result<(), AllocError>
        ensures stands { (state : State) → DeskStandsFor self.old side.now state
            → OnOk result (DeskStandsFor self.new side.now (discard_step id (search_in search.now) state).state) }
        ensures sent { (state : State) → DeskStandsFor self.old side.now state
            → OnOk result (out.new.items ≡ out.old.items ++ frames_of_moves (discard_step id (search_in search.now) state).moves) }
    {
        // The clauses alone speak of the page.
        let _ = side;
        let Some(search) = search_in(search) else {
            return self.refuse(id, Why::NoSearch, out);
        };
        match self.searches.discard(search) {
            Ok(()) => write_reply(self.alloc, id, &ReplyBody::Nothing, out),
            Err(_) => self.refuse(id, Why::NoSearch, out),
        }
    }

    fn ask_search(
        &mut self,
        side: &PageSide,
        id: u64,
        ask: &SearchAsk,
        out: &mut Vec<u8>,
    ) -> Result<(), AllocError>
        requires on { self.old.is_on ≡ true }
        requires room { HasNumbersLeft self.old side.now }
        requires standing { ∥ ((state : State) × DeskStandsFor self.old side.now state) ∥₁ }
        ensures stands { (state : State) → DeskStandsFor self.old side.now state
            → OnOk result (DeskStandsFor self.new side.now (search_step id ask.now state).state) }
        ensures sent { (state : State) → DeskStandsFor self.old side.now state
            → OnOk result (out.new.items ≡ out.old.items ++ frames_of_moves (search_step id ask.now state).moves) }
    {
        match ask {
            SearchAsk::PerformSearch { query, shadow: _ } => {
                self.perform_search(side, id, query.as_str(), out)
            }
            SearchAsk::GetSearchResults { search, from, to } => {
                self.get_search_results(side, id, search.as_str(), *from, *to, out)
            }
            SearchAsk::DiscardSearchResults { search } => {
                self.discard_search_results(side, id, search.as_str(), out)
            }
        }
    }

    /// What is asked of searches.
    pub(crate) fn answer_search(
        &mut self,
        side: &PageSide,
        id: u64,
        ask: &SearchAsk,
        out: &mut Vec<u8>,
    ) -> Result<(), AllocError>
        requires on { self.old.is_on ≡ true }
        requires room { HasNumbersLeft self.old side.now }
        requires standing { ∥ ((state : State) × DeskStandsFor self.old side.now state) ∥₁ }
        ensures stands { (state : State) → DeskStandsFor self.old side.now state
            → OnOk result (DeskStandsFor self.new side.now (command_step id (commands.AskSearch ask.now) state).state) }
        ensures sent { (state : State) → DeskStandsFor self.old side.now state
            → OnOk result (out.new.items ≡ out.old.items
            ++ frames_of_moves (command_step id (commands.AskSearch ask.now) state).moves) }
    {
        self.ask_search(side, id, ask, out)
    }
}
