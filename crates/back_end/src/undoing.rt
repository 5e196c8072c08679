// A client takes its edits back, and does them again.
ghost use Rattle.std.specs.Prelude.{◌≡◌, ◌+◌, ◌<◌, ◌++◌, map, length, IfOk, OnOk, true};
ghost use Rattle.node_tree.specs.Numbers.{drawn_before_edit, kept_before_step};
ghost use Rattle.style_edits.specs.Splices.{FitsSplice, after_splice, back_splice};
ghost use Rattle.undo_marks.specs.Changes.{AllTaken, after_all, back_all};
ghost use Rattle.undo_marks.specs.SavedEdits.{saved_of, saved_sheet, page_after, way_back, TakesSheet};
ghost use Rattle.client_views.specs.Moves.{frames_of_moves};
ghost use Rattle.back_end.specs.States.{State, TakesWell};
ghost use Rattle.cdp_messages.specs.declared.command.Command.TheVariants as commands;
ghost use Rattle.back_end.specs.Steps.{command_step, kept_step, kept_steps, splice_step, taking_command};
ghost use Rattle.back_end.specs.Seats.{BothStandFor, DeskStandsFor, HasNumbersLeft, edits_in};
ghost use Rattle.undo_marks.specs.declared.inverse_lists.Inverse.TheVariants as kept;
ghost use Rattle.back_end.specs.Outside.{command_outward};
ghost use Rattle.back_end.specs.Guests.{CanHear, GuestStands, Hears, heard_one, heard_all, heard_step};

use crate::desk::Desk;
use crate::guest::{Guest, tell_guest};
use crate::side::PageSide;
use cdp_messages::{Event, ReplyBody, Why, write_reply};
use std::alloc::AllocError;
use style_edits::Splice;
use undo_marks::{Direction, History, Inverse, Popped};

impl Desk {
    /// `DOM.markUndoableState`
    pub(crate) fn end_group(
        &mut self,
        history: &mut History,
        side: &PageSide,
        id: u64,
        out: &mut Vec<u8>,
    ) -> Result<(), AllocError>
        requires on { self.old.is_on ≡ true }
        ensures stands { (state : State) → BothStandFor self.old history.old side.now state
            → OnOk result (BothStandFor self.new history.new side.now (command_step id commands.MarkUndoableState state).state) }
        ensures sent { (state : State) → DeskStandsFor self.old side.now state
            → OnOk result (out.new.items ≡ out.old.items ++ frames_of_moves (command_step id commands.MarkUndoableState state).moves) }
    {
        // The clauses alone speak of the page.
        let _ = side;
        history.mark();
        write_reply(self.alloc, id, &ReplyBody::Nothing, out)
    }

    /// Makes a splice out of a history, and tells it to whom CSS is on. Gives the splice that leads back.
    fn put_back(
        &self,
        side: &mut PageSide,
        guest: &mut Option<Guest>,
        splice: Splice,
        out: &mut Vec<u8>,
    ) -> Result<Splice, AllocError>
        requires fits { FitsSplice splice side.old.sheets.entries }
        ensures page { side.new.page ≡ side.old.page }
        ensures entries { OnOk result (side.new.sheets.entries ≡ after_splice splice side.old.sheets.entries) }
        ensures numbers { OnOk result (side.new.sheets.next ≡ side.old.sheets.next) }
        ensures medium { OnOk result (side.new.sheets.medium ≡ side.old.sheets.medium) }
        ensures back { IfOk result (λ back. back ≡ back_splice splice side.old.sheets.entries) }
        ensures stands { (state : State) → DeskStandsFor self.now side.old state
            → TakesSheet splice (map saved_sheet side.old.sheets.entries)
            → OnOk result (DeskStandsFor self.now side.new (splice_step splice state).state) }
        ensures sent { (state : State) → DeskStandsFor self.now side.old state
            → OnOk result (out.new.items ≡ out.old.items ++ frames_of_moves (splice_step splice state).moves) }
        ensures told { (other : State) → GuestStands guest.old side.old other → TakesSheet splice (map saved_sheet side.old.sheets.entries)
            → OnOk result (Hears guest.old guest.new side.new (heard_one (kept.Sheet splice) other)) }
    {
        let sheet = splice.sheet;
        let back = side.sheets.put_back(splice)?;
        let event = Event::StyleSheetChanged { sheet };
        self.css.tell(&event, out)?;
        tell_guest(guest, &event)?;
        Ok(back)
    }

    /// Carries out an edit out of a history, and tells it. Gives the edit that leads back.
    fn apply_kept(
        &mut self,
        side: &mut PageSide,
        guest: &mut Option<Guest>,
        edit: Inverse,
        out: &mut Vec<u8>,
    ) -> Result<Inverse, AllocError>
        requires taken { ∥ TakesWell side.old.page.next edit (saved_of side.old.page.tree side.old.sheets.entries) ∥₁ }
        requires ids { self.old.agent.next < drawn_before_edit }
        requires serials { side.old.page.next < drawn_before_edit }
        requires sheets { side.old.sheets.next < drawn_before_edit }
        requires can_hear { CanHear 1 guest.old side.old }
        ensures few { OnOk result (self.new.agent.next < self.old.agent.next + 2) }
        ensures saved { OnOk result (saved_of side.new.page.tree side.new.sheets.entries
            ≡ page_after edit (saved_of side.old.page.tree side.old.sheets.entries)) }
        ensures next { OnOk result (side.new.page.next ≡ side.old.page.next) }
        ensures numbers { OnOk result (side.new.sheets.next ≡ side.old.sheets.next) }
        ensures back { IfOk result (λ back. back ≡ way_back edit (saved_of side.old.page.tree side.old.sheets.entries)) }
        ensures stands { (state : State) → DeskStandsFor self.old side.old state
            → TakesWell side.old.page.next edit (saved_of side.old.page.tree side.old.sheets.entries)
            → OnOk result (DeskStandsFor self.new side.new (kept_step edit state).state) }
        ensures sent { (state : State) → DeskStandsFor self.old side.old state
            → OnOk result (out.new.items ≡ out.old.items ++ frames_of_moves (kept_step edit state).moves) }
        ensures told { (other : State) → GuestStands guest.old side.old other
            → TakesWell side.old.page.next edit (saved_of side.old.page.tree side.old.sheets.entries)
            → OnOk result (Hears guest.old guest.new side.new (heard_one edit other)) }
    {
        match edit {
            Inverse::Tree(edit) => {
                let back = self.apply(side, guest, edit, out)?;
                Ok(Inverse::Tree(back))
            }
            Inverse::Sheet(splice) => {
                let back = self.put_back(side, guest, splice, out)?;
                Ok(Inverse::Sheet(back))
            }
        }
    }

    /// Carries out edits out of a history, one after the other. Gives the edits that lead back, in the same order.
    fn apply_all(
        &mut self,
        side: &mut PageSide,
        guest: &mut Option<Guest>,
        edits: Vec<Inverse>,
        out: &mut Vec<u8>,
    ) -> Result<Vec<Inverse>, AllocError>
        requires taken { ∥ AllTaken page_after (TakesWell side.old.page.next) edits.items
            (saved_of side.old.page.tree side.old.sheets.entries) ∥₁ }
        requires ids { self.old.agent.next + length edits.items < drawn_before_edit }
        requires serials { side.old.page.next < drawn_before_edit }
        requires sheets { side.old.sheets.next < drawn_before_edit }
        requires can_hear { CanHear (length edits.items) guest.old side.old }
        ensures saved { OnOk result (saved_of side.new.page.tree side.new.sheets.entries
            ≡ after_all page_after edits.items (saved_of side.old.page.tree side.old.sheets.entries)) }
        ensures next { OnOk result (side.new.page.next ≡ side.old.page.next) }
        ensures backs { IfOk result (λ backs. backs.items
            ≡ back_all page_after way_back edits.items (saved_of side.old.page.tree side.old.sheets.entries)) }
        ensures stands { (state : State) → DeskStandsFor self.old side.old state
            → AllTaken page_after (TakesWell side.old.page.next) edits.items (saved_of side.old.page.tree side.old.sheets.entries)
            → OnOk result (DeskStandsFor self.new side.new (kept_steps edits.items state).state) }
        ensures sent { (state : State) → DeskStandsFor self.old side.old state
            → AllTaken page_after (TakesWell side.old.page.next) edits.items (saved_of side.old.page.tree side.old.sheets.entries)
            → OnOk result (out.new.items ≡ out.old.items ++ frames_of_moves (kept_steps edits.items state).moves) }
        ensures told { (other : State) → GuestStands guest.old side.old other
            → AllTaken page_after (TakesWell side.old.page.next) edits.items (saved_of side.old.page.tree side.old.sheets.entries)
            → OnOk result (Hears guest.old guest.new side.new (heard_all edits.items other)) }
    {
        let mut backs = Vec::new(self.alloc);
        for edit in edits {
            let back = self.apply_kept(side, guest, edit, out)?;
            backs.push(back)?;
        }
        Ok(backs)
    }

    /// `DOM.undo` and `DOM.redo`, which are refused where a change that is not the client's emptied the history.
    pub(crate) fn take_group(
        &mut self,
        history: &mut History,
        side: &mut PageSide,
        guest: &mut Option<Guest>,
        id: u64,
        direction: Direction,
        out: &mut Vec<u8>,
    ) -> Result<(), AllocError>
        requires on { self.old.is_on ≡ true }
        requires room { HasNumbersLeft self.old side.old }
        requires few { edits_in history.old < kept_before_step }
        requires standing { ∥ ((state : State) × BothStandFor self.old history.old side.old state) ∥₁ }
        requires can_hear { CanHear kept_before_step guest.old side.old }
        ensures stands { (state : State) → BothStandFor self.old history.old side.old state
            → OnOk result (BothStandFor self.new history.new side.new (command_step id (taking_command direction) state).state) }
        ensures sent { (state : State) → BothStandFor self.old history.old side.old state
            → OnOk result (out.new.items ≡ out.old.items ++ frames_of_moves (command_step id (taking_command direction) state).moves) }
        ensures told { (state other : State) → BothStandFor self.old history.old side.old state → GuestStands guest.old side.old other
            → OnOk result (Hears guest.old guest.new side.new (heard_step (command_outward (taking_command direction) state) other)) }
    {
        match history.pop(direction) {
            Popped::Group(edits) => {
                let backs = self.apply_all(side, guest, edits.into_vec(), out)?;
                history.push(direction, backs)?;
                write_reply(self.alloc, id, &ReplyBody::Nothing, out)
            }
            Popped::Nothing => write_reply(self.alloc, id, &ReplyBody::Nothing, out),
            Popped::Crossed => self.refuse(id, Why::Crossed, out),
        }
    }
}
