// The pauses that a script's edits come to.
ghost use Rattle.std.specs.Prelude.{◌≡◌, ◌<◌, ◌+◌, ◌++◌, ◌∷◌, [], ◌≤◌, Some, IfOk, OnOk};
ghost use Rattle.node_tree.specs.Numbers.{drawn_before_edit, drawn_by_pause, drawn_amid_act, drawn_by_edit};
ghost use Rattle.page_tree.specs.EditFaults.{CanApply};
ghost use Rattle.page_tree.specs.Edits.{after, back_tree};
ghost use Rattle.client_views.specs.Moves.{met, frames_of_moves};
ghost use Rattle.back_end.specs.States.{State, page_nodes};
ghost use Rattle.back_end.specs.Steps.{pause_before, pause_step, script_step};
ghost use Rattle.back_end.specs.Texts.{EditHasTexts};
ghost use Rattle.undo_marks.specs.declared.inverse_lists.Inverse.TheVariants as kept;
ghost use Rattle.back_end.specs.Guests.{CanHear, GuestHasTexts, GuestStands, Hears, heard_one};
ghost use Rattle.back_end.specs.Seats.{HasBegun, IsPause, attribute_pause, removal_pause, subtree_watch_pause, DeskStandsFor};

use crate::desk::Desk;
use crate::guest::Guest;
use crate::side::PageSide;
use cdp_messages::{Event, PauseData, write_event};
use dom_breakpoints::{Pause, WatchKind};
use page_tree::TreeEdit;
use std::alloc::AllocError;

impl Desk {
    /// `Debugger.paused`
    fn tell_paused(&self, why: PauseData, out: &mut Vec<u8>) -> Result<(), AllocError>
        ensures { OnOk result (out.new.items ≡ out.old.items ++ frames_of_moves (met why ∷ [])) }
    {
        write_event(self.alloc, &Event::Paused(why), out)
    }

    /// Tells a pause by an attribute watch; the node becomes known first.
    fn tell_attribute(
        &mut self,
        side: &PageSide,
        node: u64,
        out: &mut Vec<u8>,
    ) -> Result<(), AllocError>
        requires ids { self.old.agent.next < drawn_before_edit }
        ensures few { OnOk result (self.new.agent.next ≤ self.old.agent.next + drawn_by_pause) }
        ensures stands { (state : State) → DeskStandsFor self.old side.now state → HasBegun state
            → OnOk result (DeskStandsFor self.new side.now (pause_step (Some (attribute_pause node)) state).state) }
        ensures sent { (state : State) → DeskStandsFor self.old side.now state → HasBegun state
            → OnOk result (out.new.items ≡ out.old.items ++ frames_of_moves (pause_step (Some (attribute_pause node)) state).moves) }
    {
        let node = self.push(side, node, out)?;
        self.tell_paused(PauseData::Attribute { node }, out)
    }

    /// Tells a pause by a watch on a node that goes; the node becomes known first.
    fn tell_removal(
        &mut self,
        side: &PageSide,
        node: u64,
        out: &mut Vec<u8>,
    ) -> Result<(), AllocError>
        requires ids { self.old.agent.next < drawn_before_edit }
        ensures few { OnOk result (self.new.agent.next ≤ self.old.agent.next + drawn_by_pause) }
        ensures stands { (state : State) → DeskStandsFor self.old side.now state → HasBegun state
            → OnOk result (DeskStandsFor self.new side.now (pause_step (Some (removal_pause node)) state).state) }
        ensures sent { (state : State) → DeskStandsFor self.old side.now state → HasBegun state
            → OnOk result (out.new.items ≡ out.old.items ++ frames_of_moves (pause_step (Some (removal_pause node)) state).moves) }
    {
        let node = self.push(side, node, out)?;
        self.tell_paused(PauseData::Removed { node }, out)
    }

    /// Tells a pause by a subtree watch; the node becomes known first, and then the target where it is shown.
    fn tell_subtree(
        &mut self,
        side: &PageSide,
        node: u64,
        target: u64,
        insertion: bool,
        out: &mut Vec<u8>,
    ) -> Result<(), AllocError>
        requires ids { self.old.agent.next < drawn_before_edit }
        ensures few { OnOk result (self.new.agent.next ≤ self.old.agent.next + drawn_by_pause) }
        ensures stands { (state : State) → DeskStandsFor self.old side.now state → HasBegun state
            → OnOk result (DeskStandsFor self.new side.now (pause_step (Some (subtree_watch_pause node target insertion)) state).state) }
        ensures sent { (state : State) → DeskStandsFor self.old side.now state → HasBegun state
            → OnOk result (out.new.items ≡ out.old.items
            ++ frames_of_moves (pause_step (Some (subtree_watch_pause node target insertion)) state).moves) }
    {
        let node = self.push(side, node, out)?;
        let target = self.push(side, target, out)?;
        let why = PauseData::Subtree {
            node,
            target,
            insertion,
        };
        self.tell_paused(why, out)
    }

    /// Tells a pause that an edit comes to.
    fn tell_pause(
        &mut self,
        side: &PageSide,
        pause: Pause,
        out: &mut Vec<u8>,
    ) -> Result<(), AllocError>
        requires ids { self.old.agent.next < drawn_before_edit }
        ensures few { OnOk result (self.new.agent.next ≤ self.old.agent.next + drawn_by_pause) }
        ensures stands { (state : State) → DeskStandsFor self.old side.now state → IsPause state.client.watched (page_nodes state) pause
            → OnOk result (DeskStandsFor self.new side.now (pause_step (Some pause) state).state) }
        ensures sent { (state : State) → DeskStandsFor self.old side.now state → IsPause state.client.watched (page_nodes state) pause
            → OnOk result (out.new.items ≡ out.old.items ++ frames_of_moves (pause_step (Some pause) state).moves) }
    {
        match (pause.kind, pause.target) {
            (WatchKind::Attribute, _) => self.tell_attribute(side, pause.node, out),
            (WatchKind::Removed, _) => self.tell_removal(side, pause.node, out),
            (WatchKind::Subtree, Some(target)) => {
                self.tell_subtree(side, pause.node, target, pause.insertion, out)
            }
            (WatchKind::Subtree, None) => Ok(()),
        }
    }

    /// Tells the pause that an edit by a script comes to, if it comes to one.
    pub(crate) fn pause(
        &mut self,
        side: &PageSide,
        edit: &TreeEdit,
        out: &mut Vec<u8>,
    ) -> Result<(), AllocError>
        requires can { CanApply side.now.page.next edit.now side.now.page.tree }
        requires ids { self.old.agent.next < drawn_before_edit }
        ensures few { OnOk result (self.new.agent.next ≤ self.old.agent.next + drawn_by_pause) }
        ensures stands { (state : State) → DeskStandsFor self.old side.now state
            → OnOk result (DeskStandsFor self.new side.now (pause_before edit.now state).state) }
        ensures sent { (state : State) → DeskStandsFor self.old side.now state
            → OnOk result (out.new.items ≡ out.old.items ++ frames_of_moves (pause_before edit.now state).moves) }
    {
        match self.watches.pause_for(side.page(), edit) {
            Some(pause) => self.tell_pause(side, pause, out),
            None => Ok(()),
        }
    }

    /// Carries out an edit by a script that the page takes: its pause is told first. Gives the edit that leads back.
    pub(crate) fn apply_by_script(
        &mut self,
        side: &mut PageSide,
        guest: &mut Option<Guest>,
        edit: TreeEdit,
        out: &mut Vec<u8>,
    ) -> Result<TreeEdit, AllocError>
        requires can { CanApply side.old.page.next edit side.old.page.tree }
        requires ids { self.old.agent.next < drawn_amid_act }
        requires serials { side.old.page.next < drawn_before_edit }
        requires sheets { side.old.sheets.next < drawn_before_edit }
        requires can_hear { CanHear 1 guest.old side.old }
        ensures page { OnOk result (side.new.page ≡ after edit side.old.page) }
        ensures kept { side.new.sheets ≡ side.old.sheets }
        ensures few { OnOk result (self.new.agent.next ≤ self.old.agent.next + drawn_by_edit) }
        ensures back { IfOk result (λ back. back ≡ back_tree edit side.old.page.tree) }
        ensures stands { (state : State) → DeskStandsFor self.old side.old state → EditHasTexts edit
            → OnOk result (DeskStandsFor self.new side.new (script_step edit state).state) }
        ensures sent { (state : State) → DeskStandsFor self.old side.old state
            → OnOk result (out.new.items ≡ out.old.items ++ frames_of_moves (script_step edit state).moves) }
        ensures told { (other : State) → GuestStands guest.old side.old other → GuestHasTexts guest.old edit
            → OnOk result (Hears guest.old guest.new side.new (heard_one (kept.Tree edit) other)) }
    {
        self.pause(side, &edit, out)?;
        self.apply(side, guest, edit, out)
    }
}
