// A client's edits of the tree.
ghost use Rattle.std.specs.Prelude.{◌≡◌, ◌+◌, ◌<◌, ◌++◌, true, map, None, Ok, is_some, IfOk, OnOk};
ghost use Rattle.node_tree.specs.Numbers.{kept_before_note, drawn_before_edit, kept_before_step, drawn_before_call};
ghost use Rattle.page_tree.specs.Edits.{after, back_tree};
ghost use Rattle.page_tree.specs.EditFaults.{CanApply, move_fault, copy_fault};
ghost use Rattle.undo_marks.specs.Changes.{back_all};
ghost use Rattle.undo_marks.specs.Marks.{entry_count, noted, noted_singly};
ghost use Rattle.undo_marks.specs.SavedEdits.{saved_of, page_after, way_back};
ghost use Rattle.undo_marks.specs.declared.inverse_lists.Inverse.TheVariants as kept;
ghost use Rattle.client_views.specs.Moves.{frames_of_moves};
ghost use Rattle.back_end.specs.declared.node_edits.TreeWish.TheVariants.{MoveNode, CopyNode};
ghost use Rattle.back_end.specs.States.{State};
ghost use Rattle.back_end.specs.Plans.{node_edit_fault, node_edit_plan, node_put};
ghost use Rattle.cdp_messages.specs.declared.command.Command.TheVariants as commands;
ghost use Rattle.back_end.specs.Texts.{EditHasTexts, HasTreeTexts, IsPlainEdit};
ghost use Rattle.back_end.specs.Steps.{command_step, edit_step, idle, node_edit_step, plan_step, put_answer};
ghost use Rattle.back_end.specs.Seats.{BothStandFor, DeskStandsFor, HasBegun, HasNumbersLeft, edits_in};
ghost use Rattle.back_end.specs.Outside.{command_outward, tree_outward};
ghost use Rattle.back_end.specs.Guests.{CanHear, GuestHasTexts, GuestStands, Hears, heard_one, heard_plan, heard_step};

use crate::desk::Desk;
use crate::guest::Guest;
use crate::node_edits::{TreeWish, lowered};
use crate::own::edit_why;
use crate::side::PageSide;
use crate::trees::copied_tree;
use cdp_messages::{DomEdit, ReplyBody, write_reply};
use page_tree::TreeEdit;
use std::alloc::AllocError;
use undo_marks::{History, Inverse};

impl Desk {
    /// Carries out a client's edit that the page takes, tells it, and notes the edit that leads back.
    fn apply_by_client(
        &mut self,
        history: &mut History,
        side: &mut PageSide,
        guest: &mut Option<Guest>,
        edit: TreeEdit,
        out: &mut Vec<u8>,
    ) -> Result<(), AllocError>
        requires can { CanApply side.old.page.next edit side.old.page.tree }
        requires notes { entry_count history.old.past < kept_before_note }
        requires ids { self.old.agent.next < drawn_before_edit }
        requires serials { side.old.page.next < drawn_before_edit }
        requires sheets { side.old.sheets.next < drawn_before_edit }
        requires can_hear { CanHear 1 guest.old side.old }
        ensures page { OnOk result (side.new.page ≡ after edit side.old.page) }
        ensures kept { side.new.sheets ≡ side.old.sheets }
        ensures few { OnOk result (self.new.agent.next < self.old.agent.next + 2) }
        ensures noted { OnOk result (history.new ≡ noted (kept.Tree (back_tree edit side.old.page.tree)) history.old) }
        ensures stands { (state : State) → DeskStandsFor self.old side.old state → EditHasTexts edit
            → OnOk result (DeskStandsFor self.new side.new (edit_step edit state).state) }
        ensures sent { (state : State) → DeskStandsFor self.old side.old state
            → OnOk result (out.new.items ≡ out.old.items ++ frames_of_moves (edit_step edit state).moves) }
        ensures told { (other : State) → GuestStands guest.old side.old other → GuestHasTexts guest.old edit
            → OnOk result (Hears guest.old guest.new side.new (heard_one (kept.Tree edit) other)) }
    {
        let back = self.apply(side, guest, edit, out)?;
        history.note(Inverse::Tree(back))
    }

    /// Moves a node with all below it, where the page takes that: it is taken out, and put into its new place.
    fn put_moved(
        &mut self,
        history: &mut History,
        side: &mut PageSide,
        guest: &mut Option<Guest>,
        node: u64,
        parent: u64,
        before: u64,
        out: &mut Vec<u8>,
    ) -> Result<(), AllocError>
        requires fits { move_fault node parent before side.old.page.tree ≡ None }
        requires room { HasNumbersLeft self.old side.old }
        requires notes { edits_in history.old < kept_before_step }
        requires can_hear { CanHear 2 guest.old side.old }
        ensures few { OnOk result (self.new.agent.next < self.old.agent.next + 4) }
        ensures noted { OnOk result (history.new ≡ noted_singly (back_all page_after way_back
            (map (λ e. kept.Tree e) (node_edit_plan (MoveNode node parent before) side.old.page).edits)
            (saved_of side.old.page.tree side.old.sheets.entries)) history.old) }
        ensures stands { (state : State) → DeskStandsFor self.old side.old state
            → OnOk result (DeskStandsFor self.new side.new
            (plan_step (node_edit_plan (MoveNode node parent before) state.side.page) state).state) }
        ensures sent { (state : State) → DeskStandsFor self.old side.old state
            → OnOk result (out.new.items ≡ out.old.items
            ++ frames_of_moves (plan_step (node_edit_plan (MoveNode node parent before) state.side.page) state).moves) }
        ensures told { (other : State) → GuestStands guest.old side.old other
            → OnOk result (Hears guest.old guest.new side.new
            (heard_plan (node_edit_plan (MoveNode node parent before) side.old.page) other)) }
    {
        side.page.valid();
        let place = side.page.moved_before(node, parent, before);
        let tree = copied_tree(self.alloc, &side.page.node(node))?;
        self.apply_by_client(history, side, guest, TreeEdit::Detach { node }, out)?;
        let attach = TreeEdit::Attach {
            parent,
            before: place,
            tree,
        };
        self.apply_by_client(history, side, guest, attach, out)
    }

    /// Puts in a copy of a node with all below it, where the page takes that.
    fn put_copy(
        &mut self,
        history: &mut History,
        side: &mut PageSide,
        guest: &mut Option<Guest>,
        node: u64,
        parent: u64,
        before: u64,
        out: &mut Vec<u8>,
    ) -> Result<(), AllocError>
        requires fits { copy_fault node parent before side.old.page.tree ≡ None }
        requires room { HasNumbersLeft self.old side.old }
        requires notes { edits_in history.old < kept_before_step }
        requires can_hear { CanHear 2 guest.old side.old }
        ensures few { OnOk result (self.new.agent.next < self.old.agent.next + 4) }
        ensures noted { OnOk result (history.new ≡ noted_singly (back_all page_after way_back
            (map (λ e. kept.Tree e) (node_edit_plan (CopyNode node parent before) side.old.page).edits)
            (saved_of side.old.page.tree side.old.sheets.entries)) history.old) }
        ensures stands { (state : State) → DeskStandsFor self.old side.old state
            → OnOk result (DeskStandsFor self.new side.new
            (plan_step (node_edit_plan (CopyNode node parent before) state.side.page) state).state) }
        ensures sent { (state : State) → DeskStandsFor self.old side.old state
            → OnOk result (out.new.items ≡ out.old.items
            ++ frames_of_moves (plan_step (node_edit_plan (CopyNode node parent before) state.side.page) state).moves) }
        ensures told { (other : State) → GuestStands guest.old side.old other
            → OnOk result (Hears guest.old guest.new side.new
            (heard_plan (node_edit_plan (CopyNode node parent before) side.old.page) other)) }
    {
        side.page.valid();
        let tree = side.page.copy(node)?;
        let attach = TreeEdit::Attach {
            parent,
            before,
            tree,
        };
        self.apply_by_client(history, side, guest, attach, out)
    }

    /// Carries out an edit that the page takes. Gives the serial of the node that was put.
    fn put(
        &mut self,
        history: &mut History,
        side: &mut PageSide,
        guest: &mut Option<Guest>,
        edit: TreeWish,
        out: &mut Vec<u8>,
    ) -> Result<Option<u64>, AllocError>
        requires fits { node_edit_fault edit side.old.page ≡ None }
        requires plain { IsPlainEdit edit }
        requires room { HasNumbersLeft self.old side.old }
        requires notes { edits_in history.old < kept_before_step }
        requires can_hear { CanHear 2 guest.old side.old }
        ensures put { IfOk result (λ put. put ≡ node_put edit side.old.page) }
        ensures few { OnOk result (self.new.agent.next < self.old.agent.next + 4) }
        ensures noted { OnOk result (history.new ≡ noted_singly (back_all page_after way_back
            (map (λ e. kept.Tree e) (node_edit_plan edit side.old.page).edits)
            (saved_of side.old.page.tree side.old.sheets.entries)) history.old) }
        ensures stands { (state : State) → DeskStandsFor self.old side.old state
            → OnOk result (DeskStandsFor self.new side.new (plan_step (node_edit_plan edit state.side.page) state).state) }
        ensures sent { (state : State) → DeskStandsFor self.old side.old state
            → OnOk result (out.new.items ≡ out.old.items ++ frames_of_moves (plan_step (node_edit_plan edit state.side.page) state).moves) }
        ensures told { (other : State) → GuestStands guest.old side.old other
            → OnOk result (Hears guest.old guest.new side.new (heard_plan (node_edit_plan edit side.old.page) other)) }
    {
        match edit {
            TreeWish::One { edit } => {
                self.apply_by_client(history, side, guest, edit, out)?;
                Ok(None)
            }
            TreeWish::MoveNode {
                node,
                parent,
                before,
            } => {
                self.put_moved(history, side, guest, node, parent, before, out)?;
                Ok(Some(node))
            }
            TreeWish::CopyNode {
                node,
                parent,
                before,
            } => {
                let copy = side.page.next_serial();
                self.put_copy(history, side, guest, node, parent, before, out)?;
                Ok(Some(copy))
            }
        }
    }

    /// Replies with the id of the node that was put, which becomes known where it is shown, or with the empty result.
    fn answer_put(
        &mut self,
        side: &PageSide,
        id: u64,
        put: Option<u64>,
        out: &mut Vec<u8>,
    ) -> Result<(), AllocError>
        requires ids { self.old.agent.next < drawn_before_call }
        ensures stands { (state : State) → DeskStandsFor self.old side.now state → HasBegun state
            → OnOk result (DeskStandsFor self.new side.now (put_answer id put (idle state)).state) }
        ensures sent { (state : State) → DeskStandsFor self.old side.now state → HasBegun state
            → OnOk result (out.new.items ≡ out.old.items ++ frames_of_moves (put_answer id put (idle state)).moves) }
    {
        match put {
            Some(node) => {
                let known = self.push(side, node, out)?;
                write_reply(self.alloc, id, &ReplyBody::NodeId(known), out)
            }
            None => write_reply(self.alloc, id, &ReplyBody::Nothing, out),
        }
    }

    /// Carries an edit out and answers it, or refuses it with the fault that the page finds.
    fn answer_node_edit(
        &mut self,
        history: &mut History,
        side: &mut PageSide,
        guest: &mut Option<Guest>,
        id: u64,
        edit: TreeWish,
        out: &mut Vec<u8>,
    ) -> Result<(), AllocError>
        requires plain { IsPlainEdit edit }
        requires room { HasNumbersLeft self.old side.old }
        requires notes { edits_in history.old < kept_before_step }
        requires can_hear { CanHear 2 guest.old side.old }
        ensures stands { (state : State) → BothStandFor self.old history.old side.old state → is_some state.client.session.opened ≡ true
            → OnOk result (BothStandFor self.new history.new side.new (node_edit_step id (Ok edit) state).state) }
        ensures sent { (state : State) → DeskStandsFor self.old side.old state → is_some state.client.session.opened ≡ true
            → OnOk result (out.new.items ≡ out.old.items ++ frames_of_moves (node_edit_step id (Ok edit) state).moves) }
        ensures told { (state other : State) → DeskStandsFor self.old side.old state → GuestStands guest.old side.old other
            → OnOk result (Hears guest.old guest.new side.new (heard_step (tree_outward (Ok edit) state) other)) }
    {
        if let Some(fault) = edit.fault(side.page()) {
            return self.refuse(id, edit_why(fault), out);
        }
        let put = self.put(history, side, guest, edit, out)?;
        self.answer_put(side, id, put, out)
    }

    /// A client's edit of the tree.
    pub(crate) fn answer_tree_edit(
        &mut self,
        history: &mut History,
        side: &mut PageSide,
        guest: &mut Option<Guest>,
        id: u64,
        edit: DomEdit,
        out: &mut Vec<u8>,
    ) -> Result<(), AllocError>
        requires on { self.old.is_on ≡ true }
        requires texts { HasTreeTexts edit }
        requires room { HasNumbersLeft self.old side.old }
        requires notes { edits_in history.old < kept_before_step }
        requires can_hear { CanHear 2 guest.old side.old }
        ensures stands { (state : State) → BothStandFor self.old history.old side.old state
            → OnOk result (BothStandFor self.new history.new side.new (command_step id (commands.EditDom edit) state).state) }
        ensures sent { (state : State) → DeskStandsFor self.old side.old state
            → OnOk result (out.new.items ≡ out.old.items ++ frames_of_moves (command_step id (commands.EditDom edit) state).moves) }
        ensures told { (state other : State) → DeskStandsFor self.old side.old state → GuestStands guest.old side.old other
            → OnOk result (Hears guest.old guest.new side.new (heard_step (command_outward (commands.EditDom edit) state) other)) }
    {
        let edit = lowered(self.alloc, edit)?;
        match TreeWish::named(edit, &self.agent) {
            Ok(edit) => self.answer_node_edit(history, side, guest, id, edit, out),
            Err(why) => self.refuse(id, why, out),
        }
    }
}
