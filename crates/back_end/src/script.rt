// What a script does to the page under the client's eyes.
ghost use Rattle.std.specs.Prelude.{◌≡◌, ◌<◌, ◌+◌, ◌∷◌, ◌++◌, [], cond, IsSome, OnOk, IfOk};
ghost use Rattle.page_tree.specs.Pages.{find_in};
ghost use Rattle.node_tree.specs.Numbers.{drawn_before_edit};
ghost use Rattle.page_tree.specs.EditFaults.{CanApply, CanInsert, IsReady, first_fault, insert_fault, move_fault};
ghost use Rattle.page_tree.specs.Edits.{after, back_tree};
ghost use Rattle.page_forms.specs.Acts.{IsInsertable};
ghost use Rattle.page_forms.specs.Pages.{loaded_page, CanLoadPage};
ghost use Rattle.client_views.specs.Moves.{clear, frames_of_moves};
ghost use Rattle.back_end.specs.States.{State};
ghost use Rattle.back_end.specs.Plans.{edit_fault, act_fault};
ghost use Rattle.back_end.specs.Steps.{act_step, edit_step, load_step, lone_step, watches_left, watches_of_text};
ghost use Rattle.back_end.specs.Texts.{FormHasTexts, EditHasTexts};
ghost use Rattle.undo_marks.specs.declared.inverse_lists.Inverse.TheVariants as kept;
ghost use Rattle.back_end.specs.Seats.{DeskStandsFor, HasNumbersLeft, StandsFor};
ghost use Rattle.back_end.specs.Guests.{CanHear, GuestHasTexts, GuestStands, Hears, HasLeft, drawn_by_outside, heard_one, leaving};

use crate::desk::Desk;
use crate::faults::ActFault;
use crate::guest::{Guest, cross_guest, leave_guest, welcome_guest};
use crate::side::PageSide;
use cdp_messages::{Event, write_event};
use dom_breakpoints::Watches;
use page_forms::{Act, PageForm};
use page_tree::{EditErr, NodeForm, Page, TreeEdit};
use sheet_reader::SheetBook;
use shown_pages::{Mode, TextSight, text_sight};
use std::alloc::AllocError;

/// Forgets the watches on a text that hides itself.
fn forget_hidden(watches: &mut Watches, page: &Page, node: u64, sight: TextSight)
    requires { IsSome (find_in node page.now.tree) }
    ensures { watches.new ≡ watches_of_text sight node page.now.tree watches.old }
{
    match sight {
        TextSight::Goes => watches.forget_subtree(page, node),
        TextSight::Unseen | TextSight::Comes | TextSight::Stays => {}
    }
}

/// Forgets the watches in a tree that an edit takes out, and on a text that it hides, by the page before it.
fn forget_gone(watches: &mut Watches, page: &Page, edit: &TreeEdit, mode: Mode)
    requires { CanApply page.now.next edit.now page.now.tree }
    ensures { watches.new ≡ watches_left mode edit.now page.now.tree watches.old }
{
    match edit {
        TreeEdit::Detach { node } => watches.forget_subtree(page, *node),
        TreeEdit::SetText { node, value } => {
            let sight = text_sight(page, *node, value.as_str(), mode);
            forget_hidden(watches, page, *node, sight);
        }
        TreeEdit::SetAttr { .. } | TreeEdit::DropAttr { .. } | TreeEdit::Attach { .. } => {}
    }
}

impl Desk {
    /// Carries out an edit that the page takes, where the client is alone with the page. Gives the edit that leads back.
    fn apply_alone(
        &mut self,
        side: &mut PageSide,
        edit: TreeEdit,
        out: &mut Vec<u8>,
    ) -> Result<TreeEdit, AllocError>
        requires can { CanApply side.old.page.next edit side.old.page.tree }
        requires ids { self.old.agent.next < drawn_before_edit }
        requires serials { side.old.page.next < drawn_before_edit }
        requires sheets { side.old.sheets.next < drawn_before_edit }
        ensures page { OnOk result (side.new.page ≡ after edit side.old.page) }
        ensures kept { side.new.sheets ≡ side.old.sheets }
        ensures few { OnOk result (self.new.agent.next < self.old.agent.next + 2) }
        ensures back { IfOk result (λ back. back ≡ back_tree edit side.old.page.tree) }
        ensures stands { (state : State) → DeskStandsFor self.old side.old state → EditHasTexts edit
            → OnOk result (DeskStandsFor self.new side.new (edit_step edit state).state) }
        ensures sent { (state : State) → DeskStandsFor self.old side.old state
            → OnOk result (out.new.items ≡ out.old.items ++ frames_of_moves (edit_step edit state).moves) }
    {
        let mode = self.agent.mode();
        forget_gone(&mut self.watches, &side.page, &edit, mode);
        match self.agent.edit(&mut side.page, edit, out) {
            Ok(back) => Ok(back),
            Err(EditErr::Fault(_)) => unreachable!(),
            Err(EditErr::Memory) => Err(AllocError),
        }
    }

    /// Carries out an edit that the page takes, and tells it to the client and to the guest, for whom it is as a script's: its pause is
    /// told first. Gives the edit that leads back.
    fn apply_both(
        &mut self,
        side: &mut PageSide,
        guest: &mut Guest,
        edit: TreeEdit,
        out: &mut Vec<u8>,
    ) -> Result<TreeEdit, AllocError>
        requires can { CanApply side.old.page.next edit side.old.page.tree }
        requires ids { self.old.agent.next < drawn_before_edit }
        requires guest_ids { guest.old.seat.desk.agent.next + drawn_by_outside < drawn_before_edit }
        requires serials { side.old.page.next < drawn_before_edit }
        requires sheets { side.old.sheets.next < drawn_before_edit }
        ensures page { OnOk result (side.new.page ≡ after edit side.old.page) }
        ensures kept { side.new.sheets ≡ side.old.sheets }
        ensures few { OnOk result (self.new.agent.next < self.old.agent.next + 2) }
        ensures back { IfOk result (λ back. back ≡ back_tree edit side.old.page.tree) }
        ensures stands { (state : State) → DeskStandsFor self.old side.old state → EditHasTexts edit
            → OnOk result (DeskStandsFor self.new side.new (edit_step edit state).state) }
        ensures sent { (state : State) → DeskStandsFor self.old side.old state
            → OnOk result (out.new.items ≡ out.old.items ++ frames_of_moves (edit_step edit state).moves) }
        ensures guest_stands { (other : State) → StandsFor guest.old.seat side.old other → EditHasTexts edit
            → OnOk result (StandsFor guest.new.seat side.new (heard_one (kept.Tree edit) other).state) }
        ensures guest_sent { (other : State) → DeskStandsFor guest.old.seat.desk side.old other
            → OnOk result (guest.new.out.items ≡ guest.old.out.items ++ frames_of_moves (heard_one (kept.Tree edit) other).moves) }
    {
        guest.seat.desk.pause(side, &edit, &mut guest.out)?;
        let mode = self.agent.mode();
        forget_gone(&mut self.watches, &side.page, &edit, mode);
        let guest_mode = guest.seat.desk.agent.mode();
        forget_gone(&mut guest.seat.desk.watches, &side.page, &edit, guest_mode);
        guest.seat.history.cross();
        let agent = &mut guest.seat.desk.agent;
        match self
            .agent
            .edit_both(agent, &mut side.page, edit, out, &mut guest.out)
        {
            Ok(back) => Ok(back),
            Err(EditErr::Fault(_)) => unreachable!(),
            Err(EditErr::Memory) => Err(AllocError),
        }
    }

    /// Carries out an edit that the page takes, and tells it to the client and to the guest. Gives the edit that leads back.
    pub(crate) fn apply(
        &mut self,
        side: &mut PageSide,
        guest: &mut Option<Guest>,
        edit: TreeEdit,
        out: &mut Vec<u8>,
    ) -> Result<TreeEdit, AllocError>
        requires can { CanApply side.old.page.next edit side.old.page.tree }
        requires ids { self.old.agent.next < drawn_before_edit }
        requires serials { side.old.page.next < drawn_before_edit }
        requires sheets { side.old.sheets.next < drawn_before_edit }
        requires can_hear { CanHear 1 guest.old side.old }
        ensures page { OnOk result (side.new.page ≡ after edit side.old.page) }
        ensures kept { side.new.sheets ≡ side.old.sheets }
        ensures few { OnOk result (self.new.agent.next < self.old.agent.next + 2) }
        ensures back { IfOk result (λ back. back ≡ back_tree edit side.old.page.tree) }
        ensures stands { (state : State) → DeskStandsFor self.old side.old state → EditHasTexts edit
            → OnOk result (DeskStandsFor self.new side.new (edit_step edit state).state) }
        ensures sent { (state : State) → DeskStandsFor self.old side.old state
            → OnOk result (out.new.items ≡ out.old.items ++ frames_of_moves (edit_step edit state).moves) }
        ensures told { (other : State) → GuestStands guest.old side.old other → GuestHasTexts guest.old edit
            → OnOk result (Hears guest.old guest.new side.new (heard_one (kept.Tree edit) other)) }
    {
        match guest {
            Some(guest) => self.apply_both(side, guest, edit, out),
            None => self.apply_alone(side, edit, out),
        }
    }

    /// Carries an edit out, unless the page refuses it: then it gives the fault.
    fn edit(
        &mut self,
        side: &mut PageSide,
        guest: &mut Option<Guest>,
        edit: TreeEdit,
        out: &mut Vec<u8>,
    ) -> Result<Option<ActFault>, AllocError>
        requires ready { IsReady side.old.page.next edit side.old.page.tree }
        requires texts { EditHasTexts edit }
        requires room { HasNumbersLeft self.old side.old }
        requires can_hear { CanHear 2 guest.old side.old }
        ensures fault { IfOk result (λ fault. fault ≡ edit_fault (first_fault edit side.old.page.tree)) }
        ensures stands { (state : State) → DeskStandsFor self.old side.old state
            → OnOk result (DeskStandsFor self.new side.new (lone_step edit state).state) }
        ensures sent { (state : State) → DeskStandsFor self.old side.old state
            → OnOk result (out.new.items ≡ out.old.items ++ frames_of_moves (lone_step edit state).moves) }
        ensures told { (other : State) → GuestStands guest.old side.old other
            → OnOk result (Hears guest.old guest.new side.new (lone_step edit other)) }
    {
        if let Some(fault) = side.page.fault(&edit) {
            return Ok(Some(ActFault::Edit(fault)));
        }
        self.apply_by_script(side, guest, edit, out)?;
        Ok(None)
    }

    /// Puts new nodes into the page, unless it refuses them.
    fn insert(
        &mut self,
        side: &mut PageSide,
        guest: &mut Option<Guest>,
        parent: u64,
        before: u64,
        form: NodeForm,
        out: &mut Vec<u8>,
    ) -> Result<Option<ActFault>, AllocError>
        requires form { CanInsert form }
        requires texts { FormHasTexts form }
        requires room { HasNumbersLeft self.old side.old }
        requires can_hear { CanHear 2 guest.old side.old }
        ensures fault { IfOk result (λ fault. fault ≡ edit_fault (insert_fault parent before form side.old.page.tree)) }
        ensures stands { (state : State) → DeskStandsFor self.old side.old state
            → OnOk result (DeskStandsFor self.new side.new (act_step (Act.Insert parent before form) state).state) }
        ensures sent { (state : State) → DeskStandsFor self.old side.old state
            → OnOk result (out.new.items ≡ out.old.items ++ frames_of_moves (act_step (Act.Insert parent before form) state).moves) }
        ensures told { (other : State) → GuestStands guest.old side.old other
            → OnOk result (Hears guest.old guest.new side.new (act_step (Act.Insert parent before form) other)) }
    {
        side.page.valid();
        if let Some(fault) = side.page.insert_fault(parent, before, &form) {
            return Ok(Some(ActFault::Edit(fault)));
        }
        let tree = side.page.grow(form)?;
        let attach = TreeEdit::Attach {
            parent,
            before,
            tree,
        };
        self.apply_by_script(side, guest, attach, out)?;
        Ok(None)
    }

    /// Moves a node with all below it, unless the page refuses that: it is taken out, and put into its new place.
    fn move_node(
        &mut self,
        side: &mut PageSide,
        guest: &mut Option<Guest>,
        node: u64,
        parent: u64,
        before: u64,
        out: &mut Vec<u8>,
    ) -> Result<Option<ActFault>, AllocError>
        requires room { HasNumbersLeft self.old side.old }
        requires can_hear { CanHear 2 guest.old side.old }
        ensures fault { IfOk result (λ fault. fault ≡ edit_fault (move_fault node parent before side.old.page.tree)) }
        ensures stands { (state : State) → DeskStandsFor self.old side.old state
            → OnOk result (DeskStandsFor self.new side.new (act_step (Act.Move node parent before) state).state) }
        ensures sent { (state : State) → DeskStandsFor self.old side.old state
            → OnOk result (out.new.items ≡ out.old.items ++ frames_of_moves (act_step (Act.Move node parent before) state).moves) }
        ensures told { (other : State) → GuestStands guest.old side.old other
            → OnOk result (Hears guest.old guest.new side.new (act_step (Act.Move node parent before) other)) }
    {
        side.page.valid();
        if let Some(fault) = side.page.move_fault(node, parent, before) {
            return Ok(Some(ActFault::Edit(fault)));
        }
        let before = side.page.moved_before(node, parent, before);
        let back = self.apply_by_script(side, guest, TreeEdit::Detach { node }, out)?;
        let TreeEdit::Attach { tree, .. } = back else {
            unreachable!()
        };
        let attach = TreeEdit::Attach {
            parent,
            before,
            tree,
        };
        self.apply_by_script(side, guest, attach, out)?;
        Ok(None)
    }

    /// A script's change of the page: the fault of one that is refused, which changes nothing.
    pub(crate) fn script(
        &mut self,
        side: &mut PageSide,
        guest: &mut Option<Guest>,
        act: Act,
        out: &mut Vec<u8>,
    ) -> Result<Option<ActFault>, AllocError>
        requires form { IsInsertable act }
        requires room { HasNumbersLeft self.old side.old }
        requires can_hear { CanHear 2 guest.old side.old }
        ensures fault { IfOk result (λ fault. fault ≡ act_fault act side.old.page side.old.sheets.entries) }
        ensures stands { (state : State) → DeskStandsFor self.old side.old state
            → OnOk result (DeskStandsFor self.new side.new (act_step act state).state) }
        ensures sent { (state : State) → DeskStandsFor self.old side.old state
            → OnOk result (out.new.items ≡ out.old.items ++ frames_of_moves (act_step act state).moves) }
        ensures told { (other : State) → GuestStands guest.old side.old other
            → OnOk result (Hears guest.old guest.new side.new (act_step act other)) }
    {
        act.valid();
        match act {
            Act::SetAttr { node, name, value } => {
                self.edit(side, guest, TreeEdit::SetAttr { node, name, value }, out)
            }
            Act::DropAttr { node, name } => {
                self.edit(side, guest, TreeEdit::DropAttr { node, name }, out)
            }
            Act::SetText { node, value } => {
                self.edit(side, guest, TreeEdit::SetText { node, value }, out)
            }
            Act::Insert {
                parent,
                before,
                form,
            } => self.insert(side, guest, parent, before, form, out),
            Act::Remove { node } => self.edit(side, guest, TreeEdit::Detach { node }, out),
            Act::Move {
                node,
                parent,
                before,
            } => self.move_node(side, guest, node, parent, before, out),
            Act::AddSheet { origin, text } => {
                self.add_sheet(side, guest, origin, text.as_str(), out)
            }
            Act::DropSheet { sheet } => self.drop_sheet(side, guest, sheet.as_str(), out),
            Act::ReplaceSheet { sheet, text } => {
                self.replace_sheet(side, guest, sheet.as_str(), text.as_str(), out)
            }
            Act::Medium { medium } => {
                side.sheets.show_on(medium);
                cross_guest(guest);
                Ok(None)
            }
        }
    }

    /// A new page in the place of the old one. Serials and numbers of sheets go on, and nothing is known of it.
    pub(crate) fn load(
        &mut self,
        side: &mut PageSide,
        guest: &mut Option<Guest>,
        form: PageForm,
        out: &mut Vec<u8>,
    ) -> Result<(), AllocError>
        requires can { CanLoadPage (loaded_page form) }
        requires room { HasNumbersLeft self.old side.old }
        ensures stands { (state : State) → DeskStandsFor self.old side.old state
            → OnOk result (DeskStandsFor self.new side.new (load_step (loaded_page form) state).state) }
        ensures sent { (state : State) → DeskStandsFor self.old side.old state
            → OnOk result (out.new.items ≡ out.old.items ++ frames_of_moves (load_step (loaded_page form) state).moves) }
        ensures told { (other : State) → GuestStands guest.old side.old other
            → OnOk result (Hears guest.old guest.new side.new (load_step (loaded_page form) other)) }
    {
        side.page.valid();
        form.valid();
        let serial = side.page.next_serial();
        let loaded = PageSide::loaded(self.alloc, serial, side.sheets.next_number(), form)?;
        self.leave(side.book(), out)?;
        leave_guest(guest, side.book())?;
        *side = loaded;
        self.tell_come(side.book(), out)?;
        welcome_guest(guest, side.book())
    }

    /// The page goes: the client is told, and nothing is known any more.
    pub(crate) fn leave(&mut self, book: &SheetBook, out: &mut Vec<u8>) -> Result<(), AllocError>
        ensures left { OnOk result (HasLeft self.old self.new) }
        ensures sent { OnOk result (out.new.items ≡ out.old.items ++ frames_of_moves (leaving self.old book.now)) }
    {
        self.tell_load(out)?;
        self.tell_gone(book, out)?;
        self.agent.reset();
        self.watches.clear();
        self.searches.clear();
        Ok(())
    }

    /// Tells a load, while DOM is on.
    fn tell_load(&self, out: &mut Vec<u8>) -> Result<(), AllocError>
        ensures { OnOk result (out.new.items ≡ out.old.items ++ frames_of_moves (cond self.now.is_on (clear ∷ []) [])) }
    {
        if self.is_on {
            write_event(self.alloc, &Event::DocumentUpdated, out)?;
        }
        Ok(())
    }
}
