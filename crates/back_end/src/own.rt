// Our own two methods, by which a client without a script loads a page and changes it.
ghost use Rattle.std.specs.Prelude.{◌≡◌, ◌++◌, Some, Ok, IfOk, OnOk};
ghost use Rattle.serde_json.specs.Data.{Data};
ghost use Rattle.serde_json.specs.View.{view};
ghost use Rattle.page_forms.specs.Acts.{IsInsertable};
ghost use Rattle.page_forms.specs.Pages.{loaded_page, CanLoadPage};
ghost use Rattle.cdp_messages.specs.Answers.{Commands};
ghost use Rattle.client_views.specs.Moves.{frames_of_moves};
ghost use Rattle.back_end.specs.OwnMethods.{act_judged, act_why, edit_why, sheet_why, load_why, load_asked, act_read, Finds};
ghost use Rattle.cdp_messages.specs.declared.command.Command.TheVariants as commands;
ghost use Rattle.back_end.specs.States.{State};
ghost use Rattle.back_end.specs.Steps.{acts, command_step, judged_step};
ghost use Rattle.back_end.specs.Seats.{BothStandFor, DeskStandsFor, HasNumbersLeft};
ghost use Rattle.back_end.specs.Outside.{command_outward, own_outward};
ghost use Rattle.back_end.specs.Guests.{CanHear, GuestStands, Hears, heard_step};

use crate::desk::Desk;
use crate::faults::ActFault;
use crate::guest::Guest;
use crate::side::PageSide;
use cdp_json::all_whole;
use cdp_messages::{CommandErr, Param, ReplyBody, Why, write_reply};
use page_forms::{Act, ActErr, PageForm, read_act, read_page};
use page_tree::{EditFault, LoadErr, LoadFault};
use serde_json::Value;
use std::alloc::{AllocError, Global};
use style_edits::SheetFault;
use undo_marks::History;

/// What a load is refused with.
fn load_why(fault: LoadFault) -> Why
    ensures { result ≡ load_why fault }
{
    match fault {
        LoadFault::BadForm => Why::BadParam(Param::Params),
        LoadFault::TooDeep => Why::TooDeep,
        LoadFault::TooMany => Why::TooMany,
        LoadFault::BadName => Why::BadName,
    }
}

/// What an edit of the page is refused with.
pub(crate) fn edit_why(fault: EditFault) -> Why
    ensures { result ≡ edit_why fault }
{
    match fault {
        EditFault::NoNode => Why::NoNode,
        EditFault::NotElement => Why::NotElement,
        EditFault::NotText => Why::NotText,
        EditFault::IsDocument => Why::IsDocument,
        EditFault::NotChild => Why::NotChild,
        EditFault::Inside => Why::Inside,
        EditFault::TooDeep => Why::TooDeep,
        EditFault::TooMany => Why::TooMany,
        EditFault::BadName => Why::BadName,
        EditFault::NoAttr => Why::NoAttr,
        EditFault::NotContainer => Why::NotContainer,
    }
}

/// What a change of the page's sheets is refused with.
pub(crate) fn sheet_why(fault: SheetFault) -> Why
    ensures { result ≡ sheet_why fault }
{
    match fault {
        SheetFault::NoSheet => Why::NoSheet,
        SheetFault::NotMutable => Why::NotMutable,
        SheetFault::BadRange => Why::BadRange,
        SheetFault::BadText => Why::BadText,
        SheetFault::BadSelector => Why::BadSelector,
        SheetFault::BadPlace => Why::BadPlace,
        SheetFault::TooBig => Why::TooBig,
    }
}

/// What an act is refused with.
fn act_why(fault: ActFault) -> Why
    ensures { result ≡ act_why fault }
{
    match fault {
        ActFault::Edit(fault) => edit_why(fault),
        ActFault::Sheet(fault) => sheet_why(fault),
    }
}

/// The page that the parameters of a load spell.
fn asked_page(alloc: Global, params: &Value) -> Result<PageForm, CommandErr>
    ensures finds { Finds loaded_page result (load_asked (view params.now)) }
    ensures fit { IfOk result (λ page. CanLoadPage (loaded_page page)) }
{
    if !all_whole(params) {
        return Err(CommandErr::Refused(Why::BadParam(Param::Params)));
    }
    match read_page(alloc, params) {
        Ok(page) => Ok(page),
        Err(LoadErr::Fault(fault)) => Err(CommandErr::Refused(load_why(fault))),
        Err(LoadErr::Memory) => Err(CommandErr::Memory),
    }
}

/// The act that the parameters spell, whatever the page is.
fn asked_act(alloc: Global, params: &Value) -> Result<Act, CommandErr>
    ensures finds { Commands result (act_read (view params.now)) }
    ensures fit { IfOk result IsInsertable }
{
    if !all_whole(params) {
        return Err(CommandErr::Refused(Why::BadParam(Param::Params)));
    }
    match read_act(alloc, params) {
        Ok(act) => Ok(act),
        Err(ActErr::BadForm) => Err(CommandErr::Refused(Why::BadParam(Param::Params))),
        Err(ActErr::Memory) => Err(CommandErr::Memory),
    }
}

impl Desk {
    /// `Replay.load`, which needs no domain on.
    pub(crate) fn answer_load(
        &mut self,
        history: &mut History,
        side: &mut PageSide,
        guest: &mut Option<Guest>,
        id: u64,
        params: &Value,
        out: &mut Vec<u8>,
    ) -> Result<(), AllocError>
        requires room { HasNumbersLeft self.old side.old }
        ensures stands { (state : State) → BothStandFor self.old history.old side.old state
            → OnOk result (BothStandFor self.new history.new side.new
            (command_step id (commands.ReplayLoad (view params.now)) state).state) }
        ensures sent { (state : State) → DeskStandsFor self.old side.old state
            → OnOk result (out.new.items ≡ out.old.items
            ++ frames_of_moves (command_step id (commands.ReplayLoad (view params.now)) state).moves) }
        ensures told { (state other : State) → DeskStandsFor self.old side.old state → GuestStands guest.old side.old other
            → OnOk result (Hears guest.old guest.new side.new
            (heard_step (command_outward (commands.ReplayLoad (view params.now)) state) other)) }
    {
        match asked_page(self.alloc, params) {
            Ok(page) => {
                self.load(side, guest, page, out)?;
                history.clear();
                write_reply(self.alloc, id, &ReplyBody::Nothing, out)
            }
            Err(CommandErr::Refused(why)) => self.refuse(id, why, out),
            Err(CommandErr::Memory) => Err(AllocError),
        }
    }

    /// The same for a page that was read off a frame's tokens, which stands for the parameters that would be read as it.
    pub(crate) fn answer_loaded(
        &mut self,
        history: &mut History,
        side: &mut PageSide,
        guest: &mut Option<Guest>,
        id: u64,
        page: PageForm,
        out: &mut Vec<u8>,
    ) -> Result<(), AllocError>
        requires can { CanLoadPage (loaded_page page) }
        requires room { HasNumbersLeft self.old side.old }
        ensures stands { (state : State) (params : Data) → load_asked params ≡ Ok (loaded_page page)
            → BothStandFor self.old history.old side.old state
            → OnOk result (BothStandFor self.new history.new side.new (command_step id (commands.ReplayLoad params) state).state) }
        ensures sent { (state : State) (params : Data) → load_asked params ≡ Ok (loaded_page page)
            → DeskStandsFor self.old side.old state
            → OnOk result (out.new.items ≡ out.old.items
            ++ frames_of_moves (command_step id (commands.ReplayLoad params) state).moves) }
        ensures told { (state other : State) (params : Data) → load_asked params ≡ Ok (loaded_page page)
            → GuestStands guest.old side.old other
            → OnOk result (Hears guest.old guest.new side.new (heard_step (command_outward (commands.ReplayLoad params) state) other)) }
    {
        self.load(side, guest, page, out)?;
        history.clear();
        write_reply(self.alloc, id, &ReplyBody::Nothing, out)
    }

    /// `Replay.act`, which needs no domain on. One that the page refuses changes nothing, and draws no serial.
    pub(crate) fn answer_act(
        &mut self,
        history: &mut History,
        side: &mut PageSide,
        guest: &mut Option<Guest>,
        id: u64,
        params: &Value,
        out: &mut Vec<u8>,
    ) -> Result<(), AllocError>
        requires room { HasNumbersLeft self.old side.old }
        requires can_hear { CanHear 2 guest.old side.old }
        ensures stands { (state : State) → BothStandFor self.old history.old side.old state
            → OnOk result (BothStandFor self.new history.new side.new
            (command_step id (commands.ReplayAct (view params.now)) state).state) }
        ensures sent { (state : State) → DeskStandsFor self.old side.old state
            → OnOk result (out.new.items ≡ out.old.items
            ++ frames_of_moves (command_step id (commands.ReplayAct (view params.now)) state).moves) }
        ensures told { (state other : State) → DeskStandsFor self.old side.old state → GuestStands guest.old side.old other
            → OnOk result (Hears guest.old guest.new side.new
            (heard_step (command_outward (commands.ReplayAct (view params.now)) state) other)) }
    {
        match asked_act(self.alloc, params) {
            Ok(act) => self.answer_changed(history, side, guest, id, act, out),
            Err(CommandErr::Refused(why)) => self.refuse(id, why, out),
            Err(CommandErr::Memory) => Err(AllocError),
        }
    }

    /// Answers an act: it is carried out, or refused with the fault that the page finds.
    fn answer_changed(
        &mut self,
        history: &mut History,
        side: &mut PageSide,
        guest: &mut Option<Guest>,
        id: u64,
        act: Act,
        out: &mut Vec<u8>,
    ) -> Result<(), AllocError>
        requires form { IsInsertable act }
        requires room { HasNumbersLeft self.old side.old }
        requires can_hear { CanHear 2 guest.old side.old }
        ensures stands { (state : State) → BothStandFor self.old history.old side.old state
            → OnOk result (BothStandFor self.new history.new side.new (judged_step id act state).state) }
        ensures sent { (state : State) → DeskStandsFor self.old side.old state
            → OnOk result (out.new.items ≡ out.old.items ++ frames_of_moves (judged_step id act state).moves) }
        ensures told { (other : State) → GuestStands guest.old side.old other
            → OnOk result (Hears guest.old guest.new side.new
            (heard_step (own_outward acts (act_judged side.old.page side.old.sheets.entries act) other) other)) }
    {
        if let Some(fault) = self.script(side, guest, act, out)? {
            return self.refuse(id, act_why(fault), out);
        }
        history.cross();
        write_reply(self.alloc, id, &ReplyBody::Nothing, out)
    }
}
