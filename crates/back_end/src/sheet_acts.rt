// What a script does to the page's sheets under the client's eyes.
ghost use Rattle.std.specs.Prelude.{◌≡◌, ◌<◌, ◌++◌, [], cond, false, length, map, Some, slice_get, ◌-◌, IsSome, IsUtf8, OnOk};
ghost use Rattle.std.specs.Prelude.{IfOk};
ghost use Rattle.node_tree.specs.Numbers.{drawn_before_edit, drawn_before_step};
ghost use Rattle.sheet_reader.specs.Books.{entry_of, removed};
ghost use Rattle.sheet_reader.specs.declared.book.SheetEntry.{SheetEntry};
ghost use Rattle.style_edits.specs.Edits.{is_too_big};
ghost use Rattle.css_agent.specs.Asks.{sheet_named};
ghost use Rattle.css_agent.specs.Told.{told_header, turn_messages};
ghost use Rattle.cdp_messages.specs.Replies.{message_frames};
ghost use Rattle.cdp_messages.specs.Events.{news_of, sheet_added};
ghost use Rattle.client_views.specs.Moves.{dropped, frames_of_moves};
ghost use Rattle.page_forms.specs.declared.acts.Act.TheVariants as Act;
ghost use Rattle.back_end.specs.Sheets.{leaves, comes};
ghost use Rattle.back_end.specs.States.{State};
ghost use Rattle.back_end.specs.Plans.{size_fault, drop_fault, replace_fault};
ghost use Rattle.back_end.specs.Steps.{act_step, crossing, sheet_step};
ghost use Rattle.back_end.specs.Seats.{DeskStandsFor};
ghost use Rattle.back_end.specs.Guests.{GuestStands, Hears};

use crate::desk::Desk;
use crate::faults::ActFault;
use crate::guest::{Guest, tell_guest};
use crate::side::PageSide;
use cdp_messages::{Event, write_event};
use css_agent::{sheet_named, told_header};
use sheet_reader::{Origin, SheetBook};
use std::alloc::{AllocError, Global};
use style_edits::{SheetErr, SheetFault};

/// Tells that each sheet of the book goes.
fn tell_all_gone(alloc: Global, book: &SheetBook, out: &mut Vec<u8>) -> Result<(), AllocError>
    ensures { OnOk result (out.new.items ≡ out.old.items ++ frames_of_moves (map (λ e. dropped e.id) book.now)) }
{
    for i in 0..book.len() {
        let sheet = book.at(i).id;
        write_event(alloc, &Event::StyleSheetRemoved { sheet }, out)?;
    }
    Ok(())
}

/// The event that tells that the last sheet came.
fn last_added(book: &SheetBook) -> Event
    requires some { 0 < length book.now }
    ensures { (e : SheetEntry) → slice_get book.now (length book.now - 1) ≡ Some e → news_of result ≡ sheet_added (told_header e) }
{
    let header = told_header(book.at(book.len() - 1));
    Event::StyleSheetAdded { header }
}

impl Desk {
    /// Tells that each sheet of the book goes, while CSS is on.
    pub(crate) fn tell_gone(&self, book: &SheetBook, out: &mut Vec<u8>) -> Result<(), AllocError>
        ensures { OnOk result (out.new.items
            ≡ out.old.items ++ frames_of_moves (cond self.now.css (map (λ e. dropped e.id) book.now) [])) }
    {
        if self.css.is_on() {
            tell_all_gone(self.alloc, book, out)?;
        }
        Ok(())
    }

    /// Tells that each sheet of the book comes, while CSS is on: as if it came on anew.
    pub(crate) fn tell_come(
        &mut self,
        book: &SheetBook,
        out: &mut Vec<u8>,
    ) -> Result<(), AllocError>
        ensures css { OnOk result (self.new.css ≡ self.old.css) }
        ensures rest { (self.new.is_on ≡ self.old.is_on) × (self.new.agent ≡ self.old.agent) }
        ensures watches { self.new.watches ≡ self.old.watches }
        ensures searches { self.new.searches ≡ self.old.searches }
        ensures sent { OnOk result (out.new.items ≡ out.old.items ++ message_frames (turn_messages false self.old.css book.now)) }
    {
        let on = self.css.is_on();
        self.css.switch(false, book, out)?;
        self.css.switch(on, book, out)
    }

    /// A sheet that fits comes, and is told.
    fn sheet_comes(
        &mut self,
        side: &mut PageSide,
        guest: &mut Option<Guest>,
        origin: Origin,
        text: &str,
        out: &mut Vec<u8>,
    ) -> Result<(), AllocError>
        requires fits { is_too_big text.now side.old.sheets.entries ≡ false }
        requires room { side.old.sheets.next < drawn_before_edit }
        ensures stands { (state : State) → DeskStandsFor self.old side.old state → IsUtf8 text.now
            → OnOk result (DeskStandsFor self.new side.new (sheet_step (comes origin text.now) state).state) }
        ensures sent { (state : State) → DeskStandsFor self.old side.old state
            → OnOk result (out.new.items ≡ out.old.items ++ frames_of_moves (sheet_step (comes origin text.now) state).moves) }
        ensures told { (other : State) → GuestStands guest.old side.old other → IsUtf8 text.now
            → OnOk result (Hears guest.old guest.new side.new (crossing (sheet_step (comes origin text.now) other))) }
    {
        match side.sheets.add(origin, text) {
            Ok(()) => {}
            Err(SheetErr::Fault(_)) => unreachable!(),
            Err(SheetErr::Memory) => return Err(AllocError),
        }
        let event = last_added(side.book());
        self.css.tell(&event, out)?;
        tell_guest(guest, &event)
    }

    /// A sheet that is there goes, and is told.
    fn sheet_leaves(
        &mut self,
        side: &mut PageSide,
        guest: &mut Option<Guest>,
        number: u64,
        out: &mut Vec<u8>,
    ) -> Result<(), AllocError>
        requires there { IsSome (entry_of number side.old.sheets.entries) }
        ensures entries { side.new.sheets.entries ≡ removed number side.old.sheets.entries }
        ensures next { side.new.sheets.next ≡ side.old.sheets.next }
        ensures medium { side.new.sheets.medium ≡ side.old.sheets.medium }
        ensures stands { (state : State) → DeskStandsFor self.old side.old state
            → OnOk result (DeskStandsFor self.new side.new (sheet_step (leaves number) state).state) }
        ensures sent { (state : State) → DeskStandsFor self.old side.old state
            → OnOk result (out.new.items ≡ out.old.items ++ frames_of_moves (sheet_step (leaves number) state).moves) }
        ensures told { (other : State) → GuestStands guest.old side.old other
            → OnOk result (Hears guest.old guest.new side.new (crossing (sheet_step (leaves number) other))) }
    {
        match side.sheets.remove(number) {
            Ok(()) => {}
            Err(_) => unreachable!(),
        }
        let event = Event::StyleSheetRemoved { sheet: number };
        self.css.tell(&event, out)?;
        tell_guest(guest, &event)
    }

    /// Adds a sheet, unless it is too big.
    pub(crate) fn add_sheet(
        &mut self,
        side: &mut PageSide,
        guest: &mut Option<Guest>,
        origin: Origin,
        text: &str,
        out: &mut Vec<u8>,
    ) -> Result<Option<ActFault>, AllocError>
        requires text { IsUtf8 text.now }
        requires room { side.old.sheets.next < drawn_before_step }
        ensures fault { IfOk result (λ fault. fault ≡ size_fault text.now side.old.sheets.entries) }
        ensures stands { (state : State) → DeskStandsFor self.old side.old state
            → OnOk result (DeskStandsFor self.new side.new (act_step (Act.AddSheet origin text.now) state).state) }
        ensures sent { (state : State) → DeskStandsFor self.old side.old state
            → OnOk result (out.new.items ≡ out.old.items ++ frames_of_moves (act_step (Act.AddSheet origin text.now) state).moves) }
        ensures told { (other : State) → GuestStands guest.old side.old other
            → OnOk result (Hears guest.old guest.new side.new (act_step (Act.AddSheet origin text.now) other)) }
    {
        if side.sheets.is_full_for(text) {
            return Ok(Some(ActFault::Sheet(SheetFault::TooBig)));
        }
        self.sheet_comes(side, guest, origin, text, out)?;
        Ok(None)
    }

    /// Takes the sheet out whose id has this text, if there is one.
    pub(crate) fn drop_sheet(
        &mut self,
        side: &mut PageSide,
        guest: &mut Option<Guest>,
        sheet: &str,
        out: &mut Vec<u8>,
    ) -> Result<Option<ActFault>, AllocError>
        ensures fault { IfOk result (λ fault. fault ≡ drop_fault (sheet_named sheet.now side.old.sheets.entries)) }
        ensures stands { (state : State) → DeskStandsFor self.old side.old state
            → OnOk result (DeskStandsFor self.new side.new (act_step (Act.DropSheet sheet.now) state).state) }
        ensures sent { (state : State) → DeskStandsFor self.old side.old state
            → OnOk result (out.new.items ≡ out.old.items ++ frames_of_moves (act_step (Act.DropSheet sheet.now) state).moves) }
        ensures told { (other : State) → GuestStands guest.old side.old other
            → OnOk result (Hears guest.old guest.new side.new (act_step (Act.DropSheet sheet.now) other)) }
    {
        let Some(entry) = sheet_named(side.book(), sheet) else {
            return Ok(Some(ActFault::Sheet(SheetFault::NoSheet)));
        };
        let number = entry.id;
        self.sheet_leaves(side, guest, number, out)?;
        Ok(None)
    }

    /// Takes the sheet out whose id has this text, if there is one, and adds one of its origin, unless that is too big.
    pub(crate) fn replace_sheet(
        &mut self,
        side: &mut PageSide,
        guest: &mut Option<Guest>,
        sheet: &str,
        text: &str,
        out: &mut Vec<u8>,
    ) -> Result<Option<ActFault>, AllocError>
        requires text { IsUtf8 text.now }
        requires room { side.old.sheets.next < drawn_before_step }
        ensures fault { IfOk result (λ fault. fault
            ≡ replace_fault text.now side.old.sheets.entries (sheet_named sheet.now side.old.sheets.entries)) }
        ensures stands { (state : State) → DeskStandsFor self.old side.old state
            → OnOk result (DeskStandsFor self.new side.new (act_step (Act.ReplaceSheet sheet.now text.now) state).state) }
        ensures sent { (state : State) → DeskStandsFor self.old side.old state
            → OnOk result (out.new.items
            ≡ out.old.items ++ frames_of_moves (act_step (Act.ReplaceSheet sheet.now text.now) state).moves) }
        ensures told { (other : State) → GuestStands guest.old side.old other
            → OnOk result (Hears guest.old guest.new side.new (act_step (Act.ReplaceSheet sheet.now text.now) other)) }
    {
        let Some(entry) = sheet_named(side.book(), sheet) else {
            return Ok(Some(ActFault::Sheet(SheetFault::NoSheet)));
        };
        let (number, origin) = (entry.id, entry.origin);
        if side.sheets.is_full_without(number, text) {
            return Ok(Some(ActFault::Sheet(SheetFault::TooBig)));
        }
        self.sheet_leaves(side, guest, number, out)?;
        self.sheet_comes(side, guest, origin, text, out)?;
        Ok(None)
    }
}
