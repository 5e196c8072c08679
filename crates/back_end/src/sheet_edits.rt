// A client's edits of sheets.
ghost use Rattle.std.specs.Prelude.{◌≡◌, ◌+◌, ◌<◌, ◌++◌, map, length, OnOk, true};
ghost use Rattle.node_tree.specs.Numbers.{kept_before_group, kept_before_step};
ghost use Rattle.client_views.specs.Moves.{frames_of_moves};
ghost use Rattle.css_agent.specs.EditLaws.{HasEditTexts};
ghost use Rattle.undo_marks.specs.Marks.{entry_count, noted_singly};
ghost use Rattle.undo_marks.specs.declared.inverse_lists.Inverse.TheVariants as kept;
ghost use Rattle.back_end.specs.States.{State};
ghost use Rattle.cdp_messages.specs.declared.command.Command.TheVariants as commands;
ghost use Rattle.back_end.specs.Steps.{command_step};
ghost use Rattle.back_end.specs.Seats.{BothStandFor, DeskStandsFor, HasNumbersLeft, edits_in};
ghost use Rattle.back_end.specs.Outside.{command_outward};
ghost use Rattle.back_end.specs.Guests.{GuestStands, Hears, heard_step};

use crate::desk::Desk;
use crate::guest::{Guest, tell_guest_splices};
use crate::own::sheet_why;
use crate::side::PageSide;
use cdp_messages::CssEdit;
use std::alloc::AllocError;
use style_edits::{SheetErr, Splice};
use undo_marks::{History, Inverse};

/// Notes a client's edits of sheets by the splices that lead back, each by itself.
fn note_splices(history: &mut History, backs: Vec<Splice>) -> Result<(), AllocError>
    requires few { entry_count history.old.past + length backs.items < kept_before_group }
    ensures { OnOk result (history.new ≡ noted_singly (map (λ s. kept.Sheet s) backs.items) history.old) }
{
    for back in backs {
        history.note(Inverse::Sheet(back))?;
    }
    Ok(())
}

impl Desk {
    /// A client's edit of sheets.
    pub(crate) fn answer_sheet_edit(
        &mut self,
        history: &mut History,
        side: &mut PageSide,
        guest: &mut Option<Guest>,
        id: u64,
        edit: &CssEdit,
        out: &mut Vec<u8>,
    ) -> Result<(), AllocError>
        requires on { self.old.is_on ≡ true }
        requires css { self.old.css ≡ true }
        requires texts { HasEditTexts edit.now }
        requires room { HasNumbersLeft self.old side.old }
        requires few { edits_in history.old < kept_before_step }
        ensures stands { (state : State) → BothStandFor self.old history.old side.old state
            → OnOk result (BothStandFor self.new history.new side.new (command_step id (commands.EditCss edit.now) state).state) }
        ensures sent { (state : State) → DeskStandsFor self.old side.old state
            → OnOk result (out.new.items ≡ out.old.items ++ frames_of_moves (command_step id (commands.EditCss edit.now) state).moves) }
        ensures told { (state other : State) → DeskStandsFor self.old side.old state → GuestStands guest.old side.old other
            → OnOk result (Hears guest.old guest.new side.new (heard_step (command_outward (commands.EditCss edit.now) state) other)) }
    {
        match side.sheets.edit(&self.css, id, edit, out) {
            Ok(backs) => {
                tell_guest_splices(guest, backs.as_slice())?;
                note_splices(history, backs)
            }
            Err(SheetErr::Fault(fault)) => self.refuse(id, sheet_why(fault), out),
            Err(SheetErr::Memory) => Err(AllocError),
        }
    }
}
