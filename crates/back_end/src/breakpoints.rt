// Watched nodes, and the pauses that a script's edits come to.
ghost use Rattle.std.specs.Prelude.{◌≡◌, ◌++◌, OnOk, true};
ghost use Rattle.client_views.specs.Moves.{frames_of_moves};
ghost use Rattle.back_end.specs.States.{State};
ghost use Rattle.back_end.specs.Steps.{command_step, watch_command, watch_change};
ghost use Rattle.back_end.specs.Seats.{DeskStandsFor};

use crate::desk::Desk;
use crate::side::PageSide;
use cdp_messages::{ReplyBody, Why, write_reply};
use dom_breakpoints::{WatchKind, Watches};
use std::alloc::AllocError;

// The watch of a node is set, or it ends.
fn set_or_end(
    watches: &mut Watches,
    serial: u64,
    kind: WatchKind,
    sets: bool,
) -> Result<(), AllocError>
    ensures { OnOk result (watches.new ≡ watch_change sets kind serial watches.old) }
{
    if sets {
        return watches.set(serial, kind);
    }
    watches.remove(serial, kind);
    Ok(())
}

impl Desk {
    /// `DOMDebugger.setDOMBreakpoint`, by which a watch of a node is set, or `DOMDebugger.removeDOMBreakpoint`, by which it ends.
    pub(crate) fn watch(
        &mut self,
        side: &PageSide,
        id: u64,
        node: u64,
        kind: WatchKind,
        sets: bool,
        out: &mut Vec<u8>,
    ) -> Result<(), AllocError>
        requires on { self.old.is_on ≡ true }
        ensures stands { (state : State) → DeskStandsFor self.old side.now state
            → OnOk result (DeskStandsFor self.new side.now (command_step id (watch_command sets node kind) state).state) }
        ensures sent { (state : State) → DeskStandsFor self.old side.now state
            → OnOk result (out.new.items ≡ out.old.items ++ frames_of_moves (command_step id (watch_command sets node kind) state).moves) }
    {
        // The clauses alone speak of the page.
        let _ = side;
        let Some(serial) = self.agent.serial_of(node) else {
            return self.refuse(id, Why::UnknownNode, out);
        };
        set_or_end(&mut self.watches, serial, kind, sets)?;
        write_reply(self.alloc, id, &ReplyBody::Nothing, out)
    }
}
