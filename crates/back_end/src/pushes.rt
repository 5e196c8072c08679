// A node becomes known at a seat.
ghost use Rattle.std.specs.Prelude.{◌≤◌, ◌+◌, ◌≡◌, ◌<◌, ◌++◌, IfOk, OnOk};
ghost use Rattle.node_tree.specs.Numbers.{drawn_before_call, drawn_by_push};
ghost use Rattle.client_views.specs.Moves.{frames_of_moves};
ghost use Rattle.back_end.specs.States.{State};
ghost use Rattle.back_end.specs.Steps.{id_told, push_step};
ghost use Rattle.back_end.specs.Seats.{DeskStandsFor, HasBegun};

use crate::desk::Desk;
use crate::side::PageSide;
use shown_pages::ShownNode;
use std::alloc::AllocError;

impl Desk {
    /// A node becomes known, and all above it. Gives its id; 0 where it is hidden, and then nothing becomes known.
    pub(crate) fn push(
        &mut self,
        side: &PageSide,
        node: u64,
        out: &mut Vec<u8>,
    ) -> Result<u64, AllocError>
        requires ids { self.old.agent.next < drawn_before_call }
        ensures few { OnOk result (self.new.agent.next ≤ self.old.agent.next + drawn_by_push) }
        ensures id { (state : State) → DeskStandsFor self.old side.now state → HasBegun state
            → IfOk result (λ id. id ≡ id_told (push_step node state).state node) }
        ensures stands { (state : State) → DeskStandsFor self.old side.now state → HasBegun state
            → OnOk result (DeskStandsFor self.new side.now (push_step node state).state) }
        ensures sent { (state : State) → DeskStandsFor self.old side.now state → HasBegun state
            → OnOk result (out.new.items ≡ out.old.items ++ frames_of_moves (push_step node state).moves) }
    {
        let Some(_) = ShownNode::find(side.page(), node, self.agent.mode()) else {
            return Ok(0);
        };
        self.agent.push(side.page(), node, out)
    }
}
