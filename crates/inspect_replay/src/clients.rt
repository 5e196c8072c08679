// Who is served: one client, or two on one pipe.
ghost use Rattle.std.specs.Prelude.{◌≡◌, ◌++◌, ◌↔◌, IsTrue, OnOk};
ghost use Rattle.inspect_replay.specs.Served.{Served, ClientsStandFor, AreSeated, HaveRoomLeft, served_step};

use back_end::{Mux, PageSide, Seat};
use std::alloc::AllocError;

/// The seats at the page's side.
#[derive(Drop)]
pub(crate) enum Clients {
    /// That of one client.
    Alone(Seat),
    /// Those of two clients on one pipe, of whom one is the session that the other attaches.
    Paired(Mux),
}

impl Clients {
    /// Whether each client has room for a step.
    pub(crate) fn has_room(&self, side: &PageSide) -> bool
        ensures { IsTrue result ↔ HaveRoomLeft self.now side.now }
    {
        match self {
            Clients::Alone(seat) => seat.has_room(side),
            Clients::Paired(mux) => mux.has_room(side),
        }
    }

    /// Answers one frame: what its step sends is appended to `out`.
    pub(crate) fn take_message(
        &mut self,
        side: &mut PageSide,
        frame: &[u8],
        out: &mut Vec<u8>,
    ) -> Result<(), AllocError>
        requires room { HaveRoomLeft self.old side.old }
        requires seated { AreSeated self.old side.old }
        ensures seated { AreSeated self.new side.new }
        ensures stands { (now : Served) → ClientsStandFor self.old side.old now
            → OnOk result (ClientsStandFor self.new side.new (served_step now frame.now).state) }
        ensures sent { (now : Served) → ClientsStandFor self.old side.old now
            → OnOk result (out.new.items ≡ out.old.items ++ (served_step now frame.now).sent) }
    {
        match self {
            Clients::Alone(seat) => seat.take_message(side, frame, true, out),
            Clients::Paired(mux) => mux.take_message(side, frame, true, out),
        }
    }
}
