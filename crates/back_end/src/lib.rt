//! The back end: the page's side, and a client's seat at it, which answers the client's frames and tells it what a script does; and two
//! seats whose clients share one pipe.
//!
//! Promise: for every state that a seat and its side stand for, they stand after a call for the state that the step gives, and
//! the frames appended are the step's. A refused frame or act changes nothing; after want of memory the seat is dead. The same is
//! promised of a `Mux` and of the states of both its clients.
//!
//! Way in: `PageSide` for the page, its sheets and the numbers that are drawn; `Seat::take_message` for a client's frame,
//! `Seat::script` for an act, `Seat::load` for another page; `Mux` with the same calls for two clients on one pipe.
//!
//! Laws, in src/laws.rt: `step_law` (after each step the state is valid, its moves lead from what the client saw to what it
//! sees, a frame is answered once under its id), `undo_law` (an undo leads to the very tree and texts that were saved, a redo
//! to those after), `search_law` (a search finds exactly the shown nodes that its query finds, and no edit changes what it
//! found), `outside_law` (what one client's frame makes of the page is a step of every other client) and `two_clients_law` (two
//! clients on one pipe: each goes on by what comes to it alone). A state stands in specs/States, each step in specs/Steps, when a
//! seat stands for a state in specs/Seats, room in specs/Laws; two clients, their steps and their laws in specs/Pairs, PairSeats and
//! PairLaws, and what another client is told meanwhile in specs/Guests.
#![tactic(auto)]

mod breakpoints;
mod desk;
mod faults;
mod guest;
mod laws;
mod load_scan;
mod mux;
mod node_edits;
mod own;
mod pauses;
mod pushes;
mod script;
mod searching;
mod seat;
mod sheet_acts;
mod sheet_edits;
mod sheets;
mod side;
mod styles;
mod tree_edits;
mod trees;
mod undoing;

pub use faults::ActFault;
pub use laws::{outside_law, search_law, start_law, step_law, two_clients_law, undo_law};
pub use mux::Mux;
pub use page_forms::{Act, ActErr, PageForm, SheetForm, read_act, read_page};
pub use page_tree::EditFault;
pub use seat::Seat;
pub use side::PageSide;
pub use style_edits::SheetFault;
