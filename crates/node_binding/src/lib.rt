//! What a session's client knows of the page, as a mode shows it: which containers are opened, and the pairs of node ids and serials.
//!
//! Promise: a `Binding` stands for a session, which is the opened set, the list of all serials that were pushed, and their
//! number at the last reset: ids are places in that list, so none is given twice.
//!
//! Way in: `Binding` with a change for each thing that happens (reset, start, an opening, an attach, a detach), and `id_of` and
//! `serial_of` between.
//!
//! Laws: `binding_law` (src/laws.rt): a binding that stands for a session with a page stands for the session after each change;
//! `deal_law`: openings to many levels come in pieces of as many as a message tells (`deal_node`, specs/Deals).
//! The cut of a page to the opened nodes stands in specs/Cuts, what an opening opens in specs/Openings, sessions in
//! specs/Sessions.
#![tactic(auto)]

mod binding;
mod laws;
mod levels;
mod pieces;

pub use binding::Binding;
pub use laws::{binding_law, deal_law};
pub use levels::{is_reached, less, levels_of};
pub use pieces::{Opening, capped, deal_node};
