//! The back end's side of the protocol's DOM commands: it answers them from a page, and tells the events of an edit.
//!
//! Promise: `ask` appends exactly the frames that answer a command: the reply last, but for a document's, behind which come the
//! pieces that lie deeper than one message tells; `push` those that make a node known; `edit` makes an edit of the page and
//! appends exactly its events, or names its fault and changes nothing; `edit_both` does so for two clients of one page.
//!
//! Way in: `DomAgent`, one for each client. What a command comes to is defined once, over any keeper of the opened set and the
//! ids (`outcome`, specs/Requests), for the session and for the tables alike.
//!
//! Laws, in src/laws.rt: `serve_law` (each command is a list of moves from the client's view before to that after, what is
//! opened is a set over the tree, the tables follow the session), `edit_law` (the same of an edit of the page) and `mode_law`
//! (the same of an edit for a client that is shown what a mode shows).
#![tactic(auto)]

mod agent;
mod described;
mod edits;
mod edits_both;
mod foresight;
mod laws;
mod openings;
mod paths;
mod pushes;
mod queries;
mod serving;
mod told;

pub use agent::DomAgent;
pub use laws::{edit_law, mode_law, serve_law};
