//! The back end's side of the protocol's CSS commands, over a page and a book of sheets: reads, edits, and the events of sheets.
//!
//! Promise: `switch` tells each sheet once where the domain comes on; `ask` appends exactly the reply to a command that edits
//! nothing; `edit` makes an edit of the book, appends its events and its reply, and answers the splices that lead back, or its
//! first fault, and then nothing is changed.
//!
//! Way in: `CssAgent`, one for each client; `told_header` and `sheet_named` for who tells of sheets.
//!
//! Law: `edit_law` (src/laws.rt, specs/EditLaws): an edit that has no fault is one splice for each of its edits, its reply is of its
//! method, and a rule that it tells of is there, but for an edit of a prelude. What each command comes to stands in specs/Asks and
//! specs/Edits, matched styles in specs/MatchedStyles.
#![tactic(auto)]

mod agent;
mod class_names;
mod edit_outcomes;
mod edit_words;
mod edited_rules;
mod frames;
mod headers;
mod laws;
mod matched_styles;
mod media_around;
mod outcomes;
mod rulers;
mod rules;
mod styles;
mod units;

pub use agent::CssAgent;
pub use headers::told_header;
pub use laws::{around_law, class_names_law, edit_law};
pub use outcomes::sheet_named;
