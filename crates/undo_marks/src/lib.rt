//! The history of a client's edits, kept as the edits that take them back.
//!
//! Promise: each call of `History` changes exactly the two lists of groups (what may be taken back, what may be done again) and
//! the two flags (whether a group is going on, whether a script's change crossed the history).
//!
//! Way in: `History`: `note` an edit by the one that leads back, `mark` the end of a group, `pop_undo` and `pop_redo` hand out a
//! group, `push_undone` and `push_redone` put back what was carried out (`pop` and `push` take the direction), `cross` and `clear`
//! empty it.
//!
//! Laws, in src/laws.rt: `saved_pages_law` (the kept edits lead through the very pages that were saved, with no fault and no
//! limit) and `history_law` (the same for any edits whose inverses keep three laws). Histories by saved pages stand in
//! specs/Marks and specs/Changes.
#![tactic(auto)]

mod groups;
mod histories;
mod inverse_lists;
mod laws;

pub use histories::{Direction, History};
pub use inverse_lists::{Inverse, Inverses, Popped};
pub use laws::{history_law, saved_pages_law};
