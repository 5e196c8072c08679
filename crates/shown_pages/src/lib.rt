//! The shown page: a page without the texts of white space alone, where a client asked for that (the protocol's
//! `includeWhitespace`).
//!
//! Promise: what is shown of a page is a page, and an edit of the page is one of it, or none. Each reader and each cursor is
//! exact over the shown page, and takes no memory.
//!
//! Way in: a `Mode`; `ShownNode` and `Walk` for walks down what is shown, as page_tree's `Node` and `Children`; `is_shown`,
//! `shown_len`, `shown_at` and `shown_before` by serial; `is_hidden` and `Mode::hides` for one node; `text_sight` for a text that is
//! set.
//!
//! Laws: `shown_law` (src/laws.rt), over pages alone. Modes stand in specs/Modes, the shown page in specs/ShownPages, what an
//! edit is there in specs/ShownEdits, the laws in specs/ShownLaws.
#![tactic(auto)]

mod cursors;
mod laws;
mod modes;
mod readers;
mod sights;

pub use cursors::{ShownNode, Walk};
pub use laws::shown_law;
pub use modes::{Mode, is_hidden};
pub use readers::{is_shown, shown_at, shown_before, shown_len};
pub use sights::{TextSight, text_sight};
