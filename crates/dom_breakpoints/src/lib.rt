//! Breakpoints on a page's nodes (the protocol's `DOMDebugger` domain): which nodes are watched for what, and the pause that an
//! edit by script comes to.
//!
//! Promise: `pause_for` is exactly the pause of an edit, by the page before it: none, or one kind with the watched node, the
//! target and whether it was an insertion. It takes no memory. The other calls change exactly the watches that they name.
//!
//! Way in: `Watches`, a set of serials for each `WatchKind`: `set` and `remove` by a command, `forget_subtree` at a detach
//! and where a text is shown no more, `clear` at a reset.
//!
//! Laws: none; the contract of `pause_for` is the law. Watches stand in specs/Watched, the pause of an edit in specs/Pauses.
#![tactic(auto)]

mod breakpoints;
mod climbing;
mod pauses;
mod serial_sets;

pub use breakpoints::Watches;
pub use node_tree::WatchKind;
pub use pauses::Pause;
