//! The three kinds of panels: the outline of what a front end shows, the numbers of its nodes, and the line of one node.
//!
//! Promise: a panel that shows the face of the mirror before a change, and is told of it with the mirror after it, shows the face of
//! that mirror; after a change that begins afresh it does whatever it showed. That is what `Panel` of front_mirror asks of each.
//!
//! Way in: `OutlinePanel`, `CountsPanel` and `WatchPanel`, to be boxed by the caller and handed to a front end.
#![tactic(auto)]

mod chunks;
mod counts;
mod line_text;
mod lines;
mod numbers;
mod outline;
mod watch;

pub use counts::CountsPanel;
pub use outline::OutlinePanel;
pub use watch::WatchPanel;
