//! The front end of the inspector: it folds the messages of a back end into a mirror of the page, keeps the replies, and prints
//! the mirror.
//!
//! Promise: `take` is exactly the fold of the frames of all bytes taken so far, with the first fault and its place; over every
//! link the mirror is empty or a tree with distinct ids and serials.
//!
//! Way in: `Front`: `ask` and `fetch` make frames, `take` and `take_owned` take what comes, `mirror`, the sheets, `replies`,
//! `pauses` and `matched_reply` are what it knows then, `stale` the sheets whose text is old; `write_outline` prints.
//!
//! Laws, in src/laws.rt: `move_law` (a front that has the view before a move takes its message and has the view after it, for
//! every move and every course) and `front_law`. The fold stands in specs/Front, what a front knows in specs/Known.
#![tactic(auto)]

mod asks;
mod changes;
mod checks;
mod child_ids;
mod edits;
mod faults;
mod folding;
mod front;
mod known;
mod laws;
mod line_texts;
mod lines;
mod mirror;
mod order_changes;
mod orders;
mod outline;
mod panels;
mod pauses;
mod places;
mod plants;
mod replies;
mod roots;
mod sheets;
mod sizes;
mod slots;
mod table;
mod table_changes;
mod table_edits;
mod table_walks;
mod told;

pub use faults::{FrameErr, FrontErr, FrontFault, FrontKind};
pub use front::{ASK_LIMIT, FETCH_LIMIT, Front};
pub use laws::{front_law, move_law};
pub use line_texts::mirror_line;
pub use lines::write_node_line;
pub use mirror::Mirror;
pub use outline::write_outline;
pub use panels::{Change, Panel, PanelKind};
pub use pauses::SeenPause;
pub use replies::{Ask, Kept, MatchedReply};
