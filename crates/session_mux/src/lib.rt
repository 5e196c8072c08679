//! Two sessions on one pipe: whose a frame is, and which session is attached beside the root's.
//!
//! Promise: `Router` answers of each frame exactly whose it is; it answers the two methods that attach and detach a session, and
//! frames of a session that is not attached, and leaves all others to the two sessions. A session's number never comes again.
//! `tag` gives each message of the attached session its `sessionId`, as the last property.
//!
//! Way in: `Router` (`new`, `route`, `attached`, `next`) for each frame that came, `tag` for the messages of the attached session.
//! What a frame of that session asks reads `read_session_command` (cdp_messages).
//!
//! Laws, in src/laws.rt: `route_law` (which frames are the attached session's, which are answered at once, that all others change
//! nothing, and how numbers go on) and `tag_law` (a session is a message's last property, and comes off again). Whose a frame is
//! stands in specs/Routes, the two methods in specs/Targets, the property in specs/Tags.
#![tactic(auto)]

mod laws;
mod replies;
mod router;
mod tags;
mod targets;

pub use laws::{route_law, tag_law};
pub use router::{Routed, Router};
pub use tags::tag;
pub use targets::Target;
