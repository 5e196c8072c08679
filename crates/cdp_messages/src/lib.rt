//! The messages of the protocol as typed values and as JSON, in frames that end with a zero byte: commands and their refusals on
//! the way up, replies, error replies and events on the way down.
//!
//! Promise: a frame is read as exactly the command that it asks, or refused with the first refusal in order; what a writer
//! appends is exactly the text of its message; what comes down is read exactly where it is a message, strictly as it is spelled.
//!
//! Way in: `read_command` for the back end, `read_session_command` for frames of an attached session, `write_reply`,
//! `write_event` and `write_refused` for its answers; `write_command`, `read_down` and `read_result` for the front end, and
//! `read_root` and `read_matched` for a document and for matched styles, each read in one pass.
//!
//! Laws: `spell_law` (src/laws.rt, specs/Laws): what is written is read again, from whatever text a value comes, and no value
//! spells two messages. `session_law` (specs/SessionFrames): a command for a session is read as the command without it. The names
//! of methods stand once, in specs/Methods, their parameters in specs/Parameters, the order of refusals in specs/Asked.
#![tactic(auto)]

mod command;
mod css_ask;
mod css_edit;
mod dom_ask;
mod dom_edit;
mod down;
mod edits;
mod event_names;
mod event_read;
mod event_write;
mod kept;
mod laws;
mod matched_reply;
mod method;
mod node_message;
mod numbers;
mod parameters;
mod read;
mod read_by;
mod receive;
mod reply_write;
mod result_read;
mod root_scan;
mod search_ask;
mod search_ids;
mod session_read;
mod tree_messages;
mod write;

pub use command::{Asked, Command, CommandErr, Param, ReadErr, Refused, WhitespaceWord, Why};
pub use css_ask::CssAsk;
pub use css_edit::CssEdit;
pub use css_objects::{
    Header, Inherited, Listed, Matched, Media, Origin, Rule, RuleMatch, RuleSelectors,
    SelectorValue, SourceRange, Style, StyleProperty, Weight,
};
pub use dom_ask::DomAsk;
pub use dom_edit::DomEdit;
pub use dom_objects::{DownErr, NodeTree};
pub use down::{Down, Event, PauseData, ReplyBody};
pub use edits::{TextEdit, TextEdits};
pub use event_write::write_event;
pub use kept::Json;
pub use laws::spell_law;
pub use matched_reply::read_matched;
pub use method::{Domains, Method, Server};
pub use node_message::NodeMessage;
pub use node_tree::{Attributes, Kind, Kind as NodeType, Text, WatchKind as WatchWord};
pub use numbers::Numbers;
pub use read::{json_of, read_ask, read_command};
pub use receive::read_down;
pub use reply_write::{append_reply, write_reply};
pub use result_read::read_result;
pub use root_scan::read_root;
pub use search_ask::SearchAsk;
pub use search_ids::search_in;
pub use session_read::{read_session_command, session_law};
pub use write::{write_command, write_refused};
