//! The objects of the DOM as messages tell them: a node with what is shown below it, written and read, as a JSON value and token
//! by token.
//!
//! Promise: a tree of nodes is described once; what is read is spelled so and what is spelled is read; and tokens that were
//! written are those of the tree's JSON.
//!
//! Way in: `NodeTree` with `write_node` and `write_nodes`, `tree_of` and `trees_of` for values; `NodeWriter` for a message that
//! is written node by node from a page, and `scan_node` for one that is read token by token. `NodeRow` is a node without its
//! place.
//!
//! Laws: none in code; they are part of the law of messages (`spell_law` of `cdp_messages`). Which shown trees a message can
//! tell stands in specs/Tellable, a node in a message in specs/Told.
#![tactic(auto)]

mod down_err;
mod node_read;
mod node_row;
mod node_rules;
mod node_write;
mod node_writer;
mod scan;
mod takes;
mod token_write;
mod tree;
mod tree_write;

pub use cdp_json::is_counted;
pub use down_err::DownErr;
pub use node_read::{attributes_of, tree_of, trees_of};
pub use node_row::NodeRow;
pub use node_rules::{Manner, are_attribute_names, is_ascending};
pub use node_tree::{Attributes, Kind, Text};
pub use node_writer::NodeWriter;
pub use scan::scan_node;
pub use takes::{take_begin_object, take_end_object, take_key, take_whole_field};
pub use token_write::{begin_frame, end_frame};
pub use tree::NodeTree;
pub use tree_write::{write_node, write_nodes};
