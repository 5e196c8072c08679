//! The page: a tree of nodes, each with a serial for the whole run, read from a load, asked by serial, and changed by edits.
//!
//! Promise: a load is read exactly, or refused with its first fault by number; an edit gives the plain tree after it and answers
//! the edit that leads back, or names its first fault and leaves the page as it was.
//!
//! Way in: `read_nodes`, `read_flat` (nodes as a flat list of rows) and `Page::load`; the readers of
//! `Page` by serial; `Page::apply` with a `TreeEdit`; the cursors `Node` and `Children` for walks down, `NodeRef` for walks every way.
//! `insert_fault`, `move_fault`, `copy_fault`, `grow` and `copy` for acts of several edits.
//!
//! Laws: `flat_law` (src/flat.rt); `after_law`, `back_law`, `insert_law`, `copy_law`, `move_law` (src/edit_laws.rt) and
//! `relation_law` (src/relations.rt), over pages alone. The page and what makes it valid stand in specs/Pages, edits in
//! specs/Edits. The slab that keeps the nodes is in no clause of a caller.
#![tactic(auto)]

mod arenas;
mod attributes;
mod cursors;
mod edit_faults;
mod edit_laws;
mod edits;
mod faults;
mod flat;
mod flat_rows;
mod forms;
mod grafts;
mod labels;
mod limits;
mod loads;
mod nested;
mod node_refs;
mod numbering;
mod outlines;
mod page_edits;
mod page_faults;
mod pages;
mod relations;
mod slots;
mod tree_limits;
mod trees;
mod walks;

pub use attributes::order_pairs;
pub use cursors::{Children, Node};
pub use edit_faults::{EditErr, EditFault};
pub use edit_laws::{after_law, back_law, copy_law, insert_law, move_law};
pub use edits::TreeEdit;
pub use faults::{LoadErr, LoadFault};
pub use flat::{flat_law, read_flat};
pub use forms::NodeForm;
pub use limits::limit_fault;
pub use loads::{read_node, read_nodes};
pub use node_refs::NodeRef;
pub use node_tree::{Attributes, Kind, Text};
pub use pages::Page;
pub use relations::relation_law;
pub use trees::Tree;
