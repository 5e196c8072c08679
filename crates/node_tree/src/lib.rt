//! The definitions that a page, its cut, the messages and the mirror share: ordered trees of nodes with a row at each, and what
//! a node of a document has beside its place, its kind, name, value and attributes.
//!
//! Promise: a `Text` and an `Attributes` list give back exactly what was put in; `set_attribute` and `drop_attribute` keep a
//! list ascending by names; the tests of names are their forms.
//!
//! Way in: `Text`, `Attributes` and `Kind` for code; `Nodes` (first child, next sibling, any row) and `Labels` in specs/ for
//! contracts above.
//!
//! Laws: none in code. The lemmas that all crates above stand on are public in proofs/: a node found, put and changed by a key
//! (`Keys`), and trees kept in slots (`Arena`), generic in the row, the slot and the map.
#![tactic(auto)]

mod attribute_edits;
mod attribute_lists;
mod attribute_walks;
mod limits;
mod name_searches;
mod names;
mod origins;
mod shelves;
mod short_lists;
mod texts;
mod watches;

pub use attribute_edits::{drop_attribute, set_attribute};
pub use attribute_lists::Attributes;
pub use attribute_walks::Pairs;
pub use limits::{MAX_LEVEL, MAX_NODES, MAX_SHEET_BYTES, MAX_SHEETS, MOST_LEVELS, MOST_TOLD};
pub use names::{is_attribute_name, is_element_name};
pub use origins::Origin;
pub use short_lists::make_room;
pub use texts::Text;
pub use watches::WatchKind;

/// The kinds of nodes of a document (DOM, section 4.4), those that this page model has.
#[derive(Clone, Copy)]
pub enum Kind {
    Document,
    Element,
    Text,
    Comment,
    Doctype,
}

impl Kind {
    ghost use Rattle.std.specs.Prelude.{◌≡◌};
    ghost use Rattle.node_tree.specs.Labels.{is_document, is_element, holds, has_value};

    /// The document itself.
    pub fn is_document(self) -> bool
        ensures { result ≡ is_document self }
    {
        match self {
            Kind::Document => true,
            Kind::Element | Kind::Text | Kind::Comment | Kind::Doctype => false,
        }
    }

    /// An element.
    pub fn is_element(self) -> bool
        ensures { result ≡ is_element self }
    {
        match self {
            Kind::Element => true,
            Kind::Document | Kind::Text | Kind::Comment | Kind::Doctype => false,
        }
    }

    /// What may have children: the document or an element.
    pub fn is_container(self) -> bool
        ensures { result ≡ holds self }
    {
        match self {
            Kind::Document | Kind::Element => true,
            Kind::Text | Kind::Comment | Kind::Doctype => false,
        }
    }

    /// A text or a comment.
    pub fn has_value(self) -> bool
        ensures { result ≡ has_value self }
    {
        match self {
            Kind::Text | Kind::Comment => true,
            Kind::Document | Kind::Element | Kind::Doctype => false,
        }
    }
}

#[cfg(test)]
mod tests;
