// What a client edits of the tree.
ghost use Rattle.std.specs.Prelude.{◌≡◌};
ghost use Rattle.cdp_messages.specs.Parameters.{dom_edit_form};

use crate::method::Method;
use node_tree::Text;

/// What a client wants changed in the page's tree. Nodes are named by their ids.
#[derive(Drop)]
pub enum DomEdit {
    /// `DOM.setAttributeValue`
    SetAttributeValue {
        node: u64,
        name: Text,
        value: Text,
    },
    /// `DOM.removeAttribute`
    RemoveAttribute {
        node: u64,
        name: Text,
    },
    /// `DOM.setNodeValue`
    SetNodeValue {
        node: u64,
        value: Text,
    },
    /// `DOM.removeNode`
    RemoveNode {
        node: u64,
    },
    /// `DOM.moveTo`: last in the target where `before` is absent.
    MoveTo {
        node: u64,
        target: u64,
        before: Option<u64>,
    },
    /// `DOM.copyTo`: last in the target where `before` is absent.
    CopyTo {
        node: u64,
        target: u64,
        before: Option<u64>,
    },
}

impl DomEdit {
    /// The method that asks it.
    pub fn method(&self) -> Method
        ensures { result ≡ (dom_edit_form self.now).method }
    {
        match self {
            DomEdit::SetAttributeValue { .. } => Method::SetAttributeValue,
            DomEdit::RemoveAttribute { .. } => Method::RemoveAttribute,
            DomEdit::SetNodeValue { .. } => Method::SetNodeValue,
            DomEdit::RemoveNode { .. } => Method::RemoveNode,
            DomEdit::MoveTo { .. } => Method::MoveTo,
            DomEdit::CopyTo { .. } => Method::CopyTo,
        }
    }
}
