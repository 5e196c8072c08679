// What the DOM agent serves.
ghost use Rattle.std.specs.Prelude.{◌≡◌};
ghost use Rattle.cdp_messages.specs.Parameters.{dom_ask_form};

use crate::method::Method;
use crate::numbers::Numbers;
use node_tree::Text;

/// A command that the DOM agent serves, with its parameters; `None` stands for one that is absent.
///
/// `depth` counts levels, and -1 stands for all; absent it counts as 1. `pierce` has no effect.
#[derive(Drop, Debug)]
pub enum DomAsk {
    /// `DOM.getDocument`
    GetDocument {
        depth: Option<i64>,
        pierce: Option<bool>,
    },
    /// `DOM.requestChildNodes`: the node is named by its id.
    RequestChildNodes {
        node: u64,
        depth: Option<i64>,
        pierce: Option<bool>,
    },
    /// `DOM.pushNodeByPathToFrontend`: the path has an index and a node name for each level below the document.
    PushByPath {
        path: Text,
    },
    /// `DOM.pushNodesByBackendIdsToFrontend`: the nodes are named by their serials.
    PushBySerials {
        serials: Numbers,
    },
    /// `DOM.querySelector`
    QuerySelector {
        node: u64,
        selector: Text,
    },
    /// `DOM.querySelectorAll`
    QuerySelectorAll {
        node: u64,
        selector: Text,
    },
    /// `DOM.getAttributes`
    GetAttributes {
        node: u64,
    },
    /// `DOM.describeNode`: the node is named by its id, or else by its serial.
    DescribeNode {
        node: Option<u64>,
        serial: Option<u64>,
        depth: Option<i64>,
        pierce: Option<bool>,
    },
}

impl DomAsk {
    /// The method that asks it.
    pub fn method(&self) -> Method
        ensures { result ≡ (dom_ask_form self.now).method }
    {
        match self {
            DomAsk::GetDocument { .. } => Method::GetDocument,
            DomAsk::RequestChildNodes { .. } => Method::RequestChildNodes,
            DomAsk::PushByPath { .. } => Method::PushByPath,
            DomAsk::PushBySerials { .. } => Method::PushBySerials,
            DomAsk::QuerySelector { .. } => Method::QuerySelector,
            DomAsk::QuerySelectorAll { .. } => Method::QuerySelectorAll,
            DomAsk::GetAttributes { .. } => Method::GetAttributes,
            DomAsk::DescribeNode { .. } => Method::DescribeNode,
        }
    }
}
