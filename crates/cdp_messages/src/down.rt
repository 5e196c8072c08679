// Messages on the way down.
use crate::numbers::Numbers;
use css_objects::{Header, Listed, Matched, Media, Rule, RuleSelectors, Style};
use dom_objects::NodeTree;
use node_tree::{Attributes, Text};
use serde_json::Value;

/// A message from the back end.
#[derive(Drop)]
pub enum Down {
    /// The result is an object; what stands in it is for `read_result`.
    Reply {
        id: u64,
        result: Value,
    },
    /// An error reply, without an id where the frame that is refused had none.
    Fault {
        id: Option<u64>,
        code: i64,
        text: Text,
    },
    Event(Event),
}

/// What the back end tells unasked. Nodes are named by their ids.
#[derive(Drop)]
pub enum Event {
    /// `DOM.attributeModified`: the attribute has this value now.
    AttributeModified {
        node: u64,
        name: Text,
        value: Text,
    },
    /// `DOM.attributeRemoved`
    AttributeRemoved {
        node: u64,
        name: Text,
    },
    /// `DOM.characterDataModified`: the value of a text or a comment.
    CharacterDataModified {
        node: u64,
        text: Text,
    },
    /// `DOM.childNodeCountUpdated`: the number of children of a node whose children are not shown.
    ChildNodeCountUpdated {
        node: u64,
        count: u64,
    },
    /// `DOM.childNodeInserted`: a new child, none of whose children are shown.
    ChildNodeInserted {
        parent: u64,
        /// The sibling before it, 0 where it is the first child.
        previous: u64,
        node: NodeTree,
    },
    /// `DOM.childNodeRemoved`
    ChildNodeRemoved {
        parent: u64,
        node: u64,
    },
    /// `DOM.setChildNodes`: the children of a node, which were not shown before.
    SetChildNodes {
        /// The id of the parent.
        parent: u64,
        nodes: Vec<NodeTree>,
    },
    /// `DOM.documentUpdated`: nothing is known any more.
    DocumentUpdated,
    /// `CSS.styleSheetAdded`
    StyleSheetAdded {
        header: Header,
    },
    /// `CSS.styleSheetChanged`: the sheet of that number has another text.
    StyleSheetChanged {
        sheet: u64,
    },
    /// `CSS.styleSheetRemoved`: the sheet of that number is gone.
    StyleSheetRemoved {
        sheet: u64,
    },
    /// `Debugger.paused`
    Paused(PauseData),
}

/// Why script pauses: what was watched of the node.
#[derive(Clone, Copy, Drop)]
pub enum PauseData {
    /// `subtree-modified`: the target was put in, or else taken out or changed; 0 stands for a target that is hidden.
    Subtree {
        node: u64,
        target: u64,
        insertion: bool,
    },
    /// `attribute-modified`
    Attribute {
        node: u64,
    },
    /// `node-removed`
    Removed {
        node: u64,
    },
}

/// The result of a reply.
#[derive(Drop)]
pub enum ReplyBody {
    /// The empty result.
    Nothing,
    /// Of `DOM.getDocument`: the document.
    Root(NodeTree),
    /// Of `DOM.describeNode`: a node whose id and parent are 0, and so are those of all nodes below it.
    Node(NodeTree),
    /// The id of a node, 0 for none.
    NodeId(u64),
    /// The ids of nodes, 0 for each that is not there.
    NodeIds(Numbers),
    /// Of `DOM.getAttributes`: the names are distinct and ascend by bytes.
    Attributes(Attributes),
    /// Of `DOM.performSearch`: the number of the search, and how many nodes it found.
    Search { search: u64, count: u64 },
    /// Of `CSS.collectClassNames`
    ClassNames(Listed<Text>),
    /// Of `CSS.getStyleSheetText`
    SheetText(Text),
    /// Of `CSS.setStyleTexts`: for each edit, the style that it made.
    Styles(Listed<Style>),
    /// Of `CSS.setRuleSelector`
    Selectors(RuleSelectors),
    /// Of `CSS.addRule`
    Rule(Rule),
    /// Of `CSS.setMediaText`: the media rule with its new prelude.
    Media(Media),
    /// Of `CSS.getMatchedStylesForNode`
    Matched(Matched),
}
