use crate::trees::Tree;
use node_tree::Text;

/// One edit of a page's tree. Nodes are named by their serials.
#[derive(Drop)]
pub enum TreeEdit {
    /// Sets the attribute of that name, or adds it.
    SetAttr {
        node: u64,
        name: Text,
        value: Text,
    },
    /// Takes the attribute of that name away.
    DropAttr {
        node: u64,
        name: Text,
    },
    /// Sets the value of a text or a comment.
    SetText {
        node: u64,
        value: Text,
    },
    /// Puts a tree before the child `before` of the parent, or last where `before` is 0.
    Attach {
        parent: u64,
        before: u64,
        tree: Tree,
    },
    /// Takes the node out, with all below it.
    Detach {
        node: u64,
    },
}
