use node_tree::WatchKind;

/// Why an edit pauses (the `data` of `Debugger.paused`). Nodes are named by their serials.
#[derive(Clone, Copy)]
pub struct Pause {
    pub kind: WatchKind,
    /// The node with the watch.
    pub node: u64,
    /// Of a subtree watch, the node that is changed, or that another one is put into.
    pub target: Option<u64>,
    /// A node is put in.
    pub insertion: bool,
}
