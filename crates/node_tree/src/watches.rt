// What a breakpoint watches of a node.
ghost use Rattle.std.specs.Prelude.{◌≡◌};
ghost use Rattle.node_tree.specs.Watches.{watch_name};

/// The kinds of DOM breakpoints (the protocol's `DOMDebugger.DOMBreakpointType`).
#[derive(Clone, Copy)]
pub enum WatchKind {
    /// `subtree-modified`
    Subtree,
    /// `attribute-modified`
    Attribute,
    /// `node-removed`
    Removed,
}

impl WatchKind {
    /// As it stands in messages.
    pub fn as_str(self) -> &'static str
        ensures { result.now ≡ watch_name self }
    {
        match self {
            WatchKind::Subtree => "subtree-modified",
            WatchKind::Attribute => "attribute-modified",
            WatchKind::Removed => "node-removed",
        }
    }
}
